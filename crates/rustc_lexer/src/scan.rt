//! Reads the first characters of a text, and skips leading characters of a class.
ghost use Rattle.std.specs.Prelude.{◌≡◌, ◌<◌, ◌≤◌, ℕ, ◌∷◌, [], length, Bool, not, ◌&&◌, true, false, MatchOption};
ghost use Rattle.std.specs.Prelude.{slice_index};
ghost use Rattle.std.specs.Char.{is_ascii_digit, is_ascii_hexdigit};
ghost use Rattle.std.specs.List.{prefix_len};
ghost use Rattle.std.specs.Str.{chars};
ghost use Rattle.memchr.specs.Find.{is_byte, is_byte2};
ghost use Rattle.rustc_lexer.specs.model.ByteRuns.{is_wide};
ghost use Rattle.rustc_lexer.specs.Classes;
ghost use Rattle.rustc_lexer.specs.model.Number.{or_underscore};
ghost use Rattle.rustc_lexer.specs.model.Raw;
ghost use Rattle.rustc_lexer.specs.model.Raw.{hash_run};
ghost use Rattle.rustc_lexer.specs.model.Scan;
ghost use Rattle.rustc_lexer.specs.model.Scan.{begins, past, run_len};

use crate::classes::{is_id_continue, is_whitespace};
use crate::kernels::{Continue, Space, ends_space, find_byte, find_either, run_end, short_run_end};

/// Returns the first character, or U+0000 if the text is empty.
pub(crate) fn first(rest: &str) -> char
    ensures { result ≡ slice_index (chars rest.now) 0 }
{
    rest.chars().next().unwrap_or('\0')
}

/// Returns the second character, or U+0000 if the text has fewer than two.
pub(crate) fn second(rest: &str) -> char
    ensures { result ≡ slice_index (chars rest.now) 1 }
{
    match split_first(rest) {
        Some((_, tail)) => first(tail),
        None => '\0',
    }
}

/// Returns the third character, or U+0000 if the text has fewer than three.
pub(crate) fn third(rest: &str) -> char
    ensures { result ≡ slice_index (chars rest.now) 2 }
{
    match split_first(rest) {
        Some((_, tail)) => second(tail),
        None => '\0',
    }
}

/// Returns the first character and the text after it, or `None` if the text is empty.
#[inline(always)]
pub(crate) fn split_first(rest: &str) -> Option<(char, &str)>
    ensures { MatchOption result (chars rest.now ≡ [])
        (λ r. (chars rest.now ≡ r.0 ∷ chars r.1.now) × (r.1.now ≡ past 1 rest.now)
        × (length r.1.now < length rest.now)) }
{
    let mut chars = rest.chars();
    let first = chars.next()?;
    Some((first, chars.as_str()))
}

/// Returns whether there is a next character and it passes the test.
#[inline(always)]
pub(crate) fn next_is<F: Fn(char) -> bool>(rest: &str, test: F) -> bool
    requires callable { F.IsAlwaysCallable test }
    ensures { (class : ℕ → Bool) → ((c : ℕ) (b : Bool) → F.post test c b → b ≡ class c)
        → result ≡ Scan.next_is class (chars rest.now) }
{
    match split_first(rest) {
        Some((c, _)) => test(c),
        None => false,
    }
}

/// Returns whether the text starts with the ASCII character `byte`.
#[inline(always)]
#[tactic(auto, using(crate::proofs::lemmas::tokens::ByteSearch::begins_small, std::proofs::lemmas::Grind::common_steps))]
pub(crate) fn begins_with(rest: &str, byte: u8) -> bool
    requires { byte < 128 }
    ensures { result ≡ begins (byte ∷ []) (chars rest.now) }
{
    match rest.as_bytes().first() {
        Some(first) => *first == byte,
        None => false,
    }
}

/// Returns the text after the ASCII character `byte`, or `None` if the text does not start with it.
#[inline(always)]
pub(crate) fn strip(rest: &str, byte: u8) -> Option<&str>
    requires ascii { byte < 128 }
    ensures { MatchOption result (begins (byte ∷ []) (chars rest.now) ≡ false)
        (λ tail. (begins (byte ∷ []) (chars rest.now) ≡ true) × (tail.now ≡ past 1 rest.now)
        × (length tail.now < length rest.now)) }
{
    if begins_with(rest, byte) {
        Some(&rest[1..])
    } else {
        None
    }
}

/// Returns the text after one of two ASCII characters, or `None` if the text starts with neither.
#[inline(always)]
pub(crate) fn strip_either(rest: &str, one: u8, two: u8) -> Option<&str>
    requires one { one < 128 }
    requires two { two < 128 }
    ensures { MatchOption result (Scan.next_is (is_byte2 one two) (chars rest.now) ≡ false)
        (λ tail. (Scan.next_is (is_byte2 one two) (chars rest.now) ≡ true)
        × (tail.now ≡ past 1 rest.now)
        × (length tail.now < length rest.now)) }
{
    match strip(rest, one) {
        Some(tail) => Some(tail),
        None => strip(rest, two),
    }
}

/// Returns how many leading bytes pass the test. These are usually few, so it reads one byte at a time.
#[inline(always)]
fn front_end<F: Fn(u8) -> bool>(bytes: &[u8], test: F) -> usize
    requires callable { F.IsAlwaysCallable test }
    ensures value { (class : ℕ → Bool)
        → ((b : ℕ) (passes : Bool) → F.post test b passes → passes ≡ class b)
        → result ≡ prefix_len class bytes.now }
    ensures inside { result ≤ length bytes.now }
{
    let mut end = 0;
    'front: while end < bytes.len() && test(bytes[end]) {
        end += 1;
    }
    end
}

/// Returns the text after its leading hashes.
#[inline(always)]
pub(crate) fn eat_hashes(rest: &str) -> &str
    ensures shorter { length result.now ≤ length rest.now }
    ensures past { result.now ≡ past (hash_run (chars rest.now)) rest.now }
{
    &rest[front_end(rest.as_bytes(), is_hash)..]
}

fn is_hash(byte: u8) -> bool
    ensures { result ≡ Raw.is_hash byte }
{
    byte == b'#'
}

/// Returns the text after the leading characters that pass the test.
pub(crate) fn eat_while<F: Fn(char) -> bool>(rest: &str, test: F) -> &str
    requires callable { F.IsAlwaysCallable test }
    ensures shorter { length result.now ≤ length rest.now }
    ensures past { (class : ℕ → Bool) → ((c : ℕ) (b : Bool) → F.post test c b → b ≡ class c)
        → result.now ≡ past (run_len class (chars rest.now)) rest.now }
{
    let mut left = rest;
    'chars: while let Some((c, tail)) = split_first(left) {
        if !test(c) {
            return left;
        }
        left = tail;
    }
    left
}

/// Returns whether the next character is outside ASCII.
#[inline(always)]
fn begins_wide(rest: &str) -> bool
    ensures { result ≡ Scan.next_is is_wide rest.now }
{
    match rest.as_bytes().first() {
        Some(byte) => *byte >= 128,
        None => false,
    }
}

/// Returns the text after the leading characters that can continue an identifier.
#[inline]
pub(crate) fn eat_continue(rest: &str) -> &str
    ensures shorter { length result.now ≤ length rest.now }
    ensures past { result.now ≡ past (run_len Classes.is_id_continue (chars rest.now)) rest.now }
{
    let left = &rest[short_run_end::<Continue>(rest.as_bytes())..];
    if begins_wide(left) {
        eat_while(left, is_id_continue)
    } else {
        left
    }
}

/// Returns the text after its leading whitespace.
#[inline]
pub(crate) fn eat_whitespace(rest: &str) -> &str
    ensures shorter { length result.now ≤ length rest.now }
    ensures past { result.now ≡ past (run_len Classes.is_whitespace (chars rest.now)) rest.now }
{
    let left = &rest[run_end::<Space>(rest.as_bytes())..];
    if ends_space(left.as_bytes(), 0) {
        left
    } else {
        eat_while(left, is_whitespace)
    }
}

/// Returns the text from the first ASCII byte `stop` on, or the empty text if there is none.
#[inline(always)]
pub(crate) fn eat_until(rest: &str, stop: u8) -> &str
    requires ascii { stop < 128 }
    ensures shorter { length result.now ≤ length rest.now }
    ensures past { result.now
        ≡ past (run_len (λ c. not (is_byte stop c)) (chars rest.now)) rest.now }
{
    match find_byte(stop, rest.as_bytes()) {
        Some(offset) => &rest[offset..],
        None => "",
    }
}

/// Returns the text from the first of two ASCII bytes on, or the empty text if there is neither.
#[inline(always)]
pub(crate) fn eat_until_either(rest: &str, one: u8, two: u8) -> &str
    requires one { one < 128 }
    requires two { two < 128 }
    ensures shorter { length result.now ≤ length rest.now }
    ensures past { result.now
        ≡ past (run_len (λ c. not (is_byte2 one two c)) (chars rest.now)) rest.now }
{
    match find_either(one, two, rest.as_bytes()) {
        Some(offset) => &rest[offset..],
        None => "",
    }
}

/// Returns the text after its leading digits and underscores.
#[inline]
pub(crate) fn eat_decimal(rest: &str) -> &str
    ensures shorter { length result.now ≤ length rest.now }
    ensures past { result.now
        ≡ past (run_len (or_underscore is_ascii_digit) (chars rest.now)) rest.now }
{
    &rest[front_end(rest.as_bytes(), is_digit_or_underscore)..]
}

/// Returns the text after its leading hexadecimal digits and underscores.
#[inline]
pub(crate) fn eat_hexadecimal(rest: &str) -> &str
    ensures shorter { length result.now ≤ length rest.now }
    ensures past { result.now
        ≡ past (run_len (or_underscore is_ascii_hexdigit) (chars rest.now)) rest.now }
{
    &rest[front_end(rest.as_bytes(), is_hex_digit_or_underscore)..]
}

fn is_digit_or_underscore(byte: u8) -> bool
    ensures { result ≡ or_underscore is_ascii_digit byte }
{
    byte.is_ascii_digit() || byte == b'_'
}

fn is_hex_digit_or_underscore(byte: u8) -> bool
    ensures { result ≡ or_underscore is_ascii_hexdigit byte }
{
    byte.is_ascii_hexdigit() || byte == b'_'
}
