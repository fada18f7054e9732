//! Reads escapes.
ghost use Rattle.std.specs.Prelude.{◌≡◌, ◌<◌, ◌^◌, ◌+◌, ◌*◌, ◌∷◌, ◌++◌, [], ℕ, List, min, nat_le, nat_lt, true};
ghost use Rattle.std.specs.Prelude.{if◌then◌else◌, MatchOption};
ghost use Rattle.std.specs.Char.{digit_value, is_ascii};
ghost use Rattle.std.specs.List.{list_all};
ghost use Rattle.std.specs.Option.{IfSome};
ghost use Rattle.rustc_literal_escaper.specs.model.Escape as spec;
ghost use Rattle.rustc_literal_escaper.specs.declared.element.Element.TheVariants.{Byte};
ghost use Rattle.rustc_literal_escaper.specs.model.Escape.{closed_at_run, StartsWith};

use crate::element::Element;
use crate::element::Element::{Byte, Diagnostic};
use crate::error::EscapeError;
use crate::text::Text;

/// The maximum number of digits between braces.
const MOST_DIGITS: usize = 6;

/// Reads the escape after a backslash.
#[inline(always)]
pub fn read_escape<T: Text>(rest: &mut T) -> Element
    ensures same { T.offset_of rest.new ≡ T.offset_of rest.old }
    ensures read { (result, T.left rest.new) ≡ spec.escape (T.left rest.old) }
{
    let next = rest.next_char();
    escape_at(next, rest)
}

/// Returns the number with these digits, if there are at most six and no underscores.
#[inline(never)]
#[tactic(auto, using(crate::proofs::DigitLemmas::digit_lemmas, crate::proofs::WholeLemmas::whole_lemmas, std::proofs::lemmas::Grind::common_steps))]
pub(crate) fn whole_number(first: u8, digits: &[u8]) -> Option<Element>
    ensures { IfSome result (λ e. (list_all is_ascii (first ∷ digits.now) ≡ true)
        × ((e, []) ≡ spec.braced (first ∷ digits.now ++ (125 ∷ [])))) }
{
    let mut value = hex_digit(first as char)?;
    let mut count: usize = 1;
    let mut rest = digits;
    'digits: while let Some((byte, tail)) = rest.split_first() {
        let Some(digit) = hex_digit(*byte as char) else {
            return None;
        };
        if count == MOST_DIGITS {
            return None;
        }
        value = value * 16 + digit;
        count += 1;
        rest = tail;
    }
    Some(Element::Unicode(value))
}

/// Reads the escape after a backslash. `next` is the character after the backslash, and `rest` is the text after that.
#[inline(always)]
pub(crate) fn escape_at<T: Text>(next: Option<char>, rest: &mut T) -> Element
    ensures same { T.offset_of rest.new ≡ T.offset_of rest.old }
    ensures read { (s : List ℕ) → StartsWith s next (T.left rest.old)
        → (result, T.left rest.new) ≡ spec.escape s }
{
    let Some(c) = next else {
        return Element::Diagnostic(EscapeError::LoneSlash);
    };
    match c {
        'x' => hex(rest),
        // The call gets a copy, so that `rest` can stay in registers.
        'u' => {
            let mut ahead = rest.copy();
            let element = unicode(&mut ahead);
            *rest = ahead;
            element
        }
        _ => short(c),
    }
}

/// Reads the escape after a backslash if it is an escape for a byte. Otherwise, it returns `None` and reads nothing.
///
/// Most escapes are for bytes. The parameters are those of [`escape_at`].
#[inline(always)]
pub(crate) fn byte_escape<T: Text>(next: Option<char>, rest: &mut T) -> Option<u8>
    ensures same { T.offset_of rest.new ≡ T.offset_of rest.old }
    ensures read { MatchOption result (T.left rest.new ≡ T.left rest.old)
        (λ value. (s : List ℕ) → StartsWith s next (T.left rest.old)
        → (Byte value, T.left rest.new) ≡ spec.escape s) }
{
    let c = next?;
    if let Byte(byte) = short(c) {
        return Some(byte);
    }
    if c == 'x' { hex_byte(rest) } else { None }
}

/// The element for a backslash and a character that are not an escape.
const NONE: Element = Diagnostic(EscapeError::InvalidEscape);

// The values of the other short escapes.
const NUL: Element = Byte(0);

const TAB: Element = Byte(b'\t');

const NEWLINE: Element = Byte(b'\n');

const RETURN: Element = Byte(b'\r');

const DOUBLE: Element = Byte(b'"');

const QUOTE: Element = Byte(b'\'');

const BACKSLASH: Element = Byte(b'\\');

/// The element for a backslash and each ASCII character except `x` and `u`. A lookup in a table costs less than a
/// branch, since the next escape is hard to predict.
static SHORT: [Element; 128] = [
    NONE, NONE, NONE, NONE, NONE, NONE, NONE, NONE, NONE, NONE, NONE, NONE, NONE, NONE, NONE, NONE,
    NONE, NONE, NONE, NONE, NONE, NONE, NONE, NONE, NONE, NONE, NONE, NONE, NONE, NONE, NONE, NONE,
    NONE, NONE, DOUBLE, NONE, NONE, NONE, NONE, QUOTE, NONE, NONE, NONE, NONE, NONE, NONE, NONE,
    NONE, NUL, NONE, NONE, NONE, NONE, NONE, NONE, NONE, NONE, NONE, NONE, NONE, NONE, NONE, NONE,
    NONE, NONE, NONE, NONE, NONE, NONE, NONE, NONE, NONE, NONE, NONE, NONE, NONE, NONE, NONE, NONE,
    NONE, NONE, NONE, NONE, NONE, NONE, NONE, NONE, NONE, NONE, NONE, NONE, NONE, BACKSLASH, NONE,
    NONE, NONE, NONE, NONE, NONE, NONE, NONE, NONE, NONE, NONE, NONE, NONE, NONE, NONE, NONE, NONE,
    NEWLINE, NONE, NONE, NONE, RETURN, NONE, TAB, NONE, NONE, NONE, NONE, NONE, NONE, NONE, NONE,
    NONE, NONE, NONE,
];

/// Returns the element for a backslash and this character.
#[inline(always)]
pub(crate) fn short(c: char) -> Element
    ensures { result ≡ spec.short c }
{
    let code = c as usize;
    if code < 128 { SHORT[code] } else { NONE }
}

/// The value of each ASCII character as a hexadecimal digit, or 16. A table costs less than a branch here too.
static DIGITS: [u8; 128] = [
    16, 16, 16, 16, 16, 16, 16, 16, 16, 16, 16, 16, 16, 16, 16, 16, 16, 16, 16, 16, 16, 16, 16, 16,
    16, 16, 16, 16, 16, 16, 16, 16, 16, 16, 16, 16, 16, 16, 16, 16, 16, 16, 16, 16, 16, 16, 16, 16,
    0, 1, 2, 3, 4, 5, 6, 7, 8, 9, 16, 16, 16, 16, 16, 16, 16, 10, 11, 12, 13, 14, 15, 16, 16, 16,
    16, 16, 16, 16, 16, 16, 16, 16, 16, 16, 16, 16, 16, 16, 16, 16, 16, 16, 16, 16, 16, 16, 16, 10,
    11, 12, 13, 14, 15, 16, 16, 16, 16, 16, 16, 16, 16, 16, 16, 16, 16, 16, 16, 16, 16, 16, 16, 16,
    16, 16, 16, 16, 16, 16,
];

/// Returns the value of a hexadecimal digit, or `None` for any other character.
#[inline(always)]
fn hex_digit(c: char) -> Option<u32>
    ensures { MatchOption result (digit_value c < 16 → ⊥)
        (λ v. (digit_value c < 16) × (v ≡ digit_value c)) }
{
    let digit = digit_or_16(c);
    if digit < 16 {
        Some(u32::from(digit))
    } else {
        None
    }
}

/// Returns the value of a hexadecimal digit, or 16 for any other character.
#[inline(always)]
fn digit_or_16(c: char) -> u8
    ensures { result ≡ min (digit_value c) 16 }
{
    let code = c as usize;
    if code < 128 { DIGITS[code] } else { 16 }
}

/// Reads the two digits after an `x`.
#[inline(always)]
fn hex<T: Text>(rest: &mut T) -> Element
    ensures same { T.offset_of rest.new ≡ T.offset_of rest.old }
    ensures read { (result, T.left rest.new) ≡ spec.hex (T.left rest.old) }
{
    let Some(high) = rest.next_char() else {
        return Element::Diagnostic(EscapeError::TooShortHexEscape);
    };
    let Some(high) = hex_digit(high) else {
        return Element::Diagnostic(EscapeError::InvalidCharInHexEscape);
    };
    let Some(low) = rest.next_char() else {
        return Element::Diagnostic(EscapeError::TooShortHexEscape);
    };
    let Some(low) = hex_digit(low) else {
        return Element::Diagnostic(EscapeError::InvalidCharInHexEscape);
    };
    Element::Byte((high * 16 + low) as u8)
}

/// Reads the two digits after an `x` if they are valid. Otherwise, it returns `None` and reads nothing.
#[inline(always)]
fn hex_byte<T: Text>(rest: &mut T) -> Option<u8>
    ensures same { T.offset_of rest.new ≡ T.offset_of rest.old }
    ensures read { MatchOption result (T.left rest.new ≡ T.left rest.old)
        (λ value. (Byte value, T.left rest.new) ≡ spec.hex (T.left rest.old)) }
{
    let mut ahead = rest.copy();
    let high = digit_or_16(ahead.next_char()?);
    let low = digit_or_16(ahead.next_char()?);
    if high < 16 && low < 16 {
        *rest = ahead;
        return Some(high * 16 + low);
    }
    None
}

/// Reads the number between braces after a `u`.
#[inline(never)]
fn unicode<T: Text>(rest: &mut T) -> Element
    ensures same { T.offset_of rest.new ≡ T.offset_of rest.old }
    ensures read { (result, T.left rest.new) ≡ spec.unicode (T.left rest.old) }
{
    let Some(brace) = rest.next_char() else {
        return Element::Diagnostic(EscapeError::NoBraceInUnicodeEscape);
    };
    if brace != '{' {
        return Element::Diagnostic(EscapeError::NoBraceInUnicodeEscape);
    }
    // The loop over the digits reads a copy, which stays in registers.
    let mut ahead = rest.copy();
    let element = braced(&mut ahead);
    *rest = ahead;
    element
}

/// Reads a number up to the closing brace.
#[inline(always)]
#[tactic(auto, using(crate::proofs::DigitLemmas::digit_lemmas))]
fn braced<T: Text>(rest: &mut T) -> Element
    ensures same { T.offset_of rest.new ≡ T.offset_of rest.old }
    ensures read { (result, T.left rest.new) ≡ spec.braced (T.left rest.old) }
{
    let Some(first) = rest.next_char() else {
        return Element::Diagnostic(EscapeError::UnclosedUnicodeEscape);
    };
    match first {
        '_' => Element::Diagnostic(EscapeError::LeadingUnderscoreUnicodeEscape),
        '}' => Element::Diagnostic(EscapeError::EmptyUnicodeEscape),
        _ => match hex_digit(first) {
            Some(digit) => digits(digit, rest),
            None => Element::Diagnostic(EscapeError::InvalidCharInUnicodeEscape),
        },
    }
}

/// Reads the digits after the first one, up to the closing brace.
#[inline(always)]
#[tactic(auto, using(crate::proofs::DigitLemmas::digit_lemmas))]
fn digits<T: Text>(first: u32, rest: &mut T) -> Element
    requires digit { first < 16 }
    ensures same { T.offset_of rest.new ≡ T.offset_of rest.old }
    ensures read { (c : ℕ) → digit_value c < 16 → first ≡ digit_value c
        → (result, T.left rest.new) ≡ closed_at_run (c ∷ T.left rest.old) }
{
    let mut value = first;
    let mut count: usize = 1;
    'digits: loop {
        let Some(c) = rest.next_char() else {
            return Element::Diagnostic(EscapeError::UnclosedUnicodeEscape);
        };
        let Some(digit) = hex_digit(c) else {
            match c {
                '_' => continue,
                '}' => return Element::Unicode(value),
                _ => return Element::Diagnostic(EscapeError::InvalidCharInUnicodeEscape),
            }
        };
        if count == MOST_DIGITS {
            return overlong(rest);
        }
        value = value * 16 + digit;
        count += 1;
    }
}

/// Reads the rest of a number with too many digits, up to the closing brace.
#[inline(always)]
#[tactic(auto, using(crate::proofs::DigitLemmas::digit_lemmas))]
fn overlong<T: Text>(rest: &mut T) -> Element
    ensures same { T.offset_of rest.new ≡ T.offset_of rest.old }
    ensures read { (result, T.left rest.new) ≡ spec.overlong (T.left rest.old) }
{
    'digits: loop {
        let Some(c) = rest.next_char() else {
            return Element::Diagnostic(EscapeError::UnclosedUnicodeEscape);
        };
        if c == '}' {
            return Element::Diagnostic(EscapeError::OverlongUnicodeEscape);
        }
        if c != '_' && hex_digit(c).is_none() {
            return Element::Diagnostic(EscapeError::InvalidCharInUnicodeEscape);
        }
    }
}
