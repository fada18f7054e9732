//! Raw strings.
ghost use Rattle.std.specs.Prelude.{◌≡◌, suc, ◌+◌, ◌<◌, ◌^◌, [], ◌∷◌, length, drop, MatchOption};
ghost use Rattle.std.specs.Str.{byte, chars};
ghost use Rattle.rustc_lexer.specs.declared.lexemes.raw.RawPrefix.{RawPrefix};
ghost use Rattle.rustc_lexer.specs.model.Raw as spec;
ghost use Rattle.rustc_lexer.specs.model.Scan.{past, run_len, scanned};

use crate::lexemes::literal::eat_literal_suffix;
use crate::scan::{eat_hashes, eat_until, split_first, strip};
use crate::token::{LiteralKind, RawStrError, TokenKind};

/// The prefix of a raw string.
#[derive(Clone, Copy)]
pub(crate) enum RawPrefix {
    /// `r`
    R,
    /// `br`
    Br,
    /// `cr`
    Cr,
}

/// Lexes a raw string. Returns its kind, and the text after it. `rest` is the text after its prefix.
#[inline(always)]
#[tactic(auto, using(crate::specs::laws::Scan::scan_lemmas, std::proofs::lemmas::Grind::common_steps))]
pub(crate) fn raw_literal(prefix: RawPrefix, rest: &str) -> (TokenKind, &str)
    requires fits { spec.prefix_len prefix + length rest.now < 2 ^ 32 }
    ensures { (result.0, result.1.now) ≡ scanned (spec.raw_literal prefix) rest.now }
{
    let (read, left) = raw_double_quoted_string(rest, 0);
    let suffix_start = prefix_len(prefix) + (rest.len() - left.len()) as u32;
    match read {
        Ok(n_hashes) => {
            let kind = raw_kind(prefix, Some(n_hashes));
            (
                TokenKind::Literal { kind, suffix_start },
                eat_literal_suffix(left),
            )
        }
        Err(_) => {
            let kind = raw_kind(prefix, None);
            (TokenKind::Literal { kind, suffix_start }, left)
        }
    }
}

/// Returns the length of the prefix in bytes.
#[inline(always)]
fn prefix_len(prefix: RawPrefix) -> u32
    ensures { result ≡ spec.prefix_len prefix }
{
    match prefix {
        RawPrefix::R => 1,
        RawPrefix::Br | RawPrefix::Cr => 2,
    }
}

/// Returns the kind of the raw string with this prefix.
#[inline(always)]
fn raw_kind(prefix: RawPrefix, n_hashes: Option<u8>) -> LiteralKind
    ensures { result ≡ spec.prefix_kind prefix n_hashes }
{
    match prefix {
        RawPrefix::R => LiteralKind::RawStr { n_hashes },
        RawPrefix::Br => LiteralKind::RawByteStr { n_hashes },
        RawPrefix::Cr => LiteralKind::RawCStr { n_hashes },
    }
}

/// Returns the number of hashes on each side of a raw string, or why it is malformed, and the text after it. `rest` is
/// the text after its prefix. Offsets are in bytes from the end of the prefix, plus `prefix_len`.
#[inline(always)]
#[tactic(auto, using(crate::proofs::lemmas::tokens::RawRead::opening_lemmas, std::proofs::lemmas::Grind::common_steps))]
pub(crate) fn raw_double_quoted_string(
    rest: &str,
    prefix_len: u32,
) -> (Result<u8, RawStrError>, &str)
    requires fits { prefix_len + length rest.now < 2 ^ 32 }
    ensures { (result.0, result.1.now) ≡ scanned (spec.raw_read prefix_len) rest.now }
{
    let from_starter = eat_hashes(rest);
    let n_hashes = (rest.len() - from_starter.len()) as u32;
    if let Some(text) = strip(from_starter, b'"') {
        return raw_text(text, n_hashes, prefix_len + n_hashes + 1);
    }
    match split_first(from_starter) {
        Some((bad_char, text)) => (Err(RawStrError::InvalidStarter { bad_char }), text),
        None => (
            Err(RawStrError::InvalidStarter { bad_char: '\0' }),
            from_starter,
        ),
    }
}

/// Lexes a raw string from its opening quote on, which `n_hashes` hashes precede. Returns the number of hashes, or why
/// the string is malformed, and the text after it. `text` is the text after the opening quote, and its offset is
/// `before`.
#[inline(always)]
fn raw_text(text: &str, n_hashes: u32, before: u32) -> (Result<u8, RawStrError>, &str)
    requires fits { before + length text.now < 2 ^ 32 }
    ensures { (result.0, result.1.now) ≡ scanned (spec.raw_text n_hashes before) text.now }
{
    let mut found = 0;
    let mut possible_terminator_offset = None;
    let mut rest = text;
    while let Some(tail) = past_quote(rest) {
        let past_hashes = eat_hashes(tail);
        let hashes = (tail.len() - past_hashes.len()) as u32;
        if hashes >= n_hashes {
            return (hash_count(n_hashes), &tail[n_hashes as usize..]);
        }
        if hashes > found {
            found = hashes;
            possible_terminator_offset = Some(before + (text.len() - tail.len()) as u32);
        }
        rest = past_hashes;
    }
    let error = RawStrError::NoTerminator {
        expected: n_hashes,
        found,
        possible_terminator_offset,
    };
    (Err(error), "")
}

/// Returns the text after its first double quote, or `None` if there is none.
#[inline(always)]
fn past_quote(rest: &str) -> Option<&str>
    ensures { let offset = run_len spec.is_no_quote (chars rest.now) in
        MatchOption result
        (drop offset (chars rest.now) ≡ [])
        (λ tail. (drop offset (chars rest.now) ≡ byte "\"" ∷ chars tail.now)
        × (tail.now ≡ past (suc offset) rest.now) × (length tail.now < length rest.now)) }
{
    strip(eat_until(rest, b'"'), b'"')
}

/// Returns the number of hashes, or an error if there are more than 255.
fn hash_count(n_hashes: u32) -> Result<u8, RawStrError>
    ensures { result ≡ spec.hash_count n_hashes }
{
    if n_hashes <= 255 {
        Ok(n_hashes as u8)
    } else {
        Err(RawStrError::TooManyDelimiters { found: n_hashes })
    }
}
