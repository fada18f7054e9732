//! Validates raw strings.
ghost use Rattle.std.specs.Prelude.{◌≡◌, ◌<◌, ◌↔◌, length, IsTrue};
ghost use Rattle.rustc_lexer.specs.Answers.{raw_check};
ghost use Rattle.rustc_lexer.specs.Classes.{Fits};
ghost use Rattle.rustc_lexer.specs.LanguageCalls.{StartsRaw};
ghost use Rattle.rustc_lexer.specs.model.Scan.{past};

use crate::lexemes::raw::raw_double_quoted_string;
use crate::scan::{first, split_first};
use crate::token::RawStrError;

/// Returns whether [`validate_raw_str`](crate::validate_raw_str) can be called: `prefix_len` is at least 1, and the
/// last of the first `prefix_len` characters is `r`.
#[inline]
#[tactic(auto, using(crate::proofs::lemmas::tokens::RawRead::starts_is, std::proofs::lemmas::Grind::common_steps))]
pub fn starts_raw(input: &str, prefix_len: u32) -> bool
    ensures { IsTrue result ↔ StartsRaw input.now prefix_len }
{
    if prefix_len == 0 {
        return false;
    }
    first(past_chars(input, prefix_len - 1)) == 'r'
}

/// Validates the raw string at the start of a text. `prefix_len` is the length of its prefix in characters, including
/// the `r`: 1 for `r`, 2 for `br` and `cr`.
///
/// [`starts_raw`] must be true, and the text may have at most `u32::MAX` bytes.
///
/// An offset in an error is the number of bytes from the end of the prefix, plus `prefix_len`. It is an offset in the
/// text if each character of the prefix is one byte long.
///
/// ```ignore
/// validate_raw_str("r##\"abc\"#", 1) // NoTerminator { expected: 2, found: 1, possible_terminator_offset: Some(8) }
/// ```
///
/// # Errors
///
/// Returns an error if the raw string is malformed.
#[inline]
#[tactic(auto, using(crate::proofs::lemmas::tokens::RawRead::prefix_fits, crate::specs::laws::Scan::scan_lemmas, std::proofs::lemmas::Grind::common_steps), unfolding(crate::specs::model::Raw::check_raw))]
pub fn validate_raw_str(input: &str, prefix_len: u32) -> Result<(), RawStrError>
    requires fits { Fits input.now }
    requires raw { StartsRaw input.now prefix_len }
    ensures check { result ≡ raw_check input.now prefix_len }
{
    let rest = past_chars(input, prefix_len);
    let (read, _) = raw_double_quoted_string(rest, prefix_len);
    match read {
        Ok(_) => Ok(()),
        Err(error) => Err(error),
    }
}

/// Returns the text after its first `count` characters.
#[inline]
#[tactic(auto, using(crate::proofs::lemmas::tokens::RawRead::past_lemmas, std::proofs::lemmas::Grind::common_steps))]
fn past_chars(text: &str, count: u32) -> &str
    ensures { result.now ≡ past count text.now }
{
    let mut rest = text;
    let mut left = count;
    'chars: while left > 0 {
        let Some((_, tail)) = split_first(rest) else {
            return rest;
        };
        rest = tail;
        left -= 1;
    }
    rest
}
