//! Writes tokens in batches.
ghost use Rattle.std.specs.Prelude.{◌≡◌};
ghost use Rattle.std.specs.Str.{IsUtf8, IsCharBoundary};
ghost use Rattle.rustc_lexer.specs.Classes.{Fits};
ghost use Rattle.rustc_lexer.specs.LanguageText.{mode_in, newest};
ghost use Rattle.rustc_lexer.specs.Tokens.{tokens_of};
ghost use Rattle.rustc_lexer_c.specs.Batch as spec;

use crate::relex::edition_of;
use crate::status::{Refusal, done, refuse, text_of, utf8_text_of, validate};
use crate::token::{CToken, token_numbers};
use rustc_lexer::{Edition, FrontmatterAllowed, tokenize, tokenize_as};

/// A position in a text, at which lexing continues.
#[repr(C)]
#[derive(Clone, Copy, Debug, PartialEq, Eq)]
pub struct CPlace {
    /// The offset in bytes from the start of the text.
    pub at: u32,
    /// Whether a frontmatter is allowed there: 0 for no, any other number for yes.
    pub frontmatter_allowed: u32,
}

/// Writes the tokens from a position on into the buffer, as many as there is room for, and their number into `count`.
/// Lexes in the newest edition.
///
/// Moves the position to the end of these tokens, so the next call continues there. After the last token the number is
/// 0. Each call checks the whole text. `rustc_lexer_tokens_unchecked` does not.
#[unsafe(no_mangle)]
pub extern "C" fn rustc_lexer_tokens(
    text: &[u8],
    place: &mut CPlace,
    buffer: &mut [CToken],
    count: &mut usize,
) -> u32
    ensures { spec.TakesTokens text.now place.old place.new buffer.old buffer.new count.new result }
{
    validate!(text_of(text), 0, count);
    rustc_lexer_tokens_unchecked(text, place, buffer, count)
}

/// Like `rustc_lexer_tokens`, but does not check that the text is UTF-8. `rustc_lexer_check` must have accepted it.
#[unsafe(no_mangle)]
pub extern "C" fn rustc_lexer_tokens_unchecked(
    text: &[u8],
    place: &mut CPlace,
    buffer: &mut [CToken],
    count: &mut usize,
) -> u32
    requires utf8 { IsUtf8 text.now }
    ensures { spec.TakesTokens text.now place.old place.new buffer.old buffer.new count.new result }
{
    let text = validate!(utf8_text_of(text), 0, count);
    if !text.is_char_boundary(place.at as usize) {
        return refuse(Refusal::InvalidPlace, 0, count);
    }
    done(fill(text, Edition::NEWEST, place, buffer), count)
}

/// Like `rustc_lexer_tokens`, but lexes in the edition of a year: 2015, 2018, 2021 or 2024.
#[unsafe(no_mangle)]
pub extern "C" fn rustc_lexer_tokens_in(
    text: &[u8],
    edition: u32,
    place: &mut CPlace,
    buffer: &mut [CToken],
    count: &mut usize,
) -> u32
    ensures { spec.TakesTokensIn text.now edition place.old place.new
        buffer.old buffer.new count.new result }
{
    validate!(text_of(text), 0, count);
    rustc_lexer_tokens_in_unchecked(text, edition, place, buffer, count)
}

/// Like `rustc_lexer_tokens_in`, but does not check that the text is UTF-8. `rustc_lexer_check` must have accepted it.
#[unsafe(no_mangle)]
pub extern "C" fn rustc_lexer_tokens_in_unchecked(
    text: &[u8],
    edition: u32,
    place: &mut CPlace,
    buffer: &mut [CToken],
    count: &mut usize,
) -> u32
    requires utf8 { IsUtf8 text.now }
    ensures { spec.TakesTokensIn text.now edition place.old place.new
        buffer.old buffer.new count.new result }
{
    let text = validate!(utf8_text_of(text), 0, count);
    if !text.is_char_boundary(place.at as usize) {
        return refuse(Refusal::InvalidPlace, 0, count);
    }
    match edition_of(edition) {
        Some(edition) => done(fill(text, edition, place, buffer), count),
        None => refuse(Refusal::InvalidEdition, 0, count),
    }
}

/// Returns the first token of a text, or zeros if the text is empty or has more than `u32::MAX` bytes. The text must
/// be UTF-8.
#[unsafe(no_mangle)]
pub extern "C" fn rustc_lexer_first_token_unchecked(text: &[u8], frontmatter_allowed: u32) -> CToken
    requires utf8 { IsUtf8 text.now }
    ensures token { Fits text.now
        → result ≡ spec.first_numbers
        (tokens_of (mode_in (spec.allowed_of frontmatter_allowed) newest) text.now) }
    ensures too_long { ¬ (Fits text.now) → result ≡ spec.no_token }
{
    match utf8_text_of(text) {
        Ok(text) => match allowed_of(frontmatter_allowed) {
            FrontmatterAllowed::No => first_token(text, FrontmatterAllowed::No),
            FrontmatterAllowed::Yes => first_token(text, FrontmatterAllowed::Yes),
        },
        Err(_) => NO_TOKEN,
    }
}

/// Returns the first token of a text as numbers, or zeros if there is none.
#[inline(always)]
fn first_token(text: &str, allowed: FrontmatterAllowed) -> CToken
    requires fits { Fits text.now }
    ensures { result ≡ spec.first_numbers (tokens_of (mode_in allowed newest) text.now) }
{
    tokenize(text, allowed)
        .next()
        .map_or(NO_TOKEN, token_numbers)
}

/// The result at the end of a text: all fields are 0.
pub(crate) const NO_TOKEN: CToken = CToken {
    kind: 0,
    first: 0,
    second: 0,
    third: 0,
    suffix_start: 0,
    len: 0,
};

/// Writes the next tokens from a char boundary on, and returns their number. Inlined, because one caller passes the
/// newest edition as a constant and then does not test the edition.
#[inline(always)]
fn fill(text: &str, edition: Edition, place: &mut CPlace, buffer: &mut [CToken]) -> usize
    requires fits { Fits text.now }
    requires boundary { IsCharBoundary text.now place.old.at }
    ensures { spec.IsBatch text.now (spec.state_at edition text.now place.old)
        buffer.old place.new buffer.new result }
{
    let allowed = allowed_of(place.frontmatter_allowed);
    let mut tokens = tokenize_as(&text[place.at as usize..], allowed, edition);
    let count = tokens.fill(buffer);
    *place = CPlace {
        at: (text.len() - tokens.as_str().len()) as u32,
        frontmatter_allowed: allowed_number(tokens.frontmatter_allowed()),
    };
    count
}

/// Returns the flag with this number: 0 means that no frontmatter is allowed.
fn allowed_of(number: u32) -> FrontmatterAllowed
    ensures { result ≡ spec.allowed_of number }
{
    if number == 0 {
        FrontmatterAllowed::No
    } else {
        FrontmatterAllowed::Yes
    }
}

/// Returns the number of a flag: 1 if a frontmatter is allowed, otherwise 0.
fn allowed_number(allowed: FrontmatterAllowed) -> u32
    ensures { result ≡ spec.allowed_number allowed }
{
    match allowed {
        FrontmatterAllowed::No => 0,
        FrontmatterAllowed::Yes => 1,
    }
}
