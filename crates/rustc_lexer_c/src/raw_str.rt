//! Raw strings and guarded strings.
ghost use Rattle.std.specs.Prelude.{◌≡◌, ◌↔◌, IsTrue, None};
ghost use Rattle.std.specs.Str.{IsUtf8};
ghost use Rattle.rustc_lexer.specs.LanguageCalls.{StartsRaw};
ghost use Rattle.rustc_lexer.specs.Answers.{raw_check};
ghost use Rattle.rustc_lexer_c.specs.RawStr as spec;
ghost use Rattle.rustc_lexer_c.specs.declared.status.Refusal.TheVariants.{NotRaw};
ghost use Rattle.rustc_lexer_c.specs.Status.{OK, Writes, refusal_number};

use crate::status::{Refusal, done, refuse, text_of, utf8_text_of, validate};
use rustc_lexer::{
    Cursor, FrontmatterAllowed, GuardedStr, RawStrError, starts_raw, validate_raw_str,
};

/// The error of a raw string. A field that the error does not have is 0.
#[repr(C)]
#[derive(Clone, Copy, Debug, PartialEq, Eq)]
pub struct CRawStrError {
    /// 0 for none, 1 for an invalid starter, 2 for no terminator, 3 for too many delimiters.
    pub error: u32,
    /// For 1: the character.
    pub bad_char: u32,
    /// For 2: the number of hashes that would close the string.
    pub expected: u32,
    /// For 2: the maximum number of hashes after a quote in it. For 3: their number.
    pub found: u32,
    /// For 2: whether there is an offset, 0 or 1.
    pub has_offset: u32,
    /// For 2: the end of the first quote that is followed by `found` hashes, in bytes.
    pub possible_terminator_offset: u32,
}

/// A guarded string. All fields are 0 if there is none.
#[repr(C)]
#[derive(Clone, Copy, Debug, PartialEq, Eq)]
pub struct CGuardedStr {
    /// Whether there is one, 0 or 1.
    pub is_some: u32,
    /// The number of hashes before it.
    pub n_hashes: u32,
    /// Whether a quote closes it, 0 or 1.
    pub terminated: u32,
    /// The length of the whole token in bytes.
    pub token_len: u32,
}

/// Checks the raw string at the start of the text, and writes its error. Its prefix has `prefix_len` characters.
#[unsafe(no_mangle)]
pub extern "C" fn rustc_lexer_validate_raw_str(
    text: &[u8],
    prefix_len: u32,
    error: &mut CRawStrError,
) -> u32
    ensures { Writes text.now (StartsRaw text.now prefix_len) (refusal_number NotRaw)
        (spec.answer_numbers (raw_check text.now prefix_len)) spec.no_error error.new result }
{
    validate!(text_of(text), NO_ERROR, error);
    rustc_lexer_validate_raw_str_unchecked(text, prefix_len, error)
}

/// Like `rustc_lexer_validate_raw_str`, but does not check that the text is UTF-8, and reads only the string.
/// `rustc_lexer_check` must have accepted the text.
#[unsafe(no_mangle)]
pub extern "C" fn rustc_lexer_validate_raw_str_unchecked(
    text: &[u8],
    prefix_len: u32,
    error: &mut CRawStrError,
) -> u32
    requires utf8 { IsUtf8 text.now }
    ensures { Writes text.now (StartsRaw text.now prefix_len) (refusal_number NotRaw)
        (spec.answer_numbers (raw_check text.now prefix_len)) spec.no_error error.new result }
{
    let text = validate!(utf8_text_of(text), NO_ERROR, error);
    if !starts_raw(text, prefix_len) {
        return refuse(Refusal::NotRaw, NO_ERROR, error);
    }
    done(answer_numbers(validate_raw_str(text, prefix_len)), error)
}

/// Returns whether character number `prefix_len` of the text, counted from 1, is an `r`. The text can have any length,
/// and must be UTF-8.
///
/// For a text of at most `u32::MAX` bytes, the result is false exactly if `rustc_lexer_validate_raw_str` returns 4. For
/// a longer text that function always returns 2.
#[unsafe(no_mangle)]
pub extern "C" fn rustc_lexer_starts_raw_unchecked(text: &[u8], prefix_len: u32) -> bool
    requires utf8 { IsUtf8 text.now }
    ensures { IsTrue result ↔ StartsRaw text.now prefix_len }
{
    // The caller guarantees that the bytes are UTF-8.
    starts_raw(unsafe { std::str::from_utf8_unchecked(text) }, prefix_len)
}

/// Writes the guarded string at the start of the text, or zeros if there is none.
#[unsafe(no_mangle)]
pub extern "C" fn rustc_lexer_guarded_str(text: &[u8], string: &mut CGuardedStr) -> u32
    ensures { Writes text.now (Unit {0}) OK (spec.guarded_at text.now) (spec.guarded_numbers None)
        string.new result }
{
    validate!(text_of(text), guarded_numbers(None), string);
    rustc_lexer_guarded_str_unchecked(text, string)
}

/// Like `rustc_lexer_guarded_str`, but does not check that the text is UTF-8, and reads only the string.
/// `rustc_lexer_check` must have accepted the text.
#[unsafe(no_mangle)]
pub extern "C" fn rustc_lexer_guarded_str_unchecked(text: &[u8], string: &mut CGuardedStr) -> u32
    requires utf8 { IsUtf8 text.now }
    ensures { Writes text.now (Unit {0}) OK (spec.guarded_at text.now) (spec.guarded_numbers None)
        string.new result }
{
    let text = validate!(utf8_text_of(text), guarded_numbers(None), string);
    let mut cursor = Cursor::new(text, FrontmatterAllowed::No);
    done(
        guarded_numbers(cursor.guarded_double_quoted_string()),
        string,
    )
}

/// Returns the result of a check as numbers.
fn answer_numbers(answer: Result<(), RawStrError>) -> CRawStrError
    ensures { result ≡ spec.answer_numbers answer }
{
    match answer {
        Ok(_) => NO_ERROR,
        Err(RawStrError::InvalidStarter { bad_char }) => CRawStrError {
            error: 1,
            bad_char: bad_char as u32,
            ..NO_ERROR
        },
        Err(
            RawStrError::NoTerminator {
                expected,
                found,
                possible_terminator_offset,
            },
        ) => CRawStrError {
            error: 2,
            expected,
            found,
            has_offset: u32::from(possible_terminator_offset.is_some()),
            possible_terminator_offset: possible_terminator_offset.unwrap_or(0),
            ..NO_ERROR
        },
        Err(RawStrError::TooManyDelimiters { found }) => CRawStrError {
            error: 3,
            found,
            ..NO_ERROR
        },
    }
}

/// The numbers for no error.
const NO_ERROR: CRawStrError = CRawStrError {
    error: 0,
    bad_char: 0,
    expected: 0,
    found: 0,
    has_offset: 0,
    possible_terminator_offset: 0,
};

/// Returns a guarded string as numbers.
#[tactic(auto, unfolding(crate::specs::RawStr::guarded_numbers))]
fn guarded_numbers(string: Option<GuardedStr>) -> CGuardedStr
    ensures { result ≡ spec.guarded_numbers string }
{
    match string {
        None => CGuardedStr {
            is_some: 0,
            n_hashes: 0,
            terminated: 0,
            token_len: 0,
        },
        Some(string) => CGuardedStr {
            is_some: 1,
            n_hashes: string.n_hashes,
            terminated: u32::from(string.terminated),
            token_len: string.token_len,
        },
    }
}
