//! Reads character and byte literals.
ghost use Rattle.std.specs.Prelude.{◌≡◌, [], length, true};
ghost use Rattle.std.specs.Option.{IfSome};
ghost use Rattle.std.specs.Str.{chars};
ghost use Rattle.rustc_literal_escaper.specs.Answers.{byte_literal, char_literal};
ghost use Rattle.rustc_literal_escaper.specs.Written.{ByteComesBack, CharComesBack};
ghost use Rattle.rustc_literal_escaper.specs.Meaning.{is_single};
ghost use Rattle.rustc_literal_escaper.specs.model.Elements.{place};
ghost use Rattle.rustc_literal_escaper.specs.model.Single as spec;

use crate::element::Element;
use crate::error::EscapeError;
use crate::escape::{read_escape, short, whole_number};
use crate::mode::Mode;
use crate::strings::{AsByte, AsChar, Meaning};
use crate::text::{Plain, Text};
use std::ops::Range;

/// Returns the value of a character literal.
///
/// `src` is the text between its quotes.
///
/// See [Character literals](https://doc.rust-lang.org/reference/tokens.html#character-literals) in the Rust Reference.
///
/// # Examples
///
/// ```
/// use rustc_literal_escaper::{EscapeError, unescape_char};
///
/// assert_eq!(unescape_char(r"\u{e9}"), Ok('é'));
/// assert_eq!(unescape_char("ab"), Err(EscapeError::MoreThanOneChar));
/// ```
///
/// # Errors
///
/// Returns the error of the literal if it is invalid.
#[tactic(auto, using(crate::proofs::AnswerLemmas::literal_read, crate::proofs::AnswerLemmas::literal_is, crate::proofs::RoundTripLemmas::char_comes_back))]
pub fn unescape_char(src: &str) -> Result<char, EscapeError>
    ensures literal { result ≡ char_literal (chars src.now) }
    ensures escapes { CharComesBack }
{
    match short_literal(src) {
        Some(byte) => Ok(byte as char),
        None => read::<AsChar>(src),
    }
}

/// Returns the value of a byte literal.
///
/// `src` is the text between its quotes.
///
/// See [Byte literals](https://doc.rust-lang.org/reference/tokens.html#byte-literals) in the Rust Reference.
///
/// # Examples
///
/// ```
/// use rustc_literal_escaper::{EscapeError, unescape_byte};
///
/// assert_eq!(unescape_byte(r"\xff"), Ok(255));
/// assert_eq!(unescape_byte("é"), Err(EscapeError::NonAsciiCharInByte));
/// ```
///
/// # Errors
///
/// Returns the error of the literal if it is invalid.
#[tactic(auto, using(crate::proofs::AnswerLemmas::literal_read, crate::proofs::AnswerLemmas::literal_is))]
pub fn unescape_byte(src: &str) -> Result<u8, EscapeError>
    ensures literal { result ≡ byte_literal (chars src.now) }
    ensures escapes { ByteComesBack }
{
    match short_literal(src) {
        Some(byte) => Ok(byte),
        None => read::<AsByte>(src),
    }
}

/// Returns the value of a literal with single quotes.
#[inline(always)]
#[tactic(auto, using(crate::proofs::AnswerLemmas::literal_read, crate::proofs::AnswerLemmas::literal_is))]
fn read<M: Meaning>(src: &str) -> Result<M::Meant, EscapeError>
    ensures { result ≡ spec.literal M.meaning (chars src.now) }
{
    if let Some(element) = whole_escape(src) {
        return M::of(element);
    }
    let mut rest = Plain::new(src);
    let Some(c) = rest.next_char() else {
        return Err(EscapeError::ZeroChars);
    };
    let element = first(c, &mut rest);
    let meant = M::of(element)?;
    match rest.next_char() {
        Some(_) => Err(EscapeError::MoreThanOneChar),
        None => Ok(meant),
    }
}

/// Returns the value of the literal if it is an unescaped ASCII character or a short escape. Most literals are.
#[inline(always)]
#[tactic(auto, using(crate::proofs::WholeLemmas::plain_short, crate::proofs::WholeLemmas::escape_short))]
fn short_literal(src: &str) -> Option<u8>
    ensures { IfSome result (λ b. spec.IsShort (chars src.now) b) }
{
    match src.as_bytes() {
        [byte] if byte.is_ascii() && is_plain(*byte as char) => Some(*byte),
        [b'\\', c] => match short(*c as char) {
            Element::Byte(byte) => Some(byte),
            _ => None,
        },
        _ => None,
    }
}

/// Returns whether the character is its own value between single quotes.
#[inline(always)]
fn is_plain(c: char) -> bool
    ensures { result ≡ true → (spec.unescaped c ≡ Element.Plain c) × (c ≡ 92 → ⊥) }
{
    !matches!(c, '\n' | '\t' | '\'' | '\r' | '\\')
}

/// Returns the escape that is the whole text, if it is a number of at most six digits.
#[inline(always)]
fn whole_escape(src: &str) -> Option<Element>
    ensures { IfSome result (λ e. spec.StartsWithSingle (chars src.now) e []) }
{
    match src.as_bytes() {
        [b'\\', b'u', b'{', first, digits @ .., b'}'] => whole_number(*first, digits),
        _ => None,
    }
}

/// Returns the error of a character or byte literal with its byte range, or `None` if it has no error.
pub(crate) fn error_in_single(src: &str, mode: Mode) -> Option<(Range<usize>, EscapeError)>
    requires single { is_single mode ≡ true }
    ensures { result ≡ spec.single_error (place (length src.now)) mode (chars src.now) }
{
    if short_literal(src).is_some() {
        return None;
    }
    if let Some(element) = whole_escape(src) {
        let error = element.error_in(mode)?;
        return Some((0..src.len(), error));
    }
    single_error(&mut Plain::new(src), mode)
}

/// Returns the error of a character or byte literal with its byte range, or `None` if it has no error.
///
/// The range starts at 0 and ends after the offending character.
#[inline(always)]
pub fn single_error<T: Text>(rest: &mut T, mode: Mode) -> Option<(Range<usize>, EscapeError)>
    ensures { result ≡ spec.single_error (T.offset_of rest.old) mode (T.left rest.old) }
{
    let Some(c) = rest.next_char() else {
        return Some((0..0, EscapeError::ZeroChars));
    };
    let element = first(c, rest);
    if let Some(error) = element.error_in(mode) {
        return Some((0..rest.offset(), error));
    }
    rest.next_char()?;
    Some((0..rest.offset(), EscapeError::MoreThanOneChar))
}

/// Reads the element that starts with the character `c`.
#[inline(always)]
fn first<T: Text>(c: char, rest: &mut T) -> Element
    ensures same { T.offset_of rest.new ≡ T.offset_of rest.old }
    ensures read { (result, T.left rest.new) ≡ spec.single c (T.left rest.old) }
{
    if c == '\\' {
        read_escape(rest)
    } else {
        unescaped(c)
    }
}

/// Returns the element for an unescaped character between single quotes.
#[inline(always)]
fn unescaped(c: char) -> Element
    ensures { result ≡ spec.unescaped c }
{
    match c {
        '\n' | '\t' | '\'' => Element::Diagnostic(EscapeError::EscapeOnlyChar),
        '\r' => Element::Diagnostic(EscapeError::BareCarriageReturn),
        _ => Element::Plain(c),
    }
}
