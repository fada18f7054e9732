//! The class and the error of a token, and the message of the error.
ghost use Rattle.std.specs.Prelude.{◌≡◌, ◌≢◌, Some, None, OnOk};
ghost use Rattle.std.specs.Fmt.{WritesInCalls};
ghost use Rattle.rustc_lexer.specs.declared.edition.Edition.{Edition};
ghost use Rattle.rustc_lexer.specs.declared.token.Token.{Token};
ghost use Rattle.rustc_lexer.specs.LanguageCalls.{edition_of_year};
ghost use Rattle.rustc_lexer_errors.specs.TokenError.{token_error};
ghost use Rattle.rustc_lexer_highlight.specs.Class.{class_number, class_of};
ghost use Rattle.rustc_lexer_c.specs.Errors as spec;
ghost use Rattle.rustc_lexer_c.specs.model.Errors as model;
ghost use Rattle.rustc_lexer_c.specs.Highlighted.{IsFront};
ghost use Rattle.rustc_lexer_c.specs.Numbers.{token_numbers};
ghost use Rattle.rustc_lexer_c.specs.declared.status.Refusal.TheVariants.{InvalidEdition, SmallBuffer};
ghost use Rattle.rustc_lexer_c.specs.Status.{IsStatus, OK, refusal_number};

use crate::buffer::Buffer;
use crate::relex::edition_of;
use crate::status::{OK, Refusal, done, refuse, text_of, validate};
use crate::token::CToken;
use rustc_lexer::{Base, DocStyle, LiteralKind, TokenKind};
use rustc_lexer_errors::{TokenError, token_error};
use rustc_lexer_highlight::class_of;
use std::fmt;

/// Writes the number of a token's class in the edition of a year. The token is passed as its numbers and its text.
#[tactic(auto, using(crate::proofs::ErrorLemmas::same_class))]
#[unsafe(no_mangle)]
pub extern "C" fn rustc_lexer_class(
    text: &[u8],
    token: &CToken,
    edition: u32,
    number: &mut u32,
) -> u32
    ensures status { IsStatus text.now (edition_of_year edition ≢ None) (refusal_number InvalidEdition) result }
    ensures class { result ≡ OK → (year : Edition) → edition_of_year edition ≡ Some year
        → (it : Token) → token_numbers it ≡ token.now
        → number.new ≡ class_number (class_of it.kind text.now year) }
    ensures refused { result ≢ OK → number.new ≡ 0 }
{
    let text = validate!(text_of(text), 0, number);
    match edition_of(edition) {
        Some(edition) => done(
            u32::from(class_of(kind_of(token), text, edition).number()),
            number,
        ),
        None => refuse(Refusal::InvalidEdition, 0, number),
    }
}

/// Writes the number of a token's error in the edition of a year, or 0 if it has none. The token is passed as its
/// numbers and its text.
#[tactic(auto, using(crate::proofs::ErrorLemmas::same_error))]
#[unsafe(no_mangle)]
pub extern "C" fn rustc_lexer_token_error(
    text: &[u8],
    token: &CToken,
    edition: u32,
    number: &mut u32,
) -> u32
    ensures status { IsStatus text.now (edition_of_year edition ≢ None) (refusal_number InvalidEdition) result }
    ensures error { result ≡ OK → (year : Edition) → edition_of_year edition ≡ Some year
        → (it : Token) → token_numbers it ≡ token.now
        → number.new ≡ spec.number_of (token_error it.kind text.now year) }
    ensures refused { result ≢ OK → number.new ≡ 0 }
{
    let text = validate!(text_of(text), 0, number);
    match edition_of(edition) {
        Some(edition) => done(
            number_of(token_error(kind_of(token), text, edition)),
            number,
        ),
        None => refuse(Refusal::InvalidEdition, 0, number),
    }
}

/// Writes the message of a token's error in the edition of a year to the start of the buffer, or nothing if the token
/// has no error. Writes the number of bytes into `written`. The token is passed as its numbers and its text.
///
/// If the buffer is too small, `written` is 0, and the contents of the buffer are unspecified.
#[tactic(auto, using(crate::proofs::ErrorLemmas::same_error, crate::proofs::OutputLemmas::written_front, std::proofs::lemmas::Grind::common_steps))]
#[unsafe(no_mangle)]
pub extern "C" fn rustc_lexer_token_error_message(
    text: &[u8],
    token: &CToken,
    edition: u32,
    buffer: &mut [u8],
    written: &mut usize,
) -> u32
    ensures status { spec.IsMessageStatus text.now edition result }
    ensures message { result ≡ OK → (year : Edition) → edition_of_year edition ≡ Some year
        → (it : Token) → token_numbers it ≡ token.now
        → IsFront (spec.message_of (token_error it.kind text.now year)) buffer.old buffer.new
        written.new }
    ensures refused { result ≢ OK → written.new ≡ 0 }
    ensures unchanged { result ≢ OK → result ≢ refusal_number SmallBuffer → buffer.new ≡ buffer.old }
{
    *written = 0;
    let text = validate!(text_of(text));
    let Some(edition) = edition_of(edition) else {
        return Refusal::InvalidEdition.number();
    };
    let error = token_error(kind_of(token), text, edition);
    let mut output = Buffer::new(buffer);
    let Ok(()) = write_message(error, &mut output) else {
        return Refusal::SmallBuffer.number();
    };
    *written = output.len;
    OK
}

/// Writes the message of an error, or nothing if there is no error.
fn write_message<W: fmt::Write>(error: Option<TokenError>, output: &mut W) -> fmt::Result
    ensures { OnOk result (WritesInCalls W.write_str_gives output.old (spec.message_of error)
        output.new) }
{
    match error {
        Some(error) => write!(output, "{error}"),
        None => Ok(()),
    }
}

/// Returns the number of an error, or 0 if there is none.
fn number_of(error: Option<TokenError>) -> u32
    ensures { result ≡ spec.number_of error }
{
    match error {
        Some(error) => u32::from(error.number()),
        None => 0,
    }
}

/// Returns the kind with these numbers, as far as the class or the error depends on it.
fn kind_of(token: &CToken) -> TokenKind
    ensures { result ≡ model.kind_of token.now }
{
    let (first, second) = (token.first != 0, token.second != 0);
    let doc_style = if first { Some(DocStyle::Outer) } else { None };
    match token.kind {
        1 => TokenKind::LineComment { doc_style },
        2 => TokenKind::BlockComment {
            doc_style,
            terminated: second,
        },
        4 => TokenKind::Frontmatter {
            has_invalid_preceding_whitespace: first,
            invalid_infostring: second,
        },
        5 => TokenKind::Ident,
        6 => TokenKind::InvalidIdent,
        7 => TokenKind::RawIdent,
        8 => TokenKind::ForcedKeywordIdent,
        9 => TokenKind::UnknownPrefix,
        10 => TokenKind::UnknownPrefixLifetime,
        11 => TokenKind::RawLifetime,
        12 => TokenKind::GuardedStrPrefix,
        13 => TokenKind::Literal {
            kind: literal_of(token),
            suffix_start: token.suffix_start,
        },
        14 => TokenKind::Lifetime {
            starts_with_number: first,
        },
        42 => TokenKind::Unknown,
        _ => TokenKind::Whitespace,
    }
}

/// Returns the kind of literal with these numbers, as far as the class or the error depends on it.
fn literal_of(token: &CToken) -> LiteralKind
    ensures { result ≡ model.literal_of token.now }
{
    let base = base_of(token.second);
    let (terminated, empty) = (token.second != 0, token.third != 0);
    let n_hashes = if terminated { Some(token.third) } else { None };
    match token.first {
        1 => LiteralKind::Int {
            base,
            empty_int: empty,
        },
        2 => LiteralKind::Float {
            base,
            empty_exponent: empty,
        },
        3 => LiteralKind::Char { terminated },
        4 => LiteralKind::Byte { terminated },
        5 | 7 => LiteralKind::Str { terminated },
        6 => LiteralKind::ByteStr { terminated },
        8 => LiteralKind::RawStr { n_hashes },
        9 => LiteralKind::RawByteStr { n_hashes },
        _ => LiteralKind::RawCStr { n_hashes },
    }
}

/// Returns the base with this number.
fn base_of(number: u8) -> Base
    ensures { result ≡ model.base_of number }
{
    match number {
        2 => Base::Binary,
        8 => Base::Octal,
        10 => Base::Decimal,
        _ => Base::Hexadecimal,
    }
}
