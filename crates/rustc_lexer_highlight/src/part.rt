//! Writes a part of a text with the markup of its class and of its error.
ghost use Rattle.std.specs.Prelude.{◌≡◌, ◌∷◌, [], OnOk};
ghost use Rattle.std.specs.Fmt.{WritesInCalls};
ghost use Rattle.std.specs.Str.{IsCharBoundary};
ghost use Rattle.rustc_lexer_highlight.specs.Part.{Own, before_return, error_parts, first_line, is_cut_line_end};
ghost use Rattle.rustc_lexer_highlight.specs.Part.{return_part, shown, with_markup};

use crate::class::Class;
use crate::escape::{entity, write_escaped};
use crate::format::{Format, class_close, class_open, close_error, open_error};
use crate::screen::write_seen;
use memchr::memchr2;
use rustc_lexer::TokenKind;
use rustc_lexer_errors::TokenError;
use std::fmt;

/// A token in a text.
#[derive(Clone, Copy)]
pub struct TokenInText<'a> {
    pub kind: TokenKind,
    /// The text of the token.
    pub text: &'a str,
    /// The text after the token.
    pub next: &'a str,
}

/// Returns the text of a token without the carriage return of a CRLF whose newline is in the next token.
#[tactic(auto, using(crate::proofs::PartLemmas::may_cut_return, std::proofs::lemmas::Grind::common_steps))]
pub fn before_return<'a>(token: TokenInText<'a>) -> &'a str
    ensures { result.now ≡ before_return token.entry.text.now token.entry.next.now }
{
    let text = token.text;
    if is_cut_line_end(text, token.next) {
        &text[..text.len() - 1]
    } else {
        text
    }
}

/// Writes that carriage return, if there is one.
#[tactic(auto, using(crate::proofs::CallLemmas::no_calls, crate::proofs::CallLemmas::tried_call, std::proofs::lemmas::Grind::common_steps))]
pub fn write_return<W: fmt::Write>(
    format: Format,
    token: TokenInText<'_>,
    output: &mut W,
) -> fmt::Result
    ensures { OnOk result (WritesInCalls W.write_str_gives output.old
        (with_markup format (return_part token.entry.text.now token.entry.next.now)) output.new) }
{
    if !is_cut_line_end(token.text, token.next) {
        return Ok(());
    }
    output.write_str(match format {
        Format::Html => entity(b'\r'),
        Format::Colours | Format::NoColours | Format::Raw => "\r",
    })
}

/// Returns whether a token ends between the carriage return and the newline of a CRLF. `next` is the text after it.
fn is_cut_line_end(text: &str, next: &str) -> bool
    ensures { result ≡ is_cut_line_end text.now next.now }
{
    text.ends_with('\r') && next.starts_with('\n')
}

/// Writes a part with an error. The markup of the error is around its first line, and the markup of the class around
/// all of it.
#[tactic(auto, using(crate::proofs::PartLemmas::writes_error, std::proofs::lemmas::Result::on_ok_weaker, std::proofs::lemmas::Grind::common_steps))]
pub fn write_with_error<W: fmt::Write>(
    format: Format,
    error: TokenError,
    class: Class,
    text: &str,
    output: &mut W,
) -> fmt::Result
    ensures { OnOk result (WritesInCalls W.write_str_gives output.old
        (with_markup format (error_parts error class text.now)) output.new) }
{
    let (line, rest) = text.split_at(first_line(text));
    open_error(format, error, output)?;
    write_in_class(format, class, line, output)?;
    close_error(format, error, output)?;
    write_in_class(format, class, rest, output)
}

/// Returns the length in bytes of the text before the first newline or carriage return.
#[tactic(auto, using(rustc_lexer_errors::proofs::PlaceLemmas::first_found, rustc_lexer_errors::proofs::PlaceLemmas::first_none))]
fn first_line(text: &str) -> usize
    ensures value { result ≡ first_line text.now }
    ensures bounded { IsCharBoundary text.now result }
{
    memchr2(b'\n', b'\r', text.as_bytes()).unwrap_or(text.len())
}

/// Writes a part with the markup of its class. Writes nothing if the part is empty.
#[tactic(auto, using(crate::proofs::CallLemmas::on_ok, crate::proofs::PartLemmas::writes_in_class, std::proofs::lemmas::Grind::common_steps))]
pub fn write_in_class<W: fmt::Write>(
    format: Format,
    class: Class,
    text: &str,
    output: &mut W,
) -> fmt::Result
    ensures { OnOk result (WritesInCalls W.write_str_gives output.old
        (with_markup format (Own class text.now ∷ [])) output.new) }
{
    if text.is_empty() {
        return Ok(());
    }
    output.write_str(class_open(format, class))?;
    write_shown(format, text, output)?;
    output.write_str(class_close(format, class))
}

/// Writes a part without markup: with entities in HTML, unchanged in the format `Raw`, and with symbols for control
/// characters otherwise.
#[tactic(auto, using(crate::proofs::CallLemmas::tried_call))]
fn write_shown<W: fmt::Write>(format: Format, text: &str, output: &mut W) -> fmt::Result
    ensures { OnOk result
        (WritesInCalls W.write_str_gives output.old (shown format text.now) output.new) }
{
    match format {
        Format::Html => write_escaped(text, output),
        Format::Colours | Format::NoColours => write_seen(text, output),
        Format::Raw => output.write_str(text),
    }
}
