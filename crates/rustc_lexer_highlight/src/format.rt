//! The markup around tokens: HTML tags, or escape sequences of a terminal.
#![tactic(auto, using(crate::proofs::CallLemmas::tried_call))]

ghost use Rattle.std.specs.Prelude.{◌≡◌, OnOk};
ghost use Rattle.std.specs.Fmt.{WritesInCalls};
ghost use Rattle.rustc_lexer_highlight.specs.Markup.{class_close, class_open, error_close, error_open};

use crate::class::Class;
use rustc_lexer_errors::TokenError;
use std::fmt;

/// The output format.
#[derive(Clone, Copy, Debug, PartialEq, Eq)]
pub enum Format {
    /// HTML tags.
    Html,
    /// Escape sequences for terminal colours.
    Colours,
    /// No markup, only error messages.
    NoColours,
    /// Like `NoColours`, but control characters are written as they are. A terminal obeys them.
    Raw,
}

/// Returns the opening markup of a class.
pub fn class_open(format: Format, class: Class) -> &'static str
    ensures { result.now ≡ class_open format class }
{
    match format {
        Format::Html => match class {
            Class::Plain => "",
            Class::Comment => "<span class=\"comment\">",
            Class::Doc => "<span class=\"doc\">",
            Class::Keyword => "<span class=\"keyword\">",
            Class::TypeName => "<span class=\"type\">",
            Class::Text => "<span class=\"text\">",
            Class::Escape => "<span class=\"escape\">",
            Class::Number => "<span class=\"number\">",
            Class::Lifetime => "<span class=\"lifetime\">",
        },
        Format::Colours => match class {
            Class::Plain => "",
            Class::Comment => "\x1b[90m",
            Class::Doc => "\x1b[36m",
            Class::Keyword => "\x1b[35m",
            Class::TypeName => "\x1b[1;34m",
            Class::Text => "\x1b[32m",
            Class::Escape => "\x1b[96m",
            Class::Number => "\x1b[36m",
            Class::Lifetime => "\x1b[33m",
        },
        Format::NoColours | Format::Raw => "",
    }
}

/// Returns the closing markup of a class.
pub fn class_close(format: Format, class: Class) -> &'static str
    ensures { result.now ≡ class_close format class }
{
    match (format, class) {
        (_, Class::Plain) | (Format::NoColours | Format::Raw, _) => "",
        (Format::Html, _) => "</span>",
        (Format::Colours, _) => "\x1b[0m",
    }
}

/// Writes the opening markup of an error. In HTML it contains the message.
pub fn open_error<W: fmt::Write>(format: Format, error: TokenError, output: &mut W) -> fmt::Result
    ensures { OnOk result
        (WritesInCalls W.write_str_gives output.old (error_open format error) output.new) }
{
    match format {
        Format::Html => write!(output, "<mark title=\"{error}\">"),
        Format::Colours => output.write_str("\x1b[4;31m"),
        Format::NoColours | Format::Raw => Ok(()),
    }
}

/// Writes the closing markup of an error. In all formats but HTML it contains the message.
pub fn close_error<W: fmt::Write>(format: Format, error: TokenError, output: &mut W) -> fmt::Result
    ensures { OnOk result
        (WritesInCalls W.write_str_gives output.old (error_close format error) output.new) }
{
    match format {
        Format::Html => output.write_str("</mark>"),
        Format::Colours => write!(output, "\x1b[0;31m [<- {error}]\x1b[0m"),
        Format::NoColours | Format::Raw => write!(output, " [<- {error}]"),
    }
}
