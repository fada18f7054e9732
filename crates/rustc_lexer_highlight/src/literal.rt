//! Writes literals with their escapes and errors highlighted.
ghost use Rattle.std.specs.Prelude.{◌≡◌, ◌≤◌, ◌∷◌, [], drop, true, OnOk};
ghost use Rattle.std.specs.Fmt.{WritesInCalls};
ghost use Rattle.std.specs.Str.{IsCharBoundary};
ghost use Rattle.rustc_lexer.specs.Classes.{Fits};
ghost use Rattle.rustc_literal_escaper.specs.Meaning.{is_single};
ghost use Rattle.rustc_lexer_errors.specs.LineEnds.{char_error};
ghost use Rattle.rustc_lexer_highlight.specs.Literal as spec;
ghost use Rattle.rustc_lexer_highlight.specs.Highlighted.{literal_parts};
ghost use Rattle.rustc_lexer_highlight.specs.model.Literal as model;
ghost use Rattle.rustc_lexer_highlight.specs.model.Literal.{IsCut, Paints};
ghost use Rattle.rustc_lexer_highlight.specs.Part.{Own, with_markup};

use crate::class::Class;
use crate::format::Format;
use crate::part::{write_in_class, write_with_error};
use rustc_lexer_errors::{TokenError, between_quotes, error_in_quotes, file_elements, is_raw};
use rustc_literal_escaper::{Element, EscapeError, Mode};
use std::fmt;

/// The look of a stretch of a literal that is not plain.
#[derive(Clone, Copy, Debug, PartialEq, Eq)]
pub enum Look {
    /// An escape.
    Escape,
    /// An error or a warning.
    Wrong(EscapeError),
}

/// Writes a terminated literal: its escapes in their class, its errors with messages, and the rest as text.
#[tactic(auto, using(crate::proofs::LiteralLemmas::nothing_written, crate::proofs::LiteralLemmas::string_found))]
pub fn write_literal<W: fmt::Write>(
    format: Format,
    mode: Mode,
    text: &str,
    output: &mut W,
) -> fmt::Result
    requires fits { Fits text.now }
    ensures { OnOk result (WritesInCalls W.write_str_gives output.old
        (with_markup format (literal_parts mode text.now)) output.new) }
{
    let Some((begin, close)) = between_quotes(mode, text) else {
        return write_in_class(format, Class::Text, text, output);
    };
    let mut painter = Painter {
        format,
        text,
        shown: 0,
        at: begin,
    };
    if mode.in_double_quotes() {
        painter.write_string(mode, close, output)
    } else {
        painter.write_single(mode, close, output)
    }
}

/// Returns the look of the contents of a literal with single quotes, or `None` if they are plain.
fn single_look(mode: Mode, inside: &str) -> Option<Look>
    requires single { is_single mode ≡ true }
    ensures { result ≡ spec.char_look (char_error mode inside.now) inside.now }
{
    match error_in_quotes(mode, inside) {
        Some(error) => Some(Look::Wrong(error)),
        None if inside.starts_with('\\') => Some(Look::Escape),
        None => None,
    }
}

/// Writes a literal stretch by stretch.
#[derive(Drop)]
struct Painter<'a> {
    format: Format,
    text: &'a str,
    /// The text before this offset has been written.
    shown: usize,
    /// The text between `shown` and this offset is plain.
    at: usize,
}

impl<'a> Painter<'a> {
    /// Writes a literal with single quotes, whose contents are the text from `at` to `close`.
    fn write_single<W: fmt::Write>(
        &mut self,
        mode: Mode,
        close: usize,
        output: &mut W,
    ) -> fmt::Result
        requires single { is_single mode ≡ true }
        requires cut { IsCut self.old.text.now self.old.shown self.old.at }
        requires close { IsCharBoundary self.old.text.now close }
        requires order { self.old.at ≤ close }
        ensures { OnOk result (WritesInCalls W.write_str_gives output.old
            (with_markup self.old.format (spec.parts_from self.old.shown
            (drop self.old.shown self.old.text.now)
            (spec.single_stretches mode self.old.at close self.old.text.now))) output.new) }
    {
        let look = single_look(mode, &self.text[self.at..close]);
        self.mark(look, close, output)?;
        self.write_rest(output)
    }

    /// Writes a literal with double quotes, whose contents are the text from `at` to `close`.
    fn write_string<W: fmt::Write>(
        &mut self,
        mode: Mode,
        close: usize,
        output: &mut W,
    ) -> fmt::Result
        requires fits { Fits self.old.text.now }
        requires cut { IsCut self.old.text.now self.old.shown self.old.at }
        requires close { IsCharBoundary self.old.text.now close }
        requires order { self.old.at ≤ close }
        ensures { OnOk result (WritesInCalls W.write_str_gives output.old
            (with_markup self.old.format (spec.parts_from self.old.shown
            (drop self.old.shown self.old.text.now)
            (model.string_stretches mode self.old.at close self.old.text.now))) output.new) }
    {
        let begin = self.at;
        for (range, element) in file_elements(&self.text[begin..close], is_raw(mode)) {
            let start = begin + range.start;
            // The range of a warning can include the next element.
            if start < self.at {
                continue;
            }
            self.mark_skipped(start, output)?;
            self.mark(look_of(mode, element), begin + range.end, output)?;
        }
        self.mark_skipped(close, output)?;
        self.write_rest(output)
    }

    /// Marks the text up to `start`, if there is any, as an escape. Between two elements there can only be a skipped
    /// line ending.
    fn mark_skipped<W: fmt::Write>(&mut self, start: usize, output: &mut W) -> fmt::Result
        requires cut { IsCut self.old.text.now self.old.shown self.old.at }
        requires start { IsCharBoundary self.old.text.now start }
        requires order { self.old.at ≤ start }
        ensures { OnOk result (Paints W.write_str_gives self.old output.old
            (model.gap self.old.at start) start self.new output.new) }
    {
        if self.at < start {
            self.mark(Some(Look::Escape), start, output)
        } else {
            Ok(())
        }
    }

    /// Writes the text up to `end` with this look. If the look is `None`, the text is plain and is written later.
    #[tactic(auto, using(crate::proofs::LiteralLemmas::writes_stretch, std::proofs::lemmas::Grind::common_steps))]
    fn mark<W: fmt::Write>(&mut self, look: Option<Look>, end: usize, output: &mut W) -> fmt::Result
        requires cut { IsCut self.old.text.now self.old.shown self.old.at }
        requires end { IsCharBoundary self.old.text.now end }
        requires order { self.old.at ≤ end }
        ensures { OnOk result (Paints W.write_str_gives self.old output.old
            (spec.stretch self.old.at end look) end self.new output.new) }
    {
        let start = self.at;
        self.at = end;
        let Some(look) = look else {
            return Ok(());
        };
        write_in_class(
            self.format,
            Class::Text,
            &self.text[self.shown..start],
            output,
        )?;
        write_look(self.format, look, &self.text[start..end], output)?;
        self.shown = end;
        Ok(())
    }

    /// Writes the rest of the literal as plain text.
    fn write_rest<W: fmt::Write>(&self, output: &mut W) -> fmt::Result
        requires shown { IsCharBoundary self.now.text.now self.now.shown }
        ensures { OnOk result (WritesInCalls W.write_str_gives output.old
            (with_markup self.now.format (Own Class.Text (drop self.now.shown self.now.text.now) ∷ []))
            output.new) }
    {
        write_in_class(self.format, Class::Text, &self.text[self.shown..], output)
    }
}

/// Writes a stretch with the markup of its look.
fn write_look<W: fmt::Write>(format: Format, look: Look, text: &str, output: &mut W) -> fmt::Result
    ensures { OnOk result (WritesInCalls W.write_str_gives output.old
        (with_markup format (spec.look_parts look text.now)) output.new) }
{
    match look {
        Look::Escape => write_in_class(format, Class::Escape, text, output),
        Look::Wrong(error) => {
            write_with_error(
                format,
                TokenError::InLiteral(error),
                Class::Text,
                text,
                output,
            )
        }
    }
}

/// Returns the look of an element, or `None` if it is plain.
fn look_of(mode: Mode, element: Element) -> Option<Look>
    ensures { result ≡ model.element_look mode element }
{
    match (element.error_in(mode), element) {
        (Some(error), _) => Some(Look::Wrong(error)),
        (None, Element::Plain(_)) => None,
        (None, _) => Some(Look::Escape),
    }
}
