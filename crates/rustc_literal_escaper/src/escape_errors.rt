//! An iterator over the errors and warnings in a literal.
ghost use Rattle.std.specs.Prelude.{◌≡◌, length};
ghost use Rattle.std.specs.Iterator.{at_most};
ghost use Rattle.rustc_literal_escaper.specs.Answers.{errors_of};
ghost use Rattle.rustc_literal_escaper.specs.Items.{TakesFirst};
ghost use Rattle.rustc_literal_escaper.specs.Meaning.{errors_in};

use crate::check::is_raw;
use crate::elements::{Elements, ElementsOf};
use crate::error::EscapeError;
use crate::mode::Mode;
use crate::simple::split_simple;
use crate::single::error_in_single;
use crate::text::Plain;
use std::iter::Iterator;
use std::marker::Model;
use std::ops::Range;

/// An iterator over the errors and warnings in a literal, with their byte ranges.
///
/// It returns the arguments of the calls that [`check_for_errors`](crate::check_for_errors) makes, in the same order.
///
/// # Examples
///
/// ```ignore
/// for (range, error) in EscapeErrors::new(r"a\q", Mode::Str) {
///     underline(range, error);
/// }
/// ```
#[derive(Drop)]
pub struct EscapeErrors<'a> {
    /// The error of a character or byte literal, until it has been returned.
    alone: Option<(Range<usize>, EscapeError)>,
    elements: Elements<'a>,
    mode: Mode,
}

impl<'a> Model for EscapeErrors<'a> {
    ghost use Rattle.std.specs.Prelude.{List, if◌then◌else◌};
    ghost use Rattle.std.specs.Option.{option_to_list};
    ghost use Rattle.rustc_literal_escaper.specs.Meaning.{errors_in, is_single};
    ghost use Rattle.rustc_literal_escaper.specs.Grammar.{Error};

    ghost Value = { List Error };

    ghost view = { λ f. if is_single f.mode then option_to_list f.alone else errors_in f.mode f.elements };
}

impl<'a> EscapeErrors<'a> {
    /// Returns an iterator over the errors and warnings in a literal of this kind.
    ///
    /// `src` is the text between the quotes.
    pub fn new(src: &'a str, mode: Mode) -> EscapeErrors<'a>
        ensures { result ≡ errors_of mode src.now }
    {
        if !mode.in_double_quotes() {
            return EscapeErrors {
                alone: error_in_single(src, mode),
                elements: Elements::new(""),
                mode,
            };
        }
        let raw = is_raw(mode);
        let (_, left) = split_simple(src, raw);
        EscapeErrors {
            alone: None,
            elements: ElementsOf::of_text(Plain::ending(src.len(), left), raw),
            mode,
        }
    }
}

impl<'a> Iterator for EscapeErrors<'a> {
    type Item = (Range<usize>, EscapeError);

    ghost next_gives = { TakesFirst };

    ghost remaining = { λ s. at_most (length s) };

    /// Returns the next error or warning, or `None` after the last one.
    fn next(&mut self) -> Option<(Range<usize>, EscapeError)> {
        match self.mode {
            Mode::Char | Mode::Byte => self.alone.take(),
            Mode::Str | Mode::RawStr => next_in_str(&mut self.elements),
            Mode::ByteStr | Mode::RawByteStr => next_in_byte_str(&mut self.elements),
            Mode::CStr => next_in_c_str(&mut self.elements),
            Mode::RawCStr => next_in_raw_c_str(&mut self.elements),
        }
    }
}

// The four loops are functions of their own, since one function with all of them is slower.

/// Returns the next error or warning in a string or a raw string.
#[inline(never)]
fn next_in_str(elements: &mut Elements<'_>) -> Option<(Range<usize>, EscapeError)>
    ensures { TakesFirst (errors_in Mode.Str elements.old) result (errors_in Mode.Str elements.new) }
{
    elements.next_error(Mode::Str)
}

/// Returns the next error or warning in a byte string or a raw byte string.
#[inline(never)]
fn next_in_byte_str(elements: &mut Elements<'_>) -> Option<(Range<usize>, EscapeError)>
    ensures { TakesFirst (errors_in Mode.ByteStr elements.old) result
        (errors_in Mode.ByteStr elements.new) }
{
    elements.next_error(Mode::ByteStr)
}

/// Returns the next error or warning in a C string.
#[inline(never)]
fn next_in_c_str(elements: &mut Elements<'_>) -> Option<(Range<usize>, EscapeError)>
    ensures { TakesFirst (errors_in Mode.CStr elements.old) result (errors_in Mode.CStr elements.new) }
{
    elements.next_error(Mode::CStr)
}

/// Returns the next error in a raw C string.
#[inline(never)]
fn next_in_raw_c_str(elements: &mut Elements<'_>) -> Option<(Range<usize>, EscapeError)>
    ensures { TakesFirst (errors_in Mode.RawCStr elements.old) result
        (errors_in Mode.RawCStr elements.new) }
{
    elements.next_error(Mode::RawCStr)
}
