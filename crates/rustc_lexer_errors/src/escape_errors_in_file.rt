//! Errors and warnings in a literal of a file, which can have CRLF line endings.
ghost use Rattle.std.specs.Prelude.{◌≡◌, length, true};
ghost use Rattle.std.specs.Iterator.{at_most};
ghost use Rattle.std.specs.Str.{chars};
ghost use Rattle.rustc_literal_escaper.specs.Items.{TakesFirst};
ghost use Rattle.rustc_literal_escaper.specs.Meaning as meaning;
ghost use Rattle.rustc_lexer_errors.specs.LineEnds.{char_error, escape_errors_in_file, unix};
ghost use Rattle.rustc_lexer_errors.specs.model.LineEnds.{single_left};

use crate::line_ends::{FileChars, FileElements, file_elements};
use crate::literal::first_offset;
use rustc_literal_escaper::{EscapeError, EscapeErrors, Mode};
use std::iter::Iterator;
use std::marker::Model;
use std::ops::Range;

/// An iterator over the errors and warnings in a literal of a file, with their byte ranges.
///
/// A CRLF counts as a newline here, like in rustc. For [`check_for_errors`](rustc_literal_escaper::check_for_errors),
/// its carriage return is an error.
///
/// # Examples
///
/// ```
/// use rustc_lexer_errors::EscapeErrorsInFile;
/// use rustc_literal_escaper::{EscapeError, Mode};
///
/// let mut errors = EscapeErrorsInFile::new("one\r\ntwo\rthree", Mode::Str);
/// assert_eq!(errors.next(), Some((8..9, EscapeError::BareCarriageReturn)));
/// assert_eq!(errors.next(), None);
/// ```
#[derive(Drop)]
pub struct EscapeErrorsInFile<'a> {
    /// The errors of contents without a carriage return.
    errors: EscapeErrors<'a>,
    /// The error between single quotes, until it has been returned.
    alone: Option<(Range<usize>, EscapeError)>,
    elements: FileElements<'a>,
    mode: Mode,
}

impl<'a> Model for EscapeErrorsInFile<'a> {
    ghost use Rattle.std.specs.Prelude.{List, ◌++◌};
    ghost use Rattle.std.specs.Option.{option_to_list};
    ghost use Rattle.rustc_literal_escaper.specs.Meaning.{errors_in};
    ghost use Rattle.rustc_literal_escaper.specs.Grammar.{Error};

    ghost Value = { List Error };

    ghost view = { λ f. f.errors ++ (option_to_list f.alone ++ errors_in f.mode f.elements) };
}

impl<'a> EscapeErrorsInFile<'a> {
    /// Returns an iterator over the errors and warnings of a literal.
    ///
    /// `contents` is the text between the quotes.
    #[tactic(auto, using(crate::proofs::FileErrorLemmas::error_lemmas))]
    pub fn new(contents: &'a str, mode: Mode) -> EscapeErrorsInFile<'a>
        ensures { result ≡ escape_errors_in_file mode contents.now }
    {
        let mut found = EscapeErrorsInFile {
            errors: EscapeErrors::new("", Mode::Str),
            alone: None,
            elements: file_elements("", false),
            mode,
        };
        if first_offset(b'\r', contents) == contents.len() {
            found.errors = EscapeErrors::new(contents, mode);
        } else if mode.in_double_quotes() {
            found.elements = file_elements(contents, is_raw(mode));
        } else {
            found.alone = single_error(contents, mode);
        }
        found
    }
}

impl<'a> Iterator for EscapeErrorsInFile<'a> {
    type Item = (Range<usize>, EscapeError);

    ghost next_gives = { TakesFirst };

    ghost remaining = { λ s. at_most (length s) };

    /// Returns the next error or warning, or `None` if there are no more. After it has returned `None`, it always
    /// returns `None`.
    fn next(&mut self) -> Option<(Range<usize>, EscapeError)> {
        if let Some(found) = self.errors.next() {
            return Some(found);
        }
        if self.alone.is_some() {
            return self.alone.take();
        }
        self.elements.next_error(self.mode)
    }
}

/// Returns the error between single quotes with its byte range, or `None` if there is no error.
#[tactic(auto, using(crate::proofs::FileErrorLemmas::single_moved))]
fn single_error(contents: &str, mode: Mode) -> Option<(Range<usize>, EscapeError)>
    ensures { result ≡ single_left contents.now mode (unix (chars contents.now)) }
{
    rustc_literal_escaper::single_error(&mut FileChars::new(contents), mode)
}

/// Returns the error between single quotes, or `None` if there is none.
pub fn error_in_quotes(mode: Mode, inside: &str) -> Option<EscapeError>
    requires single { meaning.is_single mode ≡ true }
    ensures { result ≡ char_error mode inside.now }
{
    let (_, error) = single_error(inside, mode)?;
    Some(error)
}

/// Returns whether a literal of this mode is raw, so that it has no escapes.
pub fn is_raw(mode: Mode) -> bool
    ensures { result ≡ meaning.is_raw mode }
{
    matches!(mode, Mode::RawStr | Mode::RawByteStr | Mode::RawCStr)
}
