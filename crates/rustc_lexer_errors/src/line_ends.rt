//! The contents of a literal in a file, where a CRLF is one character, a newline.
ghost use Rattle.std.specs.Prelude.{◌≡◌, ◌<◌, ◌&&◌, ◌∷◌, [], true, false, length, MatchOption};
ghost use Rattle.std.specs.Str.{chars, IsUtf8};
ghost use Rattle.rustc_literal_escaper.specs.Grammar.{is_newline, next_is};
ghost use Rattle.rustc_lexer_errors.specs.LineEnds.{file_items, unix};
ghost use Rattle.rustc_lexer_errors.specs.model.LineEnds.{IsLeft};

use rustc_literal_escaper::{ElementsOf, Text, split_first};
use std::marker::Model;

/// An iterator over the elements of a string in a file, with their byte ranges. A CRLF is one character, a newline.
pub type FileElements<'a> = ElementsOf<FileChars<'a>>;

/// Returns an iterator over the elements of the contents of a string, which is raw if `raw` is true.
#[tactic(auto, using(crate::proofs::LineEndLemmas::all_items))]
pub fn file_elements(contents: &str, raw: bool) -> FileElements<'_>
    ensures { result ≡ file_items raw contents.now }
{
    ElementsOf::of_text(FileChars::new(contents), raw)
}

/// The characters of a text in a file.
#[derive(Drop)]
pub struct FileChars<'a> {
    text: &'a str,
    rest: &'a str,
}

impl<'a> Model for FileChars<'a> {
    ghost use Rattle.std.specs.Prelude.{List, ℕ};
    ghost use Rattle.std.specs.Str.{chars};
    ghost use Rattle.rustc_lexer_errors.specs.LineEnds.{unix};
    ghost use Rattle.rustc_lexer_errors.specs.model.LineEnds.{IsLeft};

    ghost Value = { List ℕ × List ℕ };

    ghost view = { λ f. (f.text.now, unix (chars f.rest.now)) };

    ghost invariant = { λ f. IsLeft f.text.now f.rest.now };
}

impl<'a> FileChars<'a> {
    /// Returns the characters of this text.
    #[tactic(auto, using(crate::proofs::LineEndLemmas::all_left))]
    pub fn new(text: &'a str) -> FileChars<'a>
        ensures { result ≡ (text.now, unix (chars text.now)) }
    {
        FileChars { text, rest: text }
    }
}

impl<'a> Text for FileChars<'a> {
    ghost use Rattle.rustc_lexer_errors.specs.model.LineEnds.{offset_of};

    ghost left = { λ f. f.1 };

    ghost offset_of = { λ f. offset_of f.0 };

    /// Returns the next character. A CRLF is one character, a newline.
    fn next_char(&mut self) -> Option<char> {
        let (c, left) = first_char(self.rest)?;
        self.rest = left;
        Some(c)
    }

    fn offset(&self) -> usize {
        self.text.len() - self.rest.len()
    }

    fn copy(&self) -> FileChars<'a> {
        FileChars {
            text: self.text,
            rest: self.rest,
        }
    }
}

/// Returns the first character of a text in a file, and the text after it.
fn first_char(rest: &str) -> Option<(char, &str)>
    ensures { MatchOption result (chars rest.now ≡ [])
        (λ r. (unix (chars rest.now) ≡ r.0 ∷ unix (chars r.1.now)) × IsLeft rest.now r.1.now
        × (length r.1.now < length rest.now)) }
{
    let (first, left) = split_first(rest)?;
    match past_line(first == '\r', left) {
        Some(line) => Some(('\n', line)),
        None => Some((first, left)),
    }
}

/// Returns the text after a leading newline if a carriage return precedes it.
fn past_line(is_after_return: bool, rest: &str) -> Option<&str>
    ensures { MatchOption result ((is_after_return && next_is is_newline (chars rest.now)) ≡ false)
        (λ line. (is_after_return ≡ true) × (chars rest.now ≡ 10 ∷ chars line.now)
        × (length line.now < length rest.now) × IsUtf8 line.now) }
{
    if !is_after_return {
        return None;
    }
    let (c, line) = split_first(rest)?;
    if c == '\n' { Some(line) } else { None }
}
