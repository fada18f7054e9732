//! Texts that are read character by character.
ghost use Rattle.std.specs.Prelude.{◌≡◌, ◌≤◌, length};
ghost use Rattle.std.specs.Str.{chars};

use crate::simple::past_simple;
use std::marker::Model;
use std::str::Chars;

/// A text that is read character by character.
pub trait Text: Drop {
    ghost use Rattle.std.specs.Prelude.{◌≡◌, ◌∷◌, ℕ, List, [], MatchOption};
    ghost use Rattle.rustc_literal_escaper.specs.model.Plain.{is_simple, Passes};

    /// The remaining characters.
    ghost left: { Self → List ℕ };

    /// The byte offset at which only these characters are left.
    ghost offset_of: { Self → List ℕ → ℕ };

    /// Returns the next character and moves past it.
    fn next_char(&mut self) -> Option<char>
        ensures left { MatchOption result ((left self.old ≡ []) × (left self.new ≡ []))
            (λ c. left self.old ≡ c ∷ left self.new) }
        ensures same { offset_of self.new ≡ offset_of self.old };

    /// Returns the byte offset of the next character.
    fn offset(&self) -> usize
        ensures { result ≡ offset_of self.now (left self.now) };

    /// Returns a copy with the same remaining characters.
    fn copy(&self) -> Self
        ensures { result ≡ self.now };

    /// Skips simple characters, possibly none. They are valid in every kind of string.
    fn skip_simple(&mut self, _raw: bool)
        ensures same { offset_of self.new ≡ offset_of self.old }
        ensures passes { Passes (is_simple _raw) (left self.old) (left self.new) }
    {}
}

/// A text whose characters are read without changes.
#[derive(Drop)]
pub struct Plain<'a> {
    /// The length of the whole text in bytes.
    total: usize,
    ahead: Chars<'a>,
}

impl<'a> Model for Plain<'a> {
    ghost use Rattle.std.specs.Prelude.{List, ℕ, ◌≤◌, length};
    ghost use Rattle.std.specs.Str.{chars, IsUtf8};
    ghost use Rattle.std.specs.Str.Iter.{chars_rest};

    ghost Value = { ℕ × List ℕ };

    ghost view = { λ p. (p.total, chars (chars_rest p.ahead)) };

    ghost invariant = { λ p. IsUtf8 (chars_rest p.ahead) × (length (chars_rest p.ahead) ≤ p.total) };
}

impl<'a> Plain<'a> {
    /// Returns the characters of this text.
    #[inline(always)]
    pub fn new(text: &'a str) -> Plain<'a>
        ensures { result ≡ (length text.now, chars text.now) }
    {
        Plain::ending(text.len(), text)
    }

    /// Returns the characters at the end of a text of `total` bytes.
    #[inline(always)]
    pub(crate) fn ending(total: usize, left: &'a str) -> Plain<'a>
        requires within { length left.now ≤ total }
        ensures { result ≡ (total, chars left.now) }
    {
        Plain {
            total,
            ahead: left.chars(),
        }
    }
}

impl<'a> Text for Plain<'a> {
    ghost use Rattle.rustc_literal_escaper.specs.model.Elements.{place};

    ghost left = { λ p. p.1 };

    ghost offset_of = { λ p. place p.0 };

    #[inline(always)]
    fn next_char(&mut self) -> Option<char> {
        self.ahead.next()
    }

    #[inline(always)]
    fn offset(&self) -> usize {
        self.total - self.ahead.as_str().len()
    }

    #[inline(always)]
    fn copy(&self) -> Plain<'a> {
        Plain {
            total: self.total,
            ahead: self.ahead.as_str().chars(),
        }
    }

    #[inline(always)]
    fn skip_simple(&mut self, raw: bool) {
        self.ahead = past_simple(self.ahead.as_str(), raw).chars();
    }
}
