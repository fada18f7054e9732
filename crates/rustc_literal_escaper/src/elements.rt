//! The elements of a string: two loops that read them, and an iterator.
ghost use Rattle.std.specs.Prelude.{◌≡◌, ◌≤◌, ◌∷◌, [], ℕ, List, None, Some, true, false, length, map, if◌then◌else◌};
ghost use Rattle.std.specs.Iterator.{at_most};
ghost use Rattle.std.specs.List.{list_any};
ghost use Rattle.rustc_literal_escaper.specs.Answers.{items_of};
ghost use Rattle.rustc_literal_escaper.specs.Grammar.{Item, is_newline, is_passed_over};
ghost use Rattle.rustc_literal_escaper.specs.Grammar as grammar;
ghost use Rattle.rustc_literal_escaper.specs.Items.{ArePlaced, IsRebuilt, StandsForItself, TakesFirst};
ghost use Rattle.rustc_literal_escaper.specs.Meaning.{errors_in};
ghost use Rattle.rustc_literal_escaper.specs.model.Elements as spec;
ghost use Rattle.rustc_literal_escaper.specs.model.Elements.{all_items, front_by, item_by, items_by};
ghost use Rattle.rustc_literal_escaper.specs.model.Escape.{escape, front_run, past_run, StartsWith};
ghost use Rattle.rustc_literal_escaper.specs.model.Sinks.{Runs, Takes};

use crate::element::Element;
use crate::error::EscapeError;
use crate::escape::{byte_escape, escape_at};
use crate::mode::Mode;
use crate::text::{Plain, Text};
use std::iter::Iterator;
use std::marker::Model;
use std::ops::Range;

/// A consumer of elements.
pub(crate) trait Sink {
    ghost use Rattle.std.specs.Prelude.{◌≡◌, Bool, true};
    ghost use Rattle.rustc_literal_escaper.specs.Grammar.{Item};
    ghost use Rattle.rustc_literal_escaper.specs.model.Sinks.{IgnoresSimple};

    /// Whether the sink can be called.
    ghost ready: { Self → Type 0 };

    /// How a call changes the sink: the sink before, the item, the result, and the sink after.
    ghost took: { Self → Item → Bool → Self → Type 0 };

    /// Consumes an element. Returns whether the sink wants more.
    fn take(&mut self, range: Range<usize>, element: Element) -> bool
        requires ready { ready self.old }
        ensures ready { ready self.new }
        ensures took { took self.old (range, element) result self.new };

    /// Returns whether the sink ignores simple characters, so that they can be skipped.
    #[inline(always)]
    fn ignores_simple(&self) -> bool
        ensures ignores { result ≡ true → IgnoresSimple took self.now }
    {
        false
    }
}

/// Passes the elements of a text to `sink` until it returns `false`.
///
/// A skipped line ending can have two warnings. If the sink stops after the first, this function returns the offset of
/// the backslash. Pass that offset as `line` to the next call, which continues with the second warning.
#[inline(always)]
pub(crate) fn each<T: Text, S: Sink>(
    rest: &mut T,
    raw: bool,
    line: Option<usize>,
    sink: &mut S,
) -> Option<usize>
    requires ready { S.ready sink.old }
    ensures same { T.offset_of rest.new ≡ T.offset_of rest.old }
    ensures runs { Runs S.took sink.old
        (all_items raw (T.offset_of rest.old) line (T.left rest.old)) sink.new
        (all_items raw (T.offset_of rest.old) result (T.left rest.new)) }
{
    if !warn_of_line(rest, line, sink) {
        return None;
    }
    skip_ignored(rest, raw, sink);
    if raw {
        each_raw(rest, sink);
        return None;
    }
    each_escaped(rest, sink)
}

/// Implements [`each`] for a string that is not raw.
#[inline(always)]
fn each_escaped<T: Text, S: Sink>(rest: &mut T, sink: &mut S) -> Option<usize>
    requires ready { S.ready sink.old }
    ensures same { T.offset_of rest.new ≡ T.offset_of rest.old }
    ensures runs { Runs S.took sink.old
        (items_by (front_by false) (T.offset_of rest.old) (T.left rest.old)) sink.new
        (all_items false (T.offset_of rest.old) result (T.left rest.new)) }
{
    'elements: loop {
        let start = rest.offset();
        let Some(c) = rest.next_char() else {
            return None;
        };
        // Most characters need only these two comparisons, and `sink` sees a plain character.
        if c > '"' {
            if c != '\\' {
                if !sink.take(start..rest.offset(), Element::Plain(c)) {
                    return None;
                }
                continue;
            }
        } else {
            if !sink.take(start..rest.offset(), unescaped(c)) {
                return None;
            }
            continue;
        }
        let next = rest.next_char();
        if is_newline(next) {
            let lines = pass_over(rest);
            if !warn_of_lines(rest, start, lines, sink) {
                return Some(start);
            }
            if !warn_of_space(rest, start, sink) {
                return None;
            }
            skip_ignored(rest, false, sink);
            continue;
        }
        if !take_escape(start, next, rest, sink) {
            return None;
        }
        skip_ignored(rest, false, sink);
    }
}

/// Implements [`each`] for a raw string.
#[inline(always)]
fn each_raw<T: Text, S: Sink>(rest: &mut T, sink: &mut S)
    requires ready { S.ready sink.old }
    ensures same { T.offset_of rest.new ≡ T.offset_of rest.old }
    ensures runs { Runs S.took sink.old
        (items_by (front_by true) (T.offset_of rest.old) (T.left rest.old)) sink.new
        (items_by (front_by true) (T.offset_of rest.old) (T.left rest.new)) }
{
    'characters: loop {
        let start = rest.offset();
        let Some(c) = rest.next_char() else {
            return;
        };
        // Most characters need only this comparison, and `sink` sees a plain character.
        if c > '\r' {
            if !sink.take(start..rest.offset(), Element::Plain(c)) {
                return;
            }
            continue;
        }
        if !sink.take(start..rest.offset(), raw_element(c)) {
            return;
        }
    }
}

/// Passes the element of the escape after a backslash at `start` to `sink`. Returns whether `sink` wants more. `next`
/// and `rest` are those of [`escape_at`].
#[inline(always)]
fn take_escape<T: Text, S: Sink>(
    start: usize,
    next: Option<char>,
    rest: &mut T,
    sink: &mut S,
) -> bool
    requires ready { S.ready sink.old }
    ensures ready { S.ready sink.new }
    ensures same { T.offset_of rest.new ≡ T.offset_of rest.old }
    ensures left { (s : List ℕ) → StartsWith s next (T.left rest.old)
        → T.left rest.new ≡ (escape s).1 }
    ensures took { (s : List ℕ) → StartsWith s next (T.left rest.old)
        → S.took sink.old (item_by (T.offset_of rest.old) start (escape s)) result sink.new }
{
    if let Some(byte) = byte_escape(next, rest) {
        return sink.take(start..rest.offset(), Element::Byte(byte));
    }
    let element = escape_at(next, rest);
    sink.take(start..rest.offset(), element)
}

/// Skips simple characters if `sink` ignores them.
#[inline(always)]
fn skip_ignored<T: Text, S: Sink>(rest: &mut T, raw: bool, sink: &S)
    ensures same { T.offset_of rest.new ≡ T.offset_of rest.old }
    ensures shorter { length (T.left rest.new) ≤ length (T.left rest.old) }
    ensures runs { (offset : List ℕ → ℕ) (last : S) (left : List Item)
        → Runs S.took sink.now (items_by (front_by raw) offset (T.left rest.new)) last left
        → Runs S.took sink.now (items_by (front_by raw) offset (T.left rest.old)) last left }
{
    if sink.ignores_simple() {
        rest.skip_simple(raw);
    }
}

/// Passes the second warning of a skipped line ending to `sink` if the last call stopped before it. Returns whether
/// `sink` wants more.
#[inline(always)]
fn warn_of_line<T: Text, S: Sink>(rest: &T, line: Option<usize>, sink: &mut S) -> bool
    requires ready { S.ready sink.old }
    ensures ready { S.ready sink.new }
    ensures takes { Takes S.took sink.old
        (spec.line_items (T.offset_of rest.now) line (T.left rest.now)) result sink.new }
{
    match line {
        Some(start) => warn_of_space(rest, start, sink),
        None => true,
    }
}

/// Passes `MultipleSkippedLinesWarning` to `sink` if `lines` is true. Returns whether `sink` wants more.
#[inline(always)]
fn warn_of_lines<T: Text, S: Sink>(rest: &T, start: usize, lines: bool, sink: &mut S) -> bool
    requires ready { S.ready sink.old }
    ensures ready { S.ready sink.new }
    ensures takes { Takes S.took sink.old (map (item_by (T.offset_of rest.now) start)
        (if lines then (Element.Diagnostic EscapeError.MultipleSkippedLinesWarning, T.left rest.now)
        ∷ [] else [])) result sink.new }
{
    if !lines {
        return true;
    }
    let warning = Element::Diagnostic(EscapeError::MultipleSkippedLinesWarning);
    sink.take(start..rest.offset(), warning)
}

/// Passes `UnskippedWhitespaceWarning` to `sink` if the next character is whitespace. Returns whether `sink` wants
/// more.
#[inline(always)]
fn warn_of_space<T: Text, S: Sink>(rest: &T, start: usize, sink: &mut S) -> bool
    requires ready { S.ready sink.old }
    ensures ready { S.ready sink.new }
    ensures takes { Takes S.took sink.old (map (item_by (T.offset_of rest.now) start)
        (spec.more_space (T.left rest.now))) result sink.new }
{
    let mut ahead = rest.copy();
    let Some(c) = ahead.next_char() else {
        return true;
    };
    if !c.is_whitespace() {
        return true;
    }
    let warning = Element::Diagnostic(EscapeError::UnskippedWhitespaceWarning);
    sink.take(start..ahead.offset(), warning)
}

/// Returns whether the next character is a newline.
#[inline(always)]
fn is_newline(next: Option<char>) -> bool
    ensures found { result ≡ true → next ≡ Some 10 }
    ensures none { result ≡ false
        → (s left : List ℕ) → StartsWith s next left → spec.begins_line s ≡ false }
{
    matches!(next, Some('\n'))
}

/// Skips the whitespace that a backslash at the end of a line skips. Returns whether it contains a newline.
#[inline(always)]
#[tactic(auto, using(crate::proofs::PlaceLemmas::place_lemmas))]
fn pass_over<T: Text>(rest: &mut T) -> bool
    ensures same { T.offset_of rest.new ≡ T.offset_of rest.old }
    ensures newline { result ≡ list_any is_newline (front_run is_passed_over (T.left rest.old)) }
    ensures left { T.left rest.new ≡ past_run is_passed_over (T.left rest.old) }
{
    let mut newline = false;
    'space: loop {
        let mut ahead = rest.copy();
        let Some(c) = ahead.next_char() else {
            return newline;
        };
        if c != ' ' {
            if !is_passed_over(c) {
                return newline;
            }
            newline |= c == '\n';
        }
        *rest = ahead;
    }
}

/// Returns whether a backslash at the end of a line skips this character.
#[inline(always)]
fn is_passed_over(c: char) -> bool
    ensures { result ≡ grammar.is_passed_over c }
{
    matches!(c, '\n' | '\r' | '\t' | ' ')
}

/// Returns the element for a character of a raw string.
#[inline(always)]
fn raw_element(c: char) -> Element
    ensures { result ≡ spec.raw_element c }
{
    if c == '\r' {
        Element::Diagnostic(EscapeError::BareCarriageReturnInRawString)
    } else {
        Element::Plain(c)
    }
}

/// Returns the element for an unescaped character of a string that is not raw.
#[inline(always)]
fn unescaped(c: char) -> Element
    ensures { result ≡ spec.unescaped c }
{
    match c {
        '"' => Element::Diagnostic(EscapeError::EscapeOnlyChar),
        '\r' => Element::Diagnostic(EscapeError::BareCarriageReturn),
        _ => Element::Plain(c),
    }
}

/// An iterator over the elements of a string, each with its byte range.
///
/// Created by [`Elements::new`] and [`Elements::new_raw`].
pub type Elements<'a> = ElementsOf<Plain<'a>>;

/// An iterator over the elements of a string that is read as a [`Text`].
#[derive(Drop)]
pub struct ElementsOf<T: Text> {
    rest: T,
    /// Whether the string is raw.
    raw: bool,
    /// The offset of the backslash of the skipped line ending whose second warning has not been reported yet.
    line: Option<usize>,
}

impl<T: Text> Model for ElementsOf<T> {
    ghost use Rattle.std.specs.Prelude.{List};
    ghost use Rattle.rustc_literal_escaper.specs.Grammar.{Item};
    ghost use Rattle.rustc_literal_escaper.specs.model.Elements.{all_items};

    ghost Value = { List Item };

    ghost view = { λ e. all_items e.raw (T.offset_of e.rest) e.line (T.left e.rest) };
}

impl<'a> ElementsOf<Plain<'a>> {
    /// Returns an iterator over the elements of `src`, the text between the quotes of a string, byte string or C
    /// string.
    pub fn new(src: &'a str) -> Elements<'a>
        ensures items { result ≡ items_of false src.now }
        ensures plain { StandsForItself false src.now }
        ensures places { ArePlaced src.now (items_of false src.now) }
        ensures rebuilt { IsRebuilt false src.now }
    {
        elements_of(src, false)
    }

    /// Returns an iterator over the elements of `src`, the text between the quotes of a raw string of any kind.
    pub fn new_raw(src: &'a str) -> Elements<'a>
        ensures items { result ≡ items_of true src.now }
        ensures plain { StandsForItself true src.now }
        ensures places { ArePlaced src.now (items_of true src.now) }
        ensures rebuilt { IsRebuilt true src.now }
    {
        elements_of(src, true)
    }
}

/// Returns an iterator over the elements of a raw string, or of a string that may have escapes.
#[inline(always)]
#[tactic(auto, using(crate::proofs::PlacedLemmas::are_placed, crate::proofs::ItemLemmas::stands_for_itself, crate::proofs::PlacedLemmas::is_rebuilt))]
pub(crate) fn elements_of(src: &str, raw: bool) -> Elements<'_>
    ensures items { result ≡ items_of raw src.now }
    ensures plain { StandsForItself raw src.now }
    ensures places { ArePlaced src.now (items_of raw src.now) }
    ensures rebuilt { IsRebuilt raw src.now }
{
    ElementsOf::of_text(Plain::new(src), raw)
}

impl<T: Text> ElementsOf<T> {
    /// Returns an iterator over the elements of a raw string, or of a string that may have escapes.
    #[inline(always)]
    pub fn of_text(text: T, raw: bool) -> ElementsOf<T>
        ensures { result ≡ all_items raw (T.offset_of text) None (T.left text) }
    {
        ElementsOf {
            rest: text,
            raw,
            line: None,
        }
    }

    /// Returns the next error or warning in a literal of this kind and its byte range, or `None` after the last.
    #[inline(always)]
    pub fn next_error(&mut self, mode: Mode) -> Option<(Range<usize>, EscapeError)>
        ensures { TakesFirst (errors_in mode self.old) result (errors_in mode self.new) }
    {
        let mut first = FirstError { mode, found: None };
        let mut rest = self.rest.copy();
        self.line = each(&mut rest, self.raw, self.line, &mut first);
        self.rest = rest;
        first.found
    }
}

impl<T: Text> Iterator for ElementsOf<T> {
    type Item = (Range<usize>, Element);

    ghost next_gives = { TakesFirst };

    ghost remaining = { λ s. at_most (length s) };

    /// Returns the next element, or `None` after the last one.
    #[inline(always)]
    fn next(&mut self) -> Option<(Range<usize>, Element)> {
        // The loop reads a copy, which stays in registers.
        let mut first = First { found: None };
        let mut rest = self.rest.copy();
        self.line = each(&mut rest, self.raw, self.line, &mut first);
        self.rest = rest;
        first.found
    }
}

/// A sink for one element.
#[derive(Drop)]
struct First {
    found: Option<(Range<usize>, Element)>,
}

impl Sink for First {
    ghost use Rattle.std.specs.Prelude.{◌≡◌, ⊤, false, Some};

    ghost ready = { λ _. ⊤ };

    ghost took = { λ _ item more s. (more ≡ false) × (s.found ≡ Some item) };

    #[inline(always)]
    fn take(&mut self, range: Range<usize>, element: Element) -> bool {
        self.found = Some((range, element));
        false
    }
}

/// A sink for the elements up to the first error or warning in a literal of this kind.
#[derive(Drop)]
struct FirstError {
    mode: Mode,
    found: Option<(Range<usize>, EscapeError)>,
}

impl Sink for FirstError {
    ghost use Rattle.std.specs.Prelude.{◌≡◌, ⊤, true, false, Some, MatchOption};
    ghost use Rattle.rustc_literal_escaper.specs.Meaning.{error_of};

    ghost ready = { λ _. ⊤ };

    ghost took = { λ s item more t. MatchOption (error_of s.mode item.1)
        ((more ≡ true) × (t ≡ s))
        (λ error. (more ≡ false) × (t.found ≡ Some (item.0, error))) };

    #[inline(always)]
    fn take(&mut self, range: Range<usize>, element: Element) -> bool {
        if let Some(error) = element.error_in(self.mode) {
            self.found = Some((range, error));
            return false;
        }
        true
    }

    #[inline(always)]
    fn ignores_simple(&self) -> bool {
        true
    }
}
