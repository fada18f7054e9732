//! Finds the errors and warnings in a literal.
ghost use Rattle.std.specs.Prelude.{◌≡◌, ◌≤◌, [], false, true, length};
ghost use Rattle.std.specs.List.{FoldsTo};
ghost use Rattle.std.specs.Option.{option_to_list};
ghost use Rattle.std.specs.Str.{chars};
ghost use Rattle.rustc_literal_escaper.specs.Answers.{errors_of};
ghost use Rattle.rustc_literal_escaper.specs.Meaning as spec;
ghost use Rattle.rustc_literal_escaper.specs.Meaning.{errors_in};
ghost use Rattle.rustc_literal_escaper.specs.model.Elements.{front_by, items_from, place};
ghost use Rattle.rustc_literal_escaper.specs.model.Single as model;

use crate::element::Element;
use crate::elements::{ElementsOf, Sink, each};
use crate::error::EscapeError;
use crate::mode::Mode;
use crate::simple::{is_short_and_simple, split_simple};
use crate::single::error_in_single;
use crate::text::{Plain, Text};
use std::ops::Range;

/// Calls `error_callback` with the byte range of each error and warning in a literal, and the error.
///
/// `src` is the text between the quotes, and `mode` is the kind of the literal. The calls are in text order. Between
/// single quotes there is at most one error, and its range starts at 0.
///
/// # Examples
///
/// ```
/// use rustc_literal_escaper::{EscapeError, Mode, check_for_errors};
///
/// let mut escape_errors = Vec::new();
/// check_for_errors(r"a\q", Mode::Str, |range, error| escape_errors.push((range, error)));
/// assert_eq!(escape_errors, [(1..3, EscapeError::InvalidEscape)]);
/// ```
#[inline]
pub fn check_for_errors<F: FnMut(Range<usize>, EscapeError)>(
    src: &str,
    mode: Mode,
    mut error_callback: F,
)
    requires callable { F.IsAlwaysCallable error_callback }
    ensures calls { (last : F) × FoldsTo (λ f error g. F.step f error.0 error.1 tt g)
        error_callback (errors_of mode src.now) last }
{
    match mode {
        Mode::Char => each_single_error(src, mode, &mut error_callback),
        Mode::Byte => each_single_error(src, mode, &mut error_callback),
        Mode::Str => each_error(src, mode, error_callback),
        Mode::ByteStr => each_error(src, mode, error_callback),
        Mode::CStr => each_error(src, mode, error_callback),
        Mode::RawStr => each_error(src, mode, error_callback),
        Mode::RawByteStr => each_error(src, mode, error_callback),
        Mode::RawCStr => each_error(src, mode, error_callback),
    }
}

/// Calls `callback` with the error of a character or byte literal, if it has one.
#[inline(always)]
fn each_single_error<F: FnMut(Range<usize>, EscapeError)>(src: &str, mode: Mode, callback: &mut F)
    requires callable { F.IsAlwaysCallable callback.old }
    requires single { spec.is_single mode ≡ true }
    ensures calls { FoldsTo (λ f error g. F.step f error.0 error.1 tt g) callback.old
        (option_to_list (model.single_error (place (length src.now)) mode (chars src.now)))
        callback.new }
{
    if let Some((range, error)) = error_in_single(src, mode) {
        callback(range, error);
    }
}

/// Calls `callback` with each error and warning in a string.
///
/// It is inlined into each arm of its caller, so that the mode is a constant there.
#[inline(always)]
fn each_error<F: FnMut(Range<usize>, EscapeError)>(src: &str, mode: Mode, callback: F)
    requires callable { F.IsAlwaysCallable callback }
    requires double { spec.is_single mode ≡ false }
    ensures calls { (last : F) × FoldsTo (λ f error g. F.step f error.0 error.1 tt g)
        callback (errors_of mode src.now) last }
{
    if src.is_empty() {
        return;
    }
    let raw = is_raw(mode);
    if raw && is_short_and_simple(src) {
        return;
    }
    let (_, left) = split_simple(src, raw);
    if left.is_empty() {
        return;
    }
    // A search of fewer bytes costs more than it saves.
    if left.len() >= 4 && is_valid(src.len(), left, raw, mode) {
        return;
    }
    let mut errors = Errors { mode, callback };
    each(&mut Plain::ending(src.len(), left), raw, None, &mut errors);
}

/// Returns `true` if the rest of a string of `total` bytes has no errors and no warnings, or `false` if it may have some.
/// This search is not generic, so it is optimized with this crate.
#[inline(never)]
fn is_valid(total: usize, left: &str, raw: bool, mode: Mode) -> bool
    requires within { length left.now ≤ total }
    ensures { result ≡ true
        → errors_in mode (items_from (front_by raw) total (chars left.now)) ≡ [] }
{
    let mut elements = ElementsOf::of_text(Plain::ending(total, left), raw);
    match mode {
        Mode::Str | Mode::RawStr => elements.next_error(Mode::Str).is_none(),
        Mode::ByteStr | Mode::RawByteStr => elements.next_error(Mode::ByteStr).is_none(),
        _ => false,
    }
}

/// Returns whether a literal of this kind is raw.
#[inline(always)]
pub(crate) fn is_raw(mode: Mode) -> bool
    ensures { result ≡ spec.is_raw mode }
{
    matches!(mode, Mode::RawStr | Mode::RawByteStr | Mode::RawCStr)
}

/// A sink that passes the error or warning of each element, if it has one in a literal of this kind, to a callback.
#[derive(Drop)]
struct Errors<F> {
    mode: Mode,
    callback: F,
}

impl<F: FnMut(Range<usize>, EscapeError)> Sink for Errors<F> {
    ghost use Rattle.std.specs.Prelude.{◌≡◌, true, MatchOption};
    ghost use Rattle.rustc_literal_escaper.specs.Meaning.{error_of};

    ghost ready = { λ s. F.IsAlwaysCallable s.callback };

    ghost took = { λ s item more t. (more ≡ true) × (t.mode ≡ s.mode)
        × MatchOption (error_of s.mode item.1) (t.callback ≡ s.callback)
        (λ error. F.step s.callback item.0 error tt t.callback) };

    #[inline(always)]
    fn take(&mut self, range: Range<usize>, element: Element) -> bool {
        if let Some(error) = element.error_in(self.mode) {
            (self.callback)(range, error);
        }
        true
    }
}
