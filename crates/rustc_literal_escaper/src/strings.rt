//! Reads strings of every kind and passes their units to a callback.
ghost use Rattle.std.specs.Prelude.{◌≡◌, true, false, length};
ghost use Rattle.std.specs.List.{FoldsTo, list_all};
ghost use Rattle.rustc_literal_escaper.specs.Answers.{items_of};
ghost use Rattle.rustc_literal_escaper.specs.Meaning.{byte_of, char_of, raw_unit_of, unit_of};
ghost use Rattle.rustc_literal_escaper.specs.model.Plain.{is_ascii_value, plain_items};

use crate::element::Element;
use crate::elements::{Sink, each};
use crate::error::EscapeError;
use crate::simple::split_simple;
use crate::text::Plain;
use crate::unit::{MixedUnit, NonZeroChar};
use std::marker::PhantomData;
use std::ops::Range;

/// Calls `callback` with each character of a string, or an error or warning, and its byte range.
///
/// `src` is the text between the quotes. The calls are in text order, and both ends of a range are char boundaries.
///
/// A backslash at the end of a line adds nothing to the value, so there is no call with a character for it. There can
/// be two calls with warnings about the whitespace after it. Their ranges start at the backslash.
///
/// See [String literals](https://doc.rust-lang.org/reference/tokens.html#string-literals) in the Rust Reference.
///
/// # Examples
///
/// ```
/// use rustc_literal_escaper::unescape_str;
///
/// let mut units = Vec::new();
/// unescape_str(r"a\n", |range, unit| units.push((range, unit)));
/// assert_eq!(units, [(0..1, Ok('a')), (1..3, Ok('\n'))]);
/// ```
pub fn unescape_str<F: FnMut(Range<usize>, Result<char, EscapeError>)>(src: &str, callback: F)
    requires callable { F.IsAlwaysCallable callback }
    ensures calls { (last : F) × FoldsTo (λ f item g. F.step f item.0 (char_of item.1) tt g)
        callback (items_of false src.now) last }
{
    each_unit::<AsChar, F>(src, false, callback);
}

/// Calls `callback` with each byte of a byte string, or an error or warning, and its byte range.
///
/// The calls are like the calls of [`unescape_str`].
///
/// See [Byte string literals](https://doc.rust-lang.org/reference/tokens.html#byte-string-literals) in the Rust
/// Reference.
///
/// # Examples
///
/// ```
/// use rustc_literal_escaper::unescape_byte_str;
///
/// let mut units = Vec::new();
/// unescape_byte_str(r"a\xff", |range, unit| units.push((range, unit)));
/// assert_eq!(units, [(0..1, Ok(b'a')), (1..5, Ok(255))]);
/// ```
pub fn unescape_byte_str<F: FnMut(Range<usize>, Result<u8, EscapeError>)>(src: &str, callback: F)
    requires callable { F.IsAlwaysCallable callback }
    ensures calls { (last : F) × FoldsTo (λ f item g. F.step f item.0 (byte_of item.1) tt g)
        callback (items_of false src.now) last }
{
    each_unit::<AsByte, F>(src, false, callback);
}

/// Calls `callback` with each unit of a C string, or an error or warning, and its byte range.
///
/// The calls are like the calls of [`unescape_str`].
///
/// See [C string literals](https://doc.rust-lang.org/reference/tokens.html#c-string-literals) in the Rust Reference.
pub fn unescape_c_str<F: FnMut(Range<usize>, Result<MixedUnit, EscapeError>)>(
    src: &str,
    callback: F,
)
    requires callable { F.IsAlwaysCallable callback }
    ensures calls { (last : F) × FoldsTo (λ f item g. F.step f item.0 (unit_of item.1) tt g)
        callback (items_of false src.now) last }
{
    each_unit::<AsMixedUnit, F>(src, false, callback);
}

/// Calls `callback` with each character of a raw string, or an error, and its byte range.
///
/// A raw string has no escapes. Only a carriage return is an error.
///
/// See [Raw string literals](https://doc.rust-lang.org/reference/tokens.html#raw-string-literals) in the Rust
/// Reference.
///
/// # Examples
///
/// ```
/// use rustc_literal_escaper::check_raw_str;
///
/// let mut units = Vec::new();
/// check_raw_str(r"\n", |range, unit| units.push((range, unit)));
/// assert_eq!(units, [(0..1, Ok('\\')), (1..2, Ok('n'))]);
/// ```
#[inline]
pub fn check_raw_str<F: FnMut(Range<usize>, Result<char, EscapeError>)>(src: &str, callback: F)
    requires callable { F.IsAlwaysCallable callback }
    ensures calls { (last : F) × FoldsTo (λ f item g. F.step f item.0 (char_of item.1) tt g)
        callback (items_of true src.now) last }
{
    each_unit::<AsChar, F>(src, true, callback);
}

/// Calls `callback` with each byte of a raw byte string, or an error, and its byte range.
///
/// A carriage return or a non-ASCII character is an error.
///
/// See [Raw byte string literals](https://doc.rust-lang.org/reference/tokens.html#raw-byte-string-literals) in the Rust
/// Reference.
///
/// # Examples
///
/// ```
/// use rustc_literal_escaper::{EscapeError, check_raw_byte_str};
///
/// let mut units = Vec::new();
/// check_raw_byte_str("aé", |_, unit| units.push(unit));
/// assert_eq!(units, [Ok(b'a'), Err(EscapeError::NonAsciiCharInByte)]);
/// ```
#[inline]
pub fn check_raw_byte_str<F: FnMut(Range<usize>, Result<u8, EscapeError>)>(src: &str, callback: F)
    requires callable { F.IsAlwaysCallable callback }
    ensures calls { (last : F) × FoldsTo (λ f item g. F.step f item.0 (byte_of item.1) tt g)
        callback (items_of true src.now) last }
{
    each_unit::<AsByte, F>(src, true, callback);
}

/// Calls `callback` with each character of a raw C string, or an error, and its byte range.
///
/// A carriage return or U+0000 is an error.
///
/// See [Raw C string literals](https://doc.rust-lang.org/reference/tokens.html#raw-c-string-literals) in the Rust
/// Reference.
#[inline]
pub fn check_raw_c_str<F: FnMut(Range<usize>, Result<NonZeroChar, EscapeError>)>(
    src: &str,
    callback: F,
)
    requires callable { F.IsAlwaysCallable callback }
    ensures calls { (last : F) × FoldsTo (λ f item g. F.step f item.0 (raw_unit_of item.1) tt g)
        callback (items_of true src.now) last }
{
    each_unit::<AsRawUnit, F>(src, true, callback);
}

/// The values of elements in one kind of string.
pub(crate) trait Meaning {
    ghost use Rattle.std.specs.Prelude.{◌≡◌, Result, true};
    ghost use Rattle.rustc_literal_escaper.specs.declared.element.Element.{Element};
    ghost use Rattle.rustc_literal_escaper.specs.declared.error.EscapeError.{EscapeError};
    ghost use Rattle.rustc_literal_escaper.specs.model.Plain.{is_ascii_value};

    type Meant: Copy;

    ghost meaning: { Element → Result Self.Meant EscapeError };

    /// Returns the value of an element, or its error.
    fn of(element: Element) -> Result<Self::Meant, EscapeError>
        ensures { result ≡ meaning element };

    /// Returns the value of an unescaped ASCII character other than U+0000.
    #[inline(always)]
    fn of_ascii(byte: u8) -> Result<Self::Meant, EscapeError>
        requires ascii { is_ascii_value byte ≡ true }
        ensures { result ≡ meaning (Element.Plain byte) }
    {
        // The remainder tells the compiler that the character is ASCII.
        Self::of(Element::Plain((byte % 128) as char))
    }
}

/// The values in strings: characters.
pub(crate) struct AsChar;

impl Meaning for AsChar {
    ghost use Rattle.rustc_literal_escaper.specs.Meaning.{char_of};

    type Meant = char;

    ghost meaning = { char_of };

    #[inline(always)]
    fn of(element: Element) -> Result<char, EscapeError> {
        element.to_char()
    }
}

/// The values in byte strings and raw byte strings: bytes.
pub(crate) struct AsByte;

impl Meaning for AsByte {
    ghost use Rattle.rustc_literal_escaper.specs.Meaning.{byte_of};

    type Meant = u8;

    ghost meaning = { byte_of };

    #[inline(always)]
    fn of(element: Element) -> Result<u8, EscapeError> {
        element.to_byte()
    }

    #[inline(always)]
    fn of_ascii(byte: u8) -> Result<u8, EscapeError> {
        Ok(byte)
    }
}

/// The values in C strings: characters and bytes.
struct AsMixedUnit;

impl Meaning for AsMixedUnit {
    ghost use Rattle.rustc_literal_escaper.specs.Meaning.{unit_of};

    type Meant = MixedUnit;

    ghost meaning = { unit_of };

    #[inline(always)]
    fn of(element: Element) -> Result<MixedUnit, EscapeError> {
        element.to_mixed_unit()
    }
}

/// The values in raw C strings: characters other than U+0000.
struct AsRawUnit;

impl Meaning for AsRawUnit {
    ghost use Rattle.rustc_literal_escaper.specs.Meaning.{raw_unit_of};

    type Meant = NonZeroChar;

    ghost meaning = { raw_unit_of };

    #[inline(always)]
    fn of(element: Element) -> Result<NonZeroChar, EscapeError> {
        element.to_raw_unit()
    }

    #[inline(always)]
    fn of_ascii(byte: u8) -> Result<NonZeroChar, EscapeError> {
        Ok(NonZeroChar::of_nonzero(byte as char))
    }
}

/// Calls `callback` with the byte range and the value of each element of a text.
#[inline(always)]
fn each_unit<M: Meaning, F: FnMut(Range<usize>, Result<M::Meant, EscapeError>)>(
    src: &str,
    raw: bool,
    mut callback: F,
)
    requires callable { F.IsAlwaysCallable callback }
    ensures calls { (last : F) × FoldsTo (λ f item g. F.step f item.0 (M.meaning item.1) tt g)
        callback (items_of raw src.now) last }
{
    if src.is_empty() {
        return;
    }
    let (run, left) = split_simple(src, raw);
    each_ascii::<M, F>(run, &mut callback);
    if left.is_empty() {
        return;
    }
    let mut units = Units::<M, F> {
        callback,
        meaning: PhantomData,
    };
    each(&mut Plain::ending(src.len(), left), raw, None, &mut units);
}

/// Calls `callback` with the byte range and the value of each ASCII character at the start of a text.
#[inline(always)]
fn each_ascii<M: Meaning, F: FnMut(Range<usize>, Result<M::Meant, EscapeError>)>(
    run: &[u8],
    callback: &mut F,
)
    requires callable { F.IsAlwaysCallable callback.old }
    requires values { list_all is_ascii_value run.now ≡ true }
    ensures callable { F.IsAlwaysCallable callback.new }
    ensures calls { FoldsTo (λ f item g. F.step f item.0 (M.meaning item.1) tt g)
        callback.old (plain_items (length run.now) run.now) callback.new }
{
    let mut left = run;
    let mut start = 0;
    'run: while let Some((byte, tail)) = left.split_first() {
        callback(start..start + 1, M::of_ascii(*byte));
        start += 1;
        left = tail;
    }
}

/// A sink that passes the value of each element to a callback.
#[derive(Drop)]
struct Units<M, F> {
    callback: F,
    meaning: PhantomData<M>,
}

impl<M: Meaning, F: FnMut(Range<usize>, Result<M::Meant, EscapeError>)> Sink for Units<M, F> {
    ghost use Rattle.std.specs.Prelude.{◌≡◌, true};

    ghost ready = { λ s. F.IsAlwaysCallable s.callback };

    ghost took = { λ s item more t. (more ≡ true)
        × F.step s.callback item.0 (M.meaning item.1) tt t.callback };

    #[inline(always)]
    fn take(&mut self, range: Range<usize>, element: Element) -> bool {
        (self.callback)(range, M::of(element));
        true
    }
}
