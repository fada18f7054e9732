//! The units of a literal, and its errors and warnings.
ghost use Rattle.std.specs.Prelude.{◌≡◌, false, List, [], ◌∷◌, None, map};
ghost use Rattle.std.specs.Result.{result_err};
ghost use Rattle.std.specs.Str.{IsUtf8};
ghost use Rattle.rustc_literal_escaper.specs.Answers.{items_of};
ghost use Rattle.rustc_literal_escaper.specs.Items.{TakesFirst};
ghost use Rattle.rustc_literal_escaper.specs.Meaning.{is_raw, is_single, unit_of};
ghost use Rattle.rustc_lexer_c.specs.Escapes as spec;

use crate::status::{Refusal, done, refuse, text_of, utf8_text_of, validate};
use rustc_lexer_errors::EscapeErrorsInFile;
use rustc_literal_escaper::{Element, Elements, EscapeError, Mode, unescape_byte, unescape_char};
use std::ops::Range;

/// The kinds of units.
const UNIT_CHAR: u32 = 1;

const UNIT_BYTE: u32 = 2;

const UNIT_ERROR: u32 = 3;

const UNIT_WARNING: u32 = 4;

/// A unit of a literal's value, or an error or warning, with its range in bytes.
#[repr(C)]
#[derive(Clone, Copy, Debug, PartialEq, Eq)]
pub struct CUnit {
    pub start: usize,
    pub end: usize,
    /// 1 for a character, 2 for a byte, 3 for an error, 4 for a warning.
    pub kind: u32,
    /// The character, the byte, or the number of the error or warning.
    pub value: u32,
}

/// Writes the units of the text between the quotes of a literal into the buffer, as many as there is room for, and
/// their number into `count`. Skips the first `passed` units.
///
/// `mode` is the number of the literal's kind, 3 to 10. Between single quotes there is one unit, whose range is the
/// whole text. Each call checks the whole text and reads it from its start.
#[unsafe(no_mangle)]
pub extern "C" fn rustc_lexer_unescape(
    text: &[u8],
    mode: u32,
    passed: usize,
    buffer: &mut [CUnit],
    count: &mut usize,
) -> u32
    ensures { spec.Lists spec.units_of (spec.mode_of mode) text.now passed buffer.old buffer.new
        count.new result }
{
    validate!(text_of(text), 0, count);
    rustc_lexer_unescape_unchecked(text, mode, passed, buffer, count)
}

/// Like `rustc_lexer_unescape`, but does not check that the text is UTF-8. `rustc_lexer_check` must have accepted it.
#[tactic(auto, using(crate::proofs::EscapeLemmas::units_few))]
#[unsafe(no_mangle)]
pub extern "C" fn rustc_lexer_unescape_unchecked(
    text: &[u8],
    mode: u32,
    passed: usize,
    buffer: &mut [CUnit],
    count: &mut usize,
) -> u32
    requires utf8 { IsUtf8 text.now }
    ensures { spec.Lists spec.units_of (spec.mode_of mode) text.now passed buffer.old buffer.new
        count.new result }
{
    let text = validate!(utf8_text_of(text), 0, count);
    match mode_of(mode) {
        Some(mode) => done(fill_units(text, mode, passed, buffer), count),
        None => refuse(Refusal::InvalidMode, 0, count),
    }
}

/// Writes the errors and warnings of a literal, in the same way as `rustc_lexer_unescape` writes its units. `text` is
/// the text between the quotes. CRLF is one newline.
///
/// Between single quotes there is at most one error. Its range starts at 0 and ends after the character that causes it.
#[unsafe(no_mangle)]
pub extern "C" fn rustc_lexer_literal_errors(
    text: &[u8],
    mode: u32,
    passed: usize,
    buffer: &mut [CUnit],
    count: &mut usize,
) -> u32
    ensures { spec.Lists spec.wrong_units_of (spec.mode_of mode) text.now passed buffer.old
        buffer.new count.new result }
{
    validate!(text_of(text), 0, count);
    rustc_lexer_literal_errors_unchecked(text, mode, passed, buffer, count)
}

/// Like `rustc_lexer_literal_errors`, but does not check that the text is UTF-8. `rustc_lexer_check` must have accepted
/// it.
#[tactic(auto, using(crate::proofs::EscapeLemmas::errors_few))]
#[unsafe(no_mangle)]
pub extern "C" fn rustc_lexer_literal_errors_unchecked(
    text: &[u8],
    mode: u32,
    passed: usize,
    buffer: &mut [CUnit],
    count: &mut usize,
) -> u32
    requires utf8 { IsUtf8 text.now }
    ensures { spec.Lists spec.wrong_units_of (spec.mode_of mode) text.now passed buffer.old
        buffer.new count.new result }
{
    let text = validate!(utf8_text_of(text), 0, count);
    match mode_of(mode) {
        Some(mode) => done(
            fill_all(EscapeErrorsInFile::new(text, mode), passed, buffer),
            count,
        ),
        None => refuse(Refusal::InvalidMode, 0, count),
    }
}

/// Returns the mode with this number, or `None` if there is none.
fn mode_of(number: u32) -> Option<Mode>
    ensures { result ≡ spec.mode_of number }
{
    match number {
        3 => Some(Mode::Char),
        4 => Some(Mode::Byte),
        5 => Some(Mode::Str),
        6 => Some(Mode::ByteStr),
        7 => Some(Mode::CStr),
        8 => Some(Mode::RawStr),
        9 => Some(Mode::RawByteStr),
        10 => Some(Mode::RawCStr),
        _ => None,
    }
}

/// Writes the units of a text in a mode. Returns the number of units written.
fn fill_units(text: &str, mode: Mode, passed: usize, buffer: &mut [CUnit]) -> usize
    ensures { spec.IsUnits (spec.units_of mode text.now) passed buffer.old buffer.new result }
{
    match mode {
        Mode::Char | Mode::Byte => fill_one(single_unit(text, mode), passed, buffer),
        Mode::Str => fill_string(text, Mode::Str, passed, buffer),
        Mode::ByteStr => fill_string(text, Mode::ByteStr, passed, buffer),
        Mode::CStr => fill_string(text, Mode::CStr, passed, buffer),
        Mode::RawStr => fill_string(text, Mode::RawStr, passed, buffer),
        Mode::RawByteStr => fill_string(text, Mode::RawByteStr, passed, buffer),
        Mode::RawCStr => fill_string(text, Mode::RawCStr, passed, buffer),
    }
}

/// Writes the units of the text between double quotes. Returns the number of units written.
///
/// Inlined into each arm of its caller, which passes the mode as a constant.
#[inline(always)]
fn fill_string(text: &str, mode: Mode, passed: usize, buffer: &mut [CUnit]) -> usize
    requires double { false ≡ is_single mode }
    ensures { spec.IsUnits (spec.units_of mode text.now) passed buffer.old buffer.new result }
{
    let elements = elements_of(text, mode);
    fill_all(Meanings { elements, mode }, passed, buffer)
}

/// Writes the only unit, if it is not skipped and there is room. Returns the number of units written.
fn fill_one(unit: CUnit, passed: usize, buffer: &mut [CUnit]) -> usize
    ensures { spec.IsUnits (unit ∷ []) passed buffer.old buffer.new result }
{
    if passed > 0 || buffer.is_empty() {
        return 0;
    }
    buffer[0] = unit;
    1
}

/// Returns the unit between single quotes.
fn single_unit(text: &str, mode: Mode) -> CUnit
    ensures { result ≡ spec.single_unit mode text.now }
{
    match mode {
        Mode::Byte => coded_unit(0..text.len(), UNIT_BYTE, unescape_byte(text).map(u32::from)),
        _ => coded_unit(0..text.len(), UNIT_CHAR, unescape_char(text).map(u32::from)),
    }
}

/// Returns the elements between double quotes.
#[inline(always)]
fn elements_of(text: &str, mode: Mode) -> Elements<'_>
    ensures { result ≡ items_of (is_raw mode) text.now }
{
    match mode {
        Mode::RawStr | Mode::RawByteStr | Mode::RawCStr => Elements::new_raw(text),
        _ => Elements::new(text),
    }
}

/// An iterator over units.
trait Units: Drop {
    ghost use Rattle.rustc_lexer_c.specs.declared.escapes.CUnit.{CUnit};

    /// The units that are left.
    ghost units: { Self → List CUnit };

    /// Returns the next unit, or `None` after the last one.
    fn next_unit(&mut self) -> Option<CUnit>
        ensures { TakesFirst (units self.old) result (units self.new) };
}

/// Iterates over the units of the elements in a mode.
#[derive(Drop)]
struct Meanings<'a> {
    elements: Elements<'a>,
    mode: Mode,
}

impl<'a> Units for Meanings<'a> {
    ghost units = { λ meanings. map (spec.item_unit meanings.mode) meanings.elements };

    #[inline(always)]
    fn next_unit(&mut self) -> Option<CUnit> {
        let (place, element) = self.elements.next()?;
        Some(item_unit(self.mode, place, element))
    }
}

/// Iterates over the errors and warnings only.
impl<'a> Units for EscapeErrorsInFile<'a> {
    ghost units = { λ errors. spec.wrong_units errors };

    #[inline(always)]
    fn next_unit(&mut self) -> Option<CUnit> {
        let (place, error) = self.next()?;
        Some(wrong_unit(place, error))
    }
}

/// Skips the first `passed` units and writes the units after them. Returns the number of units written.
#[inline(always)]
#[tactic(auto, using(crate::proofs::EscapeLemmas::fill_lemmas))]
fn fill_all<U: Units>(mut units: U, passed: usize, buffer: &mut [CUnit]) -> usize
    ensures { spec.IsUnits (U.units units) passed buffer.old buffer.new result }
{
    let mut over = 0;
    'passed: while over < passed {
        if units.next_unit().is_none() {
            return 0;
        }
        over += 1;
    }
    let mut count = 0;
    'buffer: while count < buffer.len() {
        let Some(unit) = units.next_unit() else {
            break;
        };
        buffer[count] = unit;
        count += 1;
    }
    count
}

/// Returns the unit of an element between double quotes.
#[inline(always)]
fn item_unit(mode: Mode, place: Range<usize>, element: Element) -> CUnit
    ensures { result ≡ spec.item_unit mode (place, element) }
{
    match mode {
        Mode::Char | Mode::Str | Mode::RawStr => {
            coded_unit(place, UNIT_CHAR, element.to_char().map(u32::from))
        }
        Mode::Byte | Mode::ByteStr | Mode::RawByteStr => {
            coded_unit(place, UNIT_BYTE, element.to_byte().map(u32::from))
        }
        Mode::CStr => mixed_unit(place, element),
        Mode::RawCStr => coded_unit(
            place,
            UNIT_CHAR,
            element.to_raw_unit().map(|c| c.get() as u32),
        ),
    }
}

/// Returns a unit of this kind, or the error as a unit.
fn coded_unit(place: Range<usize>, kind: u32, meaning: Result<u32, EscapeError>) -> CUnit
    ensures { result ≡ spec.coded_unit kind place meaning }
{
    match meaning {
        Ok(code) => unit_at(place, kind, code),
        Err(error) => wrong_unit(place, error),
    }
}

/// Returns the unit of an element of a C string, or the error as a unit.
fn mixed_unit(place: Range<usize>, element: Element) -> CUnit
    ensures { result ≡ spec.mixed_unit place (unit_of element) }
{
    match element.to_mixed_unit().err() {
        Some(error) => wrong_unit(place, error),
        None => sound_unit(place, element),
    }
}

/// Returns the unit of an element of a C string that has no error.
fn sound_unit(place: Range<usize>, element: Element) -> CUnit
    requires sound { None ≡ result_err (unit_of element) }
    ensures { result ≡ spec.mixed_unit place (unit_of element) }
{
    match element {
        Element::Plain(c) => unit_at(place, UNIT_CHAR, c as u32),
        Element::Byte(byte) if byte < 128 => unit_at(place, UNIT_CHAR, u32::from(byte)),
        Element::Byte(byte) => unit_at(place, UNIT_BYTE, u32::from(byte)),
        Element::Unicode(_) => coded_unit(place, UNIT_CHAR, element.to_char().map(u32::from)),
        Element::Diagnostic(error) => wrong_unit(place, error),
    }
}

/// Returns an error or warning as a unit.
fn wrong_unit(place: Range<usize>, error: EscapeError) -> CUnit
    ensures { result ≡ spec.wrong_unit place error }
{
    unit_at(place, wrong_kind(error), error_number(error))
}

/// Returns a unit of a kind.
fn unit_at(place: Range<usize>, kind: u32, value: u32) -> CUnit
    ensures { result ≡ spec.unit_at place kind value }
{
    CUnit {
        start: place.start,
        end: place.end,
        kind,
        value,
    }
}

/// Returns the kind of unit for an error or a warning.
fn wrong_kind(error: EscapeError) -> u32
    ensures { result ≡ spec.wrong_kind error }
{
    if error.is_fatal() {
        UNIT_ERROR
    } else {
        UNIT_WARNING
    }
}

/// Returns the number of an error or warning.
fn error_number(error: EscapeError) -> u32
    ensures { result ≡ spec.error_number error }
{
    error as u32 + 1
}
