//! Numbers.
#![tactic(auto, using(crate::proofs::lemmas::tokens::Numbers::number_lemmas, std::proofs::lemmas::Grind::common_steps))]

ghost use Rattle.std.specs.Prelude.{◌≡◌, ◌+◌, ◌<◌, ◌^◌, false, length, slice_index};
ghost use Rattle.std.specs.Char.{is_ascii_digit, is_ascii_hexdigit};
ghost use Rattle.std.specs.Str.{chars};
ghost use Rattle.rustc_lexer.specs.{Float};
ghost use Rattle.rustc_lexer.specs.model.Number as spec;
ghost use Rattle.rustc_lexer.specs.model.Scan.{scanned};

use crate::classes::is_id_start;
use crate::lexemes::literal::{eat_literal_suffix, literal};
use crate::scan::{eat_decimal, eat_hexadecimal, eat_while, first, strip, strip_either};
use crate::token::{Base, LiteralKind, TokenKind};

/// Lexes a number with its suffix. Returns its kind, and the text after it. `first_digit` is its first character, and
/// `tail` is the text after that.
///
/// Without the suffix, it is the longest number at the start of the text that the grammar of numbers allows. There, a
/// dot without a digit after it is part of a number only if neither a dot nor a name follows.
///
/// Rust Reference: [number literals](https://doc.rust-lang.org/reference/tokens.html#number-literals).
#[inline(always)]
#[tactic(auto, using(crate::specs::laws::Scan::scan_lemmas, std::proofs::lemmas::Grind::common_steps))]
pub(crate) fn number(first_digit: char, tail: &str) -> (TokenKind, &str)
    requires fits { length tail.now + 1 < 2 ^ 32 }
    ensures { (result.0, result.1.now) ≡ scanned (spec.number first_digit) tail.now }
{
    let (kind, rest) = number_kind(first_digit, tail);
    (literal(kind, tail, rest), eat_literal_suffix(rest))
}

/// Returns the kind of the number, and the text from its suffix on.
#[inline(always)]
#[tactic(auto, using(crate::proofs::lemmas::tokens::Numbers::number_lemmas, std::proofs::lemmas::Grind::common_steps), unfolding(crate::specs::model::Number::number_kind))]
fn number_kind(first_digit: char, tail: &str) -> (LiteralKind, &str)
    ensures { (result.0, result.1.now) ≡ scanned (spec.number_kind first_digit) tail.now }
{
    let (part, rest) = integer_part(first_digit, tail);
    let IntegerPart { base, empty_int } = part;
    if empty_int {
        return (LiteralKind::Int { base, empty_int }, rest);
    }
    past_digits(base, rest)
}

/// The digits of a number up to a point or an exponent, with the prefix before them.
#[derive(Clone, Copy)]
pub(crate) struct IntegerPart {
    base: Base,
    /// Whether no digit follows the prefix.
    empty_int: bool,
}

/// Returns the integer part of a number, and the text after it.
#[inline(always)]
fn integer_part(first_digit: char, tail: &str) -> (IntegerPart, &str)
    ensures { (result.0, result.1.now) ≡ scanned (spec.integer_part first_digit) tail.now }
{
    if first_digit == '0' {
        part_past_zero(tail)
    } else {
        decimal(tail)
    }
}

/// Returns the integer part of a number whose first digit is 0, and the text after it.
#[inline(always)]
fn part_past_zero(tail: &str) -> (IntegerPart, &str)
    ensures { (result.0, result.1.now) ≡ scanned spec.part_past_zero tail.now }
{
    if let Some(digits) = strip(tail, b'b') {
        let DigitRun { has_digit, rest } = eat_decimal_digits(digits);
        (prefixed(Base::Binary, has_digit), rest)
    } else if let Some(digits) = strip(tail, b'o') {
        let DigitRun { has_digit, rest } = eat_decimal_digits(digits);
        (prefixed(Base::Octal, has_digit), rest)
    } else if let Some(digits) = strip(tail, b'x') {
        let DigitRun { has_digit, rest } = eat_hexadecimal_digits(digits);
        (prefixed(Base::Hexadecimal, has_digit), rest)
    } else {
        decimal(tail)
    }
}

/// Returns the integer part of a number with the prefix of this base.
#[inline(always)]
fn prefixed(base: Base, has_digit: bool) -> IntegerPart
    ensures { result ≡ spec.prefixed base has_digit }
{
    IntegerPart {
        base,
        empty_int: !has_digit,
    }
}

/// Returns the integer part without a prefix, and the text after it.
#[inline(always)]
fn decimal(tail: &str) -> (IntegerPart, &str)
    ensures { (result.0, result.1.now) ≡ scanned spec.decimal tail.now }
{
    let part = IntegerPart {
        base: Base::Decimal,
        empty_int: false,
    };
    (part, eat_decimal(tail))
}

/// Returns the kind of a number of this base, and the text after it. `rest` is the text after its integer part, which
/// starts with a fraction, with an exponent or with neither.
#[inline(always)]
fn past_digits(base: Base, rest: &str) -> (LiteralKind, &str)
    ensures { (result.0, result.1.now) ≡ scanned (spec.past_digits base) rest.now }
{
    let int = LiteralKind::Int {
        base,
        empty_int: false,
    };
    if let Some(tail) = strip(rest, b'.') {
        if is_no_fraction(first(tail)) {
            (int, rest)
        } else {
            fraction(base, tail)
        }
    } else if let Some(tail) = strip_either(rest, b'e', b'E') {
        eat_float_exponent(base, tail)
    } else {
        (int, rest)
    }
}

/// Returns whether a dot before this character is not part of a number, as in `1..2` and `1.max(2)`.
fn is_no_fraction(c: char) -> bool
    ensures { result ≡ spec.is_no_fraction c }
{
    c == '.' || is_id_start(c)
}

/// Lexes the fraction of a float. Returns the kind of the float, and the text after it. `rest` is the text after
/// its dot.
#[inline(always)]
#[tactic(auto, using(crate::proofs::lemmas::tokens::Numbers::number_lemmas, std::proofs::lemmas::Grind::common_steps), unfolding(crate::specs::model::Number::fraction))]
fn fraction(base: Base, rest: &str) -> (LiteralKind, &str)
    ensures { (result.0, result.1.now) ≡ scanned (spec.fraction base) rest.now }
{
    if begins_digit(rest) {
        optional_exponent(base, eat_decimal(rest))
    } else {
        (full_float(base), rest)
    }
}

/// Lexes the exponent of a float, if there is one. Returns the kind of the float, and the text after it.
#[inline(always)]
fn optional_exponent(base: Base, rest: &str) -> (LiteralKind, &str)
    ensures { (result.0, result.1.now) ≡ scanned (spec.optional_exponent base) rest.now }
{
    match strip_either(rest, b'e', b'E') {
        Some(tail) => eat_float_exponent(base, tail),
        None => (full_float(base), rest),
    }
}

/// Returns the kind of a float that has no exponent, or whose exponent has digits.
#[inline(always)]
fn full_float(base: Base) -> LiteralKind
    ensures { result ≡ Float base false }
{
    LiteralKind::Float {
        base,
        empty_exponent: false,
    }
}

/// Lexes the exponent of a float. Returns the kind of the float, and the text after it. `rest` is the text after
/// the exponent's letter.
#[inline(always)]
fn eat_float_exponent(base: Base, rest: &str) -> (LiteralKind, &str)
    ensures { (result.0, result.1.now) ≡ scanned (spec.float_exponent base) rest.now }
{
    match strip_either(rest, b'+', b'-') {
        Some(tail) => past_sign(base, tail),
        None => past_sign(base, rest),
    }
}

/// Lexes the digits of an exponent. Returns the kind of the float, and the text after it.
#[inline(always)]
fn past_sign(base: Base, rest: &str) -> (LiteralKind, &str)
    ensures { (result.0, result.1.now) ≡ scanned (spec.past_sign base) rest.now }
{
    let DigitRun { has_digit, rest } = eat_decimal_digits(rest);
    let empty_exponent = !has_digit;
    let float = LiteralKind::Float {
        base,
        empty_exponent,
    };
    (float, rest)
}

/// The leading digits and underscores of a text.
#[derive(Clone, Copy)]
struct DigitRun<'a> {
    /// Whether the run contains a digit.
    has_digit: bool,
    /// The text after the run.
    rest: &'a str,
}

/// Returns the leading decimal digits and underscores of a text.
fn eat_decimal_digits(rest: &str) -> DigitRun<'_>
    ensures { (result.has_digit, result.rest.now)
        ≡ scanned (spec.digits is_ascii_digit) rest.now }
{
    let digits = eat_while(rest, is_underscore);
    let has_digit = begins_digit(digits);
    DigitRun {
        has_digit,
        rest: eat_decimal(digits),
    }
}

/// Returns the leading hexadecimal digits and underscores of a text.
fn eat_hexadecimal_digits(rest: &str) -> DigitRun<'_>
    ensures { (result.has_digit, result.rest.now)
        ≡ scanned (spec.digits is_ascii_hexdigit) rest.now }
{
    let digits = eat_while(rest, is_underscore);
    let has_digit = first(digits).is_ascii_hexdigit();
    DigitRun {
        has_digit,
        rest: eat_hexadecimal(digits),
    }
}

/// Returns whether the next character is a digit.
#[inline(always)]
#[tactic(auto, using(crate::proofs::lemmas::tokens::Numbers::digit_first, std::proofs::lemmas::Grind::common_steps))]
fn begins_digit(rest: &str) -> bool
    ensures { result ≡ is_ascii_digit (slice_index (chars rest.now) 0) }
{
    match rest.as_bytes().first() {
        Some(byte) => byte.is_ascii_digit(),
        None => false,
    }
}

fn is_underscore(c: char) -> bool
    ensures { result ≡ spec.is_underscore c }
{
    c == '_'
}
