//! Numbers and their suffixes.
use crate::tables::kinds::*;
use crate::tables::row::*;
use rustc_lexer::Base::*;
use rustc_lexer::LiteralKind::*;
use rustc_lexer::TokenKind::*;

/// A number of each form at the end of a text.
pub(crate) static AT_THE_END: &[Entry<Ways>] = rows! {
    PLAIN:
    "0" => [literal!(INT, 1)],
    "7" => [literal!(INT, 1)],
    "00" => [literal!(INT, 2)],
    "0_" => [literal!(INT, 2)],
    "12" => [literal!(INT, 2)],
    "1_" => [literal!(INT, 2)],
    "1__0" => [literal!(INT, 4)],
    "0b" => [literal!(Int { base: Binary, empty_int: true }, 2)],
    "0b_" => [literal!(Int { base: Binary, empty_int: true }, 3)],
    "0b1" => [literal!(Int { base: Binary, empty_int: false }, 3)],
    "0b12" => [literal!(Int { base: Binary, empty_int: false }, 4)],
    "0o" => [literal!(Int { base: Octal, empty_int: true }, 2)],
    "0o7" => [literal!(Int { base: Octal, empty_int: false }, 3)],
    "0o18" => [literal!(Int { base: Octal, empty_int: false }, 4)],
    "0x" => [literal!(Int { base: Hexadecimal, empty_int: true }, 2)],
    "0x_" => [literal!(Int { base: Hexadecimal, empty_int: true }, 3)],
    "0xe" => [literal!(HEXADECIMAL, 3)],
    "0x1_F" => [literal!(HEXADECIMAL, 5)],
    "0." => [literal!(FLOAT, 2)],
    "1." => [literal!(FLOAT, 2)],
    "0.0" => [literal!(FLOAT, 3)],
    "1.5_" => [literal!(FLOAT, 4)],
    "0b1.0" => [literal!(Float { base: Binary, empty_exponent: false }, 5)],
    "0x1." => [literal!(Float { base: Hexadecimal, empty_exponent: false }, 4)],
    "0x1.0" => [literal!(Float { base: Hexadecimal, empty_exponent: false }, 5)],
    "0e" => [literal!(EMPTY_EXPONENT, 2)],
    "1E" => [literal!(EMPTY_EXPONENT, 2)],
    "1e_" => [literal!(EMPTY_EXPONENT, 3)],
    "1e+" => [literal!(EMPTY_EXPONENT, 3)],
    "1.5e" => [literal!(EMPTY_EXPONENT, 4)],
    "0o7e" => [literal!(Float { base: Octal, empty_exponent: true }, 4)],
    "0e0" => [literal!(FLOAT, 3)],
    "1e5" => [literal!(FLOAT, 3)],
    "1e-5" => [literal!(FLOAT, 4)],
    "1e+_5" => [literal!(FLOAT, 5)],
    "1.5e_1" => [literal!(FLOAT, 6)],
    "1.5E-3" => [literal!(FLOAT, 6)],
    "0b1e3" => [literal!(Float { base: Binary, empty_exponent: false }, 5)],
};

pub(crate) static SUFFIXES: &[Entry<Ways>] = rows! {
    PLAIN:
    "0us" => [literal!(INT, 1, 3)],
    "1f32" => [literal!(INT, 1, 4)],
    "1_u8" => [literal!(INT, 2, 4)],
    "1é" => [literal!(INT, 1, 3)],
    "0B1" => [literal!(INT, 1, 3)],
    "0X1" => [literal!(INT, 1, 3)],
    "0b1u8" => [literal!(Int { base: Binary, empty_int: false }, 3, 5)],
    "0be3" => [literal!(Int { base: Binary, empty_int: true }, 2, 4)],
    "0b_u8" => [literal!(Int { base: Binary, empty_int: true }, 3, 5)],
    "0xFu8" => [literal!(HEXADECIMAL, 3, 5)],
    "0x_g" => [literal!(Int { base: Hexadecimal, empty_int: true }, 3, 4)],
    "1.5f32" => [literal!(FLOAT, 3, 6)],
    "0x1.8p" => [literal!(Float { base: Hexadecimal, empty_exponent: false }, 5, 6)],
    "1e5f64" => [literal!(FLOAT, 3, 6)],
    "1e1e1" => [literal!(FLOAT, 3, 5)],
    "1em" => [literal!(EMPTY_EXPONENT, 2, 3)],
    "1e+f" => [literal!(EMPTY_EXPONENT, 3, 4)],
    "1e_f32" => [literal!(EMPTY_EXPONENT, 3, 6)],
    "1_000.0_1E-3f32" => [literal!(FLOAT, 12, 15)],
    "1u8\"a\"" => [literal!(INT, 1, 3), literal!(STR, 3)],
    "1r\"a\"" => [literal!(INT, 1, 2), literal!(STR, 3)],
};

pub(crate) static BEFORE_OTHERS: &[Entry<Ways>] = rows! {
    PLAIN:
    // A dot before a dot or a name is not part of the number.
    "1..2" => [literal!(INT, 1), (Dot, 1), (Dot, 1), literal!(INT, 1)],
    "12.foo()" => [literal!(INT, 2), (Dot, 1), (Ident, 3), (OpenParen, 1), (CloseParen, 1)],
    "1.e5" => [literal!(INT, 1), (Dot, 1), (Ident, 2)],
    "1._5" => [literal!(INT, 1), (Dot, 1), (Ident, 2)],
    "1.é" => [literal!(INT, 1), (Dot, 1), (Ident, 2)],
    "0x1.e" => [literal!(HEXADECIMAL, 3), (Dot, 1), (Ident, 1)],
    "1.\u{200d}" => [literal!(FLOAT, 2), (Unknown, 3)],
    "1.😀" => [literal!(FLOAT, 2), (InvalidIdent, 4)],
    "1. 2" => [literal!(FLOAT, 2), (Whitespace, 1), literal!(INT, 1)],
    // Nor is a dot after a fraction, an exponent or a prefix without digits.
    "1.2.3" => [literal!(FLOAT, 3), (Dot, 1), literal!(INT, 1)],
    "1e1.0" => [literal!(FLOAT, 3), (Dot, 1), literal!(INT, 1)],
    "0b.0" => [literal!(Int { base: Binary, empty_int: true }, 2), (Dot, 1), literal!(INT, 1)],
    "0o_." => [literal!(Int { base: Octal, empty_int: true }, 3), (Dot, 1)],
    // Signs, and characters that start no suffix.
    ".5" => [(Dot, 1), literal!(INT, 1)],
    "-1" => [(Minus, 1), literal!(INT, 1)],
    "0xE+1" => [literal!(HEXADECIMAL, 3), (Plus, 1), literal!(INT, 1)],
    "1e++1" => [literal!(EMPTY_EXPONENT, 3), (Plus, 1), literal!(INT, 1)],
    "1😀" => [literal!(INT, 1), (InvalidIdent, 4)],
    "9\0" => [literal!(INT, 1), (Unknown, 1)],
    "1\u{663}" => [literal!(INT, 1), (Unknown, 2)],
};
