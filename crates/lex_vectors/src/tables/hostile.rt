//! Long texts that make a careless lexer slow or overflow its stack.
use crate::tables::kinds::*;
use crate::tables::row::*;
use rustc_lexer::TokenKind::*;

pub(crate) static ROWS: &[Entry<Ways>] = rows! {
    PLAIN:
    // Comments and whitespace.
    ["/*" * 100_000] => [(OPEN_BLOCK, 200_000)],
    ["/*" * 100_000, "*/" * 100_000] => [(BLOCK, 400_000)],
    ["/*" * 100_000, "*/" * 100_001] => [(BLOCK, 400_000), (Star, 1), (Slash, 1)],
    ["/" * 100_000] => [(LINE, 100_000)],
    ["// ", "é" * 50_000, "\n"] => [(LINE, 100_003), SPACE],
    ["\u{2028}\n" * 25_000] => [(Whitespace, 100_000)],
    // Words and numbers.
    ["a" * 100_000, " "] => [(Ident, 100_000), SPACE],
    ["r#", "é" * 50_000] => [(RawIdent, 100_002)],
    ["a" * 100_000, "😀", "#"] => [(InvalidIdent, 100_004), HASH],
    ["😀" * 1_000] => [(InvalidIdent, 4_000)],
    ["1" * 100_000] => [literal!(INT, 100_000)],
    ["0x", "f" * 100_000] => [literal!(HEXADECIMAL, 100_002)],
    ["1" * 50_000, ".", "1" * 50_000, "e", "_" * 100_000] => [literal!(EMPTY_EXPONENT, 200_002)],
    ["1", "u" * 100_000] => [literal!(INT, 1, 100_001)],
};

pub(crate) static QUOTES: &[Entry<Ways>] = rows! {
    PLAIN:
    ["\"", "a" * 1_000_000] => [literal!(OPEN_STR, 1_000_001)],
    ["\"", "\\" * 100_000, "\""] => [literal!(STR, 100_002)],
    ["\"", "\\" * 100_001, "\""] => [literal!(OPEN_STR, 100_003)],
    ["'", "\\" * 100_000, "'"] => [literal!(CHAR, 100_002)],
    ["'", "\\" * 100_001, "'"] => [literal!(OPEN_CHAR, 100_003)],
    ["'(", "é" * 50_000] => [literal!(OPEN_CHAR, 100_002)],
    ["'", "a" * 100_000] => [(LIFETIME, 100_001)],
    ["'", "a" * 100_000, "😀#"] => [(UnknownPrefixLifetime, 100_005), HASH],
    ["'", "a" * 100_000, "'b"] => [literal!(CHAR, 100_002), LETTER],
    // Raw strings.
    ["r", "#" * 200, "\"", "a" * 1_000_000] => [literal!(BAD_RAW_STR, 1_000_202)],
    ["r", "#" * 20, "\"", "\"###################" * 5_000] => [literal!(BAD_RAW_STR, 100_022)],
    ["r#", "\"" * 100_000] => [literal!(BAD_RAW_STR, 100_002)],
    ["r", "#" * 100_000] => [literal!(BAD_RAW_STR, 100_001)],
    ["r", "#" * 300, "\"a\"", "#" * 300, "x"] => [literal!(BAD_RAW_STR, 604), LETTER],
};

pub(crate) static MANY_TOKENS: &[Entry<Ways>] = rows! {
    PLAIN:
    {"x " * 10_000 => [LETTER, SPACE]} => [],
    {"k# " * 10_000 => [(UnknownPrefix, 1), HASH, SPACE]} => [],
    {"r#~" * 10_000 => [literal!(BAD_RAW_STR, 3)]} => [],
    {"'''" * 10_000 => [literal!(CHAR, 3)]} => [],
    {"'(/" * 10_000 => [literal!(OPEN_CHAR, 2), (Slash, 1)]} => [],
    {"\"\"" * 10_000 => [literal!(STR, 2)]} => [],
    {"/**/" * 10_000 => [(BLOCK, 4)]} => [],
    {"{(" * 10_000 => [(OpenBrace, 1), (OpenParen, 1)]} => [],
    {"\0" * 10_000 => [(Unknown, 1)]} => [],
};
