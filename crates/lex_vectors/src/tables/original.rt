//! The texts of the tests of `rustc_lexer`.
use crate::tables::kinds::*;
use crate::tables::row::*;
use rustc_lexer::Base::*;
use rustc_lexer::DocStyle::*;
use rustc_lexer::LiteralKind::*;
use rustc_lexer::TokenKind::*;

pub(crate) static ROWS: &[Entry<Ways>] = rows! {
    PLAIN:
    "/* my source file */ fn main() { println!(\"zebra\"); }\n" => [
        (BLOCK, 20), SPACE, WORD, SPACE, (Ident, 4), (OpenParen, 1), (CloseParen, 1), SPACE, (OpenBrace, 1), SPACE,
        (Ident, 7), (Bang, 1), (OpenParen, 1), literal!(STR, 7), (CloseParen, 1), (Semi, 1), SPACE, (CloseBrace, 1), SPACE,
    ],
    "\n// line\n//// line as well\n/// outer doc line\n//! inner doc line\n/* block */\n/**/\n/*** also block */\n/** outer doc block */\n/*! inner doc block */\n" => [
        SPACE, (LINE, 7), SPACE, (LINE, 17), SPACE, (LineComment { doc_style: Some(Outer) }, 18), SPACE, (INNER_LINE, 18),
        SPACE, (BLOCK, 11), SPACE, (BLOCK, 4), SPACE, (BLOCK, 18), SPACE,
        (BlockComment { doc_style: Some(Outer), terminated: true }, 22), SPACE,
        (BlockComment { doc_style: Some(Inner), terminated: true }, 22), SPACE,
    ],
    "\n'a'\nb'a'\n\"a\"\nb\"a\"\n1234\n0b101\n0xABC\n1.0\n1.0e10\n2us\nr###\"raw\"###suffix\nbr###\"raw\"###suffix\n" => [
        SPACE, literal!(CHAR, 3), SPACE, literal!(Byte { terminated: true }, 4), SPACE, literal!(STR, 3), SPACE,
        literal!(ByteStr { terminated: true }, 4), SPACE, literal!(INT, 4), SPACE,
        literal!(Int { base: Binary, empty_int: false }, 5), SPACE, literal!(HEXADECIMAL, 5), SPACE, literal!(FLOAT, 3),
        SPACE, literal!(FLOAT, 6), SPACE, literal!(INT, 1, 3), SPACE, literal!(RawStr { n_hashes: Some(3) }, 12, 18), SPACE,
        literal!(RawByteStr { n_hashes: Some(3) }, 13, 19), SPACE,
    ],
    "/* /* */ */'a'" => [(BLOCK, 11), literal!(CHAR, 3)],
    r"'a' ' ' '\n'" => [literal!(CHAR, 3), SPACE, literal!(CHAR, 3), SPACE, literal!(CHAR, 4)],
    "'abc" => [(LIFETIME, 4)],
    "r###\"\"#a\\b\0c\"\"###" => [literal!(RawStr { n_hashes: Some(3) }, 17)],
};
