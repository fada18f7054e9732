//! Identifiers, their prefixes, and emoji.
use crate::tables::kinds::*;
use crate::tables::row::*;
use rustc_lexer::TokenKind::*;

pub(crate) static ROWS: &[Entry<Ways>] = rows! {
    PLAIN:
    "_" => [(Ident, 1)],
    "__a1" => [(Ident, 4)],
    "é1" => [(Ident, 3)],
    "r" => [(Ident, 1)],
    "k" => [(Ident, 1)],
    "b" => [(Ident, 1)],
    "c" => [(Ident, 1)],
    "r1" => [(Ident, 2)],
    "br" => [(Ident, 2)],
    "cr" => [(Ident, 2)],
    "\0" => [(Unknown, 1)],
    "a\0b" => [(Ident, 1), (Unknown, 1), (Ident, 1)],
    // Joiners and middle dots continue an identifier but cannot start one.
    "a\u{200d}b" => [(Ident, 5)],
    "a\u{200c}b" => [(Ident, 5)],
    "a\u{30fb}" => [(Ident, 4)],
    "a\u{ff65}" => [(Ident, 4)],
    "\u{200d}a" => [(Unknown, 3), (Ident, 1)],
    "\u{feff}a" => [(Unknown, 3), (Ident, 1)],
    // Raw identifiers and forced keywords.
    "r#fn" => [(RawIdent, 4)],
    "r#_#" => [(RawIdent, 3), (Pound, 1)],
    "r#while\"a\"" => [(RawIdent, 7), literal!(STR, 3)],
    "r#a😀" => [(RawIdent, 3), (InvalidIdent, 4)],
    "k#fn" => [(ForcedKeywordIdent, 4)],
    "k#a#b" => [(ForcedKeywordIdent, 3), (Pound, 1), (Ident, 1)],
    "k#a😀" => [(ForcedKeywordIdent, 3), (InvalidIdent, 4)],
};

/// Prefixes that Rust does not have.
pub(crate) static PREFIXES: &[Entry<Ways>] = rows! {
    PLAIN:
    "k# x" => [(UnknownPrefix, 1), (Pound, 1), (Whitespace, 1), (Ident, 1)],
    "k#" => [(UnknownPrefix, 1), (Pound, 1)],
    "k#1" => [(UnknownPrefix, 1), (Pound, 1), literal!(INT, 1)],
    "k\"a\"" => [(UnknownPrefix, 1), literal!(STR, 3)],
    "k'a'" => [(UnknownPrefix, 1), literal!(CHAR, 3)],
    "kr#a" => [(UnknownPrefix, 2), (Pound, 1), (Ident, 1)],
    "b#" => [(UnknownPrefix, 1), (Pound, 1)],
    "c#a" => [(UnknownPrefix, 1), (Pound, 1), (Ident, 1)],
    "r'a'" => [(UnknownPrefix, 1), literal!(CHAR, 3)],
    "br'a'" => [(UnknownPrefix, 2), literal!(CHAR, 3)],
    "cr'a'" => [(UnknownPrefix, 2), literal!(CHAR, 3)],
    "Br\"a\"" => [(UnknownPrefix, 2), literal!(STR, 3)],
    "brx\"a\"" => [(UnknownPrefix, 3), literal!(STR, 3)],
    "rb\"a\"" => [(UnknownPrefix, 2), literal!(STR, 3)],
    "foo\"x\"" => [(UnknownPrefix, 3), literal!(STR, 3)],
    "foo #" => [(Ident, 3), (Whitespace, 1), (Pound, 1)],
};

pub(crate) static EMOJI: &[Entry<Ways>] = rows! {
    PLAIN:
    "😀" => [(InvalidIdent, 4)],
    "©" => [(InvalidIdent, 2)],
    "a©" => [(InvalidIdent, 3)],
    "a😀b#" => [(InvalidIdent, 6), (Pound, 1)],
    "😀a#" => [(InvalidIdent, 5), (Pound, 1)],
    "a😀\"" => [(InvalidIdent, 5), literal!(OPEN_STR, 1)],
    "👨\u{200d}👩" => [(InvalidIdent, 11)],
    // An emoji that can start an identifier starts one.
    "\u{2139}" => [(Ident, 3)],
    "a\u{2139}" => [(Ident, 4)],
    "\u{2139}😀" => [(InvalidIdent, 7)],
    "😀\u{2139}" => [(InvalidIdent, 7)],
};
