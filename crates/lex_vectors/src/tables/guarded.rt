//! Guarded strings: their prefix as a token.
use crate::tables::kinds::*;
use crate::tables::row::*;
use rustc_lexer::LiteralKind::*;
use rustc_lexer::TokenKind::*;

pub(crate) static ROWS: &[Entry<Ways>] = rows! {
    PLAIN:
    "#\"a\"" => [(GuardedStrPrefix, 2), (UnknownPrefix, 1), literal!(OPEN_STR, 1)],
    "##\"a\"" => [(GuardedStrPrefix, 2), literal!(STR, 3)],
    "#\"" => [(GuardedStrPrefix, 2)],
    "##" => [(GuardedStrPrefix, 2)],
    "###" => [(GuardedStrPrefix, 2), (Pound, 1)],
    "####" => [(GuardedStrPrefix, 2), (GuardedStrPrefix, 2)],
    "###\"a\"###" => [(GuardedStrPrefix, 2), (GuardedStrPrefix, 2), (UnknownPrefix, 1), literal!(OPEN_STR, 4)],
    // A hash that is not a prefix.
    "#" => [(Pound, 1)],
    "#[" => [(Pound, 1), (OpenBracket, 1)],
    "#![" => [(Pound, 1), (Bang, 1), (OpenBracket, 1)],
    "#'a'" => [(Pound, 1), literal!(CHAR, 3)],
    "# \"a\"" => [(Pound, 1), (Whitespace, 1), literal!(STR, 3)],
    "#é" => [(Pound, 1), (Ident, 2)],
    "#😀" => [(Pound, 1), (InvalidIdent, 4)],
    "#\0" => [(Pound, 1), (Unknown, 1)],
    // After other tokens.
    "1##" => [literal!(INT, 1), (GuardedStrPrefix, 2)],
    "k##" => [(UnknownPrefix, 1), (GuardedStrPrefix, 2)],
    "'a##" => [(UnknownPrefixLifetime, 2), (GuardedStrPrefix, 2)],
    "r#\"a\"###" => [literal!(RawStr { n_hashes: Some(1) }, 6), (GuardedStrPrefix, 2)],
    "\"a\"#\"b\"" => [literal!(STR, 3), (GuardedStrPrefix, 2), literal!(ByteStr { terminated: false }, 2)],
    // Many hashes.
    {"##" * 150 => [(GuardedStrPrefix, 2)], "#" => [(Pound, 1)]} => [],
};
