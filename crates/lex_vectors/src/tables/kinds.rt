//! Short names for kinds and tokens in the tables.
use rustc_lexer::Base::*;
use rustc_lexer::DocStyle::*;
use rustc_lexer::LiteralKind::*;
use rustc_lexer::TokenKind::*;
use rustc_lexer::{LiteralKind, TokenKind};

pub const SPACE: (TokenKind, u32) = (Whitespace, 1);

pub const LETTER: (TokenKind, u32) = (Ident, 1);

pub const WORD: (TokenKind, u32) = (Ident, 2);

pub const HASH: (TokenKind, u32) = (Pound, 1);

pub const DASH: (TokenKind, u32) = (Minus, 1);

pub const LINE: TokenKind = LineComment { doc_style: None };

pub const INNER_LINE: TokenKind = LineComment {
    doc_style: Some(Inner),
};

pub const BLOCK: TokenKind = BlockComment {
    doc_style: None,
    terminated: true,
};

pub const OPEN_BLOCK: TokenKind = BlockComment {
    doc_style: None,
    terminated: false,
};

/// A valid lifetime.
pub const LIFETIME: TokenKind = Lifetime {
    starts_with_number: false,
};

/// A lifetime that starts with a digit or contains an emoji.
pub const BAD_LIFETIME: TokenKind = Lifetime {
    starts_with_number: true,
};

pub const INT: LiteralKind = Int {
    base: Decimal,
    empty_int: false,
};

pub const HEXADECIMAL: LiteralKind = Int {
    base: Hexadecimal,
    empty_int: false,
};

pub const FLOAT: LiteralKind = Float {
    base: Decimal,
    empty_exponent: false,
};

pub const EMPTY_EXPONENT: LiteralKind = Float {
    base: Decimal,
    empty_exponent: true,
};

pub const CHAR: LiteralKind = Char { terminated: true };

pub const OPEN_CHAR: LiteralKind = Char { terminated: false };

pub const STR: LiteralKind = Str { terminated: true };

pub const OPEN_STR: LiteralKind = Str { terminated: false };

pub const RAW_STR: LiteralKind = RawStr { n_hashes: Some(0) };

/// An invalid raw string.
pub const BAD_RAW_STR: LiteralKind = RawStr { n_hashes: None };
