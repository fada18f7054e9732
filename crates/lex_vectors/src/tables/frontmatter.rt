//! Frontmatter.
use crate::tables::kinds::*;
use crate::tables::row::*;
use rustc_lexer::TokenKind;
use rustc_lexer::TokenKind::*;

macro_rules! front {
    ($spaced:literal, $bad_infostring:literal) => {
        Frontmatter {
            has_invalid_preceding_whitespace: $spaced,
            invalid_infostring: $bad_infostring,
        }
    };
}

pub(crate) const FRONT: TokenKind = front!(false, false);

/// A frontmatter with an invalid infostring.
pub(crate) const BAD_INFOSTRING: TokenKind = front!(false, true);

/// A frontmatter with whitespace before its dashes.
const SPACED: TokenKind = front!(true, false);

/// A frontmatter with both errors.
const SPACED_BAD: TokenKind = front!(true, true);

/// A script of the tests of `rustc_lexer`.
const SCRIPT: &str = "\n---cargo\n[dependencies]\nclap = \"4\"\n---\n\nfn main() {}\n";

pub(crate) static NONE_ALLOWED: &[Entry<Ways>] = rows! {
    PLAIN:
    SCRIPT => [
        SPACE, DASH, DASH, DASH, (Ident, 5), SPACE, (OpenBracket, 1), (Ident, 12), (CloseBracket, 1), SPACE, (Ident, 4),
        SPACE, (Eq, 1), SPACE, literal!(STR, 3), SPACE, DASH, DASH, DASH, (Whitespace, 2), (Ident, 2), SPACE,
        (Ident, 4), (OpenParen, 1), (CloseParen, 1), SPACE, (OpenBrace, 1), (CloseBrace, 1), SPACE,
    ],
};

pub(crate) static STARTS: &[Entry<Ways>] = rows! {
    DOCUMENT:
    SCRIPT => [
        SPACE, (FRONT, 38), (Whitespace, 2), (Ident, 2), SPACE, (Ident, 4), (OpenParen, 1), (CloseParen, 1), SPACE,
        (OpenBrace, 1), (CloseBrace, 1), SPACE,
    ],
    // Where a frontmatter starts.
    "" => [],
    "  " => [(Whitespace, 2)],
    "--" => [DASH, DASH],
    " --\n" => [SPACE, DASH, DASH, SPACE],
    " ---\n---\n" => [(SPACED, 8), SPACE],
    "\n---\n---" => [SPACE, (FRONT, 7)],
    " \n---\n---" => [(Whitespace, 2), (FRONT, 7)],
    "\r\n---\n---" => [(Whitespace, 2), (FRONT, 7)],
    "\u{2028}\n---\n---" => [(Whitespace, 4), (FRONT, 7)],
    "\n ---\n---" => [(SPACED, 9)],
    "\n\r---\n---" => [(SPACED, 9)],
    "\u{85}---\n---" => [(SPACED, 9)],
    "\n\u{2028}---\n---" => [(SPACED, 11)],
    "\t---1" => [(SPACED_BAD, 5)],
    "a ---\n---" => [LETTER, SPACE, DASH, DASH, DASH, SPACE, DASH, DASH, DASH],
    "a\n---" => [LETTER, SPACE, DASH, DASH, DASH],
    "//\n---" => [(LINE, 2), SPACE, DASH, DASH, DASH],
    "\0---" => [(Unknown, 1), DASH, DASH, DASH],
    "---\n---\n---\n---" => [(FRONT, 7), SPACE, DASH, DASH, DASH, SPACE, DASH, DASH, DASH],
};

pub(crate) static INFOSTRINGS: &[Entry<Ways>] = rows! {
    DOCUMENT:
    "---cargo\n---\n" => [(FRONT, 12), SPACE],
    "--- cargo\t\n---\n" => [(FRONT, 14), SPACE],
    "---Cargo.toml\n---" => [(FRONT, 17)],
    "---_\n---" => [(FRONT, 8)],
    "---é\n---\n" => [(FRONT, 9), SPACE],
    "---éé.é-1\n---" => [(FRONT, 16)],
    "---" => [(BAD_INFOSTRING, 3)],
    "---a" => [(BAD_INFOSTRING, 4)],
    "---\0" => [(BAD_INFOSTRING, 4)],
    "---1\n---\n" => [(BAD_INFOSTRING, 8), SPACE],
    "---.a\n---\n" => [(BAD_INFOSTRING, 9), SPACE],
    "---a b\n---\n" => [(BAD_INFOSTRING, 10), SPACE],
    "--- -\n---\n" => [(BAD_INFOSTRING, 9), SPACE],
    "---😀\n---" => [(BAD_INFOSTRING, 11)],
    "---a\r\n---\n" => [(BAD_INFOSTRING, 9), SPACE],
    "---\r\nx\r\n---\r\n" => [(BAD_INFOSTRING, 12), SPACE],
    "---\u{b}\n---" => [(BAD_INFOSTRING, 8)],
};

/// Where a frontmatter ends.
pub(crate) static CLOSINGS: &[Entry<Ways>] = rows! {
    DOCUMENT:
    "---\n---" => [(FRONT, 7)],
    "-----\n-----\n" => [(FRONT, 11), SPACE],
    "---\na: b\n---\nfn" => [(FRONT, 12), SPACE, (Ident, 2)],
    "---\n---x y\nfn" => [(FRONT, 10), SPACE, (Ident, 2)],
    "---\na\n----x\nb" => [(FRONT, 11), SPACE, LETTER],
    "---\n\0\n---\n" => [(FRONT, 9), SPACE],
    "---\né\n---é\nz" => [(FRONT, 12), SPACE, LETTER],
    "----\na\n---\nb" => [(FRONT, 10), SPACE, LETTER],
    "---\na\nuse b" => [(FRONT, 5), SPACE, (Ident, 3), SPACE, LETTER],
    "---\nuse\nuser x" => [(FRONT, 14)],
    "---use \n" => [(FRONT, 8)],
    "---\na\n//!b\nc" => [(FRONT, 5), SPACE, (INNER_LINE, 4), SPACE, LETTER],
    "---\n// b\n/// c" => [(FRONT, 14)],
    "---\na\n#![b]\nc" => [
        (FRONT, 5), SPACE, HASH, (Bang, 1), (OpenBracket, 1), LETTER, (CloseBracket, 1), SPACE, LETTER,
    ],
    "---\n#[b]\nc" => [(FRONT, 10)],
    "---x\n  ---y\nz" => [(FRONT, 11), SPACE, LETTER],
    "---\n\t---\nz" => [(FRONT, 8), SPACE, LETTER],
    "--- a ---\nz" => [(BAD_INFOSTRING, 9), SPACE, LETTER],
    "---\na ---\nz" => [(FRONT, 11)],
    "---\n\u{2028}---\nz" => [(FRONT, 12)],
    "---\na--- ---\nz" => [(FRONT, 12), SPACE, LETTER],
    "---\na---b---\nz" => [(FRONT, 14)],
    "---\na-----\nz" => [(FRONT, 12)],
    "---\nq------\nfn x" => [(FRONT, 11), SPACE, (Ident, 2), SPACE, LETTER],
    "---\nabc" => [(FRONT, 7)],
    "---\n" => [(FRONT, 4)],
    "---\n//!d\nuse a" => [(FRONT, 8), SPACE, (Ident, 3), SPACE, LETTER],
    "---\n#![a]\nuse b" => [(FRONT, 9), SPACE, (Ident, 3), SPACE, LETTER],
};

/// Two possible ends, in both orders.
pub(crate) static PAIRS: &[Entry<Ways>] = rows! {
    DOCUMENT:
    "----\n----f\n---s" => [(FRONT, 10), SPACE, DASH, DASH, DASH, LETTER],
    "----\n---s\n----f" => [(FRONT, 15)],
    "----\n----f\nuse u" => [(FRONT, 10), SPACE, (Ident, 3), SPACE, LETTER],
    "----\nuse u\n----f" => [(FRONT, 16)],
    "----\n----f\n//!d" => [(FRONT, 10), SPACE, (INNER_LINE, 4)],
    "----\n//!d\n----f" => [(FRONT, 15)],
    "----\n----f\n#![a]" => [(FRONT, 10), SPACE, HASH, (Bang, 1), (OpenBracket, 1), LETTER, (CloseBracket, 1)],
    "----\n#![a]\n----f" => [(FRONT, 16)],
    "----\n----f\n ---l" => [(FRONT, 10), (Whitespace, 2), DASH, DASH, DASH, LETTER],
    "----\n ---l\n----f" => [(FRONT, 16)],
    "----\n---s\nuse u" => [(FRONT, 9), SPACE, (Ident, 3), SPACE, LETTER],
    "----\nuse u\n---s" => [(FRONT, 15)],
    "----\n---s\n//!d" => [(FRONT, 9), SPACE, (INNER_LINE, 4)],
    "----\n//!d\n---s" => [(FRONT, 14)],
    "----\n---s\n#![a]" => [(FRONT, 9), SPACE, HASH, (Bang, 1), (OpenBracket, 1), LETTER, (CloseBracket, 1)],
    "----\n#![a]\n---s" => [(FRONT, 15)],
    "----\n---s\n ---l" => [(FRONT, 9), (Whitespace, 2), DASH, DASH, DASH, LETTER],
    "----\n ---l\n---s" => [(FRONT, 15)],
    "----\nuse u\n//!d" => [(FRONT, 4), SPACE, (Ident, 3), SPACE, LETTER, SPACE, (INNER_LINE, 4)],
    "----\n//!d\nuse u" => [(FRONT, 9), SPACE, (Ident, 3), SPACE, LETTER],
    "----\nuse u\n#![a]" => [
        (FRONT, 4), SPACE, (Ident, 3), SPACE, LETTER, SPACE, HASH, (Bang, 1), (OpenBracket, 1), LETTER,
        (CloseBracket, 1),
    ],
    "----\n#![a]\nuse u" => [(FRONT, 10), SPACE, (Ident, 3), SPACE, LETTER],
    "----\nuse u\n ---l" => [(FRONT, 4), SPACE, (Ident, 3), SPACE, LETTER, (Whitespace, 2), DASH, DASH, DASH, LETTER],
    "----\n ---l\nuse u" => [(FRONT, 10), SPACE, (Ident, 3), SPACE, LETTER],
    "----\n//!d\n#![a]" => [
        (FRONT, 4), SPACE, (INNER_LINE, 4), SPACE, HASH, (Bang, 1), (OpenBracket, 1), LETTER, (CloseBracket, 1),
    ],
    "----\n#![a]\n//!d" => [(FRONT, 10), SPACE, (INNER_LINE, 4)],
    "----\n//!d\n ---l" => [(FRONT, 4), SPACE, (INNER_LINE, 4), (Whitespace, 2), DASH, DASH, DASH, LETTER],
    "----\n ---l\n//!d" => [(FRONT, 10), SPACE, (INNER_LINE, 4)],
    "----\n#![a]\n ---l" => [
        (FRONT, 4), SPACE, HASH, (Bang, 1), (OpenBracket, 1), LETTER, (CloseBracket, 1), (Whitespace, 2), DASH, DASH,
        DASH, LETTER,
    ],
    "----\n ---l\n#![a]" => [(FRONT, 10), SPACE, HASH, (Bang, 1), (OpenBracket, 1), LETTER, (CloseBracket, 1)],
    // Many dashes before it, and some after it.
    ["-" * 70_000, "\na\n", "-" * 70_000] => [(FRONT, 140_003)],
    ["-" * 70_000, "\na\n", "-" * 69_999] => [(FRONT, 140_002)],
    ["-" * 70_000, "\na\n", "-" * 3] => [(FRONT, 70_006)],
    ["-" * 70_000, "\na\n"] => [(FRONT, 70_003)],
};

/// Test cases: a line with each number of letters, and then a closing fence. If the search misses the fence, the token
/// differs.
macro_rules! closed_behind {
    ($($letters:literal)*) => {
        rows! {
            DOCUMENT:
            $(
                ["---\n", "a" * $letters, "\n---", "\n" * 40, "use b"] => [
                    (FRONT, 8 + $letters), (Whitespace, 40), (Ident, 3), SPACE, LETTER,
                ],
                ["---\n-", "a" * $letters, "\n---", "\n" * 40, "use b"] => [
                    (FRONT, 9 + $letters), (Whitespace, 40), (Ident, 3), SPACE, LETTER,
                ],
                ["----\n---", "a" * $letters, "\n----", "\n" * 40] => [(FRONT, 13 + $letters), (Whitespace, 40)],
            )*
        }
    };
}

/// The end at each of the offsets that are searched together.
pub(crate) static PLACES: &[Entry<Ways>] =
    closed_behind!(0 1 2 3 4 5 6 7 8 9 10 11 12 13 14 15 16 17 31 32 33 100);

/// Many lines.
pub(crate) static LINES: &[Entry<Ways>] = rows! {
    DOCUMENT:
    ["---\n", "-a\n" * 40, "--bc\n" * 40, "\n" * 40, "d- e-\n" * 40, "---\n"] => [(FRONT, 607), SPACE],
    ["----\n", "---a\n" * 40, "\n---\n" * 40, "-bcdef\n" * 40, "----"] => [(FRONT, 689)],
    ["----\n", "-a\n" * 40, "--\n" * 40, "---", "\n" * 40] => [(FRONT, 248), (Whitespace, 40)],
    ["---\n", "- a\n" * 40, "user\n" * 40, "use b"] => [(FRONT, 363), SPACE, (Ident, 3), SPACE, LETTER],
};
