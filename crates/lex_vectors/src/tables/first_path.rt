//! Line comments, whitespace, identifiers and symbols.
use crate::tables::kinds::*;
use crate::tables::row::*;
use rustc_lexer::DocStyle::*;
use rustc_lexer::TokenKind::*;

pub(crate) static ROWS: &[Entry<Ways>] = rows! {
    PLAIN:
    "fn main() {}\n" => [
        WORD, SPACE, (Ident, 4), (OpenParen, 1), (CloseParen, 1), SPACE, (OpenBrace, 1), (CloseBrace, 1), SPACE,
    ],
    "" => [],
    "a//b\n/ c" => [LETTER, (LINE, 3), SPACE, (Slash, 1), SPACE, LETTER],
    "///" => [(LineComment { doc_style: Some(Outer) }, 3)],
    "////" => [(LINE, 4)],
    "//!x" => [(INNER_LINE, 4)],
    ";,.(){}[]@#~?:$=!<>-&|+*/^%" => [
        (Semi, 1), (Comma, 1), (Dot, 1), (OpenParen, 1), (CloseParen, 1), (OpenBrace, 1), (CloseBrace, 1),
        (OpenBracket, 1), (CloseBracket, 1), (At, 1), (Pound, 1), (Tilde, 1), (Question, 1), (Colon, 1), (Dollar, 1),
        (Eq, 1), (Bang, 1), (Lt, 1), (Gt, 1), (Minus, 1), (And, 1), (Or, 1), (Plus, 1), (Star, 1), (Slash, 1),
        (Caret, 1), (Percent, 1),
    ],
};
