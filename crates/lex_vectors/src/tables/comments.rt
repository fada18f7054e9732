//! Block comments, and the rest of line comments.
use crate::tables::kinds::*;
use crate::tables::row::*;
use rustc_lexer::DocStyle::*;
use rustc_lexer::TokenKind::*;

pub(crate) static ROWS: &[Entry<Ways>] = rows! {
    PLAIN:
    // Comments nest.
    "/* /* */ */x" => [(BLOCK, 11), (Ident, 1)],
    "/* /* */" => [(OPEN_BLOCK, 8)],
    "/*/**/*/" => [(BLOCK, 8)],
    "/* *//* */" => [(BLOCK, 5), (BLOCK, 5)],
    "/** /*! */ */" => [(BlockComment { doc_style: Some(Outer), terminated: true }, 13)],
    // A star is part of one opening or closing only.
    "/*" => [(OPEN_BLOCK, 2)],
    "/*/" => [(OPEN_BLOCK, 3)],
    "/*/*/" => [(OPEN_BLOCK, 5)],
    "/* a *" => [(OPEN_BLOCK, 6)],
    "/* **/" => [(BLOCK, 6)],
    "*/" => [(Star, 1), (Slash, 1)],
    // Doc styles.
    "/**/" => [(BLOCK, 4)],
    "/***/" => [(BLOCK, 5)],
    "/*** a */" => [(BLOCK, 9)],
    "/**" => [(BlockComment { doc_style: Some(Outer), terminated: false }, 3)],
    "/** a */" => [(BlockComment { doc_style: Some(Outer), terminated: true }, 8)],
    "/*!" => [(BlockComment { doc_style: Some(Inner), terminated: false }, 3)],
    "/*!*/" => [(BlockComment { doc_style: Some(Inner), terminated: true }, 5)],
    "//" => [(LINE, 2)],
    "//\n//" => [(LINE, 2), (Whitespace, 1), (LINE, 2)],
    "///\n" => [(LineComment { doc_style: Some(Outer) }, 3), (Whitespace, 1)],
    "/// a\r\n" => [(LineComment { doc_style: Some(Outer) }, 6), (Whitespace, 1)],
    "//!" => [(INNER_LINE, 3)],
    // Nothing else counts inside a comment.
    "/* // */ x" => [(BLOCK, 8), (Whitespace, 1), (Ident, 1)],
    "// /* \n */" => [(LINE, 6), (Whitespace, 2), (Star, 1), (Slash, 1)],
    r#"/* "*/""# => [(BLOCK, 6), literal!(OPEN_STR, 1)],
    "/* é */" => [(BLOCK, 8)],
    "/* \0 */" => [(BLOCK, 7)],
};
