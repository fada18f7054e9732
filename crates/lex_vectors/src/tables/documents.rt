//! Edits of a lexed document in an edition. The tokens start after the shebang line.
use crate::tables::edits::{Role, edits};
use crate::tables::frontmatter::{BAD_INFOSTRING, FRONT};
use crate::tables::kinds::*;
use crate::tables::row::Entry;
use rustc_lexer::TokenKind::*;

/// Edits that lex no head, because it is kept or removed.
pub static KEPT: &[Entry<Role>] = edits! {
    // A letter after a shebang line and a frontmatter, after a frontmatter in older editions, and after a
    // shebang line.
    E2024 "#!a\n---\nb\n---\nfn" (16..16 "x": [3, 1, 0]) => "#!a\n---\nb\n---\nfnx" [SPACE, (FRONT, 9), SPACE, (Ident, 3)],
    E2024 "---\n---\n'r#foo" (14..14 "x": [2, 1, 0]) => "---\n---\n'r#foox" [(FRONT, 7), SPACE, (RawLifetime, 7)],
    E2018 "---\n---\n'r#foo" (14..14 "x": [4, 1, 0]) => "---\n---\n'r#foox" [
        (FRONT, 7), SPACE, (LIFETIME, 2), HASH, (Ident, 4),
    ],
    E2024 "#!a\nb c" (5..5 "d": [0, 2, 2]) => "#!a\nbd c" [SPACE, WORD, SPACE, LETTER],
    // Typing `#!` creates a shebang line and deleting it removes the line; deleting its newline adds the next line to
    // it; a bracket turns it into an attribute.
    E2024 "#a\nb" (1..1 "!": [0, 0, 2]) => "#!a\nb" [SPACE, LETTER],
    E2024 "#!a\nb" (0..1 "": [0, 2, 2]) => "!a\nb" [(Bang, 1), LETTER, SPACE, LETTER],
    E2024 "#!a\nb" (3..4 "": [0, 0, 0]) (2..2 "\n": [0, 2, 0]) => "#!\nab" [SPACE, WORD],
    E2024 "#!\nb" (3..3 "[": [0, 4, 1]) => "#!\n[b" [HASH, (Bang, 1), SPACE, (OpenBracket, 1), LETTER],
    E2024 "#!\n[b" (3..4 "": [0, 1, 1]) => "#!\nb" [SPACE, LETTER],
    // Text before a frontmatter turns it into code.
    E2024 "\n---\n---\nb" (0..0 "a": [0, 9, 2]) => "a\n---\n---\nb" [
        LETTER, SPACE, DASH, DASH, DASH, SPACE, DASH, DASH, DASH, SPACE, LETTER,
    ],
    // A range that is out of bounds or splits a character is rejected.
    E2024 "---\n---\né" (0..11 "") => "---\n---\né" [(FRONT, 7), SPACE, WORD],
    E2024 "---\n---\né" (8..10 "b": [1, 2, 0]) (8..9 "é": [1, 2, 0]) (9..10 "") => "---\n---\né" [(FRONT, 7), SPACE, WORD],
};

/// Edits that lex a frontmatter with nothing before it.
pub static FRONTS: &[Entry<Role>] = edits! {
    // A letter is inserted in it, or replaced, which changes no length.
    E2024 "---\nb\n---\nfn" (5..5 "c": [0, 1, 2]) => "---\nbc\n---\nfn" [(FRONT, 10), SPACE, WORD],
    E2024 "---\nb\n---\nc" (4..5 "d": [0, 1, 2]) => "---\nd\n---\nc" [(FRONT, 9), SPACE, LETTER],
    // Its opening fence is completed, and then its closing fence.
    E2024 "--\nb\n---\nc" (2..2 "-": [0, 1, 2]) => "---\nb\n---\nc" [(FRONT, 9), SPACE, LETTER],
    E2024 "---\na\n--\nb" (8..8 "-": [0, 3, 0]) => "---\na\n---\nb" [(FRONT, 9), SPACE, LETTER],
    // A fence, or a line that ends a frontmatter, is typed after it. It ends at the same offset, changed or unchanged.
    E2024 "---" (3..3 "\nuse b": [0, 5, 0]) => "---\nuse b" [(FRONT, 3), SPACE, (Ident, 3), SPACE, LETTER],
    E2024 "---\nuse b" (3..9 "": [0, 1, 0]) => "---" [(BAD_INFOSTRING, 3)],
    E2024 "---\na\nuse b" (6..6 "---\n": [0, 2, 3]) => "---\na\n---\nuse b" [
        (FRONT, 9), SPACE, (Ident, 3), SPACE, LETTER,
    ],
    // A shebang line before it is removed.
    E2024 "#!a\nb" (3..5 "---\n": [0, 1, 0]) (0..3 "": [0, 1, 0]) => "---\n" [(FRONT, 4)],
};

/// Edits that lex whitespace and a frontmatter.
pub static SPACED: &[Entry<Role>] = edits! {
    E2024 "---\n---\nb" (0..0 "\n": [0, 2, 2]) => "\n---\n---\nb" [SPACE, (FRONT, 7), SPACE, LETTER],
    E2024 "#!a\n---\n---\nb" (1..3 "!": [0, 2, 2]) => "#!\n---\n---\nb" [SPACE, (FRONT, 7), SPACE, LETTER],
};

/// A text, the length of its shebang line, and the start of its body: the index of its first token, and its offset.
pub static HEADS: &[(&str, usize, usize, usize)] = &[
    ("", 0, 0, 0),
    ("#!a\nb", 3, 0, 3),
    ("#![a]", 0, 0, 0),
    ("---\n---", 0, 1, 7),
    (" ---\n---\nb", 0, 1, 8),
    ("\n---\n---", 0, 2, 8),
    ("#!a\n---\nb\n---\nfn", 3, 2, 13),
    ("b\n---\n---", 0, 0, 0),
];
