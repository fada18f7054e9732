//! The tables of texts with their tokens.
use crate::tables::row::{Entry, Ways};
use crate::tables::{
    comments, editions, first_path, frontmatter, guarded, hostile, idents, numbers, original,
    quotes, raw_strings,
};

/// Each table, with its name.
pub(crate) fn all() -> [(&'static str, &'static [Entry<Ways>]); 28] {
    [
        ("comments", comments::ROWS),
        ("editions", editions::ROWS),
        ("editions of scripts", editions::SCRIPTS),
        ("first path", first_path::ROWS),
        ("starts of frontmatter", frontmatter::STARTS),
        ("infostrings", frontmatter::INFOSTRINGS),
        ("closings of frontmatter", frontmatter::CLOSINGS),
        ("two closings of frontmatter", frontmatter::PAIRS),
        ("places of closings", frontmatter::PLACES),
        ("lines of frontmatter", frontmatter::LINES),
        ("no frontmatter", frontmatter::NONE_ALLOWED),
        ("guarded strings", guarded::ROWS),
        ("long words and comments", hostile::ROWS),
        ("long quotes", hostile::QUOTES),
        ("many tokens", hostile::MANY_TOKENS),
        ("identifiers", idents::ROWS),
        ("prefixes", idents::PREFIXES),
        ("emoji", idents::EMOJI),
        ("numbers", numbers::AT_THE_END),
        ("suffixes", numbers::SUFFIXES),
        ("numbers before others", numbers::BEFORE_OTHERS),
        ("the original's tests", original::ROWS),
        ("strings", quotes::STRINGS),
        ("characters", quotes::CHARACTERS),
        ("bytes", quotes::BYTES),
        ("lifetimes", quotes::LIFETIMES),
        ("raw strings", raw_strings::ROWS),
        ("unclosed raw strings", raw_strings::UNCLOSED),
    ]
}
