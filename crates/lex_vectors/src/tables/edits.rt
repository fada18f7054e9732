//! Edits of a lexed fragment in an edition.
use crate::tables::kinds::*;
use crate::tables::row::*;
use rustc_lexer::TokenKind::*;
use rustc_lexer::{Edition, Relexed, TokenKind};

/// The role of a text in a test case of edits.
#[derive(Clone, Copy)]
pub enum Role {
    /// The edited text, in an edition. A test case starts with it.
    Before(Edition),
    /// The text that is inserted between two offsets, with the counts of the edit, or `None` if it is rejected.
    Edit(usize, usize, Option<Relexed>),
    /// The text after the edits, with its tokens. A test case ends with it.
    After,
}

/// Test cases: `edition text (start..stop insert: kept_front, lexed, kept_back).. => text tokens`. An edit without
/// counts is rejected. Texts are written as for `rows`, except that the last one has no brackets.
macro_rules! edits {
    ($($edition:ident $([$($part:literal $(* $times:literal)?),+])? $($text:literal)?
        $(($start:literal..$stop:literal $([$($new_part:literal $(* $new_times:literal)?),+])? $($new:literal)?
            $(: [$kept_front:literal, $lexed:literal, $kept_back:literal])?))*
        => $({$($each:literal $(* $each_times:literal)? => [$($of_each:expr),*]),+})?
        $($made:literal)?
        [$($token:expr),* $(,)?]),* $(,)?) => {
        &[$(
            $($(Entry::Fragment($part, 1 $(* $times)?),)+)?
            $(Entry::Fragment($text, 1),)?
            Entry::End(Role::Before(rustc_lexer::Edition::$edition)),
            $(
                $($(Entry::Fragment($new_part, 1 $(* $new_times)?),)+)?
                $(Entry::Fragment($new, 1),)?
                Entry::End(Role::Edit(
                    $start,
                    $stop,
                    $crate::tables::edits::counts!($($kept_front, $lexed, $kept_back)?),
                )),
            )*
            $($($(Entry::Token($of_each),)* Entry::Fragment($each, 1 $(* $each_times)?),)+)?
            $(Entry::Fragment($made, 1),)?
            $(Entry::Token($token),)*
            Entry::End(Role::After),
        )*]
    };
}

macro_rules! counts {
    () => {
        None
    };
    ($kept_front:literal, $lexed:literal, $kept_back:literal) => {
        Some(rustc_lexer::Relexed {
            kept_front: $kept_front,
            lexed: $lexed,
            kept_back: $kept_back,
        })
    };
}

pub(crate) use counts;
pub(crate) use edits;

pub static SHORT: &[Entry<Role>] = edits! {
    E2024 "" (0..0 "": [0, 0, 0]) => "" [],
    E2024 "ab cd ef" (8..8 "z": [4, 1, 0]) => "ab cd efz" [WORD, SPACE, WORD, SPACE, (Ident, 3)],
    E2024 "ab cd ef" (3..5 "x y": [0, 5, 2]) => "ab x y ef" [WORD, SPACE, LETTER, SPACE, LETTER, SPACE, WORD],
    E2024 "k# x" (2..2 "f": [0, 1, 2]) => "k#f x" [(ForcedKeywordIdent, 3), SPACE, LETTER],
    E2024 "1.x" (2..3 "5": [0, 1, 0]) => "1.5" [literal!(FLOAT, 3)],
    E2024 "a b c */ d" (2..2 "/*": [0, 3, 2]) => "a /*b c */ d" [LETTER, SPACE, (BLOCK, 8), SPACE, LETTER],
    E2024 "x \"a\" y" (0..0 "\"": [0, 2, 0]) => "\"x \"a\" y" [literal!(STR, 4, 5), literal!(OPEN_STR, 3)],
    E2024 "a 😀 é" (9..9 "z": [3, 2, 0]) => "a 😀 éz" [LETTER, SPACE, (InvalidIdent, 4), SPACE, (Ident, 3)],
    E2024 "ab cd" (0..3 "": [0, 0, 1]) => "cd" [WORD],
    E2024 "/* a" (4..4 " */": [0, 1, 0]) => "/* a */" [(BLOCK, 7)],
    E2024 "a 😀 é" (2..6 "zz 1.": [0, 5, 2]) => "a zz 1. é" [
        LETTER, SPACE, WORD, SPACE, literal!(FLOAT, 2), SPACE, WORD,
    ],
    E2024 "ab cd" (0..0 "": [0, 0, 3]) => "ab cd" [WORD, SPACE, WORD],
    E2024 "# a" (1..1 "\"": [0, 1, 2]) => "#\" a" [(GuardedStrPrefix, 2), SPACE, LETTER],
    E2024 "'r#foo" (6..6 "x": [0, 1, 0]) => "'r#foox" [(RawLifetime, 7)],
    E2018 "'r#foo" (6..6 "x": [2, 1, 0]) => "'r#foox" [(LIFETIME, 2), HASH, (Ident, 4)],
    E2015 "'r#foo" (6..6 "x": [2, 1, 0]) => "'r#foox" [(LIFETIME, 2), HASH, (Ident, 4)],
    E2024 "#\"a\"" (0..0 "#": [0, 2, 0]) => "##\"a\"" [(GuardedStrPrefix, 2), literal!(STR, 3)],
    E2021 "#\"a\"" (0..0 "#": [0, 1, 2]) => "##\"a\"" [HASH, HASH, literal!(STR, 3)],
    // A later edit applies to the text after the earlier ones.
    E2024 "cd efz" => "cd efz" [WORD, SPACE, (Ident, 3)],
    E2024 "ab cd ef" (8..8 "z": [4, 1, 0]) (0..3 "": [0, 0, 3]) => "cd efz" [WORD, SPACE, (Ident, 3)],
    E2024 "ab" (2..2 "c": [0, 1, 0]) (3..3 " d": [0, 3, 0]) => "abc d" [(Ident, 3), SPACE, LETTER],
    // A range that is out of bounds or splits a character is rejected.
    E2024 "ab cd" (0..3 "": [0, 0, 1]) (1..9 "") => "cd" [WORD],
    E2024 "é" (1..2 "") => "é" [WORD],
};

/// Long texts.
pub static LONG: &[Entry<Role>] = edits! {
    // A long insertion: 602 tokens, then the old ones. Then an unterminated comment, which keeps none of them.
    E2024 "ab cd ef" (3..3 ["x " * 300]: [0, 602, 3]) => {
        "ab " => [WORD, SPACE], "x " * 300 => [LETTER, SPACE], "cd ef" => [WORD, SPACE, WORD]
    } [],
    E2024 "ab cd ef" (3..3 ["/*a " * 300]: [0, 3, 0]) => {"ab " => [], "/*a " * 300 => [], "cd ef" => []} [
        WORD, SPACE, (OPEN_BLOCK, 1205),
    ],
    // `/*` is inserted before many tokens, and removed again; `*/` or `/*` is inserted after many tokens; an emoji is
    // removed.
    E2024 ["x " * 50_000] (0..0 "/*": [0, 1, 0]) => {"/*" => [], "x " * 50_000 => []} [(OPEN_BLOCK, 100_002)],
    E2024 ["x " * 50_000] (0..0 "/*": [0, 1, 0]) (0..2 "": [0, 100_000, 0]) => {"x " * 50_000 => [LETTER, SPACE]} [],
    E2024 ["x " * 50_000] (100_000..100_000 "*/": [99_998, 4, 0]) => {
        "x " * 50_000 => [LETTER, SPACE], "*/" => [(Star, 1), (Slash, 1)]
    } [],
    E2024 ["x " * 50_000] (100_000..100_000 "/*": [99_998, 3, 0]) => {
        "x " * 50_000 => [LETTER, SPACE], "/*" => [(OPEN_BLOCK, 2)]
    } [],
    E2024 ["😀" * 1_000] (0..4 "": [0, 1, 0]) => {"😀" * 999 => []} [(InvalidIdent, 3_996)],
};

const ONE: (TokenKind, u32) = (Unknown, 1);

/// Test cases for a grammar whose tokens are single characters.
pub static CHARACTERS: &[Entry<Role>] = edits! {
    E2024 "ab cd" (3..3 "é": [1, 3, 2]) => "ab écd" [ONE, ONE, ONE, (Unknown, 2), ONE, ONE],
};
