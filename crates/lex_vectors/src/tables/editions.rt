//! The tokens of a text in each edition, also with a frontmatter.
use crate::tables::frontmatter::FRONT;
use crate::tables::kinds::*;
use crate::tables::row::*;
use rustc_lexer::Edition::*;
use rustc_lexer::TokenKind::*;

const IN_2024: Ways = Ways::Editions(E2024, E2024);

const SINCE_2021: Ways = Ways::Editions(E2021, E2024);

const UNTIL_2021: Ways = Ways::Editions(E2015, E2021);

const UNTIL_2018: Ways = Ways::Editions(E2015, E2018);

pub(crate) static ROWS: &[Entry<Ways>] = rows! {
    IN_2024: "#\"a\"" => [(GuardedStrPrefix, 2), (UnknownPrefix, 1), literal!(OPEN_STR, 1)],
    UNTIL_2021: "#\"a\"" => [HASH, literal!(STR, 3)],
    IN_2024: "##\"a\"" => [(GuardedStrPrefix, 2), literal!(STR, 3)],
    UNTIL_2021: "##\"a\"" => [HASH, HASH, literal!(STR, 3)],
    SINCE_2021: "'r#r\"x\"" => [(RawLifetime, 4), literal!(STR, 3)],
    UNTIL_2018: "'r#r\"x\"" => [(LIFETIME, 2), HASH, literal!(RAW_STR, 4)],
    SINCE_2021: "'r#foo" => [(RawLifetime, 6)],
    UNTIL_2018: "'r#foo" => [(LIFETIME, 2), HASH, (Ident, 3)],
    SINCE_2021: "foo\"x\"" => [(UnknownPrefix, 3), literal!(STR, 3)],
    UNTIL_2018: "foo\"x\"" => [(Ident, 3), literal!(STR, 3)],
    SINCE_2021: "k# x" => [(UnknownPrefix, 1), HASH, SPACE, LETTER],
    UNTIL_2018: "k# x" => [LETTER, HASH, SPACE, LETTER],
    SINCE_2021: "'a#" => [(UnknownPrefixLifetime, 2), HASH],
    UNTIL_2018: "'a#" => [(LIFETIME, 2), HASH],
    SINCE_2021: "'😀#" => [(UnknownPrefixLifetime, 5), HASH],
    UNTIL_2018: "'😀#" => [(BAD_LIFETIME, 5), HASH],
    SINCE_2021: "" => [],
    UNTIL_2018: "" => [],
};

const SCRIPT_IN_2024: Ways = Ways::Documents(E2024, E2024);

const SCRIPT_IN_2021: Ways = Ways::Documents(E2021, E2021);

const SCRIPT_UNTIL_2018: Ways = Ways::Documents(E2015, E2018);

/// Texts that start with a frontmatter.
pub(crate) static SCRIPTS: &[Entry<Ways>] = rows! {
    SCRIPT_IN_2024: "---\n---\n'r#a #\"x\"" => [
        (FRONT, 7), SPACE, (RawLifetime, 4), SPACE, (GuardedStrPrefix, 2), (UnknownPrefix, 1), literal!(OPEN_STR, 1),
    ],
    SCRIPT_IN_2021: "---\n---\n'r#a #\"x\"" => [(FRONT, 7), SPACE, (RawLifetime, 4), SPACE, HASH, literal!(STR, 3)],
    SCRIPT_UNTIL_2018: "---\n---\n'r#a #\"x\"" => [
        (FRONT, 7), SPACE, (LIFETIME, 2), HASH, LETTER, SPACE, HASH, literal!(STR, 3),
    ],
    SCRIPT_IN_2024: "\n---\n---\nk#" => [SPACE, (FRONT, 7), SPACE, (UnknownPrefix, 1), HASH],
    SCRIPT_IN_2021: "\n---\n---\nk#" => [SPACE, (FRONT, 7), SPACE, (UnknownPrefix, 1), HASH],
    SCRIPT_UNTIL_2018: "\n---\n---\nk#" => [SPACE, (FRONT, 7), SPACE, LETTER, HASH],
};
