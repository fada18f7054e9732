//! Raw strings and their validation.
use crate::tables::kinds::*;
use crate::tables::row::*;
use RawStrError::*;
use rustc_lexer::LiteralKind::*;
use rustc_lexer::RawStrError;
use rustc_lexer::TokenKind::*;

pub(crate) static ROWS: &[Entry<Ways>] = rows! {
    PLAIN:
    r#"r"""# => [literal!(RAW_STR, 3)],
    r#"r"\""# => [literal!(RAW_STR, 4)],
    r#"r"é""# => [literal!(RAW_STR, 5)],
    r#"r"a"b"# => [literal!(RAW_STR, 4, 5)],
    "r\"abc\"" => [literal!(RAW_STR, 6)],
    "r\"abc\"#" => [literal!(RAW_STR, 6), HASH],
    "r#\"abc\"##" => [literal!(RawStr { n_hashes: Some(1) }, 8), HASH],
    "r#\"\n\"#" => [literal!(RawStr { n_hashes: Some(1) }, 6)],
    "r#\"a\"b\"#" => [literal!(RawStr { n_hashes: Some(1) }, 8)],
    "r#\"a\"\"#" => [literal!(RawStr { n_hashes: Some(1) }, 7)],
    "r##\"a\"#b\"##c" => [literal!(RawStr { n_hashes: Some(2) }, 11, 12)],
    r#"br"a""# => [literal!(RawByteStr { n_hashes: Some(0) }, 5)],
    "br#\"a\"#x" => [literal!(RawByteStr { n_hashes: Some(1) }, 7, 8)],
    "br##\"a\"##" => [literal!(RawByteStr { n_hashes: Some(2) }, 9)],
    r#"cr"a""# => [literal!(RawCStr { n_hashes: Some(0) }, 5)],
    "cr#\"a\"#b" => [literal!(RawCStr { n_hashes: Some(1) }, 7, 8)],
    // Characters that start no suffix.
    "r##\"a\"###" => [literal!(RawStr { n_hashes: Some(2) }, 8), (Pound, 1)],
    "r\"a\"\"#" => [literal!(RAW_STR, 4), literal!(OPEN_STR, 2)],
    "r#\"a\"#\"b\"" => [literal!(RawStr { n_hashes: Some(1) }, 6), literal!(STR, 3)],
    "r\"a\"😀" => [literal!(RAW_STR, 4), (InvalidIdent, 4)],
    "r\"a\"\n" => [literal!(RAW_STR, 4), (Whitespace, 1)],
};

/// Unterminated raw strings.
pub(crate) static UNCLOSED: &[Entry<Ways>] = rows! {
    PLAIN:
    r#"r""# => [literal!(BAD_RAW_STR, 2)],
    r##"r#""## => [literal!(BAD_RAW_STR, 3)],
    r#"br""# => [literal!(RawByteStr { n_hashes: None }, 3)],
    r#"cr""# => [literal!(RawCStr { n_hashes: None }, 3)],
    "r##\"a\"#" => [literal!(BAD_RAW_STR, 7)],
    "r##\"a\"#b\"#" => [literal!(BAD_RAW_STR, 10)],
    // Another character instead of the quote.
    "r#" => [literal!(BAD_RAW_STR, 2)],
    "r##" => [literal!(BAD_RAW_STR, 3)],
    "r#~" => [literal!(BAD_RAW_STR, 3)],
    "r#\0" => [literal!(BAD_RAW_STR, 3)],
    "r#1" => [literal!(BAD_RAW_STR, 3)],
    "r##x" => [literal!(BAD_RAW_STR, 4)],
    "r#😀" => [literal!(BAD_RAW_STR, 6)],
    "r# a" => [literal!(BAD_RAW_STR, 3), (Ident, 1)],
    "br#x" => [literal!(RawByteStr { n_hashes: None }, 4)],
    "cr#a" => [literal!(RawCStr { n_hashes: None }, 4)],
    // Many hashes.
    ["r", "#" * 255, "\"abc\"", "#" * 255, "x"] => [literal!(RawStr { n_hashes: Some(255) }, 516, 517)],
    ["r", "#" * 255, "\"abc\"", "#" * 256, "x"] => [literal!(RawStr { n_hashes: Some(255) }, 516), HASH, LETTER],
    ["r", "#" * 256, "\"abc\"", "#" * 256, "x"] => [literal!(BAD_RAW_STR, 518), (Ident, 1)],
    ["r", "#" * 300, "\"abc\"", "#" * 300, "x"] => [literal!(BAD_RAW_STR, 606), (Ident, 1)],
    ["r", "#" * 255, "\"abc\"", "x"] => [literal!(BAD_RAW_STR, 262)],
    ["r", "#" * 256, "\"abc\"", "x"] => [literal!(BAD_RAW_STR, 263)],
    ["r", "#" * 255, "\"abc\"", "#" * 254, "x"] => [literal!(BAD_RAW_STR, 516)],
    ["r", "#" * 256, "\"abc\"", "#" * 255, "x"] => [literal!(BAD_RAW_STR, 518)],
};

/// The error for an unterminated raw string.
macro_rules! open {
    ($expected:expr, $found:expr, $offset:expr) => {
        Err(NoTerminator {
            expected: $expected,
            found: $found,
            possible_terminator_offset: $offset,
        })
    };
}

/// The length of the prefix of a text, and the result of the validation.
pub(crate) type Check = (u32, Result<(), RawStrError>);

macro_rules! checks {
    ($($([$($part:literal $(* $times:literal)?),+])? $($text:literal)?, $prefix_len:literal => $answer:expr),* $(,)?) => {
        &[$(
            $($(Entry::Fragment($part, 1 $(* $times)?),)+)?
            $(Entry::Fragment($text, 1),)?
            Entry::End(($prefix_len, $answer)),
        )*]
    };
}

pub(crate) static CHECKS: &[Entry<Check>] = checks! {
    "r\"abc\"", 1 => Ok(()),
    "r\"abc\"#", 1 => Ok(()),
    "r#\"abc\"##", 1 => Ok(()),
    "br#\"a\"#", 2 => Ok(()),
    "cr\"a\"", 2 => Ok(()),
    "rr\"a\"", 2 => Ok(()),
    "éér\"a\"", 3 => Ok(()),
    "r", 1 => Err(InvalidStarter { bad_char: '\0' }),
    "r#", 1 => Err(InvalidStarter { bad_char: '\0' }),
    "éér", 3 => Err(InvalidStarter { bad_char: '\0' }),
    "r#\0", 1 => Err(InvalidStarter { bad_char: '\0' }),
    "r#~\"abc\"#", 1 => Err(InvalidStarter { bad_char: '~' }),
    "rr\"a\"", 1 => Err(InvalidStarter { bad_char: 'r' }),
    "éérü", 3 => Err(InvalidStarter { bad_char: 'ü' }),
    "r\"", 1 => open!(0, 0, None),
    "r#\"abc", 1 => open!(1, 0, None),
    "r##\"abc#", 1 => open!(2, 0, None),
    "r##\"abc\"#", 1 => open!(2, 1, Some(8)),
    "r##\"é\"#", 1 => open!(2, 1, Some(7)),
    // The first of the quotes with the largest number of hashes.
    "r##\"a\"#b\"#", 1 => open!(2, 1, Some(6)),
    "r###\"a\"#b\"##c\"#", 1 => open!(3, 2, Some(10)),
    // A prefix with a character of more than one byte.
    "ér##\"a\"#", 2 => open!(2, 1, Some(7)),
    "ééér##\"a\"#\"", 4 => open!(2, 1, Some(9)),
    "éér#\"a", 3 => open!(1, 0, None),
    // Many hashes, and text after the string.
    ["r", "#" * 255, "\"abc\"", "#" * 255], 1 => Ok(()),
    ["r", "#" * 255, "\"abc\"", "#" * 255, "x"], 1 => Ok(()),
    ["r", "#" * 255, "\"abc\"", "#" * 256], 1 => Ok(()),
    ["r", "#" * 255, "\"abc\"", "#" * 256, "x"], 1 => Ok(()),
    ["r", "#" * 256, "\"abc\"", "#" * 256], 1 => Err(TooManyDelimiters { found: 256 }),
    ["r", "#" * 256, "\"abc\"", "#" * 256, "x"], 1 => Err(TooManyDelimiters { found: 256 }),
    ["r", "#" * 300, "\"a\"", "#" * 300, "x"], 1 => Err(TooManyDelimiters { found: 300 }),
    ["r", "#" * 255, "\"abc\""], 1 => open!(255, 0, None),
    ["r", "#" * 255, "\"abc\"", "x"], 1 => open!(255, 0, None),
    ["r", "#" * 256, "\"abc\""], 1 => open!(256, 0, None),
    ["r", "#" * 256, "\"abc\"", "x"], 1 => open!(256, 0, None),
    ["r", "#" * 255, "\"abc\"", "#" * 254], 1 => open!(255, 254, Some(261)),
    ["r", "#" * 255, "\"abc\"", "#" * 254, "x"], 1 => open!(255, 254, Some(261)),
    ["r", "#" * 256, "\"abc\"", "#" * 255], 1 => open!(256, 255, Some(262)),
    ["r", "#" * 256, "\"abc\"", "#" * 255, "x"], 1 => open!(256, 255, Some(262)),
};
