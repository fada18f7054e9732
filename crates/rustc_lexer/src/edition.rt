//! The editions of Rust, and the first token of a text in an edition.
ghost use Rattle.std.specs.Prelude.{◌≡◌, ◌<◌, nat_le, not, codes, length, take, IsCharBoundary, Some};
ghost use Rattle.std.specs.List.{list_all};
ghost use Rattle.std.specs.Result.{result_ok};
ghost use Rattle.std.specs.Str.{chars};
ghost use Rattle.rustc_lexer.specs.{E2018};
ghost use Rattle.rustc_lexer.specs.Classes.{Fits, is_id_continue, is_word_continue};
ghost use Rattle.rustc_lexer.specs.LanguageCalls.{edition_of, edition_of_year};
ghost use Rattle.rustc_lexer.specs.LanguageText.{year};
ghost use Rattle.rustc_lexer.specs.model.Edition as spec;
ghost use Rattle.rustc_lexer.specs.model.Quick.{BeginsWithNoHash};
ghost use Rattle.rustc_lexer.specs.model.Scan.{run_len};

use crate::classes::emoji::is_emoji;
use crate::lexemes::choose_token;
use crate::lexemes::quick::quick_token;
use crate::scan::{eat_continue, next_is, split_first};
use crate::token::{Token, TokenKind};
use std::error::Error;
use std::fmt;
use std::str::FromStr;

/// An edition of Rust, which is the version of the language in which a text is written. Editions are ordered by year.
///
/// They differ in a few tokens, such as `#"` and `'a#`. One difference is left to a compiler: in every edition `c"`,
/// `cr"`, `cr#` and `k#` start one token, although a compiler lexes an identifier there before 2021.
///
/// ```
/// use rustc_lexer::Edition;
///
/// assert_eq!("2021".parse(), Ok(Edition::E2021));
/// assert_eq!(Edition::try_from(2018), Ok(Edition::E2018));
/// assert_eq!(Edition::ALL[0].year(), 2015);
/// ```
#[derive(Clone, Copy, Debug, PartialEq, Eq, PartialOrd, Ord)]
pub enum Edition {
    /// Rust 2015.
    E2015,
    /// Rust 2018. It has the same tokens as Rust 2015.
    E2018,
    /// Rust 2021.
    E2021,
    /// Rust 2024.
    E2024,
}

impl Edition {
    /// All editions, ordered by year.
    pub const ALL: &'static [Edition] = &[
        Edition::E2015,
        Edition::E2018,
        Edition::E2021,
        Edition::E2024,
    ];

    /// The newest edition. Functions without an edition parameter lex in this edition.
    pub const NEWEST: Edition = Edition::E2024;

    /// Returns the year of the edition, which is its name.
    pub fn year(self) -> u16
        ensures { result ≡ year self }
    {
        match self {
            Edition::E2015 => 2015,
            Edition::E2018 => 2018,
            Edition::E2021 => 2021,
            Edition::E2024 => 2024,
        }
    }
}

// `ALL` contains the four editions, oldest first.
const _: () = prove!(Edition::ALL[0] as u8 == Edition::E2015 as u8);

const _: () = prove!(Edition::ALL[1] as u8 == Edition::E2018 as u8);

const _: () = prove!(Edition::ALL[2] as u8 == Edition::E2021 as u8);

const _: () = prove!(Edition::ALL[3] as u8 == Edition::E2024 as u8);

/// Parses the year of an edition, such as `2021`.
impl FromStr for Edition {
    type Err = UnknownEdition;

    ghost from_str_gives = { λ word read. result_ok read ≡ edition_of word };

    #[tactic(auto, using(crate::proofs::lemmas::tokens::Editions::year_words, std::proofs::lemmas::Grind::common_steps))]
    fn from_str(word: &str) -> Result<Edition, UnknownEdition> {
        match word {
            "2015" => Ok(Edition::E2015),
            "2018" => Ok(Edition::E2018),
            "2021" => Ok(Edition::E2021),
            "2024" => Ok(Edition::E2024),
            _ => Err(UnknownEdition),
        }
    }
}

/// Converts the year of an edition, such as `2021`.
impl TryFrom<u16> for Edition {
    type Error = UnknownEdition;

    ghost try_from_gives = { λ year read. result_ok read ≡ edition_of_year year };

    fn try_from(year: u16) -> Result<Edition, UnknownEdition> {
        match year {
            2015 => Ok(Edition::E2015),
            2018 => Ok(Edition::E2018),
            2021 => Ok(Edition::E2021),
            2024 => Ok(Edition::E2024),
            _ => Err(UnknownEdition),
        }
    }
}

/// The error for a word or a number that is not the year of an edition.
#[derive(Clone, Copy, Debug, PartialEq, Eq)]
pub struct UnknownEdition;

impl fmt::Display for UnknownEdition {
    ghost output = { λ _. Some (codes "no edition of Rust has this year") };

    fn fmt<W: fmt::Write>(&self, f: &mut fmt::Formatter<W>) -> fmt::Result {
        f.write_str("no edition of Rust has this year")
    }
}

impl Error for UnknownEdition {}

/// Returns the first token of a text in an edition, without a frontmatter. The text must not be empty.
#[inline(always)]
pub(crate) fn token_in(rest: &str, edition: Edition) -> Token
    requires not_empty { 0 < length rest.now }
    requires fits { Fits rest.now }
    ensures token { result ≡ spec.first_token_in edition rest.now }
    ensures boundary { IsCharBoundary rest.now result.len }
{
    match quick_token(rest.as_bytes(), reserves_guards(edition)) {
        Some(token) => token,
        None => choose_in(rest, edition),
    }
}

/// Returns the first token of a text in an edition. The text must not be empty or start with a hash. The first
/// character determines the family of the token.
///
/// Editions 2021 and 2024 differ only in tokens that start with a hash.
#[inline(always)]
pub(crate) fn choose_in(rest: &str, edition: Edition) -> Token
    requires not_empty { 0 < length rest.now }
    requires fits { Fits rest.now }
    requires no_hash { BeginsWithNoHash rest.now }
    ensures token { result ≡ spec.first_token_in edition rest.now }
    ensures boundary { IsCharBoundary rest.now result.len }
{
    match edition {
        Edition::E2024 | Edition::E2021 => choose_token(rest),
        Edition::E2018 | Edition::E2015 => choose_before_2021(rest),
    }
}

/// Returns whether guarded strings are reserved in the edition, so that their prefixes are tokens.
#[inline(always)]
pub(crate) fn reserves_guards(edition: Edition) -> bool
    ensures { result ≡ nat_le 2024 (year edition) }
{
    matches!(edition, Edition::E2024)
}

/// Returns the first token, like [`choose_in`], in an edition before 2021. It is not inlined, which keeps the code for
/// newer editions short.
#[inline(never)]
fn choose_before_2021(rest: &str) -> Token
    requires fits { Fits rest.now }
    requires no_hash { BeginsWithNoHash rest.now }
    ensures { result ≡ spec.first_token_in E2018 rest.now }
{
    let token = choose_token(rest);
    match token.kind {
        TokenKind::RawLifetime => Token {
            kind: TokenKind::Lifetime {
                starts_with_number: false,
            },
            len: 2,
        },
        TokenKind::UnknownPrefix => Token {
            kind: TokenKind::Ident,
            len: token.len,
        },
        TokenKind::UnknownPrefixLifetime => Token {
            kind: TokenKind::Lifetime {
                starts_with_number: has_bad_name(rest),
            },
            len: token.len,
        },
        _ => token,
    }
}

/// Returns whether the name after the quote at the start of the text is invalid as the name of a lifetime.
fn has_bad_name(text: &str) -> bool
    ensures { result ≡ spec.has_bad_name (chars text.now) }
{
    let Some((_, name)) = split_first(text) else {
        return false;
    };
    let Some((first, rest)) = split_first(name) else {
        return false;
    };
    first.is_ascii_digit() || is_emoji(first) || holds_emoji(rest)
}

/// Returns whether a name contains an emoji that cannot continue an identifier. `rest` is the name after its first
/// character.
fn holds_emoji(rest: &str) -> bool
    ensures { result
        ≡ not (list_all is_id_continue
        (take (run_len is_word_continue (chars rest.now)) (chars rest.now))) }
{
    next_is(eat_continue(rest), is_emoji)
}
