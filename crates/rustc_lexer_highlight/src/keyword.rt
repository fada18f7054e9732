//! The keywords of each edition.
ghost use Rattle.std.specs.Prelude.{◌≡◌, take, drop};
ghost use Rattle.rustc_lexer_highlight.specs.Keyword as spec;

use rustc_lexer::Edition;

/// The kind of a keyword: whether it can also be a name.
#[derive(Clone, Copy, Debug, PartialEq, Eq)]
pub enum KeywordKind {
    /// Never a name, such as `while`.
    Strict,
    /// Never a name, since Rust reserves it for the future, such as `yield`.
    Reserved,
    /// A keyword in some contexts and a name elsewhere, such as `union`.
    Weak,
}

/// Returns the kind of a keyword in an edition, or `None` if the word is not a keyword.
///
/// The word is the text of a token. A raw identifier such as `r#while` is not a keyword, and the lifetime `'static` is
/// a weak keyword. The kinds follow the chapter [Keywords](https://doc.rust-lang.org/reference/keywords.html) of the
/// Rust Reference.
///
/// # Examples
///
/// ```
/// use rustc_lexer_highlight::{Edition, KeywordKind, keyword_kind};
///
/// assert_eq!(keyword_kind("async", Edition::E2015), None);
/// assert_eq!(keyword_kind("async", Edition::E2018), Some(KeywordKind::Strict));
/// assert_eq!(keyword_kind("gen", Edition::E2024), Some(KeywordKind::Reserved));
/// assert_eq!(keyword_kind("union", Edition::E2024), Some(KeywordKind::Weak));
/// ```
pub fn keyword_kind(word: &str, edition: Edition) -> Option<KeywordKind>
    ensures { result ≡ spec.keyword_kind word.now edition }
{
    if is_strict(word, edition) {
        Some(KeywordKind::Strict)
    } else if is_reserved(word, edition) {
        Some(KeywordKind::Reserved)
    } else if WEAK.contains(&word) {
        Some(KeywordKind::Weak)
    } else {
        None
    }
}

/// Returns whether a word is a strict keyword.
pub(crate) fn is_strict(word: &str, edition: Edition) -> bool
    ensures { result ≡ spec.has KeywordKind.Strict edition word.now }
{
    match word {
        "async" | "await" | "dyn" => !matches!(edition, Edition::E2015),
        _ => is_strict_to_for(word) || is_strict_to_return(word) || is_strict_to_while(word),
    }
}

/// Returns whether a word is one of the first twelve strict keywords of 2015. The prover is slow for a longer list.
fn is_strict_to_for(word: &str) -> bool
    ensures { result ≡ spec.is_in (take 12 (spec.made KeywordKind.Strict Edition.E2015)) word.now }
{
    matches!(
        word,
        "_" | "as"
            | "break"
            | "const"
            | "continue"
            | "crate"
            | "else"
            | "enum"
            | "extern"
            | "false"
            | "fn"
            | "for"
    )
}

/// Returns whether a word is one of the next twelve.
fn is_strict_to_return(word: &str) -> bool
    ensures { result ≡ spec.is_in (take 12 (drop 12 (spec.made KeywordKind.Strict Edition.E2015))) word.now }
{
    matches!(
        word,
        "if" | "impl"
            | "in"
            | "let"
            | "loop"
            | "match"
            | "mod"
            | "move"
            | "mut"
            | "pub"
            | "ref"
            | "return"
    )
}

/// Returns whether a word is one of the last twelve.
fn is_strict_to_while(word: &str) -> bool
    ensures { result ≡ spec.is_in (drop 24 (spec.made KeywordKind.Strict Edition.E2015)) word.now }
{
    matches!(
        word,
        "self"
            | "Self"
            | "static"
            | "struct"
            | "super"
            | "trait"
            | "true"
            | "type"
            | "unsafe"
            | "use"
            | "where"
            | "while"
    )
}

/// Returns whether a word is a reserved keyword.
fn is_reserved(word: &str, edition: Edition) -> bool
    ensures { result ≡ spec.has KeywordKind.Reserved edition word.now }
{
    match word {
        "abstract"
        | "become"
        | "box"
        | "do"
        | "final"
        | "macro"
        | "override"
        | "priv"
        | "typeof"
        | "unsized"
        | "virtual"
        | "yield" => true,
        "try" => !matches!(edition, Edition::E2015),
        "gen" => matches!(edition, Edition::E2024),
        _ => false,
    }
}

/// The weak keywords.
const WEAK: [&str; 6] = ["'static", "dyn", "macro_rules", "raw", "safe", "union"];
