//! Identifiers, and words that are not identifiers because of an emoji or of the character after them.
ghost use Rattle.std.specs.Prelude.{◌≡◌, ◌+◌, true, false, MatchOption, drop};
ghost use Rattle.std.specs.Str.{chars};
ghost use Rattle.rustc_lexer.specs.Classes;
ghost use Rattle.rustc_lexer.specs.model.Ident as spec;
ghost use Rattle.rustc_lexer.specs.model.Scan.{past, run_len, scanned};

use crate::classes::emoji::is_emoji;
use crate::classes::{ends_prefix, is_id_continue, is_id_start};
use crate::kernels::ends_word;
use crate::scan::{eat_continue, eat_while, next_is, split_first, strip};
use crate::token::TokenKind;

/// Lexes an identifier, or a word that is not one because it contains an emoji or because it is a prefix. Returns its
/// kind, and the text after it. `tail` is the text after its first character.
#[inline(always)]
pub(crate) fn ident_or_unknown_prefix(tail: &str) -> (TokenKind, &str)
    ensures { (result.0, result.1.now) ≡ scanned spec.ident_or_unknown_prefix tail.now }
{
    let rest = eat_continue(tail);
    if ends_word(rest.as_bytes(), 0) {
        return (TokenKind::Ident, rest);
    }
    if next_is(rest, is_emoji) {
        return invalid_ident(rest);
    }
    if next_is(rest, ends_prefix) {
        (TokenKind::UnknownPrefix, rest)
    } else {
        (TokenKind::Ident, rest)
    }
}

/// Lexes a word that is not an identifier because it contains an emoji. Returns its kind, and the text after it. `tail`
/// is the text after that emoji.
pub(crate) fn invalid_ident(tail: &str) -> (TokenKind, &str)
    ensures { (result.0, result.1.now) ≡ scanned spec.invalid_ident tail.now }
{
    (TokenKind::InvalidIdent, eat_while(tail, is_word_continue))
}

/// Returns the text after a hash and an identifier, or `None` if the text does not start with them.
#[inline(always)]
pub(crate) fn eat_hash_ident(tail: &str) -> Option<&str>
    ensures { MatchOption result (spec.begins_hash_ident (chars tail.now) ≡ false)
        (λ rest. (spec.begins_hash_ident (chars tail.now) ≡ true)
        × (rest.now ≡ past (2 + run_len Classes.is_id_continue (drop 2 (chars tail.now)))
        tail.now)) }
{
    let (first, word) = split_first(strip(tail, b'#')?)?;
    if !is_id_start(first) {
        return None;
    }
    Some(eat_continue(word))
}

/// Returns whether the text is an identifier or a keyword: a character that can start one, followed by characters that
/// can continue one, according to [`is_id_start`] and [`is_id_continue`].
///
/// Rust Reference: [identifiers](https://doc.rust-lang.org/reference/identifiers.html).
#[inline]
pub fn is_ident(string: &str) -> bool
    ensures { result ≡ Classes.is_ident (chars string.now) }
{
    match split_first(string) {
        Some((first, tail)) => is_id_start(first) && eat_continue(tail).is_empty(),
        None => false,
    }
}

/// Returns whether the character can continue an identifier or the name of a lifetime, valid or not.
pub(crate) fn is_word_continue(c: char) -> bool
    ensures { result ≡ Classes.is_word_continue c }
{
    is_id_continue(c) || is_emoji(c)
}
