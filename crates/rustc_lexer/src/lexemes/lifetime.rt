//! Tokens that start with a single quote: character literals and lifetimes.
ghost use Rattle.std.specs.Prelude.{◌≡◌, ◌+◌, ◌≤◌, ◌<◌, ◌^◌, ◌&&◌, ◌||◌, not, if◌then◌else◌, true, length, codes};
ghost use Rattle.std.specs.Prelude.{IfSome};
ghost use Rattle.std.specs.Char.{is_ascii_digit, len_utf8};
ghost use Rattle.std.specs.Str.{chars};
ghost use Rattle.rustc_lexer.specs.{Lifetime, UnknownPrefixLifetime};
ghost use Rattle.rustc_lexer.specs.Tables.{is_emoji};
ghost use Rattle.rustc_lexer.specs.model.Lifetime as spec;
ghost use Rattle.rustc_lexer.specs.model.Lifetime.{is_character_at};
ghost use Rattle.rustc_lexer.specs.model.Quoted.{single_quoted_string};
ghost use Rattle.rustc_lexer.specs.model.Scan.{begins, scanned};

use crate::classes::emoji::is_emoji;
use crate::classes::is_id_start;
use crate::lexemes::ident::{eat_hash_ident, is_word_continue};
use crate::lexemes::literal::{eat_literal_suffix, literal};
use crate::lexemes::quoted::{QuotedPrefix, quoted_literal};
use crate::scan::{begins_with, eat_continue, eat_while, split_first, strip};
use crate::token::{LiteralKind, TokenKind};

/// Lexes a token that starts with a single quote. Returns its kind, and the text after it. `tail` is the text after the
/// quote.
#[inline(always)]
pub(crate) fn lifetime_or_char(tail: &str) -> (TokenKind, &str)
    requires fits { length tail.now + 1 < 2 ^ 32 }
    ensures { (result.0, result.1.now) ≡ scanned spec.lifetime_or_char tail.now }
{
    if let Some(left) = past_short_char(tail) {
        let kind = LiteralKind::Char { terminated: true };
        return (literal(kind, tail, left), eat_literal_suffix(left));
    }
    let Some((first, rest)) = split_first(tail) else {
        return quoted_literal(QuotedPrefix::Single, tail);
    };
    if is_character(first, rest) {
        quoted_literal(QuotedPrefix::Single, tail)
    } else {
        lifetime(first, rest)
    }
}

/// Returns the text after the closing quote if this quote directly follows one ASCII character, or a backslash and one
/// ASCII character.
///
/// There is no branch on which of the two it is, since that is hard to predict.
#[inline(always)]
#[tactic(auto, using(crate::proofs::lemmas::tokens::ShortChars::short_cut, crate::proofs::lemmas::tokens::ShortChars::byte_le, std::proofs::lemmas::Grind::common_steps))]
fn past_short_char(tail: &str) -> Option<&str>
    ensures { IfSome result (λ left. (is_character_at (chars tail.now) ≡ true)
        × ((true, left.now) ≡ scanned single_quoted_string tail.now)
        × (length left.now ≤ length tail.now)) }
{
    let bytes = tail.as_bytes();
    if bytes.len() < 3 {
        return None;
    }
    let offset = 1 + usize::from(bytes[0] == b'\\');
    if bytes[offset - 1] < 128 && bytes[offset] == b'\'' {
        Some(&tail[offset + 1..])
    } else {
        None
    }
}

/// Returns whether a quote, `first` and `rest` start a character literal and not a lifetime.
fn is_character(first: char, rest: &str) -> bool
    ensures { result ≡ spec.is_character first (chars rest.now) }
{
    begins_with(rest, b'\'') || !is_name_start(first)
}

/// Returns whether the name of a lifetime can start with the character, valid or not. Digits and emoji can.
fn is_name_start(c: char) -> bool
    ensures { result ≡ spec.is_name_start c }
{
    is_id_start(c) || c.is_ascii_digit() || is_emoji(c)
}

/// Lexes a quote and the name after it. Returns the kind of the token, and the text after it. `first` is the first
/// character of the name, and `rest` is the text after `first`.
#[inline(always)]
fn lifetime(first: char, rest: &str) -> (TokenKind, &str)
    requires fits { len_utf8 first + length rest.now + 1 < 2 ^ 32 }
    ensures { (result.0, result.1.now) ≡ scanned (spec.lifetime first) rest.now }
{
    if first == 'r' {
        if let Some(left) = eat_hash_ident(rest) {
            return (TokenKind::RawLifetime, left);
        }
    }
    plain_lifetime(first, rest)
}

/// Lexes a quote and the name after it, which is not a raw lifetime. A quote right after the name makes it a
/// character literal.
#[inline(always)]
fn plain_lifetime(first: char, rest: &str) -> (TokenKind, &str)
    requires fits { len_utf8 first + length rest.now + 1 < 2 ^ 32 }
    ensures { (result.0, result.1.now) ≡ scanned (spec.plain_lifetime first) rest.now }
{
    let past_plain = eat_continue(rest);
    let past_name = eat_while(past_plain, is_word_continue);
    if let Some(left) = strip(past_name, b'\'') {
        let name_len = first.len_utf8() + (rest.len() - past_name.len());
        let kind = LiteralKind::Char { terminated: true };
        let suffix_start = 2 + name_len as u32;
        return (TokenKind::Literal { kind, suffix_start }, left);
    }
    let holds_emoji = past_name.len() < past_plain.len();
    (lifetime_kind(first, holds_emoji, past_name), past_name)
}

/// Returns the kind of a name that no quote follows. `first` is its first character, and `rest` is the text after it.
#[inline(always)]
fn lifetime_kind(first: char, holds_emoji: bool, rest: &str) -> TokenKind
    ensures { result ≡ (if begins (codes "#") (chars rest.now) && not (is_ascii_digit first)
        then UnknownPrefixLifetime
        else Lifetime (is_ascii_digit first || is_emoji first || holds_emoji)) }
{
    if begins_with(rest, b'#') && !first.is_ascii_digit() {
        TokenKind::UnknownPrefixLifetime
    } else {
        TokenKind::Lifetime {
            starts_with_number: first.is_ascii_digit() || is_emoji(first) || holds_emoji,
        }
    }
}
