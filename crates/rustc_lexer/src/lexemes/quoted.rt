//! Text in quotes: strings and characters.
ghost use Rattle.std.specs.Prelude.{◌≡◌, ◌+◌, ◌≤◌, ◌<◌, ◌^◌, ◌∷◌, true, false, length, MatchOption};
ghost use Rattle.std.specs.Str.{chars};
ghost use Rattle.rustc_lexer.specs.model.Quoted as spec;
ghost use Rattle.rustc_lexer.specs.model.Scan.{past, scanned};

use crate::lexemes::body::BodyEnd;
use crate::lexemes::literal::{eat_literal_suffix, literal};
use crate::scan::{begins_with, eat_until_either, split_first, strip};
use crate::token::{LiteralKind, TokenKind};

/// Returns the end of a string in double quotes. `body` is the text after the opening quote. An unterminated string
/// extends to the end of the text.
#[tactic(auto, using(crate::proofs::lemmas::tokens::QuotedLoop::quoted_lemmas, std::proofs::lemmas::Grind::common_steps))]
pub(crate) fn double_quoted_string(body: &str) -> BodyEnd<'_>
    ensures shorter { length result.rest.now ≤ length body.now }
    ensures read { (result.terminated, result.rest.now)
        ≡ scanned spec.double_quoted_string body.now }
{
    let mut rest = body;
    'quoted: loop {
        let stop = eat_until_either(rest, b'"', b'\\');
        let Some((c, tail)) = split_first(stop) else {
            return BodyEnd {
                terminated: false,
                rest: stop,
            };
        };
        if c == '"' {
            return BodyEnd {
                terminated: true,
                rest: tail,
            };
        }
        let Some((_, past_escaped)) = split_first(tail) else {
            return BodyEnd {
                terminated: false,
                rest: tail,
            };
        };
        rest = past_escaped;
    }
}

/// Returns the end of a text in single quotes. `body` is the text after the opening quote. If it is unterminated, it
/// ends before a slash, before a newline that no quote follows, or at the end of the text.
#[tactic(auto, using(crate::proofs::lemmas::tokens::QuotedLoop::quoted_lemmas, std::proofs::lemmas::Grind::common_steps))]
pub(crate) fn single_quoted_string(body: &str) -> BodyEnd<'_>
    ensures shorter { length result.rest.now ≤ length body.now }
    ensures read { (result.terminated, result.rest.now)
        ≡ scanned spec.single_quoted_string body.now }
{
    if let Some(rest) = strip_lone(body) {
        return BodyEnd {
            terminated: true,
            rest,
        };
    }
    let mut rest = body;
    let mut escaped = false;
    while let Some((c, tail)) = split_first(rest) {
        if escaped {
            escaped = false;
        } else if c == '\'' {
            return BodyEnd {
                terminated: true,
                rest: tail,
            };
        } else if stops_open(c, tail) {
            return BodyEnd {
                terminated: false,
                rest,
            };
        } else {
            escaped = c == '\\';
        }
        rest = tail;
    }
    BodyEnd {
        terminated: false,
        rest,
    }
}

/// Returns the text after one character and a quote, or `None` if it does not start with these. The character is not a
/// backslash.
fn strip_lone(body: &str) -> Option<&str>
    ensures { MatchOption result (spec.is_lone (chars body.now) ≡ false)
        (λ rest. (spec.is_lone (chars body.now) ≡ true) × (rest.now ≡ past 2 body.now)) }
{
    let (first, tail) = split_first(body)?;
    if first == '\\' {
        return None;
    }
    strip(tail, b'\'')
}

/// Returns whether `c`, which is not a quote, ends an unterminated text in single quotes. `tail` is the text after `c`.
fn stops_open(c: char, tail: &str) -> bool
    requires { ¬ (c ≡ 39) }
    ensures { result ≡ spec.at_single_stop (c ∷ chars tail.now) }
{
    c == '/' || (c == '\n' && !begins_with(tail, b'\''))
}

/// The prefix of a literal in quotes, up to and including the opening quote.
#[derive(Clone, Copy)]
pub(crate) enum QuotedPrefix {
    /// `'`
    Single,
    /// `b'`
    BSingle,
    /// `"`
    Double,
    /// `b"`
    BDouble,
    /// `c"`
    CDouble,
}

/// Lexes a literal in quotes. Returns its kind, and the text after it. `tail` is the text after the first character
/// of its prefix.
#[inline(always)]
#[tactic(auto, using(crate::specs::laws::Scan::scan_lemmas, std::proofs::lemmas::Grind::common_steps))]
pub(crate) fn quoted_literal(prefix: QuotedPrefix, tail: &str) -> (TokenKind, &str)
    requires fits { length tail.now + 1 < 2 ^ 32 }
    ensures { (result.0, result.1.now) ≡ scanned (spec.quoted_literal prefix) tail.now }
{
    let BodyEnd { terminated, rest } = quoted_string(prefix, tail);
    let kind = quoted_kind(prefix, terminated);
    let token = literal(kind, tail, rest);
    if terminated {
        (token, eat_literal_suffix(rest))
    } else {
        (token, rest)
    }
}

/// Returns the end of the quoted text. `tail` is the text after the first character of its prefix.
#[inline(always)]
#[tactic(auto, using(crate::specs::laws::Scan::scan_lemmas, std::proofs::lemmas::Grind::common_steps))]
fn quoted_string(prefix: QuotedPrefix, tail: &str) -> BodyEnd<'_>
    ensures shorter { length result.rest.now ≤ length tail.now }
    ensures read { (result.terminated, result.rest.now)
        ≡ scanned (spec.quoted_string prefix) tail.now }
{
    match prefix {
        QuotedPrefix::Single => single_quoted_string(tail),
        QuotedPrefix::BSingle => single_quoted_string(after_first(tail)),
        QuotedPrefix::Double => double_quoted_string(tail),
        QuotedPrefix::BDouble | QuotedPrefix::CDouble => double_quoted_string(after_first(tail)),
    }
}

/// Returns the text after its first character, if there is one.
#[inline(always)]
#[tactic(auto, using(crate::specs::laws::Past::past_end, std::proofs::lemmas::Grind::common_steps))]
fn after_first(text: &str) -> &str
    ensures shorter { length result.now ≤ length text.now }
    ensures past { result.now ≡ past 1 text.now }
{
    match split_first(text) {
        Some((_, rest)) => rest,
        None => text,
    }
}

/// Returns the kind of the literal with this prefix.
#[inline(always)]
fn quoted_kind(prefix: QuotedPrefix, terminated: bool) -> LiteralKind
    ensures { result ≡ spec.quoted_kind prefix terminated }
{
    match prefix {
        QuotedPrefix::Single => LiteralKind::Char { terminated },
        QuotedPrefix::BSingle => LiteralKind::Byte { terminated },
        QuotedPrefix::Double => LiteralKind::Str { terminated },
        QuotedPrefix::BDouble => LiteralKind::ByteStr { terminated },
        QuotedPrefix::CDouble => LiteralKind::CStr { terminated },
    }
}
