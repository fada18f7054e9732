//! Tokens that start like an identifier: identifiers, and literals with a letter in front.
ghost use Rattle.std.specs.Prelude.{◌≡◌, ◌+◌, ◌<◌, ◌^◌, length};
ghost use Rattle.std.specs.Str.{chars};
ghost use Rattle.rustc_lexer.specs.model.Lexeme as spec;
ghost use Rattle.rustc_lexer.specs.model.Raw.{prefix_len};
ghost use Rattle.rustc_lexer.specs.model.Scan.{next_is, scanned};

use crate::lexemes::ident::{eat_hash_ident, ident_or_unknown_prefix};
use crate::lexemes::quoted::{QuotedPrefix, quoted_literal};
use crate::lexemes::raw::{RawPrefix, raw_literal};
use crate::scan::{begins_with, strip};
use crate::token::TokenKind;

/// Lexes a token that starts with `first`. Returns its kind, and the text after it. `tail` is the text after `first`.
#[inline(always)]
pub(crate) fn word(first: char, tail: &str) -> (TokenKind, &str)
    requires fits { length tail.now + 1 < 2 ^ 32 }
    ensures { (result.0, result.1.now) ≡ scanned (spec.word first) tail.now }
{
    match first {
        'r' => letter_r(tail),
        'k' => letter_k(tail),
        'b' => letter_b(tail),
        'c' => letter_c(tail),
        _ => ident_or_unknown_prefix(tail),
    }
}

/// Lexes a token that starts with `r`: a raw identifier, a raw string, or an identifier.
#[inline(always)]
fn letter_r(tail: &str) -> (TokenKind, &str)
    requires fits { length tail.now + 1 < 2 ^ 32 }
    ensures { (result.0, result.1.now) ≡ scanned spec.letter_r tail.now }
{
    if let Some(rest) = eat_hash_ident(tail) {
        return (TokenKind::RawIdent, rest);
    }
    if begins_raw(tail) {
        raw_literal(RawPrefix::R, tail)
    } else {
        ident_or_unknown_prefix(tail)
    }
}

/// Returns whether the text after a prefix continues as a raw string.
#[inline(always)]
fn begins_raw(rest: &str) -> bool
    ensures { result ≡ next_is spec.opens_raw (chars rest.now) }
{
    begins_with(rest, b'"') || begins_with(rest, b'#')
}

/// Lexes a token that starts with `k`: a forced keyword, or an identifier.
#[inline(always)]
fn letter_k(tail: &str) -> (TokenKind, &str)
    ensures { (result.0, result.1.now) ≡ scanned spec.letter_k tail.now }
{
    match eat_hash_ident(tail) {
        Some(rest) => (TokenKind::ForcedKeywordIdent, rest),
        None => ident_or_unknown_prefix(tail),
    }
}

/// Lexes a token that starts with `b`: a byte, a byte string, or an identifier.
#[inline(always)]
fn letter_b(tail: &str) -> (TokenKind, &str)
    requires fits { length tail.now + 1 < 2 ^ 32 }
    ensures { (result.0, result.1.now) ≡ scanned spec.letter_b tail.now }
{
    if begins_with(tail, b'\'') {
        quoted_literal(QuotedPrefix::BSingle, tail)
    } else if begins_with(tail, b'"') {
        quoted_literal(QuotedPrefix::BDouble, tail)
    } else {
        raw_or_ident(RawPrefix::Br, tail)
    }
}

/// Lexes a token that starts with `c`: a C string, or an identifier.
#[inline(always)]
fn letter_c(tail: &str) -> (TokenKind, &str)
    requires fits { length tail.now + 1 < 2 ^ 32 }
    ensures { (result.0, result.1.now) ≡ scanned spec.letter_c tail.now }
{
    if begins_with(tail, b'"') {
        quoted_literal(QuotedPrefix::CDouble, tail)
    } else {
        raw_or_ident(RawPrefix::Cr, tail)
    }
}

/// Lexes a raw string whose prefix of two letters ends with the `r` at the start of `tail`, or an identifier.
#[inline(always)]
fn raw_or_ident(prefix: RawPrefix, tail: &str) -> (TokenKind, &str)
    requires long { prefix_len prefix ≡ 2 }
    requires fits { length tail.now + 1 < 2 ^ 32 }
    ensures { (result.0, result.1.now) ≡ scanned (spec.raw_past_or_ident prefix) tail.now }
{
    let Some(rest) = strip(tail, b'r') else {
        return ident_or_unknown_prefix(tail);
    };
    if begins_raw(rest) {
        raw_literal(prefix, rest)
    } else {
        ident_or_unknown_prefix(tail)
    }
}
