//! Frontmatter: a block between two fences of dashes, which may come before the source in a file.
ghost use Rattle.std.specs.Prelude.{◌≡◌, ℕ, ◌+◌, ◌-◌, ◌≤◌, ◌<◌, ◌==◌, ◌&&◌, true, false, length, nat_lt, slice_index};
ghost use Rattle.std.specs.Prelude.{take, drop, codes, MatchOption, IfSome, None, ◌∷◌};
ghost use Rattle.std.specs.Str.{chars, IsCharBoundary};
ghost use Rattle.rustc_lexer.specs.{Edition};
ghost use Rattle.rustc_lexer.specs.Classes;
ghost use Rattle.rustc_lexer.specs.Classes.{Fits, begins, is_among, next_is};
ghost use Rattle.rustc_lexer.specs.FrontmatterGrammar.{fence};
ghost use Rattle.rustc_lexer.specs.LanguageText.{mode_in, source};
ghost use Rattle.rustc_lexer.specs.model.Edition.{first_token_in};
ghost use Rattle.rustc_lexer.specs.model.Frontmatter as spec;
ghost use Rattle.rustc_lexer.specs.model.Least as least;
ghost use Rattle.rustc_lexer.specs.model.Scan.{past, run_len};
ghost use Rattle.rustc_lexer.specs.model.Taking as state;

use crate::classes::{is_horizontal_whitespace, is_id_continue, is_id_start, is_whitespace};
use crate::edition::{Edition, token_in};
use crate::kernels::{find_byte, skip_apart};
use crate::scan::{eat_while, eat_whitespace, next_is, split_first};
use crate::token::{FrontmatterAllowed, Token, TokenKind};
use memchr::memchr;

/// The minimum number of dashes in a fence.
const MIN_DASHES: usize = 3;

/// Returns the first token of a text in an edition, with or without a frontmatter at the start. The text must not be
/// empty.
#[inline(always)]
#[tactic(auto, using(crate::specs::laws::Frontmatter::cut_lemmas, std::proofs::lemmas::Grind::common_steps))]
pub(crate) fn token_at(text: &str, allowed: FrontmatterAllowed, edition: Edition) -> Token
    requires not_empty { 0 < length text.now }
    requires fits { Fits text.now }
    ensures token { result ≡ state.token_at (mode_in allowed edition) text.now }
    ensures boundary { IsCharBoundary text.now result.len }
{
    match allowed {
        FrontmatterAllowed::No => token_in(text, edition),
        FrontmatterAllowed::Yes => {
            let token = token_in(text, edition);
            if may_open(text, token) {
                frontmatter(text).unwrap_or(token)
            } else {
                token
            }
        }
    }
}

/// Returns whether a frontmatter may start the text. `token` is its first token otherwise. Only whitespace before three
/// dashes, or the first of three dashes, allows a frontmatter.
#[inline(always)]
fn may_open(text: &str, token: Token) -> bool
    requires { token.len ≤ length text.now }
    ensures { (edition : Edition) → token ≡ first_token_in edition text.now → result ≡ false
        → spec.opens (chars text.now) ≡ false }
{
    let start = match token.kind {
        TokenKind::Whitespace => token.len as usize,
        TokenKind::Minus => 0,
        _ => return false,
    };
    text.as_bytes()[start..].starts_with(b"---")
}

/// Returns the frontmatter at the start of the text, or `None` if there is none.
///
/// Whitespace before its dashes is part of it. If that whitespace ends in a newline, it is a token of its own, and the
/// result is `None`.
#[inline(never)]
pub(crate) fn frontmatter(text: &str) -> Option<Token>
    requires fits { Fits text.now }
    ensures { MatchOption result (spec.opens (chars text.now) ≡ false)
        (λ token. (spec.opens (chars text.now) ≡ true) × (token ≡ spec.frontmatter text.now)) }
{
    let fence = eat_whitespace(text);
    let label = eat_while(fence, |c| c == '-');
    let n_dashes = fence.len() - label.len();
    if n_dashes < MIN_DASHES || follows_newline(text.as_bytes(), text.len() - fence.len()) {
        return None;
    }
    let rest = eat_label(label);
    let end = closing_end(rest.as_bytes(), &fence.as_bytes()[..n_dashes]);
    Some(Token {
        kind: TokenKind::Frontmatter {
            has_invalid_preceding_whitespace: next_is(text, is_whitespace),
            invalid_infostring: !next_is(rest, |c| c == '\n'),
        },
        len: (text.len() - rest.len() + end) as u32,
    })
}

/// Returns the text after the rest of the opening fence: blanks, an infostring, and blanks. `rest` is the text after
/// the dashes.
fn eat_label(rest: &str) -> &str
    ensures shorter { length result.now ≤ length rest.now }
    ensures past { result.now ≡ past (spec.label_len (chars rest.now)) rest.now }
{
    let infostring = eat_while(rest, is_horizontal_whitespace);
    eat_while(eat_infostring(infostring), is_horizontal_whitespace)
}

/// Returns the text after the infostring at its start, or the whole text if there is none.
#[tactic(auto, using(crate::specs::laws::Frontmatter::infostring_lemmas, std::proofs::lemmas::Grind::common_steps))]
fn eat_infostring(rest: &str) -> &str
    ensures shorter { length result.now ≤ length rest.now }
    ensures past { result.now ≡ past (spec.infostring_len (chars rest.now)) rest.now }
{
    let Some((first, tail)) = split_first(rest) else {
        return rest;
    };
    if !is_id_start(first) {
        return rest;
    }
    eat_while(tail, is_info)
}

/// Returns whether the character can continue an infostring.
fn is_info(c: char) -> bool
    ensures { result ≡ Classes.is_info c }
{
    is_id_continue(c) || c == '-' || c == '.'
}

/// Returns the end of the frontmatter in `rest`, which is the text after the opening fence. `dashes` are the dashes of
/// that fence.
///
/// The closing fence is the first line that starts with `dashes`. If there is none, the end is the first of these that
/// exists, in this order:
///
/// - the end of the first line that starts with `---`
/// - the newline before the first line that starts with `use `
/// - the newline before the first line that starts with `//!`
/// - the newline before the first line that starts with `#![`
/// - the end of the line with the first three dashes that only blanks precede
/// - the end of the text
#[tactic(auto, using(crate::specs::laws::Frontmatter::closing_end_is, crate::specs::laws::Frontmatter::if_found_some, crate::specs::laws::Frontmatter::if_found_none, std::proofs::lemmas::Grind::common_steps))]
fn closing_end(rest: &[u8], dashes: &[u8]) -> usize
    ensures end { (n : ℕ) → dashes.now ≡ fence n → result ≡ spec.closing_end n rest.now }
    ensures inside { result ≤ length rest.now }
{
    if let Some(offset) = find_pattern(rest, b'\n', dashes) {
        return line_end(rest, offset + 1);
    }
    if let Some(offset) = find_pattern(rest, b'\n', b"---") {
        return line_end(rest, offset + 1);
    }
    if let Some(offset) = find_pattern(rest, b'\n', b"use ") {
        return offset;
    }
    if let Some(offset) = find_pattern(rest, b'\n', b"//!") {
        return offset;
    }
    if let Some(offset) = find_pattern(rest, b'\n', b"#![") {
        return offset;
    }
    match find_lone_dashes(rest) {
        Some(offset) => line_end(rest, offset),
        None => rest.len(),
    }
}

/// Returns the offset of the first three dashes that only blanks precede, on their line or since the three dashes
/// before.
#[tactic(auto, using(std::proofs::lemmas::List::take_rest, crate::specs::laws::Fences::walk_end, crate::specs::laws::Fences::walk_found, crate::specs::laws::Fences::walk_on, std::proofs::lemmas::Grind::common_steps))]
fn find_lone_dashes(rest: &[u8]) -> Option<usize>
    ensures offset { result ≡ spec.first_lone true 0 rest.now }
    ensures inside { IfSome result (λ offset. offset < length rest.now) }
{
    let mut end = 0;
    'places: while let Some(step) = find_pattern(&rest[end..], b'-', b"--") {
        let offset = end + step;
        if stands_alone(rest, end, offset) {
            return Some(offset);
        }
        end = offset + 3;
    }
    None
}

/// Returns whether only blanks precede `offset`, back to the start of its line or to `end`.
fn stands_alone(rest: &[u8], end: usize, offset: usize) -> bool
    requires order { end ≤ offset }
    requires inside { offset ≤ length rest.now }
    ensures { result ≡ spec.blank_over true (take (offset - end) (drop end rest.now)) }
{
    let mut start = offset;
    'blanks: while start > end && is_horizontal_whitespace(rest[start - 1] as char) {
        start -= 1;
    }
    start == end || follows_newline(rest, start)
}

/// Returns whether a newline directly precedes the offset.
fn follows_newline(bytes: &[u8], offset: usize) -> bool
    requires { offset ≤ length bytes.now }
    ensures { result ≡ (nat_lt 0 offset && spec.is_newline (slice_index bytes.now (offset - 1))) }
{
    offset > 0 && bytes[offset - 1] == b'\n'
}

/// Returns the offset of the first newline at or after `offset`, or the end of the text.
fn line_end(rest: &[u8], offset: usize) -> usize
    requires { offset ≤ length rest.now }
    ensures end { result ≡ spec.line_end offset rest.now }
    ensures inside { result ≤ length rest.now }
{
    match memchr(b'\n', &rest[offset..]) {
        Some(step) => offset + step,
        None => rest.len(),
    }
}

/// Returns the offset of a pattern, which is `first` followed by `more`, or `None` if it does not occur. It searches
/// for `first` only, so it does not build a searcher, which would allocate.
fn find_pattern(rest: &[u8], first: u8, more: &[u8]) -> Option<usize>
    ensures offset { result ≡ spec.first (first ∷ more.now) rest.now }
    ensures inside { IfSome result (λ offset. offset + 1 + length more.now ≤ length rest.now) }
{
    let mut from = 0;
    'places: while let Some(step) = find_start(first, more, &rest[from..]) {
        let past = from + step + 1;
        if rest[past..].starts_with(more) {
            return Some(past - 1);
        }
        from = past;
    }
    None
}

/// Returns the offset of a byte `first` such that the pattern does not start before it, or `None` if the pattern does
/// not occur.
fn find_start(first: u8, more: &[u8], rest: &[u8]) -> Option<usize>
    ensures { MatchOption result (spec.first (first ∷ more.now) rest.now ≡ None)
        (λ place. (place < length rest.now) × (slice_index rest.now place ≡ first)
        × (spec.first (first ∷ more.now) rest.now
        ≡ least.more place (spec.first (first ∷ more.now) (drop place rest.now)))) }
{
    let start = skip_front(first, more, rest);
    match find_byte(first, &rest[start..]) {
        Some(step) => Some(start + step),
        None => None,
    }
}

/// Returns a number of bytes at the start of the text at which the pattern does not start.
fn skip_front(first: u8, more: &[u8], rest: &[u8]) -> usize
    ensures left { spec.first (first ∷ more.now) rest.now
        ≡ least.more result (spec.first (first ∷ more.now) (drop result rest.now)) }
    ensures inside { result ≤ length rest.now }
{
    if more.len() < 2 {
        return 0;
    }
    skip_apart(first, more, rest)
}
