//! The first and the last line of a frontmatter. Line endings can be CRLF.
ghost use Rattle.std.specs.Prelude.{◌≡◌, ◌≤◌, ◌<◌, ◌^◌, ℕ, Bool, codes, length};
ghost use Rattle.std.specs.List.{prefix_len};
ghost use Rattle.std.specs.Str.{chars};
ghost use Rattle.rustc_lexer.specs.Classes.{Fits, begins, is_horizontal_whitespace};
ghost use Rattle.rustc_lexer_errors.specs.Frontmatter.{is_end};
ghost use Rattle.rustc_lexer_errors.specs.TextError.{is_of};
ghost use Rattle.rustc_lexer_errors.specs.model.Frontmatter as model;

use crate::errors::TokenError;
use memchr::memrchr;
use rustc_lexer::{is_id_continue, is_id_start};
use rustc_literal_escaper::split_first;

/// Returns the error at the end of a frontmatter that starts with its dashes, or `None` if a line with as many dashes
/// closes it.
#[tactic(auto, using(crate::proofs::FrontmatterLemmas::ends_found, crate::proofs::FrontmatterLemmas::ends_none, std::proofs::lemmas::Grind::common_steps))]
pub fn end_error(text: &str) -> Option<TokenError>
    requires fits { Fits text.now }
    ensures { result ≡ model.end_error text.now }
{
    let bytes = text.as_bytes();
    let Some(newline) = memrchr(b'\n', bytes) else {
        return Some(TokenError::UnclosedFrontmatter);
    };
    closing_error(run_of(b"-", bytes), &bytes[newline + 1..])
}

/// Returns the error of a line that should close a frontmatter whose opening fence has `opening` dashes, or `None` if
/// it is valid.
#[tactic(auto, using(std::proofs::lemmas::Grind::common_steps))]
fn closing_error(opening: usize, line: &[u8]) -> Option<TokenError>
    requires opening { opening < 2 ^ 32 }
    requires line { Fits line.now }
    ensures { result ≡ model.closing_error opening line.now }
{
    let blanks = run_of(b"\t ", line);
    let rest = &line[blanks..];
    let dashes = run_of(b"-", rest);
    let tail = &rest[dashes..];
    if dashes < 3 {
        Some(TokenError::UnclosedFrontmatter)
    } else if blanks > 0 {
        Some(TokenError::WhitespaceBeforeFrontmatterClose)
    } else if dashes != opening {
        Some(TokenError::FrontmatterCloseMismatch {
            opening: opening as u32,
            closing: dashes as u32,
        })
    } else if is_end(&tail[run_of(b"\t ", tail)..]) {
        None
    } else {
        Some(TokenError::ExtraAfterFrontmatterClose)
    }
}

/// Returns whether the rest of a line is empty, or is the carriage return of a CRLF.
#[tactic(auto, unfolding(crate::specs::Frontmatter::is_end))]
fn is_end(rest: &[u8]) -> bool
    ensures { result ≡ is_end rest.now }
{
    rest.is_empty() || rest.len() == 1 && rest[0] == b'\r'
}

/// Returns the length of the longest prefix that consists of these bytes.
#[tactic(auto, using(crate::proofs::FrontmatterLemmas::run_lemmas))]
pub fn run_of(these: &[u8], bytes: &[u8]) -> usize
    ensures value { result ≡ prefix_len (is_of these.now) bytes.now }
    ensures inside { result ≤ length bytes.now }
{
    let mut count = 0;
    'run: while count < bytes.len() {
        if !these.contains(&bytes[count]) {
            return count;
        }
        count += 1;
    }
    count
}

/// Returns whether a CRLF ends the first line of a frontmatter, directly after its dashes and its infostring.
pub fn has_crlf(text: &str) -> bool
    ensures { result ≡ model.has_crlf (chars text.now) }
{
    let name = skip(skip(text, |c| c == '-'), is_blank);
    let rest = skip(skip_infostring(name), is_blank);
    begins_crlf(rest)
}

/// Returns the text after an infostring, or the whole text if it does not start with one.
fn skip_infostring(text: &str) -> &str
    ensures { chars result.now ≡ model.past_infostring (chars text.now) }
{
    match split_first(text) {
        Some((first, rest)) if is_id_start(first) => {
            skip(rest, |c| is_id_continue(c) || c == '-' || c == '.')
        }
        _ => text,
    }
}

/// Returns whether the character is a tab or a space.
fn is_blank(c: char) -> bool
    ensures { result ≡ is_horizontal_whitespace c }
{
    c == '\t' || c == ' '
}

/// Returns the text after its longest prefix of characters that pass the test.
#[tactic(auto, using(crate::specs::laws::Frontmatter::skip_on, crate::specs::laws::Frontmatter::skip_ends, crate::proofs::FrontmatterLemmas::skip_all, std::proofs::lemmas::Grind::common_steps))]
fn skip<F: Fn(char) -> bool>(text: &str, test: F) -> &str
    requires callable { F.IsAlwaysCallable test }
    ensures { (class : ℕ → Bool) → ((c : ℕ) (b : Bool) → F.post test c b → b ≡ class c)
        → chars result.now ≡ model.past_run class (chars text.now) }
{
    let mut left = text;
    'chars: while let Some((c, rest)) = split_first(left) {
        if !test(c) {
            return left;
        }
        left = rest;
    }
    left
}

/// Returns whether a text starts with a CRLF.
fn begins_crlf(text: &str) -> bool
    ensures { result ≡ begins (codes "\r\n") (chars text.now) }
{
    match split_first(text) {
        Some(('\r', rest)) => matches!(split_first(rest), Some(('\n', _))),
        _ => false,
    }
}
