//! Writes text for a terminal, which would obey control characters.
ghost use Rattle.std.specs.Prelude.{◌≡◌, ◌∷◌, ◌++◌, ◌<◌, false, length, MatchOption, OnOk};
ghost use Rattle.std.specs.Fmt.{WritesInCalls};
ghost use Rattle.std.specs.List.{list_any};
ghost use Rattle.std.specs.Str.{IsUtf8, chars, encode_utf8_all};
ghost use Rattle.memchr.specs.Find.{IsFirstByte};
ghost use Rattle.rustc_lexer_highlight.specs.Screen.{is_replaceable, may_begin_replaceable, seen, seen_char};
ghost use Rattle.rustc_lexer_highlight.specs.Screen.{starts_with_newline, symbol};

use rustc_literal_escaper::split_first;
use std::fmt;

/// Writes a text with symbols in place of control characters other than tabs and line endings.
#[tactic(auto, using(crate::proofs::ScreenLemmas::writes_irreplaceable, std::proofs::lemmas::Grind::common_steps))]
pub fn write_seen<W: fmt::Write>(text: &str, output: &mut W) -> fmt::Result
    ensures { OnOk result (WritesInCalls W.write_str_gives output.old
        (encode_utf8_all (seen (chars text.now))) output.new) }
{
    let mut rest = text;
    while let Some((front, c, past)) = split_replaceable(rest) {
        output.write_str(front)?;
        output.write_char(seen_char(c, past))?;
        rest = past;
    }
    output.write_str(rest)
}

/// Splits a text at the first character that may be a control character other than a tab and a newline: returns the
/// text before it, the character and the text after it, or `None` if there is no such character.
#[inline(always)]
#[tactic(auto, using(crate::proofs::ScreenLemmas::may_cut, crate::proofs::ScreenLemmas::none_replaceable, std::proofs::lemmas::Grind::common_steps))]
fn split_replaceable(text: &str) -> Option<(&str, char, &str)>
    ensures { MatchOption result (list_any is_replaceable (chars text.now) ≡ false)
        (λ r. (list_any is_replaceable (chars r.0.now) ≡ false)
        × (chars text.now ≡ chars r.0.now ++ (r.1 ∷ chars r.2.now))
        × (length r.2.now < length text.now) × IsUtf8 r.0.now × IsUtf8 r.2.now) }
{
    let at = first_replaceable(text.as_bytes())?;
    let (c, past) = split_first(&text[at..])?;
    Some((&text[..at], c, past))
}

/// Returns the offset of the first byte that can start a control character other than a tab and a newline.
fn first_replaceable(text: &[u8]) -> Option<usize>
    ensures { IsFirstByte may_begin_replaceable text.now result }
{
    text.iter().position(|byte| may_begin_replaceable(*byte))
}

/// Returns whether a byte can start a control character other than a tab and a newline.
#[tactic(auto, using(std::proofs::lemmas::Bool::Decides::nat_tests, std::proofs::lemmas::Grind::common_steps))]
fn may_begin_replaceable(byte: u8) -> bool
    ensures { result ≡ may_begin_replaceable byte }
{
    // The first test decides for most bytes.
    (byte < b' ' || byte > b'~') && matches!(byte, 0..=8 | 11..=31 | 127 | 0xC2)
}

/// Returns a character as it is displayed, if `rest` follows it in its part: unchanged or as a symbol.
fn seen_char(c: char, rest: &str) -> char
    ensures { result ≡ seen_char c (chars rest.now) }
{
    match c {
        '\t' | '\n' => c,
        '\r' if starts_with_newline(rest) => c,
        _ if c.is_control() => symbol(c),
        _ => c,
    }
}

/// Returns whether a text starts with a newline.
fn starts_with_newline(text: &str) -> bool
    ensures { result ≡ starts_with_newline (chars text.now) }
{
    matches!(split_first(text), Some(('\n', _)))
}

/// Returns the symbol of a control character.
fn symbol(c: char) -> char
    ensures { result ≡ symbol c }
{
    match c as u32 {
        code if code < 32 => char::from_u32(0x2400 + code).unwrap_or(c),
        127 => '\u{2421}',
        _ => '\u{fffd}',
    }
}
