//! Escapes text for HTML.
ghost use Rattle.std.specs.Prelude.{◌≡◌, OnOk};
ghost use Rattle.std.specs.Fmt.{WritesInCalls};
ghost use Rattle.memchr.specs.Find.{IsFirstByte};
ghost use Rattle.rustc_lexer_highlight.specs.Escape.{entity, escaped, is_special, unescaped};

use std::fmt;

/// Writes a text with entities for `&`, `<` and `>`, for carriage returns, which HTML would read as line endings, and
/// for U+0000, which it would drop.
#[tactic(auto, using(crate::proofs::EscapeLemmas::unescaped_escaped, crate::proofs::EscapeLemmas::may_cut_past, crate::proofs::EscapeLemmas::writes_plain, crate::proofs::CallLemmas::on_ok, std::proofs::lemmas::Grind::common_steps))]
pub fn write_escaped<W: fmt::Write>(text: &str, output: &mut W) -> fmt::Result
    ensures written { OnOk result
        (WritesInCalls W.write_str_gives output.old (escaped text.now) output.new) }
    ensures undone { unescaped (escaped text.now) ≡ text.now }
{
    let mut rest = text;
    while let Some(at) = first_special(rest.as_bytes()) {
        output.write_str(&rest[..at])?;
        output.write_str(entity(rest.as_bytes()[at]))?;
        rest = &rest[at + 1..];
    }
    output.write_str(rest)
}

/// Returns the offset of the first byte that has an entity, or `None` if there is none.
fn first_special(text: &[u8]) -> Option<usize>
    ensures { IsFirstByte is_special text.now result }
{
    text.iter().position(|byte| is_special(*byte))
}

/// Returns whether a byte has an entity.
fn is_special(byte: u8) -> bool
    ensures { result ≡ is_special byte }
{
    matches!(byte, b'&' | b'<' | b'>' | b'\r' | 0)
}

/// Returns the entity of `&`, `<`, `>` or a carriage return, and the entity of U+0000 for any other byte.
pub fn entity(byte: u8) -> &'static str
    ensures { result.now ≡ entity byte }
{
    match byte {
        b'&' => "&amp;",
        b'<' => "&lt;",
        b'>' => "&gt;",
        b'\r' => "&#13;",
        _ => "&#0;",
    }
}
