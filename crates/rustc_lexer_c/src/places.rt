//! Offsets in a text: the end of its shebang line, and the end of its final tokens.
ghost use Rattle.std.specs.Prelude.{◌≡◌};
ghost use Rattle.std.specs.Str.{IsUtf8};
ghost use Rattle.rustc_lexer.specs.Answers.{shebang};
ghost use Rattle.rustc_lexer_c.specs.Numbers.{some_or_zero};
ghost use Rattle.rustc_lexer_c.specs.Places.{TellsSettled};
ghost use Rattle.rustc_lexer_c.specs.Status.{OK, Writes};

use crate::status::{done, text_of, utf8_text_of, validate};
use rustc_lexer::{settled, strip_shebang};

/// Writes the length in bytes of the shebang line at the start of a text, without the line ending, or 0 if there is
/// none.
#[unsafe(no_mangle)]
pub extern "C" fn rustc_lexer_strip_shebang(text: &[u8], line_len: &mut usize) -> u32
    ensures { Writes text.now (Unit {0}) OK (some_or_zero (shebang text.now))
        0 line_len.new result }
{
    validate!(text_of(text), 0, line_len);
    rustc_lexer_strip_shebang_unchecked(text, line_len)
}

/// Like `rustc_lexer_strip_shebang`, but does not check that the text is UTF-8. `rustc_lexer_check` must have accepted
/// it.
#[unsafe(no_mangle)]
pub extern "C" fn rustc_lexer_strip_shebang_unchecked(text: &[u8], line_len: &mut usize) -> u32
    requires utf8 { IsUtf8 text.now }
    ensures { Writes text.now (Unit {0}) OK (some_or_zero (shebang text.now))
        0 line_len.new result }
{
    let text = validate!(utf8_text_of(text), 0, line_len);
    done(strip_shebang(text).unwrap_or(0), line_len)
}

/// Writes the byte offset up to which the tokens are final, whatever is appended. It is the end of the last token that
/// is followed by at least two characters, or 0 if there is none. No frontmatter is allowed.
#[unsafe(no_mangle)]
pub extern "C" fn rustc_lexer_settled(text: &[u8], end: &mut usize) -> u32
    ensures { TellsSettled text.now end.new result }
{
    validate!(text_of(text), 0, end);
    rustc_lexer_settled_unchecked(text, end)
}

/// Like `rustc_lexer_settled`, but does not check that the text is UTF-8. `rustc_lexer_check` must have accepted it.
#[unsafe(no_mangle)]
pub extern "C" fn rustc_lexer_settled_unchecked(text: &[u8], end: &mut usize) -> u32
    requires utf8 { IsUtf8 text.now }
    ensures { TellsSettled text.now end.new result }
{
    let text = validate!(utf8_text_of(text), 0, end);
    done(settled(text), end)
}
