//! Character classes. C passes a character as its code point.
ghost use Rattle.std.specs.Prelude.{◌≡◌, false};
ghost use Rattle.std.specs.Char.{IsScalar};
ghost use Rattle.std.specs.Str.{IsUtf8, chars};
ghost use Rattle.rustc_lexer.specs.Classes;
ghost use Rattle.rustc_lexer_c.specs.Status.{OK, Writes};
ghost use Rattle.rustc_lexer_c.specs.Numbers.{bool_number};

use crate::status::{done, text_of, validate};
use rustc_lexer::{is_horizontal_whitespace, is_id_continue, is_id_start, is_ident, is_whitespace};

/// Returns whether the character is whitespace in Rust. Returns false for a number that is not a character.
#[unsafe(no_mangle)]
pub extern "C" fn rustc_lexer_is_whitespace(code: u32) -> bool
    ensures class { IsScalar code → result ≡ Classes.is_whitespace code }
    ensures none { ¬ (IsScalar code) → result ≡ false }
{
    matches!(char::from_u32(code), Some(c) if is_whitespace(c))
}

/// Returns whether the character is a tab or a space. Returns false for a number that is not a character.
#[unsafe(no_mangle)]
pub extern "C" fn rustc_lexer_is_horizontal_whitespace(code: u32) -> bool
    ensures class { IsScalar code → result ≡ Classes.is_horizontal_whitespace code }
    ensures none { ¬ (IsScalar code) → result ≡ false }
{
    matches!(char::from_u32(code), Some(c) if is_horizontal_whitespace(c))
}

/// Returns whether an identifier can start with the character. Returns false for a number that is not a character.
#[unsafe(no_mangle)]
pub extern "C" fn rustc_lexer_is_id_start(code: u32) -> bool
    ensures class { IsScalar code → result ≡ Classes.is_id_start code }
    ensures none { ¬ (IsScalar code) → result ≡ false }
{
    matches!(char::from_u32(code), Some(c) if is_id_start(c))
}

/// Returns whether an identifier can continue with the character. Returns false for a number that is not a character.
#[unsafe(no_mangle)]
pub extern "C" fn rustc_lexer_is_id_continue(code: u32) -> bool
    ensures class { IsScalar code → result ≡ Classes.is_id_continue code }
    ensures none { ¬ (IsScalar code) → result ≡ false }
{
    matches!(char::from_u32(code), Some(c) if is_id_continue(c))
}

/// Writes whether the text is an identifier.
#[unsafe(no_mangle)]
pub extern "C" fn rustc_lexer_is_ident(text: &[u8], is: &mut u32) -> u32
    ensures { Writes text.now (Unit {0}) OK (bool_number (Classes.is_ident (chars text.now))) 0
        is.new result }
{
    let text = validate!(text_of(text), 0, is);
    done(u32::from(is_ident(text)), is)
}

/// Returns whether the text is an identifier. The text can have any length, and must be UTF-8.
#[unsafe(no_mangle)]
pub extern "C" fn rustc_lexer_is_ident_unchecked(text: &[u8]) -> bool
    requires utf8 { IsUtf8 text.now }
    ensures { result ≡ Classes.is_ident (chars text.now) }
{
    // The caller guarantees that the bytes are UTF-8.
    is_ident(unsafe { std::str::from_utf8_unchecked(text) })
}
