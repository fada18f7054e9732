//! Writes texts and bytes as the contents of string literals.
ghost use Rattle.std.specs.Prelude.{◌≡◌, ◌↔◌, ◌++◌, Contains, IsErrOf, OnErr, OnOk, map};
ghost use Rattle.std.specs.Char.Escape.{escape_ascii, escape_default};
ghost use Rattle.std.specs.Str.{chars};
ghost use Rattle.std.specs.String.{string_bytes};
ghost use Rattle.rustc_literal_escaper.specs.Meaning.{byte_of, char_of, unit_of, unit_of_byte};
ghost use Rattle.rustc_literal_escaper.specs.Written.{Grows, StandsFor, written_bytes, written_text};

use crate::scan::split_first;
use std::alloc::AllocError;

/// The error of [`escape_c_str`].
#[derive(Clone, Copy, Debug, PartialEq, Eq)]
pub enum EscapeCStrError {
    /// A byte is 0, which no C string contains.
    Nul,
    /// An allocation failed.
    Memory,
}

impl From<AllocError> for EscapeCStrError {
    ghost use Rattle.rustc_literal_escaper.specs.declared.written.EscapeCStrError.TheVariants.{Memory};

    ghost from_gives = { λ _ error. error ≡ Memory };

    fn from(_error: AllocError) -> EscapeCStrError {
        EscapeCStrError::Memory
    }
}

/// Appends `text` to `out` as the contents of a string literal.
///
/// Each character is escaped by `char::escape_default`, so the output is ASCII. [`unescape_str`] reads the characters
/// of `text` back from it.
///
/// # Errors
///
/// Returns `AllocError` if an allocation fails. Then `out` is unchanged.
///
/// # Examples
///
/// ```ignore
/// escape_str("a\"é\n", &mut out)? // appends a\"\u{e9}\n, of eleven bytes
/// ```
///
/// [`unescape_str`]: crate::unescape_str
#[tactic(auto, using(crate::proofs::WrittenLemmas::boundary, crate::proofs::WrittenLemmas::written_lemmas))]
pub fn escape_str(text: &str, out: &mut String) -> Result<(), AllocError>
    ensures written { OnOk result
        (string_bytes out.new ≡ string_bytes out.old ++ written_text text.now) }
    ensures refused { OnErr result (string_bytes out.new ≡ string_bytes out.old) }
    ensures comes_back { StandsFor char_of (written_text text.now) (chars text.now) }
{
    let start = out.len();
    let pushed = push_text(text, out);
    if pushed.is_err() {
        out.truncate(start);
    }
    pushed
}

/// Appends `bytes` to `out` as the contents of a byte string literal.
///
/// Each byte is escaped by `u8::escape_ascii`, so the output is ASCII. [`unescape_byte_str`] reads the bytes back from
/// it.
///
/// # Errors
///
/// Returns `AllocError` if an allocation fails. Then `out` is unchanged.
///
/// [`unescape_byte_str`]: crate::unescape_byte_str
#[tactic(auto, using(crate::proofs::WrittenLemmas::boundary, crate::proofs::WrittenLemmas::written_lemmas))]
pub fn escape_byte_str(bytes: &[u8], out: &mut String) -> Result<(), AllocError>
    ensures written { OnOk result
        (string_bytes out.new ≡ string_bytes out.old ++ written_bytes bytes.now) }
    ensures refused { OnErr result (string_bytes out.new ≡ string_bytes out.old) }
    ensures comes_back { StandsFor byte_of (written_bytes bytes.now) bytes.now }
{
    let start = out.len();
    let pushed = push_bytes(bytes, out);
    if pushed.is_err() {
        out.truncate(start);
    }
    pushed
}

/// Appends `bytes` to `out` as the contents of a C string literal.
///
/// `bytes` does not include the NUL at the end. They are escaped like in [`escape_byte_str`]. [`unescape_c_str`] reads
/// them back: a byte below 128 as a character, any other as `HighByte`.
///
/// # Errors
///
/// Returns `Nul` if a byte is 0, and `Memory` if an allocation fails. Then `out` is unchanged.
///
/// [`unescape_c_str`]: crate::unescape_c_str
#[tactic(auto, using(crate::proofs::WrittenLemmas::written_lemmas))]
pub fn escape_c_str(bytes: &[u8], out: &mut String) -> Result<(), EscapeCStrError>
    ensures written { OnOk result
        (string_bytes out.new ≡ string_bytes out.old ++ written_bytes bytes.now) }
    ensures nul { IsErrOf result EscapeCStrError.Nul ↔ Contains bytes.now 0 }
    ensures refused { OnErr result (string_bytes out.new ≡ string_bytes out.old) }
    ensures comes_back { OnOk result
        (StandsFor unit_of (written_bytes bytes.now) (map unit_of_byte bytes.now)) }
{
    if bytes.contains(&0) {
        return Err(EscapeCStrError::Nul);
    }
    escape_byte_str(bytes, out)?;
    Ok(())
}

/// Appends the characters of a text.
fn push_text(text: &str, out: &mut String) -> Result<(), AllocError>
    ensures written { OnOk result
        (string_bytes out.new ≡ string_bytes out.old ++ written_text text.now) }
    ensures refused { OnErr result (Grows (string_bytes out.old) (string_bytes out.new)) }
{
    let mut left = text;
    'chars: while let Some((c, tail)) = split_first(left) {
        push_char(c, out)?;
        left = tail;
    }
    Ok(())
}

/// Appends one character of a text.
#[tactic(auto, using(crate::proofs::WrittenLemmas::written_lemmas, std::proofs::lemmas::Grind::common_steps))]
fn push_char(c: char, out: &mut String) -> Result<(), AllocError>
    ensures written { OnOk result
        (string_bytes out.new ≡ string_bytes out.old ++ escape_default c) }
    ensures refused { OnErr result (Grows (string_bytes out.old) (string_bytes out.new)) }
{
    for part in c.escape_default() {
        out.push(part)?;
    }
    Ok(())
}

/// Appends bytes.
fn push_bytes(bytes: &[u8], out: &mut String) -> Result<(), AllocError>
    ensures written { OnOk result
        (string_bytes out.new ≡ string_bytes out.old ++ written_bytes bytes.now) }
    ensures refused { OnErr result (Grows (string_bytes out.old) (string_bytes out.new)) }
{
    for byte in bytes {
        push_byte(*byte, out)?;
    }
    Ok(())
}

/// Appends one byte.
fn push_byte(byte: u8, out: &mut String) -> Result<(), AllocError>
    ensures written { OnOk result
        (string_bytes out.new ≡ string_bytes out.old ++ escape_ascii byte) }
    ensures refused { OnErr result (Grows (string_bytes out.old) (string_bytes out.new)) }
{
    for part in byte.escape_ascii() {
        out.push(part as char)?;
    }
    Ok(())
}
