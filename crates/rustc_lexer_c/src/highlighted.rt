//! Writes highlighted tokens of a text.
ghost use Rattle.std.specs.Prelude.{◌≡◌, ◌≢◌, Some, OnOk, take};
ghost use Rattle.rustc_lexer.specs.declared.edition.Edition.{Edition};
ghost use Rattle.rustc_lexer.specs.Classes.{Fits};
ghost use Rattle.rustc_lexer.specs.LanguageCalls.{edition_of_year};
ghost use Rattle.rustc_lexer.specs.LanguageText.{part};
ghost use Rattle.rustc_lexer.specs.Tokens.{tokens_of};
ghost use Rattle.rustc_lexer_highlight.specs.declared.format.Format.{Format};
ghost use Rattle.rustc_lexer_highlight.specs.Highlighted.{marked_tokens};
ghost use Rattle.rustc_lexer_c.specs.Highlighted as spec;
ghost use Rattle.rustc_lexer_c.specs.declared.status.Refusal.TheVariants.{SmallBuffer};
ghost use Rattle.rustc_lexer_c.specs.Status.{OK, refusal_number};

use crate::buffer::Buffer;
use crate::relex::edition_of;
use crate::status::{OK, Refusal, text_of, validate};
use rustc_lexer::Edition;
use rustc_lexer_highlight::{Format, write_first_tokens};
use std::fmt;

/// Writes the first `count` tokens of a text in an edition, or all tokens if there are fewer, to the start of the
/// buffer, highlighted in a format. Writes the number of bytes into `written`.
///
/// If the buffer is too small, `written` is 0, and the contents of the buffer are unspecified.
#[unsafe(no_mangle)]
pub extern "C" fn rustc_lexer_write_highlighted(
    text: &[u8],
    format: u32,
    edition: u32,
    count: usize,
    buffer: &mut [u8],
    written: &mut usize,
) -> u32
    ensures status { spec.IsMarksStatus text.now format edition result }
    ensures marks { result ≡ OK → (kind : Format) → spec.format_of format ≡ Some kind
        → (year : Edition) → edition_of_year edition ≡ Some year
        → spec.IsFront (marked_tokens kind year text.now (take count (tokens_of (part year) text.now)))
        buffer.old buffer.new written.new }
    ensures refused { result ≢ OK → written.new ≡ 0 }
    ensures same { result ≢ OK → result ≢ refusal_number SmallBuffer → buffer.new ≡ buffer.old }
{
    *written = 0;
    let text = validate!(text_of(text));
    let Some(edition) = edition_of(edition) else {
        return Refusal::InvalidEdition.number();
    };
    let Some(format) = format_of(format) else {
        return Refusal::InvalidFormat.number();
    };
    let mut output = Buffer::new(buffer);
    let Ok(()) = fill(format, edition, count, text, &mut output) else {
        return Refusal::SmallBuffer.number();
    };
    *written = output.len;
    OK
}

/// Returns the format with this number, or `None` if there is none.
fn format_of(number: u32) -> Option<Format>
    ensures { result ≡ spec.format_of number }
{
    match number {
        1 => Some(Format::Html),
        2 => Some(Format::Colours),
        3 => Some(Format::NoColours),
        _ => None,
    }
}

/// Writes the first `count` highlighted tokens into an empty buffer.
#[tactic(auto, using(crate::proofs::OutputLemmas::written_front, std::proofs::lemmas::Grind::common_steps))]
fn fill(
    format: Format,
    edition: Edition,
    count: usize,
    text: &str,
    output: &mut Buffer<'_>,
) -> fmt::Result
    requires fits { Fits text.now }
    requires none { output.old.len ≡ 0 }
    ensures { OnOk result ((output.new.bytes.ghost_name ≡ output.old.bytes.ghost_name)
        × spec.IsFront (marked_tokens format edition text.now
        (take count (tokens_of (part edition) text.now)))
        output.old.bytes.now output.new.bytes.now output.new.len) }
{
    write_first_tokens(format, edition, count, text, output)
}
