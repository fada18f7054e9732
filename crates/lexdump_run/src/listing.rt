//! The listing: one line per token, with its start, its length, its kind and the kind's fields.
ghost use Rattle.std.specs.Prelude.{◌≡◌, ◌+◌, ◌^◌, ◌<◌, Ok, false, true, is_err, length, IfErr, IfOk, OnErr, OnOk};
ghost use Rattle.std.specs.Io.KnownBytes.{Appends};
ghost use Rattle.lexdump_run.specs.Known.{AppendsFront};
ghost use Rattle.lexdump_run.specs.Listing.{base_text, bool_text, field, fields_text, hashes_text, line_text, listing, listing_from, literal_fields, literal_text, place_text, shebang_line, style_text};
ghost use Rattle.lexdump_run.specs.Pushed.{Pushes};
ghost use Rattle.lexdump_run.specs.Fault.{stop_fault};
ghost use Rattle.lexdump_run.specs.Outcome.{IsRefused};
ghost use Rattle.rustc_lexer.specs.Classes.{Fits};
ghost use Rattle.rustc_lexer.specs.Edits.{apply_list, AreEdits};
ghost use Rattle.rustc_lexer.specs.LanguageText.{mode_in, part};
ghost use Rattle.rustc_lexer.specs.Answers.{shebang};
ghost use Rattle.rustc_lexer.specs.Tokens.{bound, tokens_of};

use crate::fault::Fault;
use crate::output::BlockWriter;
use crate::watched::Watched;
use itoa::{Buffer, write_digits};
use rustc_lexer::{
    Base, DocStyle, Edit, EditStop, Edition, FrontmatterAllowed, LexedText, LiteralKind, Stepper,
    Steps, Token, TokenKind, strip_shebang, tokenize_as,
};
use std::alloc::Global;
use std::io::Write;

/// The number of tokens that are lexed at once.
const BUFFER_LEN: usize = 256;

/// Writes the lines of tokens that start at offset `start`, in bytes, and flushes.
///
/// # Errors
///
/// Returns `Fault::Write` if a write or the flush failed. A prefix of the lines has then been written.
pub fn write_listing<W: Write>(
    output: &mut Watched<W>,
    start: u32,
    tokens: &[Token],
) -> Result<(), Fault>
    requires writes { output.old.failed ≡ false }
    requires fits { start + bound tokens.now (length tokens.now) < 2 ^ 32 }
    ensures write { IfErr result (λ fault. fault ≡ Fault.Write) }
    ensures failed { output.new.failed ≡ is_err result }
    ensures flushed { IfOk result (λ _. output.new.flushed ≡ true) }
    ensures whole { OnOk result (Appends (W.contents output.old.inner)
        (W.contents output.new.inner) (listing_from start tokens.now)) }
    ensures front { OnErr result (AppendsFront (W.contents output.old.inner)
        (W.contents output.new.inner) (listing_from start tokens.now)) }
{
    let mut lines = BlockWriter::new(output);
    push_lines(&mut lines, start, tokens)?;
    lines.finish()
}

/// Lists the tokens of a text of at most `u32::MAX` bytes in an edition.
#[tactic(auto, using(crate::proofs::PushLemmas::pushing, crate::proofs::ListingLemmas::none_left, crate::proofs::ListingLemmas::buffer_fits))]
pub fn list_tokens<W: Write>(
    lines: &mut BlockWriter<'_, W>,
    text: &str,
    frontmatter_allowed: FrontmatterAllowed,
    edition: Edition,
) -> Result<(), Fault>
    requires { Fits text.now }
    ensures { Pushes W.contents lines.old lines.new
        (listing (tokens_of (mode_in frontmatter_allowed edition) text.now)) result }
{
    let mut buffer = [Token {
        kind: TokenKind::Eof,
        len: 0,
    }; BUFFER_LEN];
    let mut tokens = tokenize_as(text, frontmatter_allowed, edition);
    'left: while !tokens.as_str().is_empty() {
        let start = text.len() - tokens.as_str().len();
        let count = tokens.fill(&mut buffer);
        push_lines(lines, start as u32, &buffer[..count])?;
    }
    Ok(())
}

/// Adds the lines of tokens that start at offset `start`, in bytes.
#[tactic(auto, using(crate::proofs::PushLemmas::pushing))]
fn push_lines<W: Write>(
    lines: &mut BlockWriter<'_, W>,
    start: u32,
    tokens: &[Token],
) -> Result<(), Fault>
    requires { start + bound tokens.now (length tokens.now) < 2 ^ 32 }
    ensures { Pushes W.contents lines.old lines.new (listing_from start tokens.now) result }
{
    let mut place = start;
    for token in tokens {
        push_line(lines, place, *token)?;
        place += token.len;
    }
    Ok(())
}

/// Prints the length of the shebang line of a text.
#[tactic(auto, using(crate::proofs::PushLemmas::pushes))]
pub fn push_shebang<W: Write>(lines: &mut BlockWriter<'_, W>, text: &str) -> Result<(), Fault>
    requires { Fits text.now }
    ensures { Pushes W.contents lines.old lines.new (shebang_line (shebang text.now)) result }
{
    match strip_shebang(text) {
        Some(length) => {
            lines.push_number(length)?;
            lines.push("\n")
        }
        None => lines.push("none\n"),
    }
}

/// Returns the text after the edits, with its tokens in an edition.
pub fn edited(
    alloc: Global,
    text: &str,
    edition: Edition,
    edits: &[Edit<'_>],
) -> Result<LexedText<Steps>, Fault>
    requires { Fits text.now }
    ensures ok { IfOk result (λ lexed. AreEdits text.now edits.now
        × (lexed.tokens ≡ tokens_of (part edition) (apply_list text.now edits.now))) }
    ensures err { IfErr result (IsRefused text.now edits.now) }
{
    let mut lexed = LexedText::new_in(alloc, text, edition)?;
    match lexed.edit_all(edits) {
        Ok(()) => Ok(lexed),
        Err(stop) => Err(stop_fault(stop)),
    }
}

/// Returns the fault for a list of edits that stopped.
fn stop_fault(stop: EditStop) -> Fault
    ensures { result ≡ stop_fault stop }
{
    match stop {
        EditStop::Range { at } => Fault::EditRange { at },
        EditStop::TooLong { at } => Fault::EditTooLong { at },
        _ => Fault::Memory,
    }
}

/// Lists the tokens of a lexed text.
#[tactic(auto, using(crate::proofs::PushLemmas::pushing, crate::proofs::ListingLemmas::listing_lemmas))]
pub fn list_pieces<W: Write, S: Stepper>(
    lines: &mut BlockWriter<'_, W>,
    lexed: &LexedText<S>,
) -> Result<(), Fault>
    ensures { Pushes W.contents lines.old lines.new (listing lexed.now.tokens) result }
{
    for piece in lexed.pieces() {
        push_line(lines, piece.start, piece.token)?;
    }
    Ok(())
}

/// Adds the line of a token that starts at offset `start`, in bytes.
fn push_line<W: Write>(
    lines: &mut BlockWriter<'_, W>,
    start: u32,
    token: Token,
) -> Result<(), Fault>
    ensures { Pushes W.contents lines.old lines.new (line_text start token) result }
{
    push_place(lines, start, token.len)?;
    lines.push(token.kind.name())?;
    push_fields(lines, token.kind)?;
    lines.push("\n")
}

/// The maximum number of bytes of a start and a length, with a space after each.
const PLACE: usize = 22;

/// Adds the start and the length of a token, each with a space after it.
#[tactic(auto, using(crate::proofs::PlaceLemmas::short, std::proofs::lemmas::Grind::common_steps))]
fn push_place<W: Write>(lines: &mut BlockWriter<'_, W>, start: u32, len: u32) -> Result<(), Fault>
    ensures { Pushes W.contents lines.old lines.new (place_text start len) result }
{
    // Digits are written from the last to the first.
    let mut place = [b' '; PLACE];
    let len_at = write_digits(u64::from(len), &mut place, PLACE - 1);
    let start_at = write_digits(u64::from(start), &mut place, len_at - 1);
    lines.push_bytes(&place[start_at..])
}

/// Adds the fields of a kind.
#[tactic(auto, using(crate::proofs::PushLemmas::pushes), unfolding(crate::specs::Listing::fields_text))]
fn push_fields<W: Write>(lines: &mut BlockWriter<'_, W>, kind: TokenKind) -> Result<(), Fault>
    ensures { Pushes W.contents lines.old lines.new (fields_text kind) result }
{
    match kind {
        TokenKind::LineComment { doc_style } => {
            push_field(lines, "doc_style", style_name(doc_style))
        }
        TokenKind::BlockComment {
            doc_style,
            terminated,
        } => {
            push_field(lines, "doc_style", style_name(doc_style))?;
            push_field(lines, "terminated", flag_name(terminated))
        }
        TokenKind::Frontmatter {
            has_invalid_preceding_whitespace,
            invalid_infostring,
        } => {
            push_field(
                lines,
                "has_invalid_preceding_whitespace",
                flag_name(has_invalid_preceding_whitespace),
            )?;
            push_field(lines, "invalid_infostring", flag_name(invalid_infostring))
        }
        TokenKind::Literal { kind, suffix_start } => {
            push_literal(lines, kind)?;
            let mut buffer = Buffer::new();
            push_field(lines, "suffix_start", buffer.format(suffix_start as usize))
        }
        TokenKind::Lifetime { starts_with_number } => push_field(
            lines,
            "starts_with_number",
            flag_name(starts_with_number),
        ),
        _ => Ok(()),
    }
}

/// Adds the kind of a literal and its fields.
#[tactic(auto, using(crate::proofs::PushLemmas::pushes))]
fn push_literal<W: Write>(lines: &mut BlockWriter<'_, W>, kind: LiteralKind) -> Result<(), Fault>
    ensures { Pushes W.contents lines.old lines.new (literal_text kind) result }
{
    push_field(lines, "kind", kind.name())?;
    push_literal_fields(lines, kind)
}

/// Adds the fields of the kind of a literal.
#[tactic(auto, using(crate::proofs::PushLemmas::pushes), unfolding(crate::specs::Listing::literal_fields))]
fn push_literal_fields<W: Write>(
    lines: &mut BlockWriter<'_, W>,
    kind: LiteralKind,
) -> Result<(), Fault>
    ensures { Pushes W.contents lines.old lines.new (literal_fields kind) result }
{
    match kind {
        LiteralKind::Int { base, empty_int } => {
            push_field(lines, "base", base_name(base))?;
            push_field(lines, "empty_int", flag_name(empty_int))
        }
        LiteralKind::Float {
            base,
            empty_exponent,
        } => {
            push_field(lines, "base", base_name(base))?;
            push_field(lines, "empty_exponent", flag_name(empty_exponent))
        }
        LiteralKind::Char { terminated }
        | LiteralKind::Byte { terminated }
        | LiteralKind::Str { terminated }
        | LiteralKind::ByteStr { terminated }
        | LiteralKind::CStr { terminated } => {
            push_field(lines, "terminated", flag_name(terminated))
        }
        LiteralKind::RawStr { n_hashes }
        | LiteralKind::RawByteStr { n_hashes }
        | LiteralKind::RawCStr { n_hashes } => {
            let mut buffer = Buffer::new();
            push_field(lines, "n_hashes", hashes_name(&mut buffer, n_hashes))
        }
    }
}

/// Adds a field: a space, its name, an equals sign and its value.
#[tactic(auto, using(crate::proofs::PushLemmas::push_lemmas), unfolding(crate::specs::Listing::field))]
fn push_field<W: Write>(
    lines: &mut BlockWriter<'_, W>,
    name: &str,
    value: &str,
) -> Result<(), Fault>
    ensures { Pushes W.contents lines.old lines.new (field name.now value.now) result }
{
    lines.push_all(&[" ", name, "=", value])
}

/// Returns `true` or `false`.
fn flag_name(flag: bool) -> &'static str
    ensures { result.now ≡ bool_text flag }
{
    if flag { "true" } else { "false" }
}

/// Returns the number of hashes of a raw string, or `none`.
fn hashes_name(buffer: &mut Buffer, n_hashes: Option<u8>) -> &str
    ensures { result.now ≡ hashes_text n_hashes }
{
    match n_hashes {
        None => "none",
        Some(n) => buffer.format(usize::from(n)),
    }
}

/// Returns the style of a doc comment, or `none`.
fn style_name(style: Option<DocStyle>) -> &'static str
    ensures { result.now ≡ style_text style }
{
    match style {
        None => "none",
        Some(DocStyle::Outer) => "outer",
        Some(DocStyle::Inner) => "inner",
    }
}

/// Returns the base of a number, in decimal.
fn base_name(base: Base) -> &'static str
    ensures { result.now ≡ base_text base }
{
    match base {
        Base::Binary => "2",
        Base::Octal => "8",
        Base::Decimal => "10",
        Base::Hexadecimal => "16",
    }
}
