//! Converts tokens to numbers.
ghost use Rattle.std.specs.Prelude.{◌≡◌};
ghost use Rattle.rustc_lexer.specs.Kinds.{kind_entry};
ghost use Rattle.rustc_lexer_c.specs.Numbers as numbers;

use rustc_lexer::{DocStyle, FromToken, LiteralKind, Token, TokenKind};

/// A token as C sees it: its kind, the fields of the kind with one byte each, and its length. A byte without a field is
/// 0.
///
/// With `repr(u8)` enums that have the numbers of `specs/Numbers.antt`, a `Token` in Rust would have the same bytes.
#[repr(C)]
#[derive(Clone, Copy, Debug, PartialEq, Eq)]
pub struct CToken {
    /// The number of the kind.
    pub kind: u8,
    /// The first field of the kind. For a literal it is the number of the literal's kind.
    pub first: u8,
    /// The second field of the kind. For a literal it is the first field of the literal's kind.
    pub second: u8,
    /// For a literal, the second field of the literal's kind.
    pub third: u8,
    /// For a literal, the offset of its suffix, in bytes from the start of the token.
    pub suffix_start: u32,
    /// The length in bytes.
    pub len: u32,
}

/// Converts a token to numbers.
impl FromToken for CToken {
    ghost use Rattle.rustc_lexer_c.specs.Numbers.{token_numbers};

    ghost written = { token_numbers };

    #[inline(always)]
    fn from_token(token: Token) -> CToken {
        if token.kind.has_fields() {
            return token_numbers(token);
        }
        // Most tokens: no `match` of their kind is needed.
        bare(token.kind, token.len)
    }
}

/// Returns the token as numbers.
#[inline(always)]
#[tactic(auto, unfolding(crate::specs::Numbers::token_numbers, crate::specs::Numbers::first_of, crate::specs::Numbers::second_of, crate::specs::Numbers::third_of))]
pub(crate) fn token_numbers(token: Token) -> CToken
    ensures { result ≡ numbers.token_numbers token }
{
    let kind = token.kind;
    let len = token.len;
    match kind {
        TokenKind::LineComment { doc_style } => CToken {
            first: style_number(doc_style),
            ..bare(kind, len)
        },
        TokenKind::BlockComment {
            doc_style,
            terminated,
        } => CToken {
            first: style_number(doc_style),
            second: u8::from(terminated),
            ..bare(kind, len)
        },
        TokenKind::Frontmatter {
            has_invalid_preceding_whitespace,
            invalid_infostring,
        } => CToken {
            first: u8::from(has_invalid_preceding_whitespace),
            second: u8::from(invalid_infostring),
            ..bare(kind, len)
        },
        TokenKind::Literal {
            kind: literal,
            suffix_start,
        } => CToken {
            first: literal.number(),
            second: literal_second(literal),
            third: literal_third(literal),
            suffix_start,
            ..bare(kind, len)
        },
        TokenKind::Lifetime { starts_with_number } => CToken {
            first: u8::from(starts_with_number),
            ..bare(kind, len)
        },
        _ => bare(kind, len),
    }
}

/// Returns the numbers of a token without fields.
#[inline(always)]
fn bare(kind: TokenKind, len: u32) -> CToken
    ensures { result ≡ record {
      kind = (kind_entry kind).0;
      first = 0;
      second = 0;
      third = 0;
      suffix_start = 0;
      len = len;
    } }
{
    CToken {
        kind: kind.number(),
        first: 0,
        second: 0,
        third: 0,
        suffix_start: 0,
        len,
    }
}

/// Returns the number of a doc style.
#[inline(always)]
fn style_number(doc_style: Option<DocStyle>) -> u8
    ensures { result ≡ numbers.style_number doc_style }
{
    match doc_style {
        None => 0,
        Some(DocStyle::Outer) => 1,
        Some(DocStyle::Inner) => 2,
    }
}

/// Returns the first field of a kind of literal as a number.
#[inline(always)]
#[tactic(auto, unfolding(crate::specs::Numbers::literal_second))]
fn literal_second(kind: LiteralKind) -> u8
    ensures { result ≡ numbers.literal_second kind }
{
    match kind {
        LiteralKind::Int { base, .. } | LiteralKind::Float { base, .. } => base as u8,
        LiteralKind::Char { terminated }
        | LiteralKind::Byte { terminated }
        | LiteralKind::Str { terminated }
        | LiteralKind::ByteStr { terminated }
        | LiteralKind::CStr { terminated } => u8::from(terminated),
        LiteralKind::RawStr { n_hashes }
        | LiteralKind::RawByteStr { n_hashes }
        | LiteralKind::RawCStr { n_hashes } => u8::from(n_hashes.is_some()),
    }
}

/// Returns the second field of a kind of literal as a number, or the number of hashes, or 0.
#[inline(always)]
#[tactic(auto, unfolding(crate::specs::Numbers::literal_third))]
fn literal_third(kind: LiteralKind) -> u8
    ensures { result ≡ numbers.literal_third kind }
{
    match kind {
        LiteralKind::Int { empty_int, .. } => u8::from(empty_int),
        LiteralKind::Float { empty_exponent, .. } => u8::from(empty_exponent),
        LiteralKind::RawStr { n_hashes }
        | LiteralKind::RawByteStr { n_hashes }
        | LiteralKind::RawCStr { n_hashes } => n_hashes.unwrap_or(0),
        _ => 0,
    }
}
