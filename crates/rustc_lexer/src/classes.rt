//! Classes of characters.
ghost use Rattle.std.specs.Prelude.{◌≡◌, ◌↔◌, IsTrue};
ghost use Rattle.rustc_lexer.specs.Classes;

pub(crate) mod emoji;

/// The Unicode version of the proved tables that decide which characters start or continue an identifier.
///
/// The table of emoji has Unicode version 15. No result depends on this constant.
pub const UNICODE_VERSION: (u8, u8, u8) = (18, 0, 0);

/// Returns whether the character is whitespace in Rust: one of the eleven characters of `Pattern_White_Space`, to which
/// no version of Unicode adds any.
///
/// Rust Reference: [whitespace](https://doc.rust-lang.org/reference/whitespace.html).
#[inline]
pub fn is_whitespace(c: char) -> bool
    ensures { result ≡ Classes.is_whitespace c }
{
    matches!(
        c,
        '\t' | '\n'
            | '\u{b}'
            | '\u{c}'
            | '\r'
            | ' '
            | '\u{85}'
            | '\u{200e}'
            | '\u{200f}'
            | '\u{2028}'
            | '\u{2029}'
    )
}

/// Returns whether the character is horizontal whitespace: a tab or a space. The lines of the fences of a frontmatter
/// can contain no other whitespace.
///
/// Rust RFC 3503: [frontmatter](https://rust-lang.github.io/rfcs/3503-frontmatter.html).
#[inline]
pub fn is_horizontal_whitespace(c: char) -> bool
    ensures { result ≡ Classes.is_horizontal_whitespace c }
{
    matches!(c, '\t' | ' ')
}

/// Returns whether an identifier can start with the character: `_`, or a character with the property `XID_Start` in
/// `unicode_ident`.
///
/// The proved table is generated from `DerivedCoreProperties.txt` of Unicode 18.0.
///
/// Rust Reference: [identifiers](https://doc.rust-lang.org/reference/identifiers.html).
#[inline]
#[tactic(auto, using(crate::proofs::lemmas::tokens::ClassParts::start_lemmas, std::proofs::lemmas::Grind::common_steps))]
pub fn is_id_start(c: char) -> bool
    ensures { result ≡ Classes.is_id_start c }
{
    if c.is_ascii() {
        c.is_ascii_alphabetic() || c == '_'
    } else {
        unicode_ident::is_xid_start(c)
    }
}

/// Returns whether an identifier can continue with the character, which has the property `XID_Continue` in
/// `unicode_ident`.
///
/// The proved table is generated from `DerivedCoreProperties.txt` of Unicode 18.0.
///
/// Rust Reference: [identifiers](https://doc.rust-lang.org/reference/identifiers.html).
#[inline]
pub fn is_id_continue(c: char) -> bool
    ensures { result ≡ Classes.is_id_continue c }
{
    unicode_ident::is_xid_continue(c)
}

/// Returns whether the text has at most `u32::MAX` bytes, so that all lengths fit in a `u32`.
///
/// Every function that lexes a whole text requires it.
#[inline]
pub fn fits(text: &str) -> bool
    ensures { IsTrue result ↔ Classes.Fits text.now }
{
    text.len() <= u32::MAX as usize
}

/// Returns whether a word directly before the character is a prefix.
#[inline(always)]
pub(crate) fn ends_prefix(c: char) -> bool
    ensures { result ≡ Classes.ends_prefix c }
{
    matches!(c, '#' | '"' | '\'')
}
