//! Classes of tokens, such as comments and keywords. They decide the colours.
ghost use Rattle.std.specs.Prelude.{◌≡◌};
ghost use Rattle.rustc_lexer_highlight.specs.Class.{class_number, class_of, is_type_name, word_class};

use crate::keyword::is_strict;
use rustc_lexer::{Edition, LiteralKind, TokenKind};

/// The class of a token: what it is to a reader.
///
/// [`class_of`] never returns `Escape`, the class of an escape inside a literal.
#[derive(Clone, Copy, Debug, PartialEq, Eq)]
#[non_exhaustive]
pub enum Class {
    /// Whitespace, a symbol, or a name in no other class.
    Plain,
    /// A comment that is not a doc comment.
    Comment,
    /// A doc comment, or a frontmatter.
    Doc,
    /// A strict keyword of the edition, such as `while`. A reserved word such as `try` and a weak keyword such as
    /// `union` are names.
    Keyword,
    /// A name that starts with an ASCII uppercase letter.
    TypeName,
    /// A string, character or byte literal.
    Text,
    /// An escape in such a literal.
    Escape,
    /// A number.
    Number,
    /// A lifetime or a label.
    Lifetime,
}

impl Class {
    /// Returns the number of the class in the C ABI, from 1 on. It never changes.
    pub fn number(self) -> u8
        ensures { result ≡ class_number self }
    {
        self as u8 + 1
    }
}

/// Returns the class of a token in an edition, by its kind and its text.
///
/// The class is what the token is to a reader. `highlight` displays it as a colour.
///
/// # Examples
///
/// ```
/// use rustc_lexer_highlight::{Class, Edition, class_of};
/// use rustc_lexer::TokenKind;
///
/// assert_eq!(class_of(TokenKind::Ident, "async", Edition::E2018), Class::Keyword);
/// assert_eq!(class_of(TokenKind::Ident, "async", Edition::E2015), Class::Plain);
/// assert_eq!(class_of(TokenKind::Ident, "Vec", Edition::E2024), Class::TypeName);
/// assert_eq!(class_of(TokenKind::RawIdent, "r#while", Edition::E2024), Class::Plain);
/// ```
pub fn class_of(kind: TokenKind, text: &str, edition: Edition) -> Class
    ensures { result ≡ class_of kind text.now edition }
{
    match kind {
        TokenKind::LineComment { doc_style: None }
        | TokenKind::BlockComment {
            doc_style: None,
            ..
        } => Class::Comment,
        TokenKind::LineComment { .. }
        | TokenKind::BlockComment { .. }
        | TokenKind::Frontmatter { .. } => Class::Doc,
        TokenKind::Ident => word_class(text, edition),
        TokenKind::Literal { kind, .. } => match kind {
            LiteralKind::Int { .. } | LiteralKind::Float { .. } => Class::Number,
            _ => Class::Text,
        },
        TokenKind::Lifetime { .. } | TokenKind::RawLifetime | TokenKind::UnknownPrefixLifetime =>
            Class::Lifetime,
        _ => Class::Plain,
    }
}

/// Returns the class of an identifier or a keyword.
fn word_class(word: &str, edition: Edition) -> Class
    ensures { result ≡ word_class word.now edition }
{
    if is_strict(word, edition) {
        Class::Keyword
    } else if is_type_name(word) {
        Class::TypeName
    } else {
        Class::Plain
    }
}

/// Returns whether a name starts with an ASCII uppercase letter, like the names of types.
fn is_type_name(word: &str) -> bool
    ensures { result ≡ is_type_name word.now }
{
    word.as_bytes().first().is_some_and(u8::is_ascii_uppercase)
}
