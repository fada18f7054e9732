//! The entries of tables, and the macros that write them. A test case is a text with its tokens, for some calls.
use rustc_lexer::{Edition, FrontmatterAllowed, TokenKind};

/// An entry of a table. A table is one flat list, because nested lists are slow to prove.
#[derive(Clone, Copy)]
pub enum Entry<M> {
    /// A part of a text, and the number of its repetitions. The tokens listed before it end in each repetition.
    Fragment(&'static str, u32),
    /// A token of the text, by kind and length.
    Token((TokenKind, u32)),
    /// The end of the text, and its purpose.
    End(M),
}

/// A call that lexes a text.
#[derive(Clone, Copy)]
pub enum Way {
    /// `tokenize`.
    Newest(FrontmatterAllowed),
    /// `tokenize_in`.
    Fragment(Edition),
    /// `tokenize_as`, with a frontmatter allowed.
    Document(Edition),
}

impl Way {
    pub const ALL: [Way; 10] = [
        Way::Newest(FrontmatterAllowed::No),
        Way::Newest(FrontmatterAllowed::Yes),
        Way::Fragment(Edition::E2015),
        Way::Fragment(Edition::E2018),
        Way::Fragment(Edition::E2021),
        Way::Fragment(Edition::E2024),
        Way::Document(Edition::E2015),
        Way::Document(Edition::E2018),
        Way::Document(Edition::E2021),
        Way::Document(Edition::E2024),
    ];
}

/// The calls that return exactly the tokens of a test case.
#[derive(Clone, Copy)]
pub enum Ways {
    /// `tokenize`.
    Newest(FrontmatterAllowed),
    /// `tokenize_in` and `tokenize_as`, in the editions from the first to the last.
    Editions(Edition, Edition),
    /// `tokenize_as`, in the editions from the first to the last.
    Documents(Edition, Edition),
}

impl Ways {
    /// Returns whether this call is included.
    pub fn has(self, way: Way) -> bool {
        match (self, way) {
            (Ways::Newest(allowed), Way::Newest(other)) => allowed == other,
            (Ways::Editions(first, last), Way::Fragment(edition) | Way::Document(edition))
            | (Ways::Documents(first, last), Way::Document(edition)) => {
                first <= edition && edition <= last
            }
            _ => false,
        }
    }
}

/// The call for a text without a frontmatter.
pub const PLAIN: Ways = Ways::Newest(FrontmatterAllowed::No);

/// The call for a text that may start with a frontmatter.
pub const DOCUMENT: Ways = Ways::Newest(FrontmatterAllowed::Yes);

/// The test cases of a table: the calls, for all test cases or before each, and texts with their tokens. A text is a
/// literal or its name; or, in brackets, literals with the number of repetitions; or, in braces, the same with the
/// tokens that end in each repetition.
macro_rules! rows {
    ($($ways:ident: $({$($each:literal $(* $each_times:literal)? => [$($of_each:expr),*]),+})?
        $([$($part:literal $(* $times:literal)?),+])? $($text:literal)? $($name:ident)?
        => [$($token:expr),* $(,)?]),* $(,)?) => {
        &[$(
            $($($(Entry::Token($of_each),)* Entry::Fragment($each, 1 $(* $each_times)?),)+)?
            $($(Entry::Fragment($part, 1 $(* $times)?),)+)?
            $(Entry::Fragment($text, 1),)?
            $(Entry::Fragment($name, 1),)?
            $(Entry::Token($token),)*
            Entry::End($ways),
        )*]
    };
    ($ways:ident: $($text:tt => $tokens:tt),* $(,)?) => {
        rows!($($ways: $text => $tokens),*)
    };
}

/// A literal token: its kind, the start of its suffix, and its length, by default the same.
macro_rules! literal {
    ($kind:expr, $len:expr) => {
        $crate::tables::row::literal!($kind, $len, $len)
    };
    ($kind:expr, $suffix_start:expr, $len:expr) => {
        (
            rustc_lexer::TokenKind::Literal {
                kind: $kind,
                suffix_start: $suffix_start,
            },
            $len,
        )
    };
}

pub(crate) use literal;
pub(crate) use rows;
