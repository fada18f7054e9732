//! A lexer for Rust source.
//!
//! A token is a kind and a length in bytes. Lexing never fails: a malformed token, such as an unterminated comment,
//! records its error in a field or has a kind of its own. Lexing does not allocate. Only [`LexedText`] and
//! [`LexedDocument`], which update the tokens of a text as it is edited, and [`JoinedText`] allocate memory.
#![tactic(auto)]

mod classes;
mod cursor;
mod edition;
mod entry;
mod frontmatter;
// It is visible in the whole crate, since the hand-written Rust uses its extents.
pub(crate) mod head;
mod kernels;
mod lexemes;
mod raw_check;
mod relex;
mod scan;
mod shebang;
mod token;

pub use classes::{
    UNICODE_VERSION, fits, is_horizontal_whitespace, is_id_continue, is_id_start, is_whitespace,
};
pub use cursor::Cursor;
pub use edition::{Edition, UnknownEdition};
pub use entry::{
    EditionTokens, FromToken, Stepper, Steps, Tokens, tokenize, tokenize_as, tokenize_document,
    tokenize_in,
};
pub use head::Head;
pub use lexemes::ident::is_ident;
pub use raw_check::{starts_raw, validate_raw_str};
pub use relex::{
    BodyChange, Change, Edit, EditSequenceError, EditStop, JoinError, JoinedText, Lexed,
    LexedDocument, LexedText, Piece, Pieces, RelexState, Relexed, Relexer, TextLen, TokenStart,
    find_token, is_token_boundary, settled, settled_in,
};
pub use shebang::{byte_order_mark_len, strip_shebang};
pub use token::{
    Base, DocStyle, FrontmatterAllowed, GuardedStr, LiteralKind, RawStrError, Token, TokenKind,
};
