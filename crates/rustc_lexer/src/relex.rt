//! Incremental lexing: texts with their tokens, which edits update.
mod body_change;
mod boundary;
mod change;
mod checkpoints;
mod counts;
mod diff;
mod edit;
mod edit_error;
mod joined;
mod lex_all;
mod lexed;
mod pieces;
mod relexer;
mod replacement;
mod settle;

pub use body_change::BodyChange;
pub use boundary::{TextLen, TokenStart, find_token};
pub use change::Change;
pub use counts::Relexed;
pub use edit::Edit;
pub use edit_error::{EditSequenceError, EditStop};
pub use joined::{JoinError, JoinedText, is_token_boundary};
pub use lexed::{Lexed, LexedDocument, LexedText};
pub use pieces::{Piece, Pieces};
pub use relexer::{RelexState, Relexer};
pub use settle::{settled, settled_in};
