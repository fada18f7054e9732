//! Writes Rust source with its tokens highlighted: with HTML tags, with terminal colours, or only with messages about
//! malformed tokens.
#![tactic(auto)]

mod class;
mod escape;
mod format;
mod highlighted;
mod keyword;
mod literal;
mod part;
mod screen;

pub use class::{Class, class_of};
pub use format::Format;
pub use highlighted::{write_first_tokens, write_highlighted};
pub use keyword::{KeywordKind, keyword_kind};
