//! Reads Rust literals: their values, escapes and errors.
//!
//! The lexer reads `"\q"` as one token. This crate reads the text between the quotes: it returns the value of a literal
//! unit by unit, and reports each error with its byte range, without allocating. It also does the reverse, and writes
//! texts and bytes as the contents of string literals.
#![tactic(auto)]

mod check;
mod element;
mod elements;
mod error;
mod escape;
mod escape_errors;
mod mode;
mod scan;
mod simple;
mod single;
mod strings;
mod text;
mod unit;
mod written;

pub use check::check_for_errors;
pub use element::Element;
pub use elements::Elements;
pub use error::EscapeError;
pub use escape_errors::EscapeErrors;
pub use mode::Mode;
pub use single::{unescape_byte, unescape_char};
pub use strings::{
    check_raw_byte_str, check_raw_c_str, check_raw_str, unescape_byte_str, unescape_c_str,
    unescape_str,
};
pub use unit::{MixedUnit, NonZeroChar, NonZeroU8};
pub use written::{EscapeCStrError, escape_byte_str, escape_c_str, escape_str};

// For `rustc_lexer_errors`, which reads literals with CRLF line endings.
pub use elements::ElementsOf;
pub use scan::split_first;
pub use single::single_error;
pub use text::Text;
