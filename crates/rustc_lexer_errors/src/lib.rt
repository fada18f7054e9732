//! The errors of malformed tokens, the errors in literals, and the contents of literals and doc comments.
#![tactic(auto)]

mod doc_comment;
mod errors;
mod escape_errors_in_file;
mod frontmatter;
mod line_ends;
mod literal;
mod text_error;

pub use doc_comment::doc_comment_contents;
pub use errors::{TokenError, token_error};
pub use escape_errors_in_file::EscapeErrorsInFile;
pub use literal::literal_contents;

// For `rustc_lexer_highlight`, which highlights escapes and errors in literals.
pub use escape_errors_in_file::{error_in_quotes, is_raw};
pub use line_ends::file_elements;
pub use literal::{between_quotes, mode_of};
