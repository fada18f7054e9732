//! The test vectors. The tests in plain Rust read these files too, so they use only types of the lexer and other
//! tables.
pub(crate) mod all;
pub(crate) mod comments;
pub(crate) mod documents;
pub(crate) mod editions;
pub(crate) mod edits;
pub(crate) mod first_path;
pub(crate) mod frontmatter;
pub(crate) mod guarded;
pub(crate) mod hostile;
pub(crate) mod idents;
pub(crate) mod kinds;
pub(crate) mod numbers;
pub(crate) mod original;
pub(crate) mod quotes;
pub(crate) mod raw_strings;
pub(crate) mod row;
pub(crate) mod shebang;
