//! The lexer for C, and for any language that can call C: a library over `rustc_lexer`, `rustc_literal_escaper`,
//! `rustc_lexer_errors` and `rustc_lexer_highlight`.
//!
//! A caller passes a text as a pointer and a length, and a buffer for the tokens. No function allocates memory. C
//! cannot guarantee UTF-8, so each function with a text checks it and returns a status; functions with `_unchecked` in
//! their name require UTF-8 instead. The header, `rustc_lexer.h`, documents all functions and types.
#![tactic(auto)]

pub mod abi;
pub mod batch;
pub mod boundary;
mod buffer;
pub mod classes;
pub mod errors;
pub mod escapes;
pub mod head;
pub mod highlighted;
pub mod offsets;
pub mod places;
pub mod raw_str;
pub mod relex;
pub mod splice;
pub mod status;
pub mod token;
