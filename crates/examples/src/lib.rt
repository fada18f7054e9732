//! Proved callers of `rustc_lexer`, which its documentation quotes.
#![tactic(auto)]

pub mod comments;
pub mod counting;
pub mod joining;
pub mod repaint;
