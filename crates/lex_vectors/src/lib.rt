//! Tests of `rustc_lexer` and `examples`. They are a crate of their own, because a crate with tests is proved twice.
#![tactic(auto)]

#[cfg(test)]
mod callers;
#[cfg(test)]
mod cursors;
#[cfg(test)]
mod edits;
#[cfg(test)]
mod emoji;
#[cfg(test)]
mod joined;
#[cfg(test)]
mod rows;
#[cfg(test)]
mod runs;
pub mod steppers;
#[cfg(test)]
mod tables;
