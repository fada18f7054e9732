//! The errors of a list of edits.
ghost use Rattle.std.specs.Prelude.{Some};
ghost use Rattle.rustc_lexer.specs.Edits.{stop_text};

use crate::relex::counts::Relexed;
use std::error::Error;
use std::fmt;

/// Why a list of edits failed, and the index of the edit that failed.
///
/// [`edit_all`](crate::LexedText::edit_all) has applied the edits before it, and
/// [`edit_batch`](crate::LexedText::edit_batch) has applied none.
#[derive(Clone, Copy, Debug, PartialEq, Eq)]
pub enum EditStop {
    /// The range is out of bounds, not on character boundaries or, in a batch, starts before the previous edit ends.
    Range {
        /// The index of the edit in the list.
        at: usize,
    },

    /// The text would be longer than `u32::MAX` bytes.
    TooLong {
        /// The index of the edit in the list.
        at: usize,
    },

    /// An allocation failed.
    Memory {
        /// The index of the edit in the list.
        at: usize,
    },
}

/// Why a list of edits failed, and which tokens the edits before the failed one kept. Those edits have been applied.
///
/// ```ignore
/// let mut lexed = LexedText::new(alloc, "ab cd")?;
/// let edits = [Edit { start: 0, stop: 2, insert: "x" }, Edit { start: 9, stop: 9, insert: "" }];
/// let stopped = lexed.edit_sequence(&edits).unwrap_err();
/// assert_eq!(stopped.stop, EditStop::Range { at: 1 });
/// assert_eq!(stopped.relexed.kept_back, 2);
/// ```
#[derive(Clone, Copy, Debug, PartialEq, Eq)]
pub struct EditSequenceError {
    /// Which edit failed, and why.
    pub stop: EditStop,

    /// Which tokens all edits before it kept.
    pub relexed: Relexed,
}

impl fmt::Display for EditStop {
    ghost output = { λ stop. Some (stop_text stop) };

    fn fmt<W: fmt::Write>(&self, f: &mut fmt::Formatter<W>) -> fmt::Result {
        match self {
            EditStop::Range { at } => write!(f, "edit {at}: bad range"),
            EditStop::TooLong { at } => write!(f, "edit {at}: text too long"),
            EditStop::Memory { at } => write!(f, "edit {at}: no memory"),
        }
    }
}

impl Error for EditStop {}

impl fmt::Display for EditSequenceError {
    ghost output = { λ stopped. Some (stop_text stopped.stop) };

    fn fmt<W: fmt::Write>(&self, f: &mut fmt::Formatter<W>) -> fmt::Result {
        self.stop.fmt(f)
    }
}

impl Error for EditSequenceError {}
