//! The offsets of an applied edit.
ghost use Rattle.std.specs.Prelude.{◌↔◌, IsTrue};
ghost use Rattle.rustc_lexer.specs.Relexer.{IsChange};

/// An applied edit, by its offsets in bytes. It replaced `start..old_end` of the old text with `start..new_end` of
/// the current text.
#[derive(Clone, Copy, Debug, PartialEq, Eq)]
pub struct Change {
    /// The start of the change, in both texts.
    pub start: usize,
    /// The end of the removed bytes, in the old text.
    pub old_end: usize,
    /// The end of the inserted bytes, in the current text.
    pub new_end: usize,
}

impl Change {
    /// Returns whether the change can have resulted in this text: the inserted range is inside the text and on
    /// character boundaries, the old offsets are in order, and `old_end` is below 2^32. The old text itself is not
    /// checked.
    pub fn is_valid_for(&self, text: &str) -> bool
        ensures { IsTrue result ↔ IsChange text.now self.now }
    {
        self.start <= self.old_end
            && self.old_end <= u32::MAX as usize
            && self.start <= self.new_end
            && text.is_char_boundary(self.start)
            && text.is_char_boundary(self.new_end)
    }
}
