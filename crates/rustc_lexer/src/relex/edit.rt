//! An edit of a text: whether it is valid, and the text after it.
ghost use Rattle.std.specs.Prelude.{◌≡◌, ◌+◌, ◌-◌, ◌≤◌, ◌↔◌, IsTrue, length};
ghost use Rattle.std.specs.String.{string_bytes, string_capacity, string_len};
ghost use Rattle.rustc_lexer.specs.Edits.{IsEdit, IsInside, apply};

/// An edit of a text, which borrows the text that it inserts.
#[derive(Clone, Copy, Debug, PartialEq, Eq)]
pub struct Edit<'a> {
    /// The start of the replaced bytes, as an offset in bytes.
    pub start: usize,
    /// The end of the replaced bytes, as an offset in bytes.
    pub stop: usize,
    /// The text that replaces them.
    pub insert: &'a str,
}

/// Returns whether the range is inside the text and on character boundaries.
pub(crate) fn contains_range(text: &str, start: usize, stop: usize) -> bool
    ensures { IsTrue result ↔ IsInside text.now start stop }
{
    start <= stop
        && stop <= text.len()
        && text.is_char_boundary(start)
        && text.is_char_boundary(stop)
}

/// Returns whether an edit can be applied to the text: its range is inside the text and on character boundaries, and
/// the new text has at most `u32::MAX` bytes.
pub(crate) fn accepts(text: &str, start: usize, stop: usize, insert: &str) -> bool
    ensures { IsTrue result ↔ IsEdit text.now start stop insert.now }
{
    contains_range(text, start, stop)
        && text.len() - (stop - start) + insert.len() <= u32::MAX as usize
}

/// Replaces the bytes from `start` up to `stop` with `insert`. The text already has capacity for it.
#[tactic(auto, using(crate::proofs::lemmas::edits::FrontAndBack::put_is, std::proofs::lemmas::Grind::common_steps))]
pub(crate) fn apply_in_place(text: &mut String, start: usize, stop: usize, insert: &str)
    requires inside { IsInside (string_bytes text.old) start stop }
    requires room { string_len text.old + length insert.now ≤ string_capacity text.old }
    ensures text { string_bytes text.new ≡ apply (string_bytes text.old) start stop insert.now }
    ensures len { string_len text.new + (stop - start) ≡ string_len text.old + length insert.now }
    ensures capacity { string_capacity text.old ≤ string_capacity text.new }
{
    let put = text.replace_range(start..stop, insert);
    // There is room, so it does not allocate.
    prove!(put.is_ok());
}
