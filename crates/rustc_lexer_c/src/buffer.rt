//! Writes texts into a caller's buffer, from its start on.
ghost use Rattle.std.specs.Prelude.{◌≡◌, ◌↔◌, IsOk};
ghost use Rattle.rustc_lexer_c.specs.Buffer.{Appends, HasRoom};

use std::fmt;

/// A caller's buffer with the number of bytes that are written.
#[derive(Drop)]
pub(crate) struct Buffer<'a> {
    pub(crate) bytes: &'a mut [u8],
    pub(crate) len: usize,
}

impl<'a> Buffer<'a> {
    /// Creates an empty buffer.
    pub(crate) fn new(bytes: &'a mut [u8]) -> Buffer<'a>
        ensures same_reference { result.bytes.ghost_name ≡ bytes.entry.ghost_name }
        ensures value { result.bytes.now ≡ bytes.old }
        ensures none { result.len ≡ 0 }
    {
        Buffer { bytes, len: 0 }
    }
}

impl<'a> fmt::Write for Buffer<'a> {
    ghost write_str_gives = { Appends };

    /// Appends a text, or returns an error if there is not enough room for it.
    #[tactic(auto, using(crate::proofs::OutputLemmas::filled_within, crate::proofs::OutputLemmas::filled_front, crate::proofs::OutputLemmas::filled_rest, std::proofs::lemmas::Grind::common_steps))]
    fn write_str(&mut self, s: &str) -> fmt::Result
        ensures ok { IsOk result → Appends self.old s.now self.new }
        ensures buffer { IsOk result ↔ HasRoom self.old s.now }
    {
        let bytes = s.as_bytes();
        if self.len > self.bytes.len() || bytes.len() > self.bytes.len() - self.len {
            return Err(fmt::Error);
        }
        let end = self.len + bytes.len();
        self.bytes[self.len..end].copy_from_slice(bytes);
        self.len = end;
        Ok(())
    }
}
