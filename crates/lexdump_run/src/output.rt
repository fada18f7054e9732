//! Output in blocks: bytes are collected until a block is full, which is then written at once.
ghost use Rattle.std.specs.Prelude.{◌≡◌, ◌+◌, ◌≤◌, [], Ok, true, length, IfOk, OnErr, OnOk};
ghost use Rattle.std.specs.Fmt.{decimal};
ghost use Rattle.std.specs.List.{flat_map};

use crate::fault::Fault;
use crate::watched::Watched;
use crate::writing::{write_all, write_bytes};
use itoa::Buffer;
use std::io::Write;

/// The size of a block in bytes.
const BLOCK: usize = 65536;

/// A writer that holds back at most one block of bytes. They are stored in place, so nothing is allocated.
#[derive(Drop)]
pub struct BlockWriter<'a, W> {
    output: &'a mut Watched<W>,
    bytes: [u8; BLOCK],
    len: usize,
    ghost fits: { len ≤ 65536 },
}

impl<'a, W: Write> BlockWriter<'a, W> {
    ghost use Rattle.lexdump_run.specs.Pushed.{held, Pushes};

    /// Creates a writer that holds nothing.
    pub fn new(output: &'a mut Watched<W>) -> BlockWriter<'a, W>
        ensures same_output { result.output.ghost_name ≡ output.entry.ghost_name }
        ensures output { result.output.now ≡ output.old }
        ensures none { held result ≡ [] }
    {
        BlockWriter {
            output,
            bytes: [0; BLOCK],
            len: 0,
        }
    }

    /// Adds a text. If it does not fit, the block is written first.
    #[inline]
    pub fn push(&mut self, text: &str) -> Result<(), Fault>
        ensures { Pushes W.contents self.old self.new text.now result }
    {
        self.push_bytes(text.as_bytes())
    }

    /// Adds texts, one after another.
    #[tactic(auto, using(crate::proofs::PushLemmas::pushing))]
    pub fn push_all(&mut self, texts: &[&str]) -> Result<(), Fault>
        ensures { Pushes W.contents self.old self.new (flat_map (λ text. text.now) texts.now)
            result }
    {
        for text in texts {
            self.push(text)?;
        }
        Ok(())
    }

    /// Adds a number in decimal.
    pub fn push_number(&mut self, number: usize) -> Result<(), Fault>
        ensures { Pushes W.contents self.old self.new (decimal number) result }
    {
        self.push(Buffer::new().format(number))
    }

    /// Adds bytes. If they do not fit, the block is written first.
    #[inline]
    pub fn push_bytes(&mut self, bytes: &[u8]) -> Result<(), Fault>
        ensures { Pushes W.contents self.old self.new bytes.now result }
    {
        if bytes.len() > BLOCK - self.len {
            return self.push_past(bytes);
        }
        self.hold(bytes);
        Ok(())
    }

    /// Writes the block, then adds the bytes. If they are longer than a block, they are written directly.
    #[inline(never)]
    #[tactic(auto, using(crate::proofs::PushLemmas::pushes))]
    fn push_past(&mut self, bytes: &[u8]) -> Result<(), Fault>
        ensures { Pushes W.contents self.old self.new bytes.now result }
    {
        self.write_out()?;
        if bytes.len() > BLOCK {
            return write_bytes(self.output, bytes);
        }
        self.hold(bytes);
        Ok(())
    }

    /// Adds bytes that fit.
    #[inline(always)]
    fn hold(&mut self, bytes: &[u8])
        requires { self.old.len + length bytes.now ≤ 65536 }
        ensures { Pushes W.contents self.old self.new bytes.now (Ok tt) }
    {
        let end = self.len + bytes.len();
        self.bytes[self.len..end].copy_from_slice(bytes);
        self.len = end;
    }

    /// Writes the block and empties it. On an error the block is unchanged.
    fn write_out(&mut self) -> Result<(), Fault>
        ensures pushed { Pushes W.contents self.old self.new [] result }
        ensures empty { OnOk result (self.new.len ≡ 0) }
        ensures kept { OnErr result (held self.new ≡ held self.old) }
    {
        let held = &self.bytes[..self.len];
        write_bytes(self.output, held)?;
        self.len = 0;
        Ok(())
    }

    /// Writes the block, empties it and flushes. On an error the block is unchanged.
    pub fn finish(&mut self) -> Result<(), Fault>
        ensures pushed { Pushes W.contents self.old self.new [] result }
        ensures empty { OnOk result (held self.new ≡ []) }
        ensures kept { OnErr result (held self.new ≡ held self.old) }
        ensures flushed { IfOk result (λ _. self.new.output.now.flushed ≡ true) }
    {
        let held = &self.bytes[..self.len];
        write_all(self.output, held)?;
        self.len = 0;
        Ok(())
    }
}
