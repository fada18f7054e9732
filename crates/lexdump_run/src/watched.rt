//! Readers and writers that record whether they have failed.
ghost use Rattle.std.specs.Prelude.{◌≡◌, ◌||◌, false, is_err, is_ok};
ghost use Rattle.std.specs.Io.{ReadsAtMost, WritesAtMost};
ghost use Rattle.std.specs.Io.KnownBytes.{Keeps, ReadConsumes, WriteAppends};
ghost use Rattle.lexdump_run.specs.Watch.{is_failed_write};

use std::io;
use std::io::{Read, Write};
use std::marker::Model;

/// A reader or a writer that records whether it has failed, and whether the last call was a flush that succeeded. It
/// passes on each call and each result.
///
/// It has *failed* if a call once returned an error, or a write once wrote 0 of the bytes that it was given.
#[derive(Drop)]
pub struct Watched<T> {
    inner: T,
    failed: bool,
    flushed: bool,
}

impl<T> Model for Watched<T> {
    ghost use Rattle.lexdump_run.specs.Watch.{Watch};

    ghost Value = { Watch T };

    ghost view = { λ w. record { inner = w.inner; failed = w.failed; flushed = w.flushed } };
}

impl<T> Watched<T> {
    /// Wraps a reader or a writer. The result has not failed.
    pub fn new(inner: T) -> Watched<T>
        ensures { result ≡ record { inner = inner; failed = false; flushed = false } }
    {
        Watched {
            inner,
            failed: false,
            flushed: false,
        }
    }

    /// Returns whether the stream has failed.
    pub fn failed(&self) -> bool
        ensures { result ≡ self.now.failed }
    {
        self.failed
    }

    /// Returns the reader or the writer inside.
    pub fn into_inner(self) -> T
        ensures { result ≡ self.inner }
    {
        self.inner
    }

    /// Records whether a call failed, and whether it was a flush that succeeded.
    fn record(&mut self, failed: bool, flushed: bool)
        ensures inner { self.new.inner ≡ self.old.inner }
        ensures failed { self.new.failed ≡ (self.old.failed || failed) }
        ensures flushed { self.new.flushed ≡ flushed }
    {
        self.failed = self.failed || failed;
        self.flushed = flushed;
    }
}

impl<R: Read> Read for Watched<R> {
    ghost remaining = { λ w. R.remaining w.inner };

    fn read(&mut self, buf: &mut [u8]) -> io::Result<usize>
        ensures at_most { ReadsAtMost result buf.new }
        ensures bytes { ReadConsumes (R.remaining self.old.inner)
            (R.remaining self.new.inner) result buf.new }
        ensures failed { self.new.failed ≡ (self.old.failed || is_err result) }
        ensures flushed { self.new.flushed ≡ false }
    {
        let answer = self.inner.read(buf);
        self.record(answer.is_err(), false);
        answer
    }
}

impl<W: Write> Write for Watched<W> {
    ghost contents = { λ w. W.contents w.inner };

    fn write(&mut self, buf: &[u8]) -> io::Result<usize>
        ensures at_most { WritesAtMost result buf.now }
        ensures bytes { WriteAppends (W.contents self.old.inner)
            (W.contents self.new.inner) result buf.now }
        ensures failed { self.new.failed ≡ (self.old.failed || is_failed_write result buf.now) }
        ensures flushed { self.new.flushed ≡ false }
    {
        let answer = self.inner.write(buf);
        let failed = match &answer {
            Ok(0) if !buf.is_empty() => true,
            answer => answer.is_err(),
        };
        self.record(failed, false);
        answer
    }

    fn flush(&mut self) -> io::Result<()>
        ensures bytes { Keeps (W.contents self.old.inner) (W.contents self.new.inner) }
        ensures failed { self.new.failed ≡ (self.old.failed || is_err result) }
        ensures flushed { self.new.flushed ≡ is_ok result }
    {
        let answer = self.inner.flush();
        self.record(answer.is_err(), answer.is_ok());
        answer
    }
}
