ghost use Rattle.std.specs.Prelude.{◌≡◌, ◌≤◌, if◌then◌else◌, is_err};
ghost use Rattle.std.specs.Io.{ReadsAtMost, WritesAtMost};
ghost use Rattle.std.specs.Io.KnownBytes.{ReadConsumes};
ghost use Rattle.cxx_edge.specs.Count.{one_more, HasCause};
ghost use Rattle.cxx_edge.specs.Sink.{WritesPart, TakesSome};

use super::sink::Sink;
use super::source::{Failed, Source};
use std::io::{Read, Write};

/// A source over a reader of std, which counts its errors.
#[derive(Drop)]
pub struct StdSource<R> {
    inner: R,
    errors: u64,
}

impl<R: Read> StdSource<R> {
    pub fn new(inner: R) -> StdSource<R>
        ensures inner { result.inner ≡ inner }
        ensures errors { result.errors ≡ 0 }
    {
        StdSource { inner, errors: 0 }
    }
}

impl<R: Read> Source for StdSource<R> {
    ghost left = { λ s. R.remaining s.inner };

    ghost faults = { λ s. s.errors };

    fn read(&mut self, buf: &mut [u8]) -> Result<usize, Failed>
        ensures bound { ReadsAtMost result buf.new }
        ensures bytes { ReadConsumes (R.remaining self.old.inner) (R.remaining self.new.inner) result buf.new }
        ensures cause { HasCause self.old.errors self.new.errors result }
        ensures errors { self.new.errors ≡
            (if is_err result then one_more self.old.errors else self.old.errors) }
    {
        match self.inner.read(buf) {
            Ok(count) => Ok(count),
            Err(_) => {
                self.errors = self.errors.saturating_add(1);
                Err(Failed)
            }
        }
    }
}

/// A sink over a writer of std, which counts its errors. Each call also flushes. A writer that
/// takes nothing of a piece is an error.
#[derive(Drop)]
pub struct StdSink<W> {
    inner: W,
    errors: u64,
}

impl<W: Write> StdSink<W> {
    pub fn new(inner: W) -> StdSink<W>
        ensures inner { result.inner ≡ inner }
        ensures errors { result.errors ≡ 0 }
    {
        StdSink { inner, errors: 0 }
    }

    fn fail(&mut self) -> Failed
        ensures inner { self.new.inner ≡ self.old.inner }
        ensures errors { self.new.errors ≡ one_more self.old.errors }
        ensures later { self.old.errors ≤ self.new.errors }
    {
        self.errors = self.errors.saturating_add(1);
        Failed
    }
}

impl<W: Write> Sink for StdSink<W> {
    ghost taken = { λ s. W.contents s.inner };

    ghost faults = { λ s. s.errors };

    fn write(&mut self, piece: &[u8]) -> Result<usize, Failed>
        ensures bound { WritesAtMost result piece.now }
        ensures some { TakesSome result piece.now }
        ensures bytes { WritesPart (W.contents self.old.inner) (W.contents self.new.inner) result piece.now }
        ensures cause { HasCause self.old.errors self.new.errors result }
        ensures errors { self.new.errors ≡
            (if is_err result then one_more self.old.errors else self.old.errors) }
    {
        let count = match self.inner.write(piece) {
            Ok(count) => count,
            Err(_) => return Err(self.fail()),
        };
        if count == 0 && !piece.is_empty() {
            return Err(self.fail());
        }
        match self.inner.flush() {
            Ok(()) => Ok(count),
            Err(_) => Err(self.fail()),
        }
    }
}

#[cfg(test)]
mod tests;
