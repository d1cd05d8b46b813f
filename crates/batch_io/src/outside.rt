ghost use Rattle.std.specs.Prelude.{◌≡◌, ◌≤◌, ◌<◌, length, IfOk, OnErr};
ghost use Rattle.std.specs.Io.{ReadsAtMost};
ghost use Rattle.std.specs.Io.KnownBytes.{ReadConsumes, WriteAppends};
ghost use Rattle.batch_io.specs.Causes.{HasCause, one_more};

use crate::ports::{ReadFailed, Sink, Source, WriteFailed};
use std::io::{Read, Write};
use std::marker::Model;

/// A source over a reader of std. Each error of the reader is a fault.
#[derive(Drop)]
pub struct StdSource<R> {
    inner: R,
    faults: u64,
}

impl<R> Model for StdSource<R> {
    ghost use Rattle.batch_io.specs.Counted.{Counted};

    ghost Value = { Counted R };

    ghost view = { λ s. record { inner = s.inner; faults = s.faults } };
}

impl<R> StdSource<R> {
    /// A source over this reader, with no fault yet.
    pub fn new(inner: R) -> StdSource<R>
        ensures { result ≡ record { inner = inner; faults = 0 } }
    {
        StdSource { inner, faults: 0 }
    }
}

impl<R: Read> Source for StdSource<R> {
    ghost left = { λ s. R.remaining s.inner };

    ghost faults = { λ s. s.faults };

    fn read(&mut self, buf: &mut [u8]) -> Result<usize, ReadFailed>
        ensures bound { ReadsAtMost result buf.new }
        ensures bytes { ReadConsumes (R.remaining self.old.inner) (R.remaining self.new.inner)
            result buf.new }
        ensures cause { HasCause self.old.faults self.new.faults result }
        ensures counted { OnErr result (self.new.faults ≡ one_more self.old.faults) }
    {
        let Ok(count) = self.inner.read(buf) else {
            self.faults = self.faults.saturating_add(1);
            return Err(ReadFailed);
        };
        Ok(count)
    }
}

/// A sink over a writer of std. Each error of the writer is a fault, and so is a write that takes
/// nothing of some bytes.
#[derive(Drop)]
pub struct StdSink<W> {
    inner: W,
    faults: u64,
}

impl<W> Model for StdSink<W> {
    ghost use Rattle.batch_io.specs.Counted.{Counted};

    ghost Value = { Counted W };

    ghost view = { λ s. record { inner = s.inner; faults = s.faults } };
}

impl<W> StdSink<W> {
    /// A sink over this writer, with no fault yet.
    pub fn new(inner: W) -> StdSink<W>
        ensures { result ≡ record { inner = inner; faults = 0 } }
    {
        StdSink { inner, faults: 0 }
    }
}

impl<W: Write> Sink for StdSink<W> {
    ghost written = { λ s. W.contents s.inner };

    ghost faults = { λ s. s.faults };

    fn write(&mut self, bytes: &[u8]) -> Result<usize, WriteFailed>
        ensures bound { IfOk result (λ n. n ≤ length bytes.now) }
        ensures some { IfOk result (λ n. 0 < length bytes.now → 0 < n) }
        ensures bytes { WriteAppends (W.contents self.old.inner) (W.contents self.new.inner)
            result bytes.now }
        ensures cause { HasCause self.old.faults self.new.faults result }
        ensures counted { OnErr result (self.new.faults ≡ one_more self.old.faults) }
    {
        match self.inner.write(bytes) {
            Ok(count) if count > 0 || bytes.is_empty() => Ok(count),
            _ => {
                self.faults = self.faults.saturating_add(1);
                Err(WriteFailed)
            }
        }
    }
}
