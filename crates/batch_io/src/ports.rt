ghost use Rattle.std.specs.Prelude.{◌≤◌, ◌<◌, ℕ, List, Option, length, IfOk};
ghost use Rattle.std.specs.Io.{ReadsAtMost};
ghost use Rattle.std.specs.Io.KnownBytes.{ReadConsumes, WriteAppends};
ghost use Rattle.batch_io.specs.Causes.{HasCause};

/// A read failed, and the source has counted it.
#[derive(Clone, Copy, Debug, PartialEq, Eq)]
pub struct ReadFailed;

/// A write failed, and the sink has counted it.
#[derive(Clone, Copy, Debug, PartialEq, Eq)]
pub struct WriteFailed;

/// Where the bytes of a batch come from.
pub trait Source {
    // the bytes still to come, where the source can tell them
    ghost left: { Self → Option (List ℕ) };
    // how many faults the source has met: the count never falls, and stops at 2^64 - 1
    ghost faults: { Self → ℕ };

    /// Reads the next bytes into the front of `buf`, and says how many. On a buffer that isn't
    /// empty, 0 is the end of the input. A read that fails is counted, and leaves the bytes still
    /// to come as they were.
    fn read(&mut self, buf: &mut [u8]) -> Result<usize, ReadFailed>
        ensures bound { ReadsAtMost result buf.new }
        ensures bytes { ReadConsumes (left self.old) (left self.new) result buf.new }
        ensures cause { HasCause (faults self.old) (faults self.new) result };
}

/// Where the bytes of a listing go.
pub trait Sink {
    // the bytes written, where the sink can tell them
    ghost written: { Self → Option (List ℕ) };
    // how many faults the sink has met: the count never falls, and stops at 2^64 - 1
    ghost faults: { Self → ℕ };

    /// Writes the first of these bytes, and says how many: at least one, unless there are none. A
    /// write that fails is counted, and leaves the bytes written as they were.
    fn write(&mut self, bytes: &[u8]) -> Result<usize, WriteFailed>
        ensures bound { IfOk result (λ n. n ≤ length bytes.now) }
        ensures some { IfOk result (λ n. 0 < length bytes.now → 0 < n) }
        ensures bytes { WriteAppends (written self.old) (written self.new) result bytes.now }
        ensures cause { HasCause (faults self.old) (faults self.new) result };
}
