use batch_io::{Sink, WriteFailed};

/// A sink for a listing that nobody reads: it takes all bytes, and keeps none.
#[derive(Drop)]
pub(crate) struct Nowhere;

impl Sink for Nowhere {
    ghost use Rattle.std.specs.Prelude.{None};

    ghost written = { λ _. None };

    ghost faults = { λ _. 0 };

    fn write(&mut self, bytes: &[u8]) -> Result<usize, WriteFailed> {
        Ok(bytes.len())
    }
}
