ghost use Rattle.std.specs.Prelude.{◌≡◌, ◌≤◌, ◌<◌, ◌↔◌, [], Some, length, IfOk, OnErr, IsErr, IsOk};
ghost use Rattle.std.specs.Io.{ReadsAtMost};
ghost use Rattle.std.specs.Io.KnownBytes.{ReadConsumes, WriteAppends};
ghost use Rattle.batch_io.specs.Causes.{HasCause};
ghost use Rattle.batch_io.specs.Pace.{opening, Refuses, after_fault};
ghost use Rattle.batch_io.specs.Supply.{HandsOut};
ghost use Rattle.batch_io.specs.Store.{TakesIn};

use crate::pacer::Pacer;
use crate::ports::{ReadFailed, Sink, Source, WriteFailed};
use std::alloc::{AllocError, Global};
use std::marker::Model;

/// A source over bytes in memory.
#[derive(Drop)]
pub struct MemSource {
    bytes: Vec<u8>,
    pacer: Pacer,
}

impl Model for MemSource {
    ghost use Rattle.std.specs.Prelude.{◌≤◌, drop, vec_len};
    ghost use Rattle.batch_io.specs.Supply.{Supply};

    ghost Value = { Supply };

    ghost view = { λ s. record { left = drop s.pacer.gone s.bytes.items; pace = s.pacer } };

    ghost invariant = { λ s. s.pacer.gone ≤ vec_len s.bytes };
}

impl MemSource {
    /// A source that hands out these bytes, at most `piece` of them a call, which is at least 1. A
    /// call fails where its number, from 1, is in `failing`, or where `stop_after` bytes have been
    /// handed out already.
    pub fn new(
        bytes: Vec<u8>,
        piece: usize,
        failing: Vec<u32>,
        stop_after: Option<u64>,
    ) -> MemSource
        requires { 1 ≤ piece }
        ensures { result ≡
            record { left = bytes.items; pace = opening piece failing.items stop_after } }
    {
        MemSource {
            bytes,
            pacer: Pacer::new(piece, failing, stop_after),
        }
    }
}

impl Source for MemSource {
    ghost left = { λ s. Some s.left };

    ghost faults = { λ s. s.pace.faults };

    fn read(&mut self, buf: &mut [u8]) -> Result<usize, ReadFailed>
        ensures bound { ReadsAtMost result buf.new }
        ensures bytes { ReadConsumes (Some self.old.left) (Some self.new.left) result buf.new }
        ensures cause { HasCause self.old.pace.faults self.new.pace.faults result }

        ensures fails { IsErr result ↔ Refuses self.old.pace }
        ensures ok { IfOk result (HandsOut self.old self.new buf.old buf.new) }
        ensures err { OnErr result
            (self.new ≡ record self.old { pace = after_fault self.old.pace }) }
        ensures untouched { OnErr result (buf.new ≡ buf.old) }
    {
        let left = &self.bytes[self.pacer.gone() as usize..];
        let Some(count) = self.pacer.pass(left.len().min(buf.len())) else {
            return Err(ReadFailed);
        };
        buf[..count].copy_from_slice(&left[..count]);
        Ok(count)
    }
}

/// A sink into memory.
#[derive(Drop)]
pub struct MemSink {
    bytes: Vec<u8>,
    pacer: Pacer,
}

impl Model for MemSink {
    ghost use Rattle.std.specs.Prelude.{◌≡◌, vec_len, vec_capacity};
    ghost use Rattle.batch_io.specs.Store.{Store};
    ghost use Rattle.batch_io.specs.Pace.{HasRoom};

    ghost Value = { Store };

    ghost view = { λ s. record { written = s.bytes.items; pace = s.pacer } };

    ghost invariant = { λ s.
        (s.pacer.gone ≡ vec_len s.bytes) × HasRoom s.pacer (vec_capacity s.bytes) };
}

impl MemSink {
    /// A sink that takes at most `piece` bytes a call, which is at least 1. A call fails where its
    /// number, from 1, is in `failing`, or where `stop_after` bytes have been written already. The
    /// room for all those bytes is taken here, so that only this call can run out of memory.
    pub fn new(
        alloc: Global,
        piece: usize,
        failing: Vec<u32>,
        stop_after: u32,
    ) -> Result<MemSink, AllocError>
        requires { 1 ≤ piece }
        ensures ok { IfOk result (λ s.
            s ≡ record { written = []; pace = opening piece failing.items (Some stop_after) }) }
        ensures succeeds { stop_after ≡ 0 → IsOk result }
    {
        Ok(MemSink {
            bytes: Vec::with_capacity(alloc, stop_after as usize)?,
            pacer: Pacer::new(piece, failing, Some(u64::from(stop_after))),
        })
    }

    /// The bytes written.
    pub fn bytes(&self) -> &[u8]
        ensures { result.now ≡ self.now.written }
    {
        self.bytes.as_slice()
    }
}

impl Sink for MemSink {
    ghost written = { λ s. Some s.written };

    ghost faults = { λ s. s.pace.faults };

    fn write(&mut self, bytes: &[u8]) -> Result<usize, WriteFailed>
        ensures bound { IfOk result (λ n. n ≤ length bytes.now) }
        ensures some { IfOk result (λ n. 0 < length bytes.now → 0 < n) }
        ensures bytes { WriteAppends (Some self.old.written) (Some self.new.written)
            result bytes.now }
        ensures cause { HasCause self.old.pace.faults self.new.pace.faults result }

        ensures fails { IsErr result ↔ Refuses self.old.pace }
        ensures ok { IfOk result (TakesIn self.old self.new bytes.now) }
        ensures err { OnErr result
            (self.new ≡ record self.old { pace = after_fault self.old.pace }) }
    {
        let Some(count) = self.pacer.pass(bytes.len()) else {
            return Err(WriteFailed);
        };
        self.bytes.extend_from_slice(&bytes[..count]).unwrap();
        Ok(count)
    }
}
