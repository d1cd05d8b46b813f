//! Runs of the top call, between a source and a sink in memory.

use batch_io::{Gate, MemSink, MemSource, OpenGate};
use batch_monitor::{Status, run_monitor};
use std::alloc::{AllocError, Global};
use std::process::Abort;
use std::sync::Wait;
use std::thread::Threads;

/// How the outside behaves in a run.
#[derive(Clone, Copy)]
pub(crate) struct Outside {
    /// The most bytes that a read or a write handles.
    pub(crate) piece: usize,
    /// The number of the read that fails.
    pub(crate) failing_read: Option<u32>,
    /// The number of the write that fails.
    pub(crate) failing_write: Option<u32>,
    /// How many bytes the source hands out.
    pub(crate) source_stop: Option<u64>,
    /// How many bytes the sink takes.
    pub(crate) sink_stop: u32,
}

/// Nothing fails.
pub(crate) const AMPLE: Outside = Outside {
    piece: 7,
    failing_read: None,
    failing_write: None,
    source_stop: None,
    sink_stop: 10_000,
};

/// Nothing fails, and pieces are large.
pub(crate) const WIDE: Outside = Outside {
    piece: 65_536,
    sink_stop: 200_000,
    ..AMPLE
};

/// How a run ended, and what it wrote.
#[derive(Drop)]
pub(crate) struct Ran {
    pub(crate) status: Status,
    pub(crate) written: Vec<u8>,
}

impl Ran {
    /// Sees that the run ended with this status and wrote this.
    pub(crate) fn check(&self, rt: &impl Abort, case: &str, status: Status, written: &[u8]) {
        assert_eq!(rt; self.status, status, "{case}");
        assert_eq!(rt; self.written.as_slice(), written, "{case}");
    }
}

fn call_numbers(alloc: Global, number: Option<u32>) -> Result<Vec<u32>, AllocError> {
    let mut numbers = Vec::new(alloc);
    if let Some(number) = number {
        numbers.push(number)?;
    }
    Ok(numbers)
}

/// The words of a text, which blanks part.
pub(crate) fn words_of(alloc: Global, text: &str) -> Result<Vec<String>, AllocError> {
    let mut words = Vec::new(alloc);
    for word in text.split_whitespace() {
        words.push(String::from_str(alloc, word)?)?;
    }
    Ok(words)
}

/// A source of accounts that nobody reads.
pub(crate) fn no_accounts(alloc: Global) -> MemSource {
    MemSource::new(Vec::new(alloc), 1, Vec::new(alloc), None)
}

/// A sink that takes nothing.
pub(crate) fn no_sink(alloc: Global) -> Result<MemSink, AllocError> {
    MemSink::new(alloc, 1, Vec::new(alloc), 0)
}

/// A run with these words.
pub(crate) fn run<R: Threads + Wait + Sync>(
    rt: &R,
    alloc: Global,
    words: &str,
    input: &[u8],
    outside: &Outside,
) -> Result<Ran, AllocError> {
    run_past(rt, alloc, words, input, outside, &OpenGate)
}

/// A run with these words, whose workers pass a gate.
pub(crate) fn run_past<R: Threads + Wait + Sync, G: Gate>(
    rt: &R,
    alloc: Global,
    words: &str,
    input: &[u8],
    outside: &Outside,
    gate: &G,
) -> Result<Ran, AllocError> {
    let words = words_of(alloc, words)?;
    let piece = outside.piece.max(1);
    let mut source = MemSource::new(
        Vec::from_slice(alloc, input)?,
        piece,
        call_numbers(alloc, outside.failing_read)?,
        outside.source_stop,
    );
    let failing = call_numbers(alloc, outside.failing_write)?;
    let mut sink = MemSink::new(alloc, piece, failing, outside.sink_stop)?;
    let mut accounts = no_accounts(alloc);
    let mut closing = no_sink(alloc)?;
    let status = run_monitor(
        rt,
        alloc,
        words.as_slice(),
        &mut source,
        &mut sink,
        &mut accounts,
        &mut closing,
        gate,
    );
    let written = Vec::from_slice(alloc, sink.bytes())?;
    Ok(Ran { status, written })
}
