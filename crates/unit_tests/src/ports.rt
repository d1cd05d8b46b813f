use crate::rows::{columns, see, unsigned};
use batch_io::{
    FileSink, FileSource, MemSink, MemSource, ReadFailed, Sink, Source, StdSink, StdSource,
    WriteFailed,
};
use std::alloc::{AllocError, Global};
use std::fs;
use std::io::{self, ErrorKind, Read, Write};
use std::process::Abort;
use std::test::Fail;

/// The most bytes that a call goes with, the calls that fail, behind how many bytes all calls fail, and the calls: how many
/// bytes a call is offered, and how many go, or that it fails.
const PACES: &str = "\
3|||8:3 2:2 0:0 9:3 9:0
9|1 3||4:none 4:4 0:none 9:4
4||5|4:4 4:1 4:none 0:none
1||0|3:none 0:none
";

/// The bytes that go.
const TEXT: &[u8] = b"abcdefgh";

/// A call: how many bytes it is offered, and how many go.
#[derive(Clone, Copy)]
struct Call {
    offered: usize,
    gone: Option<usize>,
}

/// The numbers that these words are.
fn numbers_of(rt: &impl Abort, alloc: Global, text: &str) -> Result<Vec<u32>, AllocError> {
    let mut numbers = Vec::new(alloc);
    for word in text.split_whitespace() {
        numbers.push(unsigned(rt, word))?;
    }
    Ok(numbers)
}

/// The calls that these words are.
fn calls_of(rt: &impl Abort, alloc: Global, text: &str) -> Result<Vec<Call>, AllocError> {
    let mut calls = Vec::new(alloc);
    for word in text.split_whitespace() {
        let (offered, gone) = word.split_once(':').unwrap_or((word, ""));
        calls.push(Call {
            offered: unsigned(rt, offered) as usize,
            gone: gone.parse().ok(),
        })?;
    }
    Ok(calls)
}

/// Makes the calls of a source, and sees how many bytes each gives, and which.
fn check_reads(rt: &impl Abort, source: &mut MemSource, calls: &[Call]) {
    let mut left = TEXT;
    for call in calls {
        let mut buf = [0; 9];
        assert!(rt; call.offered <= 9);
        let given = source.read(&mut buf[..call.offered]).ok();
        see(rt, "a read", given == call.gone);
        let count = call.gone.unwrap_or(0);
        assert!(rt; count <= left.len() && count <= 9);
        see(rt, "bytes read", buf[..count] == left[..count]);
        left = &left[count..];
    }
}

/// Makes the calls of a sink, and sees how many bytes each takes, and which are written.
fn check_writes(rt: &impl Abort, sink: &mut MemSink, calls: &[Call]) {
    let mut left = TEXT;
    for call in calls {
        let piece = &left[..left.len().min(call.offered)];
        see(rt, "a write", sink.write(piece).ok() == call.gone);
        let count = call.gone.unwrap_or(0);
        assert!(rt; count <= left.len());
        left = &left[count..];
    }
    let gone = TEXT.len().saturating_sub(left.len());
    see(rt, "bytes written", sink.bytes() == &TEXT[..gone]);
}

/// Makes calls of a source of the text.
fn check_source(
    rt: &impl Abort,
    alloc: Global,
    piece: usize,
    failing: &str,
    stop: Option<u32>,
    calls: &[Call],
) -> Result<(), AllocError> {
    assert!(rt; piece >= 1);
    let bytes = Vec::from_slice(alloc, TEXT)?;
    let failing = numbers_of(rt, alloc, failing)?;
    let mut source = MemSource::new(bytes, piece, failing, stop.map(u64::from));
    check_reads(rt, &mut source, calls);
    Ok(())
}

/// Makes calls of a sink.
fn check_sink(
    rt: &impl Abort,
    alloc: Global,
    piece: usize,
    failing: &str,
    stop: Option<u32>,
    calls: &[Call],
) -> Result<(), AllocError> {
    assert!(rt; piece >= 1);
    let failing = numbers_of(rt, alloc, failing)?;
    let mut sink = MemSink::new(alloc, piece, failing, stop.unwrap_or(100))?;
    check_writes(rt, &mut sink, calls);
    Ok(())
}

#[test]
fn forms_in_memory_keep_their_pace(rt: HostRuntime) -> Result<(), Fail> {
    let alloc = rt.alloc();
    for row in PACES.lines() {
        let [piece, failing, stop, calls, ..] = columns(row);
        let (piece, stop) = (unsigned(&rt, piece) as usize, stop.parse().ok());
        let calls = calls_of(&rt, alloc, calls)?;
        check_source(&rt, alloc, piece, failing, stop, calls.as_slice())?;
        check_sink(&rt, alloc, piece, failing, stop, calls.as_slice())?;
    }
    Ok(())
}

/// Gives two bytes, fails at its second call, gives two more, and ends.
#[derive(Drop)]
struct Reader {
    calls: u8,
}

impl Read for Reader {
    fn read(&mut self, buf: &mut [u8]) -> io::Result<usize> {
        self.calls = self.calls.saturating_add(1);
        let piece: &[u8] = match self.calls {
            1 => b"ab",
            2 => return Err(ErrorKind::TimedOut.into()),
            3 => b"cd",
            _ => b"",
        };
        let count = piece.len().min(buf.len());
        buf[..count].copy_from_slice(&piece[..count]);
        Ok(count)
    }
}

#[test]
fn a_reader_fails_once(rt: HostRuntime) {
    let mut source = StdSource::new(Reader { calls: 0 });
    let mut buf = [0; 4];
    assert_eq!(rt; source.read(&mut buf), Ok(2));
    assert_eq!(rt; source.read(&mut buf[2..]), Err(ReadFailed));
    assert_eq!(rt; source.read(&mut buf[2..]), Ok(2));
    assert_eq!(rt; source.read(&mut buf), Ok(0));
    assert_eq!(rt; buf, *b"abcd");
}

/// Takes two bytes, fails at its second call, takes nothing at the third, and two bytes at each
/// after that.
#[derive(Drop)]
struct Writer {
    calls: u8,
    written: Vec<u8>,
}

impl Write for Writer {
    fn write(&mut self, buf: &[u8]) -> io::Result<usize> {
        self.calls = self.calls.saturating_add(1);
        let count = match self.calls {
            2 => return Err(ErrorKind::TimedOut.into()),
            3 => 0,
            _ => buf.len().min(2),
        };
        self.written.extend_from_slice(&buf[..count])?;
        Ok(count)
    }

    fn flush(&mut self) -> io::Result<()> {
        Ok(())
    }
}

#[test]
fn a_writer_fails_once(rt: HostRuntime) {
    let mut writer = Writer {
        calls: 0,
        written: Vec::new(rt.alloc()),
    };
    let mut sink = StdSink::new(&mut writer);
    see(&rt, "two bytes", sink.write(b"abcd") == Ok(2));
    see(&rt, "a fault", sink.write(b"cd") == Err(WriteFailed));
    see(&rt, "nothing taken", sink.write(b"cd") == Err(WriteFailed));
    see(&rt, "nothing to write", sink.write(b"") == Ok(0));
    see(&rt, "two more", sink.write(b"cd") == Ok(2));
    see(
        &rt,
        "the bytes",
        writer.written.as_slice() == b"abcd".as_slice(),
    );
}

/// The file that is written and read.
const FILE: &str = "ports.txt";

#[test]
fn a_file_gives_what_was_written(rt: HostRuntime) {
    let mut buf = [0; 4];
    let mut missing = FileSource::new(&rt, FILE);
    see(&rt, "no file", missing.read(&mut buf) == Err(ReadFailed));
    let mut folder = FileSink::new(&rt, ".");
    see(&rt, "a folder", folder.write(b"abcd") == Err(WriteFailed));

    let mut sink = FileSink::new(&rt, FILE);
    see(&rt, "four bytes", sink.write(b"abcd") == Ok(4));
    drop(sink);
    let mut source = FileSource::new(&rt, FILE);
    see(&rt, "all of them", source.read(&mut buf) == Ok(4));
    see(&rt, "the end", source.read(&mut buf) == Ok(0));
    see(&rt, "the bytes", buf == *b"abcd");
    see(&rt, "the file goes", fs::remove_file(&rt, FILE).is_ok());
}
