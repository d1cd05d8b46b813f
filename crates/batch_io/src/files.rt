ghost use Rattle.std.specs.Prelude.{◌≡◌, ◌≤◌, IfOk, length};
ghost use Rattle.std.specs.Io.{ReadsAtMost};

use crate::ports::{ReadFailed, Sink, Source, WriteFailed};
use std::fs::File;
use std::io::{self, Read, Write};
use std::rt::Files;

/// A source over a file, which is opened at the first read. A file that can't be opened is a fault, as each error of a read is.
#[derive(Drop)]
pub struct FileSource<'r, R: Files> {
    files: &'r R,
    name: &'static str,
    file: Option<R::File>,
    faults: u64,
}

impl<'r, R: Files> FileSource<'r, R> {
    /// A source over the file of this name, with no fault yet.
    pub fn new(files: &'r R, name: &'static str) -> FileSource<'r, R>
        ensures { result.faults ≡ 0 }
    {
        FileSource {
            files,
            name,
            file: None,
            faults: 0,
        }
    }

    /// Reads from the file, which is opened where it isn't yet.
    fn read_file(&mut self, buf: &mut [u8]) -> io::Result<usize>
        ensures bound { ReadsAtMost result buf.new }
        ensures faults { self.new.faults ≡ self.old.faults }
    {
        let mut file = match self.file.take() {
            Some(file) => file,
            None => File::open(self.files, self.name)?,
        };
        let read = file.read(buf);
        self.file = Some(file);
        read
    }
}

impl<'r, R: Files> Source for FileSource<'r, R> {
    ghost use Rattle.std.specs.Prelude.{None};

    ghost left = { λ _. None };

    ghost faults = { λ s. s.faults };

    fn read(&mut self, buf: &mut [u8]) -> Result<usize, ReadFailed> {
        let Ok(count) = self.read_file(buf) else {
            self.faults = self.faults.saturating_add(1);
            return Err(ReadFailed);
        };
        Ok(count)
    }
}

/// A sink over a file, which is made, or emptied, at the first write. A file that can't be is a fault, as each error of a write
/// is, and so is a write that takes nothing of some bytes.
#[derive(Drop)]
pub struct FileSink<'r, R: Files> {
    files: &'r R,
    name: &'static str,
    file: Option<R::File>,
    faults: u64,
}

impl<'r, R: Files> FileSink<'r, R> {
    /// A sink over the file of this name, with no fault yet.
    pub fn new(files: &'r R, name: &'static str) -> FileSink<'r, R>
        ensures { result.faults ≡ 0 }
    {
        FileSink {
            files,
            name,
            file: None,
            faults: 0,
        }
    }

    /// Writes to the file, which is made where it isn't yet.
    fn write_file(&mut self, bytes: &[u8]) -> io::Result<usize>
        ensures bound { IfOk result (λ n. n ≤ length bytes.now) }
        ensures faults { self.new.faults ≡ self.old.faults }
    {
        let mut file = match self.file.take() {
            Some(file) => file,
            None => File::create(self.files, self.name)?,
        };
        let written = file.write(bytes);
        self.file = Some(file);
        written
    }
}

impl<'r, R: Files> Sink for FileSink<'r, R> {
    ghost use Rattle.std.specs.Prelude.{None};

    ghost written = { λ _. None };

    ghost faults = { λ s. s.faults };

    fn write(&mut self, bytes: &[u8]) -> Result<usize, WriteFailed> {
        match self.write_file(bytes) {
            Ok(count) if count > 0 || bytes.is_empty() => Ok(count),
            _ => {
                self.faults = self.faults.saturating_add(1);
                Err(WriteFailed)
            }
        }
    }
}
