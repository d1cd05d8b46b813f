ghost use Rattle.std.specs.Prelude.{◌≡◌, ◌≤◌, IfOk, length};

use batch_io::{Sink, WriteFailed};
use std::fs::File;
use std::io::{self, Write};
use std::rt::Files;

/// A sink over a file, which is made, or emptied, at the first write: a joining that stops leaves the balances of an earlier one.
/// Each error is a fault, and so is a write that takes nothing of some bytes.
#[derive(Drop)]
pub struct LateFile<'r, R: Files> {
    files: &'r R,
    path: &'r str,
    file: Option<R::File>,
    faults: u64,
}

impl<'r, R: Files> LateFile<'r, R> {
    /// A sink over the file at this path, with no fault yet.
    pub fn new(files: &'r R, path: &'r str) -> LateFile<'r, R> {
        LateFile {
            files,
            path,
            file: None,
            faults: 0,
        }
    }

    /// Writes to the file, which is made where it isn't yet.
    fn write_file(&mut self, bytes: &[u8]) -> io::Result<usize>
        ensures bound { IfOk result (λ n. n ≤ length bytes.now) }
        ensures faults { self.new.faults ≡ self.old.faults }
    {
        let mut file = match self.file.take() {
            Some(file) => file,
            None => File::create(self.files, self.path)?,
        };
        let written = file.write(bytes);
        self.file = Some(file);
        written
    }
}

impl<'r, R: Files> Sink for LateFile<'r, R> {
    ghost use Rattle.std.specs.Prelude.{None};

    ghost written = { λ _. None };

    ghost faults = { λ s. s.faults };

    fn write(&mut self, bytes: &[u8]) -> Result<usize, WriteFailed> {
        match self.write_file(bytes) {
            Ok(count) if count > 0 || bytes.is_empty() => Ok(count),
            _ => {
                self.faults = self.faults.saturating_add(1);
                Err(WriteFailed)
            }
        }
    }
}
