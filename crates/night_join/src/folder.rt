use night_merge::{Listings, Part, Unfetched};
use std::alloc::{AllocError, Global};
use std::fs::File;
use std::io::{self, ErrorKind, Read};
use std::rt::Files;

/// How many bytes are read at a time.
const PIECE: usize = 65_536;

/// The listings of a night's parts, as files in its folder. A file that isn't there is no listing; each other error of a read is a fault.
#[derive(Drop)]
pub struct Folder<'r, R: Files> {
    files: &'r R,
    alloc: Global,
    name: &'r str,
    faults: u64,
}

impl<'r, R: Files> Folder<'r, R> {
    /// The listings in the folder of this name, with no fault yet.
    pub fn new(files: &'r R, alloc: Global, name: &'r str) -> Folder<'r, R> {
        Folder {
            files,
            alloc,
            name,
            faults: 0,
        }
    }

    /// The bytes of the listing of a part, where it is there.
    fn read(&self, part: Part) -> Result<Option<Vec<u8>>, Unread> {
        let name = self.name;
        let chain = part.chain;
        let window = part.window;
        let path = format!(in self.alloc; "{name}/{chain}/{window}.listing")?;
        match File::open(self.files, path.as_str()) {
            Ok(mut file) => Ok(Some(read_whole(self.alloc, &mut file)?)),
            Err(error) if error.kind() == ErrorKind::NotFound => Ok(None),
            Err(error) => Err(Unread::from(error)),
        }
    }
}

impl<'r, R: Files> Listings for Folder<'r, R> {
    ghost use Rattle.std.specs.Prelude.{None};

    ghost listings = { λ _. None };

    ghost faults = { λ f. f.faults };

    fn listing(&mut self, part: Part) -> Result<Option<Vec<u8>>, Unfetched> {
        match self.read(part) {
            Ok(listing) => Ok(listing),
            Err(Unread::NoMemory) => Err(Unfetched::NoMemory),
            Err(Unread::Failed) => {
                self.faults = self.faults.saturating_add(1);
                Err(Unfetched::ReadFault)
            }
        }
    }
}

/// Why a file isn't read.
#[derive(Clone, Copy, Debug, PartialEq, Eq)]
enum Unread {
    NoMemory,
    Failed,
}

impl From<AllocError> for Unread {
    fn from(_: AllocError) -> Unread {
        Unread::NoMemory
    }
}

impl From<io::Error> for Unread {
    fn from(error: io::Error) -> Unread {
        match error.kind() {
            ErrorKind::OutOfMemory => Unread::NoMemory,
            _ => Unread::Failed,
        }
    }
}

/// All bytes of a file.
fn read_whole<F: Read>(alloc: Global, file: &mut F) -> Result<Vec<u8>, Unread> {
    let mut text = Vec::new(alloc);
    let mut buffer = Vec::from_elem(alloc, 0, PIECE)?;
    for _ in 0..u64::MAX {
        let count = file.read(buffer.as_mut_slice())?;
        if count == 0 {
            return Ok(text);
        }
        text.extend_from_slice(&buffer[..count])?;
    }
    Err(Unread::Failed)
}
