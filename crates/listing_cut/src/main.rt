// Tells where the sections of a listing stand: `listing_cut < LISTING` writes how many bytes each section has, in order, and then the
// closing lines, a line for each. They stand one behind the other, below the first line.
#![tactic(auto)]

mod rows;

use crate::rows::listing_rows;
use std::alloc::AllocError;
use std::env;
use std::io::{ErrorKind, Read, Write};
use std::process::ExitCode;
use std::rt::Env;

/// How many bytes are read at a time.
const PIECE: usize = 65_536;

/// Why a listing isn't cut: the status that the program ends with.
#[derive(Clone, Copy, Debug, PartialEq, Eq)]
enum Failure {
    /// There are words.
    BadWords = 2,
    /// Memory was wanting.
    NoMemory,
    /// A read failed.
    ReadFault,
    /// A write failed.
    WriteFault,
    /// The text is no listing.
    NoListing = 7,
}

impl From<AllocError> for Failure {
    fn from(_: AllocError) -> Failure {
        Failure::NoMemory
    }
}

fn main(rt: HostRuntime) -> ExitCode {
    match run(&rt) {
        Ok(()) => ExitCode::SUCCESS,
        Err(failure) => ExitCode::from(failure as u8),
    }
}

/// Tells where the sections of the listing on standard input stand.
fn run(rt: &HostRuntime) -> Result<(), Failure> {
    if has_words(rt) {
        return Err(Failure::BadWords);
    }
    let text = read_input(rt)?;
    let Some(rows) = listing_rows(rt.alloc(), text.as_slice())? else {
        return Err(Failure::NoListing);
    };
    match rt.stdout().write_all(rows.as_slice()) {
        Ok(()) => Ok(()),
        Err(_) => Err(Failure::WriteFault),
    }
}

/// Whether words stand behind the program's name.
fn has_words(rt: &(impl Env + AllocGlobal)) -> bool {
    match env::args(rt) {
        Ok(args) => args.len() > 1,
        Err(_) => true,
    }
}

/// All bytes of standard input.
fn read_input(rt: &HostRuntime) -> Result<Vec<u8>, Failure> {
    let mut input = rt.stdin();
    let mut text = Vec::new(rt.alloc());
    let mut buffer = Vec::from_elem(rt.alloc(), 0, PIECE)?;
    for _ in 0..u64::MAX {
        let count = match input.read(buffer.as_mut_slice()) {
            Ok(count) => count,
            Err(error) if error.kind() == ErrorKind::OutOfMemory => return Err(Failure::NoMemory),
            Err(_) => return Err(Failure::ReadFault),
        };
        if count == 0 {
            return Ok(text);
        }
        text.extend_from_slice(&buffer[..count])?;
    }
    Err(Failure::ReadFault)
}
