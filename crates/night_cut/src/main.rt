// Cuts a night of any size into parts that the monitor can run: `night_cut FOLDER [CHAINS]`. The cards come from standard input, and
// the accounts from `accounts.toml` of the working folder; the plan and the parts go into FOLDER, which is made.
#![tactic(auto)]

mod folder;
#[cfg(test)]
mod tests;

use crate::folder::Folder;
use batch_io::{FileSource, StdSource};
use night_shares::{Stop, cut_night};
use std::alloc::AllocError;
use std::process::ExitCode;
use std::rt::Env;
use std::{env, io};

/// How many chains are wanted where no number is given.
const CHAINS: usize = 4;

/// The most chains that can be asked for.
const MOST_CHAINS: usize = 1_000;

/// The file that the accounts are read from.
const ACCOUNTS: &str = "accounts.toml";

/// Why a night isn't cut: the status that the program ends with.
#[derive(Clone, Copy, Debug, PartialEq, Eq)]
enum Failure {
    /// The words aren't a folder, or a folder and a number of chains, 1 to 1,000.
    BadWords = 2,
    /// Memory was wanting.
    NoMemory,
    /// A read failed, or there is no accounts file.
    ReadFault,
    /// A write failed, or the folder is there already.
    WriteFault,
    /// A job with the libraries has more than 4,194,304 bytes, or the cards before the first job have.
    TooLarge,
    /// The accounts file is none, or is too long.
    BadAccounts,
}

impl Failure {
    /// What the program says of it on standard error.
    fn text(self) -> &'static str {
        match self {
            Failure::BadWords => {
                "the words are a folder, which is made, and a number of chains, 1 to 1000, or none"
            }
            Failure::NoMemory => "memory was wanting",
            Failure::ReadFault => "the cards or accounts.toml can't be read",
            Failure::WriteFault => "the folder is there already, or can't be written",
            Failure::TooLarge => {
                "a job with the libraries, or what stands before the first job, has over 4194304 bytes"
            }
            Failure::BadAccounts => "accounts.toml isn't an accounts file",
        }
    }
}

impl From<Stop> for Failure {
    fn from(stop: Stop) -> Failure {
        match stop {
            Stop::NoMemory => Failure::NoMemory,
            Stop::ReadFault => Failure::ReadFault,
            Stop::WriteFault => Failure::WriteFault,
            Stop::TooLarge => Failure::TooLarge,
            Stop::BadAccounts => Failure::BadAccounts,
        }
    }
}

fn main(rt: HostRuntime) -> ExitCode {
    match run(&rt) {
        Ok(()) => ExitCode::SUCCESS,
        Err(failure) => {
            let _ = eprintln!(rt; "night_cut: {}", failure.text());
            ExitCode::from(failure as u8)
        }
    }
}

/// Cuts the night that the words say.
fn run(rt: &HostRuntime) -> Result<(), Failure> {
    let words = command_words(rt)?;
    let (name, chains) = match words.as_slice() {
        [name] => (name.as_str(), CHAINS),
        [name, chains] => (name.as_str(), chains_of(chains.as_str())?),
        _ => return Err(Failure::BadWords),
    };
    let Ok(mut folder) = Folder::new(rt, rt.alloc(), name) else {
        return Err(Failure::WriteFault);
    };
    let mut source = StdSource::new(rt.stdin());
    let mut accounts = FileSource::new(rt, ACCOUNTS);
    cut_night(rt.alloc(), chains, &mut accounts, &mut source, &mut folder)?;
    Ok(())
}

/// The number of chains that a word says.
fn chains_of(word: &str) -> Result<usize, Failure> {
    match word.parse::<usize>() {
        Ok(chains) if 1 <= chains && chains <= MOST_CHAINS => Ok(chains),
        _ => Err(Failure::BadWords),
    }
}

/// The words behind the program's name. A word that is no text is no word of the program's.
fn command_words(rt: &(impl Env + AllocGlobal)) -> Result<Vec<String>, Failure> {
    let args = match env::args(rt) {
        Ok(args) => args,
        Err(error) if error.kind() == io::ErrorKind::OutOfMemory => return Err(Failure::NoMemory),
        Err(_) => return Err(Failure::BadWords),
    };
    match args.skip(1).collect(rt.alloc()) {
        Ok(words) => Ok(words),
        Err(AllocError) => Err(Failure::NoMemory),
    }
}
