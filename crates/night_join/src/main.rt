// Puts the listings of a night's parts together: `night_join FOLDER > night.listing`. FOLDER has the night's plan and, of the part of
// a chain and a window, CHAIN/WINDOW.listing. What the accounts have left is written to FOLDER/accounts.next.toml.
#![tactic(auto)]

mod folder;
mod late_file;

use crate::folder::Folder;
use crate::late_file::LateFile;
use batch_io::{StdSink, StdSource};
use night_merge::{Stop, merge_night};
use std::alloc::AllocError;
use std::fs::File;
use std::process::ExitCode;
use std::rt::Env;
use std::{env, io};

/// Why a night isn't joined.
#[derive(Clone, Copy, Debug, PartialEq, Eq)]
enum Failure {
    /// The words aren't one folder.
    BadWords,
    /// The joining stopped, or there is no plan, which is a read that failed.
    Stopped(Stop),
}

impl Failure {
    /// The status that the program ends with.
    fn status(self) -> u8 {
        match self {
            Failure::BadWords => 2,
            Failure::Stopped(Stop::NoMemory) => 3,
            Failure::Stopped(Stop::ReadFault) => 4,
            Failure::Stopped(Stop::WriteFault) => 5,
            Failure::Stopped(Stop::BadPlan) => 7,
            Failure::Stopped(Stop::Missing(_)) => 8,
            Failure::Stopped(Stop::OtherListing(_)) => 9,
        }
    }

    /// What the program says of it on standard error, behind the name of the part where it is one of a part.
    fn text(self) -> &'static str {
        match self {
            Failure::BadWords => "the words are a folder that night_cut has made",
            Failure::Stopped(Stop::NoMemory) => "memory was wanting",
            Failure::Stopped(Stop::ReadFault) => "the plan or a listing can't be read",
            Failure::Stopped(Stop::WriteFault) => {
                "the listing or accounts.next.toml can't be written"
            }
            Failure::Stopped(Stop::BadPlan) => "the plan isn't a night's",
            Failure::Stopped(Stop::Missing(_)) => "isn't there",
            Failure::Stopped(Stop::OtherListing(_)) => "isn't the listing of its part",
        }
    }
}

impl From<AllocError> for Failure {
    fn from(_: AllocError) -> Failure {
        Failure::Stopped(Stop::NoMemory)
    }
}

impl From<Stop> for Failure {
    fn from(stop: Stop) -> Failure {
        Failure::Stopped(stop)
    }
}

fn main(rt: HostRuntime) -> ExitCode {
    match run(&rt) {
        Ok(()) => ExitCode::SUCCESS,
        Err(failure) => {
            tell(&rt, failure);
            ExitCode::from(failure.status())
        }
    }
}

/// Joins the night in the folder that the words say.
fn run(rt: &HostRuntime) -> Result<(), Failure> {
    let words = command_words(rt)?;
    match words.as_slice() {
        [folder] => join(rt, folder.as_str()),
        _ => Err(Failure::BadWords),
    }
}

/// Joins the night in this folder.
fn join(rt: &HostRuntime, name: &str) -> Result<(), Failure> {
    let path = format!(in rt.alloc(); "{name}/plan")?;
    let next_path = format!(in rt.alloc(); "{name}/accounts.next.toml")?;
    let Ok(plan) = File::open(rt, path.as_str()) else {
        return Err(Failure::Stopped(Stop::ReadFault));
    };
    merge_night(
        rt.alloc(),
        &mut StdSource::new(plan),
        &mut Folder::new(rt, rt.alloc(), name),
        &mut StdSink::new(rt.stdout()),
        &mut LateFile::new(rt, next_path.as_str()),
    )?;
    Ok(())
}

/// Says on standard error why the night isn't joined, and names the part that it stopped at. Where that can't be written, the status says it.
fn tell(rt: &HostRuntime, failure: Failure) {
    let text = failure.text();
    let _ = match failure {
        Failure::Stopped(Stop::Missing(part) | Stop::OtherListing(part)) => {
            let chain = part.chain;
            let window = part.window;
            eprintln!(rt; "night_join: {chain}/{window}.listing {text}")
        }
        _ => eprintln!(rt; "night_join: {text}"),
    };
}

/// The words behind the program's name. A word that is no text is no word of the program's.
fn command_words(rt: &(impl Env + AllocGlobal)) -> Result<Vec<String>, Failure> {
    let args = match env::args(rt) {
        Ok(args) => args,
        Err(error) if error.kind() == io::ErrorKind::OutOfMemory => {
            return Err(Failure::Stopped(Stop::NoMemory));
        }
        Err(_) => return Err(Failure::BadWords),
    };
    match args.skip(1).collect(rt.alloc()) {
        Ok(words) => Ok(words),
        Err(AllocError) => Err(Failure::Stopped(Stop::NoMemory)),
    }
}
