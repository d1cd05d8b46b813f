// Reads a batch of cards from standard input, runs its jobs, and writes the listing to standard output; the accounts file of
// `--accounts` is read from and written to the working folder.
#![tactic(auto)]

use batch_io::{FileSink, FileSource, OpenGate, StdSink, StdSource};
use batch_monitor::{Status, run_monitor};
use std::alloc::AllocError;
use std::process::ExitCode;
use std::rt::Env;
use std::{env, io};

/// The file that the opening balances are read from.
const ACCOUNTS: &str = "accounts.toml";

/// The file that the closing balances are written to.
const NEXT_ACCOUNTS: &str = "accounts.next.toml";

fn main(rt: HostRuntime) -> ExitCode {
    let status = match command_words(&rt) {
        Ok(words) => {
            let mut source = StdSource::new(rt.stdin());
            let mut sink = StdSink::new(rt.stdout());
            let mut accounts = FileSource::new(&rt, ACCOUNTS);
            let mut next_accounts = FileSink::new(&rt, NEXT_ACCOUNTS);
            run_monitor(
                &rt,
                rt.alloc(),
                words.as_slice(),
                &mut source,
                &mut sink,
                &mut accounts,
                &mut next_accounts,
                &OpenGate,
            )
        }
        Err(status) => status,
    };
    ExitCode::from(status.number())
}

/// The words behind the program's name. A word that is no text is no word of the monitor's.
fn command_words(rt: &(impl Env + AllocGlobal)) -> Result<Vec<String>, Status> {
    let args = match env::args(rt) {
        Ok(args) => args,
        Err(error) if error.kind() == io::ErrorKind::OutOfMemory => return Err(Status::NoMemory),
        Err(_) => return Err(Status::BadWords),
    };
    match args.skip(1).collect(rt.alloc()) {
        Ok(words) => Ok(words),
        Err(AllocError) => Err(Status::NoMemory),
    }
}
