ghost use Rattle.std.specs.Prelude.{◌≡◌, [], false, IfOk, Err, map, string_bytes};
ghost use Rattle.clap.specs.Words.{app_of, fault_of, found_of, matches_of, rows_of};
ghost use Rattle.clap.specs.Walk.{rule_of};
ghost use Rattle.command_words.specs.Command.{flag_rule, monitor_app, option_rule};

use crate::order::WordsError;
use clap::error::ErrorKind;
use clap::{Arg, ArgAction, ArgMatches, Command};
use std::alloc::{AllocError, Global};

/// What `clap` takes the words for, by the monitor's command.
pub fn matches_of<'a>(alloc: Global, words: &'a [String]) -> Result<ArgMatches<'a>, WordsError>
    ensures ok { IfOk result (λ m. (fault_of monitor_app (map string_bytes words.entry.now) ≡ [])
        × (rows_of (found_of m) ≡ matches_of monitor_app (map string_bytes words.entry.now))) }
    ensures bad { result ≡ Err WordsError.BadWords
        → fault_of monitor_app (map string_bytes words.entry.now) ≡ [] → ⊥ }
{
    let Ok(command) = command(alloc) else {
        return Err(WordsError::NoMemory);
    };
    match command.try_get_matches_from(words) {
        Ok(matches) => Ok(matches),
        Err(error) if error.kind() == ErrorKind::OutOfMemory => Err(WordsError::NoMemory),
        Err(_) => Err(WordsError::BadWords),
    }
}

/// The command: its five options and its two flags, with no help and no version of `clap`'s own.
fn command<'a>(alloc: Global) -> Result<Command<'a>, AllocError>
    ensures { IfOk result (λ c. app_of c ≡ monitor_app) }
{
    Command::new(alloc, "monitor")
        .no_binary_name(true)
        .disable_help_flag(true)
        .disable_version_flag(true)
        .arg(option(alloc, "workers"))?
        .arg(option(alloc, "queue"))?
        .arg(option(alloc, "make"))?
        .arg(option(alloc, "jobs"))?
        .arg(option(alloc, "statement"))?
        .arg(flag(alloc, "accounts"))?
        .arg(flag(alloc, "board"))
}

/// An option that takes a value.
fn option<'a>(alloc: Global, name: &'a str) -> Arg<'a>
    ensures rule { rule_of result ≡ option_rule name.entry.now }
    ensures global { result.global ≡ false }
{
    Arg::new(alloc, name).long(name).action(ArgAction::Set)
}

/// A flag, which takes no value.
fn flag<'a>(alloc: Global, name: &'a str) -> Arg<'a>
    ensures rule { rule_of result ≡ flag_rule name.entry.now }
    ensures global { result.global ≡ false }
{
    Arg::new(alloc, name).long(name).action(ArgAction::SetTrue)
}
