ghost use Rattle.std.specs.Prelude.{◌≡◌, [], IfOk, Err, Some, map, string_bytes, bytes_eq};
ghost use Rattle.std.specs.List.{list_any};
ghost use Rattle.std.specs.Option.{option_map};
ghost use Rattle.command_words.specs.Form.{IsOrder, dashed, make_from, number_in, order_from};

use crate::numbers::{number_in, number_or};
use crate::options::matches_of;
use deck_reader::{Name, name_of};
use std::alloc::Global;

/// What the words tell the monitor to do.
#[derive(Clone, Copy, PartialEq, Eq)]
pub enum Order {
    /// Run a batch that is read.
    Run {
        /// The number of workers.
        workers: u32,
        /// The number of tickets that the queue holds.
        queue: u32,
        /// Whether the accounts are those of an accounts file, and the closing balances go to one.
        accounts: bool,
        /// Whether a line of the operator's board follows the listing.
        board: bool,
    },
    /// Run a batch that is made.
    Make {
        /// The seed that the batch is made from.
        seed: u32,
        /// The number of its jobs.
        jobs: u32,
        /// The number of workers.
        workers: u32,
        /// The number of tickets that the queue holds.
        queue: u32,
    },
    /// Run a batch that is read, and write the statement of one of its accounts.
    Statement {
        /// The account's name, in capitals.
        name: Name,
        /// The number of workers.
        workers: u32,
        /// The number of tickets that the queue holds.
        queue: u32,
    },
}

/// Why the words give no order.
#[derive(Clone, Copy, Debug, PartialEq, Eq)]
pub enum WordsError {
    /// They aren't of the form.
    BadWords,
    /// Memory was wanting.
    NoMemory,
}

/// The order that the words say. They are refused exactly where they say none.
pub fn read_words(alloc: Global, words: &[String]) -> Result<Order, WordsError>
    ensures ok { IfOk result (IsOrder (map string_bytes words.now)) }
    ensures bad { result ≡ Err WordsError.BadWords
        → (order : Order) → IsOrder (map string_bytes words.now) order → ⊥ }
{
    if has_dashes(words) {
        return Err(WordsError::BadWords);
    }
    let matches = match matches_of(alloc, words) {
        Ok(matches) => matches,
        Err(error) => return Err(error),
    };
    let workers = number_or(4, matches.get_str("workers"), 1, 16);
    let queue = number_or(8, matches.get_str("queue"), 1, 64);
    let make = matches.get_str("make");
    let jobs = matches.get_str("jobs");
    let statement = matches.get_str("statement");
    let accounts = matches.get_flag("accounts");
    let board = matches.get_flag("board");
    match order_from(make, jobs, statement, accounts, board, workers, queue) {
        Some(order) => Ok(order),
        None => Err(WordsError::BadWords),
    }
}

/// Whether one of the words is `--`, which would end the options.
fn has_dashes(words: &[String]) -> bool
    ensures { result ≡ list_any (λ word. bytes_eq (string_bytes word) (dashed [])) words.now }
{
    words.iter().any(|word| is_dashes(word))
}

fn is_dashes(word: &String) -> bool
    ensures { result ≡ bytes_eq (string_bytes word.now) (dashed []) }
{
    word.as_str() == "--"
}

/// The order of these values. `--make` and `--jobs` stand together or not at all. They and `--statement` don't stand together,
/// and none of these three stands beside `--accounts` or `--board`.
fn order_from(
    make: Option<&str>,
    jobs: Option<&str>,
    statement: Option<&str>,
    accounts: bool,
    board: bool,
    workers: Option<u32>,
    queue: Option<u32>,
) -> Option<Order>
    ensures { result ≡ order_from (option_map (λ s. s.now) make.entry) (option_map (λ s. s.now) jobs.entry)
        (option_map (λ s. s.now) statement.entry) accounts board workers queue }
{
    let workers = workers?;
    let queue = queue?;
    match (make, jobs, statement, accounts || board) {
        (None, None, None, _) => Some(Order::Run {
            workers,
            queue,
            accounts,
            board,
        }),
        (None, None, Some(name), false) => Some(Order::Statement {
            name: name_of(name.as_bytes())?,
            workers,
            queue,
        }),
        (Some(make), Some(jobs), None, false) => made(make, jobs, workers, queue),
        _ => None,
    }
}

fn made(make: &str, jobs: &str, workers: u32, queue: u32) -> Option<Order>
    ensures { result ≡ make_from (number_in 0 4294967295 make.now) (number_in 1 2000 jobs.now)
        (Some workers) (Some queue) }
{
    Some(Order::Make {
        seed: number_in(make, 0, u32::MAX)?,
        jobs: number_in(jobs, 1, 2000)?,
        workers,
        queue,
    })
}
