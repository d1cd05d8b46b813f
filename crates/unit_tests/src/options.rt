use crate::rows::{see, unsigned, words};
use command_words::{Order, WordsError, read_words};
use deck_reader::Name;
use std::alloc::{AllocError, Global};
use std::process::Abort;

/// The words of a line with a blank between them. An empty line has none.
fn words_of(alloc: Global, line: &str) -> Result<Vec<String>, AllocError> {
    let mut words = Vec::new(alloc);
    if !line.is_empty() {
        for word in line.split(' ') {
            words.push(String::from_str(alloc, word)?)?;
        }
    }
    Ok(words)
}

fn read(alloc: Global, line: &str) -> Result<Order, WordsError> {
    let Ok(words) = words_of(alloc, line) else {
        return Err(WordsError::NoMemory);
    };
    read_words(alloc, words.as_slice())
}

/// A line, and behind the bar the workers and the queue of its order, in front of which stand the seed and the jobs of one that
/// makes a batch. An accounts file and a board are asked for where the line says so.
const ORDERS: &str = "\
|4 8
--workers 1|1 8
--workers=16|16 8
--queue 1|4 1
--queue=64|4 64
--workers=1 --queue 64|1 64
--queue 64 --workers=1|1 64
--workers 0000000016|16 8
--queue=007|4 7
--accounts|4 8
--accounts --workers 2|2 8
--queue=3 --accounts --workers 2|2 3
--board|4 8
--board --queue 3|4 3
--accounts --board|4 8
--board --workers 2 --accounts|2 8
--make 7 --jobs 1|7 1 4 8
--jobs=2 --make 7|7 2 4 8
--make=0 --jobs=2000|0 2000 4 8
--make 4294967295 --jobs 2|4294967295 2 4 8
--make 1971 --jobs 2000 --workers 16 --queue 1|1971 2000 16 1
--queue=2 --jobs 3 --workers=1 --make 0000000004|4 3 1 2
";

/// The order of these numbers, with an accounts file or without one, and with a board or without.
fn order_of(rt: &impl Abort, numbers: &str, accounts: bool, board: bool) -> Order {
    match words(numbers) {
        [workers, queue, "", ..] => Order::Run {
            workers: unsigned(rt, workers),
            queue: unsigned(rt, queue),
            accounts,
            board,
        },
        [seed, jobs, workers, queue, ..] => Order::Make {
            seed: unsigned(rt, seed),
            jobs: unsigned(rt, jobs),
            workers: unsigned(rt, workers),
            queue: unsigned(rt, queue),
        },
    }
}

/// Whether a line is answered so.
fn answers(alloc: Global, line: &str, wanted: Result<Order, WordsError>) -> bool {
    read(alloc, line) == wanted
}

#[test]
fn orders(rt: HostRuntime) {
    for row in ORDERS.lines() {
        let (line, numbers) = row.split_once('|').unwrap_or((row, ""));
        let (accounts, board) = (line.contains("--accounts"), line.contains("--board"));
        let wanted = Ok(order_of(&rt, numbers, accounts, board));
        see(&rt, row, answers(rt.alloc(), line, wanted));
    }
}

/// A line that asks for a statement, and behind the bar the account's name, the workers and the queue.
const STATEMENTS: &str = "\
--statement ADA|ADA 4 8
--statement=ada|ADA 4 8
--statement aDa1 --workers 2|ADA1 2 8
--queue=3 --statement=Z2345678 --workers 16|Z2345678 16 3
";

#[test]
fn statements(rt: HostRuntime) {
    for row in STATEMENTS.lines() {
        let (line, wanted) = row.split_once('|').unwrap_or((row, ""));
        let [name, workers, queue, ..] = words(wanted);
        let name = name.as_bytes();
        assert!(rt; name.len() <= 8);
        let order = Order::Statement {
            name: Name::from_slice(name),
            workers: unsigned(&rt, workers),
            queue: unsigned(&rt, queue),
        };
        see(&rt, row, answers(rt.alloc(), line, Ok(order)));
    }
}

/// A line, and what is wrong with it: a value that isn't of its range or no number, an option without its value, an option given
/// twice, one of two options that stand together, two that don't, or words that are no option.
const REFUSALS: &str = "\
--workers 0|value
--workers 17|value
--workers=00000000004|value
--workers=4294967297|value
--workers four|value
--workers +4|value
--workers -4|value
--workers=-4|value
--workers 4.|value
--workers= |value
--workers=|value
--workers |value
--workers==4|value
--workers 0x4|value
--workers 4_|value
--queue 0|value
--queue 65|value
--queue -|value
--make 4294967296 --jobs 1|value
--make 99999999999 --jobs 1|value
--make -1 --jobs 1|value
--make 7 --jobs 0|value
--make 7 --jobs 2001|value
--make 7 --jobs|value
--workers|no value
--queue 3 --workers|no value
--workers --queue 3|no value
--queue 3 --queue 3|twice
--workers=2 --workers=2|twice
--workers=2 --workers 3|twice
--make 7 --jobs 1 --make 7|twice
--make 7|alone
--jobs 1|alone
--jobs=1 --queue 3|alone
--accounts --make 7 --jobs 1|not together
--make 7 --accounts --jobs 1|not together
--accounts --accounts|twice
--board --make 7 --jobs 1|not together
--make 7 --jobs 1 --board|not together
--board --board|twice
--board --workers|no value
--workers --board|no value
--board=|no option
--board=1|no option
--board yes|no option
--boards|no option
--accounts yes|no option
--accounts --workers|no value
--workers --accounts|no value
--statement|no value
--statement --workers 4|no value
--statement=|value
--statement 1A|value
--statement -A|value
--statement A-B|value
--statement A23456789|value
--statement ADA --statement ADA|twice
--statement ADA --statement=BOB|twice
--statement ADA --accounts|not together
--accounts --statement ADA|not together
--statement ADA --board|not together
--board --statement ADA|not together
--statement ADA --make 7 --jobs 1|not together
--make 7 --jobs 1 --statement ADA|not together
--statement ADA --jobs 1|not together
--statement ADA BOB|no option
--account|no option
-accounts|no option
4|no option
workers 4|no option
-workers 4|no option
-w 4|no option
-w4|no option
---workers 4|no option
--worker 4|no option
--WORKERS 4|no option
--workers4|no option
--workers:4|no option
--threads 4|no option
--accounts=1|no option
--workers 4 5|no option
--workers 4 |no option
 --workers 4|no option
-|no option
--|no option
-- --workers 4|no option
--workers 4 --|no option
--workers -- 4|no option
--help|no option
--workers 4 --help|no option
-h|no option
help|no option
--version|no option
-V|no option
";

#[test]
fn refusals(rt: HostRuntime) {
    for row in REFUSALS.lines() {
        let (line, _) = row.split_once('|').unwrap_or((row, ""));
        let wanted = Err(WordsError::BadWords);
        see(&rt, row, answers(rt.alloc(), line, wanted));
    }
}
