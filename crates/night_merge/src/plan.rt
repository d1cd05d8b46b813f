ghost use Rattle.std.specs.Prelude.{◌≡◌, ◌++◌, ◌+◌, ◌≤◌, ◌<◌, ◌^◌, ℕ, List, Some, decimal, length};
ghost use Rattle.deck_reader.specs.declared.batch.Account.{Account};
ghost use Rattle.deck_reader.specs.declared.batch.Flaw.{Flaw};
ghost use Rattle.deck_reader.specs.Flaws.{flaw_number};
ghost use Rattle.night_merge.specs.declared.plan.Line.{Line};
ghost use Rattle.night_merge.specs.Plan.{IsSaid, line_text};

use crate::texts::{behind, number_of};
use deck_reader::{Account, Flaw, Name, split_once};

/// The most bytes of a name.
const MOST_NAME: usize = 80;

/// What a plan says of a job.
#[derive(Clone, Copy)]
pub enum Entry {
    /// It is the next one of this chain, numbered from 0.
    Job {
        chain: u32,
    },
    /// It is in no part, and refused for its flaw.
    Refused {
        flaw: Flaw,
        name: Name,
        account_name: Name,
    },
}

impl Entry {
    ghost use Rattle.std.specs.Prelude.{◌≡◌};
    ghost use Rattle.night_merge.specs.Entries.{is_in};

    /// Whether the job is in this chain.
    pub fn is_in(&self, chain: u32) -> bool
        ensures { result ≡ is_in chain self.now }
    {
        match self {
            Entry::Job { chain: own } => *own == chain,
            Entry::Refused { .. } => false,
        }
    }
}

/// A line of a plan.
#[derive(Clone, Copy)]
pub enum Line {
    /// How many chains there are.
    Night { chains: u32 },
    /// The next account.
    Opened(Account),
    /// The window of this number begins.
    Window { number: u32 },
    /// The next job.
    Listed(Entry),
    /// The night ends, with so many stray cards.
    Stray { count: u64 },
}

/// What a line of a plan says, or nothing where it is none.
pub fn line_of(text: &[u8]) -> Option<Line>
    ensures { (line : Line) → IsSaid line → text.now ≡ line_text line → result ≡ Some line }
{
    let (first, _) = text.split_first()?;
    match *first {
        b'N' => night_of(text),
        b'A' => opened_of(text),
        b'W' => window_of(text),
        b'R' => refused_of(text),
        b'S' => stray_of(text),
        _ => job_of(text),
    }
}

/// The line that says how many chains there are.
fn night_of(text: &[u8]) -> Option<Line>
    ensures { (chains : ℕ) → IsSaid (Line.Night chains) → text.now ≡ line_text (Line.Night chains) → result ≡ Some (Line.Night chains) }
{
    let chains = small_number_of(behind(text, b"NIGHT 1 CHAINS ")?)?;
    Some(Line::Night { chains })
}

/// An account's line.
fn opened_of(text: &[u8]) -> Option<Line>
    ensures { (account : Account) → IsSaid (Line.Opened account) → text.now ≡ line_text (Line.Opened account) → result ≡ Some (Line.Opened account) }
{
    let (name, opening) = split_once(behind(text, b"ACCOUNT ")?, b' ')?;
    Some(Line::Opened(Account {
        name: word_of(name)?,
        opening: number_of(opening)?,
    }))
}

/// The line over a window.
fn window_of(text: &[u8]) -> Option<Line>
    ensures { (number : ℕ) → IsSaid (Line.Window number) → text.now ≡ line_text (Line.Window number) → result ≡ Some (Line.Window number) }
{
    let number = small_number_of(behind(text, b"WINDOW ")?)?;
    Some(Line::Window { number })
}

/// The line of a job that is in a chain.
fn job_of(text: &[u8]) -> Option<Line>
    ensures { (chain : ℕ) → IsSaid (Line.Listed (Entry.Job chain)) → text.now ≡ line_text (Line.Listed (Entry.Job chain)) → result ≡ Some (Line.Listed (Entry.Job chain)) }
{
    let chain = small_number_of(text)?.checked_sub(1)?;
    Some(Line::Listed(Entry::Job { chain }))
}

/// The line of a job that is refused.
fn refused_of(text: &[u8]) -> Option<Line>
    ensures { (flaw : Flaw) (name account_name : List ℕ) → IsSaid (Line.Listed (Entry.Refused flaw name account_name))
        → text.now ≡ line_text (Line.Listed (Entry.Refused flaw name account_name)) → result ≡ Some (Line.Listed (Entry.Refused flaw name account_name)) }
{
    let (flaw, names) = split_once(behind(text, b"REFUSED ")?, b' ')?;
    let (name, account_name) = split_once(names, b' ')?;
    Some(Line::Listed(Entry::Refused {
        flaw: flaw_of(number_of(flaw)?)?,
        name: word_of(name)?,
        account_name: word_of(account_name)?,
    }))
}

/// The line that ends a plan.
fn stray_of(text: &[u8]) -> Option<Line>
    ensures { (count : ℕ) → IsSaid (Line.Stray count) → text.now ≡ line_text (Line.Stray count) → result ≡ Some (Line.Stray count) }
{
    let count = number_of(behind(text, b"STRAY ")?)?;
    Some(Line::Stray { count })
}

/// The number that these digits state, below 2^32.
fn small_number_of(digits: &[u8]) -> Option<u32>
    ensures { (n : ℕ) → n < 2 ^ 32 → digits.now ≡ decimal n → result ≡ Some n }
{
    u32::try_from(number_of(digits)?).ok()
}

/// A word of at most 80 bytes.
fn word_of(text: &[u8]) -> Option<Name>
    ensures { length text.now ≤ 80 → result ≡ Some text.now }
{
    if text.len() > MOST_NAME {
        return None;
    }
    Some(Name::from_slice(text))
}

/// The flaw of this number.
fn flaw_of(number: u64) -> Option<Flaw>
    ensures { (flaw : Flaw) → number ≡ flaw_number flaw → result ≡ Some flaw }
{
    match number {
        1 => Some(Flaw::CardTooLong),
        2 => Some(Flaw::ByteNotAllowed),
        3 => Some(Flaw::JobCard),
        4 => Some(Flaw::NumberOutOfRange),
        5 => Some(Flaw::TooManyCards),
        6 => Some(Flaw::AccountUnknown),
        7 => Some(Flaw::LibraryUnknown),
        8 => Some(Flaw::LibraryIllFormed),
        _ => None,
    }
}
