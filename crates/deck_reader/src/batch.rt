use crate::library::{self, Library};
use crate::listed::Listed;
use std::marker::Model;
use std::sync::Arc;
use value_ops::{Card, Name};

/// Why a job is refused before its deck is looked at.
#[derive(Clone, Copy, Debug, PartialEq, Eq)]
pub enum Flaw {
    /// Flaw 1: one of its cards is over 80 bytes.
    CardTooLong = 1,
    /// Flaw 2: one of its cards holds a byte that isn't allowed.
    ByteNotAllowed,
    /// Flaw 3: its job card isn't of the form.
    JobCard,
    /// Flaw 4: a number on its job card is out of range.
    NumberOutOfRange,
    /// Flaw 5: it has over 2,000 cards.
    TooManyCards,
    /// Flaw 6: its account isn't open.
    AccountUnknown,
    /// Flaw 7: its library isn't kept.
    LibraryUnknown,
    /// Flaw 8: its library is ill formed.
    LibraryIllFormed,
}

impl Flaw {
    ghost use Rattle.std.specs.Prelude.{◌≡◌};
    ghost use Rattle.deck_reader.specs.Flaws.{flaw_number, flaw_text};

    /// Its number, 1 to 8.
    pub fn number(self) -> u8
        ensures { result ≡ flaw_number self }
    {
        self as u8
    }

    /// What the listing says of it.
    pub fn text(self) -> &'static [u8]
        ensures { result.now ≡ flaw_text self }
    {
        match self {
            Flaw::CardTooLong => b"CARD OVER 80 BYTES",
            Flaw::ByteNotAllowed => b"BYTE NOT ALLOWED",
            Flaw::JobCard => b"JOB CARD ILL FORMED",
            Flaw::NumberOutOfRange => b"NUMBER OUT OF RANGE",
            Flaw::TooManyCards => b"OVER 2000 CARDS",
            Flaw::AccountUnknown => b"ACCOUNT UNKNOWN",
            Flaw::LibraryUnknown => b"LIBRARY UNKNOWN",
            Flaw::LibraryIllFormed => b"LIBRARY ILL FORMED",
        }
    }
}

/// An account, as its card opened it or as it was given.
#[derive(Clone, Copy)]
pub struct Account {
    /// A capital letter and at most 7 more capitals or digits, whatever the card's case of letters.
    pub name: Name,
    /// The opening balance, at most 999,999,999.
    pub opening: u64,
}

/// A job, as its cards state it.
#[derive(Drop)]
pub struct Job {
    /// Its number in the batch, from 1.
    pub number: u32,
    /// Its name, or `?` where the job can't be read.
    pub name: Name,
    /// Its account's name, or `?` where the job can't be read.
    pub account_name: Name,
    /// Its account's number in the batch, from 0, where that is open.
    pub account: Option<u32>,
    /// Its library, where its card names one. A flawed job has none.
    pub library: Option<Arc<Library>>,
    /// Its deck. A flawed job has none.
    pub deck: Listed<Card>,
    /// Its data cards. A flawed job has none.
    pub data_cards: Listed<Card>,
    /// The most steps that it may take, 1 to 10,000,000.
    pub steps: u32,
    /// The most lines that it may print, 1 to 500.
    pub lines: u32,
    /// How many cards it has, the job card among them.
    pub cards: u32,
    /// Why it is refused, where it is.
    pub flaw: Option<Flaw>,
}

impl Model for Job {
    ghost use Rattle.deck_reader.specs.JobView.{JobView};
    ghost use Rattle.deck_reader.specs.CardFlaws.{is_long, is_foul};
    ghost use Rattle.deck_reader.specs.Shelves.{held};
    ghost use Rattle.std.specs.Prelude.{ℕ, ◌≡◌, ◌≤◌, ◌<◌, ◌+◌, false, length, IfNone, IsSome};
    ghost use Rattle.std.specs.List.{list_any};

    ghost Value = { JobView };

    ghost view = { λ j. record {
      number = j.number;
      name = j.name;
      account_name = j.account_name;
      account = j.account;
      library = held j.library;
      deck = j.deck;
      data_cards = j.data_cards;
      steps = j.steps;
      lines = j.lines;
      cards = j.cards;
      flaw = j.flaw;
    } };

    ghost invariant = { λ j. (1 ≤ j.steps) × (j.steps ≤ 10000000) × (1 ≤ j.lines) × (j.lines ≤ 500)
        × IfNone j.flaw (IsSome j.account × (j.cards ≤ 2000) × (length j.deck + length j.data_cards < j.cards)
        × (list_any is_long j.deck ≡ false) × (list_any is_foul j.deck ≡ false)
        × (list_any is_long j.data_cards ≡ false) × (list_any is_foul j.data_cards ≡ false)) };
}

/// Equal where all their parts are.
impl PartialEq for Job {
    ghost use Rattle.std.specs.Cmp.{decided, partial_equiv_from_equiv};
    ghost use Rattle.deck_reader.specs.JobEquality.{equal_jobs_are_same, job_eq};

    ghost eq = { job_eq };

    ghost laws = { partial_equiv_from_equiv (decided job_eq equal_jobs_are_same) };

    #[tactic(auto, unfolding(crate::specs::JobEquality::job_eq))]
    fn eq(&self, other: &Job) -> bool {
        self.number == other.number
            && self.name == other.name
            && self.account_name == other.account_name
            && self.account == other.account
            && library::same(&self.library, &other.library)
            && self.deck == other.deck
            && self.data_cards == other.data_cards
            && self.steps == other.steps
            && self.lines == other.lines
            && self.cards == other.cards
            && self.flaw == other.flaw
    }
}

impl Eq for Job {
    ghost use Rattle.std.specs.Cmp.{decided};
    ghost use Rattle.deck_reader.specs.JobEquality.{equal_jobs_are_same, job_eq};

    ghost laws = { decided job_eq equal_jobs_are_same };
}

/// What a whole input is.
#[derive(Drop)]
pub struct Batch {
    /// The accounts, at most 500: those that cards opened, in the order of the cards and each with a name of its own, or those
    /// that were given.
    pub accounts: Listed<Account>,
    /// The jobs, in the order of their cards.
    pub jobs: Listed<Job>,
    /// How many stray cards there are.
    pub stray: u32,
}
