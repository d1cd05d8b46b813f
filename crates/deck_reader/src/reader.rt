ghost use Rattle.std.specs.Prelude.{◌≡◌, ◌≤◌, ◌+◌, ◌++◌, ◌∷◌, [], List, Option, ℕ, true, false, None, Some, IfOk, IfErr, IfNone, IfSome, OnOk, OnSome, IsErrOf, MatchOption, length};
ghost use Rattle.deck_reader.specs.declared.batch.Account.{Account};
ghost use Rattle.deck_reader.specs.Batch.{batch_with, ended_jobs, known_accounts, known_libraries, passes, too_large};
ghost use Rattle.deck_reader.specs.JobView.{JobView};

use crate::batch::{Account, Batch, Job};
use crate::bytes::split_once;
use crate::cleaning::clean_into;
use crate::library::KeptLibrary;
use crate::listed::Listed;
use crate::reading::{Reading, Stage};
use std::alloc::{AllocError, Global};

/// The most bytes of a batch.
const MOST_BYTES: usize = 4_194_304;

/// The most jobs of a batch.
const MOST_JOBS: u32 = 2_000;

/// Why a reader refuses.
#[derive(Clone, Copy, Debug, PartialEq, Eq)]
pub enum FeedError {
    /// The bytes fed are more than a batch may have.
    TooLarge,
    /// Memory was wanting.
    NoMemory,
}

impl From<AllocError> for FeedError {
    ghost use Rattle.std.specs.Prelude.{◌≡◌};
    ghost use Rattle.deck_reader.specs.declared.reader.FeedError.TheVariants.{NoMemory};

    ghost from_gives = { λ _ e. e ≡ NoMemory };

    fn from(_: AllocError) -> FeedError {
        FeedError::NoMemory
    }
}

/// A reader of a batch, which is fed the input in pieces of any size, and reads each as it comes. It keeps the cards of
/// the jobs that may still run, until they are taken, and the card under way. Once it has refused a piece it gives the same answer from then on.
#[derive(Drop)]
pub struct Reader {
    alloc: Global,
    /// How many bytes were fed.
    fed: usize,
    /// What came behind the last line feed.
    under_way: Vec<u8>,
    /// Room for the card of a piece.
    card: Vec<u8>,
    /// What is kept of the cards before that.
    reading: Reading,
    /// Why the reader refuses, where it does.
    refused: Option<FeedError>,
}

impl Reader {
    ghost use Rattle.deck_reader.specs.Fed.{StandsFor, left_to_take, refusal};
    ghost use Rattle.deck_reader.specs.Reading.{IsReading, TakesCard, put_back};
    ghost use Rattle.deck_reader.specs.Cards.{cleaned, cards};

    /// A reader that was fed nothing.
    pub fn new(alloc: Global) -> Result<Reader, AllocError>
        ensures { IfOk result (λ r. StandsFor None r [] []) }
    {
        Ok(Reader {
            alloc,
            fed: 0,
            under_way: Vec::new(alloc),
            card: Vec::new(alloc),
            reading: Reading::new(alloc),
            refused: None,
        })
    }

    /// A reader that was fed nothing, of a batch with these accounts: no card opens one.
    pub fn with_accounts(alloc: Global, accounts: Listed<Account>) -> Result<Reader, AllocError>
        requires { length accounts ≤ 500 }
        ensures { IfOk result (λ r. StandsFor (Some accounts) r [] []) }
    {
        Ok(Reader {
            alloc,
            fed: 0,
            under_way: Vec::new(alloc),
            card: Vec::new(alloc),
            reading: Reading::with_accounts(alloc, accounts),
            refused: None,
        })
    }

    /// Takes the next bytes. They are refused as too large exactly where all bytes fed so far pass a limit.
    pub fn feed(&mut self, bytes: &[u8]) -> Result<(), FeedError>
        ensures fed { (given : Option (List Account)) (taken : List JobView) (input : List ℕ) → StandsFor given self.old taken input →
            OnOk result (StandsFor given self.new taken (input ++ bytes.now)) }
        ensures fits { (given : Option (List Account)) (taken : List JobView) (input : List ℕ) → StandsFor given self.old taken input →
            OnOk result (passes (input ++ bytes.now) ≡ false) }
        ensures large { (given : Option (List Account)) (taken : List JobView) (input : List ℕ) → StandsFor given self.old taken input → IsErrOf result FeedError.TooLarge →
            passes (input ++ bytes.now) ≡ true }
        ensures refused { IfErr result (λ e. refusal self.new ≡ Some e) }
        ensures kept { (e : FeedError) → refusal self.old ≡ Some e →
            (result ≡ Err e) × (self.new ≡ self.old) }
    {
        if let Some(error) = self.refused {
            return Err(error);
        }
        let taken = self.take(bytes);
        if let Err(error) = taken {
            self.refused = Some(error);
        }
        taken
    }

    /// The accounts, once a card has begun a job: no later byte changes them.
    pub fn accounts(&self) -> Option<&[Account]>
        ensures known { (given : Option (List Account)) (taken : List JobView) (input : List ℕ) → StandsFor given self.now taken input →
            MatchOption result (known_accounts given input ≡ None) (λ a. known_accounts given input ≡ Some a.now) }
        ensures few { IfSome result (λ a. length a.now ≤ 500) }
    {
        match self.reading.stage {
            Stage::Front | Stage::Library(_) => None,
            _ => Some(self.reading.accounts.as_slice()),
        }
    }

    /// The libraries, once a card has begun a job: no later byte changes them.
    pub fn libraries(&self) -> Option<&[KeptLibrary]>
        ensures { (given : Option (List Account)) (taken : List JobView) (input : List ℕ) → StandsFor given self.now taken input →
            MatchOption result (known_libraries input ≡ None) (λ l. known_libraries input ≡ Some l.now) }
    {
        match self.reading.stage {
            Stage::Front | Stage::Library(_) => None,
            _ => Some(self.reading.shelf.as_slice()),
        }
    }

    /// Takes the next job that a card has ended, where there is one: its end card, or the card that begins the next job.
    /// It takes no memory.
    pub fn take_job(&mut self) -> Option<Job>
        ensures next { (given : Option (List Account)) (taken : List JobView) (input : List ℕ) → StandsFor given self.old taken input →
            IfSome result (λ job. StandsFor given self.new (taken ++ job ∷ []) input) }
        ensures none { (given : Option (List Account)) (taken : List JobView) (input : List ℕ) → StandsFor given self.old taken input →
            IfNone result (ended_jobs given input ≡ taken) }
        ensures kept { (given : Option (List Account)) (taken : List JobView) (input : List ℕ) → StandsFor given self.old taken input →
            IfNone result (StandsFor given self.new taken input) }
        ensures fewer { OnSome result (left_to_take self.new + 1 ≡ left_to_take self.old) }
    {
        self.reading.jobs.pop()
    }

    /// The batch of all bytes fed, but for the jobs that were taken.
    pub fn finish(mut self) -> Result<Batch, FeedError>
        ensures batch { (given : Option (List Account)) (taken : List JobView) (input : List ℕ) → StandsFor given self taken input → IfOk result (λ b. record b { jobs = taken ++ b.jobs } ≡ batch_with given input) }
        ensures few { IfOk result (λ b. length b.accounts ≤ 500) }
        ensures fits { (given : Option (List Account)) (taken : List JobView) (input : List ℕ) → StandsFor given self taken input → OnOk result (too_large input ≡ false) }
        ensures large { (given : Option (List Account)) (taken : List JobView) (input : List ℕ) → StandsFor given self taken input → IsErrOf result FeedError.TooLarge →
            too_large input ≡ true }
        ensures kept { (e : FeedError) → refusal self ≡ Some e → result ≡ Err e }
    {
        if let Some(error) = self.refused {
            return Err(error);
        }
        self.end_input()?;
        if self.reading.heads > MOST_JOBS {
            return Err(FeedError::TooLarge);
        }
        Ok(self.reading.finish(self.alloc)?)
    }

    fn take(&mut self, bytes: &[u8]) -> Result<(), FeedError>
        ensures fed { (given : Option (List Account)) (taken : List JobView) (input : List ℕ) → StandsFor given self.old taken input →
            OnOk result (StandsFor given self.new taken (input ++ bytes.now)) }
        ensures fits { (given : Option (List Account)) (taken : List JobView) (input : List ℕ) → StandsFor given self.old taken input →
            OnOk result (passes (input ++ bytes.now) ≡ false) }
        ensures large { (given : Option (List Account)) (taken : List JobView) (input : List ℕ) → StandsFor given self.old taken input → IsErrOf result FeedError.TooLarge →
            passes (input ++ bytes.now) ≡ true }
    {
        if bytes.len() > MOST_BYTES || self.fed > MOST_BYTES - bytes.len() {
            return Err(FeedError::TooLarge);
        }
        self.fed += bytes.len();
        let mut rest = bytes;
        while let Some((front, behind)) = split_once(rest, b'\n') {
            self.under_way.extend_from_slice(front)?;
            self.end_card()?;
            if self.reading.heads > MOST_JOBS {
                return Err(FeedError::TooLarge);
            }
            rest = behind;
        }
        self.under_way.extend_from_slice(rest)?;
        Ok(())
    }

    /// Reads the card under way, where the input ends with one.
    fn end_input(&mut self) -> Result<(), AllocError>
        ensures read { (given : Option (List Account)) (taken : List JobView) (input : List ℕ) → StandsFor given self.old taken input →
            OnOk result (IsReading given (put_back taken self.new.reading) (cards input)) }
    {
        if self.under_way.is_empty() {
            return Ok(());
        }
        self.end_card()?;
        Ok(())
    }

    /// Reads the card under way, which has ended.
    fn end_card(&mut self) -> Result<(), AllocError>
        ensures read { TakesCard self.old.reading self.new.reading (cleaned self.old.under_way.items) result }
        ensures empty { OnOk result (self.new.under_way.items ≡ []) }
        ensures fed { self.new.fed ≡ self.old.fed }
        ensures refused { self.new.refused ≡ self.old.refused }
    {
        clean_into(&mut self.card, self.under_way.as_slice())?;
        self.under_way.clear();
        self.reading.take_card(self.alloc, self.card.as_slice())
    }
}
