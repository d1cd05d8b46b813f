ghost use Rattle.std.specs.Prelude.{◌≡◌, ◌≤◌, ◌<◌, ◌+◌, [], true, false, IfOk, OnOk, length};
ghost use Rattle.std.specs.List.{list_all, list_any};
ghost use Rattle.deck_reader.specs.Forms.{is_allowed};
ghost use Rattle.deck_reader.specs.CardFlaws.{is_long, is_foul};
ghost use Rattle.deck_reader.specs.Batch.{account_for, flawed, library_for, job_from, unread};
ghost use Rattle.deck_reader.specs.Options.{is_in_range};
ghost use Rattle.deck_reader.specs.Shelves.{lying};

use crate::accounts;
use crate::batch::{Account, Flaw, Job};
use crate::forms::{self, JobCard};
use crate::library::{self, KeptLibrary, Library};
use crate::listed::Listed;
use crate::options::{Settings, UNSET};
use std::alloc::{AllocError, Global};
use std::sync::Arc;
use value_ops::{Card, Name};

/// The most bytes of a job's card.
const CARD_BYTES: usize = 80;

/// The most cards of a job, the job card among them.
const MOST_CARDS: u32 = 2_000;

/// A job whose cards are still coming.
#[derive(Drop)]
pub struct OpenJob {
    /// Its number in the batch.
    pub number: u32,
    /// What its job card states, where that has the form.
    pub card: Option<JobCard>,
    /// Its account's number, where that is open.
    pub account: Option<u32>,
    /// Its library, where its job card names one; a flaw where it can't have that.
    pub library: Result<Option<Arc<Library>>, Flaw>,
    /// How many cards it has by now, the job card among them.
    pub cards: u32,
    /// Whether one of them is over 80 bytes.
    pub has_long: bool,
    /// Whether one of them holds a byte that isn't allowed.
    pub has_foul: bool,
    /// Whether its data have begun.
    pub in_data: bool,
    /// Its deck by now, as long as it may still run.
    pub deck: Listed<Card>,
    /// Its data cards by now, as long as it may still run.
    pub data_cards: Listed<Card>,
    ghost fewer: { length deck + length data_cards < cards },
    ghost deck_short: { list_any is_long deck ≡ false },
    ghost deck_clean: { list_any is_foul deck ≡ false },
    ghost data_short: { list_any is_long data_cards ≡ false },
    ghost data_clean: { list_any is_foul data_cards ≡ false },
}

/// Whether the card is over 80 bytes.
pub fn is_long(card: &[u8]) -> bool
    ensures { result ≡ is_long card.now }
{
    card.len() > CARD_BYTES
}

/// Whether the card holds a byte that isn't allowed.
pub fn is_foul(card: &[u8]) -> bool
    ensures { result ≡ is_foul card.now }
{
    !all_allowed(card)
}

fn all_allowed(bytes: &[u8]) -> bool
    ensures { result ≡ list_all is_allowed bytes.now }
{
    bytes.iter().all(|b| forms::is_allowed(*b))
}

impl OpenJob {
    ghost use Rattle.deck_reader.specs.Reading.{IsOpenJob, Pushes, card_may_run, may_run};

    /// The job that this card begins.
    pub fn new(
        alloc: Global,
        accounts: &[Account],
        libraries: &[KeptLibrary],
        number: u32,
        head: &[u8],
    ) -> Result<OpenJob, AllocError>
        requires { length accounts.now ≤ 500 }
        ensures { IfOk result (IsOpenJob (record { accounts = accounts.now; shelf = libraries.now }) number head.now []) }
    {
        let card = forms::job_card(head);
        let library = library_for(libraries, &card)?;
        Ok(OpenJob {
            number,
            card,
            account: account_for(accounts, &card),
            library,
            cards: 1,
            has_long: is_long(head),
            has_foul: is_foul(head),
            in_data: false,
            deck: Listed::new(alloc),
            data_cards: Listed::new(alloc),
        })
    }

    /// Whether no flaw applies by now.
    fn may_run(&self) -> bool
        ensures { result ≡ may_run self.now }
    {
        !self.has_long
            && !self.has_foul
            && self.cards <= MOST_CARDS
            && self.account.is_some()
            && self.library.is_ok()
            && self.card_may_run()
    }

    /// Whether the job may run by its card.
    fn card_may_run(&self) -> bool
        ensures { result ≡ card_may_run self.now.card }
    {
        match &self.card {
            None => false,
            Some(card) => card.settings.are_in_range(),
        }
    }

    /// Takes the job's next card.
    pub fn push(&mut self, alloc: Global, card: &[u8]) -> Result<(), AllocError>
        ensures { OnOk result (Pushes self.old self.new card.now) }
    {
        let begins_data = !self.in_data && forms::is_data(card);
        self.cards = self.cards.saturating_add(1);
        self.has_long = self.has_long || is_long(card);
        self.has_foul = self.has_foul || is_foul(card);
        if !self.may_run() {
            self.deck = Listed::new(alloc);
            self.data_cards = Listed::new(alloc);
        } else if self.in_data {
            self.data_cards.push(Card::from_slice(card))?;
        } else if !begins_data {
            self.deck.push(Card::from_slice(card))?;
        }
        self.in_data = self.in_data || begins_data;
        Ok(())
    }

    /// The job, whose cards have all come.
    pub fn close(self, alloc: Global) -> Job
        ensures { result ≡
            job_from self.number self.cards self.has_long self.has_foul self.card self.account
            (lying self.library) self.deck self.data_cards }
    {
        let OpenJob {
            number,
            card,
            account,
            library,
            cards,
            has_long,
            has_foul,
            deck,
            data_cards,
            ..
        } = self;
        if has_long {
            return unread(alloc, number, cards, Flaw::CardTooLong);
        }
        if has_foul {
            return unread(alloc, number, cards, Flaw::ByteNotAllowed);
        }
        let Some(card) = card else {
            return unread(alloc, number, cards, Flaw::JobCard);
        };
        let settings = &card.settings;
        if !settings.are_in_range() {
            let flaw = Flaw::NumberOutOfRange;
            return flawed(alloc, number, cards, &card, account, &UNSET, flaw);
        }
        if cards > MOST_CARDS {
            let flaw = Flaw::TooManyCards;
            return flawed(alloc, number, cards, &card, account, settings, flaw);
        }
        if account.is_none() {
            let flaw = Flaw::AccountUnknown;
            return flawed(alloc, number, cards, &card, account, settings, flaw);
        }
        match library {
            Err(flaw) => flawed(alloc, number, cards, &card, account, settings, flaw),
            Ok(library) => Job {
                number,
                name: card.name,
                account_name: card.account,
                account,
                library,
                deck,
                data_cards,
                steps: settings.steps(),
                lines: settings.lines(),
                cards,
                flaw: None,
            },
        }
    }
}

/// A job that is flawed though its card can be read.
fn flawed(
    alloc: Global,
    number: u32,
    cards: u32,
    card: &JobCard,
    account: Option<u32>,
    settings: &Settings,
    flaw: Flaw,
) -> Job
    requires { is_in_range settings.now ≡ true }
    ensures { result ≡ flawed number cards card.now account settings.now flaw }
{
    Job {
        number,
        name: card.name,
        account_name: card.account,
        account,
        library: None,
        deck: Listed::new(alloc),
        data_cards: Listed::new(alloc),
        steps: settings.steps(),
        lines: settings.lines(),
        cards,
        flaw: Some(flaw),
    }
}

/// The open account of a job card.
fn account_for(accounts: &[Account], card: &Option<JobCard>) -> Option<u32>
    requires { length accounts.now ≤ 500 }
    ensures { result ≡ account_for accounts.now card.now }
{
    match card {
        None => None,
        Some(card) => accounts::find_account(accounts, card.account.as_slice()),
    }
}

/// The library that a job card names, where it names one; a flaw where the job can't have that.
fn library_for(
    libraries: &[KeptLibrary],
    card: &Option<JobCard>,
) -> Result<Result<Option<Arc<Library>>, Flaw>, AllocError>
    ensures { IfOk result (λ found. lying found ≡ library_for libraries.now card.now) }
{
    let name = match card {
        None => None,
        Some(card) => card.settings.library,
    };
    match library::find_library(libraries, name) {
        Ok(None) => Ok(Ok(None)),
        Ok(Some(library)) => {
            let library = library.clone()?;
            Ok(Ok(Some(library)))
        }
        Err(flaw) => Ok(Err(flaw)),
    }
}

/// A job that can't be read.
fn unread(alloc: Global, number: u32, cards: u32, flaw: Flaw) -> Job
    ensures { result ≡ unread number cards flaw }
{
    Job {
        number,
        name: Name::from_slice(b"?"),
        account_name: Name::from_slice(b"?"),
        account: None,
        library: None,
        deck: Listed::new(alloc),
        data_cards: Listed::new(alloc),
        steps: UNSET.steps(),
        lines: UNSET.lines(),
        cards,
        flaw: Some(flaw),
    }
}
