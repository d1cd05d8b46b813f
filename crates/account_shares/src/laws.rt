// A batch cut into its accounts, each with its jobs.
ghost use Rattle.account_shares.specs.Laws.{CardsArePlain, FlawedSections, FlawsOrAccounts, OwnBatch, OwnBodies, OwnInput, OwnInputListing, OwnInputStatement, OwnListing, OwnSections, OwnStatement, SectionsFromShares};

/// What stands below a job's title is the same behind its account's jobs alone.
pub fn own_bodies()
    ensures { OwnBodies }
{}

/// The sections of an account's jobs alone are those that they have in the batch, but for the numbers.
pub fn own_sections()
    ensures { OwnSections }
{}

/// A card that opens an account, the cards of the libraries and those of its jobs are a batch of that account and its jobs.
pub fn own_batch()
    ensures { OwnBatch }
{}

/// The listing of that batch has the sections and the closing line that the whole batch has, but for the numbers.
pub fn own_listing()
    ensures { OwnListing }
{}

/// The statement of the account in that batch is the one that it has in the whole batch.
pub fn own_statement()
    ensures { OwnStatement }
{}

/// A job with a flaw has the same section wherever it stands.
pub fn flawed_sections()
    ensures { FlawedSections }
{}

/// Each job of a batch has a flaw or an account.
pub fn flaws_or_accounts()
    ensures { FlawsOrAccounts }
{}

/// The cards of every input are the same when they are read again, with a carriage return behind each.
pub fn cards_are_plain()
    ensures { CardsArePlain }
{}

/// An input of a card that opens an account, and of the libraries' and its jobs' cards, is the batch of that account and its jobs.
pub fn own_input()
    ensures { OwnInput }
{}

/// The listing of that input has the sections and the closing line that the whole has, but for the numbers.
pub fn own_input_listing()
    ensures { OwnInputListing }
{}

/// The statement of the account in that input is the one that it has in the whole.
pub fn own_input_statement()
    ensures { OwnInputStatement }
{}

/// The sections of a batch come from those of its accounts.
pub fn sections_from_shares()
    ensures { SectionsFromShares }
{}
