ghost use Rattle.deck_reader.specs.CardForms.{JobCardByParts, AccountCardByParts, LibraryCardByParts};
ghost use Rattle.deck_reader.specs.CardLaws.{PiecesJoined};
ghost use Rattle.deck_reader.specs.BatchLaws.{AccountsStay, JobsStay, LibrariesStay};
ghost use Rattle.deck_reader.specs.JobEquality.{EqualJobsAreSame};

/// A card gives a job's parts exactly where it is a job card with these parts.
pub fn job_card_by_parts()
    ensures { JobCardByParts }
{}

/// A card gives an account's parts exactly where it is an account card with these parts.
pub fn account_card_by_parts()
    ensures { AccountCardByParts }
{}

/// A card gives a library's name exactly where it is a library's first card with this name.
pub fn library_card_by_parts()
    ensures { LibraryCardByParts }
{}

/// The pieces, put together with line feeds, are the input again.
pub fn pieces_joined()
    ensures { PiecesJoined }
{}

/// The jobs that a part of an input has ended are the first jobs of the whole.
pub fn jobs_stay()
    ensures { JobsStay }
{}

/// The accounts that are known from a part of an input are those of the whole.
pub fn accounts_stay()
    ensures { AccountsStay }
{}

/// The libraries that are known from a part of an input are those of the whole.
pub fn libraries_stay()
    ensures { LibrariesStay }
{}

/// Two jobs are equal exactly where they are the same.
pub fn equal_jobs_are_same()
    ensures { EqualJobsAreSame }
{}
