ghost use Rattle.code_decks.specs.BatchDecks.{CodeOfBatchDecks};
ghost use Rattle.code_decks.specs.CodeTables.{CodeOfCallingDecks, CodeOfManualDecks, CodeOfRunningDecks, CodeOfWidthDecks};
ghost use Rattle.code_decks.specs.MoreDecks.{CodeOfMoreDecks};

/// The code of each deck of a table gives what its program means.
pub fn code_of_running_decks()
    ensures { CodeOfRunningDecks }
{}

/// The code of each deck of a table gives what its program means.
pub fn code_of_calling_decks()
    ensures { CodeOfCallingDecks }
{}

/// The code of each deck of a table gives what its program means.
pub fn code_of_manual_decks()
    ensures { CodeOfManualDecks }
{}

/// The code of each deck of a table gives what its program means.
pub fn code_of_width_decks()
    ensures { CodeOfWidthDecks }
{}

/// So does the code of each of some further decks.
pub fn code_of_more_decks()
    ensures { CodeOfMoreDecks }
{}

/// And the code of the decks of some batches gives what is stated of them.
pub fn code_of_batch_decks()
    ensures { CodeOfBatchDecks }
{}
