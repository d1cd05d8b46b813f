ghost use Rattle.program_runs.specs.Laws.{BatchesRunByTable, CodeOfDecksIsRight, CodeOfProgramsIsRight, JobsRunByTable, ProgramsRunAsTheyMean};

/// A deck that has no diagnostic, alone or with its library, is a program. Its code is well-formed, and always ends: for all data and
/// limits it comes in some number of rows, never stuck, to an end. And the end shows what the program means, by
/// environments and by copying: the ending, the statement, the steps, the lines, the counts and the dump.
pub fn code_of_decks_is_right()
    ensures { CodeOfDecksIsRight }
{}

/// So is the code of every program without faults, where its tree is one of a deck.
pub fn code_of_programs_is_right()
    ensures { CodeOfProgramsIsRight }
{}

/// Every job is diagnosed, or its result is what the run of its program's code shows.
pub fn jobs_run_by_table()
    ensures { JobsRunByTable }
{}

/// So it is with every job of every batch.
pub fn batches_run_by_table()
    ensures { BatchesRunByTable }
{}

/// The code of a typed program that never goes wrong runs as the program means.
pub fn programs_run_as_they_mean()
    ensures { ProgramsRunAsTheyMean }
{}
