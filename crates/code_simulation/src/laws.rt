ghost use Rattle.code_simulation.specs.Statement.{CodeDoesWhatTheProgramDoes, CodeRunsAsTheProgramMeans};

/// Some number of rows of a program's code, and any larger number, end as the meaning by environments does, with the
/// same lines, counts and steps; and where that stops by a fault or a limit, in the same statement and with the same dump.
pub fn code_does_what_the_program_does()
    ensures { CodeDoesWhatTheProgramDoes }
{}

/// The code of a typed program comes to an outcome, in some number of rows, with the ending, the lines, the counts, the
/// steps and the dump of the program's meaning by copying. Of a program that goes wrong nothing is claimed.
pub fn code_runs_as_the_program_means()
    ensures { CodeRunsAsTheProgramMeans }
{}
