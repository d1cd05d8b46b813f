ghost use Rattle.stack_code.specs.Displays.{DisplaysAreLinks};
ghost use Rattle.stack_code.specs.Ending.{OutcomesAreOne, RowsAreNotStuck};
ghost use Rattle.stack_code.specs.Laws.{OutcomesStay};
ghost use Rattle.stack_code.specs.Made.{CodeIsMade, NumbersAreTold};

/// An outcome within some rows of the table is the outcome within more.
pub fn outcomes_stay()
    ensures { OutcomesStay }
{}

/// Rows that come to a right outcome are never stuck on the way: of so many rows one is left, its instruction is there,
/// and what that does ends with the outcome, or leads to a machine from which the others come to it.
pub fn rows_are_not_stuck()
    ensures { RowsAreNotStuck }
{}

/// Rows come to one outcome at most.
pub fn outcomes_are_one()
    ensures { OutcomesAreOne }
{}

/// An instruction that is appended is the last one of the code; what is added to its tables is found at its number, and
/// leaves all instructions what they were.
pub fn code_is_made()
    ensures { CodeIsMade }
{}

/// A number of code in memory stands for what its table has there. Two classes are one exactly where their numbers are, and
/// a class is in a set exactly where its number is.
pub fn numbers_are_told()
    ensures { NumbersAreTold }
{}

/// In every machine that the rows of a code reach, the display has the texts that walking the links gives: so many levels out
/// the text so many links out, and at level 0 the program.
pub fn displays_are_links()
    ensures { DisplaysAreLinks }
{}
