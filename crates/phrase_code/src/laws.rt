ghost use Rattle.phrase_code.specs.Laws.{CodeIsWellFormed, CodeIsSized};

/// The code of a phrase has as many instructions as its size says.
pub fn code_is_sized()
    ensures { CodeIsSized }
{}

/// Each instruction of a program's code goes on where one stands, and what it names is there.
pub fn code_is_well_formed()
    ensures { CodeIsWellFormed }
{}
