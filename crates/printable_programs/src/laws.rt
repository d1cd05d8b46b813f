// What programs hold.
ghost use Rattle.printable_programs.specs.Laws.{ProgramsHoldTexts};

use algolw_typing::nothing_forgotten;

/// In the program that the tokens of printable cards spell each string is a text and each name a word.
pub fn programs_hold_texts()
    ensures { ProgramsHoldTexts }
{
    nothing_forgotten();
}
