ghost use Rattle.worked_rows.specs.Classes.{ClassesAreMade, SetsAreMade};
ghost use Rattle.worked_rows.specs.Dumps.{LinesAreShown};
ghost use Rattle.worked_rows.specs.Integers.{BitsGive, IntegersGive};
ghost use Rattle.worked_rows.specs.Items.{ItemsAreRead};
ghost use Rattle.worked_rows.specs.Lines.{LinesArePrinted};
ghost use Rattle.worked_rows.specs.Strings.{StringsGive};

/// The operations on INTEGERs give what stands in the tables.
pub fn integers_give()
    ensures { IntegersGive }
{}

/// So do those on bits.
pub fn bits_give()
    ensures { BitsGive }
{}

/// So do those on strings.
pub fn strings_give()
    ensures { StringsGive }
{}

/// The items on cards are read as the tables say, by calls alone and by calls one behind the other.
pub fn items_are_read()
    ensures { ItemsAreRead }
{}

/// What is printed has the lines of the tables, and a limit of lines is told where they say so.
pub fn lines_are_printed()
    ensures { LinesArePrinted }
{}

/// The entries of a dump and the cards of a source have the lines of the tables.
pub fn lines_are_shown()
    ensures { LinesAreShown }
{}

/// Record classes and their fields stand at the numbers and positions of the tables.
pub fn classes_are_made()
    ensures { ClassesAreMade }
{}

/// Sets of them get the numbers of the tables, whatever the order of their classes.
pub fn sets_are_made()
    ensures { SetsAreMade }
{}
