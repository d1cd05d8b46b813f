ghost use Rattle.record_classes.specs.Laws.{ClassesAreFound, SetsAreNumbered};

/// A class that was added is found by its number, with its fields at their positions, and stays there when more is added.
pub fn classes_are_found()
    ensures { ClassesAreFound }
{}

/// Equal sets have one number, and other sets have others; a set that was added is found by its number, and stays there
/// when more is added.
pub fn sets_are_numbered()
    ensures { SetsAreNumbered }
{}
