ghost use Rattle.input_editing.specs.Laws.{ScanningIsExact, AreReadWhole};

/// Scanning gives a value exactly where an item with this value is found, and there is then no other. F11 is given exactly
/// where only blanks are left, and F12 exactly where something else is left and no item is found.
pub fn scanning_is_exact()
    ensures { ScanningIsExact }
{}

/// A card is read whole and filled, wherever the place is on the card before it. Behind the last card none is left.
pub fn cards_are_read_whole()
    ensures { AreReadWhole }
{}
