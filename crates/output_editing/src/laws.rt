ghost use Rattle.output_editing.specs.Cuts.{LinesAreCut};
ghost use Rattle.output_editing.specs.Laws.{LinesStay, LinesNeverFewer, LinesFit};

/// The lines of a layout are its pieces, cut where a text doesn't fit any more, and at breaks; and no others are.
pub fn lines_are_cut()
    ensures { LinesAreCut }
{}

/// The lines before the last stay as they are, whatever is printed behind them.
pub fn lines_stay()
    ensures { LinesStay }
{}

/// However much is printed, no line is taken back.
pub fn lines_are_never_fewer()
    ensures { LinesNeverFewer }
{}

/// No line has more than 132 columns, where no text has.
pub fn lines_fit()
    ensures { LinesFit }
{}
