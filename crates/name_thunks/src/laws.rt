ghost use Rattle.name_thunks.specs.Thunks.{LeavingGivesBack, LeavingGivesDisplayBack};

/// A copied actual that is entered and left gives back what was there before: cells, entries, texts under way with their
/// links and answers, the text that runs, and the depth; and with them the display, at every level.
pub fn leaving_gives_back()
    ensures store { LeavingGivesBack }
    ensures display { LeavingGivesDisplayBack }
{}
