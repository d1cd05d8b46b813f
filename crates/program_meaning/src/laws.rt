ghost use Rattle.program_meaning.specs.Closing.{EnvironmentsGiveWhatCopyingGives};
ghost use Rattle.program_meaning.specs.Laws.{BoundedRunsEnd, PhrasesAreBalanced, RunsKeepTheirLimits};

/// What a phrase does by environments is what its copy does, in which each name is replaced by what its environment puts
/// for it: the same value, place, jump or stop, and the same state but for the form of its procedures.
pub fn environments_give_what_copying_gives()
    ensures { EnvironmentsGiveWhatCopyingGives }
{}

/// Whatever is done, from whatever state, is finished where its bound is more than the steps that the limit leaves. Its
/// steps only grow, to the limit at most, and no more statements are begun than steps are counted.
pub fn bounded_runs_end()
    ensures { BoundedRunsEnd }
{}

/// A run is never left unfinished. Its steps and its lines are within their limits, no statement is begun more often than
/// steps are counted, and what is printed are the first lines of what was put.
pub fn runs_keep_their_limits()
    ensures { RunsKeepTheirLimits }
{}

/// A phrase, or the rest of one, that ends on its own leaves as many live cells as it found, the same depth, and the same
/// entries under way.
pub fn phrases_are_balanced()
    ensures { PhrasesAreBalanced }
{}
