ghost use Rattle.office.specs.Laws.{AnswersAreExact};

/// Each answer to a decision comes exactly where the next undecided job and its account call for it; only whether a job that
/// its account covers is accepted, or finds no room in the queue, depends on the queue.
pub fn answers_are_exact()
    ensures { AnswersAreExact }
{}
