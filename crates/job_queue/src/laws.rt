//! What the rule says of the list of what was put, of what was taken, and of what the queue holds.
ghost use Rattle.job_queue.specs.Laws.{ListAndQueue, TakenAreBelow};

/// The numbers of the tickets that were put rise. The queue holds the last ones of them. Each of them stands once among
/// those that were taken and those in the queue, and no other does.
pub fn list_and_queue()
    ensures { ListAndQueue }
{}

/// Each number that was taken is below all those in the queue.
pub fn taken_are_below()
    ensures { TakenAreBelow }
{}
