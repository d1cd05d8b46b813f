ghost use Rattle.made_batches.specs.Laws.{MadeBatchFits};

/// A batch of at most 2,000 made jobs isn't too large.
pub fn made_batch_fits()
    ensures { MadeBatchFits }
{}
