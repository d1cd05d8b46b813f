ghost use Rattle.listing_order.specs.Laws.{DecisionsGiveTheSections, DecisionsGiveTheListing, BatchesComeToAnEnd};

/// Every legal list of events after which each job of a batch is printed, and in which each job is charged what it costs,
/// decides so that the sections by its decisions are those of the batch: in whatever order the jobs are decided and end.
pub fn decisions_give_the_sections()
    ensures { DecisionsGiveTheSections }
{}

/// With the heading and the closing balances they are the listing of the batch.
pub fn decisions_give_the_listing()
    ensures { DecisionsGiveTheListing }
{}

/// There is such a list for the jobs of every batch: each may be decided and end before the next one arrives.
pub fn batches_come_to_an_end()
    ensures { BatchesComeToAnEnd }
{}
