ghost use Rattle.batch_listing.specs.Laws.{SectionsByTable};

/// The sections by a table of balances that is kept from job to job are those by places.
pub fn sections_by_table()
    ensures { SectionsByTable }
{}
