ghost use Rattle.batch_summary.specs.Laws.{BytesOfSections, TallyBySections};

/// To add section by section, each by the elements before it, gives the tally of all.
pub fn tally_by_sections<T>()
    ensures { TallyBySections T }
{}

/// The bytes of a tally are those of the sections' texts, one after the other.
pub fn bytes_of_sections<T>()
    ensures { BytesOfSections T }
{}
