// The listing of a night comes from those of its parts.
ghost use Rattle.night_listings.specs.Laws.{NightMerged, PartListing, WindowMerged};

/// The listing of a part has what the night's sections have behind their numbers, and its accounts close as in the night behind the window.
pub fn part_listing()
    ensures { PartListing }
{}

/// A window's sections come from those of its parts.
pub fn window_merged()
    ensures { WindowMerged }
{}

/// A night's listing comes from those of its windows' parts, however it is divided.
pub fn night_merged()
    ensures { NightMerged }
{}
