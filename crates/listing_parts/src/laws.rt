// A listing can be taken apart in one way.
ghost use Rattle.listing_parts.specs.Laws.{ApartInOneWay, LinesOnce};

/// A text has at most one list of lines.
pub fn lines_once()
    ensures { LinesOnce }
{}

/// Whatever jobs print, the lines of a listing have one closing and one list of sections.
pub fn apart_in_one_way()
    ensures { ApartInOneWay }
{}
