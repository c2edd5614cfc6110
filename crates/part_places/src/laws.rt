//! What the places of a part mean, each law the contract of a function that does nothing.

ghost use Rattle.part_places.specs.PartRows.{PartFits, PartIsInText};

/// The places of a part are those of its transactions and operations.
pub fn part_fits()
    ensures { PartFits }
{}

/// The line of each operation of a part is that operation in the whole log's text, and so are the
/// lines at which its transactions begin and end.
pub fn part_is_in_text()
    ensures { PartIsInText }
{}
