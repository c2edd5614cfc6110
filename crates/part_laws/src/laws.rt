//! Laws of parts, each the contract of a function that does nothing.

ghost use Rattle.part_laws.specs.Parts.{PartHasOrder, NoOrderOfPart, PartHasOwnOrder};
ghost use Rattle.part_laws.specs.Parts.{PartIsLog, PartOfPart};
ghost use Rattle.part_laws.specs.Chosen.{ChosenIsPart, ThinnedIsPart};

/// A part of a log that has an order has one.
pub fn part_has_order()
    ensures { PartHasOrder }
{}

/// A log has no order where a part of it has none.
pub fn no_order_of_part()
    ensures { NoOrderOfPart }
{}

/// A part of a legal and sound log that has an order of the committed and of the taken transactions
/// has one of its own.
pub fn part_has_own_order()
    ensures { PartHasOwnOrder }
{}

/// A part of a legal and sound log is legal and sound.
pub fn part_is_log()
    ensures { PartIsLog }
{}

/// A part of a part is a part.
pub fn part_of_part()
    ensures { PartOfPart }
{}

/// What is chosen by transactions is a part.
pub fn chosen_is_part()
    ensures { ChosenIsPart }
{}

/// Some of the transactions, with all that they write, and with reads of that, of 0 and of what the
/// log does not write alone, are a part.
pub fn thinned_is_part()
    ensures { ThinnedIsPart }
{}
