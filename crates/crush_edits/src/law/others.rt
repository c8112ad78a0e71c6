//! Laws about the edits that have no location.
//!
//! A setting (the types, tunables and rules of a map) *fits* a table if three conditions hold. The
//! setting is valid. The setting has the types of all buckets of the table. The table has all
//! buckets that the setting's rules take.

ghost use Rattle.crush_edits.specs.LawOthers.{WeightsChange, WeightChanges, WeightsFit, NameChanges, NameFits, ClassChanges, ClassFits, SwapChanges, SwapFits, RemoveChanges, RemoveKeepsLawful, RemoveFits, AddedIsRow, AddedChanges, AddedKeepsLawful, AddedCounts, AddedFits, FullHasNoRoom};

/// Setting the weight of some rows changes the table, unless each of these rows already has the new
/// weight. Setting the weight of one item of a lawful table changes the table, unless the item's
/// row already has this weight. If the map's setting fits the table before, it also fits the table
/// afterwards.
pub fn weights_are_set()
    ensures many { WeightsChange }
    ensures one { WeightChanges }
    ensures fits { WeightsFit }
{}

/// Giving an item of a lawful table an unused name changes the table. Swapping two different
/// buckets of a lawful table also changes the table. If the map's setting fits the table before, it
/// also fits the table afterwards.
pub fn names_are_set()
    ensures changes { NameChanges }
    ensures fits { NameFits }
    ensures swap_changes { SwapChanges }
    ensures swap_fits { SwapFits }
{}

/// Giving an item of a lawful table a class changes the table, unless the item already has this
/// class. Removing the class of an item changes the table, unless the item has no class. If the
/// map's setting fits the table before, it also fits the table afterwards.
pub fn classes_are_set()
    ensures changes { ClassChanges }
    ensures fits { ClassFits }
{}

/// Removing the row of an item changes the table. If the item is a device or a bucket without
/// items, a lawful table stays lawful. If the item isn't a bucket that a rule takes, and the map's
/// setting fits the table before, then it also fits the table afterwards.
pub fn rows_are_taken_out()
    ensures changes { RemoveChanges }
    ensures lawful { RemoveKeepsLawful }
    ensures fits { RemoveFits }
{}

/// Adding a bucket of a known type appends one row to the table. Suppose that the type isn't type
/// 0, and that the name is valid and unused. If a lawful table that the map's setting fits doesn't
/// have too many items afterwards, it stays lawful, and the setting still fits it. If the table
/// already has as many buckets as are allowed, the edit is refused with `NoRoom`.
pub fn buckets_are_added()
    ensures row { AddedIsRow }
    ensures changes { AddedChanges }
    ensures lawful { AddedKeepsLawful }
    ensures counts { AddedCounts }
    ensures fits { AddedFits }
    ensures full { FullHasNoRoom }
{}
