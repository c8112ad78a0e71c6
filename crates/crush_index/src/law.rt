//! Laws about an index and the table of rows for which its answers are right. The laws say after
//! which changes of the table the index has to be updated, and how. Each law is the contract of a
//! function that does nothing.

ghost use Rattle.crush_index.specs.NamesLaw.{NamesOfSame, NamesOfWeights, NamesOfParents, NamesFollowRow, NamesFollowWithout, NamesFollowName, NamesFollowSwap};
ghost use Rattle.crush_index.specs.PlacesLaw.{PlacesOfSame, PlacesOfWeights, PlacesOfNames, PlacesFollowRow, PlacesFollowWithout, PlacesFollowMove, PlacesFollowSwap};
ghost use Rattle.crush_index.specs.UsedLaw.{UsedOfSame, UsedOfWeights, UsedOfNames, UsedOfSwap, UsedFollowRow, UsedFollowWithout};

/// Proves after which changes of a table the names in its index have to be updated. An update is
/// needed if a row is added or removed, if an item gets another name, or if two buckets exchange
/// their names and items. No update is needed if the rows are in another order, if weights change,
/// or if two buckets exchange only their items.
pub fn names_follow_the_table()
    ensures same { NamesOfSame }
    ensures weights { NamesOfWeights }
    ensures parents { NamesOfParents }
    ensures row { NamesFollowRow }
    ensures without { NamesFollowWithout }
    ensures name { NamesFollowName }
    ensures swap { NamesFollowSwap }
{}

/// Proves after which changes of a table the places in its index have to be updated. An update is
/// needed if a row is added or removed, if an item is moved, or if two buckets exchange their names
/// and items. No update is needed if the rows are in another order, or if weights or names change.
pub fn places_follow_the_table()
    ensures same { PlacesOfSame }
    ensures weights { PlacesOfWeights }
    ensures names { PlacesOfNames }
    ensures row { PlacesFollowRow }
    ensures without { PlacesFollowWithout }
    ensures moved { PlacesFollowMove }
    ensures swap { PlacesFollowSwap }
{}

/// Proves after which changes of a table the used ids in its index have to be updated. An update is
/// needed if a row that uses ids is added or removed. Only the rows of buckets use ids: the id of
/// the bucket and its class ids. No update is needed if the rows are in another order, if weights
/// or names change, or if two buckets exchange their names and items.
pub fn used_ids_follow_the_table()
    ensures same { UsedOfSame }
    ensures weights { UsedOfWeights }
    ensures names { UsedOfNames }
    ensures swap { UsedOfSwap }
    ensures row { UsedFollowRow }
    ensures without { UsedFollowWithout }
{}
