//! Laws about *puts*. A put places an item into the bucket that the first *stop* of a location
//! names. The stops are the location's pairs, in ascending order of their types' numbers. The first
//! stops may name buckets that the map doesn't have. The put then creates these buckets, each
//! inside the next. The uppermost created bucket is put into the bucket that the next stop names.
//! If there is no next stop, the uppermost created bucket becomes a root. A list of stops along
//! which an item can be put is a *route*.

ghost use Rattle.crush_edits.specs.LawPut.{RoomForNew, RoomForNewDevice, PutMoves, PutMovesDevice, PutsNew, PutTakes, PutsBoxed, PutsBoxedDevice, PutsBoxedNew, PutKeepsLawful, PutNewKeepsLawful, PutCounts, PutNewCounts, PutChanges, PutNewChanges, PutFits, NoneNew, PutMovesOnly, NextStays, FormStays, EditedIsOwn, FullOfDevices, FullOfBuckets};

/// The code puts an item in three steps: it creates the new buckets, detaches the item, and
/// attaches the item again. The result is the table of the put, except for the order of the rows.
/// The first two steps may be done in either order. The code can also test the sums of weights in
/// one step: if the new buckets are attached with the item already in them, the sums are too large
/// if and only if they are too large after the put.
pub fn puts_are_steps()
    ensures moves { PutMoves }
    ensures device { PutMovesDevice }
    ensures new { PutsNew }
    ensures takes { PutTakes }
    ensures boxed { PutsBoxed }
    ensures boxed_device { PutsBoxedDevice }
    ensures boxed_new { PutsBoxedNew }
{}

/// If sums and counts stay in range, a put keeps the table lawful. This requires that the item is
/// not put into itself or below itself, and that its new row is well-formed. If the item is a
/// device that the table doesn't have, no row and no stop may have its name. If the map's setting
/// (its types, tunables and rules) fits the table before and has the type of the item, then it also
/// fits the table afterwards.
pub fn puts_keep_lawful()
    ensures lawful { PutKeepsLawful }
    ensures lawful_new { PutNewKeepsLawful }
    ensures counts { PutCounts }
    ensures counts_new { PutNewCounts }
    ensures room { RoomForNew }
    ensures room_device { RoomForNewDevice }
    ensures fits { PutFits }
{}

/// Facts that connect the steps of a put: into which bucket the item is put, and which row the item
/// has.
pub fn steps_fit_together()
    ensures none_new { NoneNew }
    ensures only { PutMovesOnly }
    ensures stays { NextStays }
    ensures form { FormStays }
    ensures own { EditedIsOwn }
{}

/// A put changes the table, unless the item is already in the bucket of the first stop, which has
/// the lowest type.
pub fn puts_make_another_table()
    ensures there { PutChanges }
    ensures new { PutNewChanges }
{}

/// If a table has as many devices as are allowed, an edit that inserts a further device is refused
/// with `NoRoom`. The edit is also refused with `NoRoom` if the table would have too many buckets
/// with the new buckets of the edit's route. Both laws require that there is no other reason with a
/// lower number to refuse the edit.
pub fn full_tables_refuse()
    ensures devices { FullOfDevices }
    ensures buckets { FullOfBuckets }
{}
