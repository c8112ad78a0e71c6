//! Laws about tables. Each law is stated as the contract of a function that does nothing. So no
//! program needs to call these functions.

ghost use Rattle.std.specs.Prelude.{◌≡◌, ◌↔◌, ℕ, List, Option, ◌++◌, true};
ghost use Rattle.crush_units.specs.declared.id.ItemId.{ItemId};
ghost use Rattle.crush_model.specs.Columns.{set_weight, set_subtree, set_name, set_class, table_without, part, without_row, exchange_parents, swap_buckets};
ghost use Rattle.crush_model.specs.KeepsLaw.{KeepsLawful, WeightKeepsLawful, SubtreeKeepsLawful, NameKeepsLawful, ClassKeepsLawful, MoveKeepsLawful, SwapKeepsLawful, DeviceKeepsLawful, BucketKeepsLawful, RowsKeepLawful, PartKeepsLawful, PlacedRowKeepsForm, PlacedDeviceKeepsForm};
ghost use Rattle.crush_model.specs.Law.{SumsItems, ClimbEnds, SameIsAlike, KeepsSame, StandsForOne, FreeIdsAreFree, FewIdsAreUsed, HeavyIsAlike, RoomIsAlike, AddsRows};
ghost use Rattle.crush_model.specs.MoveLaw.{Relocates, RelocatesDevice, EmptyIsRow, DeviceIsRow, EmptyPartIsRow, DevicePartIsRow, EmptyKeepsSums};
ghost use Rattle.crush_model.specs.Lawful.{Lawful};
ghost use Rattle.crush_model.specs.Forest.{ForestData};
ghost use Rattle.crush_model.specs.Table.{Row};
ghost use Rattle.crush_model.specs.Tested.{is_lawful};

/// The law that, in a lawful table, a bucket's weight is the sum of its items' weights. It also
/// says that the chain of parents above an item ends: it has at most as many buckets as the table
/// has rows.
pub fn sums_are_those_of_items()
    ensures sums { (t : List Row) → Lawful t → SumsItems t }
    ensures ends { (t : List Row) → Lawful t → ClimbEnds t }
{}

/// The law that reading gives equal results on two tables that are the same, if one of them is
/// lawful. The other table is then lawful too. Two tables are *the same* if they have the same
/// rows, in any order, and each bucket has its items in the same order in both tables.
pub fn same_tables_are_read_alike()
    ensures { SameIsAlike }
{}

/// The law about two lawful tables that are the same: if a change that the contract names is made
/// to both tables, then the results are also the same.
pub fn changes_keep_same()
    ensures weight { (i : ItemId) (w : ℕ) → KeepsSame (set_weight i w) }
    ensures subtree { (b w : ℕ) → KeepsSame (set_subtree b w) }
    ensures name { (i : ItemId) (n : List ℕ) → KeepsSame (set_name i n) }
    ensures class { (i : ItemId) (c : Option (List ℕ)) → KeepsSame (set_class i c) }
    ensures rows { (rows : List Row) → KeepsSame (λ t. t ++ rows) }
    ensures without { (i : ItemId) → KeepsSame (table_without i) }
    ensures row { (i : ItemId) → KeepsSame (without_row i) }
    ensures part { (i : ItemId) → KeepsSame (part i) }
    ensures parents { (a b : ℕ) → KeepsSame (exchange_parents a b) }
    ensures swap { (a b : ℕ) → KeepsSame (swap_buckets a b) }
{}

/// The law that all tables that one forest represents are the same, and that the forest also
/// represents every table that is the same as one of them. A sound forest represents its own rows.
pub fn stands_for_one_table()
    ensures { (f : ForestData) → StandsForOne f }
{}

/// The laws that say which changes keep a table lawful, and under which conditions.
pub fn changes_keep_lawful()
    ensures without { (i : ItemId) → KeepsLawful (table_without i) }
    ensures weight { WeightKeepsLawful }
    ensures subtree { SubtreeKeepsLawful }
    ensures name { NameKeepsLawful }
    ensures class { ClassKeepsLawful }
    ensures parent { MoveKeepsLawful }
    ensures swap { SwapKeepsLawful }
    ensures device { DeviceKeepsLawful }
    ensures bucket { BucketKeepsLawful }
    ensures rows { RowsKeepLawful }
    ensures part { PartKeepsLawful }
{}

/// The law that a well-formed row stays well-formed if it gets a bucket as its parent. A device's
/// row stays well-formed even if it also gets another weight, which is at most that of the heaviest
/// device.
pub fn placed_rows_keep_their_form()
    ensures row { PlacedRowKeepsForm }
    ensures device { PlacedDeviceKeepsForm }
{}

/// The law about moving an item of a lawful table, with all items below it, to a new parent that is
/// neither the item itself nor below it. The result is the same table as if only the item's own row
/// were removed, and appended again with the new parent.
pub fn moves_are_of_one_row()
    ensures { (t : List Row) → Lawful t → Relocates t }
{}

/// The law about moving a device of a lawful table to a new parent, and giving it a new weight. The
/// result is the same table as if only the device's own row were removed, and appended again with
/// the new parent and the new weight.
pub fn moves_of_devices_are_of_one_row()
    ensures { (t : List Row) → Lawful t → RelocatesDevice t }
{}

/// The law that the free ids of a table are ids of buckets, unused and distinct, if the number of
/// used ids plus the number of requested ids is at most 2^31. It also says how many ids a lawful
/// table uses at most.
pub fn free_ids_are_free()
    ensures free { FreeIdsAreFree }
    ensures few { FewIdsAreUsed }
{}

/// The law that two tests have equal results on tables that are the same: the test whether a sum or
/// the total is too large, and the test whether there are too many devices or buckets. The tables
/// need not be lawful. For the test of sums, no id may be in a table twice.
pub fn tests_are_alike()
    ensures sums { HeavyIsAlike }
    ensures room { RoomIsAlike }
{}

/// The law that removing a bucket without items, or a device, removes just its own row. In a lawful
/// table, a bucket without items adds nothing to any sum.
pub fn empty_bucket_is_one_row()
    ensures bucket { EmptyIsRow }
    ensures device { DeviceIsRow }
    ensures bucket_part { EmptyPartIsRow }
    ensures device_part { DevicePartIsRow }
    ensures sums { EmptyKeepsSums }
{}

/// The law about rows that are appended to a table: their numbers of devices and buckets and their
/// total weight are added to those of the table, and their used ids are appended to those of the
/// table.
pub fn counts_add()
    ensures { (t u : List Row) → AddsRows t u }
{}

/// The law that a table is lawful if and only if it passes the test `is_lawful`. The result of this
/// test can be computed.
pub fn lawful_is_what_passes()
    ensures { (t : List Row) → (is_lawful t ≡ true) ↔ Lawful t }
{}
