//! Laws about the differences of two maps whose items are matched by their names. Each law is the
//! contract of a function that does nothing.

ghost use Rattle.crush_since.specs.Alike.{NothingStaysWhereAlike};
ghost use Rattle.crush_since.specs.SinceNamesLaws.{NothingByNamesSinceItself};

/// If the tables of two maps are lawful (definition `Lawful` of crush_model), then
/// [`stays`](crate::stays) lists no difference if and only if three conditions hold. First, each
/// item name of either map is also an item name of the other map. Second, if an item of one map and
/// an item of the other map have the same name, then both are devices or both are buckets, and they
/// have the same type, place, class and algorithm. If both are devices, they also have the same id,
/// and weights that are at most one unit (1/65536 TiB) apart. Third, the settings of the maps
/// agree: they have the same tunables in the same order, the same types in any order, and the same
/// rules in the same order. The buckets that rules take are compared by their names.
pub fn nothing_stays_where_maps_are_alike()
    ensures { NothingStaysWhereAlike }
{}

/// If a map whose table is lawful is compared with itself by names, the text of
/// [`write_since_by_name`](crate::write_since_by_name) has only its last two lines: the line with
/// the map's total weight, and the line with counts that are all 0.
pub fn nothing_changes_by_names_since_itself()
    ensures { NothingByNamesSinceItself }
{}
