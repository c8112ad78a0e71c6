//! Laws about the pairs of two maps. Each law is the contract of a function that does nothing. The
//! laws are about tables. A table is a list with one row for each item of a map. A table is lawful
//! if it meets the definition `Lawful` of crush_model.

ghost use Rattle.crush_compare.specs.Columns.{SomeColumnOfOtherItems};
ghost use Rattle.crush_compare.specs.IdPairs.{DifferencesOfIds, EachIdOnce, EachItemOnceByIds, KeysOfAllIds};
ghost use Rattle.crush_compare.specs.NamedPairs.{PartOfPairs};
ghost use Rattle.crush_compare.specs.Pairs.{OneAnswer};
ghost use Rattle.crush_compare.specs.Parts.{RunIsPart, StepsArePart};

/// For two lists of places, at most one list of pairs meets the definition `ArePairsOf`. (A place
/// consists of the position of an item and the key of the item's id.)
pub fn two_lists_have_one_list_of_pairs()
    ensures { OneAnswer }
{}

/// If two lawful tables are matched by ids, the keys of the pairs are the keys of all ids that at
/// least one table has, in the order of the ids. (The key of an id is a number, and smaller keys
/// belong to ids that come earlier.)
pub fn pairs_have_the_keys_of_all_ids()
    ensures { KeysOfAllIds }
{}

/// If two lawful tables are matched by ids, there is one pair for each id of either table, in the
/// order of the ids. The pair has what each table says about this id.
pub fn pairs_have_each_id_once()
    ensures { EachIdOnce }
{}

/// Suppose that items are matched by their ids, and that each difference counts
/// (`Report::Changes`). Then at least one column of an item differs if and only if the two tables
/// don't say the same about the item.
pub fn a_column_differs_of_other_items()
    ensures { SomeColumnOfOtherItems }
{}

/// If two lawful tables are matched by ids, each item of either table is in exactly one of the
/// pairs.
pub fn pairs_by_ids_have_each_item_once()
    ensures { EachItemOnceByIds }
{}

/// If two tables are matched by ids, the difference that is found for the pair of an id is the
/// difference between what the two tables say about this id.
pub fn pairs_differ_as_ids_do()
    ensures { DifferencesOfIds }
{}

/// In a lawful table, the walk from an item downward (`steps_at`) has one step for the item itself,
/// one step for each item below it, and no other step.
pub fn the_steps_of_an_item_are_a_part()
    ensures { StepsArePart }
{}

/// This law is about the list of all items of a lawful table, in the order of the table's tree. If
/// a range of positions is the run of an item (`Items::run`), then it has exactly the positions of
/// this item and of all items below this item.
pub fn a_run_is_a_part()
    ensures { RunIsPart }
{}

/// This law is about two tables whose items are matched by their names. In each table, a part
/// consists of the item with a certain name and of all items below it. A pair of the whole tables
/// is a pair of the part if and only if at least one of the pair's items is in the part of its
/// table. The pairs of the part are in the same order as in the list of all pairs.
pub fn pairs_of_a_part_are_those_in_the_part()
    ensures { PartOfPairs }
{}
