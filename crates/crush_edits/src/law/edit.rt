//! Laws that hold for all edits and batches.

ghost use Rattle.crush_edits.specs.LawBatch.{BatchCounts, BatchStops};
ghost use Rattle.crush_edits.specs.LawEdit.{EditKeeps, BatchKeeps, MadeAreBuckets};

/// If a table is lawful, and the map's setting (its types, tunables and rules) fits the table, then
/// both are still true after any valid edit or batch that isn't refused. The result of such an
/// edit, unless it is a `Remove`, says how many buckets the edit has added to the table.
pub fn edits_keep_lawful()
    ensures edit { EditKeeps }
    ensures batch { BatchKeeps }
    ensures made { MadeAreBuckets }
{}

/// If a batch isn't refused, its result has the number of all edits of the batch. The result also
/// has the number of edits that changed the table, which is at most the number of all edits. If a
/// batch is refused, its result has the index of one of its edits.
pub fn batches_count_their_edits()
    ensures counts { BatchCounts }
    ensures stops { BatchStops }
{}
