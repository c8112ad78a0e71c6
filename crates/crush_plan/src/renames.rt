//! Gives buckets the names that they have in the wanted map.
//!
//! A bucket can get its new name only when no other item has this name. If another bucket has the
//! name and has to be renamed too, that bucket has to be renamed first. So the buckets that have to
//! be renamed form chains and cycles. The last bucket of a chain gets a name that no other bucket
//! of the chain has, and every other bucket of the chain gets the name of the next bucket. In a
//! cycle, each bucket gets the name of the next one. So one bucket of the cycle first gets a *free
//! name*, which no item of either map has.

ghost use Rattle.std.specs.Prelude.{OnOk};
ghost use Rattle.crush_plan.specs.Draft.{GoesOn};

use crate::draft::{Draft, copy_name};
use crate::goal::PlanGoal;
use crate::identity::BucketPair;
use crate::item_table::ItemTable;
use crate::way::Way;
use crush_map::CrushMap;
use crush_units::{BucketId, ItemId, Name};
use itoa::Buffer;
use std::alloc::{AllocError, Allocator, Global};

/// The largest number of bytes of a bucket's name with which a free name begins. The free name ends
/// with a dot and a number. With this limit, a free name isn't longer than a name may be.
const LONGEST_STEM: usize = 240;

/// Renames each bucket whose matched bucket in the wanted map has a different name, if the plan may
/// rename it, and if no other item keeps the new name. The buckets of a cycle are renamed only if
/// at least one of them was in the part of the map before the plan's first edit ([`break_cycle`]).
pub(crate) fn rename_all<A: Allocator + Clone, B: Allocator>(
    draft: &mut Draft<A>,
    goal: &PlanGoal<'_, A, B>,
    way: &Way<'_, A>,
) -> Result<(), AllocError>
    ensures { OnOk result (GoesOn goal.now draft.old draft.new) }
{
    if way.pairs.renamed.is_empty() {
        return Ok(());
    }
    let renames = possible_renames(draft.alloc, goal, way)?;
    rename_chains(draft, goal, way, renames.as_slice())?;
    let cycles = unchained(draft.alloc, goal, way, renames.as_slice())?;
    rename_cycles(draft, goal, way, cycles.as_slice())
}

/// Returns the pairs of those buckets that have to be renamed and that the plan may rename, in the
/// order of the map's tree.
fn possible_renames<A: Allocator, B: Allocator>(
    alloc: Global,
    goal: &PlanGoal<'_, A, B>,
    way: &Way<'_, A>,
) -> Result<Vec<BucketPair>, AllocError> {
    let mut renames = Vec::new(alloc);
    for pair in way.pairs.renamed.as_slice() {
        if is_possible(goal, pair) {
            renames.push(*pair)?;
        }
    }
    Ok(renames)
}

/// Whether the plan may rename the bucket.
fn is_possible<A: Allocator, B: Allocator>(goal: &PlanGoal<'_, A, B>, pair: &BucketPair) -> bool {
    match target_name(goal, pair) {
        Some(name) => goal.is_in_part(ItemId::Bucket(pair.current), name),
        None => false,
    }
}

/// Returns the bucket's new name, which is its name in the wanted map.
fn target_name<'a, A: Allocator, B: Allocator>(
    goal: &'a PlanGoal<'_, A, B>,
    pair: &BucketPair,
) -> Option<&'a str> {
    goal.there.name_of(ItemId::Bucket(pair.target))
}

/// Takes the new name that this bucket will get. Returns the bucket that has this name in the map
/// from which the round starts, or `None` if no bucket has the name there.
fn owner<A: Allocator, B: Allocator>(
    goal: &PlanGoal<'_, A, B>,
    way: &Way<'_, A>,
    pair: &BucketPair,
) -> Option<BucketId> {
    way.start.bucket_named(target_name(goal, pair)?)
}

/// Returns the pair of the bucket that has to get this bucket's old name. Returns `None` if there
/// is no such bucket, or if the plan may not rename it.
fn next_owner<A: Allocator, B: Allocator>(
    goal: &PlanGoal<'_, A, B>,
    way: &Way<'_, A>,
    pair: &BucketPair,
) -> Option<BucketPair> {
    let target = goal.there.bucket_named(way.name_at_start(pair)?)?;
    let next = way.renamed(goal, way.pairs.current_of(target)?)?;
    if is_possible(goal, &next) {
        Some(next)
    } else {
        None
    }
}

/// Whether this bucket is the last one of a chain. The renaming of a chain begins with its last
/// bucket, because no other bucket has to be renamed before it.
fn begins_chain<A: Allocator, B: Allocator>(
    goal: &PlanGoal<'_, A, B>,
    way: &Way<'_, A>,
    pair: &BucketPair,
) -> bool {
    let Some(owner) = owner(goal, way, pair) else {
        return true;
    };
    match way.renamed(goal, owner) {
        Some(before) => !is_possible(goal, &before),
        None => true,
    }
}

/// Renames the buckets of all chains.
fn rename_chains<A: Allocator + Clone, B: Allocator>(
    draft: &mut Draft<A>,
    goal: &PlanGoal<'_, A, B>,
    way: &Way<'_, A>,
    renames: &[BucketPair],
) -> Result<(), AllocError>
    ensures { OnOk result (GoesOn goal.now draft.old draft.new) }
{
    for pair in renames {
        rename_chain(draft, goal, way, pair, renames.len())?;
    }
    Ok(())
}

/// Renames the buckets of the chain that ends with this bucket, but at most `most` buckets. Does
/// nothing if this bucket isn't the last one of a chain. If a bucket that has to be removed still
/// has this bucket's new name, that bucket gets a free name first. If an item has the new name even
/// then, the function renames no bucket of the chain.
fn rename_chain<A: Allocator + Clone, B: Allocator>(
    draft: &mut Draft<A>,
    goal: &PlanGoal<'_, A, B>,
    way: &Way<'_, A>,
    pair: &BucketPair,
    most: usize,
) -> Result<(), AllocError>
    ensures { OnOk result (GoesOn goal.now draft.old draft.new) }
{
    if !begins_chain(goal, way, pair) {
        return Ok(());
    }
    release_name(draft, goal, way, pair)?;
    if is_target_free(&draft.map, goal, pair) {
        rename_from(draft, goal, way, Some(*pair), most)
    } else {
        Ok(())
    }
}

/// Whether no item of the map has the bucket's new name.
fn is_target_free<A: Allocator, B: Allocator>(
    map: &CrushMap<A>,
    goal: &PlanGoal<'_, A, B>,
    pair: &BucketPair,
) -> bool {
    match target_name(goal, pair) {
        Some(name) => map.locate(name).is_none(),
        None => false,
    }
}

/// Renames the bucket `first`, then the bucket that gets the old name of `first`, and so on. Stops
/// at a bucket that has been renamed already, or after `most` buckets.
fn rename_from<A: Allocator + Clone, B: Allocator>(
    draft: &mut Draft<A>,
    goal: &PlanGoal<'_, A, B>,
    way: &Way<'_, A>,
    first: Option<BucketPair>,
    most: usize,
) -> Result<(), AllocError>
    ensures { OnOk result (GoesOn goal.now draft.old draft.new) }
{
    let mut next = first;
    for _turn in 0..most {
        let Some(pair) = next else {
            return Ok(());
        };
        next = next_waiting(draft, goal, way, &pair);
        rename_one(draft, goal, way, &pair)?;
    }
    Ok(())
}

/// Returns the pair of the bucket that has to get this bucket's old name. Returns `None` if there
/// is no such bucket, or if this bucket has been renamed already.
fn next_waiting<A: Allocator + Clone, B: Allocator>(
    draft: &Draft<A>,
    goal: &PlanGoal<'_, A, B>,
    way: &Way<'_, A>,
    pair: &BucketPair,
) -> Option<BucketPair> {
    if draft.has_item(ItemId::Bucket(pair.current), way.name_at_start(pair)?) {
        next_owner(goal, way, pair)
    } else {
        None
    }
}

/// Renames the bucket, unless it has been renamed already.
fn rename_one<A: Allocator + Clone, B: Allocator>(
    draft: &mut Draft<A>,
    goal: &PlanGoal<'_, A, B>,
    way: &Way<'_, A>,
    pair: &BucketPair,
) -> Result<(), AllocError>
    ensures { OnOk result (GoesOn goal.now draft.old draft.new) }
{
    match (way.name_at_start(pair), target_name(goal, pair)) {
        (Some(from), Some(to)) if draft.has_item(ItemId::Bucket(pair.current), from) => {
            draft.rename_bucket(goal, from.as_bytes(), to.as_bytes())
        }
        _ => Ok(()),
    }
}

/// Frees this bucket's new name: if a bucket that isn't matched with any bucket of the wanted map
/// still has the name, gives that bucket a free name.
fn release_name<A: Allocator + Clone, B: Allocator>(
    draft: &mut Draft<A>,
    goal: &PlanGoal<'_, A, B>,
    way: &Way<'_, A>,
    pair: &BucketPair,
) -> Result<(), AllocError>
    ensures { OnOk result (GoesOn goal.now draft.old draft.new) }
{
    match (owner(goal, way, pair), target_name(goal, pair)) {
        (Some(owner), Some(name)) if is_removed(draft, way, owner, name) => {
            release(draft, goal, name)
        }
        _ => Ok(()),
    }
}

/// Whether the bucket still has this name, and isn't matched with any bucket of the wanted map.
fn is_removed<A: Allocator + Clone>(
    draft: &Draft<A>,
    way: &Way<'_, A>,
    bucket: BucketId,
    name: &str,
) -> bool {
    way.pairs.target_of(bucket).is_none() && draft.has_item(ItemId::Bucket(bucket), name)
}

/// Gives the bucket that has this name a free name.
fn release<A: Allocator + Clone, B: Allocator>(
    draft: &mut Draft<A>,
    goal: &PlanGoal<'_, A, B>,
    name: &str,
) -> Result<(), AllocError>
    ensures { OnOk result (GoesOn goal.now draft.old draft.new) }
{
    match free_name(draft.alloc, &draft.map, &goal.there, name.as_bytes())? {
        Some(spare) => draft.rename_bucket(goal, name.as_bytes(), spare.as_bytes()),
        None => Ok(()),
    }
}

/// Returns the pairs of the buckets that are in no chain, and therefore in a cycle. The function
/// visits each chain once.
fn unchained<A: Allocator, B: Allocator>(
    alloc: Global,
    goal: &PlanGoal<'_, A, B>,
    way: &Way<'_, A>,
    renames: &[BucketPair],
) -> Result<Vec<BucketPair>, AllocError> {
    let chained = chained_buckets(alloc, goal, way, renames)?;
    let mut cycles = Vec::new(alloc);
    for pair in renames {
        if !is_chained(chained.as_slice(), pair.current) {
            cycles.push(*pair)?;
        }
    }
    Ok(cycles)
}

/// Returns the buckets of all chains, sorted by the distances of their ids from 0.
fn chained_buckets<A: Allocator, B: Allocator>(
    alloc: Global,
    goal: &PlanGoal<'_, A, B>,
    way: &Way<'_, A>,
    renames: &[BucketPair],
) -> Result<Vec<BucketId>, AllocError> {
    let mut chained = Vec::new(alloc);
    for pair in renames {
        if begins_chain(goal, way, pair) {
            push_chain(goal, way, pair, renames.len(), &mut chained)?;
        }
    }
    chained.sort_unstable_by_key(|bucket| bucket.distance());
    Ok(chained)
}

/// Whether the bucket is among the buckets `chained`, which are sorted by the distances of their
/// ids from 0.
fn is_chained(chained: &[BucketId], bucket: BucketId) -> bool {
    match chained.binary_search_by_key(&bucket.distance(), |bucket| bucket.distance()) {
        Ok(_) => true,
        Err(_) => false,
    }
}

/// Appends the buckets of a chain to `chained`, in the order in which they are renamed, but at most
/// `most` buckets. `first` is the pair of the last bucket of the chain.
fn push_chain<A: Allocator, B: Allocator>(
    goal: &PlanGoal<'_, A, B>,
    way: &Way<'_, A>,
    first: &BucketPair,
    most: usize,
    chained: &mut Vec<BucketId>,
) -> Result<(), AllocError> {
    let mut next = Some(*first);
    for _turn in 0..most {
        let Some(pair) = next else {
            return Ok(());
        };
        chained.push(pair.current)?;
        next = next_owner(goal, way, &pair);
    }
    Ok(())
}

/// Renames the buckets of all cycles.
fn rename_cycles<A: Allocator + Clone, B: Allocator>(
    draft: &mut Draft<A>,
    goal: &PlanGoal<'_, A, B>,
    way: &Way<'_, A>,
    cycles: &[BucketPair],
) -> Result<(), AllocError>
    ensures { OnOk result (GoesOn goal.now draft.old draft.new) }
{
    for pair in cycles {
        break_cycle(draft, goal, way, pair, cycles.len())?;
    }
    Ok(())
}

/// Whether the bucket still has this name, and was in the part of the map before the plan's first
/// edit.
fn may_break<A: Allocator + Clone, B: Allocator>(
    draft: &Draft<A>,
    goal: &PlanGoal<'_, A, B>,
    pair: &BucketPair,
    name: &str,
) -> bool {
    draft.has_item(ItemId::Bucket(pair.current), name)
        && goal.was_in_part(ItemId::Bucket(pair.current))
}

/// Renames all buckets of the cycle to which this bucket belongs. This bucket first gets a free
/// name. No item of the wanted map has this name, so the plan may give it only to a bucket that was
/// in the part of the map before the plan's first edit. The function does nothing if this bucket
/// wasn't in this part, if the bucket has been renamed already, or if there is no free name.
fn break_cycle<A: Allocator + Clone, B: Allocator>(
    draft: &mut Draft<A>,
    goal: &PlanGoal<'_, A, B>,
    way: &Way<'_, A>,
    pair: &BucketPair,
    most: usize,
) -> Result<(), AllocError>
    ensures { OnOk result (GoesOn goal.now draft.old draft.new) }
{
    let (Some(from), Some(to)) = (way.name_at_start(pair), target_name(goal, pair)) else {
        return Ok(());
    };
    if !may_break(draft, goal, pair, from) {
        return Ok(());
    }
    let Some(spare) = free_name(draft.alloc, &draft.map, &goal.there, from.as_bytes())? else {
        return Ok(());
    };
    draft.rename_bucket(goal, from.as_bytes(), spare.as_bytes())?;
    rename_from(draft, goal, way, next_owner(goal, way, pair), most)?;
    draft.rename_bucket(goal, spare.as_bytes(), to.as_bytes())
}

/// Returns a free name: the first of the names `NAME.1`, `NAME.2` and so on that no item of either
/// map has. Returns `None` if items have all of these names.
fn free_name<A: Allocator, B: Allocator>(
    alloc: Global,
    map: &CrushMap<A>,
    wanted: &ItemTable<'_, B>,
    name: &[u8],
) -> Result<Option<Name<Global>>, AllocError> {
    for number in 1..u32::MAX {
        let spare = numbered_name(alloc, name, number)?;
        if map.locate(spare.as_str()).is_none() && wanted.locate(spare.as_str()).is_none() {
            return Ok(Some(spare));
        }
    }
    Ok(None)
}

/// Returns a name that consists of `name`, a dot and the number. If `name` is longer than
/// [`LONGEST_STEM`], only its first [`LONGEST_STEM`] bytes are used.
fn numbered_name(alloc: Global, name: &[u8], number: u32) -> Result<Name<Global>, AllocError> {
    let mut buffer = Buffer::new();
    let number = buffer.format(number).as_bytes();
    let stem = &name[..name.len().min(LONGEST_STEM)];
    let mut bytes = Vec::new(alloc);
    bytes.extend_from_slice(stem)?;
    bytes.extend_from_slice(b".")?;
    bytes.extend_from_slice(number)?;
    copy_name(alloc, bytes.as_slice())
}
