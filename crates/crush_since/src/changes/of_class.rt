//! The rows of the tree of what has changed, if only the devices of one class count.

ghost use Rattle.std.specs.Prelude.{◌≡◌, ◌<◌, ◌||◌, List, IfOk, OnOk, get_or, is_some, length, reverse, unwrap_or};
ghost use Rattle.std.specs.Option.{option_map};
ghost use Rattle.crush_items.specs.SeenItem.{seen_data};
ghost use Rattle.crush_model.specs.Table.{Row};
ghost use Rattle.crush_since.specs.ClassChanges.{staying, with_weight};
ghost use Rattle.crush_since.specs.ClassChangesSeen.{AreClassWeights, begins_deeper, kept_before, row_counts, row_depth, shown_change, weighed_change, weight_at};
ghost use Rattle.crush_since.specs.SeenChange.{AreTables, change_data};

use crate::changes::both::Both;
use crate::changes::rows::TreeRow;
use crate::changes::seen::{Change, change_of};
use crate::since::seen::Seen;
use crush_compare::{Comparison, Pair};
use crush_print::class_weights;
use crush_tree::View;
use crush_units::Weight;
use std::alloc::{AllocError, Allocator, Global};

/// The weight of a class at each item of two maps. It is the sum of the weights of the class's
/// devices that are the item or below it, and `None` if there is no such device. Each vector is in
/// the order of the list of its map's items.
#[derive(Drop)]
pub(crate) struct ClassWeights {
    pub before: Vec<Option<Weight>>,
    pub after: Vec<Option<Weight>>,
}

impl ClassWeights {
    /// Returns the weights of a class. The call visits each item of both maps once. It fails only
    /// if memory runs out.
    pub(super) fn of<A: Allocator, B: Allocator>(
        alloc: Global,
        both: &Both<'_, A, B>,
        class: &str,
    ) -> Result<ClassWeights, AllocError>
        ensures { IfOk result (λ weights. (t u : List Row) → AreTables t u both.now
            → AreClassWeights t u class.now both.now.maps weights) }
    {
        let before = class_weights(alloc, both.maps.old.map, class)?;
        let after = class_weights(alloc, both.maps.new.map, class)?;
        Ok(ClassWeights { before, after })
    }
}

/// Returns the rows of items that are devices of the class in at least one of the maps, or that
/// have such devices below them, and the rows above such rows. The call fails only if memory runs
/// out.
pub(super) fn rows_of_class(
    alloc: Global,
    weights: &ClassWeights,
    rows: &[TreeRow],
) -> Result<Vec<TreeRow>, AllocError>
    ensures { IfOk result (λ kept. kept.items
        ≡ staying (row_counts weights.now) row_depth rows.now) }
{
    let mut kept = backward(alloc, weights, rows)?;
    kept.reverse();
    Ok(kept)
}

/// Returns the rows that [`rows_of_class`] returns, but in the reverse order. The code visits the
/// rows from the last to the first. So when the code visits a row, it has already decided about all
/// rows below this row. If at least one of them stays, then the row that was kept last is deeper
/// than this row.
fn backward(
    alloc: Global,
    weights: &ClassWeights,
    rows: &[TreeRow],
) -> Result<Vec<TreeRow>, AllocError>
    ensures { IfOk result (λ kept. reverse kept.items
        ≡ staying (row_counts weights.now) row_depth rows.now) }
{
    let mut kept = Vec::new(alloc);
    let mut at = rows.len();
    while at > 0 {
        at -= 1;
        keep_before(weights, row_at(rows, at), &mut kept)?;
    }
    Ok(kept)
}

fn row_at(rows: &[TreeRow], at: usize) -> &TreeRow
    requires { at < length rows.now }
    ensures { result.now ≡ get_or rows.now at result.now }
{
    &rows[at]
}

/// Appends the row to `kept` if the row stays. Before the call, `kept` has all rows after this row
/// that stay, from the last to the first.
fn keep_before(
    weights: &ClassWeights,
    row: &TreeRow,
    kept: &mut Vec<TreeRow>,
) -> Result<(), AllocError>
    ensures { OnOk result (reverse kept.new.items
        ≡ kept_before (row_counts weights.now) row_depth row.now (reverse kept.old.items)) }
{
    if is_of_class(weights, row.pair) || is_above(row.depth, kept.as_slice()) {
        kept.push(*row)?;
    }
    Ok(())
}

/// Whether either map has a device of the class at the item of the pair or below it.
fn is_of_class(weights: &ClassWeights, pair: Pair) -> bool
    ensures { result ≡ (is_some (weight_at weights.now.before.items pair.before)
        || is_some (weight_at weights.now.after.items pair.after)) }
{
    weight_at(weights.before.as_slice(), pair.before).is_some()
        || weight_at(weights.after.as_slice(), pair.after).is_some()
}

/// Whether the last of the kept rows is deeper than `depth`.
fn is_above(depth: u32, kept: &[TreeRow]) -> bool
    ensures { result ≡ begins_deeper row_depth depth (reverse kept.now) }
{
    match kept.last() {
        Some(next) => depth < next.depth,
        None => false,
    }
}

/// Returns what both maps say about the item of a row. If `weights` has the weights of a class,
/// then they replace the item's own weights.
pub(super) fn shown_change<'a, A: Allocator, B: Allocator>(
    maps: &Comparison<'a, A, B>,
    weights: &Option<ClassWeights>,
    row: &TreeRow,
) -> Change<'a>
    ensures { change_data result ≡ shown_change maps.now weights.now row.now }
{
    let change = change_of(maps, row);
    match weights {
        Some(weights) => weighed_change(&change, weights, row.pair),
        None => change,
    }
}

/// Returns a row's change with the weights of the class in place of the item's own weights.
fn weighed_change<'a>(change: &Change<'a>, weights: &ClassWeights, pair: Pair) -> Change<'a>
    ensures { change_data result ≡ weighed_change (weight_at weights.now.before.items pair.before)
        (weight_at weights.now.after.items pair.after) (change_data change.now) }
{
    let before = weight_at(weights.before.as_slice(), pair.before);
    let after = weight_at(weights.after.as_slice(), pair.after);
    Change {
        id: change.id,
        depth: change.depth,
        stands: change.stands,
        before: with_weight(before, &change.before),
        after: with_weight(after, &change.after),
        same_class_ids: change.same_class_ids,
    }
}

/// Returns the item with this weight in place of its own weight. If `weight` is `None`, the new
/// weight is 0.
fn with_weight<'a>(weight: Option<Weight>, item: &Option<Seen<'a>>) -> Option<Seen<'a>>
    ensures { option_map seen_data result
        ≡ option_map (with_weight weight) (option_map seen_data item.now) }
{
    match item {
        Some(item) => Some(Seen {
            view: View {
                id: item.view.id,
                kind: item.view.kind,
                name: item.view.name,
                weight: weight_or_0(weight),
                parent: item.view.parent,
                class: item.view.class,
                alg: item.view.alg,
            },
            holder: item.holder,
        }),
        None => None,
    }
}

fn weight_or_0(weight: Option<Weight>) -> Weight
    ensures { result ≡ unwrap_or weight 0 }
{
    match weight {
        Some(weight) => weight,
        None => Weight::from_units(0),
    }
}

/// Returns the weight at the position `at`. Returns `None` if there is no position, or no weight at
/// this position.
fn weight_at(weights: &[Option<Weight>], at: Option<u32>) -> Option<Weight>
    ensures { result ≡ weight_at weights.now at }
{
    match at {
        Some(at) => match weights.get(at as usize) {
            Some(Some(weight)) => Some(*weight),
            Some(None) | None => None,
        },
        None => None,
    }
}
