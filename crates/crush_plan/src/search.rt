//! The search for the edits of a plan.

ghost use Rattle.std.specs.Prelude.{◌≡◌, ◌⊎◌, IfOk, OnOk};
ghost use Rattle.crush_plan.specs.Draft.{GoesOn, IsContinued};

use crate::classes::set_classes;
use crate::devices::add_devices;
use crate::draft::Draft;
use crate::goal::PlanGoal;
use crate::identity::Identity;
use crate::moves::move_all;
use crate::removals::remove_all;
use crate::renames::rename_all;
use crate::swaps::swap_all;
use crate::way::Way;
use crate::weights::{Which, set_weights, weighed_together};
use crush_since::stays_part;
use crush_units::DeviceId;
use std::alloc::{AllocError, Allocator, Global};

/// The largest number of rounds of a search. In each round, the search builds one or more lists of
/// edits. If fewer differences remain after the best of these lists than before the round, the
/// search appends this list to the plan. Each round starts from the map to which the earlier rounds
/// have led. So edits that were refused in an earlier round may now succeed. In tests with random
/// maps, no plan has needed all of these rounds.
const MOST_ROUNDS: usize = 8;

/// A draft that starts from the map of another draft, and the number of differences that remain
/// after its edits.
#[derive(Drop)]
struct Candidate<A: Allocator> {
    draft: Draft<A>,
    differences: usize,
}

/// Adds edits to the draft in rounds. `differences` is the number of differences before the first
/// round. The search ends when no difference remains, when a round can't reduce the number of
/// differences, or after [`MOST_ROUNDS`] rounds.
///
/// In tests with random maps, a second plan, from the map after the first plan to the same wanted
/// map, never had an edit. No contract promises this.
pub(crate) fn improve<A: Allocator + Clone, B: Allocator>(
    draft: &mut Draft<A>,
    goal: &PlanGoal<'_, A, B>,
    differences: usize,
) -> Result<(), AllocError>
    ensures { OnOk result (GoesOn goal.now draft.old draft.new) }
{
    let mut before = differences;
    let mut goes_on = true;
    for _round in 0..MOST_ROUNDS {
        if !goes_on {
            return Ok(());
        }
        let after = improve_once(draft, goal, before)?;
        goes_on = 0 < after && after < before;
        before = after;
    }
    Ok(())
}

/// If fewer than `differences` differences remain after the edits of the best candidate, adds these
/// edits to the draft, and returns the number of differences that then remain. Otherwise changes
/// nothing and returns `differences`.
fn improve_once<A: Allocator + Clone, B: Allocator>(
    draft: &mut Draft<A>,
    goal: &PlanGoal<'_, A, B>,
    differences: usize,
) -> Result<usize, AllocError>
    ensures { OnOk result (GoesOn goal.now draft.old draft.new) }
{
    let best = best_candidate(draft, goal)?;
    if best.differences >= differences {
        return Ok(differences);
    }
    let after = best.differences;
    draft.adopt(best.draft)?;
    Ok(after)
}

/// Returns the number of differences that remain after the edits of the draft.
fn count_differences<A: Allocator + Clone, B: Allocator>(
    draft: &Draft<A>,
    goal: &PlanGoal<'_, A, B>,
) -> Result<usize, AllocError> {
    let rest = stays_part(draft.alloc, goal.under, &draft.map, goal.wanted)?;
    Ok(rest.len())
}

/// Returns the better of two candidates: one that matches the buckets as `goal.identity` says, and
/// one that matches all buckets by their names. If the first candidate matches only buckets of the
/// same name, the two candidates would be equal. In this case, the function builds only the first
/// candidate.
fn best_candidate<A: Allocator + Clone, B: Allocator>(
    draft: &Draft<A>,
    goal: &PlanGoal<'_, A, B>,
) -> Result<Candidate<A>, AllocError>
    ensures { IfOk result (λ best. IsContinued goal.now draft.now best.draft) }
{
    let way = Way::new(draft.alloc, goal.identity, goal, &draft.map)?;
    let first = try_way(draft, goal, &way)?;
    if way.pairs.renamed.is_empty() {
        return Ok(first);
    }
    let by_names = Way::new(draft.alloc, Identity::Names, goal, &draft.map)?;
    let second = try_way(draft, goal, &by_names)?;
    Ok(better_of(first, second))
}

/// Returns the candidate that leaves fewer differences. If both leave the same number, returns the
/// one with fewer edits. If both also have the same number of edits, returns the first one.
fn better_of<A: Allocator>(first: Candidate<A>, second: Candidate<A>) -> Candidate<A>
    ensures { (result ≡ first) ⊎ (result ≡ second) }
{
    if is_better(&second, &first) {
        second
    } else {
        first
    }
}

/// Whether the candidate leaves fewer differences than the other one, or the same number after
/// fewer edits.
fn is_better<A: Allocator>(candidate: &Candidate<A>, other: &Candidate<A>) -> bool {
    candidate.differences < other.differences
        || (candidate.differences == other.differences
            && candidate.draft.edits.len() < other.draft.edits.len())
}

/// Returns a candidate that starts from the map of `draft`, and that matches the buckets as `way`
/// does.
///
/// The search lowers weights before it moves items. But the first candidate doesn't lower a weight
/// early if a later edit sets this weight, together with all other weights below a bucket. Before
/// this later edit, a sum of weights may then be too large, so that an edit is refused. So if
/// differences remain, the function builds a second candidate, which lowers each of these weights
/// early. The function returns the better of the two candidates.
fn try_way<A: Allocator + Clone, B: Allocator>(
    draft: &Draft<A>,
    goal: &PlanGoal<'_, A, B>,
    way: &Way<'_, A>,
) -> Result<Candidate<A>, AllocError>
    ensures { IfOk result (λ found. IsContinued goal.now draft.now found.draft) }
{
    let later = weighed_later(draft.alloc, goal, way)?;
    let first = try_edits(draft, goal, way, later.as_slice())?;
    if later.is_empty() || first.differences == 0 {
        return Ok(first);
    }
    let second = try_edits(draft, goal, way, &[])?;
    Ok(better_of(first, second))
}

/// Returns the devices below those buckets for which one later edit sets all weights together. The
/// devices are sorted by their ids. If no weight has to be lowered, returns no device, because
/// [`try_way`] then doesn't need the list.
fn weighed_later<A: Allocator, B: Allocator>(
    alloc: Global,
    goal: &PlanGoal<'_, A, B>,
    way: &Way<'_, A>,
) -> Result<Vec<DeviceId>, AllocError> {
    if way.items.current.lowered.is_empty() {
        Ok(Vec::new(alloc))
    } else {
        weighed_together(alloc, goal, &way.start)
    }
}

/// Returns a candidate that starts from the map of `draft`, and that matches the buckets as `way`
/// does. The devices `later` get no edits of their own that lower their weights early.
fn try_edits<A: Allocator + Clone, B: Allocator>(
    draft: &Draft<A>,
    goal: &PlanGoal<'_, A, B>,
    way: &Way<'_, A>,
    later: &[DeviceId],
) -> Result<Candidate<A>, AllocError>
    ensures { IfOk result (λ found. IsContinued goal.now draft.now found.draft) }
{
    let mut fork = draft.fork()?;
    build_edits(&mut fork, goal, way, later)?;
    let differences = count_differences(&fork, goal)?;
    Ok(Candidate {
        draft: fork,
        differences,
    })
}

/// Gives the draft the edits that lead toward the wanted map, with the buckets matched as in `way`.
///
/// The function begins with removals, because the number of devices and buckets of a map is
/// limited. Weights are lowered before items are moved or added, so that fewer of the later edits
/// are refused because a sum of weights would be too large. The devices `later` get no edits of
/// their own that lower their weights early.
fn build_edits<A: Allocator + Clone, B: Allocator>(
    draft: &mut Draft<A>,
    goal: &PlanGoal<'_, A, B>,
    way: &Way<'_, A>,
    later: &[DeviceId],
) -> Result<(), AllocError>
    ensures { OnOk result (GoesOn goal.now draft.old draft.new) }
{
    let (current, target) = (&way.items.current, &way.items.target);
    remove_all(draft, goal, way)?;
    set_weights(draft, goal, current.lowered.as_slice(), Which::Less, later)?;
    swap_all(draft, goal, way)?;
    rename_all(draft, goal, way)?;
    move_all(draft, goal, target)?;
    remove_all(draft, goal, way)?;
    set_weights(draft, goal, current.reweighed.as_slice(), Which::Other, &[])?;
    add_devices(draft, goal, target.set.as_slice())?;
    set_classes(draft, goal, target.set.as_slice())
}
