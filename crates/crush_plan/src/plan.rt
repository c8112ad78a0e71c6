//! Finds the plan that leads from one map to another.

ghost use Rattle.std.specs.Prelude.{◌≡◌, ◌<◌, IfOk, List, length, true};
ghost use Rattle.std.specs.Option.{option_map};
ghost use Rattle.crush_model.specs.Stands.{Stands};
ghost use Rattle.crush_model.specs.Table.{Row};
ghost use Rattle.crush_since.specs.Since.{plain_map};
ghost use Rattle.crush_since.specs.Stays.{line_texts, stays_part};
ghost use Rattle.crush_plan.specs.Draft.{IsDraftOf};
ghost use Rattle.crush_plan.specs.Plan.{GoesTo, IsPlan, plan_data};

use crate::draft::Draft;
use crate::goal::PlanGoal;
use crate::identity::Identity;
use crate::item_table::ItemTable;
use crate::search::improve;
use crush_history::copy_edits;
use crush_map::{CrushMap, Edit};
use crush_since::{Counts, count_aside, stays_part};
use std::alloc::{AllocError, Allocator, Global};

/// Edits that lead from one map toward another map, and the differences that remain after the
/// edits. The comments of the fields describe a plan that [`find_plan`] returns.
#[derive(Debug, PartialEq, Eq, Drop)]
pub struct Plan {
    /// The edits, in the order in which they have to be applied. The first edit is applied to the
    /// map from which the plan starts, and each other edit to the result of the edits before it. No
    /// edit is refused, and each edit changes the map to which it is applied.
    pub edits: Vec<Edit>,
    /// A line of text, without its line feed, for each difference between the map after the edits
    /// and the wanted map. [`stays_part`] describes these lines. To find the differences, the items
    /// of the two maps are matched by their names. Two devices must also have the same id. If the
    /// plan is for a part of the maps, only the differences in this part are listed.
    pub rest: Vec<Vec<u8>>,
    /// How many buckets have different ids in the map after the edits and in the wanted map, and
    /// how many have different class ids, which are their ids for device classes. The buckets are
    /// matched by their names. If the plan is for a part of the maps, only buckets in this part are
    /// counted. No edit can set these ids, so such differences aren't in `rest`.
    pub aside: Counts,
}

impl Plan {
    /// Returns a copy of the plan, allocated with `alloc`, or an error if memory runs out.
    pub fn try_copy(&self, alloc: Global) -> Result<Plan, AllocError>
        ensures { IfOk result (λ copy. plan_data copy ≡ plan_data self.now) }
    {
        let edits = copy_edits(alloc, self.edits.as_slice())?;
        let rest = copy_lines(alloc, self.rest.as_slice())?;
        Ok(Plan {
            edits,
            rest,
            aside: self.aside,
        })
    }
}

/// Copies the lines, in order, to a vector that is allocated with `alloc`.
fn copy_lines(alloc: Global, lines: &[Vec<u8>]) -> Result<Vec<Vec<u8>>, AllocError>
    ensures { IfOk result (λ copies. line_texts copies.items ≡ line_texts lines.now) }
{
    let mut copies = Vec::with_capacity(alloc, lines.len())?;
    for line in lines {
        let copy = Vec::from_slice(alloc, line.as_slice())?;
        copies.push(copy)?;
    }
    Ok(copies)
}

/// Returns a plan that leads from a map toward the wanted map.
///
/// `identity` says how the buckets of the two maps are matched. If `under` is a name, the plan is
/// only for a part of the maps: the item of this name, and all items below it. If a map has no item
/// of this name, its part is empty. Each item that an edit names then meets at least one of two
/// conditions, except for the bucket into which the edit puts an item. First, the part of `map` has
/// an item with the item's id. Second, the part of `wanted` has an item with the name that the item
/// has after the edit. If an edit sets the weights of all devices below a bucket, each item below
/// this bucket also meets at least one of these conditions.
///
/// A line of a script can express each edit. No edit creates a bucket that its location names. No
/// edit is refused, and each edit changes the map. If the plan has edits, fewer differences remain
/// after these edits than there are between `map` and `wanted`. If a bucket has different ids in
/// the two maps, this doesn't count as a difference.
///
/// The call fails only if memory runs out.
pub fn find_plan<A: Allocator + Clone, B: Allocator>(
    alloc: Global,
    identity: Identity,
    under: Option<&str>,
    map: &CrushMap<A>,
    wanted: &CrushMap<B>,
) -> Result<Plan, AllocError>
    ensures { IfOk result (λ plan. (t u : List Row)
        → Stands map.now.forest t → Stands wanted.now.forest u
        → IsPlan (option_map (λ name. name.now) under.entry) (plain_map map.now.setting t)
        (plain_map wanted.now.setting u) (plan_data plan)) }
{
    let rest = stays_part(alloc, under, map, wanted)?;
    if rest.is_empty() {
        return without_edits(alloc, under, map, wanted, rest);
    }
    let differences = rest.len();
    let found = with_edits(alloc, identity, under, map, wanted, differences)?;
    if is_better(&found, differences) {
        return Ok(found);
    }
    without_edits(alloc, under, map, wanted, rest)
}

/// Returns a plan without edits. `rest` lists the differences between the two maps.
fn without_edits<A: Allocator, B: Allocator>(
    alloc: Global,
    under: Option<&str>,
    map: &CrushMap<A>,
    wanted: &CrushMap<B>,
    rest: Vec<Vec<u8>>,
) -> Result<Plan, AllocError>
    requires remaining { (t u : List Row)
        → Stands map.now.forest t → Stands wanted.now.forest u
        → line_texts rest.items ≡ stays_part (option_map (λ name. name.now) under)
        (plain_map map.now.setting t) (plain_map wanted.now.setting u) }
    ensures { IfOk result (λ plan. (t u : List Row)
        → Stands map.now.forest t → Stands wanted.now.forest u
        → IsPlan (option_map (λ name. name.now) under.entry) (plain_map map.now.setting t)
        (plain_map wanted.now.setting u) (plan_data plan)) }
{
    let aside = count_aside(alloc, under, map, wanted)?;
    Ok(Plan {
        edits: Vec::new(alloc),
        rest,
        aside,
    })
}

/// Returns a plan with the edits that a search finds. `differences` is the number of differences
/// between the two maps.
fn with_edits<A: Allocator + Clone, B: Allocator>(
    alloc: Global,
    identity: Identity,
    under: Option<&str>,
    map: &CrushMap<A>,
    wanted: &CrushMap<B>,
    differences: usize,
) -> Result<Plan, AllocError>
    ensures { IfOk result (λ plan. (t u : List Row)
        → Stands map.now.forest t → Stands wanted.now.forest u
        → GoesTo (option_map (λ name. name.now) under.entry) (plain_map map.now.setting t)
        (plain_map wanted.now.setting u) (plan_data plan)) }
{
    let goal = PlanGoal {
        identity,
        under,
        before: map,
        wanted,
        there: ItemTable::new(alloc, wanted)?,
    };
    to_goal(alloc, &goal, differences)
}

fn to_goal<A: Allocator + Clone, B: Allocator>(
    alloc: Global,
    goal: &PlanGoal<'_, A, B>,
    differences: usize,
) -> Result<Plan, AllocError>
    ensures { IfOk result (λ plan. (t u : List Row)
        → Stands goal.now.before.now.forest t → Stands goal.now.wanted.now.forest u
        → GoesTo (option_map (λ name. name.now) goal.now.under)
        (plain_map goal.now.before.now.setting t) (plain_map goal.now.wanted.now.setting u) (plan_data plan)) }
{
    let draft = drafted(alloc, goal, differences)?;
    let rest = stays_part(alloc, goal.under, &draft.map, goal.wanted)?;
    let aside = count_aside(alloc, goal.under, &draft.map, goal.wanted)?;
    let Draft { edits, .. } = draft;
    Ok(Plan { edits, rest, aside })
}

/// Whether fewer than `differences` differences remain after the edits of the plan.
fn is_better(plan: &Plan, differences: usize) -> bool
    ensures { result ≡ true → length plan.now.rest.items < differences }
{
    plan.rest.len() < differences
}

/// Searches for edits, starting from the map before the plan, and returns a draft with the edits
/// that the search has found. `differences` is the number of differences before the search.
fn drafted<A: Allocator + Clone, B: Allocator>(
    alloc: Global,
    goal: &PlanGoal<'_, A, B>,
    differences: usize,
) -> Result<Draft<A>, AllocError>
    ensures { IfOk result (IsDraftOf goal.now) }
{
    let mut draft = Draft {
        alloc,
        map: goal.before.try_copy()?,
        edits: Vec::new(alloc),
    };
    improve(&mut draft, goal, differences)?;
    Ok(draft)
}
