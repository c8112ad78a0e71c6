//! Collects the lines of a tree before they are written.

ghost use Rattle.std.specs.Prelude.{◌≡◌, ◌<◌, ◌∷◌, ◌++◌, List, Option, ℕ, None, OnOk, IfOk, flat_map, get_or, length, map as each};
ghost use Rattle.crush_print.specs.ClassTree.{weighed};
ghost use Rattle.crush_print.specs.TreeLine.{line_data};
ghost use Rattle.crush_print.specs.TreePart.{cut, down_to};
ghost use Rattle.crush_print.specs.WalkStep.{walk_step_data};
ghost use Rattle.crush_items.specs.Tree.{WalkStepData};

use crate::classes::copy_of;
use crate::part::{closed_by, is_closed};
use crate::steps::WalkStep;
use crush_tree::View;
use crush_units::{TypeId, Weight};
use std::alloc::{AllocError, Allocator, Global};

/// A line of a tree: an item with its depth, and with the weight that the line shows.
#[derive(Clone, Copy, Debug)]
pub(crate) struct TreeLine<'a> {
    pub depth: u32,
    pub view: View<'a>,
}

/// Returns a line for each step, with the weight that the item has in the map.
pub(crate) fn lines_of<'a, A: Allocator>(
    alloc: Global,
    steps: &[WalkStep<'a, A>],
) -> Result<Vec<TreeLine<'a>>, AllocError>
    ensures { IfOk result (λ lines. each line_data lines.items ≡ each walk_step_data steps.now) }
{
    let mut lines = Vec::with_capacity(alloc, steps.len())?;
    for step in steps {
        let line = TreeLine {
            depth: step.depth,
            view: step.view(),
        };
        let Ok(()) = lines.push(line) else {
            return Err(AllocError);
        };
    }
    Ok(lines)
}

/// Returns a line for each step that has a weight in `weights`. The line shows this weight instead
/// of the item's own weight. The weight of a step is at the same position in `weights` as the step
/// is in `steps`. If `kind` is a type, the steps below buckets of this type have no lines.
pub(crate) fn weighed_lines<'a, A: Allocator>(
    alloc: Global,
    steps: &[WalkStep<'a, A>],
    weights: &[Option<Weight>],
    kind: Option<TypeId>,
) -> Result<Vec<TreeLine<'a>>, AllocError>
    ensures { IfOk result (λ lines. (f : WalkStepData → Option ℕ)
        → weights.now ≡ each f (each walk_step_data steps.now)
        → each line_data lines.items ≡ flat_map (λ s. weighed (f s) s) (cut kind (each walk_step_data steps.now))) }
{
    match kind {
        Some(kind) => lines_down_to(alloc, steps, weights, kind),
        None => all_lines(alloc, steps, weights),
    }
}

fn all_lines<'a, A: Allocator>(
    alloc: Global,
    steps: &[WalkStep<'a, A>],
    weights: &[Option<Weight>],
) -> Result<Vec<TreeLine<'a>>, AllocError>
    ensures { IfOk result (λ lines. (f : WalkStepData → Option ℕ)
        → weights.now ≡ each f (each walk_step_data steps.now)
        → each line_data lines.items ≡ flat_map (λ s. weighed (f s) s) (each walk_step_data steps.now)) }
{
    let mut lines = Vec::new(alloc);
    for (at, step) in steps.iter().enumerate() {
        push_line(step, weight_at(weights, at), &mut lines)?;
    }
    Ok(lines)
}

fn lines_down_to<'a, A: Allocator>(
    alloc: Global,
    steps: &[WalkStep<'a, A>],
    weights: &[Option<Weight>],
    kind: TypeId,
) -> Result<Vec<TreeLine<'a>>, AllocError>
    ensures { IfOk result (λ lines. (f : WalkStepData → Option ℕ)
        → weights.now ≡ each f (each walk_step_data steps.now)
        → each line_data lines.items ≡ flat_map (λ s. weighed (f s) s) (down_to kind None (each walk_step_data steps.now))) }
{
    let mut lines = Vec::new(alloc);
    let mut closed = None;
    for (at, step) in steps.iter().enumerate() {
        closed = push_open(step, weight_at(weights, at), kind, closed, &mut lines)?;
    }
    Ok(lines)
}

/// Appends the line of the step to `lines`, unless the step is below a bucket of the type `kind`. A
/// step without a weight has no line. `closed` is the depth of the last step that wasn't below such
/// a bucket, if the item of that step has the type `kind`; otherwise it is `None`. Returns the
/// value of `closed` for the next step.
fn push_open<'a, A: Allocator>(
    step: &WalkStep<'a, A>,
    weight: Option<Weight>,
    kind: TypeId,
    closed: Option<u32>,
    lines: &mut Vec<TreeLine<'a>>,
) -> Result<Option<u32>, AllocError>
    ensures { IfOk result (λ now. (f : WalkStepData → Option ℕ) (rest : List WalkStepData)
        → weight ≡ f (walk_step_data step.now)
        → each line_data lines.old.items ++ flat_map (λ s. weighed (f s) s) (down_to kind closed (walk_step_data step.now ∷ rest))
        ≡ each line_data lines.new.items ++ flat_map (λ s. weighed (f s) s) (down_to kind now rest)) }
{
    if is_closed(closed, step) {
        return Ok(closed);
    }
    push_line(step, weight, lines)?;
    Ok(closed_by(kind, step))
}

/// Appends the line of the step with this weight to `lines`. Appends nothing if there is no weight.
fn push_line<'a, A: Allocator>(
    step: &WalkStep<'a, A>,
    weight: Option<Weight>,
    lines: &mut Vec<TreeLine<'a>>,
) -> Result<(), AllocError>
    ensures { OnOk result (each line_data lines.new.items ≡ each line_data lines.old.items
        ++ weighed weight (walk_step_data step.now)) }
{
    let Some(weight) = weight else {
        return Ok(());
    };
    let mut view = step.view();
    view.weight = weight;
    let line = TreeLine {
        depth: step.depth,
        view,
    };
    let Ok(()) = lines.push(line) else {
        return Err(AllocError);
    };
    Ok(())
}

/// Returns the weight at this position, or `None` if `weights` has no such position.
fn weight_at(weights: &[Option<Weight>], at: usize) -> Option<Weight>
    ensures { (d : Option ℕ) → at < length weights.now → result ≡ get_or weights.now at d }
{
    match weights.get(at) {
        Some(weight) => copy_of(weight),
        None => None,
    }
}
