//! Prints a plan.

ghost use Rattle.std.specs.Prelude.{◌≡◌, ◌∷◌, [], ◌++◌, IfOk, List, OnOk, flat_map, true};
ghost use Rattle.crush_model.specs.Stands.{Stands};
ghost use Rattle.crush_model.specs.Table.{Row};
ghost use Rattle.crush_since.specs.Aside.{aside_text};
ghost use Rattle.crush_since.specs.Stays.{line_texts};
ghost use Rattle.crush_plan.specs.Plan.{plan_data};
ghost use Rattle.crush_plan.specs.PlanText.{ceph_plan_text, commented, mark, plan_text, script_line, stay_heading, stay_text, tail_text};

use crate::plan::Plan;
use crush_ceph::ceph_text;
use crush_edits::Edit;
use crush_history::push_ceph_heading;
use crush_map::CrushMap;
use crush_since::{Counts, push_aside, push_stays};
use crush_units::put_all;
use itoa::Buffer;
use std::alloc::{AllocError, Global};
use std::io::Write;

/// Returns the text of a plan as a script: the line `# N commands`, and a line for each edit. If
/// differences remain, the line `# N differences stay` follows, and then a comment line for each
/// difference. The last lines are comment lines: one says how many buckets have different ids, and
/// one says how many have different class ids. If such a number is 0, its line is left out. The
/// call fails only if memory runs out.
pub fn plan_text(alloc: Global, plan: &Plan) -> Result<Vec<u8>, AllocError>
    ensures { IfOk result (λ text. text.items ≡ plan_text (plan_data plan.now)) }
{
    let mut text = Vec::new(alloc);
    let edits = plan.edits.as_slice();
    push_ceph_heading(edits.len() as u64, &mut text)?;
    push_edits(edits, &mut text)?;
    push_tail(alloc, plan, &mut text)?;
    Ok(text)
}

/// Returns the text of a plan as Ceph's own commands. `map` must be the map from which the plan
/// starts. The text begins with the text that [`ceph_text`] returns for the edits. The comment
/// lines after the commands are the same as in [`plan_text`]. The call fails only if memory runs
/// out.
pub fn ceph_plan_text(
    alloc: Global,
    map: &CrushMap<Global>,
    plan: &Plan,
) -> Result<Vec<u8>, AllocError>
    ensures { IfOk result (λ text. (t : List Row) → Stands map.now.forest t
        → text.items ≡ ceph_plan_text map.now.setting t (plan_data plan.now)) }
{
    let mut text = ceph_text(alloc, map.try_copy()?, plan.edits.as_slice())?;
    push_tail(alloc, plan, &mut text)?;
    Ok(text)
}

/// Appends the comment lines that follow the edits of the plan.
fn push_tail(alloc: Global, plan: &Plan, text: &mut Vec<u8>) -> Result<(), AllocError>
    ensures { OnOk result (text.new.items ≡ text.old.items ++ tail_text (plan_data plan.now)) }
{
    push_rest(alloc, plan.rest.as_slice(), text)?;
    push_ids(alloc, plan.aside, text)
}

/// Appends a comment line that says how many buckets have different ids, and one that says how many
/// have different class ids. If such a number is 0, its line is left out.
fn push_ids(alloc: Global, counts: Counts, text: &mut Vec<u8>) -> Result<(), AllocError>
    ensures { OnOk result (text.new.items ≡ text.old.items ++ commented true (aside_text counts)) }
{
    let mut lines = Vec::new(alloc);
    push_aside(counts, &mut lines)?;
    push_comments(lines.as_slice(), text)
}

/// Appends a line for each edit.
fn push_edits(edits: &[Edit], text: &mut Vec<u8>) -> Result<(), AllocError>
    ensures { OnOk result (text.new.items ≡ text.old.items ++ flat_map script_line edits.now) }
{
    for edit in edits {
        push_line(edit, text)?;
    }
    Ok(())
}

/// Appends the edit as a line of a script.
fn push_line(edit: &Edit, text: &mut Vec<u8>) -> Result<(), AllocError>
    ensures { OnOk result (text.new.items ≡ text.old.items ++ script_line edit.now) }
{
    write!(text, "{edit}\n").map_err(|_| AllocError)
}

/// Appends comment lines with the differences that remain. If no differences remain, appends
/// nothing.
fn push_rest(alloc: Global, rest: &[Vec<u8>], text: &mut Vec<u8>) -> Result<(), AllocError>
    ensures { OnOk result (text.new.items ≡ text.old.items ++ stay_text (line_texts rest.now)) }
{
    if rest.is_empty() {
        return Ok(());
    }
    push_heading(rest.len(), text)?;
    let mut lines = Vec::new(alloc);
    push_stays(rest, &mut lines)?;
    push_comments(lines.as_slice(), text)
}

/// Appends the line that says how many differences remain.
#[tactic(auto, unfolding(crate::specs::PlanText::stay_heading))]
fn push_heading(count: usize, text: &mut Vec<u8>) -> Result<(), AllocError>
    ensures { OnOk result (text.new.items ≡ text.old.items ++ stay_heading count) }
{
    let mut buffer = Buffer::new();
    let count = buffer.format(count).as_bytes();
    put_all(
        text,
        &[b"# ".as_slice(), count, b" differences stay\n".as_slice()],
    )
    .map_err(|_| AllocError)
}

/// Appends the lines, with `# ` before each line.
fn push_comments(lines: &[u8], text: &mut Vec<u8>) -> Result<(), AllocError>
    ensures { OnOk result (text.new.items ≡ text.old.items ++ commented true lines.now) }
{
    let mut at_head = true;
    for byte in lines {
        push_marked(at_head, *byte, text)?;
        at_head = *byte == b'\n';
    }
    Ok(())
}

/// Appends the byte. If `at_head` is true, the byte is the first byte of a line, and the function
/// appends `# ` before it.
fn push_marked(at_head: bool, byte: u8, text: &mut Vec<u8>) -> Result<(), AllocError>
    ensures { OnOk result (text.new.items ≡ text.old.items ++ (mark at_head ++ byte ∷ [])) }
{
    if at_head {
        text.extend_from_slice(b"# ")?;
    }
    text.push(byte)?;
    Ok(())
}
