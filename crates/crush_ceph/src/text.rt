//! The text of Ceph's commands.

ghost use Rattle.std.specs.Prelude.{◌≡◌, ◌++◌, IfOk, List, OnOk, flat_map, length};
ghost use Rattle.crush_model.specs.Stands.{Stands};
ghost use Rattle.crush_model.specs.Table.{Row};
ghost use Rattle.crush_ceph.specs.CephText.{ceph_text, commands_text};
ghost use Rattle.crush_ceph.specs.Commands.{command_line, cut};

use crate::commands::{first_command, push_command};
use crate::steps::{CephStep, ceph_steps};
use crush_edits::Edit;
use crush_history::push_ceph_heading;
use crush_map::CrushMap;
use std::alloc::{AllocError, Global};

/// Divides the steps into commands, each of which does one step or several steps that follow one
/// another. Appends a line for each command, and returns the number of commands.
fn push_commands(steps: &[CephStep], text: &mut Vec<u8>) -> Result<u64, AllocError>
    ensures lines { OnOk result (text.new.items
        ≡ text.old.items ++ flat_map command_line (cut steps.now)) }
    ensures count { IfOk result (λ count. count ≡ length (cut steps.now)) }
{
    let mut from: usize = 0;
    let mut count: u64 = 0;
    'commands: while from < steps.len() {
        let rest = steps.split_at(from).1;
        let len = first_command(rest);
        push_command(rest.split_at(len).0, text)?;
        from += len;
        count += 1;
    }
    Ok(count)
}

fn commands_text(alloc: Global, steps: &[CephStep]) -> Result<Vec<u8>, AllocError>
    ensures { IfOk result (λ text. text.items ≡ commands_text (cut steps.now)) }
{
    let mut lines = Vec::new(alloc);
    let count = push_commands(steps, &mut lines)?;
    let mut text = Vec::new(alloc);
    push_ceph_heading(count, &mut text)?;
    text.extend_from_slice(lines.as_slice())?;
    Ok(text)
}

/// Returns the edits as Ceph's own commands, as lines for a shell. `opening` is the map before the
/// first edit. The function succeeds even if one of the edits would be refused, and the text then
/// also has the command of this edit. The function fails only if memory runs out.
///
/// The first line is `# N commands`. N lines follow, one for each command. Each of these lines
/// begins with the words `ceph osd crush`, and then has the words of the command. If a command does
/// one edit, its words are those of the edit in a history line, but a weight has six digits after
/// the point. Ceph rounds weights down, and reads exactly the weight of the edit from these six
/// digits. If any word of an edit except for the first word begins with `-`, Ceph would read this
/// word as an option. In this case, the line has `--` before the words of the command.
///
/// - An `add-bucket` and the `move` of the same bucket directly after it are written as one
///   command. Several `rm-device-class` that directly follow one another are written as one
///   command. So are several `set-device-class` with the same class that directly follow one
///   another.
/// - If no bucket holds the device of a `set`, then the `set` is written as an `add`.
/// - The command `reweight-all` follows a `rename-bucket` of a bucket if a rule has a step `take`
///   with this bucket and a class. If several such `rename-bucket` directly follow one another,
///   `reweight-all` follows only the last of them.
/// - The line of a `swap-bucket` ends in ` --yes-i-really-mean-it`, because Ceph requires this
///   option if the two buckets have different parents.
pub fn ceph_text(
    alloc: Global,
    opening: CrushMap<Global>,
    edits: &[Edit],
) -> Result<Vec<u8>, AllocError>
    ensures { IfOk result (λ text. (t : List Row) → Stands opening.forest t
        → text.items ≡ ceph_text opening.setting t edits.now) }
{
    let mut map = opening;
    let steps = ceph_steps(alloc, &mut map, edits)?;
    commands_text(alloc, steps.as_slice())
}
