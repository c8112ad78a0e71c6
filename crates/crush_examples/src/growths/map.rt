//! Makes the calls of a job on a map. The map's allocator refuses one request for memory. The
//! parameter `answers` counts the operations that report that memory ran out.

use anyhow::ensure;
use crush_history::{Call, Line, Reply, Script, is_change, make_call};
use crush_map::{CrushMap, Hashing};
use crush_print::{WeightForm, write_map};
use crush_text::{TextFaultKind, read_map_in};
use std::alloc::{Allocator, Global};
use std::io::Write;

/// Makes the calls of all scripts. Returns how many requests for memory such a run makes at least
/// ([`fewest_requests`]). Fails if the printed map, followed by the lines of the history, isn't
/// `output`.
pub fn run_on_map<A: Allocator + Clone>(
    alloc: Global,
    map: CrushMap<A>,
    scripts: &[Script],
    output: &[u8],
    answers: &mut usize,
) -> anyhow::Result<usize> {
    let mut map = map;
    let lines = make_calls(alloc, &mut map, scripts, answers)?;
    ensure!(
        is_written(alloc, &map, lines.as_slice(), output)?,
        "another output"
    );
    Ok(fewest_requests(&map))
}

/// Returns how many requests for memory a run makes at least, if it ends with this map: one for the
/// items of each bucket, and one for the table of devices, if the map has devices. This is true for
/// the jobs of these tests. For other maps the number can be too large, because an empty bucket
/// needs no memory for items.
pub fn fewest_requests<A: Allocator>(map: &CrushMap<A>) -> usize {
    let counts = map.counts();
    counts.buckets as usize + usize::from(counts.devices > 0)
}

/// Reads the text of a map. If memory runs out, reads the text again. The map gets its memory from
/// `memory`.
pub fn read_again<A: Allocator + Clone>(
    alloc: Global,
    memory: A,
    text: &[u8],
    answers: &mut usize,
) -> anyhow::Result<CrushMap<A>> {
    let again = memory.clone()?;
    match read_map_in(alloc, Hashing::plain(), memory, text) {
        Ok((map, _adjusted)) => Ok(map),
        Err(fault) => {
            ensure!(
                fault.kind == TextFaultKind::OutOfMemory,
                "a text with a fault"
            );
            *answers = answers.saturating_add(1);
            let (map, _adjusted) = read_map_in(alloc, Hashing::plain(), again, text)?;
            Ok(map)
        }
    }
}

fn make_calls<A: Allocator + Clone>(
    alloc: Global,
    map: &mut CrushMap<A>,
    scripts: &[Script],
    answers: &mut usize,
) -> anyhow::Result<Vec<u8>> {
    let mut lines = Vec::new(alloc);
    let mut number = 0u32;
    let mut changes = 0u32;
    for script in scripts {
        for call in script.calls.as_slice() {
            let reply = make_again(alloc, map, changes, call, answers)?;
            number = number.saturating_add(1);
            if is_change(reply) {
                changes = changes.saturating_add(1);
            }
            let line = Line {
                number,
                operator: script.name.as_str(),
                call,
                reply,
            };
            write!(lines, "{line}\n")?;
        }
    }
    Ok(lines)
}

/// Makes a call, and returns its reply. If memory runs out, checks that the map is unchanged, and
/// makes the call again. `changes` is the number of earlier calls that changed the map.
fn make_again<A: Allocator + Clone>(
    alloc: Global,
    map: &mut CrushMap<A>,
    changes: u32,
    call: &Call,
    answers: &mut usize,
) -> anyhow::Result<Reply> {
    let before = text_of(alloc, map)?;
    if let Ok(reply) = make_call(map, changes, call) {
        return Ok(reply);
    }
    *answers = answers.saturating_add(1);
    ensure!(
        is_written(alloc, map, &[], before.as_slice())?,
        "another map after memory ran out"
    );
    Ok(make_call(map, changes, call)?)
}

/// Returns the printed text of the map.
pub fn text_of<A: Allocator>(alloc: Global, map: &CrushMap<A>) -> anyhow::Result<Vec<u8>> {
    let mut text = Vec::new(alloc);
    write_map(alloc, map, WeightForm::Rounded, &mut text)?;
    Ok(text)
}

/// Whether `text` is the printed text of the map, followed by `lines`.
pub fn is_written<A: Allocator>(
    alloc: Global,
    map: &CrushMap<A>,
    lines: &[u8],
    text: &[u8],
) -> anyhow::Result<bool> {
    let mut written = text_of(alloc, map)?;
    written.extend_from_slice(lines)?;
    Ok(written.as_slice() == text)
}
