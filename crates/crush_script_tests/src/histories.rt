//! Applies the calls of one operator to a map, and returns their history.

ghost use Rattle.std.specs.Prelude.{◌<◌, length};
ghost use Rattle.crush_history.specs.Entries.{AreOf};

use crush_history::{Entry, Script, is_change, make_call};
use crush_map::CrushMap;
use std::alloc::Global;
use std::process::Abort;

/// Applies the calls of one operator's script to the map, in their order. Returns the entries of
/// the history: each call with its reply. `operator` is the index of the script in `scripts`, from
/// 0.
pub fn entries_of(
    rt: &(impl Abort + AllocGlobal),
    map: &mut CrushMap<Global>,
    scripts: &[Script],
    operator: usize,
) -> Vec<Entry>
    requires { operator < length scripts.now }
    ensures { AreOf (length scripts.now) result.items }
{
    let calls = scripts[operator].calls.as_slice();
    let mut entries = Vec::new(rt.alloc());
    let mut changes = 0u32;
    for call in calls {
        let reply = make_call(map, changes, call).expect(rt, "no memory");
        changes = changes.saturating_add(is_change(reply) as u32);
        let call = call.try_copy(rt.alloc()).expect(rt, "no memory");
        let entry = Entry {
            operator,
            call,
            reply,
        };
        let Ok(()) = entries.push(entry) else {
            panic!(rt; "no memory")
        };
    }
    entries
}
