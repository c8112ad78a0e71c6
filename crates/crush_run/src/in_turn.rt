//! Runs the scripts of the operators one after the other.

ghost use Rattle.std.specs.Prelude.{◌≡◌, ◌<◌, ◌≤◌, ◌++◌, ℕ, List, IfOk, IfErr, OnOk, length};
ghost use Rattle.crush_units.specs.declared.limits.TheConstants.{MOST_ENTRIES, MOST_OPERATORS};
ghost use Rattle.crush_model.specs.Table.{Row};
ghost use Rattle.crush_edits.specs.Setting.{SettingData};
ghost use Rattle.crush_map.specs.MapData.{MapStands};
ghost use Rattle.crush_history.specs.Script.{scripts_data};
ghost use Rattle.crush_history.specs.History.{behind, counted_after, table_after, turn, turns};
ghost use Rattle.crush_history.specs.Entries.{AreOf};

use crate::gate::Gate;
use crush_editor::{Book, Closed, MapGauge, Started, WithoutSnapshot};
use crush_history::{Call, Script};
use crush_input::RunFault;
use crush_map::CrushMap;
use std::alloc::Global;
use std::sync::Wait;

/// The values that all scripts use when they run one after the other.
#[derive(Drop)]
struct InTurn<'t, G, R> {
    rt: &'t R,
    gate: &'t G,
    gauge: &'t MapGauge,
}

impl<'t, G: Gate, R: Wait> InTurn<'t, G, R> {
    /// Makes the calls of one script in order. If a call can't be made, because memory has run out
    /// or the history is full, the function stops at this call, and fails with
    /// [`RunFault::Memory`]. Each call is moved into its entry of the history.
    fn run_script(
        &self,
        book: &mut Book<Global, WithoutSnapshot>,
        operator: usize,
        calls: Vec<Call>,
    ) -> Result<(), RunFault>
        requires operator { operator < MOST_OPERATORS }
        requires gauge { book.old.table ≡ self.now.gauge.now.table.shared.table_id }
        ensures table { book.new.table ≡ book.old.table }
        ensures operators { OnOk result ((n : ℕ) → operator < n → AreOf n book.old.history
            → AreOf n book.new.history) }
        ensures entries { OnOk result ((s : SettingData) (t : List Row)
            → MapStands book.old.map s t
            → let h = turn s (behind t book.old.history) operator calls.items in
            (book.new.history ≡ book.old.history ++ h)
            × MapStands book.new.map s (counted_after s (behind t book.old.history) h).table) }
        ensures fault { IfErr result (λ fault. fault ≡ RunFault.Memory) }
    {
        let mut number = 0;
        for call in calls {
            self.gate.before(self.rt, operator, number);
            let outcome = book.commit_copied(self.gauge, operator, call);
            self.gate.after(self.rt, operator, number);
            let Ok(_reply) = outcome else {
                return Err(RunFault::Memory);
            };
            number += 1;
        }
        Ok(())
    }
}

/// Runs the scripts one after the other, without a lock and without threads. The calls are made on
/// one book, which is a map with its history. The function fails only with [`RunFault::Memory`]:
/// memory has run out, or the scripts together have more calls than a history has room for. The
/// scripts of one job never have more.
pub(crate) fn run_in_turn<G: Gate, R: Wait>(
    rt: &R,
    alloc: Global,
    gate: &G,
    map: CrushMap<Global>,
    scripts: Vec<Script>,
) -> Result<Closed<Global, WithoutSnapshot>, RunFault>
    requires few { length scripts.items ≤ MOST_OPERATORS }
    ensures operators { IfOk result (λ c. AreOf (length scripts.items) c.history.items) }
    ensures turns { IfOk result (λ c. (s : SettingData) (t : List Row) → MapStands map s t
        → (c.history.items ≡ turns s t (scripts_data scripts.items))
        × MapStands c.map s (table_after s t (turns s t (scripts_data scripts.items)))) }
    ensures few { IfOk result (λ c. length c.history.items ≤ MOST_ENTRIES) }
    ensures fault { IfErr result (λ fault. fault ≡ RunFault.Memory) }
{
    let Ok(started) = Started::without_opening(alloc, map, 1) else {
        return Err(RunFault::Memory);
    };
    let (gauge, mut book) = started.into_book();
    let run = InTurn {
        rt,
        gate,
        gauge: &gauge,
    };
    let mut operator = 0;
    for script in scripts {
        let Script { name: _, calls } = script;
        run.run_script(&mut book, operator, calls)?;
        operator += 1;
    }
    Ok(book.into_closed())
}
