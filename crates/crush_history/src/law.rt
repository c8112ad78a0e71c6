//! Laws of calls and histories, which proofs of other crates use. The functions do nothing at run
//! time.

ghost use Rattle.std.specs.Prelude.{◌≡◌, List};
ghost use Rattle.std.specs.Bool.{Decides};
ghost use Rattle.crush_edits.specs.declared.edit.Edit.{Edit};
ghost use Rattle.crush_history.specs.declared.call.Call.{Call};
ghost use Rattle.crush_history.specs.declared.entry.Entry.{Entry};
ghost use Rattle.crush_history.specs.declared.entry.Slip.{Slip};
ghost use Rattle.crush_history.specs.declared.script.Script.{Script};
ghost use Rattle.crush_history.specs.LawRun.{CallKeeps, HistoryKeeps, TurnsKeep, NoChangeKeeps, SameCountSameTable};
ghost use Rattle.crush_history.specs.SameCalls.{same_call, same_entry, same_slip, same_script};
ghost use Rattle.crush_history.specs.SameEdits.{same_edits};
ghost use Rattle.crush_history.specs.Script.{script_data};
ghost use Rattle.crush_history.specs.Turns.{TurnsAreHistory};

/// Proves that if scripts run one after the other, then their calls and replies form a legal
/// history.
///
/// In a legal history, each reply is the model's reply to the call on the table, and with the
/// number of changes, that result from the earlier calls. This history also has exactly the calls
/// of each script, in the script's order, and no other calls.
pub fn turns_are_history()
    ensures { TurnsAreHistory }
{}

/// Suppose that a table is lawful, and that the map's setting (its types, tunables and rules) fits
/// the table. Proves that the same is then true of the table after a call, after a history, and
/// after scripts that run one after the other.
///
/// The edits of the calls must have the form that the types of the code guarantee. `IsCall` in
/// `specs/LawRun.antt` states this form.
pub fn runs_keep_lawful()
    ensures call { CallKeeps }
    ensures history { HistoryKeeps }
    ensures turns { TurnsKeep }
{}

/// Proves that the table stays the same as long as the number of changes stays the same.
///
/// If the reply to a call reports no change, the call leaves the table as it is. If no reply in the
/// rest of a legal history reports a change, this rest also leaves the table as it is.
pub fn same_count_is_same_table()
    ensures call { NoChangeKeeps }
    ensures history { SameCountSameTable }
{}

/// Proves that `==` returns `true` for two batches, calls, entries, slips or scripts if and only if
/// they are the same value. Two batches are the same value if they have the same edits in the same
/// order. Two scripts are the same value if they have the same name, and the same calls in the same
/// order.
pub fn equal_is_same()
    ensures batches { (b c : List Edit) → Decides (same_edits b c) (b ≡ c) }
    ensures calls { (a b : Call) → Decides (same_call a b) (a ≡ b) }
    ensures entries { (a b : Entry) → Decides (same_entry a b) (a ≡ b) }
    ensures slips { (a b : Slip) → Decides (same_slip a b) (a ≡ b) }
    ensures scripts { (a b : Script) → Decides (same_script a b) (script_data a ≡ script_data b) }
{}
