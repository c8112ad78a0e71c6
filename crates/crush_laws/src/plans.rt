//! The law that the text of a plan is a script.

ghost use Rattle.crush_laws.specs.Planned.{PlansAreRun, PlansAreScripts};

/// The law that the text of a plan is a script.
///
/// - `script`: take the text of the map from which the plan starts. The last line of this text must
/// end in a line feed. Append a line `%operator NAME`, and then the text of the plan. The result is
/// a job of this map, unless it has more calls or bytes than a job may have. The job has one
/// operator, who has one call for each edit of the plan, and no other call.
/// - `run`: suppose that edits that a plan may have lead from one table to another: no edit is
/// refused, and each edit changes the map. Then the run of the script with one call for each of
/// these edits leads to the same table, and each of its calls changes the map.
pub fn a_plan_is_a_script()
    ensures script { PlansAreScripts }
    ensures run { PlansAreRun }
{}
