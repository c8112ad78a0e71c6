//! Law of `==` for plans.

ghost use Rattle.std.specs.Prelude.{◌≡◌};
ghost use Rattle.std.specs.Bool.{Decides};
ghost use Rattle.crush_plan.specs.Plan.{plan_data};
ghost use Rattle.crush_plan.specs.SamePlan.{same_plan};
ghost use Rattle.crush_plan.specs.declared.plan.Plan.{Plan};

/// States that `==` returns `true` exactly for two plans that are the same value. Two plans are the
/// same value if they have the same edits and the same remaining differences, each in the same
/// order, and the same counts.
pub fn equal_is_same()
    ensures { (a b : Plan) → Decides (same_plan a b) (plan_data a ≡ plan_data b) }
{}
