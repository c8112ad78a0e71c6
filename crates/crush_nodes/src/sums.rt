//! Sums of weights, such as each bucket stores. The contracts require that each new sum is in
//! range, which is from 0 to 4294967295 units.

ghost use Rattle.std.specs.Prelude.{◌≡◌, ◌+◌, ◌-◌, ◌≤◌};
ghost use Rattle.crush_units.specs.declared.limits.TheConstants.{HEAVIEST_BUCKET};

use crush_units::Weight;

/// Returns `sum` plus one more weight.
pub fn with_more(sum: Weight, more: Weight) -> Weight
    requires { sum + more ≤ HEAVIEST_BUCKET }
    ensures { result ≡ sum + more }
{
    Weight::from_units(sum.units() + more.units())
}

/// Returns `sum` minus one of its weights.
pub fn with_less(sum: Weight, less: Weight) -> Weight
    requires { less ≤ sum }
    ensures { result ≡ sum - less }
{
    Weight::from_units(sum.units() - less.units())
}

/// Returns `sum` with its weight `old` replaced by the weight `new`.
pub fn with_other(sum: Weight, old: Weight, new: Weight) -> Weight
    requires held { old ≤ sum }
    requires fits { sum - old + new ≤ HEAVIEST_BUCKET }
    ensures { result ≡ sum - old + new }
{
    Weight::from_units(sum.units() - old.units() + new.units())
}
