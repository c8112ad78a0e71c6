//! The script of an operator.

ghost use Rattle.std.specs.Prelude.{◌≡◌, IfOk};
ghost use Rattle.crush_history.specs.Script.{script_data};

use crate::call::Call;
use crush_units::Name;
use std::alloc::{AllocError, Global};

/// The script of one operator: the operator's name, and the calls that the operator makes, in
/// order.
#[derive(Debug, PartialEq, Eq, Drop)]
pub struct Script {
    /// The operator's name, which the lines of a history show.
    pub name: Name<Global>,
    /// The calls, in the order in which the operator makes them.
    pub calls: Vec<Call>,
}

impl Script {
    /// Returns a copy of the script, allocated with `alloc`, or an error if memory runs out.
    pub fn try_copy(&self, alloc: Global) -> Result<Script, AllocError>
        ensures { IfOk result (λ copy. script_data copy ≡ script_data self.now) }
    {
        let name = self.name.try_copy(alloc)?;
        let calls = copy_calls(alloc, self.calls.as_slice())?;
        Ok(Script { name, calls })
    }
}

/// Copies the calls, in order, to a vector that is allocated with `alloc`.
fn copy_calls(alloc: Global, calls: &[Call]) -> Result<Vec<Call>, AllocError>
    ensures { IfOk result (λ copies. copies.items ≡ calls.now) }
{
    let mut copies = Vec::with_capacity(alloc, calls.len())?;
    for call in calls {
        let copy = call.try_copy(alloc)?;
        copies.push(copy)?;
    }
    Ok(copies)
}
