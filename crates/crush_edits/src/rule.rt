//! CRUSH rules in the form that they have in a map's text: a step `take` has the name of a bucket,
//! and not its id.

use crush_units::Name;
use std::alloc::Global;

/// A CRUSH rule: the steps by which Ceph chooses devices. The editor only keeps and prints rules.
/// It never chooses devices with them.
#[derive(Debug, Drop)]
pub struct Rule {
    /// The name of the rule.
    pub name: Name<Global>,
    /// The rule's id, at most 2147483647.
    pub id: u32,
    /// The kind of pools that the rule serves, for example `replicated`.
    pub kind: Name<Global>,
    /// The smallest size of a pool that the rule serves, at most 2147483647, or `None` if the rule
    /// gives no such size.
    pub min_size: Option<u32>,
    /// The largest size of a pool that the rule serves, at most 2147483647, or `None` if the rule
    /// gives no such size.
    pub max_size: Option<u32>,
    /// The steps, in order: at most 64.
    pub steps: Vec<Step>,
}

/// A step of a rule.
#[derive(Debug, Drop)]
pub enum Step {
    /// The next steps choose items below the bucket with this name. If a class is given, only
    /// devices of this class can be chosen.
    Take(Name<Global>, Option<Name<Global>>),
    /// Chooses items of a type.
    Choose {
        /// Whether the step also chooses a device below each chosen item (`chooseleaf`).
        leaf: bool,
        /// Whether the items after a failed item move up to fill its place (`firstn`), or all items
        /// keep their places (`indep`).
        firstn: bool,
        /// How many items the step chooses. If the number is 0 or below, Ceph adds the pool's size
        /// to it.
        count: i32,
        /// The name of the type of the items.
        kind: Name<Global>,
    },
    /// Sets a parameter, whose name begins with `set_`, to a value of at most 2147483647.
    Set(Name<Global>, u32),
    /// Outputs the items that the last steps have chosen, and so ends this choice.
    Emit,
}
