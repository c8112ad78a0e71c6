//! The types and functions that a program needs to read, edit, compare and print CRUSH maps.
//!
//! This crate has no functions of its own. It re-exports types and functions of the other crates of
//! the library, so that a program can import all of them from one crate:
//!
//! ```rust
//! use crush::{Edit, Name, Weight, read_map, write_map};
//! ```
//!
//! - **A map**: [`read_map`] reads a [`CrushMap`] from a text, and [`write_map`] writes the map's
//! text. [`MapBuilder`] builds a map without a text.
//! - **Edits**: `CrushMap::apply` applies one [`Edit`]. `CrushMap::apply_batch` applies all edits
//! of a batch or none of them. A [`Call`] is an edit or a batch. [`make_call`] makes one call, and
//! returns a [`Reply`], which says what the call did, or why it was refused.
//! - **Several operators**: [`Editor`] owns a map that several operators edit at the same time. It
//! gives each operator a [`Seat`], which the operator needs to make a call.
//! - **Two maps**: [`Comparison`] pairs the items of two maps, [`write_since`] writes what has
//! changed, and [`find_plan`] finds edits that lead from one map toward the other. [`rule_changes`]
//! and [`class_changes`] return what has changed in rules and device classes. The caller of
//! [`find_plan`] passes an [`Identity`], which says how the buckets of the two maps are matched. A
//! [`Comparison`] has another type, `compare::Identity`, which says how items are matched.
//! - **JSON**: [`write_map_document`] and three similar functions write JSON documents.
//! - **Reasons**: [`fault_text`] says why the text of a job is refused. [`explained_text`] says why
//! calls were refused. If an edit of a batch was refused, [`explained_job`] also says in which line
//! of the job this edit is.
//! - **Several scripts**: [`lost_changes`] finds lost changes. A change is lost if one script makes
//! it when only this script runs, but the map after the run of all scripts doesn't have it.
//! - **A whole job**: [`read_job`] reads a map together with the scripts of its operators, and
//! [`run_at_once`] runs the scripts at the same time, each in a thread of its own. A [`Gate`] is
//! code of the caller that runs before and after each call. [`NoGate`] is for callers that have no
//! such code.
//!
//! If two types of the library have the same name, one of them is in the root of this crate, and
//! the other one is in a module. The modules are [`compare`], [`items`], [`since`] and [`text`].
//!
//! The contract of a type or a function refers to definitions in the crate that defines the type or
//! the function. So if your own program has contracts, its line in `crates.txt` must also name the
//! crates whose definitions the contracts of the imported types and functions refer to.
#![tactic(auto)]

pub mod compare;
pub mod items;
pub mod since;
pub mod text;

// Names, weights and ids, and the nested buckets of a map.
pub use crush_tree::{Bucket, Forest, Header, Leaf, Node, Place, ShadowId, View};
pub use crush_units::{
    Alg, AlgFault, BucketId, DeviceId, IdFault, ItemId, Name, NameFault, TypeId, Weight,
    WeightFault, WriteFault, limits, put,
};

// Maps and edits.
pub use crush_builder::{BuildFault, MapBuilder, RuleFault, RulePart};
pub use crush_edits::Keyword;
pub use crush_map::{
    BatchFault, Counts, CrushMap, Done, Dones, Edit, EditFault, Hashing, KeptRule, KeptStep,
    Location, LocationFault, Pair, Placing, Refusal, Rule, Setting, Step,
};

// Maps as texts and as lists of items.
pub use crush_items::{ById, Item, Items};
pub use crush_print::{
    TreePart, WalkStep, WeightForm, buckets, class_weights, devices, walk, walk_below, walk_part,
    write_map, write_tree, write_tree_of_class, write_tree_part,
};
pub use crush_text::{Adjusted, Expected, TextFault, TextFaultKind, read_map, read_map_in};

// Calls, histories and several operators.
pub use crush_ceph::ceph_text;
pub use crush_editor::{
    Book, Closed, Desk, Editor, KeptOpening, LockFreeReader, MapBookSeat, MapGauge, Note,
    OpenFault, Seat, Started, SubmitFault, Unsubmitted, WithoutSnapshot,
};
pub use crush_gauge::{Gauge, Reading};
pub use crush_history::{
    Call, Edits, Entry, Line, Reply, Script, Slip, history_text, is_change, is_refused, make_call,
    write_entry,
};

// Jobs, and the reasons of faults and refusals.
pub use crush_conflicts::{lost_changes, map_alone};
pub use crush_reasons::{
    JobLines, Locates, Origin, explained_job, explained_text, fault_text, written_text,
};
pub use crush_run::{Gate, NoGate, RunFault, SecondMap, SecondMapFault, run_at_once};
pub use crush_script::{BadLine, Due, Job, JobFault, Misfit, read_job};

// Two maps, and JSON documents.
pub use crush_compare::{Columns, Comparison, Difference, Report};
pub use crush_json::{
    History, write_map_document, write_plan_document, write_since_document, write_tree_document,
};
pub use crush_plan::{Identity, Plan, ceph_plan_text, find_plan, plan_text};
pub use crush_since::{
    ClassChange, RuleChange, Tally, class_changes, count_aside, count_changes, is_changed,
    is_changed_by_name, is_part_changed, push_stays, rule_changes, same_kinds, same_rules,
    same_tunables, since_part_text, stays, stays_part, write_changes, write_changes_of_class,
    write_since, write_since_by_name, write_since_by_name_part,
};
