//! The edits of a map. They make the same changes as commands of `ceph osd crush`.

ghost use Rattle.std.specs.Prelude.{◌≡◌, IfOk};

use crate::location::Location;
use crush_units::{DeviceId, Name, Weight};
use std::alloc::{AllocError, Global};

/// What [`Edit::Place`] does with a device that is already in a bucket. At the end of each
/// variant's comment, brackets have the name of the command, and the name of the function with
/// which Ceph makes the edit.
#[derive(Clone, Copy, Debug, PartialEq, Eq)]
pub enum Placing {
    /// If the device is already in a bucket, the edit is refused. Any other device is put at the
    /// location with the edit's `weight` (`add`, `insert_item`).
    Insert,
    /// If the location's bucket of the lowest type already holds the device, nothing changes. A
    /// device that is in another bucket is moved to the location, and keeps its own weight. A
    /// device that is in no bucket is put at the location with the edit's `weight`
    /// (`create-or-move`, `create_or_move_item`).
    CreateOrMove,
    /// The device is put at the location, unless the location's bucket of the lowest type already
    /// holds the device. In both cases the device gets the edit's `weight` (`set`, `update_item`).
    Update,
}

/// An edit of a map: a change that a command of `ceph osd crush` also makes. At the end of each
/// variant's comment, brackets have the name of this command and, for most edits, the name of the
/// function with which Ceph makes the edit.
///
/// The fields `name`, `a`, `b` and `from` are names of items. (In `AddBucket`, `name` is the name
/// of the new bucket.) `to` is the new name of a bucket, `kind` is the name of a type, and `class`
/// is the name of a class. `weight` is the weight of a device, and `at` is the location where an
/// item is to be put.
#[derive(Debug, PartialEq, Eq, Drop)]
pub enum Edit {
    /// Puts a device at a location. If the map has no device with this id, the edit creates the
    /// device. `how` says what happens to a device that is already in a bucket, and which weight
    /// the device gets (`add`, `create-or-move` or `set`). [`Edit::place`] creates such an edit
    /// with the name `osd.N` for the id N. The edit's command in a script is parsed as the same
    /// edit only if the device has this name, because the command has no id.
    Place {
        how: Placing,
        device: DeviceId,
        name: Name<Global>,
        weight: Weight,
        at: Location,
    },
    /// Moves an item, with everything below it, to the location. If the location's bucket of the
    /// lowest type already holds the item, nothing changes (`move`, `move_bucket`).
    Move {
        name: Name<Global>,
        at: Location,
    },
    /// Exchanges the items and the names of two buckets, which keep their ids and their parents
    /// (`swap-bucket`, `swap_bucket`).
    Swap {
        a: Name<Global>,
        b: Name<Global>,
    },
    /// Sets the weight of a device that is in a bucket (`reweight`, `adjust_item_weight`).
    Reweight {
        name: Name<Global>,
        weight: Weight,
    },
    /// Sets the weight of each device below a bucket, at any depth (`reweight-subtree`,
    /// `adjust_subtree_weight`).
    ReweightSubtree {
        name: Name<Global>,
        weight: Weight,
    },
    /// Removes a device, or an empty bucket that no rule takes (`rm`, `remove_item`).
    Remove {
        name: Name<Global>,
    },
    /// Creates an empty bucket of this type that is in no other bucket (`add-bucket`,
    /// `add_bucket`).
    AddBucket {
        name: Name<Global>,
        kind: Name<Global>,
    },
    /// Changes the name of a bucket from `from` to `to` (`rename-bucket`, `rename_bucket`).
    Rename {
        from: Name<Global>,
        to: Name<Global>,
    },
    /// Sets the class of a device that has none. If the device already has this class, nothing
    /// changes. If it has another class, the edit is refused (`set-device-class`).
    SetClass {
        name: Name<Global>,
        class: Name<Global>,
    },
    /// Removes the class of a device, if it has one (`rm-device-class`).
    RemoveClass {
        name: Name<Global>,
    },
}

#[derive(Drop)]
struct Placed {
    name: Name<Global>,
    at: Location,
}

#[derive(Drop)]
struct Names {
    first: Name<Global>,
    second: Name<Global>,
}

impl Edit {
    /// Returns a copy of the edit, or an error if there is no memory for it.
    pub fn try_copy(&self, alloc: Global) -> Result<Edit, AllocError>
        ensures { IfOk result (λ copy. copy ≡ self.now) }
    {
        match self {
            Edit::Place {
                how,
                device,
                name,
                weight,
                at,
            } => {
                let Placed { name, at } = copy_placed(name, at, alloc)?;
                Ok(Edit::Place {
                    how: *how,
                    device: *device,
                    name,
                    weight: *weight,
                    at,
                })
            }
            Edit::Move { name, at } => {
                let Placed { name, at } = copy_placed(name, at, alloc)?;
                Ok(Edit::Move { name, at })
            }
            Edit::Swap { a, b } => {
                let Names { first, second } = copy_names(a, b, alloc)?;
                Ok(Edit::Swap {
                    a: first,
                    b: second,
                })
            }
            Edit::Reweight { name, weight } => Ok(Edit::Reweight {
                name: name.try_copy(alloc)?,
                weight: *weight,
            }),
            Edit::ReweightSubtree { name, weight } => Ok(Edit::ReweightSubtree {
                name: name.try_copy(alloc)?,
                weight: *weight,
            }),
            Edit::Remove { name } => Ok(Edit::Remove {
                name: name.try_copy(alloc)?,
            }),
            Edit::AddBucket { name, kind } => {
                let Names { first, second } = copy_names(name, kind, alloc)?;
                Ok(Edit::AddBucket {
                    name: first,
                    kind: second,
                })
            }
            Edit::Rename { from, to } => {
                let Names { first, second } = copy_names(from, to, alloc)?;
                Ok(Edit::Rename {
                    from: first,
                    to: second,
                })
            }
            Edit::SetClass { name, class } => {
                let Names { first, second } = copy_names(name, class, alloc)?;
                Ok(Edit::SetClass {
                    name: first,
                    class: second,
                })
            }
            Edit::RemoveClass { name } => Ok(Edit::RemoveClass {
                name: name.try_copy(alloc)?,
            }),
        }
    }
}

fn copy_placed(name: &Name<Global>, at: &Location, alloc: Global) -> Result<Placed, AllocError>
    ensures { IfOk result (λ copy. copy ≡ record { name = name.now; at = at.now }) }
{
    let name = name.try_copy(alloc)?;
    let at = at.try_copy(alloc)?;
    Ok(Placed { name, at })
}

fn copy_names(
    first: &Name<Global>,
    second: &Name<Global>,
    alloc: Global,
) -> Result<Names, AllocError>
    ensures { IfOk result (λ copy. copy ≡ record { first = first.now; second = second.now }) }
{
    let first = first.try_copy(alloc)?;
    let second = second.try_copy(alloc)?;
    Ok(Names { first, second })
}
