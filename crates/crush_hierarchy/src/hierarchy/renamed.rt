//! Gives items other names, and gives items their old names back even if no memory can be
//! allocated.

ghost use Rattle.std.specs.Prelude.{◌≡◌};
ghost use Rattle.crush_tree.specs.Exact.{forest_with_name};
ghost use Rattle.crush_tree.specs.Required.{CanRename};
ghost use Rattle.crush_hierarchy.specs.Naming.{CanRestoreName, ReplacesName, TellsName};

use super::Hierarchy;
use crush_index::{Index, NameMemory};
use crush_units::{ItemId, Name};
use std::alloc::{AllocError, Allocator, Global};

/// The old name of an item that was renamed, with what the index needs to restore this name.
#[derive(Drop)]
pub struct OldName<A: Allocator> {
    name: Name<A>,
    back: NameMemory,
}

impl<A: Allocator> Hierarchy<A> {
    /// Gives an item another name, and returns the old name. With the result,
    /// [`Hierarchy::restore_name`] undoes the call. The item must exist, and no other item may have
    /// the new name. Returns an error if memory can't be allocated; then nothing changes.
    pub fn replace_name(&mut self, id: ItemId, name: Name<A>) -> Result<OldName<A>, AllocError>
        requires { CanRename id name self.old }
        ensures { ReplacesName id name self.old self.new result }
    {
        let id = &id;
        self.forest.recall_invariant();
        let copy = name.try_copy(self.global)?;
        let old = self.forest.rename_by(self.index.places(), *id, name);
        self.forest.recall_invariant();
        match tell_new_name(&mut self.index, *id, copy, &old) {
            Ok(back) => Ok(OldName { name: old, back }),
            Err(failed) => {
                drop(self.forest.rename_by(self.index.places(), *id, old));
                Err(failed)
            }
        }
    }

    /// Gives an item its old name back, which undoes [`Hierarchy::replace_name`]. The item must
    /// exist, and no other item may have the old name. The call can't fail: if the index needs more
    /// memory and this memory can't be allocated, the index uses the memory that
    /// [`Hierarchy::replace_name`] allocated. The forest allocates nothing.
    pub fn restore_name(&mut self, id: ItemId, old: OldName<A>)
        requires { CanRestoreName id old self.old }
        ensures { self.new ≡ forest_with_name id old.name self.old }
    {
        let id = &id;
        self.forest.recall_invariant();
        let OldName { name, back } = old;
        let free = self.index.id_of(name.as_bytes()).is_none();
        let other = self.forest.rename_by(self.index.places(), *id, name);
        self.forest.recall_invariant();
        if free {
            self.index.restore_name(back, *id);
            self.index.forget_name(other.as_bytes());
        }
        drop(other);
    }
}

/// Replaces the name `old` of an item in the index by `name`. If an item already has the name
/// `name`, the index isn't changed. In a call of [`Hierarchy::replace_name`], this can only be the
/// renamed item itself. Returns what the index needs to restore the old name. Returns an error if
/// memory can't be allocated; then the index answers as before.
fn tell_new_name<A: Allocator>(
    index: &mut Index,
    id: ItemId,
    name: Name<Global>,
    old: &Name<A>,
) -> Result<NameMemory, AllocError>
    ensures { TellsName id name old.now index.old index.new result }
{
    let back = index.name_memory(old)?;
    if index.id_of(name.as_bytes()).is_none() {
        index.add_name(name, id)?;
        index.forget_name(old.as_bytes());
    }
    Ok(back)
}
