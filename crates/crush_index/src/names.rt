//! The table of names, which finds the item that has a name.

ghost use Rattle.std.specs.Prelude.{◌≡◌, true, false, Some, None, List, ℕ, ◌++◌, ◌∷◌, [], bytes_eq, IfOk, IsSome};
ghost use Rattle.crush_model.specs.Table.{Row, is_named, name_of};
ghost use Rattle.crush_index.specs.Hashings.{names_hashing};
ghost use Rattle.crush_index.specs.NamesChanged.{IsCopyOf, Inserts};
ghost use Rattle.crush_index.specs.NamesAnswers.{id_answer, AnswersOne, AnswersTwo};

use crate::chain::{Chain, Spare};
use crate::digests::IdentityHashing;
use crate::hashing::Hashing;
use crate::key::{Key, LookupKey};
use crush_units::{ItemId, Name};
use indexmap::IndexMap;
use std::alloc::{AllocError, Global};

/// A table that maps each name to the id of the item that has the name.
#[derive(Drop)]
pub(crate) struct Names {
    global: Global,
    hashing: Hashing,
    ids: IndexMap<Key, ItemId, IdentityHashing>,
    /// The names, with the ids of their items, that an undo restored when no memory was left with
    /// which `ids` could grow.
    overflow: Chain<Key, ItemId>,
}

impl Names {
    pub(crate) fn new(alloc: Global, hashing: Hashing) -> Names
        ensures none { (n : List ℕ) → id_answer result n ≡ None }
        ensures hashing { names_hashing result ≡ hashing }
    {
        Names {
            global: alloc,
            hashing,
            ids: IndexMap::with_hasher(alloc, IdentityHashing),
            overflow: Chain::End,
        }
    }

    pub(crate) fn try_copy(&self) -> Result<Names, AllocError>
        ensures { IfOk result (IsCopyOf self.now) }
    {
        let ids = self.ids.clone()?;
        let overflow = self.overflow.try_copy(self.global)?;
        Ok(Names {
            global: self.global,
            hashing: self.hashing,
            ids,
            overflow,
        })
    }

    pub(crate) fn id_of(&self, name: &[u8]) -> Option<ItemId>
        ensures { result ≡ id_answer self.now name.now }
    {
        let lookup = LookupKey::of(name, &self.hashing);
        match self.ids.get(lookup) {
            Some(id) => Some(*id),
            None => self.overflow.get(&lookup),
        }
    }

    pub(crate) fn insert(&mut self, name: Name<Global>, id: ItemId) -> Result<(), AllocError>
        ensures { Inserts name id self.old self.new result }
    {
        self.ids
            .insert(Key::of(self.global, name, &self.hashing), id)?;
        Ok(())
    }

    pub(crate) fn remove(&mut self, name: &[u8])
        ensures answers { AnswersOne self.old self.new name.now None }
        ensures hashing { names_hashing self.new ≡ names_hashing self.old }
    {
        let lookup = LookupKey::of(name, &self.hashing);
        self.ids.swap_remove(lookup);
        self.overflow.remove(&lookup);
    }

    /// Inserts a name with its id, as [`Names::insert`] does, but can't fail: if no memory can be
    /// allocated, the entry is stored in the memory `spare`.
    pub(crate) fn restore(&mut self, name: Name<Global>, id: ItemId, spare: Spare<Key, ItemId>)
        ensures answers { AnswersOne self.old self.new name (Some id) }
        ensures hashing { names_hashing self.new ≡ names_hashing self.old }
    {
        let key = Key::of(self.global, name, &self.hashing);
        if let Err(failed) = self.ids.insert(key, id) {
            let (key, id) = failed.value;
            self.overflow.push(spare, key, id);
        }
    }

    /// Exchanges the ids of the names `a` and `b`. `first` must be the id that `a` has before the
    /// call, and `second` the id that `b` has before the call.
    pub(crate) fn exchange(&mut self, a: &[u8], b: &[u8], first: ItemId, second: ItemId)
        requires first { id_answer self.old a.now ≡ Some first }
        requires second { id_answer self.old b.now ≡ Some second }
        ensures answers { AnswersTwo self.old self.new a.now (Some second) b.now (Some first) }
        ensures hashing { names_hashing self.new ≡ names_hashing self.old }
    {
        self.set(b, first);
        self.set(a, second);
    }

    /// Replaces the id of a name that is in the table.
    fn set(&mut self, name: &[u8], id: ItemId)
        requires { IsSome (id_answer self.old name.now) }
        ensures answers { AnswersOne self.old self.new name.now (Some id) }
        ensures hashing { names_hashing self.new ≡ names_hashing self.old }
    {
        let lookup = LookupKey::of(name, &self.hashing);
        if let Some(known) = self.ids.get_mut(lookup) {
            *known = id;
            return;
        }
        self.overflow.set(&lookup, id);
    }
}
