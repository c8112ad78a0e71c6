//! The types of a setting, with look-ups of a type by its number and by its name.

ghost use Rattle.std.specs.Prelude.{◌≡◌, ◌∷◌, [], ◌++◌, map, None, OnOk, OnErr, IfOk};
ghost use Rattle.std.specs.Option.{option_copied};
ghost use Rattle.crush_edits.specs.KindsTold.{TellsFirst, TellsSameNumbers};
ghost use Rattle.crush_edits.specs.Setting.{first_number, first_name};
ghost use Rattle.crush_edits.specs.SettingSeen.{kind_data};

use crush_units::{Name, TypeId};
use indexmap::IndexMap;
use std::alloc::{AllocError, Global};
use std::collections::BTreeMap;
use std::marker::Model;

/// The types, in the order in which they were added, with an index of their names.
///
/// The index is a sorted tree and not a hash table, so that no choice of names in an untrusted
/// CRUSH map makes look-ups slow.
#[derive(Debug, Drop)]
pub(super) struct Kinds {
    names: IndexMap<TypeId, Name<Global>>,
    numbers: BTreeMap<Vec<u8>, TypeId>,
}

impl Model for Kinds {
    ghost use Rattle.std.specs.Prelude.{List, map};
    ghost use Rattle.std.specs.Coded.{coded_list};
    ghost use Rattle.crush_edits.specs.Setting.{KindData};
    ghost use Rattle.crush_edits.specs.Codes.{coded_kind};
    ghost use Rattle.crush_edits.specs.SettingSeen.{kind_data};
    ghost use Rattle.crush_edits.specs.KindsTold.{AreNumbersOf};

    ghost Value = { List KindData };

    ghost coded = { coded_list coded_kind };

    ghost view = { λ k. map kind_data k.names.entries };

    ghost invariant = { λ k. AreNumbersOf (map kind_data k.names.entries) k.numbers };
}

impl Kinds {
    pub(super) fn new(alloc: Global) -> Kinds
        ensures { result ≡ [] }
    {
        Kinds {
            names: IndexMap::new(alloc),
            numbers: BTreeMap::new(alloc),
        }
    }

    pub(super) fn push(&mut self, number: TypeId, name: Name<Global>) -> Result<(), AllocError>
        requires { first_name self.old number ≡ None }
        ensures ok { OnOk result (self.new ≡ self.old ++ kind_data (number, name) ∷ []) }
        ensures err { OnErr result (self.new ≡ self.old) }
    {
        let key = name.as_bytes().to_vec(self.allocator())?;
        self.names.insert(number, name)?;
        match tell_first(&mut self.numbers, key, number) {
            Ok(()) => Ok(()),
            Err(refused) => {
                self.names.pop();
                Err(refused)
            }
        }
    }

    pub(super) fn names(&self) -> &IndexMap<TypeId, Name<Global>>
        ensures { map kind_data result.now.entries ≡ self.now }
    {
        &self.names
    }

    pub(super) fn number(&self, name: &[u8]) -> Option<TypeId>
        ensures { result ≡ first_number self.now name.now }
    {
        match self.numbers.get(name) {
            Some(number) => Some(*number),
            None => None,
        }
    }

    pub(super) fn name(&self, number: TypeId) -> Option<&Name<Global>>
        ensures { option_copied result ≡ first_name self.now number }
    {
        self.names.get(&number)
    }

    pub(super) fn allocator(&self) -> Global {
        *self.names.allocator()
    }

    pub(super) fn try_copy(&self, alloc: Global) -> Result<Kinds, AllocError>
        ensures { IfOk result (λ copy. copy ≡ self.now) }
    {
        let mut copy = Kinds::new(alloc);
        for (number, name) in &self.names {
            let name = name.try_copy(alloc)?;
            copy.push(*number, name)?;
        }
        Ok(copy)
    }
}

/// Records the number of the name in the index, unless the index already has a number for the name.
/// So if several types have the same name, the index has the number of the first of them. After an
/// error, the index has the same numbers as before.
fn tell_first(
    numbers: &mut BTreeMap<Vec<u8>, TypeId>,
    name: Vec<u8>,
    number: TypeId,
) -> Result<(), AllocError>
    ensures ok { OnOk result (TellsFirst numbers.old numbers.new name.items number) }
    ensures err { OnErr result (TellsSameNumbers numbers.old numbers.new) }
{
    if !numbers.contains_key(&name) {
        numbers.insert(name, number)?;
    }
    Ok(())
}
