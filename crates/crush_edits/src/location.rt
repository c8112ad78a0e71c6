//! Locations: where an edit is to put an item.

ghost use Rattle.std.specs.Prelude.{◌≡◌, ◌≤◌, [], ◌∷◌, ◌++◌, length, IfOk, IfErr, OnOk, OnErr};
ghost use Rattle.std.specs.Cmp.Rules.{comparing};
ghost use Rattle.std.proofs.Common.{rules};
ghost use Rattle.crush_units.specs.Name.{IsName};
ghost use Rattle.crush_edits.specs.Pushed.{IsLocation, CanPush, IsLocationFault, location_fault_number};
ghost use Rattle.crush_edits.specs.SamePairs.{same_pairs};

use crush_units::limits::MOST_PAIRS;
use crush_units::{Name, NameFault, is_name};
use std::alloc::{AllocError, Global};
use std::marker::Model;
use thiserror::Error;

/// A pair of a location: the name of a type and the name of a bucket. A command has the pair in the
/// form `host=h1`.
#[derive(Debug, PartialEq, Eq, Drop)]
pub struct Pair {
    /// The name of the bucket's type, for example `host`.
    pub kind: Name<Global>,
    /// The name of the bucket, for example `h1`.
    pub name: Name<Global>,
}

/// Where an item is to be put: up to 16 pairs of a type name and a bucket name, in any order.
///
/// An edit reads the pairs in ascending order of their types' numbers, and puts the item into the
/// bucket of the first pair. If that bucket isn't in the map, the edit creates it in the bucket of
/// the next pair, and so on up to the first bucket that is in the map. If no pair's bucket is in
/// the map, the last bucket that is created is a root. The pairs after the first bucket that is in
/// the map are checked, and otherwise ignored.
#[derive(Debug, Drop)]
pub struct Location {
    pairs: Vec<Pair>,
    alloc: Global,
}

impl Model for Location {
    ghost use Rattle.std.specs.Prelude.{List};
    ghost use Rattle.crush_edits.specs.declared.location.Pair.{Pair};

    ghost Value = { List Pair };

    ghost use Rattle.crush_edits.specs.Pushed.{IsLocation};

    ghost view = { λ location. location.pairs.items };

    ghost invariant = { λ location. IsLocation location.pairs.items };
}

impl PartialEq for Location {
    ghost eq = { same_pairs };

    ghost laws = { Prim.search (comparing, rules) };

    fn eq(&self, other: &Location) -> bool {
        self.pairs == other.pairs
    }
}

impl Eq for Location {
    ghost laws = { Prim.search (comparing, rules) };
}

/// Why a pair isn't added to a location, which is then unchanged.
#[derive(Clone, Copy, Debug, PartialEq, Eq, Error)]
pub enum LocationFault {
    /// The location has 16 pairs already.
    #[error("a location has at most 16 pairs")]
    TooMany,
    /// The type name or the bucket name isn't a valid name.
    #[error("not a name: expected letters, digits, `-`, `_` or `.`")]
    BadName,
    /// Memory for the pair couldn't be allocated.
    #[error("out of memory")]
    OutOfMemory,
}

impl LocationFault {
    /// Returns the number of the fault: the position of its variant, from 1 to 3.
    pub fn number(self) -> u8
        ensures { result ≡ location_fault_number self }
    {
        match self {
            LocationFault::TooMany => 1,
            LocationFault::BadName => 2,
            LocationFault::OutOfMemory => 3,
        }
    }
}

impl From<NameFault> for LocationFault {
    ghost use Rattle.crush_edits.specs.Pushed.{fault_of_name};
    ghost use Rattle.std.specs.Prelude.{◌≡◌};

    ghost from_gives = { λ refused fault. fault ≡ fault_of_name refused };

    fn from(refused: NameFault) -> LocationFault {
        match refused {
            NameFault::OutOfMemory => LocationFault::OutOfMemory,
            _ => LocationFault::BadName,
        }
    }
}

impl Pair {
    fn try_copy(&self, alloc: Global) -> Result<Pair, AllocError>
        ensures { IfOk result (λ copy. copy ≡ self.now) }
    {
        let kind = self.kind.try_copy(alloc)?;
        let name = self.name.try_copy(alloc)?;
        Ok(Pair { kind, name })
    }
}

impl Location {
    /// Returns a location without pairs, whose memory comes from this allocator.
    pub fn new(alloc: Global) -> Location
        ensures { result ≡ [] }
    {
        Location {
            pairs: Vec::new(alloc),
            alloc,
        }
    }

    /// Adds a pair after the pairs that the location has.
    ///
    /// Fails with `TooMany` if there are 16 pairs already, otherwise with `BadName` if either name
    /// is invalid, otherwise with `OutOfMemory` if there is no memory for the pair. The location is
    /// unchanged after an error.
    pub fn push(&mut self, type_name: &[u8], name: &[u8]) -> Result<(), LocationFault>
        ensures ok { OnOk result (self.new
            ≡ self.old ++ record { kind = type_name.now; name = name.now } ∷ []) }
        ensures can { OnOk result (CanPush self.old type_name.now name.now) }
        ensures err { OnErr result (self.new ≡ self.old) }
        ensures fault { IfErr result (IsLocationFault self.old type_name.now name.now) }
    {
        if self.pairs.len() >= MOST_PAIRS {
            return Err(LocationFault::TooMany);
        }
        if !is_name(type_name) || !is_name(name) {
            return Err(LocationFault::BadName);
        }
        let kind = Name::read(self.alloc, type_name)?;
        let name = Name::read(self.alloc, name)?;
        if self.pairs.reserve_exact(1).is_err() {
            return Err(LocationFault::OutOfMemory);
        }
        self.pairs.push_reserved(Pair { kind, name });
        Ok(())
    }

    /// Returns the pairs, in the order in which they were added: at most 16, all with valid names.
    pub fn pairs(&self) -> &[Pair]
        ensures value { result.now ≡ self.now }
        ensures forms { IsLocation self.now }
    {
        self.pairs.as_slice()
    }

    pub(crate) fn try_copy(&self, alloc: Global) -> Result<Location, AllocError>
        ensures { IfOk result (λ copy. copy ≡ self.now) }
    {
        let mut pairs = Vec::with_capacity(alloc, self.pairs.len())?;
        for pair in &self.pairs {
            let pair = pair.try_copy(alloc)?;
            pairs.push(pair)?;
        }
        Ok(Location { pairs, alloc })
    }
}
