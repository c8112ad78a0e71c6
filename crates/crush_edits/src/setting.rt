//! What a map holds besides its items: types, tunables and rules.

ghost use Rattle.std.specs.Prelude.{◌≡◌, ◌∷◌, [], ◌++◌, map, None, false, OnOk, OnErr, IfOk};
ghost use Rattle.std.specs.Option.{option_copied};
ghost use Rattle.crush_edits.specs.Fits.{is_reserved as is_reserved_name};
ghost use Rattle.crush_edits.specs.Making.{is_taken_by_rule};
ghost use Rattle.crush_edits.specs.Setting.{kind_number, kind_name, has_tunable};
ghost use Rattle.crush_edits.specs.SettingSeen.{kind_data, tunable_data, rule_data};

mod kinds;
mod rules;

use crush_units::{BucketId, Name, TypeId};
use indexmap::IndexMap;
use kinds::Kinds;
use rules::Rules;
use std::alloc::{AllocError, Global};
use std::marker::Model;

/// A rule in the form in which a map keeps it. A step that takes a bucket has the bucket's id, and
/// not its name. So no rule changes when a bucket is renamed.
///
/// The fields mean the same as in `Rule`, and have the same limits.
#[derive(Debug, Drop)]
pub struct KeptRule {
    pub name: Name<Global>,
    pub id: u32,
    pub kind: Name<Global>,
    pub min_size: Option<u32>,
    pub max_size: Option<u32>,
    pub steps: Vec<KeptStep>,
}

/// A step of a rule, in the form in which a map keeps it. Except for `Take`, the variants are the
/// same as those of `Step`.
#[derive(Debug, Drop)]
pub enum KeptStep {
    /// The next steps choose items below the bucket with this id. If a class is given, only devices
    /// of this class can be chosen.
    Take(BucketId, Option<Name<Global>>),
    Choose {
        leaf: bool,
        firstn: bool,
        count: i32,
        kind: Name<Global>,
    },
    Set(Name<Global>, u32),
    Emit,
}

/// What a map holds besides its items: types, tunables and rules.
///
/// Types, tunables and rules are each kept in the order in which the map declares them.
#[derive(Debug, Drop)]
pub struct Setting {
    kinds: Kinds,
    tunables: IndexMap<Name<Global>, u32>,
    rules: Rules,
}

impl Model for Setting {
    ghost use Rattle.crush_edits.specs.Setting.{SettingData};
    ghost use Rattle.crush_edits.specs.Codes.{coded_setting};

    ghost Value = { SettingData };

    ghost coded = { coded_setting };

    ghost use Rattle.std.specs.Prelude.{map};
    ghost use Rattle.crush_edits.specs.SettingSeen.{tunable_data};

    ghost view = { λ s. record {
      kinds = s.kinds;
      tunables = map tunable_data s.tunables.entries;
      rules = s.rules;
    } };
}

impl KeptStep {
    fn try_copy(&self, alloc: Global) -> Result<KeptStep, AllocError>
        ensures { IfOk result (λ copy. copy ≡ self.now) }
    {
        match self {
            KeptStep::Take(bucket, class) => {
                let class = match class {
                    Some(class) => Some(class.try_copy(alloc)?),
                    None => None,
                };
                Ok(KeptStep::Take(*bucket, class))
            }
            KeptStep::Choose {
                leaf,
                firstn,
                count,
                kind,
            } => Ok(KeptStep::Choose {
                leaf: *leaf,
                firstn: *firstn,
                count: *count,
                kind: kind.try_copy(alloc)?,
            }),
            KeptStep::Set(word, value) => Ok(KeptStep::Set(word.try_copy(alloc)?, *value)),
            KeptStep::Emit => Ok(KeptStep::Emit),
        }
    }
}

impl KeptRule {
    fn try_copy(&self, alloc: Global) -> Result<KeptRule, AllocError>
        ensures { IfOk result (λ copy. rule_data copy ≡ rule_data self.now) }
    {
        let name = self.name.try_copy(alloc)?;
        let kind = self.kind.try_copy(alloc)?;
        let steps = copy_steps(&self.steps, alloc)?;
        Ok(KeptRule {
            name,
            id: self.id,
            kind,
            min_size: self.min_size,
            max_size: self.max_size,
            steps,
        })
    }
}

impl Setting {
    /// Returns a setting without types, tunables and rules, whose memory comes from this allocator.
    pub fn new(alloc: Global) -> Setting
        ensures { result ≡ record {
          kinds = [];
          tunables = [];
          rules = [];
        } }
    {
        Setting {
            kinds: Kinds::new(alloc),
            tunables: IndexMap::new(alloc),
            rules: Rules::new(alloc),
        }
    }

    /// Adds a type after the types that the setting has. No type of the setting may have this
    /// number.
    ///
    /// Fails if there is no memory for it; the setting is then unchanged.
    pub fn push_kind(&mut self, number: TypeId, name: Name<Global>) -> Result<(), AllocError>
        requires { kind_name self.old number ≡ None }
        ensures ok { OnOk result (self.new
            ≡ record self.old { kinds = self.old.kinds ++ kind_data (number, name) ∷ [] }) }
        ensures err { OnErr result (self.new ≡ self.old) }
    {
        self.kinds.push(number, name)?;
        Ok(())
    }

    /// Adds a tunable after the tunables that the setting has. No tunable of the setting may have
    /// this name.
    ///
    /// Fails if there is no memory for it; the setting is then unchanged.
    pub fn push_tunable(&mut self, name: Name<Global>, value: u32) -> Result<(), AllocError>
        requires { has_tunable self.old name ≡ false }
        ensures ok { OnOk result (self.new
            ≡ record self.old { tunables = self.old.tunables ++ tunable_data (name, value) ∷ [] }) }
        ensures err { OnErr result (self.new ≡ self.old) }
    {
        self.tunables.insert(name, value)?;
        Ok(())
    }

    /// Adds a rule after the rules that the setting has.
    ///
    /// Fails if there is no memory for it; the setting is then unchanged. The cost grows with the
    /// number of buckets that the rules of the setting take, because the set of these buckets is
    /// copied.
    pub fn push_rule(&mut self, rule: KeptRule) -> Result<(), AllocError>
        ensures ok { OnOk result (self.new
            ≡ record self.old { rules = self.old.rules ++ rule_data rule ∷ [] }) }
        ensures err { OnErr result (self.new ≡ self.old) }
    {
        self.rules.push(rule)?;
        Ok(())
    }

    /// Returns the types as an index map from their numbers to their names, in the order in which
    /// the types were added.
    pub fn kinds(&self) -> &IndexMap<TypeId, Name<Global>>
        ensures { map kind_data result.now.entries ≡ self.now.kinds }
    {
        self.kinds.names()
    }

    /// Returns the tunables as an index map from their names to their values, in the order in which
    /// the tunables were added.
    pub fn tunables(&self) -> &IndexMap<Name<Global>, u32>
        ensures { map tunable_data result.now.entries ≡ self.now.tunables }
    {
        &self.tunables
    }

    /// Returns the rules, in the order in which they were added.
    pub fn rules(&self) -> &[KeptRule]
        ensures { map rule_data result.now ≡ self.now.rules }
    {
        self.rules.as_slice()
    }

    /// Returns the number of the type with this name, or `None` if there is no such type. If
    /// several types have the name, returns the number of the first of them.
    pub fn kind_number(&self, name: &[u8]) -> Option<TypeId>
        ensures { result ≡ kind_number self.now name.now }
    {
        self.kinds.number(name)
    }

    /// Returns the name of the type with this number, or `None` if there is no such type.
    pub fn kind_name(&self, number: TypeId) -> Option<&Name<Global>>
        ensures { option_copied result ≡ kind_name self.now number }
    {
        self.kinds.name(number)
    }

    /// Returns the allocator of the setting's memory.
    pub fn allocator(&self) -> Global {
        self.kinds.allocator()
    }

    /// Returns a copy of the setting, or an error if there is no memory for it.
    pub fn try_copy(&self, alloc: Global) -> Result<Setting, AllocError>
        ensures { IfOk result (λ copy. copy ≡ self.now) }
    {
        Ok(Setting {
            kinds: self.kinds.try_copy(alloc)?,
            tunables: copy_tunables(&self.tunables, alloc)?,
            rules: self.rules.try_copy(alloc)?,
        })
    }

    /// Whether a step of some rule takes the bucket, with or without a class.
    pub fn takes(&self, bucket: BucketId) -> bool
        ensures { result ≡ is_taken_by_rule self.now bucket }
    {
        self.rules.takes(bucket)
    }
}

/// Whether the name is reserved, so that only type 0 may have it. Some parts of a map's text begin
/// with a reserved word, so a reserved word can't be the name of another type.
pub fn is_reserved(name: &[u8]) -> bool
    ensures { result ≡ is_reserved_name name.now }
{
    b"tunable".as_slice() == name
        || b"device".as_slice() == name
        || b"type".as_slice() == name
        || b"rule".as_slice() == name
        || b"class".as_slice() == name
        || b"choose_args".as_slice() == name
}

fn copy_tunables(
    tunables: &IndexMap<Name<Global>, u32>,
    alloc: Global,
) -> Result<IndexMap<Name<Global>, u32>, AllocError>
    ensures { IfOk result (λ copies. copies.entries ≡ tunables.now.entries) }
{
    let mut copies = IndexMap::new(alloc);
    for (name, value) in tunables {
        let name = name.try_copy(alloc)?;
        copies.insert(name, *value)?;
    }
    Ok(copies)
}

fn copy_steps(steps: &[KeptStep], alloc: Global) -> Result<Vec<KeptStep>, AllocError>
    ensures { IfOk result (λ copies. copies.items ≡ steps.now) }
{
    let mut copies = Vec::new(alloc);
    for step in steps {
        let step = step.try_copy(alloc)?;
        copies.push(step)?;
    }
    Ok(copies)
}
