//! The rules of a setting, with the set of the buckets that they take.

ghost use Rattle.std.specs.Prelude.{◌≡◌, ◌∷◌, [], ◌++◌, map, OnOk, OnErr, IfOk};
ghost use Rattle.crush_model.specs.Table.{member};
ghost use Rattle.crush_edits.specs.RulesTold.{ComeAsTaken};
ghost use Rattle.crush_edits.specs.Setting.{taken_by};
ghost use Rattle.crush_edits.specs.SettingSeen.{rule_data};

use super::{KeptRule, KeptStep};
use crush_units::BucketId;
use std::alloc::{AllocError, Global};
use std::collections::BTreeSet;
use std::marker::Model;

/// The rules, in the order in which they were added, and the buckets that they take.
///
/// `taken` has, for each bucket that a rule takes, the distance of the bucket's id below 0.
#[derive(Debug, Drop)]
pub(super) struct Rules {
    rules: Vec<KeptRule>,
    taken: BTreeSet<u32>,
}

impl Model for Rules {
    ghost use Rattle.std.specs.Prelude.{List, map};
    ghost use Rattle.std.specs.Coded.{coded_list};
    ghost use Rattle.crush_edits.specs.Setting.{RuleData};
    ghost use Rattle.crush_edits.specs.Codes.{coded_rule};
    ghost use Rattle.crush_edits.specs.SettingSeen.{rule_data};
    ghost use Rattle.crush_edits.specs.RulesTold.{AreTakenBy};

    ghost Value = { List RuleData };

    ghost coded = { coded_list coded_rule };

    ghost view = { λ r. map rule_data r.rules.items };

    ghost invariant = { λ r. AreTakenBy (map rule_data r.rules.items) r.taken };
}

impl Rules {
    pub(super) fn new(alloc: Global) -> Rules
        ensures { result ≡ [] }
    {
        Rules {
            rules: Vec::new(alloc),
            taken: BTreeSet::new(alloc),
        }
    }

    pub(super) fn push(&mut self, rule: KeptRule) -> Result<(), AllocError>
        ensures ok { OnOk result (self.new ≡ self.old ++ rule_data rule ∷ []) }
        ensures err { OnErr result (self.new ≡ self.old) }
    {
        // The buckets that the rule takes are added to a copy of the set, so that an error changes
        // nothing.
        let mut taken = self.taken.clone()?;
        take_all(&mut taken, &rule.steps)?;
        self.rules.push(rule)?;
        self.taken = taken;
        Ok(())
    }

    pub(super) fn as_slice(&self) -> &[KeptRule]
        ensures { map rule_data result.now ≡ self.now }
    {
        self.rules.as_slice()
    }

    pub(super) fn takes(&self, bucket: BucketId) -> bool
        ensures { result ≡ member bucket (taken_by self.now) }
    {
        self.taken.contains(&bucket.distance())
    }

    pub(super) fn try_copy(&self, alloc: Global) -> Result<Rules, AllocError>
        ensures { IfOk result (λ copy. copy ≡ self.now) }
    {
        Ok(Rules {
            rules: copy_rules(&self.rules, alloc)?,
            taken: self.taken.clone()?,
        })
    }
}

/// Adds the buckets that the steps take to the set. Fails if memory runs out; the set may then have
/// only some of these buckets.
fn take_all(taken: &mut BTreeSet<u32>, steps: &[KeptStep]) -> Result<(), AllocError>
    ensures { OnOk result (ComeAsTaken steps.now taken.old taken.new) }
{
    for step in steps {
        if let KeptStep::Take(bucket, _) = step {
            taken.insert(bucket.distance())?;
        }
    }
    Ok(())
}

fn copy_rules(rules: &[KeptRule], alloc: Global) -> Result<Vec<KeptRule>, AllocError>
    ensures { IfOk result (λ copies. map rule_data copies.items ≡ map rule_data rules.now) }
{
    let mut copies = Vec::new(alloc);
    for rule in rules {
        let rule = rule.try_copy(alloc)?;
        copies.push(rule)?;
    }
    Ok(copies)
}
