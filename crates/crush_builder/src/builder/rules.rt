//! Adds rules: the checks that a rule has to pass, and the form in which a map stores it.

ghost use Rattle.std.specs.Prelude.{◌≡◌, ◌==◌, None, OnOk, IfErr, IfOk, IfSome, All, map, bytes_eq};
ghost use Rattle.std.specs.List.{list_any};
ghost use Rattle.crush_edits.specs.SettingSeen.{step_data, rule_data};
ghost use Rattle.crush_edits.specs.declared.setting.KeptRule.{KeptRule as DeclaredRule};
ghost use Rattle.crush_builder.specs.Built.{Draft, nothing};
ghost use Rattle.crush_builder.specs.Building.{IsDraft};
ghost use Rattle.crush_builder.specs.Rules.{IsRuleForm, complete_bucket_named, kept_step, kept_rule, with_rule};
ghost use Rattle.crush_builder.specs.Rules.{has_rule_name, has_rule_id, is_full_of_rules, word_fault};
ghost use Rattle.crush_builder.specs.Rules.{step_fault, steps_fault, rule_fault, rule_told};

use super::MapBuilder;
use crate::fault::{BuildFault, RuleFault, RulePart};
use crush_edits::{KeptRule, KeptStep, Rule, Step};
use crush_units::limits::{MOST_RULES, MOST_STEPS};
use crush_units::{BucketId, ItemId};
use std::alloc::{AllocError, Allocator};

impl<A: Allocator> MapBuilder<A> {
    /// Adds a rule, for the statement `rule NAME { .. }`.
    ///
    /// The map stores the ids of the buckets that the rule's `take` steps name. The caller
    /// guarantees that no statement is incomplete, and that the rule's names and numbers have the
    /// form that the text requires. If several of these errors apply, the first one is returned:
    ///
    /// - [`BuildFault::TooMany`] at the statement: there are already 256 rules.
    /// - [`BuildFault::DuplicateName`] at the name: another rule has this name.
    /// - [`BuildFault::DuplicateId`] at the id: another rule has this id.
    /// - The fault of the first faulty step: [`BuildFault::TooMany`] if it is the 65th step,
    ///   [`BuildFault::UnknownBucketInRule`] if it takes a name that no complete bucket has, or
    ///   [`BuildFault::UnknownType`] if it chooses a type that the map doesn't have.
    /// - [`BuildFault::OutOfMemory`] at the statement: memory ran out.
    pub fn rule(&mut self, rule: &Rule) -> Result<(), RuleFault>
        requires idle { self.old.pending ≡ nothing }
        requires form { IsRuleForm rule.now }
        ensures refused { IfErr result (λ f. (d : Draft) → IsDraft self.old d
            → rule_fault d rule.now ≡ rule_told f) }
        ensures memory { IfErr result (λ f. f.fault ≡ BuildFault.OutOfMemory
            → f.part ≡ RulePart.Statement) }
        ensures clear { OnOk result ((d : Draft) → IsDraft self.old d
            → rule_fault d rule.now ≡ None) }
        ensures ok { OnOk result ((d : Draft) → IsDraft self.old d
            → IsDraft self.new (with_rule d rule.now)) }
    {
        self.hierarchy.recall_invariant();
        if let Some(fault) = self.rule_fault(rule) {
            return Err(fault);
        }
        let kept = self.kept_rule(rule)?;
        self.setting.push_rule(kept)?;
        Ok(())
    }

    /// Whether a rule has this name.
    pub fn has_rule_name(&self, name: &[u8]) -> bool
        ensures { (d : Draft) → IsDraft self.now d → result ≡ has_rule_name d.setting name.now }
    {
        names_rule(self.setting.rules(), name)
    }

    /// Whether a rule has this id.
    pub fn has_rule_id(&self, id: u32) -> bool
        ensures { (d : Draft) → IsDraft self.now d → result ≡ has_rule_id d.setting id }
    {
        numbers_rule(self.setting.rules(), id)
    }

    /// Whether the map already has 256 rules, which is the maximum.
    pub fn is_full_of_rules(&self) -> bool
        ensures { (d : Draft) → IsDraft self.now d → result ≡ is_full_of_rules d }
    {
        self.setting.rules().len() >= MOST_RULES
    }

    /// Returns the first fault of the rule. A rule's parts are checked in the order of its text.
    fn rule_fault(&self, rule: &Rule) -> Option<RuleFault>
        ensures { (d : Draft) → IsDraft self.now d → result ≡ rule_fault d rule.now }
    {
        if self.is_full_of_rules() {
            return Some(RuleFault {
                part: RulePart::Statement,
                fault: BuildFault::TooMany,
            });
        }
        if self.has_rule_name(rule.name.as_bytes()) {
            return Some(RuleFault {
                part: RulePart::Name,
                fault: BuildFault::DuplicateName,
            });
        }
        if self.has_rule_id(rule.id) {
            return Some(RuleFault {
                part: RulePart::Id,
                fault: BuildFault::DuplicateId,
            });
        }
        self.steps_fault(&rule.steps)
    }

    /// Returns the fault of the first step that has one.
    fn steps_fault(&self, steps: &[Step]) -> Option<RuleFault>
        ensures { (d : Draft) → IsDraft self.now d → result ≡ steps_fault d 0 steps.now }
    {
        for (place, step) in steps.iter().enumerate() {
            if let Some(fault) = self.step_fault(place, step) {
                return Some(RuleFault {
                    part: RulePart::Step(place),
                    fault,
                });
            }
        }
        None
    }

    /// Returns the fault of the step with this index: [`BuildFault::TooMany`] if it is the 65th
    /// step or a later one, and otherwise what `word_fault` returns.
    fn step_fault(&self, place: usize, step: &Step) -> Option<BuildFault>
        ensures { (d : Draft) → IsDraft self.now d → result ≡ step_fault d place step.now }
    {
        if place >= MOST_STEPS {
            return Some(BuildFault::TooMany);
        }
        self.word_fault(step)
    }

    /// Returns a fault if the step takes a name that no complete bucket has, or chooses a type that
    /// the map doesn't have.
    fn word_fault(&self, step: &Step) -> Option<BuildFault>
        ensures { (d : Draft) → IsDraft self.now d → result ≡ word_fault d step.now }
    {
        match step {
            Step::Take(name, _) => {
                if self.bucket_named(name.as_bytes()).is_some() {
                    None
                } else {
                    Some(BuildFault::UnknownBucketInRule)
                }
            }
            Step::Choose { kind, .. } => {
                if self.kind_number(kind.as_bytes()).is_some() {
                    None
                } else {
                    Some(BuildFault::UnknownType)
                }
            }
            Step::Set(..) | Step::Emit => None,
        }
    }

    /// Returns the id of the complete bucket with this name, or `None` if there is none.
    pub fn bucket_named(&self, name: &[u8]) -> Option<BucketId>
        ensures { (d : Draft) → IsDraft self.now d → result ≡ complete_bucket_named d name.now }
    {
        match self.closed_item(name)? {
            ItemId::Bucket(bucket) => Some(bucket),
            ItemId::Device(_) => None,
        }
    }

    /// Returns the rule in the form in which a map stores it. The caller guarantees that the rule
    /// has no fault.
    fn kept_rule(&self, rule: &Rule) -> Result<KeptRule, AllocError>
        requires clear { (d : Draft) → IsDraft self.now d → rule_fault d rule.now ≡ None }
        ensures { IfOk result (λ kept. (d : Draft) → IsDraft self.now d
            → rule_data kept ≡ kept_rule d rule.now) }
    {
        let name = rule.name.try_copy(self.global)?;
        let kind = rule.kind.try_copy(self.global)?;
        let steps = self.kept_steps(&rule.steps)?;
        Ok(KeptRule {
            name,
            id: rule.id,
            kind,
            min_size: rule.min_size,
            max_size: rule.max_size,
            steps,
        })
    }

    /// Returns the steps in the form in which a map stores them. The caller guarantees that the map
    /// has each bucket and each type that the steps name.
    fn kept_steps(&self, steps: &[Step]) -> Result<Vec<KeptStep>, AllocError>
        requires clear { (d : Draft) → IsDraft self.now d
            → All (λ x. word_fault d x ≡ None) steps.now }
        ensures { IfOk result (λ kept. (d : Draft) → IsDraft self.now d
            → map step_data kept.items ≡ map (kept_step d) steps.now) }
    {
        let mut kept = Vec::new(self.global);
        for step in steps {
            let step = self.kept_step(step)?;
            kept.push(step)?;
        }
        Ok(kept)
    }

    /// Returns the step in the form in which a map stores it: the id of a bucket replaces the
    /// bucket's name.
    fn kept_step(&self, step: &Step) -> Result<KeptStep, AllocError>
        requires clear { (d : Draft) → IsDraft self.now d → word_fault d step.now ≡ None }
        ensures { IfOk result (λ kept. (d : Draft) → IsDraft self.now d
            → step_data kept ≡ kept_step d step.now) }
    {
        self.hierarchy.recall_invariant();
        match step {
            Step::Take(name, class) => {
                let Some(bucket) = self.bucket_named(name.as_bytes()) else {
                    unreachable!()
                };
                let class = match class {
                    Some(class) => Some(class.try_copy(self.global)?),
                    None => None,
                };
                Ok(KeptStep::Take(bucket, class))
            }
            Step::Choose {
                leaf,
                firstn,
                count,
                kind,
            } => Ok(KeptStep::Choose {
                leaf: *leaf,
                firstn: *firstn,
                count: *count,
                kind: kind.try_copy(self.global)?,
            }),
            Step::Set(word, value) => Ok(KeptStep::Set(word.try_copy(self.global)?, *value)),
            Step::Emit => Ok(KeptStep::Emit),
        }
    }
}

fn names_rule(rules: &[KeptRule], name: &[u8]) -> bool
    ensures { result ≡ list_any (λ (x : DeclaredRule). bytes_eq x.name name.now) rules.now }
{
    rules.iter().any(|rule| rule.name.is(name))
}

fn numbers_rule(rules: &[KeptRule], id: u32) -> bool
    ensures { result ≡ list_any (λ (x : DeclaredRule). x.id == id) rules.now }
{
    rules.iter().any(|rule| rule.id == id)
}
