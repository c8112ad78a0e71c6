//! Reads a step of a rule.

ghost use Rattle.std.specs.Prelude.{◌≡◌, ◌≤◌, length, IfOk, OnOk, nat_eq, true, Some, None, if◌then◌else◌, codes};
ghost use Rattle.std.specs.List.{starts_with};
ghost use Rattle.crush_edits.specs.Setting.{RuleData};
ghost use Rattle.crush_builder.specs.Built.{Draft};
ghost use Rattle.crush_builder.specs.Rules.{IsStepForm, word_fault};
ghost use Rattle.crush_units.specs.Numbers.{is_signed, signed_value};
ghost use Rattle.crush_text.specs.Role.{step_word, taken_bucket, step_order, step_count, step_type};
ghost use Rattle.crush_text.specs.Form.{word};
ghost use Rattle.crush_text.specs.Grammar.{step_behind, take_step, choose_step, set_step};
ghost use Rattle.crush_text.specs.Reads.{Gives, behind_step, first_of_step, line_at};
ghost use Rattle.crush_text.specs.ReadsWords.{IsFirstOfStep, FindsWord, ReadsValue, AnyDraft};
ghost use Rattle.crush_text.specs.ReadsRules.{GivesStep};

use crate::expected::{Expected, Keyword};
use crate::fault::{TextFault, TextFaultKind};
use crate::reader::MapReader;
use crate::reader::roles::{read_key, read_number, read_word};
use crate::reader::word::{PlacedWord, next_word};
use crush_map::Step;
use crush_units::limits::{FARTHEST_COUNT, LARGEST_COUNT, LARGEST_RULE_NUMBER};
use crush_units::number::number_up_to;
use crush_units::{Name, Reader};
use std::alloc::{Allocator, Global};

/// What the first word of a step means.
#[derive(Clone, Copy)]
pub(crate) enum FirstOfStep<'a> {
    Take,
    Choose {
        /// Whether the word is `chooseleaf`. Such a step also chooses a device below each chosen
        /// item.
        leaf: bool,
    },
    /// A word that begins with `set_`.
    Set(PlacedWord<'a>),
    Emit,
}

impl<'a, A: Allocator> MapReader<'a, A> {
    /// Reads a step. The word `step` was read before.
    #[tactic(auto, unfolding(crate::specs::Reads::line_at))]
    pub(crate) fn step(&mut self) -> Result<Step, TextFault>
        ensures { GivesStep (λ d r. word step_word (step_behind d r)) self.old self.new result }
    {
        match read_first(&mut self.text)? {
            FirstOfStep::Take => self.take(),
            FirstOfStep::Choose { leaf } => self.choose(leaf),
            FirstOfStep::Set(word) => {
                let name = word.owned_name(self.global)?;
                read_set(&mut self.text, name)
            }
            FirstOfStep::Emit => Ok(Step::Emit),
        }
    }

    /// Reads `BUCKET [class CLASS]`. The word `take` was read before.
    #[tactic(auto, unfolding(crate::specs::Reads::line_at))]
    fn take(&mut self) -> Result<Step, TextFault>
        ensures { GivesStep take_step self.old self.new result }
    {
        let bucket = self.taken_bucket()?;
        let bucket = bucket.owned_name(self.global)?;
        if !self.text.take_key(b"class") {
            return Ok(Step::Take(bucket, None));
        }
        let class = read_word(&mut self.text, Expected::Class)?;
        let class = class.owned_name(self.global)?;
        Ok(Step::Take(bucket, Some(class)))
    }

    /// Reads `(firstn | indep) N type TYPE`. The word `choose` or `chooseleaf` was read before.
    #[tactic(auto, unfolding(crate::specs::Reads::line_at))]
    fn choose(&mut self, leaf: bool) -> Result<Step, TextFault>
        ensures { GivesStep (λ d r. choose_step d r leaf) self.old self.new result }
    {
        let firstn = read_order(&mut self.text)?;
        let count = read_count(&mut self.text)?;
        read_key(&mut self.text, Keyword::Type)?;
        let kind = self.step_type()?;
        let kind = kind.owned_name(self.global)?;
        Ok(Step::Choose {
            leaf,
            firstn,
            count,
            kind,
        })
    }

    /// Reads the name of a bucket whose closing brace was read before.
    #[tactic(auto, unfolding(crate::specs::Reads::word_at))]
    fn taken_bucket(&mut self) -> Result<PlacedWord<'a>, TextFault>
        ensures { FindsWord taken_bucket self.old self.new result }
    {
        let word = read_word(&mut self.text, Expected::TakenBucket)?;
        match self.builder.bucket_named(word.text) {
            Some(_) => Ok(word),
            None => Err(word.fault(TextFaultKind::UnknownBucketInRule, Expected::TakenBucket)),
        }
    }

    /// Reads the name of a declared type.
    #[tactic(auto, unfolding(crate::specs::Reads::word_at))]
    fn step_type(&mut self) -> Result<PlacedWord<'a>, TextFault>
        ensures { FindsWord step_type self.old self.new result }
    {
        let word = read_word(&mut self.text, Expected::StepType)?;
        match self.builder.kind_number(word.text) {
            Some(_) => Ok(word),
            None => Err(word.fault(TextFaultKind::UnknownType, Expected::StepType)),
        }
    }
}

/// Reads the number of a step whose first word begins with `set_`, and returns the step. The first
/// word was read before, and `name` is a copy of it.
#[tactic(auto, unfolding(crate::specs::Reads::line_at))]
fn read_set(reader: &mut Reader<'_>, name: Name<Global>) -> Result<Step, TextFault>
    requires sets { starts_with nat_eq name (codes "set_") ≡ true }
    ensures form { IfOk result IsStepForm }
    ensures gives { (d : Draft) (r : RuleData)
        → Gives (λ s. (behind_step d r s, reader.new)) result
        (line_at d (set_step d r name) reader.old) }
    ensures free { IfOk result (λ s. (d : Draft) → word_fault d s ≡ None) }
    ensures shorter { OnOk result (length reader.new.words ≤ length reader.old.words) }
{
    let value = read_number(reader, LARGEST_RULE_NUMBER)?;
    Ok(Step::Set(name, value))
}

/// Reads the first word of a step. Rejects `choosemsr`, because MSR rules aren't supported.
#[tactic(auto, unfolding(crate::specs::Reads::word_at))]
fn read_first<'a>(reader: &mut Reader<'a>) -> Result<FirstOfStep<'a>, TextFault>
    ensures word { ReadsValue step_word first_of_step AnyDraft reader.old reader.new result }
    ensures form { IfOk result (IsFirstOfStep reader.old reader.new) }
{
    let word = next_word(reader, Expected::StepWord)?;
    if word.is(b"take") {
        Ok(FirstOfStep::Take)
    } else if word.is(b"choose") {
        Ok(FirstOfStep::Choose { leaf: false })
    } else if word.is(b"chooseleaf") {
        Ok(FirstOfStep::Choose { leaf: true })
    } else if word.is(b"emit") {
        Ok(FirstOfStep::Emit)
    } else if sets(word.text) {
        Ok(FirstOfStep::Set(word))
    } else if word.is(b"choosemsr") {
        Err(word.fault(TextFaultKind::LeftOut, Expected::StepWord))
    } else {
        Err(word.fault(TextFaultKind::Unexpected, Expected::StepWord))
    }
}

/// Whether the text begins with `set_`.
fn sets(text: &[u8]) -> bool
    ensures { result ≡ starts_with nat_eq text.now (codes "set_") }
{
    matches!(text, [b's', b'e', b't', b'_', ..])
}

/// Reads `firstn` or `indep`, and returns true for `firstn`. These words say what happens to the
/// list of chosen items if one of these items is lost. With `firstn`, the items after the lost item
/// move up by one position. With `indep`, the items after the lost item keep their positions.
#[tactic(auto, unfolding(crate::specs::Reads::word_at))]
fn read_order(reader: &mut Reader<'_>) -> Result<bool, TextFault>
    ensures { ReadsValue step_order (λ b. b) AnyDraft reader.old reader.new result }
{
    let word = next_word(reader, Expected::FirstnOrIndep)?;
    if word.is(b"firstn") {
        Ok(true)
    } else if word.is(b"indep") {
        Ok(false)
    } else {
        Err(word.fault(TextFaultKind::Unexpected, Expected::FirstnOrIndep))
    }
}

/// Reads a number from -2147483648 to 2147483647.
#[tactic(auto, unfolding(crate::specs::Reads::word_at))]
fn read_count(reader: &mut Reader<'_>) -> Result<i32, TextFault>
    ensures { ReadsValue step_count (λ n. n) AnyDraft reader.old reader.new result }
{
    let word = read_word(reader, Expected::Count)?;
    match signed_number(word.text) {
        Some(count) => Ok(count),
        None => Err(word.fault(TextFaultKind::BadNumber, Expected::Count)),
    }
}

/// Returns the number from -2147483648 to 2147483647 that the text spells, or `None` if it spells
/// no such number.
fn signed_number(text: &[u8]) -> Option<i32>
    ensures { result ≡ (if is_signed text.now then Some (signed_value text.now) else None) }
{
    match text {
        [b'-', digits @ ..] => {
            let below = number_up_to(FARTHEST_COUNT, digits)?;
            Some((0 - i64::from(below)) as i32)
        }
        _ => {
            let number = number_up_to(LARGEST_COUNT, text)?;
            Some(number as i32)
        }
    }
}
