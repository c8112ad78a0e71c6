//! Reads a rule.

ghost use Rattle.std.specs.Prelude.{None, ◌≡◌, ◌⊎◌, ◌≤◌, ◌<◌, length, true, IfOk, IfErr, IfSome, OnOk, Ok};
ghost use Rattle.crush_units.specs.Name.{IsName};
ghost use Rattle.crush_builder.specs.Built.{Draft};
ghost use Rattle.crush_builder.specs.Rules.{IsRuleForm};
ghost use Rattle.crush_units.specs.declared.limits.TheConstants.{LARGEST_RULE_NUMBER};
ghost use Rattle.crush_units.specs.declared.limits.TheConstants.{MOST_STEPS};
ghost use Rattle.crush_text.specs.Flaw.{IsOutOfMemory};
ghost use Rattle.crush_text.specs.Room.{IsHead};
ghost use Rattle.crush_text.specs.declared.expected.Expected.TheVariants.{StepOrEnd};
ghost use Rattle.crush_text.specs.declared.expected.Optional.TheVariants.{Nothing};
ghost use Rattle.crush_text.specs.Role.{rule_name, rule_id_key, rule_id, step_or_end};
ghost use Rattle.crush_text.specs.Form.{second};
ghost use Rattle.crush_text.specs.Grammar.{rule_line};
ghost use Rattle.crush_text.specs.Flow.{arrive};
ghost use Rattle.crush_text.specs.Reads.{Gives, left_by_step, is_step, word_at, next_at, word_of};
ghost use Rattle.crush_text.specs.ReadsWords.{FindsWord, FindsValue, ReadsValue, AnyDraft};
ghost use Rattle.crush_text.specs.ReadsLines.{ReadsOn, HasRoomFor};
ghost use Rattle.crush_text.specs.ReadsRules.{left_after, left_by, ReadsSteps, IsRightSoFar, ReadsStepLine, ReadsHead, ReadsSize};

use crate::expected::{Expected, Keyword, Optional};
use crate::fault::{TextFault, TextFaultKind};
use crate::reader::MapReader;
use crate::reader::roles::{read_key, read_number, read_word};
use crate::reader::word::{PlacedWord, memory_at, next_word, out_of_memory_at};
use crate::statement_kind::StatementKind;
use crush_map::{Rule, Step};
use crush_units::Reader;
use crush_units::limits::{LARGEST_RULE_NUMBER, MOST_STEPS};
use crush_units::number::number_up_to;
use std::alloc::{Allocator, Global};

impl<'a, A: Allocator> MapReader<'a, A> {
    /// Reads a rule to its closing brace. The word `rule` was read before. Until the closing brace
    /// is read, the rule is stored in memory of `global`, outside of the builder.
    pub(crate) fn rule(&mut self) -> Result<(), TextFault>
        requires { HasRoomFor StatementKind.Rule self.old.builder }
        ensures { ReadsOn (λ d. arrive d self.old.text.words (rule_line d)) (λ _. (second, Nothing))
            self.old self.new result }
    {
        let mut draft = self.rule_head()?;
        let place = self.steps(&mut draft)?;
        self.builder
            .rule(&draft)
            .map_err(|refused| out_of_memory_at(place, refused.fault))
    }

    /// Reads a rule from its name up to its first step, and returns the rule without steps.
    #[tactic(auto, unfolding(crate::specs::Reads::line_at))]
    fn rule_head(&mut self) -> Result<Rule, TextFault>
        ensures { ReadsHead self.old self.new result }
    {
        let name = self.rule_name()?;
        read_key(&mut self.text, Keyword::Brace)?;
        read_rule_id_key(&mut self.text)?;
        let id = self.rule_id()?;
        read_key(&mut self.text, Keyword::Type)?;
        let kind = read_word(&mut self.text, Expected::RuleType)?;
        let min_size = read_size(&mut self.text, b"min_size")?;
        let max_size = read_size(&mut self.text, b"max_size")?;
        rule_head_values(name, id, kind, (min_size, max_size), self.global)
    }

    /// Reads all steps and the closing brace. Appends the steps to the rule, and returns the place
    /// of the brace.
    fn steps(&mut self, rule: &mut Rule) -> Result<usize, TextFault>
        requires { IsRightSoFar self.old.builder rule.old }
        ensures { ReadsSteps rule.old rule.new self.old self.new result }
    {
        'steps: loop {
            if let Some(place) = self.step_or_end(rule)? {
                return Ok(place);
            }
        }
    }

    /// Reads a step, appends it to the rule, and returns `None`. If the next word is the closing
    /// brace, reads this brace instead and returns its place.
    #[tactic(auto, unfolding(crate::specs::Reads::line_at))]
    fn step_or_end(&mut self, rule: &mut Rule) -> Result<Option<usize>, TextFault>
        requires { IsRightSoFar self.old.builder rule.old }
        ensures { ReadsStepLine rule.old rule.new self.old self.new result }
    {
        let word = read_step_or_end(&mut self.text, &rule.steps, left_by(rule))?;
        if !word.is_step() {
            return Ok(Some(word.place));
        }
        let step = self.step()?;
        let Ok(()) = rule.steps.push(step) else {
            return Err(memory_at(word.place));
        };
        Ok(None)
    }

    #[tactic(auto, unfolding(crate::specs::Reads::word_at))]
    fn rule_name(&mut self) -> Result<PlacedWord<'a>, TextFault>
        ensures { FindsWord rule_name self.old self.new result }
    {
        let word = read_word(&mut self.text, Expected::RuleName)?;
        if self.builder.has_rule_name(word.text) {
            return Err(word.fault(TextFaultKind::DuplicateName, Expected::RuleName));
        }
        Ok(word)
    }

    #[tactic(auto, unfolding(crate::specs::Reads::word_at))]
    fn rule_id(&mut self) -> Result<u32, TextFault>
        ensures { FindsValue rule_id (λ n. n) self.old self.new result }
    {
        let word = read_word(&mut self.text, Expected::RuleId)?;
        let Some(id) = number_up_to(LARGEST_RULE_NUMBER, word.text) else {
            return Err(word.fault(TextFaultKind::BadNumber, Expected::RuleId));
        };
        if self.builder.has_rule_id(id) {
            return Err(word.fault(TextFaultKind::DuplicateId, Expected::RuleId));
        }
        Ok(id)
    }
}

/// Returns a rule without steps. The rule has copies of `name` and of `kind`, which is the word
/// after `type`. `sizes` has the least and the largest size of the pools that the rule serves. A
/// size is `None` if the text doesn't give it. If memory runs out, fails at the place of `name` or
/// of `kind`.
fn rule_head_values(
    name: PlacedWord<'_>,
    id: u32,
    kind: PlacedWord<'_>,
    sizes: (Option<u32>, Option<u32>),
    global: Global,
) -> Result<Rule, TextFault>
    requires name { IsName name.text.now }
    requires id { id ≤ LARGEST_RULE_NUMBER }
    requires kind { IsName kind.text.now }
    requires least { IfSome sizes.0 (λ n. n ≤ LARGEST_RULE_NUMBER) }
    requires most { IfSome sizes.1 (λ n. n ≤ LARGEST_RULE_NUMBER) }
    ensures form { IfOk result IsRuleForm }
    ensures head { IfOk result
        (IsHead name.entry.text.now id kind.entry.text.now sizes.0 sizes.1) }
    ensures memory { IfErr result
        (λ f. IsOutOfMemory f × ((f.place ≡ name.entry.place) ⊎ (f.place ≡ kind.entry.place))) }
{
    let name = name.owned_name(global)?;
    let kind = kind.owned_name(global)?;
    Ok(Rule {
        name,
        id,
        kind,
        min_size: sizes.0,
        max_size: sizes.1,
        steps: Vec::new(global),
    })
}

/// Reads the word `size` and the number after it, and returns this number. `size` is `min_size` or
/// `max_size`. If the next word isn't `size`, reads nothing and returns `None`.
#[tactic(auto, unfolding(crate::specs::Reads::line_at))]
fn read_size(reader: &mut Reader<'_>, size: &[u8]) -> Result<Option<u32>, TextFault>
    ensures { ReadsSize size.now reader.old reader.new result }
{
    if !reader.take_key(size) {
        return Ok(None);
    }
    let number = read_number(reader, LARGEST_RULE_NUMBER)?;
    Ok(Some(number))
}

/// Returns the optional part that could still follow after the part of the rule that was read. If
/// the rule has no steps yet, this is the part that [`left_sizes`] returns. If the last step of the
/// rule takes a bucket without a class, this is `class` with a name. Otherwise no optional part
/// could follow. The message for a fault names this part, in addition to `step` and `}`.
fn left_by(rule: &Rule) -> Optional
    ensures { result ≡ left_by rule.now }
{
    match rule.steps.last() {
        Some(step) => left_by_step(step),
        None => left_sizes(rule.min_size, rule.max_size),
    }
}

/// Returns the optional part that could still follow after the step. If the step takes a bucket
/// without a class, this part is `class` with a name. After any other step, no optional part could
/// follow.
fn left_by_step(step: &Step) -> Optional
    ensures { result ≡ left_by_step step.now }
{
    match step {
        Step::Take(_, None) => Optional::Class,
        _ => Optional::Nothing,
    }
}

/// Returns the optional part that could still follow before the first step of a rule: `min_size`
/// and `max_size` if the rule has neither, `max_size` if it has only `min_size`, and nothing if it
/// has `max_size`. `least` and `most` are the numbers after `min_size` and `max_size`, if the rule
/// has them.
fn left_sizes(least: Option<u32>, most: Option<u32>) -> Optional
    ensures { result ≡ left_after None least most }
{
    match (least, most) {
        (_, Some(_)) => Optional::Nothing,
        (Some(_), None) => Optional::MaxSize,
        (None, None) => Optional::Sizes,
    }
}

/// Reads `step` or `}`, and returns the word. Fails at `step` if `steps` already has the maximum
/// number of steps. `or` is the optional part that could still follow here.
#[tactic(auto, unfolding(crate::specs::Reads::word_at))]
fn read_step_or_end<'a>(
    reader: &mut Reader<'a>,
    steps: &[Step],
    or: Optional,
) -> Result<PlacedWord<'a>, TextFault>
    ensures gives { (d : Draft)
        → Gives (λ x. (is_step x.text.now, reader.new)) result
        (word_at d (step_or_end (length steps.now) or) reader.old) }
    ensures next { IfOk result (λ x. next_at (StepOrEnd or) reader.old ≡ Ok (word_of x, reader.new)) }
    ensures room { IfOk result (λ x. is_step x.text.now ≡ true → length steps.now < MOST_STEPS) }
    ensures shorter { OnOk result (length reader.new.words < length reader.old.words) }
{
    let expected = Expected::StepOrEnd { or };
    let word = next_word(reader, expected)?;
    if !word.is_step() && !word.is(b"}") {
        return Err(word.fault(TextFaultKind::Unexpected, expected));
    }
    if word.is_step() && steps.len() >= MOST_STEPS {
        return Err(word.fault(TextFaultKind::TooMany, expected));
    }
    Ok(word)
}

impl<'a> PlacedWord<'a> {
    fn is_step(self) -> bool
        ensures { result ≡ is_step self.entry.text.now }
    {
        self.is(b"step")
    }
}

/// Reads `id`, or `ruleset`, which older releases of Ceph print in place of `id`.
#[tactic(auto, unfolding(crate::specs::Reads::word_at))]
fn read_rule_id_key(reader: &mut Reader<'_>) -> Result<(), TextFault>
    ensures { ReadsValue rule_id_key (λ x. x) AnyDraft reader.old reader.new result }
{
    let word = next_word(reader, Expected::IdOrRuleset)?;
    if word.is(b"id") || word.is(b"ruleset") {
        Ok(())
    } else {
        Err(word.fault(TextFaultKind::Unexpected, Expected::IdOrRuleset))
    }
}
