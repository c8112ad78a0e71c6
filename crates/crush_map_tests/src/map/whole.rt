//! Builds the example map, in the global allocator and in heaps. The map has three devices in two
//! hosts below one root, and also a tunable and a rule.

ghost use Rattle.std.specs.Prelude.{All};
ghost use Rattle.crush_builder.specs.Rules.{IsStepForm};

use crate::map::asking::name;
use crate::map::building::bucket;
use crate::map::statements::{Statement, empty, finish, make_all};
use crush_builder::{BuildFault, MapBuilder, RuleFault};
use crush_map::{CrushMap, Rule, Setting, Step};
use crush_units::TypeId;
use linked_list_allocator::LocalHeap;
use std::alloc::{Allocator, Global};
use std::process::Abort;

#[derive(Clone, Copy)]
enum Said {
    Take(&'static str),
    ChooseLeaf(i32, &'static str),
    Emit,
}

const REPLICATED: &[Said] = &[
    Said::Take("default"),
    Said::ChooseLeaf(0, "host"),
    Said::Emit,
];

fn step(rt: &impl Abort, alloc: Global, said: Said) -> Step
    ensures { IsStepForm result }
{
    match said {
        Said::Take(bucket) => Step::Take(name(rt, alloc, bucket), None),
        Said::ChooseLeaf(count, kind) => Step::Choose {
            leaf: true,
            firstn: true,
            count,
            kind: name(rt, alloc, kind),
        },
        Said::Emit => Step::Emit,
    }
}

fn steps(rt: &impl Abort, alloc: Global, all: &[Said]) -> Vec<Step>
    ensures { All IsStepForm result.items }
{
    let mut made = Vec::new(alloc);
    for said in all {
        let step = step(rt, alloc, *said);
        made.push(step).expect(rt, "memory");
    }
    made
}

/// Adds `rule replicated_rule { id 0 type replicated min_size 1 max_size 10 STEPS }`.
fn add_rule<A: Allocator>(
    rt: &impl Abort,
    alloc: Global,
    builder: &mut MapBuilder<A>,
    all: &[Said],
) -> Result<(), RuleFault> {
    assert!(rt; builder.is_idle());
    let rule = Rule {
        name: name(rt, alloc, "replicated_rule"),
        id: 0,
        kind: name(rt, alloc, "replicated"),
        min_size: Some(1),
        max_size: Some(10),
        steps: steps(rt, alloc, all),
    };
    let told = builder.rule(&rule);
    drop(rule);
    told
}

pub(super) const BEFORE_RULE: &[Statement] = &[
    Statement::Tunable("choose_total_tries", 50),
    Statement::Device(0, "osd.0"),
    Statement::Device(1, "osd.1"),
    Statement::Device(2, "osd.2"),
    Statement::Type(0, "osd"),
    Statement::Type(1, "host"),
    Statement::Type(3, "rack"),
    Statement::Type(11, "root"),
    Statement::Begin("host", "h1"),
    Statement::Id(-2),
    Statement::Alg,
    Statement::Item("osd.0", 65536),
    Statement::Item("osd.1", 65536),
    Statement::End,
    Statement::Begin("host", "h2"),
    Statement::Id(-3),
    Statement::Alg,
    Statement::Item("osd.2", 32768),
    Statement::End,
    Statement::Begin("root", "default"),
    Statement::Id(-1),
    Statement::Alg,
    Statement::Item("h1", 131072),
    Statement::Item("h2", 32768),
    Statement::End,
];

/// Passes all statements of the example map to the builder. The rule is always in the global
/// allocator, which has enough memory.
fn make_whole<A: Allocator + Clone>(
    rt: &impl Abort,
    alloc: Global,
    builder: &mut MapBuilder<A>,
) -> Result<(), BuildFault> {
    make_all(rt, builder, BEFORE_RULE)?;
    add_rule(rt, alloc, builder, REPLICATED).expect(rt, "a rule");
    Ok(())
}

pub(super) fn map_in_the_making(rt: &impl Abort, alloc: Global) -> MapBuilder<Global> {
    let mut builder = empty(rt, alloc);
    make_whole(rt, alloc, &mut builder).expect(rt, "a statement");
    builder
}

pub(super) fn whole_example_map(rt: &impl Abort, alloc: Global) -> CrushMap<Global> {
    let builder = map_in_the_making(rt, alloc);
    finish(rt, builder)
}

fn made_whole<A: Allocator + Clone>(
    rt: &impl Abort,
    alloc: Global,
    mut builder: MapBuilder<A>,
) -> Result<CrushMap<A>, BuildFault> {
    match make_whole(rt, alloc, &mut builder) {
        Ok(()) => Ok(finish(rt, builder)),
        Err(fault) => {
            drop(builder);
            Err(fault)
        }
    }
}

pub(super) fn whole_example_map_in<'h>(
    rt: &impl Abort,
    alloc: Global,
    heap: &'h LocalHeap,
) -> Result<CrushMap<&'h LocalHeap>, BuildFault> {
    made_whole(rt, alloc, MapBuilder::new(alloc, heap)?)
}

pub(super) fn assert_the_setting(rt: &impl Abort, setting: &Setting) {
    assert_eq!(rt; setting.kinds().len(), 4);
    assert_eq!(rt; setting.kind_number(b"rack"), Some(TypeId::new(3)));
    assert_eq!(rt; setting.tunables().len(), 1);
    assert_eq!(rt; setting.rules().len(), 1);
    assert!(rt; setting.takes(bucket(rt, -1)));
    assert!(rt; !setting.takes(bucket(rt, -2)));
}

#[test]
fn the_debug_text_of_a_map_has_its_counts(rt: HostRuntime) {
    let map = whole_example_map(&rt, rt.alloc());
    let text = format!(in rt.alloc(); "{map:?}").expect(&rt, "memory");
    assert_eq!(rt; text.as_str(), "CrushMap { devices: 3, buckets: 3 }");
    drop(text);
    drop(map);
}
