//! Tests the values `RuleChange` and `ClassChange`, which describe differences between the rules
//! and the classes of two maps.

use crate::maps::map_of;
use crush_compare::{Devices, Identity};
use crush_map::CrushMap;
use crush_since::{ClassChange, RuleChange, class_changes, rule_changes};
use std::alloc::Global;
use std::process::Abort;

const BY_NAMES: Identity = Identity::Names(Devices::ByName);

/// The first of two maps. In the second map, `AFTER`, the root `main` has the id that the root
/// `default` has in this map, and `default` is empty. If buckets are matched by their ids, the
/// bucket that the rule `gone` takes still has the host in the second map. If buckets are matched
/// by their names, this bucket has no weight in the second map. The rule `kept` takes `main` in
/// both maps.
const BEFORE: &[u8] = b"\
    device 0 osd.0 class hdd\n\
    device 1 osd.1 class ssd\n\
    type 1 host\n\
    type 11 root\n\
    host h1 { id -2 alg straw2 hash 0 item osd.0 weight 1.0 item osd.1 weight 2.0 }\n\
    root default { id -1 alg straw2 hash 0 item h1 }\n\
    root main { id -3 alg straw2 hash 0 }\n\
    rule gone { id 0 type replicated step take default step emit }\n\
    rule kept { id 1 type replicated step take main step emit }\n\
    rule fast { id 2 type replicated step take default class ssd step emit }\n";

const AFTER: &[u8] = b"\
    device 0 osd.0 class hdd\n\
    device 1 osd.1 class nvme\n\
    type 1 host\n\
    type 11 root\n\
    host h1 { id -2 alg straw2 hash 0 item osd.0 weight 1.5 item osd.1 weight 2.0 }\n\
    root main { id -1 alg straw2 hash 0 item h1 }\n\
    root default { id -3 alg straw2 hash 0 }\n\
    rule kept { id 1 type replicated step take main step emit }\n\
    rule fast { id 2 type replicated step take default class ssd step emit }\n\
    rule made { id 0 type replicated step take default step emit }\n";

/// Appends to `words` a word for the kind of the difference, and then each name that the difference
/// has.
fn push_word(rt: &(impl Abort + AllocGlobal), change: &RuleChange<'_>, words: &mut Vec<u8>) {
    match change {
        RuleChange::New(name) => push(rt, &[b"new ", name.as_bytes()], words),
        RuleChange::Differs(name) => push(rt, &[b"differs ", name.as_bytes()], words),
        RuleChange::Gone(name) => push(rt, &[b"gone ", name.as_bytes()], words),
        RuleChange::OtherOrder => push(rt, &[b"order"], words),
        RuleChange::TakesNothing {
            rule,
            bucket,
            class,
        } => {
            push(
                rt,
                &[b"empty ", rule.as_bytes(), b" ", bucket.as_bytes()],
                words,
            );
            if let Some(class) = class {
                push(rt, &[b" ", class.as_bytes()], words);
            }
        }
    }
    push(rt, &[b"\n"], words);
}

fn push(rt: &(impl Abort + AllocGlobal), parts: &[&[u8]], words: &mut Vec<u8>) {
    for part in parts {
        words.extend_from_slice(part).expect(rt, "no memory");
    }
}

fn has_rule_changes(
    rt: &(impl Abort + AllocGlobal),
    identity: Identity,
    old: &CrushMap<Global>,
    new: &CrushMap<Global>,
    words: &[u8],
) -> bool {
    let changes = rule_changes(rt.alloc(), identity, old, new).expect(rt, "no memory");
    let mut found = Vec::new(rt.alloc());
    for change in changes.as_slice() {
        push_word(rt, change, &mut found);
    }
    found.as_slice() == words
}

fn is_changed_so(
    rt: &(impl Abort + AllocGlobal),
    identity: Identity,
    old: &[u8],
    new: &[u8],
    words: &[u8],
) -> bool {
    let old = map_of(rt, old);
    let new = map_of(rt, new);
    let is = has_rule_changes(rt, identity, &old, &new, words);
    drop(old);
    drop(new);
    is
}

#[test]
fn rules_are_compared_by_the_names_of_buckets(rt: HostRuntime) {
    let words = b"new made\ngone gone\nempty fast default ssd\nempty made default\n";
    assert!(rt; is_changed_so(&rt, BY_NAMES, BEFORE, AFTER, words));
}

fn is_class(
    class: &ClassChange<'_>,
    name: &[u8],
    was: u128,
    is: u128,
    is_new: bool,
    is_taken: bool,
) -> bool {
    class.name.as_bytes() == name
        && class.was == was
        && class.is == is
        && class.is_new == is_new
        && class.is_taken == is_taken
}

fn has_class_changes(
    rt: &(impl Abort + AllocGlobal),
    old: &CrushMap<Global>,
    new: &CrushMap<Global>,
) -> bool {
    let changes = class_changes(rt.alloc(), old, new).expect(rt, "no memory");
    match changes.as_slice() {
        [hdd, nvme, ssd] => {
            is_class(hdd, b"hdd", 65536, 98304, false, false)
                && is_class(nvme, b"nvme", 0, 131072, true, false)
                && is_class(ssd, b"ssd", 131072, 0, false, true)
        }
        _ => false,
    }
}

#[test]
fn classes_that_weigh_another_sum_are_values(rt: HostRuntime) {
    let old = map_of(&rt, BEFORE);
    let new = map_of(&rt, AFTER);
    let has = has_class_changes(&rt, &old, &new);
    drop(old);
    drop(new);
    assert!(rt; has);
}
