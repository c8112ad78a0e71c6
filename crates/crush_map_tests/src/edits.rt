//! Tests locations, copies of edits and `==`, the texts of faults, refusals, words of commands, and
//! settings.

use crush_edits::*;
use crush_units::{DeviceId, Name, TypeId, Weight};
use std::alloc::Global;
use std::process::Abort;

fn assert_leads_to_a_host(rt: &impl Abort, at: &Location) {
    let pairs = at.pairs();
    assert_eq!(rt; pairs.len(), 2);
    assert_eq!(rt; pairs[0].kind.as_str(), "host");
    assert_eq!(rt; pairs[1].name.as_str(), "default");
}

#[test]
fn locations(rt: HostRuntime) {
    let mut at = Location::new(rt.alloc());
    at.push(b"host", b"h1").expect(&rt, "a pair");
    at.push(b"root", b"default").expect(&rt, "a pair");
    assert_leads_to_a_host(&rt, &at);
    drop(at);
}

fn name(rt: &impl Abort, alloc: Global, text: &str) -> Name<Global> {
    Name::read(alloc, text.as_bytes()).expect(rt, text)
}

fn add_in_h1(rt: &impl Abort, alloc: Global, number: i32) -> Edit {
    let device = DeviceId::new(number).expect(rt, "a device");
    let mut at = Location::new(alloc);
    at.push(b"host", b"h1").expect(rt, "a pair");
    Edit::place(Placing::Insert, device, Weight::from_units(65536), at)
}

#[test]
fn copies(rt: HostRuntime) {
    let edit = add_in_h1(&rt, rt.alloc(), 7);
    let other = add_in_h1(&rt, rt.alloc(), 4);
    let copy = edit.try_copy(rt.alloc()).expect(&rt, "memory");
    assert_eq!(rt; copy, edit);
    assert_ne!(rt; copy, other);
    drop(copy);
    drop(other);
    drop(edit);
}

fn assert_name_and_numbers(rt: &impl Abort, refusal: Refusal, name: &str, number: u8, error: u8) {
    assert_eq!(rt; refusal.name(), name);
    assert_eq!(rt; refusal.number(), number, "{name}");
    assert_eq!(rt; refusal.error(), error, "{name}");
}

#[test]
fn refusals(rt: HostRuntime) {
    assert_name_and_numbers(&rt, Refusal::Loop, "Loop", 13, 40);
    assert_name_and_numbers(&rt, Refusal::ClassBound, "ClassBound", 21, 16);
    assert_eq!(rt;
        EditFault::from(Refusal::Loop),
        EditFault::Refused(Refusal::Loop)
    );
    assert_eq!(rt; LocationFault::OutOfMemory.number(), 3);
}

#[test]
fn faults_say_why(rt: HostRuntime) {
    let edit = EditFault::Refused(Refusal::ClassBound);
    let batch = BatchFault::Refused(1, Refusal::Loop);
    let told = format!(in rt.alloc(); "{edit}; {batch}").expect(&rt, "memory");
    let text =
        "the edit is refused: the device has a different class: remove this class first with rm-device-class; edit 1 is refused: a bucket can't be moved below itself";
    assert_eq!(rt; told.as_str(), text);
    drop(told);
}

#[test]
fn words_of_commands(rt: HostRuntime) {
    let set = Keyword::Place(Placing::Update);
    assert_eq!(rt; Keyword::read(b"set"), Some(set));
    assert_eq!(rt; Keyword::read(b"remove"), Some(Keyword::Rm));
    assert_eq!(rt; Keyword::read(b"begin"), None);
    assert_eq!(rt; set.word(), "set");
    assert_eq!(rt; Placing::Insert.word(), "add");
    assert_eq!(rt; Keyword::Reweight.form(), "reweight NAME WEIGHT");
}

#[test]
fn reserved_names(rt: HostRuntime) {
    assert!(rt; is_reserved(b"tunable"));
    assert!(rt; !is_reserved(b"host"));
}

fn assert_host(rt: &impl Abort, setting: &Setting) {
    let kind = setting.kind_name(TypeId::new(1)).expect(rt, "a type");
    assert_eq!(rt; kind.as_str(), "host");
    assert!(rt; setting.kind_name(TypeId::new(2)).is_none());
}

#[test]
fn a_setting_has_the_types_tunables_and_rules_that_were_added(rt: HostRuntime) {
    let mut setting = Setting::new(rt.alloc());
    let host = name(&rt, rt.alloc(), "host");
    setting
        .push_kind(TypeId::new(1), host)
        .expect(&rt, "memory");
    let tries = name(&rt, rt.alloc(), "choose_total_tries");
    setting.push_tunable(tries, 50).expect(&rt, "memory");
    let rule = KeptRule {
        name: name(&rt, rt.alloc(), "data"),
        id: 0,
        kind: name(&rt, rt.alloc(), "replicated"),
        min_size: None,
        max_size: None,
        steps: Vec::new(rt.alloc()),
    };
    setting.push_rule(rule).expect(&rt, "memory");
    assert_host(&rt, &setting);
    assert_eq!(rt; setting.tunables().len(), 1);
    assert_eq!(rt; setting.rules().len(), 1);
    drop(setting);
}
