//! Tests the maps that verbs read. (A verb is the word `apply`, `diff`, `plan` or `tree` at the
//! beginning of a command line.) The tests check which texts are accepted, and what is written to
//! standard error about the other texts.

use super::scripts::Shelf;
use crate::maps::PLAIN;
use crate::texts::{assert_begins, assert_text};
use crush_input::{
    RunFault, SecondMap, SecondMapFault, VerbMap, VerbMapRefusal, check_verb_map, file_notes,
    may_precede_maps, read_verb_map, report_verb_map,
};
use crush_options::MapForm;
use std::io::ErrorKind;
use std::process::Abort;
use std::random::RandomSource;

const CUT_OLD: &[u8] =
    b"crushedit: old: cut\n  the text doesn't end with `# end crush map`: was it cut? If it is whole, add that line\n";

const CUT: &[u8] =
    b"crushedit: cut\n  the text doesn't end with `# end crush map`: was it cut? If it is whole, add that line\n";

/// The text of a map that was cut inside of the line of its second device.
const BEGUN: &[u8] = b"# begin crush map\n\n# devices\ndevice 0 osd.0\ndevice 1 osd.";

fn read(
    rt: &(impl AllocGlobal + RandomSource),
    maps: MapForm,
    map: VerbMap,
    bytes: &[u8],
) -> Result<Vec<u8>, VerbMapRefusal> {
    let files: &[(&str, &[u8])] = &[("m", bytes)];
    read_verb_map(rt, &Shelf { files }, maps, map, "m", "m")
}

fn assert_read(rt: &(impl Abort + AllocGlobal + RandomSource), maps: MapForm, bytes: &[u8]) {
    match read(rt, maps, VerbMap::First, bytes) {
        Ok(read) => assert_text(rt, read.as_slice(), bytes),
        Err(_) => panic!(rt; "the map is refused"),
    }
}

fn assert_told(
    rt: &(impl Abort + AllocGlobal + RandomSource),
    map: VerbMap,
    bytes: &[u8],
    told: &[u8],
    status: u8,
) {
    let Err(refusal) = read(rt, MapForm::WholeMap, map, bytes) else {
        panic!(rt; "the map is read")
    };
    let mut err = Vec::new(rt.alloc());
    let outcome = report_verb_map(&refusal, &mut err);
    drop(refusal);
    assert_eq!(rt; outcome.status, status);
    assert!(rt; outcome.written.is_ok());
    assert_text(rt, err.as_slice(), told);
}

#[test]
fn whole_maps_are_read(rt: HostRuntime) {
    assert_read(&rt, MapForm::WholeMap, PLAIN);
    assert_read(&rt, MapForm::WholeMap, b"# end crush map");
    assert_read(&rt, MapForm::WholeMap, b"# end crush map \t\r\n\n  \n");
    assert_read(&rt, MapForm::Map, BEGUN);
    assert_read(&rt, MapForm::Map, b"");
}

#[test]
fn maps_that_may_be_cut_are_told(rt: HostRuntime) {
    assert_told(&rt, VerbMap::First, b"", CUT, 1);
    assert_told(&rt, VerbMap::Old, BEGUN, CUT_OLD, 1);
    assert_told(&rt, VerbMap::First, b"# end crush map\n# more\n", CUT, 1);
    let quoted = b"tunable a 1\n ## end crush map\n";
    assert_told(&rt, VerbMap::First, quoted, CUT, 1);
    assert_told(&rt, VerbMap::First, b"tunable a 1\ntunable b", CUT, 1);
}

#[test]
fn flaws_are_told_by_the_check(rt: HostRuntime) {
    let text = b"hots a {\n# end crush map\n";
    let checked = check_verb_map(&rt, MapForm::WholeMap, VerbMap::Old, "m", text);
    let Err(refusal) = checked else {
        panic!(rt; "the map is accepted")
    };
    let mut err = Vec::new(rt.alloc());
    let status = report_verb_map(&refusal, &mut err).status;
    drop(refusal);
    let flaw = b"crushedit: old: byte 0: UnknownType\n  m line 1, column 1\n";
    assert_read(&rt, MapForm::WholeMap, text);
    assert!(rt; check_verb_map(&rt, MapForm::WholeMap, VerbMap::First, "m", PLAIN).is_ok());
    assert_eq!(rt; status, 1);
    assert_begins(&rt, err.as_slice(), flaw);
}

#[test]
fn faults_that_may_precede_the_maps_are_known(rt: HostRuntime) {
    let long = RunFault::SecondMap(SecondMap::To, SecondMapFault::TooLong);
    assert!(rt; may_precede_maps(RunFault::Read));
    assert!(rt; may_precede_maps(RunFault::Memory));
    assert!(rt; may_precede_maps(long));
    assert!(rt; !may_precede_maps(RunFault::Write));
    assert!(rt; !may_precede_maps(RunFault::Refused(1)));
}

#[test]
fn flaws_and_scripts_are_told(rt: HostRuntime) {
    let script =
        b"crushedit: to: byte 16: BadWord\n  m line 2, column 1\n    %operator a\n    ^\n  scripts are files of their own here: crushedit apply MAP SCRIPT\n";
    let Err(refusal) = read(&rt, MapForm::WholeMap, VerbMap::First, b"hots a {\n") else {
        panic!(rt; "the map is read")
    };
    let mut err = Vec::new(rt.alloc());
    let status = report_verb_map(&refusal, &mut err).status;
    drop(refusal);
    let text = b"# end crush map\n%operator a\n";
    assert_told(&rt, VerbMap::Wanted, text, script, 1);
    assert_eq!(rt; status, 1);
    let flaw = b"crushedit: byte 0: UnknownType\n  m line 1, column 1\n";
    assert_begins(&rt, err.as_slice(), flaw);
}

#[test]
fn files_that_fail_are_noted(rt: HostRuntime) {
    let error = ErrorKind::NotFound.into();
    let (noted, quiet) = (
        file_notes(rt.alloc(), true, "m", &error),
        file_notes(rt.alloc(), false, "m", &error),
    );
    let noted = noted.expect(&rt, "no memory");
    let quiet = quiet.expect(&rt, "no memory");
    let files: &[(&str, &[u8])] = &[];
    let read = read_verb_map(&rt, &Shelf { files }, MapForm::Map, VerbMap::Old, "m", "m");
    let Err(refusal) = read else {
        panic!(rt; "the file is read")
    };
    let mut err = Vec::new(rt.alloc());
    let status = report_verb_map(&refusal, &mut err).status;
    drop(refusal);
    assert_begins(&rt, noted.as_slice(), b"  m: ");
    assert_text(&rt, quiet.as_slice(), b"");
    assert_eq!(rt; status, 3);
    let fault = b"crushedit: old: read fault\n  m: ";
    assert_begins(&rt, err.as_slice(), fault);
}
