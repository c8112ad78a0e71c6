//! Tests which options command lines select.

use crush_options::{MapForm, Options, OutputSpec, options};
use std::process::Abort;

fn assert_name(rt: &impl Abort, name: &Option<String>, expected: Option<&str>) {
    match (name, expected) {
        (Some(name), Some(expected)) => assert_eq!(rt; name.as_str(), expected),
        (None, None) => {}
        (Some(_), None) => panic!(rt; "a name"),
        (None, Some(_)) => panic!(rt; "no name"),
    }
}

fn parsed(rt: &(impl Abort + AllocGlobal), words: &[&str]) -> Options {
    let Ok(options) = options(rt.alloc(), words) else {
        panic!(rt; "the words are refused")
    };
    options
}

fn assert_parsed(
    rt: &(impl Abort + AllocGlobal),
    words: &[&str],
    in_turn: bool,
    history: bool,
    file: Option<&str>,
) {
    let options = parsed(rt, words);
    assert!(rt; options.mode.in_turn == in_turn);
    assert!(rt; options.mode.history == history);
    assert_name(rt, &options.file, file);
    drop(options);
}

#[test]
fn flags_and_a_file_are_read(rt: HostRuntime) {
    assert_parsed(&rt, &[], false, true, None);
    let words = &["--in-turn", "--no-history", "j.txt"];
    assert_parsed(&rt, words, true, false, Some("j.txt"));
    assert_parsed(&rt, &["j.txt", "--in-turn"], true, true, Some("j.txt"));
    let words = &["--no-history", "--", "--in-turn"];
    assert_parsed(&rt, words, false, false, Some("--in-turn"));
}

fn assert_output(rt: &impl Abort, output: &OutputSpec, is_dry: bool) {
    match output {
        OutputSpec::Since(since) => {
            assert!(rt; is_dry);
            assert_eq!(rt; since.map.as_str(), "m");
        }
        OutputSpec::Map => assert!(rt; !is_dry),
        _ => panic!(rt; "another output"),
    }
}

/// Asserts that a command line with the verb `apply` selects the options for which this verb is a
/// short form. `is_dry` says whether the command line has the option `--dry-run`, and `scripts` is
/// the number of its script files. The map's file must have the name `m`.
fn assert_applied(rt: &(impl Abort + AllocGlobal), words: &[&str], is_dry: bool, scripts: usize) {
    let options = parsed(rt, words);
    let mode = options.mode;
    assert!(rt; mode.in_turn);
    assert!(rt; mode.strict);
    assert!(rt; mode.no_make);
    assert!(rt; mode.explain);
    assert!(rt; mode.conflicts);
    assert!(rt; mode.exact != is_dry);
    assert!(rt; mode.history == is_dry);
    assert_output(rt, &options.output_spec, is_dry);
    assert!(rt; options.maps == MapForm::WholeMap);
    assert_eq!(rt; options.scripts.len(), scripts);
    assert_name(rt, &options.file, Some("m"));
    drop(options);
}

#[test]
fn verbs_are_short_for_plain_words(rt: HostRuntime) {
    assert_applied(&rt, &["apply", "m", "a", "b"], false, 2);
    assert_applied(&rt, &["apply", "m", "--dry-run"], true, 0);
    assert_applied(&rt, &["apply", "m", "a", "-o", "n", "b"], false, 2);
    assert_parsed(&rt, &["tree", "m"], false, false, Some("m"));
    assert_parsed(&rt, &["diff", "o", "n"], false, false, Some("n"));
    assert_parsed(&rt, &["plan", "m", "w"], false, false, Some("m"));
    assert_parsed(&rt, &["--", "apply"], false, true, Some("apply"));
    assert!(rt; options(rt.alloc(), &["apply", "-", "-"]).is_err());
    assert!(rt; options(rt.alloc(), &["apply", "--tree", "m"]).is_err());
}
