//! The words of a verb's command line, and the plain command line for which these words are short.
//! A plain command line is one that doesn't begin with a verb.

ghost use Rattle.std.specs.Prelude.{◌≡◌, ◌++◌, IfOk, OnOk, codes, map, nat_lt, option_map};
ghost use Rattle.std.specs.List.{count_by};
ghost use Rattle.clap.specs.Words.{found_of, rows_of};
ghost use Rattle.crush_options.specs.Options.{all_named, names_text};
ghost use Rattle.crush_options.specs.Verbs.{AreVerbWords, apply_complaint, dashes, dashes_of, file_words, is_dash, map_argument, other_argument, own_words, shown_words, shows_without_dry_run, since_of_apply, tree_words, verb_complaint, verb_data, word_if, word_with, words_of_verb};

use crate::command_line::is_set;
use crate::verbs::Verb;
use clap::ArgMatches;
use std::alloc::{AllocError, Global};

const TWO_DASHES: &str = "error: only one file can be -, which is standard input\n";

const DRY_OUTPUT: &str = "error: --output can't be used with --dry-run\n";

const WITHOUT_DRY_RUN: &str =
    "error: --tree, --json, --under, --down-to and --exit-code need --dry-run\n";

/// What the parser found on a verb's command line. A flag that the verb doesn't have is false, and
/// an option or an argument that the verb doesn't have has no value.
#[derive(Clone, Copy)]
pub(crate) struct VerbWords<'a> {
    pub(crate) dry_run: bool,
    pub(crate) make: bool,
    pub(crate) last_wins: bool,
    pub(crate) tree: bool,
    pub(crate) json: bool,
    pub(crate) by_name: bool,
    pub(crate) as_ceph: bool,
    pub(crate) strict: bool,
    pub(crate) exit_code: bool,
    pub(crate) under: Option<&'a str>,
    pub(crate) down_to: Option<&'a str>,
    pub(crate) class: Option<&'a str>,
    pub(crate) output: Option<&'a str>,
    /// The name of the file with the map with which the run begins: the argument MAP, or NEW of
    /// `diff`.
    pub(crate) map: Option<&'a str>,
    /// The name of the file with the other map: the argument OLD of `diff`, or WANTED of `plan`.
    pub(crate) other: Option<&'a str>,
    /// The names of the files with scripts: the arguments SCRIPT of `apply`.
    pub(crate) scripts: &'a [&'a str],
}

fn scripts_of<'a>(matches: &'a ArgMatches<'_>) -> &'a [&'a str]
    ensures { map (λ name. name.now) result.now
        ≡ all_named (codes "SCRIPT") (rows_of (found_of matches.now)) }
{
    matches.get_strs("SCRIPT").unwrap_or(&[])
}

fn map_argument(verb: Verb) -> &'static str
    ensures { result.now ≡ map_argument verb }
{
    match verb {
        Verb::Diff => "NEW",
        Verb::Apply | Verb::Plan | Verb::Tree => "MAP",
    }
}

fn other_argument(verb: Verb) -> &'static str
    ensures { result.now ≡ other_argument verb }
{
    match verb {
        Verb::Diff => "OLD",
        Verb::Apply | Verb::Plan | Verb::Tree => "WANTED",
    }
}

pub(crate) fn verb_words_of<'a>(verb: Verb, matches: &'a ArgMatches<'_>) -> VerbWords<'a>
    ensures { AreVerbWords verb (rows_of (found_of matches.now)) (verb_data result) }
{
    VerbWords {
        dry_run: is_set(matches, "dry-run"),
        make: is_set(matches, "make"),
        last_wins: is_set(matches, "last-wins"),
        tree: is_set(matches, "tree"),
        json: is_set(matches, "json"),
        by_name: is_set(matches, "by-name"),
        as_ceph: is_set(matches, "as-ceph"),
        strict: is_set(matches, "strict"),
        exit_code: is_set(matches, "exit-code"),
        under: matches.get_str("under"),
        down_to: matches.get_str("down-to"),
        class: matches.get_str("class"),
        output: matches.get_str("output"),
        map: matches.get_str(map_argument(verb)),
        other: matches.get_str(other_argument(verb)),
        scripts: scripts_of(matches),
    }
}

fn is_dash(name: &str) -> bool
    ensures { result ≡ is_dash name.now }
{
    name == "-"
}

fn dashes_of(name: Option<&str>) -> usize
    ensures { result ≡ dashes_of (option_map (λ name. name.now) name.entry) }
{
    match name {
        Some(name) if is_dash(name) => 1,
        _ => 0,
    }
}

fn dashes_among(names: &[&str]) -> usize
    ensures { result ≡ count_by is_dash (map (λ name. name.now) names.now) }
{
    let mut count = 0;
    for name in names {
        if is_dash(name) {
            count += 1;
        }
    }
    count
}

fn has_two_dashes(words: VerbWords<'_>) -> bool
    ensures { result ≡ nat_lt 1 (dashes (verb_data words.entry)) }
{
    let maps = dashes_of(words.map) + dashes_of(words.other);
    dashes_among(words.scripts).saturating_add(maps) > 1
}

fn shows_without_dry_run(words: VerbWords<'_>) -> bool
    ensures { result ≡ shows_without_dry_run (verb_data words.entry) }
{
    let flags = words.tree || words.json || words.exit_code;
    !words.dry_run && (flags || words.under.is_some() || words.down_to.is_some())
}

fn apply_complaint(words: VerbWords<'_>) -> Option<&'static str>
    ensures { option_map (λ text. text.now) result ≡ apply_complaint (verb_data words.entry) }
{
    if words.dry_run && words.output.is_some() {
        Some(DRY_OUTPUT)
    } else if shows_without_dry_run(words) {
        Some(WITHOUT_DRY_RUN)
    } else {
        None
    }
}

/// Returns the line of an error if some words of a verb's command line can't be given together, or
/// if one of them needs another word that isn't given. Returns `None` if there is no such error. No
/// verb accepts two files `-`, because `-` means standard input, and there is only one standard
/// input.
pub(crate) fn verb_complaint(verb: Verb, words: VerbWords<'_>) -> Option<&'static str>
    ensures { option_map (λ text. text.now) result
        ≡ verb_complaint verb (verb_data words.entry) }
{
    if has_two_dashes(words) {
        return Some(TWO_DASHES);
    }
    match verb {
        Verb::Apply => apply_complaint(words),
        Verb::Diff | Verb::Plan | Verb::Tree => None,
    }
}

fn push_if(
    alloc: Global,
    given: bool,
    word: &str,
    plain: &mut Vec<String>,
) -> Result<(), AllocError>
    ensures { OnOk result (names_text plain.new.items
        ≡ names_text plain.old.items ++ word_if given word.now) }
{
    if given {
        plain.push(String::from_str(alloc, word)?)?;
    }
    Ok(())
}

fn push_with(
    alloc: Global,
    start: &str,
    value: Option<&str>,
    plain: &mut Vec<String>,
) -> Result<(), AllocError>
    ensures { OnOk result (names_text plain.new.items ≡ names_text plain.old.items
        ++ word_with start.now (option_map (λ value. value.now) value.entry)) }
{
    let Some(value) = value else {
        return Ok(());
    };
    let mut word = String::from_str(alloc, start)?;
    word.push_str(value)?;
    plain.push(word)?;
    Ok(())
}

fn push_shown(
    alloc: Global,
    words: VerbWords<'_>,
    plain: &mut Vec<String>,
) -> Result<(), AllocError>
    ensures { OnOk result (names_text plain.new.items
        ≡ names_text plain.old.items ++ shown_words (verb_data words.entry)) }
{
    push_if(alloc, words.tree, "--tree", plain)?;
    push_if(alloc, words.json, "--json", plain)?;
    push_if(alloc, words.by_name, "--by-name", plain)?;
    push_if(alloc, words.as_ceph, "--as-ceph", plain)?;
    push_with(alloc, "--under=", words.under, plain)?;
    push_with(alloc, "--down-to=", words.down_to, plain)?;
    push_with(alloc, "--class=", words.class, plain)?;
    push_if(alloc, words.exit_code, "--exit-code", plain)
}

fn push_scripts(alloc: Global, scripts: &[&str], plain: &mut Vec<String>) -> Result<(), AllocError>
    ensures { OnOk result (names_text plain.new.items ≡ names_text plain.old.items
        ++ map (λ name. codes "--script=" ++ name.now) scripts.now) }
{
    for name in scripts {
        push_with(alloc, "--script=", Some(name), plain)?;
    }
    Ok(())
}

fn push_files(
    alloc: Global,
    words: VerbWords<'_>,
    plain: &mut Vec<String>,
) -> Result<(), AllocError>
    ensures { OnOk result (names_text plain.new.items
        ≡ names_text plain.old.items ++ file_words (verb_data words.entry)) }
{
    push_scripts(alloc, words.scripts, plain)?;
    push_with(alloc, "--output=", words.output, plain)?;
    push_if(alloc, true, "--", plain)?;
    push_with(alloc, "", words.map, plain)
}

/// Returns the name of the file of the old map, from which `apply` prints the changes to the map
/// after the scripts. With `--dry-run`, the old map is the map before the scripts, which is in the
/// file MAP. Without `--dry-run`, `apply` prints no changes, and the result is `None`.
fn since_of_apply<'a>(words: VerbWords<'a>) -> Option<&'a str>
    ensures { option_map (λ name. name.now) result ≡ since_of_apply (verb_data words.entry) }
{
    if words.dry_run { words.map } else { None }
}

fn push_of_apply(
    alloc: Global,
    words: VerbWords<'_>,
    plain: &mut Vec<String>,
) -> Result<(), AllocError>
    ensures { OnOk result (names_text plain.new.items
        ≡ names_text plain.old.items ++ own_words Verb.Apply (verb_data words.entry)) }
{
    push_if(alloc, true, "--in-turn", plain)?;
    push_if(alloc, true, "--strict", plain)?;
    push_if(alloc, !words.make, "--no-make", plain)?;
    push_if(alloc, !words.dry_run, "--no-history", plain)?;
    push_if(alloc, !words.dry_run, "--exact", plain)?;
    push_with(alloc, "--since=", since_of_apply(words), plain)
}

fn push_of_diff(
    alloc: Global,
    words: VerbWords<'_>,
    plain: &mut Vec<String>,
) -> Result<(), AllocError>
    ensures { OnOk result (names_text plain.new.items
        ≡ names_text plain.old.items ++ own_words Verb.Diff (verb_data words.entry)) }
{
    push_if(alloc, true, "--no-history", plain)?;
    push_with(alloc, "--since=", words.other, plain)
}

fn push_of_plan(
    alloc: Global,
    words: VerbWords<'_>,
    plain: &mut Vec<String>,
) -> Result<(), AllocError>
    ensures { OnOk result (names_text plain.new.items
        ≡ names_text plain.old.items ++ own_words Verb.Plan (verb_data words.entry)) }
{
    push_if(alloc, true, "--no-history", plain)?;
    push_if(alloc, words.strict, "--strict", plain)?;
    push_with(alloc, "--to=", words.other, plain)
}

fn push_of_tree(alloc: Global, plain: &mut Vec<String>) -> Result<(), AllocError>
    ensures { OnOk result (names_text plain.new.items
        ≡ names_text plain.old.items ++ tree_words) }
{
    push_if(alloc, true, "--no-history", plain)?;
    push_if(alloc, true, "--tree", plain)
}

fn push_own(
    alloc: Global,
    verb: Verb,
    words: VerbWords<'_>,
    plain: &mut Vec<String>,
) -> Result<(), AllocError>
    ensures { OnOk result (names_text plain.new.items
        ≡ names_text plain.old.items ++ own_words verb (verb_data words.entry)) }
{
    match verb {
        Verb::Apply => push_of_apply(alloc, words, plain),
        Verb::Diff => push_of_diff(alloc, words, plain),
        Verb::Plan => push_of_plan(alloc, words, plain),
        Verb::Tree => push_of_tree(alloc, plain),
    }
}

/// Returns the words of the plain command line for which a verb's command line is short. The words
/// don't include the program's name.
pub(crate) fn plain_words(
    alloc: Global,
    verb: Verb,
    words: VerbWords<'_>,
) -> Result<Vec<String>, AllocError>
    ensures { IfOk result (λ plain. names_text plain.items
        ≡ words_of_verb verb (verb_data words.entry)) }
{
    let mut plain = Vec::new(alloc);
    push_own(alloc, verb, words, &mut plain)?;
    push_if(alloc, true, "--explain", &mut plain)?;
    push_shown(alloc, words, &mut plain)?;
    push_files(alloc, words, &mut plain)?;
    Ok(plain)
}
