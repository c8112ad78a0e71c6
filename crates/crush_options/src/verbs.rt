//! The verbs: commands with safe defaults. Each command line with a verb is short for a plain
//! command line, which is one that doesn't begin with a verb.

ghost use Rattle.std.specs.Prelude.{◌≡◌, IfOk, IfErr, None, codes, false, map};
ghost use Rattle.clap.specs.Words.{app_of, rule_of};
ghost use Rattle.crush_options.specs.Options.{IsFaultIn};
ghost use Rattle.crush_options.specs.Verbs.{AreOptionsBy, AreOptionsOfVerb, AreShortFor, IsFaultBy, IsFaultOfVerb, IsShortFault, app_of_verb, apply, apply_flags, apply_shown, diff, diff_shown, has_conflicts, maps_of_verb, more_scripts, needed, plan, plan_shown, tree, verb_complaint, verb_data, verb_named, verb_of, verb_of_words, words_of_verb};

use crate::command_line::{fault_of, flag, option, output, plain_options, refused};
use crate::parsed_options::{MapForm, Options, OptionsFault};
use crate::verb_words::{VerbWords, plain_words, verb_complaint, verb_words_of};
use clap::{Arg, ArgAction, Command};
use std::alloc::{AllocError, Global};
use std::convert::AsStr;

/// A command with safe defaults. A command line has a verb if its first word is the name of a verb.
#[derive(Clone, Copy, Debug, PartialEq, Eq)]
pub(crate) enum Verb {
    /// `apply` prints the map after scripts or, with `--dry-run`, what the scripts would change.
    Apply,
    /// `diff` prints what has changed from one map to another map.
    Diff,
    /// `plan` prints the commands that lead from one map to another map.
    Plan,
    /// `tree` prints the tree of a map.
    Tree,
}

const APPLY_ABOUT: &str = "Prints the map after the commands of scripts, or nothing at all";

const DIFF_ABOUT: &str = "Prints what has changed from one map to another";

const PLAN_ABOUT: &str = "Prints the commands that lead from one map to another";

const TREE_ABOUT: &str = "Prints the tree of a map";

const APPLY_MORE: &str = "\
MAP is the text of a CRUSH map, as `crushtool -d` prints it. Each SCRIPT has one
command on each line, and `crushedit --help` lists the commands. The operator of
a script is named like its file, up to the first point, unless the script begins
with a line `%operator NAME`. The scripts run one after the other.

`apply` prints the new map, with exact weights. It prints nothing, and says why,
if a command is refused, if a command other than `add-bucket` would create a
bucket, if MAP doesn't end with `# end crush map`, or if a change of one
operator would be lost by the script of another.

With `--dry-run`, it prints what the scripts would change, and a line with the
reply to each command or batch.

Short for: crushedit --in-turn --strict --no-make --no-history --explain --exact
           -s SCRIPT .. MAP

Examples:
    crushedit apply --dry-run map.txt add.txt
    crushedit apply -o new.txt map.txt add.txt
";

const DIFF_MORE: &str = "\
OLD and NEW are texts of CRUSH maps, as `crushtool -d` prints them. Both have to
end with `# end crush map`.

Short for: crushedit --no-history --explain --since OLD NEW

Example:
    crushedit diff monday.txt friday.txt
";

const PLAN_MORE: &str = "\
MAP and WANTED are texts of CRUSH maps, as `crushtool -d` prints them. Both have
to end with `# end crush map`. The differences that no command removes follow
after the commands. With `--strict`, such a difference is an error (status 5).

Short for: crushedit --no-history --explain --to WANTED MAP

Example:
    crushedit plan --as-ceph map.txt wanted.txt
";

const TREE_MORE: &str = "\
MAP is the text of a CRUSH map, as `crushtool -d` prints it.

Short for: crushedit --no-history --explain --tree MAP

Example:
    crushedit tree --under rack1 map.txt
";

const TREE_HELP: &str = "Print a tree of what has changed";

const JSON_HELP: &str = "Print one JSON document, for programs";

const BY_NAME_HELP: &str = "Compare items by name alone";

const UNDER_HELP: &str = "Print only this item and what is below it";

const DOWN_TO_HELP: &str = "In a tree, print nothing below buckets of this type";

const CLASS_HELP: &str = "In a tree, count only the devices of this class";

const EXIT_CODE_HELP: &str = "Exit with status 6 if something changed or differs";

fn needed<'a>(alloc: Global, name: &'a str, help: &'a str) -> Arg<'a>
    ensures rule { rule_of result ≡ needed name.entry.now }
    ensures own { result.global ≡ false }
{
    Arg::new(alloc, name)
        .action(ArgAction::Set)
        .required(true)
        .help(help)
}

fn more_scripts<'a>(alloc: Global) -> Arg<'a>
    ensures rule { rule_of result ≡ more_scripts }
    ensures own { result.global ≡ false }
{
    Arg::new(alloc, "SCRIPT")
        .action(ArgAction::Append)
        .num_args(0..)
        .help("Files of scripts, which run in this order")
}

/// Returns the command line of a verb, before options and arguments are added to this command line.
/// The words that are parsed don't include the verb itself. `about` and `more` are the texts of the
/// help before and after the list of options.
fn new_verb<'a>(alloc: Global, name: &'a str, about: &'a str, more: &'a str) -> Command<'a>
    ensures { app_of result ≡ verb_of name.entry.now }
{
    Command::new(alloc, name)
        .no_binary_name(true)
        .about(about)
        .after_help(more)
}

fn apply_flags<'a>(alloc: Global) -> Result<Command<'a>, AllocError>
    ensures { IfOk result (λ command. app_of command ≡ apply_flags) }
{
    let dry_run = "Print what would change, in place of the new map";
    let make = "Allow commands to create the buckets of a location";
    let last_wins = "Allow a script to undo what another has changed";
    let tree = "With --dry-run: print a tree of what would change";
    new_verb(alloc, "crushedit apply", APPLY_ABOUT, APPLY_MORE)
        .arg(flag(alloc, "dry-run", dry_run))?
        .arg(flag(alloc, "make", make))?
        .arg(flag(alloc, "last-wins", last_wins))?
        .arg(flag(alloc, "tree", tree))
}

fn apply_shown<'a>(alloc: Global) -> Result<Command<'a>, AllocError>
    ensures { IfOk result (λ command. app_of command ≡ apply_shown) }
{
    let json = "With --dry-run: print one JSON document, for programs";
    let under = "With --dry-run: print only what is below this item";
    let down_to = "With --tree: print nothing below buckets of this type";
    let exit_code = "With --dry-run: exit with status 6 if the map changes";
    apply_flags(alloc)?
        .arg(flag(alloc, "json", json))?
        .arg(option(alloc, "under", "NAME", under))?
        .arg(option(alloc, "down-to", "TYPE", down_to))?
        .arg(flag(alloc, "exit-code", exit_code))
}

fn apply<'a>(alloc: Global) -> Result<Command<'a>, AllocError>
    ensures { IfOk result (λ command. app_of command ≡ apply) }
{
    apply_shown(alloc)?
        .arg(output(alloc))?
        .arg(needed(alloc, "MAP", "The map's text; - is standard input"))?
        .arg(more_scripts(alloc))
}

fn diff_shown<'a>(alloc: Global) -> Result<Command<'a>, AllocError>
    ensures { IfOk result (λ command. app_of command ≡ diff_shown) }
{
    new_verb(alloc, "crushedit diff", DIFF_ABOUT, DIFF_MORE)
        .arg(flag(alloc, "tree", TREE_HELP))?
        .arg(flag(alloc, "json", JSON_HELP))?
        .arg(flag(alloc, "by-name", BY_NAME_HELP))?
        .arg(option(alloc, "under", "NAME", UNDER_HELP))
}

fn diff<'a>(alloc: Global) -> Result<Command<'a>, AllocError>
    ensures { IfOk result (λ command. app_of command ≡ diff) }
{
    diff_shown(alloc)?
        .arg(option(alloc, "down-to", "TYPE", DOWN_TO_HELP))?
        .arg(option(alloc, "class", "CLASS", CLASS_HELP))?
        .arg(flag(alloc, "exit-code", EXIT_CODE_HELP))?
        .arg(output(alloc))?
        .arg(needed(alloc, "OLD", "The old map's text; - is standard input"))?
        .arg(needed(alloc, "NEW", "The new map's text; - is standard input"))
}

fn plan_shown<'a>(alloc: Global) -> Result<Command<'a>, AllocError>
    ensures { IfOk result (λ command. app_of command ≡ plan_shown) }
{
    let as_ceph = "Print the commands for a shell, as Ceph's own";
    let strict = "Print nothing if a difference remains (status 5)";
    new_verb(alloc, "crushedit plan", PLAN_ABOUT, PLAN_MORE)
        .arg(flag(alloc, "as-ceph", as_ceph))?
        .arg(flag(alloc, "strict", strict))?
        .arg(flag(alloc, "json", JSON_HELP))?
        .arg(flag(alloc, "by-name", BY_NAME_HELP))
}

fn plan<'a>(alloc: Global) -> Result<Command<'a>, AllocError>
    ensures { IfOk result (λ command. app_of command ≡ plan) }
{
    plan_shown(alloc)?
        .arg(option(alloc, "under", "NAME", UNDER_HELP))?
        .arg(flag(alloc, "exit-code", EXIT_CODE_HELP))?
        .arg(output(alloc))?
        .arg(needed(alloc, "MAP", "The map's text; - is standard input"))?
        .arg(needed(
            alloc,
            "WANTED",
            "The wanted map's text; - is standard input",
        ))
}

fn tree<'a>(alloc: Global) -> Result<Command<'a>, AllocError>
    ensures { IfOk result (λ command. app_of command ≡ tree) }
{
    new_verb(alloc, "crushedit tree", TREE_ABOUT, TREE_MORE)
        .arg(flag(alloc, "json", JSON_HELP))?
        .arg(option(alloc, "under", "NAME", UNDER_HELP))?
        .arg(option(alloc, "down-to", "TYPE", DOWN_TO_HELP))?
        .arg(option(alloc, "class", "CLASS", CLASS_HELP))?
        .arg(output(alloc))?
        .arg(needed(alloc, "MAP", "The map's text; - is standard input"))
}

fn command_of<'a>(alloc: Global, verb: Verb) -> Result<Command<'a>, AllocError>
    ensures { IfOk result (λ command. app_of command ≡ app_of_verb verb) }
{
    match verb {
        Verb::Apply => apply(alloc),
        Verb::Diff => diff(alloc),
        Verb::Plan => plan(alloc),
        Verb::Tree => tree(alloc),
    }
}

fn maps_of(verb: Verb) -> MapForm
    ensures { result ≡ maps_of_verb verb }
{
    match verb {
        Verb::Tree => MapForm::Map,
        Verb::Apply | Verb::Diff | Verb::Plan => MapForm::WholeMap,
    }
}

fn has_conflicts(verb: Verb, words: VerbWords<'_>) -> bool
    ensures { result ≡ has_conflicts verb (verb_data words.entry) }
{
    match verb {
        Verb::Apply => !words.last_wins,
        Verb::Diff | Verb::Plan | Verb::Tree => false,
    }
}

/// Returns the options of the plain command line for which a verb's command line is short, except
/// for two fields. The verb decides what the files must contain (`maps`). The verb and
/// `--last-wins` decide whether lost changes end the run (`conflicts`).
fn short_for(alloc: Global, verb: Verb, words: VerbWords<'_>) -> Result<Options, OptionsFault>
    ensures read { IfOk result (AreShortFor verb (verb_data words.entry)) }
    ensures fault { IfErr result (IsFaultIn (words_of_verb verb (verb_data words.entry))) }
{
    let plain = plain_words(alloc, verb, words)?;
    let mut options = plain_options(alloc, plain.as_slice())?;
    options.maps = maps_of(verb);
    options.mode.conflicts = has_conflicts(verb, words);
    Ok(options)
}

/// Fails if [`verb_complaint`] finds an error in the words of the verb. Otherwise returns what
/// [`short_for`] returns.
fn checked(alloc: Global, verb: Verb, words: VerbWords<'_>) -> Result<Options, OptionsFault>
    ensures together { IfOk result (λ _. verb_complaint verb (verb_data words.entry) ≡ None) }
    ensures read { IfOk result (AreShortFor verb (verb_data words.entry)) }
    ensures fault { IfErr result (IsShortFault (verb_complaint verb (verb_data words.entry))
        (words_of_verb verb (verb_data words.entry))) }
{
    match verb_complaint(verb, words) {
        Some(text) => Err(refused(alloc, text)),
        None => short_for(alloc, verb, words),
    }
}

fn options_of_verb<S: AsStr>(
    alloc: Global,
    verb: Verb,
    words: &[S],
) -> Result<Options, OptionsFault>
    ensures parsed { IfOk result (AreOptionsOfVerb verb (map S.text words.now)) }
    ensures fault { IfErr result (IsFaultOfVerb verb (map S.text words.now)) }
{
    let command = command_of(alloc, verb)?;
    match command.try_get_matches_from(words) {
        Ok(matches) => checked(alloc, verb, verb_words_of(verb, &matches)),
        Err(error) => Err(fault_of(alloc, &error)),
    }
}

fn verb_named(word: &str) -> Option<Verb>
    ensures { result ≡ verb_named word.now }
{
    if word == "apply" {
        Some(Verb::Apply)
    } else if word == "diff" {
        Some(Verb::Diff)
    } else if word == "plan" {
        Some(Verb::Plan)
    } else if word == "tree" {
        Some(Verb::Tree)
    } else {
        None
    }
}

fn verb_of_words<S: AsStr>(words: &[S]) -> Option<Verb>
    ensures { result ≡ verb_of_words (map S.text words.now) }
{
    match words {
        [first, ..] => verb_named(first.as_str()),
        [] => None,
    }
}

/// Parses the words of a command line, by the rules that the help shows. The words don't include
/// the program's name.
///
/// If the first word is `apply`, `diff`, `plan` or `tree`, it is a verb, and the other words are
/// the command line of this verb. A command line of a verb is short for a plain command line. The
/// result then has the options of that plain command line, except for two fields, which the verb
/// decides: `maps`, and `conflicts` of the mode. If the first word isn't a verb, or if there is no
/// word, all words are a plain command line. Options and file names may be mixed in any order. No
/// word is ignored: a word that is neither an option nor an argument of the command line is
/// refused.
///
/// Fails with [`OptionsFault::Help`] if a word asks for the help or, on a plain command line, for
/// the version. Fails with [`OptionsFault::Refused`] if the words aren't a valid command line: for
/// example, a word is wrong, an argument is missing, or some words can't be given together. Fails
/// with [`OptionsFault::Memory`] if memory runs out.
pub fn options<S: AsStr>(alloc: Global, words: &[S]) -> Result<Options, OptionsFault>
    ensures parsed { IfOk result (AreOptionsBy (verb_of_words (map S.text words.now)) (map S.text words.now)) }
    ensures fault { IfErr result (IsFaultBy (verb_of_words (map S.text words.now)) (map S.text words.now)) }
{
    match verb_of_words(words) {
        Some(verb) => options_of_verb(alloc, verb, &words[1..]),
        None => plain_options(alloc, words),
    }
}
