//! Parses a plain command line with `clap`, and defines the text of the help. A plain command line
//! is one that doesn't begin with a verb, that is, with one of the words `apply`, `diff`, `plan`
//! and `tree`.

ghost use Rattle.std.specs.Prelude.{◌≡◌, ◌≤◌, IfErr, IfOk, None, Some, codes, false, length, map, option_map, true};
ghost use Rattle.clap.specs.declared.error.kind.ErrorKind.{ErrorKind};
ghost use Rattle.clap.specs.Words.{all_of, app_of, fault_of, first_of, found_of, kind_of, one_of, rows_of, rule_of, with_rule};
ghost use Rattle.crush_options.specs.Options.{AreRead, IsConflictFault, AreOptionsOf, IsFaultIn, IsFaultOf, IsModeOf, IsRefusedFor, IsRefusedIf, all_named, file, flag, names_text, option, output, program, scripts, with_ends, with_modes, with_parts, with_output_flags};
ghost use Rattle.crush_options.specs.OutputFlags.{AreOutputFlags, IsFlag, ask_for_tree_of_names, ask_for_two, complaint, exact_of_other, have_class_alone, have_names_alone, have_part_alone, have_type_alone, name_text, flags_by, flags_data};

use crate::parsed_options::{
    ChangeTree, MapForm, Mode, Options, OptionsFault, OutputSpec, Since, Target, TreePartSpec,
};
use clap::error::ErrorKind;
use clap::{Arg, ArgAction, ArgMatches, Command, Error};
use std::alloc::{AllocError, Global};
use std::convert::AsStr;

/// The part of the help before the usage line of the plain command line: the sentence that says
/// what the program does, the verbs and examples. `tools/manual.py` makes the manual page from the
/// help.
const ABOUT: &str = "\
Edits the hierarchy of a Ceph CRUSH map offline, by commands of ceph osd crush

Verbs:
    apply MAP SCRIPT ..   applies scripts to a map, and prints the new map
    diff OLD NEW          prints what has changed from one map to another
    plan MAP WANTED       prints the commands that lead from one map to another
    tree MAP              prints the tree of a map

A verb is the first word of its command line. Each verb has safe defaults: for
example, `apply` prints nothing if a command is refused. MAP, OLD, NEW and
WANTED are files with the text of a map, as `crushtool -d` prints it. A SCRIPT
is a file with one command on each line, such as `reweight osd.2 1.0`. The
section `Commands` lists the commands. `crushedit VERB --help` explains a verb
and its options.

Examples:
    # prints what the commands in the file add.txt change
    crushedit apply --dry-run map.txt add.txt
    # writes the map after these commands to the file new.txt
    crushedit apply -o new.txt map.txt add.txt
    # prints the commands that lead from one map to another
    crushedit plan map.txt wanted.txt

A command line without a verb is for programs, and for tasks that no verb does:";

/// The version of the program. The text in brackets is the *logic* of the Rattle toolchain that
/// checked the proofs. The logic is the version of the prover's rules. `rt version` prints the
/// logic too.
const VERSION: &str = "0.2.0 (rattle logic dac8208d650f15bf)";

/// The part of the help after the list of options. The lines of the help have at most 80 columns.
/// In the list of options, this leaves 55 columns for the text about an option.
const MORE: &str = "\
The input of a command line without a verb is a job. A job is the text of a
CRUSH map, as `crushtool -d` prints it, followed by the scripts of up to 16
operators. A script begins with a line `%operator NAME`, and has one command on
each line. The line `%operator NAME` is needed for one operator, too. `#` begins
a comment.

    .. the map's text ..
    %operator alice
    add osd.12 1.8 host=node3 rack=r2 root=default
    reweight osd.2 1.0

The scripts of several operators run at the same time. With `--in-turn` they run
one after the other, in the order of the job, so that the output is the same
each time.

A FILE `-` is a file of that name. If a FILE has the name of a verb, write its
folder too: `./apply`.

`-s` appends a script that is in a file of its own. If the script doesn't begin
with a line `%operator NAME`, its operator is named like the file, up to the
first point.

Every run that makes a map should have the options `--in-turn`, `--strict`,
`--no-make` and `--explain`. The verb `apply` has them all.

Commands, those of `ceph osd crush`:
    add osd.N WEIGHT PAIR ..             adds a device that no bucket holds
    set osd.N WEIGHT PAIR ..             puts a device there with this weight
    create-or-move osd.N WEIGHT PAIR ..  as set; a placed one keeps its weight
    move NAME PAIR ..                    moves an item, and all that is below it
    swap-bucket NAME NAME                swaps two buckets' names and items
    reweight NAME WEIGHT                 sets the weight of a device
    reweight-subtree NAME WEIGHT         sets the weight of devices below NAME
    rm NAME, remove NAME                 removes a device, or an empty bucket
    add-bucket NAME TYPE                 creates an empty bucket, as a root
    rename-bucket NAME NAME              gives a bucket another name
    set-device-class CLASS NAME          gives a class to a device without one
    rm-device-class NAME                 takes away the class of a device
    begin, commit                        applies all commands between, or none
    begin at N                           as begin, if N calls changed the map

The word `osd.N` is the device whose id is N. WEIGHT is in TiB, from 0 to
32767.99998. A PAIR is TYPE=BUCKET, and a location consists of up to 16 pairs.
The item is put into the bucket of the lowest type. If the map doesn't have this
bucket, it is created in the bucket of the next higher type, and so on, up to
the first bucket that the map has. The pairs above that bucket have no effect,
but they have to name types of the map. A device is placed if a bucket holds it.
A call is a command outside of batches, or a batch. A batch consists of the
commands between `begin` and `commit`.

Output:
A run without a verb prints the map after the scripts. After the map, it prints
a comment line for each call, with the reply to the call, in the order in which
the calls were made:

    # 1 alice reweight osd.2 1.00000 = done changed 1 made 0
    # 2 alice reweight h2 1.00000 = refused NotADevice 22

`changed` counts the commands that changed the map, and `made` the buckets that
were created. ` = refused ` marks a call that changed nothing. The name of the
reason follows, and an error number of Linux. The next call is tried all the
same.

In place of the map, `--tree` prints its tree. `--since MAP` prints what has
changed since the map in the file MAP. `--as-ceph` prints commands for a shell,
which make the same changes in a cluster. `--to MAP` prints the commands that
lead to the map in the file MAP. It also prints the differences that remain
then, because no command removes them. At most one of the four may be given,
except for two pairs: `--tree` with `--since` prints a tree of what has changed,
and `--to` with `--as-ceph` prints its commands for a shell.

`--since` compares items by their ids, and `--to` does so first. For the maps of
two clusters `--by-name` compares them by their names alone. `--by-name` can't
be given with both `--tree` and `--since`.

With `--tree`, `--since` or `--to`, `--under NAME` prints only what concerns the
item NAME and the items below it. With `--tree`, `--down-to TYPE` prints nothing
below buckets of this type, and `--class CLASS` counts only the devices of this
class.

`--json` prints one JSON document in place of everything else. It can't be given
with `--as-ceph` or `--class`. With `--since`, it can't be given with
`--by-name` or `--down-to` either.

`-o FILE` replaces FILE by the output when the run is done. At each moment FILE
has its old bytes or all the new ones, even if the program is killed. If the
status isn't 0 or 6, FILE stays as it is. `-o -` is standard output.

`--exact` prints the weights of the map's text with six digits after the point,
so that `crushtool -c` and this program read the same weights. It can be given
only if the text of the map is printed.

With `--exit-code` the status is 6 in place of 0 if a command changed the map.
If `--since` is also given, the status is 6 if an item or a setting is reported.
If `--to` is also given, it is 6 if a command or a difference is reported.

Standard error:
    crushedit: cut           a verb's map doesn't end with `# end crush map`
    crushedit: adjusted N    N written weights were replaced by the sums
    crushedit: refused N     with --strict: N calls were refused
    crushedit: made N        with --no-make: N calls created buckets unasked
    crushedit: conflicts N   apply: another script undid changes of N items
    crushedit: differs N     with --strict and --to: N differences remain
    crushedit: no item NAME  --under: the map has no such item
    crushedit: no type TYPE  --down-to: the map has no such type
    crushedit: no class NAME  --class: no device of the map has this class

The comment lines of these N calls follow after `refused N` and after `made N`.
A line for each item follows after `conflicts N`, and a line for each difference
after `differs N`.

With a verb, with `--explain`, or if standard error is a terminal, more lines
follow. They say where an error in the input is, and what is expected there. For
each refused call, they have the comment line of the call, and the reason.

Exit status:
    0    the job was run; without --strict, commands may have been refused
    1    the job, MAP, NAME, TYPE or CLASS is invalid; nothing was printed
    2    the command line is refused
    3    a file can't be opened, or a read or a write failed
    4    out of memory, or a thread couldn't be started; nothing was printed
    5    --strict, --no-make or lost changes ended the run; nothing was printed
    6    with --exit-code: something changed or differs

Examples without a verb:
    # prints the map after the scripts of a job, and the replies
    crushedit --in-turn --strict --no-make --explain job.txt
    # prints commands for a shell, which make the same changes in a cluster
    crushedit --in-turn --strict --no-make --explain --as-ceph job.txt
";

const TWO_PRINTED: &str =
    "error: use only one of --tree, --since, --as-ceph and --to, or --tree with --since, or --to with --as-ceph\n";

const TREE_OF_NAMES: &str = "error: --tree with --since can't be used with --by-name\n";

const NAMES_ALONE: &str = "error: --by-name needs --since or --to\n";

const PART_ALONE: &str = "error: --under needs --tree, --since or --to\n";

const TYPE_ALONE: &str = "error: --down-to needs --tree\n";

const CLASS_ALONE: &str = "error: --class needs --tree\n";

const JSON_CLASS: &str = "error: --json can't be used with --class\n";

const JSON_LINES: &str = "error: --json can't be used with --as-ceph\n";

const JSON_NAMES: &str = "error: --json with --since can't be used with --by-name\n";

const JSON_LEVELS: &str = "error: --json with --since can't be used with --down-to\n";

const EXACT_OTHER: &str = "error: --exact can be used only when the text of the map is printed\n";

/// A text about the verbs. [`with_verbs`] appends this text to the error for a second file on a
/// plain command line.
const VERBS: &str = "
Commands that take several files:
    crushedit apply MAP SCRIPT ..    the map after scripts
    crushedit diff OLD NEW           what has changed from one map to another
    crushedit plan MAP WANTED        the commands that lead from one map to another
    crushedit tree MAP               the tree of a map
";

/// The largest number of files with scripts on one command line. A job may have at most as many
/// operators.
const MOST_SCRIPTS: usize = 16;

const MANY_SCRIPTS: &str = "error: --script can be used at most 16 times\n";

/// Returns the flag `--NAME`, which has no value. `help` is the flag's text in the help.
pub(crate) fn flag<'a>(alloc: Global, name: &'a str, help: &'a str) -> Arg<'a>
    ensures rule { rule_of result ≡ flag name.entry.now }
    ensures own { result.global ≡ false }
{
    Arg::new(alloc, name)
        .long(name)
        .action(ArgAction::SetTrue)
        .help(help)
}

/// Returns the option `--NAME VALUE`, which can be given at most once. `value` is the name of the
/// value in the help, and `help` is the option's text in the help.
pub(crate) fn option<'a>(alloc: Global, name: &'a str, value: &'a str, help: &'a str) -> Arg<'a>
    ensures rule { rule_of result ≡ option name.entry.now }
    ensures own { result.global ≡ false }
{
    Arg::new(alloc, name)
        .long(name)
        .action(ArgAction::Set)
        .value_name(value)
        .help(help)
}

fn scripts<'a>(alloc: Global) -> Arg<'a>
    ensures rule { rule_of result ≡ scripts }
    ensures own { result.global ≡ false }
{
    Arg::new(alloc, "script")
        .short('s')
        .long("script")
        .action(ArgAction::Append)
        .value_name("SCRIPT")
        .help("Append the script in this file; up to 16 times")
}

/// Returns the option `-o FILE` or `--output FILE`, which can be given at most once.
pub(crate) fn output<'a>(alloc: Global) -> Arg<'a>
    ensures rule { rule_of result ≡ output }
    ensures own { result.global ≡ false }
{
    Arg::new(alloc, "output")
        .short('o')
        .long("output")
        .action(ArgAction::Set)
        .value_name("FILE")
        .help("Replace this file by the output, if all goes well")
}

fn file<'a>(alloc: Global) -> Arg<'a>
    ensures rule { rule_of result ≡ file }
    ensures own { result.global ≡ false }
{
    Arg::new(alloc, "FILE")
        .action(ArgAction::Set)
        .help("The job; without FILE it is read from standard input")
}

fn with_modes<'a>(alloc: Global) -> Result<Command<'a>, AllocError>
    ensures { IfOk result (λ command. app_of command ≡ with_modes) }
{
    let in_turn = "Run the scripts one after the other, in the job's order";
    let no_history = "Leave out the lines with the replies to the commands";
    let strict = "Print nothing if a command is refused (status 5)";
    let no_make = "Print nothing if a location makes a bucket (status 5)";
    Command::new(alloc, "crushedit")
        .no_binary_name(true)
        .version(VERSION)
        .about(ABOUT)
        .after_help(MORE)
        .arg(flag(alloc, "in-turn", in_turn))?
        .arg(flag(alloc, "no-history", no_history))?
        .arg(flag(alloc, "strict", strict))?
        .arg(flag(alloc, "no-make", no_make))
}

fn with_output_flags<'a>(alloc: Global) -> Result<Command<'a>, AllocError>
    ensures { IfOk result (λ command. app_of command ≡ with_output_flags) }
{
    let tree = "Print the tree of the map, in place of its text";
    let since = "Print what has changed since the map in this file";
    let as_ceph = "Print ceph commands that make the same changes";
    let to = "Print commands that lead to the map in this file";
    with_modes(alloc)?
        .arg(flag(alloc, "tree", tree))?
        .arg(option(alloc, "since", "MAP", since))?
        .arg(flag(alloc, "as-ceph", as_ceph))?
        .arg(option(alloc, "to", "MAP", to))
}

fn with_parts<'a>(alloc: Global) -> Result<Command<'a>, AllocError>
    ensures { IfOk result (λ command. app_of command ≡ with_parts) }
{
    let by_name = "With --since or --to: compare items by name alone";
    let json = "Print one JSON document, for programs";
    let under = "Print only this item and what is below it";
    let down_to = "With --tree: print nothing below buckets of this type";
    with_output_flags(alloc)?
        .arg(flag(alloc, "by-name", by_name))?
        .arg(flag(alloc, "json", json))?
        .arg(option(alloc, "under", "NAME", under))?
        .arg(option(alloc, "down-to", "TYPE", down_to))
}

fn with_ends<'a>(alloc: Global) -> Result<Command<'a>, AllocError>
    ensures { IfOk result (λ command. app_of command ≡ with_ends) }
{
    let class = "With --tree: count only the devices of this class";
    let exact = "Print the map's weights with the six digits they need";
    let exit_code = "Exit with status 6 if something changed or differs";
    let explain = "Say on standard error where an error is, and why";
    with_parts(alloc)?
        .arg(option(alloc, "class", "CLASS", class))?
        .arg(flag(alloc, "exact", exact))?
        .arg(flag(alloc, "exit-code", exit_code))?
        .arg(flag(alloc, "explain", explain))
}

fn command<'a>(alloc: Global) -> Result<Command<'a>, AllocError>
    ensures { IfOk result (λ command. app_of command ≡ program) }
{
    with_ends(alloc)?
        .arg(scripts(alloc))?
        .arg(output(alloc))?
        .arg(file(alloc))
}

pub(crate) fn is_set(matches: &ArgMatches<'_>, name: &str) -> bool
    ensures { IsFlag (one_of name.now (rows_of (found_of matches.now))) result }
{
    matches.get_flag(name)
}

pub(crate) fn refused(alloc: Global, text: &str) -> OptionsFault
    ensures { IsRefusedFor text.now result }
{
    match String::from_str(alloc, text) {
        Ok(text) => OptionsFault::Refused(text),
        Err(error) => error.into(),
    }
}

/// The flags and options of a plain command line that say what is printed. A field of type `bool`
/// says whether the flag of the same name is given: for example, `as_ceph` says whether `--as-ceph`
/// is given. Any other field has the value of the option of the same name, or is `None` if the
/// option isn't given.
#[derive(Clone, Copy)]
struct OutputFlags<'a> {
    tree: bool,
    since: Option<&'a str>,
    as_ceph: bool,
    to: Option<&'a str>,
    by_name: bool,
    json: bool,
    under: Option<&'a str>,
    down_to: Option<&'a str>,
    class: Option<&'a str>,
    exact: bool,
}

fn output_flags_of<'a>(matches: &'a ArgMatches<'_>) -> OutputFlags<'a>
    ensures { AreOutputFlags (rows_of (found_of matches.now)) (flags_data result) }
{
    OutputFlags {
        tree: is_set(matches, "tree"),
        since: matches.get_str("since"),
        as_ceph: is_set(matches, "as-ceph"),
        to: matches.get_str("to"),
        by_name: is_set(matches, "by-name"),
        json: is_set(matches, "json"),
        under: matches.get_str("under"),
        down_to: matches.get_str("down-to"),
        class: matches.get_str("class"),
        exact: is_set(matches, "exact"),
    }
}

fn ask_for_two(flags: OutputFlags<'_>) -> bool
    ensures { result ≡ ask_for_two (flags_data flags.entry) }
{
    (flags.tree || flags.since.is_some()) && (flags.as_ceph || flags.to.is_some())
}

fn ask_for_tree_of_names(flags: OutputFlags<'_>) -> bool
    ensures { result ≡ ask_for_tree_of_names (flags_data flags.entry) }
{
    flags.tree && flags.since.is_some() && flags.by_name
}

fn have_names_alone(flags: OutputFlags<'_>) -> bool
    ensures { result ≡ have_names_alone (flags_data flags.entry) }
{
    flags.by_name && flags.since.is_none() && flags.to.is_none()
}

fn have_part_alone(flags: OutputFlags<'_>) -> bool
    ensures { result ≡ have_part_alone (flags_data flags.entry) }
{
    flags.under.is_some() && !flags.tree && flags.since.is_none() && flags.to.is_none()
}

fn have_type_alone(flags: OutputFlags<'_>) -> bool
    ensures { result ≡ have_type_alone (flags_data flags.entry) }
{
    flags.down_to.is_some() && !flags.tree
}

fn have_class_alone(flags: OutputFlags<'_>) -> bool
    ensures { result ≡ have_class_alone (flags_data flags.entry) }
{
    flags.class.is_some() && !flags.tree
}

fn exact_of_other(flags: OutputFlags<'_>) -> bool
    ensures { result ≡ exact_of_other (flags_data flags.entry) }
{
    let other = flags.tree || flags.since.is_some() || flags.as_ceph || flags.to.is_some();
    flags.exact && (other || flags.json)
}

/// Returns the line of an error if some of these flags and options can't be given together, or if
/// one of them needs another flag or option that isn't given. If there are several such errors,
/// returns the line of the error for which the code below tests first. Returns `None` if there is
/// no such error.
fn complaint(flags: OutputFlags<'_>) -> Option<&'static str>
    ensures { option_map (λ text. text.now) result ≡ complaint (flags_data flags.entry) }
{
    if ask_for_two(flags) {
        Some(TWO_PRINTED)
    } else if ask_for_tree_of_names(flags) {
        Some(TREE_OF_NAMES)
    } else if have_names_alone(flags) {
        Some(NAMES_ALONE)
    } else if have_part_alone(flags) {
        Some(PART_ALONE)
    } else if have_type_alone(flags) {
        Some(TYPE_ALONE)
    } else if have_class_alone(flags) {
        Some(CLASS_ALONE)
    } else if flags.json && flags.class.is_some() {
        Some(JSON_CLASS)
    } else if flags.json && flags.as_ceph {
        Some(JSON_LINES)
    } else if flags.json && flags.since.is_some() && flags.by_name {
        Some(JSON_NAMES)
    } else if flags.json && flags.since.is_some() && flags.down_to.is_some() {
        Some(JSON_LEVELS)
    } else if exact_of_other(flags) {
        Some(EXACT_OTHER)
    } else {
        None
    }
}

fn copy_of(alloc: Global, name: Option<&str>) -> Result<Option<String>, AllocError>
    ensures { IfOk result (λ copy. name_text copy ≡ option_map (λ name. name.now) name.entry) }
{
    match name {
        Some(name) => Ok(Some(String::from_str(alloc, name)?)),
        None => Ok(None),
    }
}

/// Returns the part of a tree that the options `--under`, `--down-to` and `--class` select.
fn part_by(alloc: Global, flags: OutputFlags<'_>) -> Result<TreePartSpec, AllocError>
    ensures under { IfOk result (λ part. name_text part.under ≡ (flags_data flags.entry).under) }
    ensures down_to { IfOk result (λ part. name_text part.down_to
        ≡ (flags_data flags.entry).down_to) }
    ensures class { IfOk result (λ part. name_text part.class ≡ (flags_data flags.entry).class) }
{
    let under = copy_of(alloc, flags.under)?;
    let down_to = copy_of(alloc, flags.down_to)?;
    let class = copy_of(alloc, flags.class)?;
    Ok(TreePartSpec {
        under,
        down_to,
        class,
    })
}

fn tree_by(alloc: Global, flags: OutputFlags<'_>) -> Result<OutputSpec, AllocError>
    requires together { complaint (flags_data flags) ≡ None }
    requires alone { (flags.to ≡ None) × (flags.since ≡ None) × (flags.tree ≡ true) }
    ensures { IfOk result (λ output_spec. flags_by flags.entry.json flags.entry.exact output_spec ≡ flags_data flags.entry) }
{
    let part = part_by(alloc, flags)?;
    Ok(OutputSpec::Tree(part))
}

fn changes_by(alloc: Global, flags: OutputFlags<'_>, name: &str) -> Result<OutputSpec, AllocError>
    requires together { complaint (flags_data flags) ≡ None }
    requires alone { (flags.to ≡ None) × (flags.since ≡ Some name) × (flags.tree ≡ true) }
    ensures { IfOk result (λ output_spec. flags_by flags.entry.json flags.entry.exact output_spec ≡ flags_data flags.entry) }
{
    let map = String::from_str(alloc, name)?;
    let part = part_by(alloc, flags)?;
    Ok(OutputSpec::Changes(ChangeTree { map, part }))
}

fn since_by(alloc: Global, flags: OutputFlags<'_>, name: &str) -> Result<OutputSpec, AllocError>
    requires together { complaint (flags_data flags) ≡ None }
    requires alone { (flags.to ≡ None) × (flags.since ≡ Some name) × (flags.tree ≡ false) }
    ensures { IfOk result (λ output_spec. flags_by flags.entry.json flags.entry.exact output_spec ≡ flags_data flags.entry) }
{
    let map = String::from_str(alloc, name)?;
    let under = copy_of(alloc, flags.under)?;
    Ok(OutputSpec::Since(Since {
        map,
        by_name: flags.by_name,
        under,
    }))
}

fn target_by(alloc: Global, flags: OutputFlags<'_>, name: &str) -> Result<OutputSpec, AllocError>
    requires together { complaint (flags_data flags) ≡ None }
    requires target { flags.to ≡ Some name }
    ensures { IfOk result (λ output_spec. flags_by flags.entry.json flags.entry.exact output_spec ≡ flags_data flags.entry) }
{
    let map = String::from_str(alloc, name)?;
    let under = copy_of(alloc, flags.under)?;
    Ok(OutputSpec::To(Target {
        map,
        as_ceph: flags.as_ceph,
        by_name: flags.by_name,
        under,
    }))
}

fn output_spec_by(alloc: Global, flags: OutputFlags<'_>) -> Result<OutputSpec, AllocError>
    requires { complaint (flags_data flags) ≡ None }
    ensures { IfOk result (λ output_spec. flags_by flags.entry.json flags.entry.exact output_spec ≡ flags_data flags.entry) }
{
    match (flags.to, flags.since) {
        (Some(name), _) => target_by(alloc, flags, name),
        (None, Some(name)) if flags.tree => changes_by(alloc, flags, name),
        (None, Some(name)) => since_by(alloc, flags, name),
        (None, None) if flags.tree => tree_by(alloc, flags),
        (None, None) if flags.as_ceph => Ok(OutputSpec::AsCeph),
        (None, None) => Ok(OutputSpec::Map),
    }
}

fn checked_output_spec(alloc: Global, flags: OutputFlags<'_>) -> Result<OutputSpec, OptionsFault>
    ensures parsed { IfOk result (λ output_spec. flags_by flags.entry.json flags.entry.exact output_spec ≡ flags_data flags.entry) }
    ensures together { IfOk result (λ _. complaint (flags_data flags.entry) ≡ None) }
    ensures fault { IfErr result (IsRefusedIf (complaint (flags_data flags.entry))) }
{
    match complaint(flags) {
        Some(text) => Err(refused(alloc, text)),
        None => Ok(output_spec_by(alloc, flags)?),
    }
}

fn copies(alloc: Global, names: &[&str]) -> Result<Vec<String>, AllocError>
    ensures { IfOk result (λ copies. names_text copies.items ≡ map (λ name. name.now) names.now) }
{
    let mut copies = Vec::new(alloc);
    for name in names {
        let copy = String::from_str(alloc, name)?;
        copies.push(copy)?;
    }
    Ok(copies)
}

fn scripts_of(alloc: Global, matches: &ArgMatches<'_>) -> Result<Vec<String>, OptionsFault>
    ensures parsed { IfOk result (λ scripts. names_text scripts.items
        ≡ all_named (codes "script") (rows_of (found_of matches.now))) }
    ensures few { IfOk result (λ scripts. length scripts.items ≤ MOST_SCRIPTS) }
    ensures fault { IfErr result (IsConflictFault (rows_of (found_of matches.now))) }
{
    match matches.get_strs("script") {
        None => Ok(Vec::new(alloc)),
        Some(names) if names.len() > MOST_SCRIPTS => Err(refused(alloc, MANY_SCRIPTS)),
        Some(names) => Ok(copies(alloc, names)?),
    }
}

fn file_of(alloc: Global, matches: &ArgMatches<'_>) -> Result<Option<String>, AllocError>
    ensures { IfOk result (λ file. name_text file
        ≡ first_of (codes "FILE") (rows_of (found_of matches.now))) }
{
    copy_of(alloc, matches.get_str("FILE"))
}

fn output_of(alloc: Global, matches: &ArgMatches<'_>) -> Result<Option<String>, AllocError>
    ensures { IfOk result (λ output. name_text output
        ≡ first_of (codes "output") (rows_of (found_of matches.now))) }
{
    copy_of(alloc, matches.get_str("output"))
}

/// Returns how the job is run. `json` and `exact` say whether `--json` and `--exact` are given. A
/// plain command line never asks for a search for lost changes, so the field `conflicts` is false.
fn mode_of(matches: &ArgMatches<'_>, json: bool, exact: bool) -> Mode
    requires json { IsFlag (one_of (codes "json") (rows_of (found_of matches.now))) json }
    requires exact { IsFlag (one_of (codes "exact") (rows_of (found_of matches.now))) exact }
    ensures mode { IsModeOf (rows_of (found_of matches.now)) result }
    ensures json { result.json ≡ json }
    ensures exact { result.exact ≡ exact }
{
    Mode {
        in_turn: is_set(matches, "in-turn"),
        history: !is_set(matches, "no-history"),
        strict: is_set(matches, "strict"),
        no_make: is_set(matches, "no-make"),
        exit_code: is_set(matches, "exit-code"),
        explain: is_set(matches, "explain"),
        json,
        exact,
        conflicts: false,
    }
}

fn options_of(alloc: Global, matches: &ArgMatches<'_>) -> Result<Options, OptionsFault>
    ensures read { IfOk result (AreRead (rows_of (found_of matches.now))) }
    ensures fault { IfErr result (IsConflictFault (rows_of (found_of matches.now))) }
{
    let flags = output_flags_of(matches);
    let mode = mode_of(matches, flags.json, flags.exact);
    let output_spec = checked_output_spec(alloc, flags)?;
    let scripts = scripts_of(alloc, matches)?;
    let file = file_of(alloc, matches)?;
    let output = output_of(alloc, matches)?;
    Ok(Options {
        mode,
        output_spec,
        scripts,
        file,
        maps: MapForm::Job,
        output,
    })
}

/// Returns the fault for an error of `clap`, with the error's text. If a word asks for the help or
/// the version, `clap` also returns an error, whose text is the help or the version. If memory runs
/// out, returns `Memory`, which has no text.
pub(crate) fn fault_of(alloc: Global, error: &Error) -> OptionsFault
    ensures { IsFaultOf (kind_of error.now) result }
{
    let Ok(text) = format!(in alloc; "{error}") else {
        return OptionsFault::Memory;
    };
    match error.kind() {
        ErrorKind::OutOfMemory => OptionsFault::Memory,
        ErrorKind::DisplayHelp | ErrorKind::DisplayVersion => OptionsFault::Help(text),
        _ => OptionsFault::Refused(text),
    }
}

/// If the fault is the refusal of a second file ([`is_of_second_file`]), appends a text about the
/// verbs to the fault's text, because the user may have forgotten a verb. If memory runs out,
/// returns `Memory`. Returns any other fault unchanged.
fn with_verbs(fault: OptionsFault) -> OptionsFault
    ensures { (kind : ErrorKind) → IsFaultOf kind fault → IsFaultOf kind result }
{
    match fault {
        OptionsFault::Refused(text) => told_verbs(text),
        OptionsFault::Help(text) => OptionsFault::Help(text),
        OptionsFault::Memory => OptionsFault::Memory,
    }
}

/// Returns the fault for an error of `clap` on a plain command line. This is the fault that
/// [`fault_of`] returns, changed by [`with_verbs`].
fn plain_fault_of(alloc: Global, error: &Error) -> OptionsFault
    ensures { IsFaultOf (kind_of error.now) result }
{
    with_verbs(fault_of(alloc, error))
}

/// Whether this is the text of the error that `clap` returns for a second file. If the name of the
/// second file begins with `-`, the result is false, because the text then looks like that for an
/// unknown option.
fn is_of_second_file(text: &str) -> bool {
    text.starts_with("error: unexpected argument '")
        && !text.starts_with("error: unexpected argument '-")
}

fn told_verbs(mut text: String) -> OptionsFault
    ensures { (kind : ErrorKind) → IsFaultOf kind (OptionsFault.Refused text) → IsFaultOf kind result }
{
    if !is_of_second_file(text.as_str()) {
        return OptionsFault::Refused(text);
    }
    match text.push_str(VERBS) {
        Ok(()) => OptionsFault::Refused(text),
        Err(error) => error.into(),
    }
}

/// Parses the words of a plain command line. The words don't include the program's name.
pub(crate) fn plain_options<S: AsStr>(alloc: Global, words: &[S]) -> Result<Options, OptionsFault>
    ensures parsed { IfOk result (AreOptionsOf (map S.text words.now)) }
    ensures fault { IfErr result (IsFaultIn (map S.text words.now)) }
{
    let command = command(alloc)?;
    match command.try_get_matches_from(words) {
        Ok(matches) => options_of(alloc, &matches),
        Err(error) => Err(plain_fault_of(alloc, &error)),
    }
}
