//! The options that a command line selects.

use std::alloc::AllocError;
use thiserror::Error;

/// How a job is run.
#[derive(Clone, Copy, Debug, PartialEq, Eq)]
pub struct Mode {
    /// Whether the scripts run one after the other, in the order in which the job has them
    /// (`--in-turn`). Otherwise all scripts run at the same time.
    pub in_turn: bool,
    /// Whether the history, which has a line for each call with the reply to the call, is printed
    /// after the other output. This field is false with `--no-history`.
    pub history: bool,
    /// Whether the run prints no output if a command or a batch was refused, or if a difference
    /// from the wanted map remains after the plan (`--strict`).
    pub strict: bool,
    /// Whether the run prints no output if a command or a batch created more buckets than the
    /// number of its `add-bucket` commands (`--no-make`).
    pub no_make: bool,
    /// Whether the exit status is 6 instead of 0 if there is a change or a difference to report
    /// (`--exit-code`).
    pub exit_code: bool,
    /// Whether more lines follow after the first line on standard error (`--explain`). These lines
    /// say where an error in the input is and what is expected there, and why a call was refused.
    pub explain: bool,
    /// Whether the output is one JSON document (`--json`).
    pub json: bool,
    /// Whether the weights in the text of the map have six digits after the point, and not five
    /// (`--exact`). The flag can be given only if the text of the map is printed.
    pub exact: bool,
    /// Whether the run looks for lost changes, and prints no output if there is one. A change is
    /// lost if the script of an operator, run alone, makes the change, but the map after all
    /// scripts doesn't have the change. On a command line, only the verb `apply` without
    /// `--last-wins` asks for this.
    pub conflicts: bool,
}

/// What the files of a run must contain. This type is about two files: the *first file*, which has
/// the job or the map with which the run begins, and the file of another map, if the run reads
/// another map. The files of scripts aren't meant.
#[derive(Clone, Copy, Debug, PartialEq, Eq)]
pub enum MapForm {
    /// The first file is a job, so scripts may follow the text of its map. The file of another map
    /// has the text of a map without scripts. The line `# end crush map` may be missing at the end
    /// of this text. A command line that doesn't begin with a verb (a *plain* command line) always
    /// selects this form.
    Job,
    /// Each of the two files is the text of a map, without scripts. The verb `tree` selects this
    /// form.
    Map,
    /// Each of the two files is the text of a map, without scripts, and the last line that isn't
    /// blank is `# end crush map`. If this line is missing, the end of the text may have been cut
    /// off. The verbs `apply`, `diff` and `plan` select this form.
    WholeMap,
}

/// The part of a tree that is printed. If all fields are `None`, the whole tree is printed.
#[derive(Debug, Drop)]
pub struct TreePartSpec {
    /// The name of the item that is printed, with all items below it (`--under`).
    pub under: Option<String>,
    /// The name of a type of buckets (`--down-to`). Items below buckets of this type aren't
    /// printed.
    pub down_to: Option<String>,
    /// The name of a class of devices (`--class`). Only the devices of this class are printed, and
    /// the weight of a bucket is the sum of only their weights. If the field is `None`, all devices
    /// are printed and count.
    pub class: Option<String>,
}

/// The old map with which the map after the scripts is compared, and the items whose changes are
/// printed.
#[derive(Debug, Drop)]
pub struct Since {
    /// The name of the old map's file (`--since`).
    pub map: String,
    /// Whether the items of the two maps are matched by name instead of by id (`--by-name`).
    pub by_name: bool,
    /// The name of an item (`--under`). Only the changes of this item are printed, and those of the
    /// items that are below it in the old or the new map. If the field is `None`, all changes are
    /// printed.
    pub under: Option<String>,
}

/// The old map with which the map after the scripts is compared, and the part of the tree of
/// changes that is printed.
#[derive(Debug, Drop)]
pub struct ChangeTree {
    /// The name of the old map's file (`--since`).
    pub map: String,
    /// The part of the tree that is printed.
    pub part: TreePartSpec,
}

/// The wanted map, and how the plan is found and printed. The plan has the commands that lead from
/// the map after the scripts to the wanted map.
#[derive(Debug, Drop)]
pub struct Target {
    /// The name of the wanted map's file (`--to`).
    pub map: String,
    /// Whether the commands are printed as Ceph's own commands (`--as-ceph`).
    pub as_ceph: bool,
    /// Whether the buckets of the two maps are matched by name alone, even if their types differ
    /// (`--by-name`). Otherwise the plan may also match buckets by their ids.
    pub by_name: bool,
    /// The name of an item (`--under`). The commands change only this item, and items that are
    /// below it in at least one of the two maps. But the bucket into which a command puts such an
    /// item may be any bucket. If the field is `None`, the commands may change all items.
    pub under: Option<String>,
}

/// What is printed about the map after the scripts.
#[derive(Debug, Drop)]
pub enum OutputSpec {
    /// The text of the map.
    Map,
    /// The tree of the map, with a line for each item.
    Tree(TreePartSpec),
    /// The changes from an old map to the map after the scripts, item by item.
    Since(Since),
    /// The changes from an old map to the map after the scripts, as a tree.
    Changes(ChangeTree),
    /// The commands of the scripts that changed the map, as Ceph's own commands for a shell.
    AsCeph,
    /// The commands that lead from the map after the scripts to a wanted map, and the differences
    /// that remain after these commands.
    To(Target),
}

/// What the program does: the result of parsing a command line.
#[derive(Debug, Drop)]
pub struct Options {
    /// How the job is run.
    pub mode: Mode,
    /// What is printed after the run.
    pub output_spec: OutputSpec,
    /// The names of at most 16 files with scripts (`--script`). The scripts in these files follow
    /// the job, in this order.
    pub scripts: Vec<String>,
    /// The name of the first file, which has the job or the map with which the run begins. If the
    /// field is `None`, the job is read from standard input. If the command line has a verb, the
    /// name `-` means standard input, in this field and also in the names of the other map and of
    /// the scripts. On a plain command line, `-` is the name of a file.
    pub file: Option<String>,
    /// What the first file and the file of another map must contain.
    pub maps: MapForm,
    /// The name of the file that the output replaces (`--output`). If the field is `None`, or if
    /// the name is `-`, the output goes to standard output.
    pub output: Option<String>,
}

/// The reason why the words of a command line start no run.
#[derive(Debug, Drop, Error)]
pub enum OptionsFault {
    /// A word asks for the help or for the version. The string is the text of the help or of the
    /// version.
    #[error("{0}")]
    Help(String),
    /// The words aren't a valid command line: for example, a word is wrong, an argument is missing,
    /// or some words can't be given together. The string is the text of the error, as it is
    /// printed.
    #[error("{0}")]
    Refused(String),
    /// Memory ran out.
    #[error("out of memory")]
    Memory,
}

impl From<AllocError> for OptionsFault {
    ghost use Rattle.crush_options.specs.declared.parsed_options.OptionsFault.TheVariants.{Memory};
    ghost use Rattle.std.specs.Prelude.{◌≡◌};

    ghost from_gives = { λ _ fault. fault ≡ Memory };

    fn from(_error: AllocError) -> OptionsFault {
        OptionsFault::Memory
    }
}
