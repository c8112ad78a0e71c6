//! The command line of `crushedit`: its words, its options and its help.
//!
//! [`options`] parses the words of a command line, and returns [`Options`], which say what a run of
//! `crush_run` does. If the words start no run, for example because they ask for the help,
//! [`options`] fails with an [`OptionsFault`], which `crush_input` prints.
#![tactic(auto)]

mod command_line;
mod parsed_options;
mod verb_words;
mod verbs;

pub use parsed_options::{
    ChangeTree, MapForm, Mode, Options, OptionsFault, OutputSpec, Since, Target, TreePartSpec,
};
pub use verbs::options;
