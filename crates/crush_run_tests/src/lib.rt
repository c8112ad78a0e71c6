//! Tests runs, and the editor that runs use. `run` tests `crush_options`, `crush_input` and
//! `crush_run`, and `editor` tests `crush_editor` and `crush_gauge`.
#![tactic(auto)]

#[cfg(test)]
mod editor;
#[cfg(test)]
mod maps;
#[cfg(test)]
mod run;
#[cfg(test)]
mod texts;
