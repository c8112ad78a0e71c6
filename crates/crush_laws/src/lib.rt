//! Laws about the texts of maps, the outputs of runs, and plans. Each law is the contract of a
//! function that does nothing. No code has to call these functions.
//!
//! - Each sequence of bytes either is the text of exactly one map or has exactly one flaw. A *flaw*
//! is the first fault of a text, with its place.
//! - The texts of maps are exactly the lawful documents. `specs/Document.antt`,
//! `specs/Spells.antt` and `specs/Meaning.antt` define what a lawful document is.
//! - If the sentence about a flaw names words, then these are the words that may be at the place of
//! the flaw. [`a_sentence_names_the_expected_words`] has the exceptions.
//! - If the printed text of a map, or the output of a run, is read again, the result is the same
//! map, except that its types may be in another order.
//! - The text of a plan is a script.
#![tactic(auto)]

mod documents;
mod expected;
mod plans;
mod reading_back;
mod texts;

pub use documents::a_text_is_a_document;
pub use expected::a_sentence_names_the_expected_words;
pub use plans::a_plan_is_a_script;
pub use reading_back::{what_is_printed_is_read_back, what_is_written_is_read_back};
pub use texts::a_text_has_one_map_or_one_flaw;
