//! Reads the text of a CRUSH map.
//!
//! [`read_map`] parses the text, and builds the map with a `MapBuilder` of the crate
//! `crush_builder`. The file `specs/Grammar.antt` defines the grammar of the text, and
//! `specs/Rows.antt` defines which faults a word can have. `specs/Flaw.antt` defines the first
//! fault of a text. If memory suffices, [`read_map`] reports this fault.
#![tactic(auto)]

mod adjusted;
mod expected;
mod fault;
mod reader;
mod statement_kind;

pub use adjusted::Adjusted;
pub use expected::{Expected, Keyword, Optional};
pub use fault::{TextFault, TextFaultKind};
pub use reader::{read_map, read_map_in};
pub use statement_kind::StatementKind;
