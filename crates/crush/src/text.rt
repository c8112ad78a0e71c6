//! What the grammar of a map's text expects at the place of a fault. These types are in a module,
//! because the root of the crate has another type with the name `Keyword`. The type `Keyword` of
//! the root is a command of a script.

pub use crush_text::{Keyword, Optional};
