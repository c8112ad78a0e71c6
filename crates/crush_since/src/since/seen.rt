//! What a map says about an item.

pub use crush_items::Seen;
