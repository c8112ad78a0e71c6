//! What a list of a map's items consists of: the position of an item ([`Place`]), a range of
//! positions ([`Run`]), and what the map says about an item ([`Seen`]). These types are in a
//! module, because the root of the crate has another type with the name `Place`. The type `Place`
//! of the root is a place that holds items, such as a bucket.

pub use crush_items::{Place, Run, Seen};
