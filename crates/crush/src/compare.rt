//! How a comparison of two maps matches their items ([`Identity`] and [`Devices`]), and which
//! positions one item has in the lists of the two maps' items ([`Pair`]). These types are in a
//! module, because the root of the crate has other types with the names `Identity` and `Pair`. The
//! type `Identity` of the root is for plans. The type `Pair` of the root is a pair such as
//! `host=h1` in a command, which says where an item belongs.

pub use crush_compare::{Devices, Identity, Pair};
