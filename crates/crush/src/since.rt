//! The number of buckets that have different ids in two maps, and the number of buckets that have
//! different class ids. A [`Plan`](crate::Plan) has these numbers in its field `aside`. The type is
//! in a module, because the root of the crate has another type with the name `Counts`. The type
//! `Counts` of the root says how many devices and how many buckets a map has.

pub use crush_since::Counts;
