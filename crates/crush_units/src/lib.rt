//! The values of a CRUSH map: ids, types, names, weights and bucket algorithms. Each kind of value
//! has a type of its own, which can't hold an invalid value. [`limits`] has the limits of these
//! values and of a map's size.
//!
//! `{}` prints each of these values as it is written in a map's text. Of all these values, only
//! names of more than 30 bytes allocate memory. [`number`] reads whole numbers. [`Reader`] splits a
//! map's text into words. [`put`] and [`put_all`] write bytes, and fail with a [`WriteFault`].
#![tactic(auto)]

mod alg;
mod convert;
mod display;
mod exact;
mod id;
pub mod limits;
mod name;
pub mod number;
mod text;
mod weight;
mod words;
mod write;

pub use alg::Alg;
pub use convert::{AlgFault, IdFault};
pub use exact::{exact_is_cut_back, exact_is_read_back};
pub use id::{BucketId, DeviceId, ItemId, TypeId};
pub use name::{Name, NameFault, is_name, is_name_byte};
pub use weight::{Weight, WeightFault, printed_is_read_back};
pub use words::{Reader, Token};
pub use write::{WriteFault, put, put_all};
