//! A gauge: one 64-bit word of memory, shared by threads, that shows how far a history of entries
//! has grown.
//!
//! The word contains two numbers: how many entries of the history are changes, and the weight after
//! the history. A *seat* is the value with which one thread uses the word. One seat, *the book's
//! seat*, publishes each entry with one store. Any number of other seats read the two numbers with
//! one load. A *note* says which history one seat has seen. Another seat can learn from this note,
//! and has then also seen that history.
//!
//! The *opening* is what the history starts from, for example a map. The opening and the entries
//! exist only in contracts. A [`Law`] says which histories are legal, how many changes each history
//! has, and what the weight after each history is.
//!
//! `crush_editor` has such a gauge for the map that it edits. In that crate, the book's seat
//! belongs to the *book*, which is the map with its history. `docs/dev/editor.md` has a section
//! about this gauge. Read [`Gauge`] first.
#![tactic(auto)]

mod gauge;
mod ghost_steps;
pub mod limits;
mod seat;
mod view;
mod watcher;

pub use gauge::{Gauge, Reading};
pub use seat::{BookSeat, Note, ReadSeat};
pub use view::Law;
