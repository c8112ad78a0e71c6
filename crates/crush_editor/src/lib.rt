//! An editor, with which up to 16 operators (threads) edit one map at the same time.
//!
//! An [`Editor`] has a [`Book`] under one lock, and a gauge that is read without the lock. The
//! *book* is the map with its history. The *gauge* ([`MapGauge`]) is one 64-bit word of memory that
//! all threads share. The word contains how many calls have changed the map so far, and the map's
//! total weight after these changes. A *reading* is this pair of numbers.
//!
//! Each operator has a [`Seat`], which is the value with which the operator submits calls and takes
//! readings. For each answered call the seat keeps a *slip*, which consists of a copy of the call
//! and of the reply. Only [`Editor::submit`] and [`Editor::submit_copied`] may wait for another
//! thread. `docs/dev/editor.md` explains the whole crate. In the code, read [`Started`] first: it
//! says how an editor is created.
#![tactic(auto)]

mod book;
mod editor;
mod law;
mod lock_free_reader;
mod locked;
mod open_fault;
mod opening;
mod ready;
mod state_lock;

pub use book::{Book, Closed, SubmitFault, Unsubmitted};
pub use editor::{Editor, Started};
pub use law::{MapBookSeat, MapGauge};
pub use lock_free_reader::{LockFreeReader, Note};
pub use locked::{Desk, Seat};
pub use open_fault::OpenFault;
pub use opening::{KeptOpening, WithoutSnapshot};
