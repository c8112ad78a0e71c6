//! The law of the gauge of a map, and short names for the types of this gauge. The *gauge* is one
//! 64-bit word of memory that all threads share. It contains how many calls have changed the map so
//! far, and the map's total weight after these changes.

use crush_gauge::{BookSeat, Gauge, Law, Note, ReadSeat};
use crush_history::Entry;
use crush_map::CrushMap;
use std::alloc::Global;

/// The law of a [`MapGauge`]: which histories of calls are legal for an opening map, how many
/// changes a history has, and what the map's total weight is after a history. The opening map is
/// the map before the first call.
pub struct OfMap;

impl Law<CrushMap<Global>, Entry> for OfMap {
    ghost use Rattle.crush_history.specs.History.{changes};
    ghost use Rattle.crush_editor.specs.History.{IsLegalFrom, weight_from};

    ghost legal = { IsLegalFrom };

    ghost changes = { λ o h. changes h };

    ghost weight = { weight_from };
}

/// The gauge of a map: one 64-bit word of memory that all threads share. It contains how many calls
/// have changed the map so far, and the map's total weight after these changes.
pub type MapGauge = Gauge<CrushMap<Global>, Entry, OfMap>;

/// The book's seat: the only seat of a [`MapGauge`] with which the gauge's word is changed. The
/// book, which is the map with its history, contains this seat. After each call, the book stores
/// the number of changes and the total weight with this seat.
pub type MapBookSeat = BookSeat<CrushMap<Global>, Entry>;

/// The seat of a [`MapGauge`] with which one operator takes readings. It is a part of the
/// operator's [`Seat`](crate::Seat) of the editor.
pub type Reader = ReadSeat<CrushMap<Global>, Entry>;

/// A note: it says which history one seat of a [`MapGauge`] has seen. A seat is the value with
/// which one thread uses the gauge.
pub type MapNote = Note<CrushMap<Global>, Entry>;
