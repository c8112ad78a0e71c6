//! The seats and the notes of a [`Gauge`](crate::Gauge), which is one 64-bit word of memory, shared
//! by threads. A *seat* is the value with which one thread uses this word. A *note* says which
//! history one seat has seen. What a seat has seen exists only in contracts.

ghost use Rattle.std.specs.Prelude.{◌≡◌};

use crate::view::View;
use atomic_table::Seat;
use std::marker::Model;

/// The book's seat: the only seat of a gauge that publishes entries, by
/// [`Gauge::publish`](crate::Gauge::publish). This seat has seen the whole history. In
/// `crush_editor` the book, which is the map with its history, contains this seat.
#[derive(Drop)]
pub struct BookSeat<O, E> {
    pub(crate) seat: Seat<(), View<O, E>>,
}

impl<O, E> Model for BookSeat<O, E> {
    ghost use Rattle.std.specs.Prelude.{◌≡◌, []};
    ghost use Rattle.crush_gauge.specs.Rule.{IsBook};
    ghost use Rattle.crush_gauge.specs.Held.{Held, held};

    ghost Value = { Held O E };

    ghost view = { λ s. held s.seat.table_id s.seat.me.0 };

    ghost invariant = { λ s. (s.seat.me.1 ≡ []) × IsBook s.seat.me.0 };
}

/// A seat that reads: the value with which one thread reads the word of a gauge, by
/// [`Gauge::read`](crate::Gauge::read). The seat has seen a prefix of the history, perhaps all of
/// it.
#[derive(Drop)]
pub struct ReadSeat<O, E> {
    pub(crate) seat: Seat<(), View<O, E>>,
}

impl<O, E> Model for ReadSeat<O, E> {
    ghost use Rattle.std.specs.Prelude.{◌≡◌, []};
    ghost use Rattle.crush_gauge.specs.Rule.{IsReader};
    ghost use Rattle.crush_gauge.specs.Held.{Held, held};

    ghost Value = { Held O E };

    ghost view = { λ s. held s.seat.table_id s.seat.me.0 };

    ghost invariant = { λ s. (s.seat.me.1 ≡ []) × IsReader s.seat.me.0 };
}

/// A note: it says which history one seat of a gauge has seen. A seat is the value with which one
/// thread uses the gauge's word. [`Gauge::note`](crate::Gauge::note) returns a note.
/// [`Gauge::learn`](crate::Gauge::learn) takes a note and another seat of the same gauge. This
/// other seat has then also seen the note's history.
#[derive(Drop)]
pub struct Note<O, E> {
    pub(crate) seat: Seat<(), View<O, E>>,
}

impl<O, E> Model for Note<O, E> {
    ghost use Rattle.std.specs.Prelude.{◌≡◌, []};
    ghost use Rattle.crush_gauge.specs.Rule.{IsReader};
    ghost use Rattle.crush_gauge.specs.Held.{Held, held};

    ghost Value = { Held O E };

    ghost view = { λ s. held s.seat.table_id s.seat.me.0 };

    ghost invariant = { λ s. (s.seat.me.1 ≡ []) × IsReader s.seat.me.0 };
}

impl<O, E> ReadSeat<O, E> {
    /// Turns this seat, which isn't needed any more for reading a gauge's word, into a note. The
    /// note says which history this seat has seen.
    pub fn into_note(self) -> Note<O, E>
        ensures { result ≡ self }
    {
        let ReadSeat { seat } = self;
        Note { seat }
    }
}
