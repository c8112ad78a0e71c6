//! The two functions that both kinds of seats of a [`Gauge`] have. The two kinds are [`BookSeat`]
//! and [`ReadSeat`]. A seat is the value with which one thread uses the word of a gauge. The first
//! function returns a *note*, which says which history the seat has seen. The second function lets
//! the seat learn from a note of another seat.

ghost use Rattle.std.specs.Prelude.{◌≡◌};
ghost use Rattle.crush_gauge.specs.Rule.{Learns};
ghost use Rattle.crush_gauge.specs.Held.{copy_of};

use crate::gauge::Gauge;
use crate::seat::{BookSeat, Note, ReadSeat};
use crate::view::Law;

/// A seat of either kind: a [`BookSeat`] or a [`ReadSeat`]. Callers use [`Gauge::note`] and
/// [`Gauge::learn`], which take seats of both kinds.
pub trait Watcher<O, E> {
    ghost use Rattle.crush_gauge.specs.Held.{Held};

    /// To which [`Gauge`] this [`BookSeat`] or [`ReadSeat`] belongs, and what it has seen.
    ghost knows: { Self → Held O E };

    /// Returns a [`Note`], which says which history this seat has seen. This [`BookSeat`] or
    /// [`ReadSeat`] must belong to this [`Gauge`]. The call doesn't change what the seat has seen.
    fn note_of<P: Law<O, E>>(&mut self, gauge: &Gauge<O, E, P>) -> Note<O, E>
        requires { (knows self.old).table ≡ gauge.now.table.shared.table_id }
        ensures seat { knows self.new ≡ knows self.old }
        ensures note { result ≡ copy_of (knows self.old) };

    /// Lets the seat learn from a [`Note`] of another seat, so that this seat has also seen the
    /// note's history. The seat and the note must belong to this [`Gauge`].
    fn learn_from<P: Law<O, E>>(&mut self, gauge: &Gauge<O, E, P>, note: Note<O, E>)
        requires seat { (knows self.old).table ≡ gauge.now.table.shared.table_id }
        requires note { note.table ≡ gauge.now.table.shared.table_id }
        ensures table { (knows self.new).table ≡ (knows self.old).table }
        ensures learns { Learns P.legal P.changes P.weight (knows self.old).view note.view
            (knows self.new).view };
}

impl<O, E> Watcher<O, E> for ReadSeat<O, E> {
    ghost knows = { λ s. s };

    fn note_of<P: Law<O, E>>(&mut self, gauge: &Gauge<O, E, P>) -> Note<O, E> {
        gauge.note_of(&mut self.seat)
    }

    fn learn_from<P: Law<O, E>>(&mut self, gauge: &Gauge<O, E, P>, note: Note<O, E>)
        requires seat { self.old.table ≡ gauge.now.table.shared.table_id }
        requires note { note.table ≡ gauge.now.table.shared.table_id }
        ensures table { self.new.table ≡ self.old.table }
        ensures learns { Learns P.legal P.changes P.weight self.old.view note.view self.new.view }
    {
        gauge.join_note(&mut self.seat, note);
    }
}

impl<O, E> Watcher<O, E> for BookSeat<O, E> {
    ghost knows = { λ s. s };

    fn note_of<P: Law<O, E>>(&mut self, gauge: &Gauge<O, E, P>) -> Note<O, E> {
        gauge.note_of(&mut self.seat)
    }

    fn learn_from<P: Law<O, E>>(&mut self, gauge: &Gauge<O, E, P>, note: Note<O, E>)
        requires seat { self.old.table ≡ gauge.now.table.shared.table_id }
        requires note { note.table ≡ gauge.now.table.shared.table_id }
        ensures table { self.new.table ≡ self.old.table }
        ensures learns { Learns P.legal P.changes P.weight self.old.view note.view self.new.view }
    {
        gauge.join_note(&mut self.seat, note);
    }
}
