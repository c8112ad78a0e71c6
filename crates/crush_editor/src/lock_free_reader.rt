//! The part of an editor that acquires no lock. It reads the number of changes and the map's total
//! weight from the gauge, which is one word of memory that all threads share.

ghost use Rattle.std.specs.Prelude.{◌≡◌, ◌≤◌};
ghost use mathlib.Core.List.{IsPrefix};
ghost use Rattle.crush_gauge.specs.declared.limits.TheConstants.{MOST_CHANGES};
ghost use Rattle.crush_history.specs.History.{changes};
ghost use Rattle.crush_editor.specs.History.{weight_from};
ghost use Rattle.crush_editor.specs.Seat.{Sees};

use crate::law::{MapGauge, MapNote};
use crate::locked::{Desk, Seat};
use crush_gauge::Reading;
use std::fmt;
use std::marker::{Model, PhantomData};

/// A note: it says which history one [`Seat`] has seen. The operator of this seat can give the note
/// to another operator. With [`LockFreeReader::learn`], the other operator's seat has then also
/// seen this history. A note can be sent to another thread.
#[derive(Drop)]
pub struct Note<N: Desk> {
    note: MapNote,
    of: PhantomData<N>,
}

/// Prints `Note { .. }`: which history the note is about exists only in contracts.
impl<N: Desk> fmt::Debug for Note<N> {
    fn fmt<W: fmt::Write>(&self, f: &mut fmt::Formatter<W>) -> fmt::Result {
        f.write_str("Note { .. }")
    }
}

impl<N: Desk> Model for Note<N> {
    ghost use Rattle.std.specs.Prelude.{◌≡◌, List};
    ghost use Rattle.crush_history.specs.History.{EntryData};
    ghost use Rattle.crush_editor.specs.History.{IsLegalFrom};
    ghost use Rattle.crush_editor.specs.Seat.{seen_of, reads};

    ghost Value = { List EntryData };

    ghost view = { λ n. seen_of n.note.view };

    ghost invariant = { λ n. (n.note.table ≡ N.gauge)
        × (n.note.view ≡ reads N.opening (seen_of n.note.view))
        × IsLegalFrom N.opening (seen_of n.note.view) };
}

/// The gauge of the editor with the name `N`: one 64-bit word of memory that all threads share. It
/// contains how many calls have changed the map so far, and the map's total weight after these
/// changes. The methods acquire no lock and allocate no memory.
#[derive(Drop)]
pub struct LockFreeReader<N: Desk> {
    gauge: MapGauge,
    of: PhantomData<N>,
    ghost tied: { gauge.table.shared.table_id ≡ N.gauge },
}

/// Prints `LockFreeReader { .. }` without the two numbers of the [`MapGauge`], because a reading
/// needs a [`Seat`].
impl<N: Desk> fmt::Debug for LockFreeReader<N> {
    fn fmt<W: fmt::Write>(&self, f: &mut fmt::Formatter<W>) -> fmt::Result {
        f.write_str("LockFreeReader { .. }")
    }
}

impl<N: Desk> LockFreeReader<N> {
    pub(crate) fn new(gauge: MapGauge) -> LockFreeReader<N>
        requires { gauge.table.shared.table_id ≡ N.gauge }
    {
        LockFreeReader {
            gauge,
            of: PhantomData,
        }
    }

    pub(crate) fn gauge(&self) -> &MapGauge
        ensures { result.now.table.shared.table_id ≡ N.gauge }
    {
        &self.gauge
    }

    /// Returns the number of changes so far, and the total weight of all placed devices in units
    /// (65536 units are 1.0). Both numbers belong to the same history, and afterwards the [`Seat`]
    /// has seen this history. The method makes one atomic load of the gauge, which is one word of
    /// memory that all threads share. It acquires no lock and allocates no memory.
    pub fn reading(&self, seat: &mut Seat<N>) -> Reading
        ensures seat { Sees N.opening seat.old seat.new }
        ensures changes { result.changes ≡ changes seat.new.seen }
        ensures weight { result.weight ≡ weight_from N.opening seat.new.seen }
        ensures few { result.changes ≤ MOST_CHANGES }
    {
        self.gauge.read(&mut seat.reader)
    }

    /// Returns a [`Note`], which says which history the [`Seat`] has seen. Another seat of this
    /// editor can learn from the note. The method doesn't change what this seat has seen.
    pub fn note(&self, seat: &mut Seat<N>) -> Note<N>
        ensures seat { seat.new ≡ seat.old }
        ensures note { result ≡ seat.old.seen }
    {
        let note = self.gauge.note(&mut seat.reader);
        Note {
            note,
            of: PhantomData,
        }
    }

    /// Hands this [`Seat`] a [`Note`] of another seat. This seat has then also seen the history
    /// that the other seat had seen when the note was made. So the history of this seat's next
    /// reading begins with both of these histories: the note's history, and the history that this
    /// seat had seen before.
    pub fn learn(&self, seat: &mut Seat<N>, note: Note<N>)
        ensures seat { Sees N.opening seat.old seat.new }
        ensures note { IsPrefix note seat.new.seen }
    {
        let Note { note, of: _ } = note;
        self.gauge.learn(&mut seat.reader, note);
    }
}
