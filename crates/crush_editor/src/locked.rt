//! What the lock of an editor protects, and the seats of the editor's operators. A *seat* is the
//! value with which one operator uses the editor.

ghost use Rattle.std.specs.Prelude.{◌≡◌, ◌<◌, ◌≤◌, ◌+◌, ◌++◌, ◌∷◌, [], length, IfOk, IfErr, OnOk, OnErr};
ghost use mathlib.Core.Logic.{◌↔◌};
ghost use mathlib.Core.List.{IsPrefix};
ghost use Rattle.crush_units.specs.declared.limits.TheConstants.{MOST_ENTRIES, MOST_OPERATORS};
ghost use Rattle.crush_gauge.specs.Held.{held};
ghost use Rattle.crush_editor.specs.History.{entry, IsLegalFrom};
ghost use Rattle.crush_editor.specs.Seat.{reads, seen_of};

use crate::book::{Book, SubmitFault, Unsubmitted};
use crate::law::{MapGauge, Reader};
use crate::opening::KeptOpening;
use crush_history::{Call, Reply, Slip};
use std::alloc::Global;
use std::fmt;
use std::marker::{Brand, Model};
use std::sync::ledger;
use std::sync::ledger::{Ledger, Share};

/// A type that stands for one editor, and is also called the editor's *name*. Only contracts use
/// it: through this type they refer to three things of the editor. The first is the gauge, which is
/// the word that operators read without the lock. The second is the opening map, which is the map
/// before the first call. The third is the ledger, which counts the answered calls of all
/// operators.
pub trait Desk: Ledger {
    ghost use Rattle.atomic_table.specs.Seated.{TableId};
    ghost use Rattle.crush_map.specs.MapData.{MapData};

    ghost gauge: { TableId };

    ghost opening: { MapData };
}

impl Desk for Brand {
    ghost use Rattle.crush_editor.specs.Book.{no_map};
    ghost use Rattle.crush_editor.specs.Seat.{no_table};

    ghost gauge = { no_table };

    ghost opening = { no_map };
}

/// A seat: the value with which one operator uses an editor. It has the operator's number, and a
/// [`Slip`] for each answered call of the operator, in order. A slip is an answered call with its
/// reply. In contracts, the seat also has the history that the operator has seen.
#[derive(Drop)]
pub struct Seat<N: Desk> {
    pub(crate) operator: usize,
    pub(crate) slips: Vec<Slip>,
    pub(crate) reader: Reader,
    pub(crate) ledger_share: Share<N>,
}

/// Prints the operator's number and how many of its calls were answered, as in
/// `Seat { operator: 0, slips: 1 }`.
impl<N: Desk> fmt::Debug for Seat<N> {
    fn fmt<W: fmt::Write>(&self, f: &mut fmt::Formatter<W>) -> fmt::Result {
        let operator = self.operator;
        let slips = self.slips.len();
        write!(f, "Seat {{ operator: {operator}, slips: {slips} }}")
    }
}

impl<N: Desk> Model for Seat<N> {
    ghost use Rattle.std.specs.Prelude.{◌≡◌, length};
    ghost use Rattle.crush_editor.specs.Seat.{SeatData, seat_data, seen_of, reads, IsSeat};

    ghost Value = { SeatData };

    ghost view = { λ s. seat_data s.operator s.slips.items (seen_of s.reader.view) };

    ghost invariant = { λ s. (s.reader.table ≡ N.gauge)
        × (s.reader.view ≡ reads N.opening (seen_of s.reader.view)) × (s.ledger_share.parts ≡ 1)
        × (s.ledger_share.amount ≡ length s.slips.items)
        × IsSeat N.opening s.operator s.slips.items (seen_of s.reader.view) };
}

/// What the lock protects: the book, which is the map with its history, and two values that exist
/// only for proofs. `count` is the number of calls in the book's history. This number is divided
/// into shares. The share of each [`Seat`] is the number of answered calls of the seat's operator.
/// `spare` is the share that belongs to no seat, and is always 0.
#[derive(Drop)]
pub(crate) struct Locked<N: Desk, O: KeptOpening> {
    pub(crate) book: Book<Global, O>,
    pub(crate) count: ledger::Book<N>,
    pub(crate) spare: Share<N>,
}

impl<N: Desk, O: KeptOpening> Model for Locked<N, O> {
    ghost use Rattle.std.specs.Prelude.{◌≡◌, length};
    ghost use Rattle.std.specs.Coded.{codes};
    ghost use Rattle.crush_map.specs.Codes.{coded_map};
    ghost use Rattle.crush_editor.specs.Book.{BookData};

    ghost Value = { BookData };

    ghost coded = { Prim.hlevel (codes, coded_map) };

    ghost view = { λ l. l.book };

    ghost invariant = { λ l. (l.book.table ≡ N.gauge) × (l.book.opening ≡ N.opening)
        × (l.count.total ≡ length l.book.history) × (l.spare.parts ≡ 0)
        × (l.spare.amount ≡ 0) };
}

impl<N: Desk, O: KeptOpening> Locked<N, O> {
    /// Makes a call of operator `k`. If the call is answered, `ledger_share`, which is the share of
    /// the operator's [`Seat`], increases by 1. If the call fails, the error gives the call back,
    /// and the book (the map with its history) and the share are unchanged. In both cases `reader`
    /// has seen the whole history afterwards.
    pub(crate) fn submit(
        &mut self,
        gauge: &MapGauge,
        reader: &mut Reader,
        ledger_share: &mut Share<N>,
        k: usize,
        call: Call,
    ) -> Result<Reply, Unsubmitted>
        requires operator { k < MOST_OPERATORS }
        requires gauge { gauge.now.table.shared.table_id ≡ N.gauge }
        requires reader { (reader.old.table ≡ N.gauge)
            × (reader.old.view ≡ reads N.opening (seen_of reader.old.view)) }
        requires ledger_share { ledger_share.old.parts ≡ 1 }
        ensures history { IfOk result (λ r.
            self.new.history ≡ self.old.history ++ entry k call r ∷ []) }
        ensures counted { IfOk result (λ r. ledger_share.new.amount ≡ ledger_share.old.amount + 1) }
        ensures parts { ledger_share.new.parts ≡ ledger_share.old.parts }
        ensures unchanged { OnErr result ((self.new ≡ self.old) × (ledger_share.new ≡ ledger_share.old)) }
        ensures room { OnOk result (length self.old.history < MOST_ENTRIES) }
        ensures full { IfErr result (λ e.
            (e.fault ≡ SubmitFault.Full) ↔ (length self.old.history ≡ MOST_ENTRIES)) }
        ensures back { IfErr result (λ e. e.call ≡ call) }
        ensures table { self.old.table ≡ N.gauge }
        ensures opening { self.old.opening ≡ N.opening }
        ensures few { length self.new.history ≤ MOST_ENTRIES }
        ensures begins { IsPrefix (seen_of reader.old.view) self.old.history }
        ensures legal { IsLegalFrom self.old.opening self.new.history }
        ensures seen { reader.new ≡ held self.old.table (reads self.old.opening self.new.history) }
    {
        self.book.recall_invariant();
        let reply = match self.book.execute(gauge, reader, k, call) {
            Ok(answer) => answer,
            Err(unanswered) => return Err(unanswered),
        };
        self.count.add(ledger_share, 1);
        Ok(reply)
    }

    /// Returns the fault of a call that couldn't be copied because memory ran out, as
    /// [`Book::refuse`] does: `Full` if the history is full, otherwise `OutOfMemory`.
    pub(crate) fn refuse(&mut self, gauge: &MapGauge, reader: &mut Reader) -> SubmitFault
        requires gauge { gauge.now.table.shared.table_id ≡ N.gauge }
        requires reader { (reader.old.table ≡ N.gauge)
            × (reader.old.view ≡ reads N.opening (seen_of reader.old.view)) }
        ensures full { (result ≡ SubmitFault.Full) ↔ (length self.old.history ≡ MOST_ENTRIES) }
        ensures book { self.new ≡ self.old }
        ensures table { self.old.table ≡ N.gauge }
        ensures opening { self.old.opening ≡ N.opening }
        ensures few { length self.new.history ≤ MOST_ENTRIES }
        ensures begins { IsPrefix (seen_of reader.old.view) self.old.history }
        ensures legal { IsLegalFrom self.old.opening self.new.history }
        ensures seen { reader.new ≡ held self.old.table (reads self.old.opening self.new.history) }
    {
        self.book.recall_invariant();
        self.book.refuse(gauge, reader)
    }
}

impl<N: Desk> Seat<N> {
    /// Returns the operator's number, from 0 to 15.
    pub fn operator(&self) -> usize
        ensures { result ≡ self.now.operator }
    {
        self.operator
    }

    /// Returns the operator's answered calls with their replies, in order.
    pub fn slips(&self) -> &[Slip]
        ensures { result.now ≡ self.now.slips }
    {
        self.slips.as_slice()
    }
}
