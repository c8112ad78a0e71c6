//! The book, which is a map with its history. A book has the map as it is now, and the history of
//! the calls that were made on it. The *opening map* is the map before the first call; a book can
//! keep it, too. An editor protects its book with a lock. A single thread can also use a book
//! without an editor.

ghost use Rattle.std.specs.List.{All};
ghost use Rattle.std.specs.Prelude.{◌≡◌, ◌<◌, ◌≤◌, ◌++◌, ◌∷◌, [], length, IfOk, IfErr, IfSome, OnOk, OnErr};
ghost use mathlib.Core.Logic.{◌↔◌};
ghost use Rattle.crush_units.specs.declared.limits.TheConstants.{MOST_ENTRIES, MOST_OPERATORS};
ghost use Rattle.crush_history.specs.History.{EntryData, change_of, changes};
ghost use Rattle.crush_history.specs.Turns.{Makes};
ghost use Rattle.crush_gauge.specs.declared.view.View.TheVariants.{Book as BookSees};
ghost use Rattle.crush_gauge.specs.Rule.{known, Follows, grown};
ghost use Rattle.crush_gauge.specs.Held.{held};
ghost use Rattle.crush_editor.specs.History.{entry, IsLegalFrom, weight_from};
ghost use Rattle.crush_editor.specs.Book.{IsSameMap, MakesAll, StandsAfter, StandsAsBefore};
ghost use Rattle.crush_editor.specs.Seat.{seen_of, reads};
ghost use mathlib.Core.List.{IsPrefix};

use crate::law::{MapBookSeat, MapGauge, MapNote, Reader};
use crate::open_fault::OpenFault;
use crate::opening::{KeptOpening, WithoutSnapshot};
use crush_history::{Call, Entry, Reply, is_change, make_call};
use crush_map::CrushMap;
use crush_units::limits::MOST_ENTRIES;
use std::alloc::{Allocator, Global};
use std::fmt;
use std::marker::Model;
use thiserror::Error;

/// Why a call got no reply. A refused edit is not a fault, because the refusal is the reply to the
/// call.
#[derive(Clone, Copy, Debug, PartialEq, Eq, Error)]
pub enum SubmitFault {
    /// The history has 65,536 entries, which is the maximum.
    #[error("the history is full")]
    Full,
    /// Memory could not be allocated, and the history isn't full.
    #[error("out of memory")]
    OutOfMemory,
}

/// The error of [`Book::commit_copied`] and
/// [`Editor::submit_copied`](crate::Editor::submit_copied), which take a call by value. The call
/// wasn't made, and the error gives it back. `{}` prints why the call wasn't made.
#[derive(Debug, Drop, Error)]
#[error("{fault}")]
pub struct Unsubmitted {
    /// Why the call wasn't made.
    pub fault: SubmitFault,
    /// The call.
    pub call: Call,
}

/// A book: a map with the history of the calls that were made on it since its opening. The opening
/// is the map before the first call. The book's maps are allocated with `A`, and its history with
/// `Global`. `O` says what the book keeps of the opening: a map, or nothing.
#[derive(Drop)]
pub struct Book<A: Allocator, O: KeptOpening = CrushMap<A>> {
    opening: O,
    map: CrushMap<A>,
    history: Vec<Entry>,
    changes: u32,
    seat: MapBookSeat,
}

/// Prints the number of entries, and how many devices and buckets the map has, as in
/// `Book { entries: 1, map: CrushMap { devices: 3, buckets: 3 } }`.
impl<A: Allocator, O: KeptOpening> fmt::Debug for Book<A, O> {
    fn fmt<W: fmt::Write>(&self, f: &mut fmt::Formatter<W>) -> fmt::Result {
        let entries = self.history.len();
        let map = &self.map;
        write!(f, "Book {{ entries: {entries}, map: {map:?} }}")
    }
}

impl<A: Allocator, O: KeptOpening> Model for Book<A, O> {
    ghost use Rattle.std.specs.Prelude.{Option};
    ghost use Rattle.crush_map.specs.MapData.{MapData};
    ghost use Rattle.crush_editor.specs.Book.{BookData, book_data, opening_of, IsKept};
    ghost use Rattle.std.specs.Coded.{codes};
    ghost use Rattle.crush_map.specs.Codes.{coded_map};

    ghost Value = { BookData };

    ghost coded = { Prim.hlevel (codes, coded_map) };

    ghost view = { λ b. book_data b.seat.table (opening_of b.seat.view) b.map b.history.items };

    ghost invariant = { λ b. IsKept (O.kept b.opening) (opening_of b.seat.view) b.map b.history.items b.changes b.seat.view };
}

impl<A: Allocator + Clone> Book<A> {
    /// Creates a book, which is a map with its history. The opening of the book is `map`, and the
    /// history is empty. `seat` is the book's seat of a gauge that was created for this map. (The
    /// *gauge* is one word of memory that all threads share, with the number of changes and the
    /// total weight of the map. The *book's seat* is the only seat with which this word is
    /// changed.) With this seat the book publishes both numbers after each call, so that threads
    /// can read them without a lock.
    ///
    /// The method copies the map once. If memory runs out, the error gives the map back.
    pub fn new(alloc: Global, map: CrushMap<A>, seat: MapBookSeat) -> Result<Book<A>, OpenFault<A>>
        requires { seat.view ≡ BookSees (known map []) }
        ensures opening { IfOk result (λ b. b.opening ≡ map) }
        ensures map { IfOk result (λ b. IsSameMap b.map map) }
        ensures stands { IfOk result (λ b. StandsAsBefore b.opening b.map) }
        ensures history { IfOk result (λ b. b.history ≡ []) }
        ensures table { IfOk result (λ b. b.table ≡ seat.table) }
        ensures err { IfErr result (λ fault. fault.map ≡ map) }
    {
        map.forest().recall_invariant();
        let Ok(copy) = map.try_copy() else {
            return Err(OpenFault { map });
        };
        Ok(Book {
            opening: map,
            map: copy,
            history: Vec::new(alloc),
            changes: 0,
            seat,
        })
    }
}

impl<A: Allocator> Book<A, WithoutSnapshot> {
    /// Creates a book (a map with its history) as [`Book::new`] does, but without a copy of the
    /// map. The method can't fail.
    pub(crate) fn without_opening(
        alloc: Global,
        map: CrushMap<A>,
        seat: MapBookSeat,
    ) -> Book<A, WithoutSnapshot>
        requires { seat.view ≡ BookSees (known map []) }
        ensures opening { result.opening ≡ map }
        ensures map { result.map ≡ map }
        ensures history { result.history ≡ [] }
        ensures table { result.table ≡ seat.table }
    {
        map.forest().recall_invariant();
        let changes = 0;
        Book {
            opening: WithoutSnapshot,
            map,
            history: Vec::new(alloc),
            changes,
            seat,
        }
    }

    /// Returns the map of a book (a map with its history) whose history is empty. Because no call
    /// was made on this map, it is still the opening, which is the map from which the book was
    /// created.
    pub(crate) fn into_map(self) -> CrushMap<A>
        requires { self.history ≡ [] }
        ensures { result ≡ self.opening }
    {
        let Book {
            opening: WithoutSnapshot,
            map,
            history: _,
            changes: _,
            seat: _,
        } = self;
        map
    }
}

impl<A: Allocator + Clone, O: KeptOpening> Book<A, O> {
    /// Makes a call for operator `k` (from 0 to 15) on the map, appends the call with its reply to
    /// the history, and returns the reply.
    ///
    /// The method also publishes the new number of changes and the new total weight: it stores both
    /// in the gauge with one atomic store, even if the reply is a refusal. (The *gauge* is the word
    /// of memory from which all threads can read these numbers.) `gauge` must be the gauge for
    /// which this [`Book`] was created.
    ///
    /// The method fails with `Full` if and only if the history is full, which it checks first. Any
    /// other error is `OutOfMemory`. After an error the history and the map, including the map's
    /// capacities, are unchanged, and nothing is published.
    pub fn commit(
        &mut self,
        alloc: Global,
        gauge: &MapGauge,
        k: usize,
        call: &Call,
    ) -> Result<Reply, SubmitFault>
        requires operator { k < MOST_OPERATORS }
        requires gauge { self.old.table ≡ gauge.now.table.shared.table_id }
        ensures made { IfOk result
            (Makes (changes self.old.history) self.old.map self.new.map call.now) }
        ensures history { IfOk result (λ r.
            self.new.history ≡ self.old.history ++ entry k call.now r ∷ []) }
        ensures full { (result ≡ Err SubmitFault.Full) ↔ (length self.old.history ≡ MOST_ENTRIES) }
        ensures unchanged { OnErr result (self.new ≡ self.old) }
        ensures opening { self.new.opening ≡ self.old.opening }
        ensures table { self.new.table ≡ self.old.table }
    {
        if self.history.len() == MOST_ENTRIES {
            return Err(SubmitFault::Full);
        }
        let Ok(copy) = call.try_copy(alloc) else {
            return Err(SubmitFault::OutOfMemory);
        };
        match self.commit_copied(gauge, k, copy) {
            Ok(reply) => Ok(reply),
            Err(Unsubmitted { fault, .. }) => Err(fault),
        }
    }

    /// Makes a call as [`Book::commit`] does, but moves the call into its entry of the history
    /// instead of copying it. If the method fails, the error gives the call back.
    pub fn commit_copied(
        &mut self,
        gauge: &MapGauge,
        k: usize,
        call: Call,
    ) -> Result<Reply, Unsubmitted>
        requires operator { k < MOST_OPERATORS }
        requires gauge { self.old.table ≡ gauge.now.table.shared.table_id }
        ensures made { IfOk result
            (Makes (changes self.old.history) self.old.map self.new.map call) }
        ensures history { IfOk result (λ r.
            self.new.history ≡ self.old.history ++ entry k call r ∷ []) }
        ensures room { OnOk result (length self.old.history < MOST_ENTRIES) }
        ensures full { IfErr result (λ e.
            (e.fault ≡ SubmitFault.Full) ↔ (length self.old.history ≡ MOST_ENTRIES)) }
        ensures back { IfErr result (λ e. e.call ≡ call) }
        ensures unchanged { OnErr result (self.new ≡ self.old) }
        ensures opening { self.new.opening ≡ self.old.opening }
        ensures table { self.new.table ≡ self.old.table }
    {
        let entries = self.history.len();
        if entries == MOST_ENTRIES {
            return Err(Unsubmitted {
                fault: SubmitFault::Full,
                call,
            });
        }
        if self.history.reserve(1).is_err() {
            return Err(Unsubmitted {
                fault: SubmitFault::OutOfMemory,
                call,
            });
        }
        let Ok(reply) = make_call(&mut self.map, self.changes, &call) else {
            return Err(Unsubmitted {
                fault: SubmitFault::OutOfMemory,
                call,
            });
        };
        let changes = self.changes + change_of(reply);
        let weight = self.map.total();
        let entry = Entry {
            operator: k,
            call,
            reply,
        };
        publish(gauge, &mut self.seat, &entry, changes as u64, weight);
        self.changes = changes;
        self.history.push_reserved(entry);
        Ok(reply)
    }

    /// Lets the book's seat learn from a note. (The *book's seat* is the only seat with which the
    /// gauge's word is changed. A *note* says which history one seat has seen.) Nothing in the book
    /// changes. The method is called only for its contract, which says that the note's history is a
    /// prefix of the book's history.
    pub(crate) fn merge_note(&mut self, gauge: &MapGauge, note: MapNote)
        requires gauge { self.old.table ≡ gauge.now.table.shared.table_id }
        requires note { (note.table ≡ self.old.table)
            × (note.view ≡ reads self.old.opening (seen_of note.view)) }
        ensures book { self.new ≡ self.old }
        ensures begins { IsPrefix (seen_of note.view) self.old.history }
    {
        gauge.learn(&mut self.seat, note);
    }

    /// Returns a note of the whole history of this [`Book`]. A note says which history one seat has
    /// seen. Each reader of the book's gauge can learn from this note. (A reader is a seat with
    /// which an operator reads the gauge, which is the word of memory that all threads share.)
    pub(crate) fn snapshot(&mut self, gauge: &MapGauge) -> MapNote
        requires { self.old.table ≡ gauge.now.table.shared.table_id }
        ensures book { self.new ≡ self.old }
        ensures legal { IsLegalFrom self.old.opening self.old.history }
        ensures note { result ≡ held self.old.table (reads self.old.opening self.old.history) }
    {
        gauge.note(&mut self.seat)
    }

    /// Makes a call as [`Book::commit_copied`] does. `reader` is the value with which an operator
    /// reads the gauge (the word of memory with the number of changes and the total weight).
    /// Afterwards `reader` has seen the whole history, even if the call failed.
    pub(crate) fn execute(
        &mut self,
        gauge: &MapGauge,
        reader: &mut Reader,
        k: usize,
        call: Call,
    ) -> Result<Reply, Unsubmitted>
        requires operator { k < MOST_OPERATORS }
        requires gauge { self.old.table ≡ gauge.now.table.shared.table_id }
        requires reader { (reader.old.table ≡ self.old.table)
            × (reader.old.view ≡ reads self.old.opening (seen_of reader.old.view)) }
        ensures made { IfOk result
            (Makes (changes self.old.history) self.old.map self.new.map call) }
        ensures history { IfOk result (λ r.
            self.new.history ≡ self.old.history ++ entry k call r ∷ []) }
        ensures room { OnOk result (length self.old.history < MOST_ENTRIES) }
        ensures full { IfErr result (λ e.
            (e.fault ≡ SubmitFault.Full) ↔ (length self.old.history ≡ MOST_ENTRIES)) }
        ensures back { IfErr result (λ e. e.call ≡ call) }
        ensures unchanged { OnErr result (self.new ≡ self.old) }
        ensures opening { self.new.opening ≡ self.old.opening }
        ensures table { self.new.table ≡ self.old.table }
        ensures begins { IsPrefix (seen_of reader.old.view) self.old.history }
        ensures legal { IsLegalFrom self.old.opening self.new.history }
        ensures seen { reader.new ≡ held self.old.table (reads self.old.opening self.new.history) }
    {
        let note = gauge.note(reader);
        self.merge_note(gauge, note);
        let outcome = self.commit_copied(gauge, k, call);
        let snapshot = self.snapshot(gauge);
        gauge.learn(reader, snapshot);
        outcome
    }

    /// Returns the fault of a call that couldn't be copied because memory ran out. The fault is
    /// `Full` if the history is full, and otherwise `OutOfMemory`. Afterwards `reader`, the value
    /// with which an operator reads the gauge, has seen the whole history. (The gauge is the word
    /// of memory with the number of changes and the total weight.)
    pub(crate) fn refuse(&mut self, gauge: &MapGauge, reader: &mut Reader) -> SubmitFault
        requires gauge { self.old.table ≡ gauge.now.table.shared.table_id }
        requires reader { (reader.old.table ≡ self.old.table)
            × (reader.old.view ≡ reads self.old.opening (seen_of reader.old.view)) }
        ensures full { (result ≡ SubmitFault.Full) ↔ (length self.old.history ≡ MOST_ENTRIES) }
        ensures book { self.new ≡ self.old }
        ensures begins { IsPrefix (seen_of reader.old.view) self.old.history }
        ensures legal { IsLegalFrom self.old.opening self.new.history }
        ensures seen { reader.new ≡ held self.old.table (reads self.old.opening self.new.history) }
    {
        let note = gauge.note(reader);
        self.merge_note(gauge, note);
        let snapshot = self.snapshot(gauge);
        gauge.learn(reader, snapshot);
        self.lacking()
    }

    /// Returns `Full` if the history is full, otherwise `OutOfMemory`.
    fn lacking(&self) -> SubmitFault
        ensures { (result ≡ SubmitFault.Full) ↔ (length self.now.history ≡ MOST_ENTRIES) }
    {
        if self.history.len() == MOST_ENTRIES {
            return SubmitFault::Full;
        }
        SubmitFault::OutOfMemory
    }
}

impl<A: Allocator> Book<A> {
    /// Returns the opening, which is the map from which the book (the map with its history) was
    /// created. No call has changed this map.
    pub fn opening(&self) -> &CrushMap<A>
        ensures { result.now ≡ self.now.opening }
    {
        &self.opening
    }

    /// Returns the opening, which is the map from which the book (the map with its history) was
    /// created. Drops the rest of the book.
    pub(crate) fn into_opening(self) -> CrushMap<A>
        ensures { result ≡ self.opening }
    {
        let Book {
            opening,
            map: _,
            history: _,
            changes: _,
            seat: _,
        } = self;
        opening
    }
}

impl<A: Allocator, O: KeptOpening> Book<A, O> {
    /// Returns the map as it is now, after all entries of the history.
    pub fn map(&self) -> &CrushMap<A>
        ensures { result.now ≡ self.now.map }
    {
        &self.map
    }

    /// Returns the history: an entry for each answered call, in the order in which the calls were
    /// made.
    pub fn history(&self) -> &[Entry]
        ensures { result.now ≡ self.now.history }
    {
        self.history.as_slice()
    }

    /// Does nothing at run time. The contract states what is true of every book, which is a map
    /// with its history. The method is called so that a proof that knows nothing else about a book
    /// can use these statements.
    pub fn recall_invariant(&self)
        ensures legal { IsLegalFrom self.now.opening self.now.history }
        ensures stands { StandsAfter self.now.opening self.now.map self.now.history }
        ensures all { MakesAll self.now.opening self.now.map self.now.history }
        ensures operators { All (λ e. e.operator < MOST_OPERATORS) self.now.history }
        ensures few { length self.now.history ≤ MOST_ENTRIES }
    {
        let _changes = &self.changes;
    }

    /// Consumes the book (the map with its history). Returns its map, its history, and what it
    /// keeps of its opening, which is the map before the first call. The method allocates no
    /// memory, and can't fail.
    pub fn into_closed(self) -> Closed<A, O>
        ensures opening { IfSome (O.kept result.opening) (λ m. m ≡ self.opening) }
        ensures map { result.map ≡ self.map }
        ensures history { result.history.items ≡ self.history }
        ensures legal { IsLegalFrom self.opening self.history }
        ensures stands { StandsAfter self.opening self.map self.history }
        ensures all { MakesAll self.opening self.map self.history }
        ensures operators { All (λ e. e.operator < MOST_OPERATORS) self.history }
        ensures few { length result.history.items ≤ MOST_ENTRIES }
    {
        let Book {
            opening,
            map,
            history,
            changes: _,
            seat: _,
        } = self;
        Closed {
            opening,
            map,
            history,
        }
    }
}

/// What [`Editor::close`](crate::Editor::close) and [`Book::into_closed`] return.
#[derive(Drop)]
pub struct Closed<A: Allocator, O: KeptOpening = CrushMap<A>> {
    /// What the book (the map with its history) kept of the map before the first call: this whole
    /// map, or nothing.
    pub opening: O,
    /// The map after the last call.
    pub map: CrushMap<A>,
    /// The entries of all answered calls, in the order in which the calls were made.
    pub history: Vec<Entry>,
}

/// Prints the number of entries, and how many devices and buckets the map has, as in
/// `Closed { entries: 1, map: CrushMap { devices: 3, buckets: 3 } }`.
impl<A: Allocator, O: KeptOpening> fmt::Debug for Closed<A, O> {
    fn fmt<W: fmt::Write>(&self, f: &mut fmt::Formatter<W>) -> fmt::Result {
        let entries = self.history.len();
        let map = &self.map;
        write!(f, "Closed {{ entries: {entries}, map: {map:?} }}")
    }
}

/// Publishes the number of changes and the map's total weight after the entry `joining`: stores
/// both in the gauge, with one atomic store. (The gauge is the word of memory that all threads
/// read.) Only the contract uses the entry.
fn publish(gauge: &MapGauge, seat: &mut MapBookSeat, joining: &Entry, count: u64, weight: u64)
    ghost joined: { EntryData }
    requires joins { joined ≡ joining.now }
    requires gauge { seat.old.table ≡ gauge.now.table.shared.table_id }
    requires follows { Follows IsLegalFrom (λ o h. changes h) weight_from seat.old.view
        (joining.now ∷ []) count weight }
    ensures { seat.new ≡ held seat.old.table (grown (joining.now ∷ []) seat.old.view) }
{
    let _joining = joining;
    gauge.publish(seat, count, weight)
}

/// Returns 1 if the reply says that the map was changed, otherwise 0.
fn change_of(reply: Reply) -> u32
    ensures { result ≡ change_of reply }
{
    if is_change(reply) { 1 } else { 0 }
}
