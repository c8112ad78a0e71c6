//! The editor: how it is created, the calls that operators submit with its seats, and how it is
//! closed. A *seat* is the value with which one operator uses the editor.

ghost use Rattle.std.specs.Prelude.{◌≡◌, ℕ, ◌<◌, ◌≤◌, [], length, IfOk, IfErr, IfSome, OnOk, OnErr, vec_len, slice_index_or};
ghost use mathlib.Core.Logic.{◌↔◌};
ghost use mathlib.Core.List.{IsPrefix};
ghost use Rattle.crush_units.specs.declared.limits.TheConstants.{MOST_ENTRIES, MOST_OPERATORS};
ghost use Rattle.crush_map.specs.MapData.{MapData};
ghost use Rattle.crush_gauge.specs.declared.view.View.TheVariants.{Book as BookSees};
ghost use Rattle.crush_gauge.specs.Rule.{known};
ghost use Rattle.crush_gauge.specs.Held.{held};
ghost use Rattle.crush_gauge.specs.declared.limits.TheConstants.{MOST_CHANGES};
ghost use Rattle.std.specs.List.{All};
ghost use Rattle.crush_history.specs.History.{changes};
ghost use Rattle.crush_editor.specs.History.{weight_from, OpensGauge};
ghost use Rattle.crush_editor.specs.Book.{IsSameMap, MakesAll, StandsAsBefore};
ghost use Rattle.crush_editor.specs.Seat.{Answered, Guards, Sees, InOrder, IsHistoryOfSeats, seat_data, reads};

use crate::book::{Book, Closed, SubmitFault, Unsubmitted};
use crate::law::{MapBookSeat, MapGauge, Reader};
use crate::lock_free_reader::{LockFreeReader, Note};
use crate::locked::{Desk, Locked, Seat};
use crate::open_fault::OpenFault;
use crate::opening::{KeptOpening, WithoutSnapshot};
use crate::ready::Ready;
use crate::state_lock::StateLock;
use crush_gauge::Reading;
use crush_history::{Call, Reply};
use crush_map::CrushMap;
use std::alloc::{AllocError, Allocator, Global};
use std::fmt;
use std::marker::{Brand, Model};
use std::sync::Wait;
use std::sync::ledger::Blank;

/// The parts of an editor that isn't open yet: its gauge, its book, and a reader for each operator.
/// The *gauge* ([`MapGauge`]) is one word of memory, from which all threads read the number of
/// changes and the map's total weight. The *book* ([`Book`]) is the map with its history. A reader
/// is the part of an operator's [`Seat`] with which the operator reads the gauge.
///
/// Contracts refer to an editor by a type `N`, which is the editor's *name*. Through the name they
/// refer to the editor's gauge and to its opening map (the map before the first call), so both must
/// exist before the name is chosen. A caller therefore first creates a `Started`. Then it calls a
/// function that is generic over `N`, and passes [`Brand`] for `N`. That function calls
/// [`Editor::open`].
#[derive(Drop)]
pub struct Started<A: Allocator = Global, O: KeptOpening = CrushMap<A>> {
    gauge: MapGauge,
    book: Book<A, O>,
    readers: Vec<Reader>,
    blank: Blank,
}

/// Prints the number of operators, as in `Started { operators: 2 }`.
impl<A: Allocator, O: KeptOpening> fmt::Debug for Started<A, O> {
    fn fmt<W: fmt::Write>(&self, f: &mut fmt::Formatter<W>) -> fmt::Result {
        let operators = self.readers.len();
        write!(f, "Started {{ operators: {operators} }}")
    }
}

impl<A: Allocator, O: KeptOpening> Model for Started<A, O> {
    ghost use Rattle.std.specs.Prelude.{◌≡◌, ◌≤◌, [], vec_len};
    ghost use Rattle.std.specs.List.{All};
    ghost use Rattle.std.specs.Coded.{codes};
    ghost use Rattle.crush_units.specs.declared.limits.TheConstants.{MOST_OPERATORS};
    ghost use Rattle.crush_map.specs.Codes.{coded_map};
    ghost use Rattle.crush_gauge.specs.Held.{held};
    ghost use Rattle.crush_editor.specs.Book.{IsSameMap, StandsAsBefore};
    ghost use Rattle.crush_editor.specs.Seat.{StartedData, reads};

    ghost Value = { StartedData };

    ghost coded = { Prim.hlevel (codes, coded_map) };

    ghost view = { λ s. record {
      table = s.gauge.table.shared.table_id;
      opening = s.book.opening;
      name = s.blank.name;
      parts = s.blank.parts;
    } };

    ghost invariant = { λ s. (s.book.table ≡ s.gauge.table.shared.table_id)
        × (s.book.history ≡ []) × StandsAsBefore s.book.opening s.book.map
        × IsSameMap s.book.map s.book.opening
        × (vec_len s.readers ≡ s.blank.parts)
        × (vec_len s.readers ≤ MOST_OPERATORS)
        × All (λ r. r ≡ held s.gauge.table.shared.table_id (reads s.book.opening []))
        s.readers.items };
}

impl<A: Allocator + Clone> Started<A> {
    /// Creates the gauge, the book, and a reader for each of the 1 to 16 operators. ([`Started`]
    /// says what a gauge, a book and a reader are.) The method copies the map once, so that
    /// [`Editor::close`] can return the opening map, which is the map before the first call. If
    /// memory runs out, the error gives the map back.
    pub fn new(
        alloc: Global,
        map: CrushMap<A>,
        operators: usize,
    ) -> Result<Started<A>, OpenFault<A>>
        requires some { 0 < operators }
        requires few { operators ≤ MOST_OPERATORS }
        ensures opening { IfOk result (λ s. s.opening ≡ map) }
        ensures operators { IfOk result (λ s. s.parts ≡ operators) }
        ensures err { IfErr result (λ fault. fault.map ≡ map) }
    {
        let Ok((gauge, seat, readers)) = make_gauge::<Brand, A>(&map, operators, alloc) else {
            return Err(OpenFault { map });
        };
        let book = Book::new(alloc, map, seat)?;
        Ok(Started {
            gauge,
            book,
            readers,
            blank: Blank::new(operators as u64),
        })
    }
}

impl<A: Allocator> Started<A, WithoutSnapshot> {
    /// Does what [`Started::new`] does, but without a copy of the map. Calls change the map itself,
    /// and [`Editor::close`] returns no opening map. If memory runs out, the error gives the map
    /// back.
    pub fn without_opening(
        alloc: Global,
        map: CrushMap<A>,
        operators: usize,
    ) -> Result<Started<A, WithoutSnapshot>, OpenFault<A>>
        requires some { 0 < operators }
        requires few { operators ≤ MOST_OPERATORS }
        ensures opening { IfOk result (λ s. s.opening ≡ map) }
        ensures operators { IfOk result (λ s. s.parts ≡ operators) }
        ensures err { IfErr result (λ fault. fault.map ≡ map) }
    {
        let Ok((gauge, seat, readers)) = make_gauge::<Brand, A>(&map, operators, alloc) else {
            return Err(OpenFault { map });
        };
        let book = Book::without_opening(alloc, map, seat);
        let parts = operators as u64;
        Ok(Started {
            gauge,
            book,
            readers,
            blank: Blank::new(parts),
        })
    }
}

impl<A: Allocator, O: KeptOpening> Started<A, O> {
    /// Returns the gauge and the book, for a program with one thread, which needs no lock. The book
    /// is the map with its history. The gauge is the word of memory in which the book stores the
    /// number of changes and the map's total weight.
    pub fn into_book(self) -> (MapGauge, Book<A, O>)
        ensures table { result.1.table ≡ result.0.table.shared.table_id }
        ensures opening { result.1.opening ≡ self.opening }
        ensures map { IsSameMap result.1.map self.opening }
        ensures stands { StandsAsBefore self.opening result.1.map }
        ensures history { result.1.history ≡ [] }
    {
        let Started {
            gauge,
            book,
            readers: _,
            blank: _,
        } = self;
        (gauge, book)
    }
}

/// The opening map of a gauge, which is the map before the first call. (The gauge is the word of
/// memory with the number of changes and the map's total weight.) This trait exists only for
/// contracts: when the program runs, a gauge is created from the weight of the map, and the map
/// itself isn't needed. The proof of each call of [`make_gauge`] says which map this is.
trait GhostOpening {
    ghost use Rattle.crush_map.specs.MapData.{MapData};

    ghost map: { MapData };
}

impl GhostOpening for Brand {
    ghost use Rattle.crush_editor.specs.Book.{no_map};

    ghost map = { no_map };
}

/// Creates a gauge for the map, with the book's seat and a reader for each operator. The gauge is
/// one word of memory with the number of changes and the map's total weight. The book's seat is the
/// only seat with which this word is changed. An operator reads the word with a reader. Returns an
/// error if memory runs out.
fn make_gauge<M: GhostOpening, A: Allocator>(
    map: &CrushMap<A>,
    operators: usize,
    alloc: Global,
) -> Result<(MapGauge, MapBookSeat, Vec<Reader>), AllocError>
    requires opens { M.map ≡ map.now }
    ensures book { IfOk result (λ r.
        r.1 ≡ held r.0.table.shared.table_id (BookSees (known map.now []))) }
    ensures count { IfOk result (λ r. vec_len r.2 ≡ operators) }
    ensures readers { IfOk result (λ r.
        All (λ s. s ≡ held r.0.table.shared.table_id (reads map.now [])) r.2.items) }
{
    map.forest().recall_invariant();
    new_gauge::<M>(map.total(), operators, alloc)
}

/// Creates a [`MapGauge`] as [`make_gauge`] does, for the opening map that `M` names. `weight` is
/// the total weight of all placed devices of that map, in units (65536 units are 1.0).
fn new_gauge<M: GhostOpening>(
    weight: u64,
    operators: usize,
    alloc: Global,
) -> Result<(MapGauge, MapBookSeat, Vec<Reader>), AllocError>
    requires opens { OpensGauge M.map weight }
    ensures book { IfOk result (λ r.
        r.1 ≡ held r.0.table.shared.table_id (BookSees (known M.map []))) }
    ensures count { IfOk result (λ r. vec_len r.2 ≡ operators) }
    ensures readers { IfOk result (λ r.
        All (λ s. s ≡ held r.0.table.shared.table_id (reads M.map [])) r.2.items) }
{
    MapGauge::new(alloc, weight, operators)
}

/// The editor with the name `N`. It has a *book* and a *gauge*. The book is the map with its
/// history, and one lock protects it. The gauge is one word of memory that all threads share. It
/// contains how many calls have changed the map so far, and the map's total weight after these
/// changes. Threads read the gauge without the lock. Threads share an editor by reference. Each
/// thread needs a [`Seat`] of its own, which is the value with which it uses the editor.
#[derive(Drop)]
pub struct Editor<N: Desk, O: KeptOpening = CrushMap<Global>> {
    lock_free_reader: LockFreeReader<N>,
    state_lock: StateLock<N, O>,
}

/// Prints `Editor { .. }` without the map, because what the lock protects can't be read without
/// waiting.
impl<N: Desk, O: KeptOpening> fmt::Debug for Editor<N, O> {
    fn fmt<W: fmt::Write>(&self, f: &mut fmt::Formatter<W>) -> fmt::Result {
        f.write_str("Editor { .. }")
    }
}

impl<N: Desk, O: KeptOpening> Editor<N, O> {
    /// Waits for the editor's lock, makes a call for the operator of `seat`, and returns the reply.
    /// The method may wait for ever.
    ///
    /// Before the method acquires the lock, it copies the call twice: once for the history, and
    /// once for the slip, which is the call with its reply that the seat keeps. It also reserves
    /// room for the slip. After a reply the [`Seat`] has one more slip, and it has seen the history
    /// up to and including this call.
    ///
    /// A guarded batch ([`Call::Guarded`]) has a number, `seen`. Suppose that `seen` is how many
    /// changes there are in the history that the seat had seen before the call, and that the reply
    /// isn't `Stale`. Then the table of the map right before the batch was the table after that
    /// history. (The *table* is the flat list of the map's devices and buckets with which contracts
    /// describe the map.)
    ///
    /// The error is `Full` if and only if the history is full; otherwise it is `OutOfMemory`. After
    /// an error the call was not made and the slips are unchanged. The seat has then seen the
    /// history as it was while the method held the lock.
    pub fn submit(
        &self,
        rt: &impl Wait,
        alloc: Global,
        seat: &mut Seat<N>,
        call: &Call,
    ) -> Result<Reply, SubmitFault>
        ensures ok { IfOk result (λ r. Answered N.opening seat.old call.now r seat.new) }
        ensures guarded { IfOk result (λ r. Guards N.opening seat.old call.now r seat.new) }
        ensures err { OnErr result (Sees N.opening seat.old seat.new) }
        ensures full { IfErr result (λ fault.
            (fault ≡ SubmitFault.Full) ↔ (length seat.new.seen ≡ MOST_ENTRIES)) }
        ensures few { length seat.new.seen ≤ MOST_ENTRIES }
        ensures more { OnOk result (length seat.old.seen < MOST_ENTRIES) }
    {
        let Ok(copy) = call.try_copy(alloc) else {
            return Err(self.refuse(rt, seat));
        };
        match self.submit_copied(rt, alloc, seat, copy) {
            Ok(reply) => Ok(reply),
            Err(Unsubmitted { fault, .. }) => Err(fault),
        }
    }

    /// Makes a call as [`Editor::submit`] does, but moves the call into its entry of the history.
    /// So the call is copied only once, for its slip (the call with its reply, which the [`Seat`]
    /// keeps). If the method fails, the error gives the call back.
    pub fn submit_copied(
        &self,
        rt: &impl Wait,
        alloc: Global,
        seat: &mut Seat<N>,
        call: Call,
    ) -> Result<Reply, Unsubmitted>
        ensures ok { IfOk result (λ r. Answered N.opening seat.old call r seat.new) }
        ensures guarded { IfOk result (λ r. Guards N.opening seat.old call r seat.new) }
        ensures err { OnErr result (Sees N.opening seat.old seat.new) }
        ensures full { IfErr result (λ e.
            (e.fault ≡ SubmitFault.Full) ↔ (length seat.new.seen ≡ MOST_ENTRIES)) }
        ensures back { IfErr result (λ e. e.call ≡ call) }
        ensures few { length seat.new.seen ≤ MOST_ENTRIES }
        ensures more { OnOk result (length seat.old.seen < MOST_ENTRIES) }
    {
        let Ok(ready) = Ready::new(alloc, &mut seat.slips, &call) else {
            return Err(Unsubmitted {
                fault: self.refuse(rt, seat),
                call,
            });
        };
        let operator = seat.operator;
        let gauge = self.lock_free_reader.gauge();
        let outcome = self.state_lock.lock(rt, &seat.slips, &ready).submit(
            gauge,
            &mut seat.reader,
            &mut seat.ledger_share,
            operator,
            call,
        );
        let reply = match outcome {
            Ok(answer) => answer,
            Err(unanswered) => return Err(unanswered),
        };
        seat.slips.push_reserved(ready.into_slip(reply));
        Ok(reply)
    }

    /// Returns the fault of a call that couldn't be copied because memory ran out. The method waits
    /// for the lock, because only the book (the map with its history) knows whether the history is
    /// full.
    fn refuse(&self, rt: &impl Wait, seat: &mut Seat<N>) -> SubmitFault
        ensures seat { Sees N.opening seat.old seat.new }
        ensures full { (result ≡ SubmitFault.Full) ↔ (length seat.new.seen ≡ MOST_ENTRIES) }
        ensures few { length seat.new.seen ≤ MOST_ENTRIES }
    {
        let gauge = self.lock_free_reader.gauge();
        self.state_lock.refuse(rt, gauge, &mut seat.reader)
    }

    /// Returns the part of the editor that reads the gauge without acquiring the lock. The gauge is
    /// the word of memory with the number of changes and the map's total weight.
    pub fn lock_free_reader(&self) -> &LockFreeReader<N> {
        &self.lock_free_reader
    }

    /// Returns the number of changes so far and the map's total weight now, in units (65536 units
    /// are 1.0). Afterwards the [`Seat`] has seen the history to which both numbers belong. The
    /// method calls [`LockFreeReader::reading`], and doesn't wait for the lock.
    pub fn reading(&self, seat: &mut Seat<N>) -> Reading
        ensures seat { Sees N.opening seat.old seat.new }
        ensures changes { result.changes ≡ changes seat.new.seen }
        ensures weight { result.weight ≡ weight_from N.opening seat.new.seen }
        ensures few { result.changes ≤ MOST_CHANGES }
    {
        self.lock_free_reader.reading(seat)
    }

    /// Returns a [`Note`], which says which history the [`Seat`] has seen. Another seat of this
    /// editor can learn from the note. The method calls [`LockFreeReader::note`].
    pub fn note(&self, seat: &mut Seat<N>) -> Note<N>
        ensures seat { seat.new ≡ seat.old }
        ensures note { result ≡ seat.old.seen }
    {
        self.lock_free_reader.note(seat)
    }

    /// Lets this [`Seat`] learn from a [`Note`] of another seat. The seat has then also seen the
    /// history that the note is about. The method calls [`LockFreeReader::learn`].
    pub fn learn(&self, seat: &mut Seat<N>, note: Note<N>)
        ensures seat { Sees N.opening seat.old seat.new }
        ensures note { IsPrefix note seat.new.seen }
    {
        self.lock_free_reader.learn(seat, note);
    }
}

impl<N: Desk> Editor<N> {
    /// Creates the editor with the name `N`, and a [`Seat`] for each operator. A seat is the value
    /// with which one operator uses the editor. The seat at index k (from 0) belongs to operator k.
    /// If memory runs out, the error gives back the map from which `started` was created.
    pub fn open(
        alloc: Global,
        started: Started,
    ) -> Result<(Editor<N>, Vec<Seat<N>>), OpenFault<Global>>
        requires gauge { started.table ≡ N.gauge }
        requires opening { started.opening ≡ N.opening }
        requires name { started.name ≡ N.name }
        requires parts { started.parts ≡ N.parts }
        ensures count { IfOk result (λ r. vec_len r.1 ≡ N.parts) }
        ensures seats { IfOk result (λ r. (k : ℕ) → k < vec_len r.1
            → slice_index_or r.1.items k (seat_data 0 [] []) ≡ seat_data k [] []) }
        ensures err { IfErr result (λ fault. fault.map ≡ started.opening) }
    {
        match Editor::<N, CrushMap<Global>>::begin(alloc, started) {
            Ok(opened) => Ok(opened),
            Err(book) => Err(OpenFault {
                map: book.into_opening(),
            }),
        }
    }
}

impl<N: Desk> Editor<N, WithoutSnapshot> {
    /// Creates an editor as [`Editor::open`] does, but the editor keeps no copy of its opening map,
    /// which is the map before the first call.
    pub fn open_unkept(
        alloc: Global,
        started: Started<Global, WithoutSnapshot>,
    ) -> Result<(Editor<N, WithoutSnapshot>, Vec<Seat<N>>), OpenFault<Global>>
        requires gauge { started.table ≡ N.gauge }
        requires opening { started.opening ≡ N.opening }
        requires name { started.name ≡ N.name }
        requires parts { started.parts ≡ N.parts }
        ensures count { IfOk result (λ r. vec_len r.1 ≡ N.parts) }
        ensures seats { IfOk result (λ r. (k : ℕ) → k < vec_len r.1
            → slice_index_or r.1.items k (seat_data 0 [] []) ≡ seat_data k [] []) }
        ensures err { IfErr result (λ fault. fault.map ≡ started.opening) }
    {
        match Editor::<N, WithoutSnapshot>::begin(alloc, started) {
            Ok(opened) => Ok(opened),
            Err(book) => Err(OpenFault {
                map: book.into_map(),
            }),
        }
    }
}

impl<N: Desk, O: KeptOpening> Editor<N, O> {
    /// Creates the editor and its seats from a book whose history is empty. The book is the map
    /// with its history, and a seat is the value with which one operator uses the editor. If memory
    /// runs out, the error gives the book back.
    fn begin(
        alloc: Global,
        started: Started<Global, O>,
    ) -> Result<(Editor<N, O>, Vec<Seat<N>>), Book<Global, O>>
        requires gauge { started.table ≡ N.gauge }
        requires opening { started.opening ≡ N.opening }
        requires name { started.name ≡ N.name }
        requires parts { started.parts ≡ N.parts }
        ensures count { IfOk result (λ r. vec_len r.1 ≡ N.parts) }
        ensures seats { IfOk result (λ r. (k : ℕ) → k < vec_len r.1
            → slice_index_or r.1.items k (seat_data 0 [] []) ≡ seat_data k [] []) }
        ensures opening { IfErr result (λ b. b.opening ≡ started.opening) }
        ensures history { IfErr result (λ b. b.history ≡ []) }
    {
        let Started {
            gauge,
            book,
            readers,
            blank,
        } = started;
        let (count, mut all) = blank.open::<N>();
        let mut seats = Vec::new(alloc);
        for reader in readers {
            let ledger_share = all.split_off(1, 0);
            let operator = seats.len();
            let Ok(()) = seats.push(Seat {
                operator,
                slips: Vec::new(alloc),
                reader,
                ledger_share,
            }) else {
                return Err(book);
            };
        }
        let locked = Locked {
            book,
            count,
            spare: all,
        };
        Ok((
            Editor {
                lock_free_reader: LockFreeReader::new(gauge),
                state_lock: StateLock::new(locked),
            },
            seats,
        ))
    }

    /// Closes the editor. Returns its map, its history, and what it keeps of its opening map, which
    /// is the map before the first call. A [`Seat`] is the value with which one operator uses the
    /// editor. `seats` must be all seats of the editor, in the order in which [`Editor::open`] or
    /// [`Editor::open_unkept`] returned them.
    ///
    /// A single thread that made the calls of the history in order would get the same replies. The
    /// history has each answered call exactly once, and the calls of each operator are in the order
    /// in which that operator submitted them. Closing can't fail, and allocates no memory.
    pub fn close(self, seats: Vec<Seat<N>>) -> Closed<Global, O>
        requires count { vec_len seats ≡ N.parts }
        requires order { InOrder seats.items }
        ensures opening { IfSome (O.kept result.opening) (λ m. m ≡ N.opening) }
        ensures history { IsHistoryOfSeats N.opening result.map result.history.items seats.items }
        ensures all { MakesAll N.opening result.map result.history.items }
        ensures few { length result.history.items ≤ MOST_ENTRIES }
    {
        let Editor {
            lock_free_reader,
            state_lock,
        } = self;
        let Locked {
            mut book,
            mut count,
            spare,
        } = state_lock.into_inner();
        let mut all = spare;
        for seat in seats {
            let Seat {
                operator: _,
                slips: _,
                reader,
                ledger_share,
            } = seat;
            book.merge_note(lock_free_reader.gauge(), reader.into_note());
            all.merge(ledger_share);
        }
        count.audit(&mut all);
        book.into_closed()
    }
}
