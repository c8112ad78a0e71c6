//! The gauge: one 64-bit word of memory, shared by threads, that encodes two numbers about a
//! history. The numbers are how many of the history's entries are changes, and the weight after the
//! history.

ghost use Rattle.std.specs.Prelude.{◌≡◌, ℕ, ◌<◌, ◌≤◌, ◌++◌, ◌∷◌, [], IfOk, vec_len, length};
ghost use Rattle.std.specs.List.{All};
ghost use Rattle.crush_gauge.specs.declared.view.View.TheVariants.{Book, Reader};
ghost use Rattle.crush_gauge.specs.Rule.{known, opened, copied, IsEither, IsSameKind, IsLawful, Opens, Follows, Reads, Learns, grown};
ghost use Rattle.crush_gauge.specs.Held.{held, copy_of};

use crate::ghost_steps::{Begin, ChoosesGhost, Compare, Load, Merge, Publish, Rule, SplitOff};
use crate::limits::CHANGE;
use crate::seat::{BookSeat, Note, ReadSeat};
use crate::view::{Law, View};
use crate::watcher::Watcher;
use atomic_table::{Seat, Table};
use std::alloc::{AllocError, Global};
use std::marker::Brand;

/// One 64-bit word of memory, shared by threads, with the value `changes * 2^43 + weight`.
/// `changes` is how many entries of a history are changes, and `weight` is the weight after this
/// history. The history has entries `E`, and starts from an opening `O`, for example from a map.
///
/// The law `P` says which histories are legal, and what the two numbers are for each history. The
/// loads and stores of the word by all threads have one total order (sequential consistency).
#[derive(Drop)]
pub struct Gauge<O, E, P: Law<O, E>> {
    /// The shared word, in a `Table` of the crate `atomic_table` (this isn't the table of a map).
    /// In contracts, this `Table` also has what each seat has seen. A seat is the value with which
    /// one thread uses the word. What seats have seen doesn't exist when the program runs.
    pub table: Table<(), View<O, E>, u64, Rule<P>, Global>,
    pub ghost one_word: { (table.shared.table_id.words ≡ 1) × (table.shared.table_id.slots ≡ 0) },
}

/// What [`Gauge::read`] returns about one history: how many of its entries are changes, and the
/// weight after this history.
#[derive(Clone, Copy, Debug, PartialEq, Eq)]
pub struct Reading {
    /// How many entries of the history are changes. This number is at most
    /// [`MOST_CHANGES`](crate::limits::MOST_CHANGES).
    pub changes: u64,
    /// The weight after the history. The law `P` of the [`Gauge`] says what this weight is, and in
    /// which unit. The weight is below 2^43.
    pub weight: u64,
}

impl<O, E, P: Law<O, E>> Gauge<O, E, P> {
    /// Creates a gauge (one 64-bit word, shared by threads), a [`BookSeat`], and `readers` seats of
    /// the type [`ReadSeat`]. A seat is the value with which one thread uses the word. Only the
    /// `BookSeat` publishes entries.
    ///
    /// The caller's proof chooses the opening. After the opening, the empty history must be legal
    /// and have no changes. `weight` must be the value that `P.weight` gives for the opening and
    /// the empty history, and must be below 2^43. Each new seat has seen the opening and no entry.
    /// The method returns an error if memory runs out.
    pub fn new(
        alloc: Global,
        weight: u64,
        readers: usize,
    ) -> Result<(Gauge<O, E, P>, BookSeat<O, E>, Vec<ReadSeat<O, E>>), AllocError>
        ghost opening: { O }
        requires lawful { IsLawful P.legal P.changes P.weight opening [] }
        requires changes { P.changes opening [] ≡ 0 }
        requires weight { P.weight opening [] ≡ weight }
        ensures book { IfOk result (λ r.
            r.1 ≡ held r.0.table.shared.table_id (Book (known opening []))) }
        ensures count { IfOk result (λ r. vec_len r.2 ≡ readers) }
        ensures readers { IfOk result (λ r.
            All (λ s. s ≡ held r.0.table.shared.table_id (Reader (known opening []))) r.2.items) }
    {
        let (table, first) = Table::of_words(alloc, &[weight], &weight)?;
        let gauge = Gauge { table };
        let mut book = gauge.begin::<Brand>(first, weight);
        let seats = gauge.readers(alloc, &mut book, readers)?;
        Ok((gauge, book, seats))
    }

    /// Turns the first seat of a new gauge into the book's seat, which is the only seat that
    /// publishes. The book's seat has then seen the opening that `M` chooses. The first seat is the
    /// one that `Table::of_words` of the crate `atomic_table` has returned.
    fn begin<M: ChoosesGhost<O>>(&self, first: Seat<(), View<O, E>>, weight: u64) -> BookSeat<O, E>
        requires gauge { first.table_id ≡ self.now.table.shared.table_id }
        requires key { self.now.table.shared.key ≡ weight }
        requires fresh { first.me ≡ (View.Fresh, []) }
        requires opens { Opens P.legal P.changes P.weight M.chosen weight }
        ensures { result ≡ held first.table_id (opened M.chosen) }
    {
        let mut seat = first;
        self.table.shared.load::<Begin<M>>(&mut seat, 0);
        BookSeat { seat }
    }

    /// Creates `readers` seats of the type [`ReadSeat`]. Each of them has seen what the
    /// [`BookSeat`] `book` has seen. Returns an error if memory runs out.
    fn readers(
        &self,
        alloc: Global,
        book: &mut BookSeat<O, E>,
        readers: usize,
    ) -> Result<Vec<ReadSeat<O, E>>, AllocError>
        requires { book.old.table ≡ self.now.table.shared.table_id }
        ensures book { book.new ≡ book.old }
        ensures count { IfOk result (λ seats. vec_len seats ≡ readers) }
        ensures seats { IfOk result (λ seats. All (λ s. s ≡ copy_of book.old) seats.items) }
    {
        let mut seats = Vec::new(alloc);
        for _reader in 0..readers {
            let Note { seat } = self.note(book);
            seats.push(ReadSeat { seat })?;
        }
        Ok(seats)
    }

    /// Returns a [`Note`], which says which history the seat has seen. The seat is the one inside a
    /// [`BookSeat`] or a [`ReadSeat`]. The call doesn't change what the seat has seen.
    pub(crate) fn note_of(&self, seat: &mut Seat<(), View<O, E>>) -> Note<O, E>
        requires gauge { seat.old.table_id ≡ self.now.table.shared.table_id }
        requires either { IsEither seat.old.me.0 }
        ensures table { seat.new.table_id ≡ seat.old.table_id }
        ensures seat { seat.new.me ≡ seat.old.me }
        ensures note { result ≡ held seat.old.table_id (copied seat.old.me.0) }
    {
        Note {
            seat: self.table.shared.split_seat::<SplitOff>(seat),
        }
    }

    /// Publishes one entry: stores `changes` and `weight` in the word of the gauge, by one atomic
    /// store. Until the next entry is published, [`Gauge::read`] then returns these two numbers.
    ///
    /// The caller's proof chooses the entry. The history with this entry appended must be legal. By
    /// the gauge's law `P`, this history must have exactly `changes` changes and the weight
    /// `weight`. `changes` is at most [`MOST_CHANGES`](crate::limits::MOST_CHANGES), and `weight`
    /// is below 2^43. After the call, the history that the [`BookSeat`] `book` has seen ends with
    /// this entry.
    pub fn publish(&self, book: &mut BookSeat<O, E>, changes: u64, weight: u64)
        ghost entry: { E }
        requires gauge { book.old.table ≡ self.now.table.shared.table_id }
        requires follows { Follows P.legal P.changes P.weight book.old.view (entry ∷ []) changes
            weight }
        ensures { book.new ≡ held book.old.table (grown (entry ∷ []) book.old.view) }
    {
        self.publish_as::<Brand>(book, changes, weight)
    }

    fn publish_as<M: ChoosesGhost<E>>(&self, book: &mut BookSeat<O, E>, changes: u64, weight: u64)
        requires gauge { book.old.table ≡ self.now.table.shared.table_id }
        requires follows { Follows P.legal P.changes P.weight book.old.view M.chosen changes
            weight }
        ensures { book.new ≡ held book.old.table (grown M.chosen book.old.view) }
    {
        let word = changes * CHANGE + weight;
        self.table
            .shared
            .store::<Publish<M>>(&mut book.seat, 0, word)
    }

    /// Reads the word of the gauge by one load. Returns how many entries of the history at the
    /// moment of this load are changes, and the weight after this history. The call never waits for
    /// another thread, and allocates nothing.
    ///
    /// The [`ReadSeat`] has then seen this history, which begins with the history that it had seen
    /// before.
    pub fn read(&self, seat: &mut ReadSeat<O, E>) -> Reading
        requires { seat.old.table ≡ self.now.table.shared.table_id }
        ensures table { seat.new.table ≡ seat.old.table }
        ensures reads { Reads P.legal P.changes P.weight seat.old.view result.changes result.weight
            seat.new.view }
    {
        let word = self.table.shared.load::<Load<P>>(&mut seat.seat, 0);
        Reading {
            changes: word / CHANGE,
            weight: word % CHANGE,
        }
    }

    /// Returns a [`Note`], which says which history the seat has seen. Another seat of this
    /// [`Gauge`] can learn from this note. `seat` is a [`BookSeat`] or a [`ReadSeat`]. The call
    /// doesn't change what the seat has seen.
    pub fn note<S: Watcher<O, E>>(&self, seat: &mut S) -> Note<O, E>
        requires { (S.knows seat.old).table ≡ self.now.table.shared.table_id }
        ensures seat { S.knows seat.new ≡ S.knows seat.old }
        ensures note { result ≡ copy_of (S.knows seat.old) }
    {
        seat.note_of(self)
    }

    /// Lets a seat learn from a [`Note`], which says which history another seat has seen. The first
    /// seat has then also seen the note's history.
    ///
    /// `seat` is a [`BookSeat`] or a [`ReadSeat`]. The seat and the note must belong to this gauge.
    /// A `ReadSeat` has then seen the longer of the two histories, and the shorter is a prefix of
    /// it. A `BookSeat` has already seen the whole history. So it learns only that the note's
    /// history is a prefix of its own history. The call first joins the seat inside the note into
    /// this seat, and then loads the word of the gauge.
    pub fn learn<S: Watcher<O, E>>(&self, seat: &mut S, note: Note<O, E>)
        requires seat { (S.knows seat.old).table ≡ self.now.table.shared.table_id }
        requires note { note.table ≡ self.now.table.shared.table_id }
        ensures table { (S.knows seat.new).table ≡ (S.knows seat.old).table }
        ensures learns { Learns P.legal P.changes P.weight (S.knows seat.old).view note.view
            (S.knows seat.new).view }
    {
        seat.learn_from(self, note);
    }

    /// Joins the seat inside a [`Note`] into `seat`, and then loads the word of the gauge. `seat`
    /// is the one inside a [`BookSeat`] or a [`ReadSeat`]. The load proves that the history of the
    /// seat and the history of the note are prefixes of one history.
    pub(crate) fn join_note(&self, seat: &mut Seat<(), View<O, E>>, note: Note<O, E>)
        requires gauge { seat.old.table_id ≡ self.now.table.shared.table_id }
        requires either { IsEither seat.old.me.0 }
        requires note { note.table ≡ self.now.table.shared.table_id }
        ensures table { seat.new.table_id ≡ seat.old.table_id }
        ensures free { seat.new.me.1 ≡ seat.old.me.1 }
        ensures kind { IsSameKind seat.old.me.0 seat.new.me.0 }
        ensures learns { Learns P.legal P.changes P.weight seat.old.me.0 note.view seat.new.me.0 }
    {
        let Note { seat: other } = note;
        self.table.shared.join_seat::<Merge>(seat, other);
        self.table.shared.load::<Compare<P>>(seat, 0);
    }
}
