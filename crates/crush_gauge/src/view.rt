//! What a seat of a [`Gauge`](crate::Gauge) has seen of the history. A gauge is one 64-bit word of
//! memory, shared by threads. A *seat* is the value with which one thread uses this word. The types
//! and the trait in this file are there only for contracts.

use std::collections::LinkedList;

/// Says what the two numbers in a gauge's word mean. Both numbers are about a history of entries
/// `E` after an opening `O`. (The opening is what the history starts from, for example a map.) A
/// law says which histories are legal after an opening. It also says what the two numbers are for
/// each history: how many of its entries are changes, and the weight after the history.
pub trait Law<O, E> {
    ghost use Rattle.std.specs.Prelude.{ℕ, List};

    /// Whether the entries are a legal history after the opening.
    ghost legal: { O → List E → Type 0 };

    /// How many of the entries are changes, if their history starts from the opening.
    ghost changes: { O → List E → ℕ };

    /// The weight after the entries, if their history starts from the opening.
    ghost weight: { O → List E → ℕ };
}

/// What a seat has seen: the opening, and a history that starts from the opening. A seat is the
/// value with which one thread uses the word of a gauge.
///
/// After a join of two seats, `mine` and `other` are the two histories that these seats had seen
/// before the join. The next load shows that both histories are prefixes of `seen`. After this load
/// `mine` and `other` are empty again.
pub struct Known<O, E> {
    /// What the history starts from.
    pub opening: O,
    /// The history that the seat has seen.
    pub seen: LinkedList<E>,
    /// The history that this seat had seen before its last join. It is empty before the first join,
    /// and after the load that follows a join.
    pub mine: LinkedList<E>,
    /// The history that the other seat of the last join had seen before this join. It is empty
    /// before the first join, and after the load that follows a join.
    pub other: LinkedList<E>,
}

/// The *view* of a seat: which kind of seat it is, and what it has seen. A seat is the value with
/// which one thread uses the word of a gauge.
pub enum View<O, E> {
    /// The first seat of a new [`Gauge`](crate::Gauge). It has seen nothing yet, not even the
    /// opening. `Gauge::new` turns it into the book's seat, which is the only seat that publishes
    /// entries.
    Fresh,
    /// A seat that was joined into another seat, and can't be used any more.
    Spent,
    /// The book's seat: the only seat that publishes entries.
    Book(Known<O, E>),
    /// A seat that reads ([`ReadSeat`](crate::ReadSeat)), or the seat inside a note. A
    /// [`Note`](crate::Note) says which history one seat has seen.
    Reader(Known<O, E>),
}
