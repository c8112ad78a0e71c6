//! The invariant of the word of a gauge, and the contracts of the *steps*. A *seat* is the value
//! with which one thread uses this word. A step is a load or a store of the word, a split of one
//! seat into two seats, or a join of two seats. The contract of a step says what its seats have
//! seen after the step. The types here have no data. The code that takes a step names one of these
//! types, and the type gives the step its contract.

use crate::view::{Law, View};
use atomic_table::{Join, Play, Split, TableRule};
use std::marker::{Brand, PhantomData};

/// The invariant of the word of a gauge, which every step preserves. Before the first load, the
/// word is the weight of the opening, and no seat has seen anything. (A seat is the value with
/// which one thread uses the word.) After this load, there is one opening and one history. The word
/// then encodes the number of changes in this history, and the weight after it. The invariant also
/// says what each seat has seen of this history.
///
/// The word is in a `Table` of the crate `atomic_table`. Such a `Table` has a *key*, which is a
/// value that its creator chooses and that only contracts use. Here the key is the weight of the
/// opening.
pub struct Rule<P> {
    of: PhantomData<P>,
}

impl<O, E, P: Law<O, E>> TableRule<(), View<O, E>, u64> for Rule<P> {
    ghost use Rattle.crush_gauge.specs.Rule.{Holds};
    ghost use Rattle.crush_gauge.specs.declared.view.View.TheVariants.{Fresh};

    ghost holds = { Holds P.legal P.changes P.weight };

    ghost first = { λ weight. Fresh };
}

/// Chooses the opening or the entries of a step, as a list. The opening and the entries exist only
/// in contracts. The code passes [`Brand`] for the type that implements this trait, and the proof
/// of each call says which list this type chooses.
pub(crate) trait ChoosesGhost<T> {
    ghost use Rattle.std.specs.Prelude.{List};

    ghost chosen: { List T };
}

impl<T> ChoosesGhost<T> for Brand {
    ghost use Rattle.std.specs.Prelude.{[]};

    ghost chosen = { [] };
}

/// The step of the first load of a new gauge's word. The first seat, which has seen nothing yet,
/// becomes the book's seat, which is the only seat that publishes. The book's seat has then seen
/// the opening.
pub(crate) struct Begin<M> {
    of: PhantomData<M>,
}

impl<O, E, M: ChoosesGhost<O>> Play<(), View<O, E>> for Begin<M> {
    ghost use Rattle.crush_gauge.specs.Rule.{begun};

    ghost then = { begun M.chosen };
}

/// The step in which the book's seat stores a new value in a gauge's word. The book's seat is the
/// only seat that publishes. The chosen entries are appended to the history that this seat has
/// seen.
pub(crate) struct Publish<M> {
    of: PhantomData<M>,
}

impl<O, E, M: ChoosesGhost<E>> Play<(), View<O, E>> for Publish<M> {
    ghost use Rattle.crush_gauge.specs.Rule.{published};

    ghost then = { published M.chosen };
}

/// A load of a gauge's word with a [`ReadSeat`](crate::ReadSeat). The seat has then seen the
/// history at the moment of this load. The loaded word encodes the number of changes in this
/// history, and the weight after it.
pub(crate) struct Load<P> {
    of: PhantomData<P>,
}

impl<O, E, P: Law<O, E>> Play<(), View<O, E>> for Load<P> {
    ghost use Rattle.crush_gauge.specs.Rule.{loaded};

    ghost then = { loaded P.legal P.changes P.weight };
}

/// A load of a gauge's word with a seat into which another seat was joined just before ([`Merge`]).
/// A seat is the value with which one thread uses the word. The load shows that the two histories
/// that the seats had seen are prefixes of the history that the first seat has seen now.
pub(crate) struct Compare<P> {
    of: PhantomData<P>,
}

impl<O, E, P: Law<O, E>> Play<(), View<O, E>> for Compare<P> {
    ghost use Rattle.crush_gauge.specs.Rule.{learned};

    ghost then = { learned P.legal P.changes P.weight };
}

/// A split of a seat, which is the value with which one thread uses the word of a gauge. The split
/// creates a second seat, which reads. The second seat has seen the same history as the seat that
/// is split.
pub(crate) struct SplitOff;

impl<O, E> Split<View<O, E>> for SplitOff {
    ghost use Rattle.crush_gauge.specs.Rule.{copied};

    ghost left = { λ v. v };

    ghost right = { copied };
}

/// A join of two seats, which are values with which threads use the word of a gauge. The second
/// seat is the one inside a [`Note`](crate::Note). If the first seat is that of a
/// [`ReadSeat`](crate::ReadSeat), then after the join it has seen the longer of the two histories
/// that the seats had seen before. If the first seat is that of a [`BookSeat`](crate::BookSeat),
/// the history that it has seen doesn't change. The second seat can't be used after the join.
pub(crate) struct Merge;

impl<O, E> Join<View<O, E>> for Merge {
    ghost use Rattle.crush_gauge.specs.declared.view.View.TheVariants.{Spent};
    ghost use Rattle.crush_gauge.specs.Rule.{joined};

    ghost both = { joined };

    ghost spent = { Spent };
}
