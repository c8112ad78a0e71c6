//! Tests gauges for histories whose entries are pairs: a number of changes and a weight. A *gauge*
//! is a word of memory that has these two numbers for the current history, and that threads read
//! without a lock.

ghost use Rattle.std.specs.Prelude.{◌≡◌, ◌≤◌, ◌<◌, [], ◌∷◌};
ghost use Rattle.crush_gauge.specs.declared.view.View.TheVariants.{Book as BookSees, Reader};
ghost use Rattle.crush_gauge.specs.Rule.{known, grown};
ghost use Rattle.crush_gauge.specs.Held.{held};

use super::assert_reads;
use crush_gauge::{Gauge, Law};

/// The law of these gauges: it says which histories are legal, and which two numbers a gauge has
/// after each history. Every history is legal. A history with entries has the number of changes and
/// the weight of its last entry. A history without entries has no changes, and its weight is the
/// opening, which is a number here.
struct Pairs;

impl Law<u64, (u64, u64)> for Pairs {
    ghost use Rattle.crush_run_tests.specs.Pairs.{changes_of, weight_behind};

    ghost legal = { λ o h. Unit {0} };

    ghost changes = { λ o h. changes_of h };

    ghost weight = { λ o h. weight_behind o h };
}

type PairGauge = Gauge<u64, (u64, u64), Pairs>;

#[test]
fn the_largest_pair_is_read_as_it_was_published(rt: HostRuntime) {
    let (gauge, mut book, mut seats) = PairGauge::new(rt.alloc(), 8796093022207, 1).expect(
        &rt, "memory",
    );
    let mut seat = seats.pop().expect(&rt, "a seat");
    let first = gauge.read(&mut seat);
    assert_reads(&rt, first, 0, 8796093022207);
    gauge.publish(&mut book, 65536, 8796093022207);
    let second = gauge.read(&mut seat);
    assert_reads(&rt, second, 65536, 8796093022207);
}

#[test]
fn a_note_is_learned_by_a_seat_of_either_kind(rt: HostRuntime) {
    let (gauge, mut book, mut seats) = PairGauge::new(rt.alloc(), 5, 2).expect(&rt, "memory");
    let mut first = seats.pop().expect(&rt, "a seat");
    let mut second = seats.pop().expect(&rt, "a seat");
    gauge.publish(&mut book, 1, 7);
    let of_book = gauge.note(&mut book);
    gauge.learn(&mut first, of_book);
    let of_first = gauge.note(&mut first);
    gauge.learn(&mut second, of_first);
    let read = gauge.read(&mut second);
    assert_reads(&rt, read, 1, 7);
    gauge.learn(&mut book, second.into_note());
}
