//! Tests a history that has as many entries as a history may have, and one more call after the last
//! of these entries. One test uses an editor, and the other test uses a book without an editor.
//! (The *book* is the map with its history.)

ghost use Rattle.std.specs.Prelude.{◌≡◌};
ghost use Rattle.crush_run_tests.specs.Seats.{AreAll};

use super::{assert_reads, opened, reading_by, started, submit_by};
use crush_editor::{Book, Desk, Editor, MapGauge, Seat, Started, SubmitFault};
use crush_edits::{Edit, Refusal};
use crush_history::{Call, Reply};
use crush_units::Name;
use crush_units::limits::MOST_ENTRIES;
use std::alloc::Global;
use std::marker::Brand;
use std::process::Abort;
use std::sync::Wait;

/// Returns a call that removes an item whose name no item of the example map has.
fn remove_nobody(rt: &(impl Abort + AllocGlobal)) -> Call {
    let name = Name::read(rt.alloc(), b"x").expect(rt, "no name");
    Call::One(Edit::Remove { name })
}

const NOBODY: Result<Reply, SubmitFault> = Ok(Reply::Refused(Refusal::NoSuchItem));

#[test]
fn a_book_is_full_with_the_most_entries(rt: HostRuntime) {
    let (gauge, mut book) = started(&rt, 1).into_book();
    let call = remove_nobody(&rt);
    let filled = fill_book(&rt, &gauge, &mut book, &call);
    let outcome = book.commit(rt.alloc(), &gauge, 0, &call);
    assert!(&rt; filled);
    assert_eq!(&rt; outcome, Err(SubmitFault::Full));
    assert_eq!(&rt; book.history().len(), MOST_ENTRIES);
    assert_eq!(&rt; book.map().total(), 163840);
}

fn fill_book(rt: &impl AllocGlobal, gauge: &MapGauge, book: &mut Book<Global>, call: &Call) -> bool
    requires { book.old.table ≡ gauge.now.table.shared.table_id }
    ensures { book.new.table ≡ book.old.table }
{
    for _ in 0..MOST_ENTRIES {
        let outcome = book.commit(rt.alloc(), gauge, 0, call);
        if outcome != NOBODY {
            return false;
        }
    }
    true
}

#[test]
fn a_seat_is_told_that_the_history_is_full(rt: HostRuntime) {
    one_operator::<Brand>(&rt, started(&rt, 1));
}

fn one_operator<N: Desk>(rt: &(impl Abort + AllocGlobal + Wait), started: Started)
    requires gauge { started.table ≡ N.gauge }
    requires opening { started.opening ≡ N.opening }
    requires name { started.name ≡ N.name }
    requires parts { started.parts ≡ N.parts }
{
    let (editor, mut seats) = opened::<N>(rt, started);
    let call = remove_nobody(rt);
    let filled = fill_editor(rt, &editor, &mut seats, &call);
    let outcome = submit_by(rt, &editor, &mut seats, 0, &call);
    assert!(rt; filled);
    assert_eq!(rt; outcome, Err(SubmitFault::Full));
    assert_reads(rt, reading_by(rt, &editor, &mut seats, 0), 0, 163840);
    let closed = editor.close(seats);
    assert_eq!(rt; closed.history.len(), MOST_ENTRIES);
    assert_eq!(rt; closed.map.total(), 163840);
}

fn fill_editor<N: Desk>(
    rt: &(impl Abort + AllocGlobal + Wait),
    editor: &Editor<N>,
    seats: &mut Vec<Seat<N>>,
    call: &Call,
) -> bool
    requires { AreAll N.parts seats.old.items }
    ensures { AreAll N.parts seats.new.items }
{
    for _ in 0..MOST_ENTRIES {
        let outcome = submit_by(rt, editor, seats, 0, call);
        if outcome != NOBODY {
            return false;
        }
    }
    true
}
