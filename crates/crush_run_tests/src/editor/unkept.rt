//! Tests a book and an editor that don't keep a copy of the map before the first call. (The book is
//! the map with its history.) The tests move each call into its entry of the history, instead of
//! copying the call.

ghost use Rattle.std.specs.Prelude.{◌≡◌};

use super::weight_two;
use crate::maps::PLAIN;
use crush_editor::{Closed, Desk, Editor, OpenFault, Started, WithoutSnapshot};
use crush_history::Call;
use crush_text::read_map;
use std::alloc::Global;
use std::marker::Brand;
use std::process::Abort;
use std::sync::Wait;

fn started_unkept(rt: &(impl Abort + AllocGlobal)) -> Started<Global, WithoutSnapshot>
    ensures { result.parts ≡ 1 }
{
    let (map, _) = read_map(rt.alloc(), PLAIN).expect(rt, "no map");
    match Started::without_opening(rt.alloc(), map, 1) {
        Ok(started) => started,
        Err(OpenFault { map }) => {
            drop(map);
            panic!(rt; "no memory")
        }
    }
}

fn assert_closed(rt: &impl Abort, closed: &Closed<Global, WithoutSnapshot>, weight: u64) {
    assert_eq!(rt; closed.opening, WithoutSnapshot);
    assert_eq!(rt; closed.history.len(), 1);
    assert_eq!(rt; closed.map.total(), weight);
}

#[test]
fn a_book_without_an_opening(rt: HostRuntime) {
    let (gauge, mut book) = started_unkept(&rt).into_book();
    let call = Call::One(weight_two(&rt, b"osd.0"));
    let answered = book.commit_copied(&gauge, 0, call).is_ok();
    let closed = book.into_closed();
    assert!(&rt; answered);
    assert_closed(&rt, &closed, 229376);
}

#[test]
fn an_editor_without_an_opening(rt: HostRuntime) {
    one_operator::<Brand>(&rt, started_unkept(&rt));
}

fn one_operator<N: Desk>(
    rt: &(impl Abort + AllocGlobal + Wait),
    started: Started<Global, WithoutSnapshot>,
)
    requires gauge { started.table ≡ N.gauge }
    requires opening { started.opening ≡ N.opening }
    requires name { started.name ≡ N.name }
    requires parts { (started.parts ≡ N.parts) × (started.parts ≡ 1) }
{
    match Editor::<N, WithoutSnapshot>::open_unkept(rt.alloc(), started) {
        Ok((editor, mut seats)) => {
            let mut seat = seats.pop().expect(rt, "no seat");
            let call = Call::One(weight_two(rt, b"osd.0"));
            let answered = editor
                .submit_copied(rt, rt.alloc(), &mut seat, call)
                .is_ok();
            let slips = seat.slips().len();
            drop(seat);
            drop(editor);
            assert!(rt; answered);
            assert_eq!(rt; slips, 1);
        }
        Err(OpenFault { map }) => {
            drop(map);
            panic!(rt; "no memory")
        }
    }
}
