//! Tests what operators read from an editor, and which history the editor has when it is closed.
//! With an *editor*, up to 16 operators edit one map at the same time. An operator uses the editor
//! through its *seat*. A *reading* has the number of calls that have changed the map, and the map's
//! total weight. A *note* says which history a seat has seen, and another seat can learn this from
//! the note.
//!
//! Weights are in units of 1/65536. The devices of the map weigh 1, 1 and 0.5, which are 163840
//! units in total. Each call sets the weight of one of the first two devices to 2.

ghost use Rattle.std.specs.Prelude.{◌≡◌, ◌<◌, ◌≤◌};
ghost use mathlib.Core.List.{IsPrefix};
ghost use Rattle.crush_units.specs.declared.limits.TheConstants.{MOST_OPERATORS};
ghost use Rattle.crush_run_tests.specs.Seats.{AreAll};

use crate::maps::PLAIN;
use crush_editor::{Desk, Editor, LockFreeReader, Note, OpenFault, Seat, Started, SubmitFault};
use crush_edits::Edit;
use crush_gauge::Reading;
use crush_history::{Call, Reply};
use crush_map::CrushMap;
use crush_text::read_map;
use crush_units::{Name, Weight};
use std::alloc::Global;
use std::marker::Brand;
use std::process::Abort;
use std::sync::Wait;

mod closing;
mod full;
mod gauge;
mod guarded;
mod no_memory;
mod printed;
mod unkept;

fn started(rt: &(impl Abort + AllocGlobal), operators: usize) -> Started
    requires some { 0 < operators }
    requires few { operators ≤ MOST_OPERATORS }
    ensures { result.parts ≡ operators }
{
    let (map, _) = read_map(rt.alloc(), PLAIN).expect(rt, "no map");
    started_with(rt, map, operators)
}

fn started_with(rt: &(impl Abort + AllocGlobal), map: CrushMap<Global>, operators: usize) -> Started
    requires some { 0 < operators }
    requires few { operators ≤ MOST_OPERATORS }
    ensures { result.parts ≡ operators }
{
    match Started::new(rt.alloc(), map, operators) {
        Ok(started) => started,
        Err(OpenFault { map }) => {
            drop(map);
            panic!(rt; "no memory")
        }
    }
}

fn opened<N: Desk>(rt: &(impl Abort + AllocGlobal), started: Started) -> (Editor<N>, Vec<Seat<N>>)
    requires gauge { started.table ≡ N.gauge }
    requires opening { started.opening ≡ N.opening }
    requires name { started.name ≡ N.name }
    requires parts { started.parts ≡ N.parts }
    ensures { AreAll N.parts result.1.items }
{
    match Editor::<N>::open(rt.alloc(), started) {
        Ok(opened) => opened,
        Err(OpenFault { map }) => {
            drop(map);
            panic!(rt; "no memory")
        }
    }
}

fn submit_by<N: Desk>(
    rt: &(impl Abort + AllocGlobal + Wait),
    editor: &Editor<N>,
    seats: &mut Vec<Seat<N>>,
    operator: usize,
    call: &Call,
) -> Result<Reply, SubmitFault>
    requires { AreAll N.parts seats.old.items }
    ensures { AreAll N.parts seats.new.items }
{
    let seat = seats.get_mut(operator).expect(rt, "no seat");
    editor.submit(rt, rt.alloc(), seat, call)
}

fn reading_by<N: Desk>(
    rt: &impl Abort,
    editor: &Editor<N>,
    seats: &mut Vec<Seat<N>>,
    operator: usize,
) -> Reading
    requires { AreAll N.parts seats.old.items }
    ensures { AreAll N.parts seats.new.items }
{
    editor.reading(seats.get_mut(operator).expect(rt, "no seat"))
}

fn weight_two(rt: &(impl Abort + AllocGlobal), device: &[u8]) -> Edit {
    Edit::Reweight {
        name: Name::read(rt.alloc(), device).expect(rt, "no name"),
        weight: Weight::from_units(131072),
    }
}

fn weigh_two<N: Desk>(
    rt: &(impl Abort + AllocGlobal + Wait),
    editor: &Editor<N>,
    seat: &mut Seat<N>,
    device: &[u8],
) {
    let call = Call::One(weight_two(rt, device));
    let answered = editor.submit(rt, rt.alloc(), seat, &call).is_ok();
    drop(call);
    assert!(rt; answered);
}

fn assert_reads(rt: &impl Abort, read: Reading, changes: u64, weight: u64) {
    assert_eq!(rt; read, Reading { changes, weight });
}

#[test]
fn one_operator(rt: HostRuntime) {
    one_operator_of::<Brand>(&rt, started(&rt, 1));
}

fn one_operator_of<N: Desk>(rt: &(impl Abort + AllocGlobal + Wait), started: Started)
    requires gauge { started.table ≡ N.gauge }
    requires opening { started.opening ≡ N.opening }
    requires name { started.name ≡ N.name }
    requires parts { started.parts ≡ N.parts }
{
    let (editor, mut seats) = opened::<N>(rt, started);
    assert_reads(rt, reading_by(rt, &editor, &mut seats, 0), 0, 163840);
    let call = Call::One(weight_two(rt, b"osd.0"));
    let answered = submit_by(rt, &editor, &mut seats, 0, &call).is_ok();
    drop(call);
    let read = reading_by(rt, &editor, &mut seats, 0);
    assert!(rt; answered);
    assert_reads(rt, read, 1, 229376);
    let closed = editor.close(seats);
    assert_eq!(rt; closed.history.len(), 1);
    assert_eq!(rt; closed.map.total(), 229376);
    assert_eq!(rt; closed.opening.total(), 163840);
}

#[test]
fn a_seat_reads_what_another_submitted(rt: HostRuntime) {
    two_operators::<Brand>(&rt, started(&rt, 2));
}

fn two_operators<N: Desk>(rt: &(impl Abort + AllocGlobal + Wait), started: Started)
    requires gauge { started.table ≡ N.gauge }
    requires opening { started.opening ≡ N.opening }
    requires name { started.name ≡ N.name }
    requires parts { started.parts ≡ N.parts }
{
    let (editor, mut seats) = opened::<N>(rt, started);
    let mut last = seats.pop().expect(rt, "no seat");
    let mut first = seats.pop().expect(rt, "no seat");
    weigh_two(rt, &editor, &mut first, b"osd.0");
    assert_reads(rt, editor.reading(&mut last), 1, 229376);
    assert_eq!(rt; last.slips().len(), 0);
}

#[test]
fn the_debug_text_of_a_seat_has_its_operator(rt: HostRuntime) {
    shown::<Brand>(&rt, started(&rt, 2));
}

fn shown<N: Desk>(rt: &(impl Abort + AllocGlobal + Wait), started: Started)
    requires gauge { started.table ≡ N.gauge }
    requires opening { started.opening ≡ N.opening }
    requires name { started.name ≡ N.name }
    requires parts { started.parts ≡ N.parts }
{
    let (editor, mut seats) = opened::<N>(rt, started);
    let mut seat = seats.pop().expect(rt, "no seat");
    weigh_two(rt, &editor, &mut seat, b"osd.0");
    let text = format!(in rt.alloc(); "{editor:?}, {seat:?}").expect(rt, "no memory");
    assert_eq!(rt;
        text.as_str(),
        "Editor { .. }, Seat { operator: 1, slips: 1 }"
    );
}

/// Passes a note of the seat `from` to the seat `to`, and returns a note of the seat `to`.
///
/// A reading always has the newest numbers, even if its seat has learned no note. So no output of a
/// test shows what a seat has learned from a note. But the contract of this function shows it: the
/// returned note has everything that the seat `from` had seen. The prover would reject this
/// contract if the contract of `learn` promised nothing about the note.
fn pass_note<N: Desk>(editor: &Editor<N>, from: &mut Seat<N>, to: &mut Seat<N>) -> Note<N>
    ensures { IsPrefix from.old.seen result }
{
    let note = editor.note(from);
    editor.learn(to, note);
    editor.note(to)
}

#[test]
fn a_seat_that_learns_a_note_reads_what_it_tells(rt: HostRuntime) {
    a_note_between_two::<Brand>(&rt, started(&rt, 2));
}

fn a_note_between_two<N: Desk>(rt: &(impl Abort + AllocGlobal + Wait), started: Started)
    requires gauge { started.table ≡ N.gauge }
    requires opening { started.opening ≡ N.opening }
    requires name { started.name ≡ N.name }
    requires parts { started.parts ≡ N.parts }
{
    let (editor, mut seats) = opened::<N>(rt, started);
    let mut last = seats.pop().expect(rt, "no seat");
    let mut first = seats.pop().expect(rt, "no seat");
    weigh_two(rt, &editor, &mut first, b"osd.0");
    let note = pass_note(&editor, &mut first, &mut last);
    editor.learn(&mut first, note);
    assert_reads(rt, editor.reading(&mut last), 1, 229376);
    assert_eq!(rt; last.operator(), 1);
}

/// Does the same as [`pass_note`], but with a reader that doesn't use the editor's lock.
fn pass_note_by_reader<N: Desk>(
    reader: &LockFreeReader<N>,
    from: &mut Seat<N>,
    to: &mut Seat<N>,
) -> Note<N>
    ensures { IsPrefix from.old.seen result }
{
    let note = reader.note(from);
    reader.learn(to, note);
    reader.note(to)
}

#[test]
fn a_lock_free_reader_passes_notes(rt: HostRuntime) {
    a_reader_between_two::<Brand>(&rt, started(&rt, 2));
}

fn a_reader_between_two<N: Desk>(rt: &(impl Abort + AllocGlobal + Wait), started: Started)
    requires gauge { started.table ≡ N.gauge }
    requires opening { started.opening ≡ N.opening }
    requires name { started.name ≡ N.name }
    requires parts { started.parts ≡ N.parts }
{
    let (editor, mut seats) = opened::<N>(rt, started);
    let mut last = seats.pop().expect(rt, "no seat");
    let mut first = seats.pop().expect(rt, "no seat");
    weigh_two(rt, &editor, &mut first, b"osd.0");
    let reader = editor.lock_free_reader();
    let note = pass_note_by_reader(reader, &mut first, &mut last);
    reader.learn(&mut first, note);
    assert_reads(rt, reader.reading(&mut last), 1, 229376);
}

#[test]
fn a_seat_that_learns_both_notes_reads_both_calls(rt: HostRuntime) {
    three_operators::<Brand>(&rt, started(&rt, 3));
}

fn three_operators<N: Desk>(rt: &(impl Abort + AllocGlobal + Wait), started: Started)
    requires gauge { started.table ≡ N.gauge }
    requires opening { started.opening ≡ N.opening }
    requires name { started.name ≡ N.name }
    requires parts { started.parts ≡ N.parts }
{
    let (editor, mut seats) = opened::<N>(rt, started);
    let mut last = seats.pop().expect(rt, "no seat");
    let mut middle = seats.pop().expect(rt, "no seat");
    let mut first = seats.pop().expect(rt, "no seat");
    weigh_two(rt, &editor, &mut first, b"osd.0");
    weigh_two(rt, &editor, &mut middle, b"osd.1");
    let of_first = editor.note(&mut first);
    let of_middle = editor.note(&mut middle);
    editor.learn(&mut last, of_first);
    editor.learn(&mut last, of_middle);
    assert_reads(rt, editor.reading(&mut last), 2, 294912);
}
