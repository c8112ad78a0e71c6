//! Tests the largest number of devices, the largest number of buckets and the greatest weight that
//! a map can have. The tests also check that a text with one more device, bucket or unit of weight
//! is rejected. The other limits are in examples/refused/limits.txt.

use crate::maps::map_of;
use crate::script::{assert_refused_behind, joined, put_behind};
use crush_text::TextFaultKind;
use std::ops::Range;
use std::process::Abort;

fn put_number(rt: &(impl Abort + AllocGlobal), text: &mut Vec<u8>, number: u32) {
    let digits = format!(in rt.alloc(); "{number}").expect(rt, "no memory");
    put_behind(rt, text, digits.as_bytes());
}

/// Appends the line to the text. Each `@` in the line is replaced by `number`, and each `~` by the
/// number before `number`.
fn put_line(rt: &(impl Abort + AllocGlobal), text: &mut Vec<u8>, line: &[u8], number: u32) {
    for byte in line {
        match *byte {
            b'@' => put_number(rt, text, number),
            b'~' => put_number(rt, text, number.saturating_sub(1)),
            byte => text.push(byte).expect(rt, "no memory"),
        }
    }
}

fn put_lines(
    rt: &(impl Abort + AllocGlobal),
    text: &mut Vec<u8>,
    line: &[u8],
    numbers: Range<u32>,
) {
    for number in numbers {
        put_line(rt, text, line, number);
    }
}

fn with_lines(
    rt: &(impl Abort + AllocGlobal),
    before: &[u8],
    line: &[u8],
    numbers: Range<u32>,
) -> Vec<u8> {
    let mut text = joined(rt, &[before]);
    put_lines(rt, &mut text, line, numbers);
    text
}

#[test]
fn at_most_65536_devices(rt: HostRuntime) {
    let most = with_lines(&rt, b"", b"device @ osd.@\n", 0..65536);
    let map = map_of(&rt, most.as_slice());
    let devices = map.counts().devices;
    drop(map);
    assert_eq!(rt; devices, 65536);
    assert_refused_behind(
        &rt,
        most.as_slice(),
        b"device 65536 osd.65536\n",
        TextFaultKind::TooMany,
    );
}

/// Returns the text of a map with 4,096 buckets. The first bucket has no items. Each other bucket
/// has one item: the bucket of the previous line.
fn chain(rt: &(impl Abort + AllocGlobal)) -> Vec<u8> {
    let before = b"type 1 host\nhost b1 { id -1 alg straw2 }\n";
    let line = b"host b@ { id -@ alg straw2 item b~ weight 0 }\n";
    with_lines(rt, before, line, 2..4097)
}

const BEHIND_4096_BUCKETS: &[(&[u8], TextFaultKind)] = &[
    (
        b"host b4097 { id -4097 alg straw2 item b4096 weight 0 }\n",
        TextFaultKind::TooMany,
    ),
    (
        b"rack b4097 { id -4097 alg straw2 }",
        TextFaultKind::UnknownType,
    ),
    (b"{", TextFaultKind::Unexpected),
    (b"class ssd", TextFaultKind::Unexpected),
    (b"choose_args 0 { }", TextFaultKind::LeftOut),
];

#[test]
fn at_most_4096_buckets(rt: HostRuntime) {
    let most = chain(&rt);
    for (words, kind) in BEHIND_4096_BUCKETS {
        assert_refused_behind(&rt, most.as_slice(), *words, *kind);
    }
}

const THREE_DEVICES: &[u8] = b"device 1@ d@\ndevice 2@ e@\ndevice 3@ f@\n";

/// A line with a host. The devices of the host weigh 2147483647, 2147483647 and 1 units. The sum of
/// these weights is the greatest weight that a bucket can have.
const HOST_OF_THREE: &[u8] = b"\
    host h@ { id -1@ alg straw2 item d@ weight 32767.99998 item e@ weight 32767.99998 \
    item f@ weight 0.00002 }\n";

/// Returns the beginning of a map's text, which has 2,048 hosts that weigh 4294967295 units each.
/// The returned text ends inside of one more host, before the weight of its device.
fn heaviest(rt: &(impl Abort + AllocGlobal)) -> Vec<u8> {
    let mut text = with_lines(rt, b"type 1 host\ndevice 0 d\n", THREE_DEVICES, 0..2048);
    put_lines(rt, &mut text, HOST_OF_THREE, 0..2048);
    put_behind(
        rt,
        &mut text,
        b"host last { id -1 alg straw2 item d weight ",
    );
    text
}

#[test]
fn a_total_of_at_most_8796093022207_units(rt: HostRuntime) {
    let before = heaviest(&rt);
    let most = joined(&rt, &[before.as_slice(), b"0.03123 }"]);
    let map = map_of(&rt, most.as_slice());
    let total = map.total();
    drop(map);
    assert_eq!(rt; total, 8796093022207);
    assert_refused_behind(
        &rt,
        before.as_slice(),
        b"0.03125 }",
        TextFaultKind::SumTooLarge,
    );
}
