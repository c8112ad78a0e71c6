//! Tests operators that work at the same time on a map with the largest number of buckets.

use super::at_once::ByTurns;
use super::{AT_ONCE, joined, run_map, summary};
use crate::texts::assert_ends;
use std::process::Abort;

/// The largest number of buckets that a map can have. In the map of this test, each of these
/// buckets except for the last one is inside of the next one.
const DEPTH: u32 = 4096;

fn put_behind(rt: &impl Abort, text: &mut Vec<u8>, bytes: &[u8]) {
    text.extend_from_slice(bytes).expect(rt, "no memory");
}

fn put_host(
    rt: &(impl Abort + AllocGlobal),
    text: &mut Vec<u8>,
    number: u32,
    item: &str,
    weight: &str,
) {
    let host = format!(in rt.alloc();
        "host b{number} {{\n\tid -{number}\t\t# do not change unnecessarily\n\t# weight {weight}\n\talg straw2\n\thash 0\t# rjenkins1\n\titem {item} weight {weight}\n}}\n"
    ).expect(rt, "no memory");
    put_behind(rt, text, host.as_bytes());
}

/// Returns the printed text of a map with one device below a chain of `DEPTH` buckets. The device
/// and all buckets have the weight `weight`.
fn chain(rt: &(impl Abort + AllocGlobal), weight: &str) -> Vec<u8> {
    let mut text = Vec::new(rt.alloc());
    put_behind(
        rt,
        &mut text,
        b"# begin crush map\n\n# devices\ndevice 0 osd.0\n\n# types\ntype 0 osd\ntype 1 host\n\n# buckets\n",
    );
    put_host(rt, &mut text, 1, "osd.0", weight);
    for below in 1..DEPTH {
        let item = format!(in rt.alloc(); "b{below}").expect(rt, "no memory");
        put_host(rt, &mut text, below + 1, item.as_str(), weight);
    }
    put_behind(rt, &mut text, b"\n# rules\n\n# end crush map\n");
    text
}

/// Two scripts that edit the innermost bucket `b1` and its device. At the end, both are where they
/// were before, and the device has the weight 2.
const TWO_SCRIPTS: &[u8] =
    b"%operator a\nreweight osd.0 3.0\nmove b1 host=b4096\n%operator b\nbegin\nreweight-subtree b4096 1.0\nreweight osd.0 2.0\ncommit\nmove b1 host=b2\n";

const TWO_PARTS: &[u8] =
    b"# 1 a reweight osd.0 3.00000 = done changed 1 made 0\n# 2 b begin ; reweight-subtree b4096 1.00000 ; reweight osd.0 2.00000 ; commit = dones 2 changed 2 made 0\n# 3 a move b1 host=b4096 = done changed 1 made 0\n# 4 b move b1 host=b2 = done changed 1 made 0\n";

#[test]
fn two_operators_edit_the_most_buckets(rt: HostRuntime) {
    let gate = ByTurns::new(&rt);
    let before = chain(&rt, "1.00000");
    let job = joined(&rt, before.as_slice(), TWO_SCRIPTS);
    let after = chain(&rt, "2.00000");
    let expected = joined(&rt, after.as_slice(), TWO_PARTS);
    let mut out = Vec::new(rt.alloc());
    let outcome = run_map(&rt, &gate, AT_ONCE, &mut job.as_slice(), &mut out);
    let in_order = gate.kept_order();
    assert!(&rt; in_order);
    assert_eq!(&rt; outcome, Ok(summary(0, 4, 4)));
    assert_ends(&rt, out.as_slice(), TWO_PARTS);
    // A failure of this assertion shows no text, because the text of the map is too long.
    assert!(&rt; out == expected);
}
