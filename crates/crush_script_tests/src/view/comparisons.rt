//! Tests comparisons of two maps whose items are matched by their ids or by their names.

use super::EXAMPLE_MAP;
use crate::maps::map_of;
use crush_compare::{Comparison, Devices, Difference, Report};
use std::alloc::Global;

/// The example map in which h4 replaces h2, osd.3 replaces osd.2, and osd.1 has a class.
const OTHER_MAP: &[u8] = b"\
    tunable chooseleaf_stable 1\n\
    device 0 osd.0\n\
    device 1 osd.1 class ssd\n\
    device 3 osd.3\n\
    type 0 osd\n\
    type 1 host\n\
    type 3 rack\n\
    type 11 root\n\
    host h1 { id -2 alg straw2 hash 0 item osd.0 weight 1.0 item osd.1 weight 1.0 }\n\
    host h4 { id -4 alg straw2 hash 0 item osd.3 weight 0.5 }\n\
    root default { id -1 alg straw2 hash 0 item h1 weight 2.0 item h4 weight 0.5 }\n";

/// The example map in another cluster: except for osd.1, the items have other ids. The type of
/// hosts has another number, and the hosts are in the reverse order. osd.3 replaces osd.2, and
/// osd.1 weighs twice as much.
const OTHER_CLUSTER: &[u8] = b"\
    tunable chooseleaf_stable 1\n\
    device 1 osd.1\n\
    device 3 osd.3\n\
    device 5 osd.0\n\
    type 0 osd\n\
    type 2 host\n\
    type 3 rack\n\
    type 11 root\n\
    host h2 { id -9 alg straw2 hash 0 item osd.3 weight 0.5 }\n\
    host h1 { id -8 alg straw2 hash 0 item osd.0 weight 1.0 item osd.1 weight 2.0 }\n\
    root default { id -7 alg straw2 hash 0 item h2 weight 0.5 item h1 weight 3.0 }\n";

/// The example map in another cluster: h1 and h2 have exchanged their ids, h2 is a rack, and osd.1
/// is in h2. The device osd.2 weighs one unit (1/65536) less than 0.5.
const MOVED_MAP: &[u8] = b"\
    tunable chooseleaf_stable 1\n\
    device 0 osd.0\n\
    device 1 osd.1\n\
    device 2 osd.2\n\
    type 0 osd\n\
    type 1 host\n\
    type 3 rack\n\
    type 11 root\n\
    host h1 { id -3 alg straw2 hash 0 item osd.0 weight 1.0 }\n\
    rack h2 { id -2 alg straw2 hash 0 item osd.2 weight 0.49999 item osd.1 weight 1.0 }\n\
    root default { id -1 alg straw2 hash 0 item h1 weight 1.0 item h2 weight 1.49999 }\n";

fn word_of(difference: Option<Difference>) -> &'static [u8] {
    match difference {
        None => b"same",
        Some(Difference::Made) => b"made",
        Some(Difference::Removed) => b"removed",
        Some(Difference::Changed(columns)) => {
            if columns.class {
                b"class"
            } else if columns.weight {
                b"weight"
            } else if columns.place {
                b"place"
            } else if columns.kind {
                b"type"
            } else {
                b"another column"
            }
        }
    }
}

/// Whether the pairs of `both` are as `rows` says. Each row has the name of a pair's item, and the
/// word for how the two maps differ in this item.
fn are_pairs(
    both: &Comparison<'_, Global, Global>,
    report: Report,
    rows: &[(&[u8], &[u8])],
) -> bool {
    if both.pairs.len() != rows.len() {
        return false;
    }
    for at in 0..rows.len() {
        let pair = both.pairs[at];
        let name = match both.after(pair) {
            Some(after) => after.view.name.as_bytes(),
            None => match both.before(pair) {
                Some(before) => before.view.name.as_bytes(),
                None => b"",
            },
        };
        if name != rows[at].0 || word_of(both.difference(report, pair)) != rows[at].1 {
            return false;
        }
    }
    true
}

#[test]
fn pairs_are_in_the_order_of_ids(rt: HostRuntime) {
    let old = map_of(&rt, EXAMPLE_MAP);
    let new = map_of(&rt, OTHER_MAP);
    let both = Comparison::by_ids(rt.alloc(), &old, &new).expect(&rt, "no memory");
    let rows: [(&[u8], &[u8]); 8] = [
        (b"default", b"same"),
        (b"h1", b"same"),
        (b"h2", b"removed"),
        (b"h4", b"made"),
        (b"osd.0", b"same"),
        (b"osd.1", b"class"),
        (b"osd.2", b"removed"),
        (b"osd.3", b"made"),
    ];
    let are = are_pairs(&both, Report::Changes, &rows);
    drop(both);
    drop(new);
    drop(old);
    assert!(rt; are);
}

#[test]
fn pairs_of_a_part_are_of_the_items_that_were_or_are_in_it(rt: HostRuntime) {
    let old = map_of(&rt, EXAMPLE_MAP);
    let new = map_of(&rt, MOVED_MAP);
    let under = old.locate("h2").expect(&rt, "no item");
    let both = Comparison::by_ids_below(rt.alloc(), &old, &new, under).expect(&rt, "no memory");
    let rows: [(&[u8], &[u8]); 3] = [
        (b"h1", b"weight"),
        (b"osd.0", b"place"),
        (b"osd.2", b"weight"),
    ];
    let are = are_pairs(&both, Report::Changes, &rows);
    let same = match both.pairs.first() {
        Some(pair) => both.same_class_ids(*pair),
        None => false,
    };
    drop(both);
    drop(new);
    drop(old);
    assert!(rt; are);
    assert!(rt; same);
}

#[test]
fn pairs_by_names_are_in_the_order_of_the_new_tree(rt: HostRuntime) {
    let old = map_of(&rt, EXAMPLE_MAP);
    let new = map_of(&rt, OTHER_CLUSTER);
    let both = Comparison::by_names(rt.alloc(), Devices::ByName, &old, &new).expect(
        &rt,
        "no memory",
    );
    let rows: [(&[u8], &[u8]); 7] = [
        (b"default", b"weight"),
        (b"h2", b"same"),
        (b"osd.3", b"made"),
        (b"h1", b"weight"),
        (b"osd.0", b"same"),
        (b"osd.1", b"weight"),
        (b"osd.2", b"removed"),
    ];
    let are = are_pairs(&both, Report::Changes, &rows);
    drop(both);
    drop(new);
    drop(old);
    assert!(rt; are);
}

#[test]
fn a_part_has_what_is_below_its_name_in_either_map(rt: HostRuntime) {
    let old = map_of(&rt, EXAMPLE_MAP);
    let new = map_of(&rt, MOVED_MAP);
    let under = Some("h1");
    let both = Comparison::by_names_part(rt.alloc(), Devices::ById, under, &old, &new).expect(
        &rt,
        "no memory",
    );
    let rows: [(&[u8], &[u8]); 3] = [(b"h1", b"same"), (b"osd.0", b"same"), (b"osd.1", b"place")];
    let are = are_pairs(&both, Report::Remaining, &rows);
    drop(both);
    drop(new);
    drop(old);
    assert!(rt; are);
}
