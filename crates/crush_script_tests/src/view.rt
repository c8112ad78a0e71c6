//! Tests printed trees, lists of items and pairs of items, and the texts that say what has changed
//! between two maps. The expected values follow the forms in docs/user/FORMATS.md.

mod change_parts;
mod changed_parts;
mod changes;
mod classes;
mod comparisons;
mod items;
mod parts;
mod rule_changes;
mod trees;

const EXAMPLE_MAP: &[u8] = b"\
    tunable chooseleaf_stable 1\n\
    device 0 osd.0\n\
    device 1 osd.1\n\
    device 2 osd.2\n\
    type 0 osd\n\
    type 1 host\n\
    type 3 rack\n\
    type 11 root\n\
    host h1 { id -2 alg straw2 hash 0 item osd.0 weight 1.0 item osd.1 weight 1.0 }\n\
    host h2 { id -3 alg straw2 hash 0 item osd.2 weight 0.5 }\n\
    root default { id -1 alg straw2 hash 0 item h1 weight 2.0 item h2 weight 0.5 }\n";
