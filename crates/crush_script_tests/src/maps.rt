//! Parses the text of a map. This file also has the example map, which tests of plans, documents and
//! conflicts use.

use crush_map::CrushMap;
use crush_text::read_map;
use std::alloc::Global;
use std::process::Abort;

/// Returns the map of a text. The text must be valid.
pub fn map_of(rt: &(impl Abort + AllocGlobal), text: &[u8]) -> CrushMap<Global> {
    let (map, _) = read_map(rt.alloc(), text).expect(rt, "no map");
    map
}

/// The text of the example map.
pub const EXAMPLE_MAP: &[u8] = b"\
    tunable choose_total_tries 50\n\
    device 0 osd.0\n\
    device 1 osd.1\n\
    device 2 osd.2\n\
    type 0 osd\n\
    type 1 host\n\
    type 3 rack\n\
    type 11 root\n\
    host h1 { id -2 alg straw2 hash 0 item osd.0 weight 1.0 item osd.1 weight 1.0 }\n\
    host h2 { id -3 alg straw2 hash 0 item osd.2 weight 0.5 }\n\
    root default { id -1 alg straw2 hash 0 item h1 item h2 }\n\
    rule replicated_rule { id 0 type replicated step take default step chooseleaf firstn 0 type host step emit }\n";
