//! Has the maps between which the plans of the tests lead, beside the example map.

/// The device osd.0 is in h2.
pub const MOVED: &[u8] = b"\
    tunable choose_total_tries 50\n\
    device 0 osd.0\n\
    device 1 osd.1\n\
    device 2 osd.2\n\
    type 0 osd\n\
    type 1 host\n\
    type 3 rack\n\
    type 11 root\n\
    host h1 { id -2 alg straw2 hash 0 item osd.1 weight 1.0 }\n\
    host h2 { id -3 alg straw2 hash 0 item osd.2 weight 0.5 item osd.0 weight 1.0 }\n\
    root default { id -1 alg straw2 hash 0 item h1 item h2 }\n\
    rule replicated_rule { id 0 type replicated step take default step chooseleaf firstn 0 type host step emit }\n";

/// The bucket h1 has another id.
pub const NUMBERED: &[u8] = b"\
    tunable choose_total_tries 50\n\
    device 0 osd.0\n\
    device 1 osd.1\n\
    device 2 osd.2\n\
    type 0 osd\n\
    type 1 host\n\
    type 3 rack\n\
    type 11 root\n\
    host h1 { id -9 alg straw2 hash 0 item osd.0 weight 1.0 item osd.1 weight 1.0 }\n\
    host h2 { id -3 alg straw2 hash 0 item osd.2 weight 0.5 }\n\
    root default { id -1 alg straw2 hash 0 item h1 item h2 }\n\
    rule replicated_rule { id 0 type replicated step take default step chooseleaf firstn 0 type host step emit }\n";

/// This map differs from the example map in the type and the algorithm of h1, in the weight and the
/// class of osd.1, and in the place of osd.0. The device osd.2 is missing, and osd.3 and h3 are
/// new.
pub const OTHERWISE: &[u8] = b"\
    tunable choose_total_tries 50\n\
    device 0 osd.0\n\
    device 1 osd.1 class hdd\n\
    device 3 osd.3\n\
    type 0 osd\n\
    type 1 host\n\
    type 3 rack\n\
    type 11 root\n\
    rack h1 { id -2 alg list hash 0 item osd.1 weight 2.0 }\n\
    host h2 { id -3 alg straw2 hash 0 item osd.0 weight 1.0 }\n\
    root default { id -1 alg straw2 hash 0 item h1 item h2 }\n\
    host h3 { id -4 alg straw2 hash 0 }\n\
    rule replicated_rule { id 0 type replicated step take default step chooseleaf firstn 0 type host step emit }\n";

/// The host h1 and its devices are missing.
pub const SHRUNK: &[u8] = b"\
    tunable choose_total_tries 50\n\
    device 2 osd.2\n\
    type 0 osd\n\
    type 1 host\n\
    type 3 rack\n\
    type 11 root\n\
    host h2 { id -3 alg straw2 hash 0 item osd.2 weight 0.5 }\n\
    root default { id -1 alg straw2 hash 0 item h2 }\n\
    rule replicated_rule { id 0 type replicated step take default step chooseleaf firstn 0 type host step emit }\n";
