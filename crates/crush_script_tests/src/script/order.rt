//! Tests the order of devices and buckets in texts that `crushtool` has printed.

use crate::maps::map_of;
use crate::script::text_of;
use crate::texts::assert_text;
use crush_print::{buckets, devices};
use std::process::Abort;

fn assert_order(
    rt: &(impl Abort + AllocGlobal),
    text: &[u8],
    device_numbers: &[u32],
    bucket_numbers: &[i32],
) {
    let map = map_of(rt, text);
    let devices = devices(rt.alloc(), &map).expect(rt, "no memory");
    let buckets = buckets(rt.alloc(), &map).expect(rt, "no memory");
    let printed = text_of(rt, &map);
    drop(map);
    assert_text(rt, printed.as_slice(), text);
    assert_eq!(rt; devices.len(), device_numbers.len());
    for (place, number) in device_numbers.iter().enumerate() {
        let device = devices.get(place).expect(rt, "no device");
        assert_eq!(rt; device.number(), *number);
    }
    assert_eq!(rt; buckets.len(), bucket_numbers.len());
    for (place, number) in bucket_numbers.iter().enumerate() {
        let bucket = buckets.get(place).expect(rt, "no bucket");
        assert_eq!(rt; bucket.number(), *number);
    }
}

#[test]
fn buckets_stand_behind_those_below_them(rt: HostRuntime) {
    assert_order(&rt, NESTED, &[0, 1, 2], &[-2, -5, -3, -6, -7, -4, -1]);
}

#[test]
fn a_device_that_no_bucket_holds_stands_by_its_id(rt: HostRuntime) {
    assert_order(&rt, UNPLACED, &[0, 1, 2, 9], &[-2, -3, -1]);
}

/// The map of `examples/maps/conf-3.job`. In this map, the host node0001 has an id that is farther
/// below 0 than the id of its rack.
const NESTED: &[u8] = b"\
    # begin crush map\n\
    tunable choose_local_tries 0\n\
    tunable choose_local_fallback_tries 0\n\
    tunable choose_total_tries 50\n\
    tunable chooseleaf_descend_once 1\n\
    tunable chooseleaf_vary_r 1\n\
    tunable chooseleaf_stable 1\n\
    tunable straw_calc_version 1\n\
    tunable allowed_bucket_algs 54\n\
    \n\
    # devices\n\
    device 0 osd.0\n\
    device 1 osd.1\n\
    device 2 osd.2\n\
    \n\
    # types\n\
    type 0 osd\n\
    type 1 host\n\
    type 2 chassis\n\
    type 3 rack\n\
    type 4 row\n\
    type 5 pdu\n\
    type 6 pod\n\
    type 7 room\n\
    type 8 datacenter\n\
    type 9 zone\n\
    type 10 region\n\
    type 11 root\n\
    \n\
    # buckets\n\
    host node0000 {\n\
    \tid -2\t\t# do not change unnecessarily\n\
    \t# weight 1.00000\n\
    \talg straw2\n\
    \thash 0\t# rjenkins1\n\
    \titem osd.0 weight 1.00000\n\
    }\n\
    host node0001 {\n\
    \tid -5\t\t# do not change unnecessarily\n\
    \t# weight 1.00000\n\
    \talg straw2\n\
    \thash 0\t# rjenkins1\n\
    \titem osd.1 weight 1.00000\n\
    }\n\
    rack rack000 {\n\
    \tid -3\t\t# do not change unnecessarily\n\
    \t# weight 2.00000\n\
    \talg straw2\n\
    \thash 0\t# rjenkins1\n\
    \titem node0000 weight 1.00000\n\
    \titem node0001 weight 1.00000\n\
    }\n\
    host node0002 {\n\
    \tid -6\t\t# do not change unnecessarily\n\
    \t# weight 1.00000\n\
    \talg straw2\n\
    \thash 0\t# rjenkins1\n\
    \titem osd.2 weight 1.00000\n\
    }\n\
    rack rack001 {\n\
    \tid -7\t\t# do not change unnecessarily\n\
    \t# weight 1.00000\n\
    \talg straw2\n\
    \thash 0\t# rjenkins1\n\
    \titem node0002 weight 1.00000\n\
    }\n\
    row row00 {\n\
    \tid -4\t\t# do not change unnecessarily\n\
    \t# weight 3.00000\n\
    \talg straw2\n\
    \thash 0\t# rjenkins1\n\
    \titem rack000 weight 2.00000\n\
    \titem rack001 weight 1.00000\n\
    }\n\
    root default {\n\
    \tid -1\t\t# do not change unnecessarily\n\
    \t# weight 3.00000\n\
    \talg straw2\n\
    \thash 0\t# rjenkins1\n\
    \titem row00 weight 3.00000\n\
    }\n\
    \n\
    # rules\n\
    rule replicated_rule {\n\
    \tid 0\n\
    \ttype replicated\n\
    \tstep take default\n\
    \tstep chooseleaf firstn 0 type host\n\
    \tstep emit\n\
    }\n\
    \n\
    # end crush map\n";

/// The map of `examples/maps/unplaced-3.job`.
const UNPLACED: &[u8] = b"\
    # begin crush map\n\
    tunable choose_local_tries 0\n\
    tunable choose_local_fallback_tries 0\n\
    tunable choose_total_tries 50\n\
    tunable chooseleaf_descend_once 1\n\
    tunable chooseleaf_vary_r 1\n\
    tunable chooseleaf_stable 1\n\
    tunable straw_calc_version 1\n\
    tunable allowed_bucket_algs 54\n\
    \n\
    # devices\n\
    device 0 osd.0\n\
    device 1 osd.1\n\
    device 2 osd.2\n\
    device 9 osd.9 class ssd\n\
    \n\
    # types\n\
    type 0 osd\n\
    type 1 host\n\
    type 2 chassis\n\
    type 3 rack\n\
    type 4 row\n\
    type 5 pdu\n\
    type 6 pod\n\
    type 7 room\n\
    type 8 datacenter\n\
    type 9 zone\n\
    type 10 region\n\
    type 11 root\n\
    \n\
    # buckets\n\
    host h1 {\n\
    \tid -2\t\t# do not change unnecessarily\n\
    \tid -4 class ssd\t\t# do not change unnecessarily\n\
    \t# weight 2.00000\n\
    \talg straw2\n\
    \thash 0\t# rjenkins1\n\
    \titem osd.0 weight 1.00000\n\
    \titem osd.1 weight 1.00000\n\
    }\n\
    host h2 {\n\
    \tid -3\t\t# do not change unnecessarily\n\
    \tid -5 class ssd\t\t# do not change unnecessarily\n\
    \t# weight 0.50000\n\
    \talg straw2\n\
    \thash 0\t# rjenkins1\n\
    \titem osd.2 weight 0.50000\n\
    }\n\
    root default {\n\
    \tid -1\t\t# do not change unnecessarily\n\
    \tid -6 class ssd\t\t# do not change unnecessarily\n\
    \t# weight 2.50000\n\
    \talg straw2\n\
    \thash 0\t# rjenkins1\n\
    \titem h1 weight 2.00000\n\
    \titem h2 weight 0.50000\n\
    }\n\
    \n\
    # rules\n\
    rule replicated_rule {\n\
    \tid 0\n\
    \ttype replicated\n\
    \tstep take default\n\
    \tstep chooseleaf firstn 0 type host\n\
    \tstep emit\n\
    }\n\
    \n\
    # end crush map\n";
