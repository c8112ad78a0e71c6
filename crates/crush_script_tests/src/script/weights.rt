//! Tests the two forms in which weights are printed in a map's text. The weights are 1, 119208 and
//! 238465 units.

use crate::script::text_of;
use crate::texts::assert_text;
use crush_print::{WeightForm, write_map};
use crush_text::read_map;

const ROUNDED: &[u8] = b"\
    # begin crush map\n\
    \n\
    # devices\n\
    device 0 osd.0\n\
    device 1 osd.1\n\
    device 2 osd.2\n\
    \n\
    # types\n\
    type 1 host\n\
    \n\
    # buckets\n\
    host h1 {\n\
    \tid -1\t\t# do not change unnecessarily\n\
    \t# weight 5.45767\n\
    \talg straw2\n\
    \thash 0\t# rjenkins1\n\
    \titem osd.0 weight 0.00002\n\
    \titem osd.1 weight 1.81897\n\
    \titem osd.2 weight 3.63869\n\
    }\n\
    \n\
    # rules\n\
    \n\
    # end crush map\n";

const EXACT: &[u8] = b"\
    # begin crush map\n\
    \n\
    # devices\n\
    device 0 osd.0\n\
    device 1 osd.1\n\
    device 2 osd.2\n\
    \n\
    # types\n\
    type 1 host\n\
    \n\
    # buckets\n\
    host h1 {\n\
    \tid -1\t\t# do not change unnecessarily\n\
    \t# weight 5.457673\n\
    \talg straw2\n\
    \thash 0\t# rjenkins1\n\
    \titem osd.0 weight 0.000016\n\
    \titem osd.1 weight 1.818970\n\
    \titem osd.2 weight 3.638688\n\
    }\n\
    \n\
    # rules\n\
    \n\
    # end crush map\n";

#[test]
fn both_forms_are_read_as_the_same_map(rt: HostRuntime) {
    for text in [ROUNDED, EXACT] {
        let (map, _) = read_map(rt.alloc(), text).expect(&rt, "no map");
        let rounded = text_of(&rt, &map);
        let mut exact = Vec::new(rt.alloc());
        let written = write_map(rt.alloc(), &map, WeightForm::Exact, &mut exact);
        drop(map);
        assert!(rt; written.is_ok());
        assert_text(&rt, rounded.as_slice(), ROUNDED);
        assert_text(&rt, exact.as_slice(), EXACT);
    }
}
