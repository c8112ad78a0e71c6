//! Tests how each prefix of the example map's text is read. A simple rule about the lines of a
//! prefix says whether the prefix is the text of a map.

use crate::script::{put_behind, text_of};
use crate::texts::assert_text;
use crush_map::CrushMap;
use crush_text::{TextFault, TextFaultKind, read_map};
use std::alloc::Global;
use std::process::Abort;

/// The text of the example map. Each tunable, device and type has a line of three words. Each
/// bucket and each rule ends with a line that is just a brace.
const EXAMPLE_MAP: &[u8] = b"\
    # begin crush map\n\
    tunable choose_total_tries 50\n\
    \n\
    # devices\n\
    device 0 osd.0\n\
    device 1 osd.1\n\
    device 2 osd.2\n\
    \n\
    # types\n\
    type 0 osd\n\
    type 1 host\n\
    type 3 rack\n\
    type 11 root\n\
    \n\
    # buckets\n\
    host h1 {\n\
    \tid -2\t\t# do not change unnecessarily\n\
    \t# weight 2.00000\n\
    \talg straw2\n\
    \thash 0\t# rjenkins1\n\
    \titem osd.0 weight 1.00000\n\
    \titem osd.1 weight 1.00000\n\
    }\n\
    host h2 {\n\
    \tid -3\t\t# do not change unnecessarily\n\
    \t# weight 0.50000\n\
    \talg straw2\n\
    \thash 0\t# rjenkins1\n\
    \titem osd.2 weight 0.50000\n\
    }\n\
    root default {\n\
    \tid -1\t\t# do not change unnecessarily\n\
    \t# weight 2.50000\n\
    \talg straw2\n\
    \thash 0\t# rjenkins1\n\
    \titem h1 weight 2.00000\n\
    \titem h2 weight 0.50000\n\
    }\n\
    \n\
    # rules\n\
    rule replicated_rule {\n\
    \tid 0\n\
    \ttype replicated\n\
    \tstep take default\n\
    \tstep chooseleaf firstn 0 type host\n\
    \tstep emit\n\
    }\n\
    \n\
    # end crush map\n";

fn is_of_a_word(byte: u8) -> bool {
    byte.is_ascii_alphanumeric() || byte == b'-' || byte == b'_' || byte == b'.'
}

fn depth(prefix: &[u8]) -> u32 {
    let mut depth: u32 = 0;
    for byte in prefix {
        match *byte {
            b'{' => depth = depth.saturating_add(1),
            b'}' => depth = depth.saturating_sub(1),
            _ => {}
        }
    }
    depth
}

fn last_line(prefix: &[u8]) -> &[u8] {
    let mut last: &[u8] = b"";
    for line in prefix.split(|byte| *byte == b'\n') {
        last = line;
    }
    last
}

fn count_words(line: &[u8]) -> u32 {
    let mut count: u32 = 0;
    for word in line.split(|byte| *byte == b' ') {
        if !word.is_empty() {
            count = count.saturating_add(1);
        }
    }
    count
}

/// Whether the prefix is the text of a map. This can be the case even if the prefix ends inside of
/// the last word of a tunable, a device or a type. The beginning of this word is then still a
/// number, or a name that isn't used elsewhere.
fn is_whole(prefix: &[u8]) -> bool {
    let line = last_line(prefix);
    let is_between = line.is_empty() || line.starts_with(b"#") || line == b"}".as_slice();
    depth(prefix) == 0 && (is_between || count_words(line) == 3)
}

fn last_word(prefix: &[u8]) -> usize {
    let mut begin: usize = 0;
    for (place, byte) in prefix.iter().enumerate() {
        if !is_of_a_word(*byte) {
            begin = place.saturating_add(1);
        }
    }
    begin
}

fn assert_at_the_end(rt: &impl Abort, fault: TextFault, prefix: &[u8], is_cut: bool) {
    if fault.kind == TextFaultKind::Ended {
        assert_eq!(rt; fault.place, prefix.len());
    } else {
        assert!(rt; is_cut);
        assert!(rt; fault.place < prefix.len());
        assert_eq!(rt; fault.place, last_word(prefix));
    }
}

fn statements(rt: &(impl Abort + AllocGlobal), text: &[u8]) -> Vec<u8> {
    let mut kept = Vec::new(rt.alloc());
    for line in text.split(|byte| *byte == b'\n') {
        if !line.is_empty() && !line.starts_with(b"#") {
            put_behind(rt, &mut kept, line);
            put_behind(rt, &mut kept, b"\n");
        }
    }
    kept
}

fn assert_statements(rt: &(impl Abort + AllocGlobal), map: &CrushMap<Global>, prefix: &[u8]) {
    let text = text_of(rt, map);
    let printed = statements(rt, text.as_slice());
    let expected = statements(rt, prefix);
    assert_text(rt, printed.as_slice(), expected.as_slice());
}

/// Asserts that reading the prefix has the expected result. If the prefix is the text of a map, the
/// result is a map with the statements of the prefix. Otherwise, the result is a fault at the end
/// of the prefix, or at the prefix's last word if this word is cut. `is_cut` says whether the
/// prefix ends within a word.
fn assert_due(rt: &(impl Abort + AllocGlobal), prefix: &[u8], is_cut: bool) {
    match read_map(rt.alloc(), prefix) {
        Ok((map, adjusted)) => {
            assert_statements(rt, &map, prefix);
            drop(map);
            assert!(rt; is_whole(prefix));
            assert_eq!(rt; adjusted.count(), 0);
        }
        Err(fault) => {
            assert!(rt; !is_whole(prefix));
            assert_at_the_end(rt, fault, prefix, is_cut);
        }
    }
}

/// Whether the prefix ends within a word that isn't part of a comment.
fn cuts_a_word(prefix: &[u8], rest: &[u8]) -> bool {
    let goes_on = match rest.first() {
        Some(byte) => is_of_a_word(*byte),
        None => false,
    };
    goes_on && !last_line(prefix).contains(&b'#')
}

#[test]
fn prefixes_of_the_example_map(rt: HostRuntime) {
    for length in 0..EXAMPLE_MAP.len() + 1 {
        let (prefix, rest) = EXAMPLE_MAP.split_at(length);
        assert_due(&rt, prefix, cuts_a_word(prefix, rest));
    }
}
