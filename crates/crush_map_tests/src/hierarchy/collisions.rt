//! Names that collide under the plain hash (SipHash-1-3 with keys of zeros, folded to 32 bits).
//! Each name has six characters, which are letters or digits. The lowest 16 bits and the highest 8
//! bits of its hash are the same as in the hash of `aaaaaa`. The list has the first such names, if
//! names are sorted so that letters come before digits. The lowest bits of a hash determine a
//! name's place in the hash table, which also stores the highest bits of the hash.

use super::names::{add, device};
use crush_index::{Hashing, Index};
use std::alloc::Global;
use std::process::Abort;

fn add_each(index: &mut Index, alloc: Global, texts: &[&str]) -> bool {
    for (number, text) in (0u32..32).zip(texts) {
        if !add(index, alloc, text.as_bytes(), device(number)) {
            return false;
        }
    }
    true
}

fn assert_finds_each_name(rt: &impl Abort, index: &Index, texts: &[&str], gone: Option<u32>) {
    for (number, text) in (0u32..32).zip(texts) {
        let id = if gone == Some(number) {
            None
        } else {
            device(number)
        };
        assert_eq!(rt; index.id_of(text.as_bytes()), id, "{text}");
    }
}

fn rename(index: &mut Index, alloc: Global, from: &str, to: &str) -> bool {
    let id = index.id_of(from.as_bytes());
    let done = add(index, alloc, to.as_bytes(), id);
    index.forget_name(from.as_bytes());
    done
}

#[test]
fn names_that_collide_are_told_apart(rt: HostRuntime) {
    let texts = [
        "aaaaaa", "apa50m", "ax9j6p", "a2x98l", "a6pmll", "bi9awp", "cdp2k2", "csly6h", "csn3gp",
        "csstpo", "csy3ji", "c5tena", "ddq6n7", "dl1lw0", "dmo1du", "dqdrnl", "dqkeh7", "drqj0u",
        "d3akce", "d4tm4l", "d9k551", "egtkbb", "eg3dy9", "eklniw", "evcf8y", "e4e57m", "fndcdg",
        "ftlnew", "gmmf65", "gnmch3", "g2iytj", "hixqgc",
    ];
    let mut index = Index::new(rt.alloc(), Hashing::plain());
    assert!(rt; add_each(&mut index, rt.alloc(), &texts));
    assert_finds_each_name(&rt, &index, &texts, None);
    assert!(rt; rename(&mut index, rt.alloc(), "csstpo", "h6rr65"));
    assert_eq!(rt; index.id_of(b"h6rr65"), device(9));
    assert_finds_each_name(&rt, &index, &texts, Some(9));
    assert!(rt; rename(&mut index, rt.alloc(), "h6rr65", "csstpo"));
    index.forget_name(b"d9k551");
    assert_eq!(rt; index.id_of(b"h6rr65"), None);
    assert_finds_each_name(&rt, &index, &texts, Some(20));
    drop(index);
}
