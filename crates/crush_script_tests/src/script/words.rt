//! Tests how a text is split into words, and which words are numbers.

use crate::script::{LONGEST, TOO_LONG, joined};
use crate::texts::assert_text;
use crush_units::number::number_up_to;
use crush_units::{Reader, Token};
use std::process::Abort;

fn assert_word(rt: &(impl Abort + AllocGlobal), reader: &mut Reader<'_>, at: usize, word: &[u8]) {
    match reader.next() {
        Token::Word { place, text } => {
            assert_eq!(rt; place, at);
            assert_text(rt, text, word);
        }
        _ => panic!(rt; "no word"),
    }
}

fn assert_bad(rt: &impl Abort, reader: &mut Reader<'_>, at: usize) {
    match reader.next() {
        Token::Bad { place } => assert_eq!(rt; place, at),
        _ => panic!(rt; "no bad word"),
    }
}

fn assert_end(rt: &impl Abort, reader: &mut Reader<'_>, at: usize) {
    match reader.next() {
        Token::End { place } => assert_eq!(rt; place, at),
        _ => panic!(rt; "no end"),
    }
}

fn assert_words(
    rt: &(impl Abort + AllocGlobal),
    reader: &mut Reader<'_>,
    words: &[(usize, &[u8])],
) {
    for (at, word) in words {
        assert_word(rt, reader, *at, *word);
    }
}

const BEFORE_KEY: &[(usize, &[u8])] = &[(0, b"host"), (5, b"h1"), (7, b"{")];

const BEHIND_KEY: &[(usize, &[u8])] = &[(16, b"-2"), (18, b"}")];

fn takes_the_key(reader: &mut Reader<'_>) -> bool {
    !reader.take_key(b"alg") && reader.take_key(b"id")
}

#[test]
fn reads_words(rt: HostRuntime) {
    let mut reader = Reader::new(b"host h1{#id\n\tid -2}# end");
    assert_words(&rt, &mut reader, BEFORE_KEY);
    assert!(rt; takes_the_key(&mut reader));
    assert_words(&rt, &mut reader, BEHIND_KEY);
    assert_end(&rt, &mut reader, 24);
}

fn assert_too_long(rt: &impl Abort, text: &[u8]) {
    let mut reader = Reader::new(text);
    assert_bad(rt, &mut reader, 0);
}

#[test]
fn stops_at_bad_bytes_and_long_words(rt: HostRuntime) {
    let mut reader = Reader::new(b"host$ h1");
    let mut longest = Reader::new(LONGEST);
    let text = joined(&rt, &[TOO_LONG, b"$"]);
    assert_word(&rt, &mut reader, 0, b"host");
    assert_bad(&rt, &mut reader, 4);
    assert_bad(&rt, &mut reader, 4);
    assert_word(&rt, &mut longest, 0, LONGEST);
    assert_too_long(&rt, TOO_LONG);
    assert_too_long(&rt, text.as_slice());
}

#[test]
fn numbers_are_read_up_to_the_greatest(rt: HostRuntime) {
    assert_eq!(rt; number_up_to(65535, b"65535"), Some(65535));
    assert_eq!(rt; number_up_to(0, b""), None);
}
