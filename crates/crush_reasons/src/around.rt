//! Finds in a map's text the bucket or rule that is open at a given place, which means that the
//! place is between its braces. Also finds the place where the bucket with a given name is defined.
//!
//! A place is the index of a byte of the text, from 0. A bucket or a rule is *open* at a place if
//! its `{` comes before the place, and its `}` doesn't. Both searches end early in two cases, and
//! ignore the rest of the text: at a byte that is allowed only in comments but isn't in a comment,
//! and at a word of more than 255 bytes.

ghost use Rattle.std.specs.Prelude.{◌≡◌};
ghost use Rattle.crush_units.specs.Words.{words};
ghost use Rattle.crush_reasons.specs.Around.{around_at, defined_at, further, looked_for, looked_further, nothing_seen, nothing_yet, one_further};

use crate::words::{next_placed, up_to};
use crush_units::Reader;

/// What the words before a place of a map's text say about this place.
#[derive(Clone, Copy)]
pub(crate) struct Around {
    /// Whether a bucket or a rule is open at the place.
    pub(crate) is_open: bool,
    /// The place of the first word of the bucket or rule whose `{` was read last, or 0 if no `{`
    /// was read.
    pub(crate) head: usize,
    /// Where the second-to-last word before the given place begins, or 0 if there is no such word.
    pub(crate) before: usize,
    /// Where the last word before the given place begins, or 0 if there is no such word.
    pub(crate) last: usize,
}

impl Around {
    fn one_further(self, place: usize, word: &[u8]) -> Around
        ensures { result ≡ one_further self (record { place = place; text = word.now }) }
    {
        let opens = word == b"{".as_slice();
        let closes = word == b"}".as_slice();
        Around {
            is_open: opens || (self.is_open && !closes),
            head: if opens { self.before } else { self.head },
            before: self.last,
            last: place,
        }
    }
}

#[tactic(auto, unfolding(crate::specs::Around::further))]
fn go_through(text: &[u8]) -> Around
    ensures { result ≡ further nothing_yet (words 0 text.now).words }
{
    let mut around = Around {
        is_open: false,
        head: 0,
        before: 0,
        last: 0,
    };
    let mut reader = Reader::new(text);
    while let Some(word) = next_placed(&mut reader) {
        around = around.one_further(word.place, word.text);
    }
    around
}

pub(crate) fn around_at(bytes: &[u8], place: usize) -> Around
    ensures { result ≡ around_at bytes.now place }
{
    go_through(up_to(place, bytes))
}

/// The state of the search for the bucket with a given name, after the words that were read so far.
#[derive(Clone, Copy)]
pub(crate) struct Search {
    /// Whether the last word that was read is the given name, and the word before this name isn't
    /// `rule`.
    pub(crate) is_name: bool,
    /// Whether the last word that was read is `rule`.
    pub(crate) is_rule: bool,
    /// The place of the last word that was read.
    pub(crate) last: usize,
    /// The place of the name in the last definition of this bucket that was read, or 0 if no
    /// definition was read so far.
    pub(crate) found: usize,
}

impl Search {
    fn looked_further(self, name: &[u8], place: usize, word: &[u8]) -> Search
        ensures { result ≡ looked_further name.now self (record { place = place; text = word.now }) }
    {
        let opens = word == b"{".as_slice();
        Search {
            is_name: word == name && !self.is_rule,
            is_rule: word == b"rule".as_slice(),
            last: place,
            found: if opens && self.is_name {
                self.last
            } else {
                self.found
            },
        }
    }
}

/// Returns the place of the name in the last definition of a bucket with this name, or 0 if no
/// definition was found. In a definition, `{` follows the name, and the word before the name isn't
/// `rule`.
#[tactic(auto, unfolding(crate::specs::Around::looked_for))]
pub(crate) fn defined_at(bytes: &[u8], name: &[u8]) -> usize
    ensures { result ≡ defined_at bytes.now name.now }
{
    let mut search = Search {
        is_name: false,
        is_rule: false,
        last: 0,
        found: 0,
    };
    let mut reader = Reader::new(bytes);
    while let Some(word) = next_placed(&mut reader) {
        search = search.looked_further(name, word.place, word.text);
    }
    search.found
}
