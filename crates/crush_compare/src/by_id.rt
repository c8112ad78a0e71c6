//! Matches the items of two maps by their ids.

ghost use Rattle.std.specs.Prelude.{◌≡◌, ◌+◌, ◌<◌, ◌≤◌, ◌^◌, ◌++◌, None, IfOk, length, drop, option_to_list};
ghost use Rattle.crush_compare.specs.Pairs.{ArePairsOf, Rise, keys, least_pair, position, positions, taken};

use crush_items::Place;
use std::alloc::{AllocError, Global};

/// The positions of one item in two maps: for each map, the item's position in that map's list of
/// items, or `None` if that map doesn't have the item. In each pair that this crate returns, at
/// least one of the maps has the item.
#[derive(Clone, Copy, Debug, PartialEq, Eq)]
pub struct Pair {
    pub before: Option<u32>,
    pub after: Option<u32>,
}

/// A `Pair` in which each position is stored with the item's key, as a `Place`. The key is a number
/// that orders the ids.
#[derive(Clone, Copy, Debug)]
pub(crate) struct KeyPair {
    before: Option<Place>,
    after: Option<Place>,
}

/// Merges two lists of places into one list of pairs, in ascending order of the keys. (A place
/// consists of the position of an item and the key of the item's id.) If both lists have a place
/// with a certain key, these two places are one pair. If only one list has such a place, this place
/// is alone in its pair. In each list, each key must be greater than the key before it.
pub(crate) fn pairs_by_key(
    alloc: Global,
    old: &[Place],
    new: &[Place],
) -> Result<Vec<Pair>, AllocError>
    ensures { IfOk result (λ pairs. Rise (keys old.now) → Rise (keys new.now)
        → ArePairsOf old.now new.now pairs.items) }
{
    let mut pairs = Vec::new(alloc);
    let mut before: usize = 0;
    let mut after: usize = 0;
    while before < old.len() || after < new.len() {
        let next = least_pair(place_at(old, before), place_at(new, after));
        before = behind(before, &next.before);
        after = behind(after, &next.after);
        pairs.push(positions(next))?;
    }
    Ok(pairs)
}

/// Returns the place at the position `at` of the list, or `None` if the list ends before this
/// position.
fn place_at(places: &[Place], at: usize) -> Option<Place>
    ensures first { drop at places.now ≡ option_to_list result ++ drop (at + 1) places.now }
    ensures none { result ≡ None → length places.now ≤ at }
    ensures within { at ≤ length places.now → at + taken result ≤ length places.now }
{
    if at < places.len() {
        Some(places[at])
    } else {
        None
    }
}

/// Returns the position after `at` if there is a place, and otherwise `at` itself.
fn behind(at: usize, place: &Option<Place>) -> usize
    requires { at + taken place.now < 2 ^ 64 }
    ensures { result ≡ at + taken place.now }
{
    match place {
        Some(_) => at + 1,
        None => at,
    }
}

/// Returns the pair of both places if their keys are equal, and otherwise the pair that has only
/// the place with the lesser key. If one place is `None`, the pair has only the other place.
fn least_pair(before: Option<Place>, after: Option<Place>) -> KeyPair
    ensures { result ≡ least_pair before after }
{
    match before {
        None => KeyPair { before, after },
        Some(here) => match after {
            None => KeyPair { before, after },
            Some(there) => {
                if here.key < there.key {
                    KeyPair {
                        before,
                        after: None,
                    }
                } else if there.key < here.key {
                    KeyPair {
                        before: None,
                        after,
                    }
                } else {
                    KeyPair { before, after }
                }
            }
        },
    }
}

fn positions(pair: KeyPair) -> Pair
    ensures { result ≡ positions pair }
{
    Pair {
        before: position(pair.before),
        after: position(pair.after),
    }
}

pub(crate) fn position(place: Option<Place>) -> Option<u32>
    ensures { result ≡ position place }
{
    match place {
        Some(place) => Some(place.at),
        None => None,
    }
}
