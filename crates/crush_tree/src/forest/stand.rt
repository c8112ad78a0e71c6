//! The exact position of an item in a forest.

use crush_nodes::place::Place;

/// Where an item is: its place, and its position among the items there.
#[derive(Clone, Copy, Debug, PartialEq, Eq)]
pub struct Stand {
    /// The bucket that holds the item, or the list of roots or of unplaced devices.
    pub place: Place,
    /// The item's index among the items of the place, from 0.
    pub position: usize,
}
