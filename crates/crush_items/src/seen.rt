//! What a map says about an item.

use crush_tree::View;

/// What a map says about one item.
#[derive(Clone, Copy, Debug)]
pub struct Seen<'a> {
    pub view: View<'a>,
    /// The name of the bucket that holds the item; `None` for a root and for an unplaced device.
    pub holder: Option<&'a str>,
}
