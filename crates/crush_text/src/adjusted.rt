//! The number of buckets whose weight in a map's text is wrong.

ghost use Rattle.std.specs.Prelude.{◌≡◌};

use std::marker::Model;

/// The number of buckets for which the text of a map gives a wrong weight. The text can give a
/// weight for a bucket in the line in which another bucket lists the bucket as an item. This weight
/// is wrong if it isn't the sum of the weights of the devices below the bucket. In the map that
/// [`read_map`](crate::read_map) returns, the bucket has this sum instead. In contracts, the value
/// of this type is the number of these buckets.
#[derive(Clone, Copy, Debug, PartialEq, Eq)]
pub struct Adjusted {
    pub(crate) buckets: u32,
}

impl Model for Adjusted {
    ghost use Rattle.std.specs.Prelude.{ℕ};

    ghost Value = { ℕ };

    ghost view = { λ adjusted. adjusted.buckets };

    ghost inverse = { λ n. record { buckets = n } };
}

impl Adjusted {
    /// Returns the number of buckets for which the text gives a wrong weight.
    pub fn count(self) -> u32
        ensures { result ≡ self }
    {
        self.buckets
    }
}
