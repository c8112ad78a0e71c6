//! The algorithms of buckets, and their words in a map's text.

ghost use Rattle.std.specs.Prelude.{◌≡◌, IsTrue, ◌↔◌, IfSome, Some};
ghost use Rattle.crush_units.specs.Alg.{alg_text, alg_of_text, same_alg};

/// The algorithm by which a bucket chooses among its items. Ceph has further algorithms, such as
/// `uniform`, which this editor doesn't support. `Ord` orders the algorithms in the order of the
/// variants.
#[derive(Clone, Copy, Debug, PartialEq, Eq, PartialOrd, Ord, Hash)]
pub enum Alg {
    /// Each item draws a straw, and the longest straw wins. The lengths of the straws are computed
    /// from the weights of all items of the bucket.
    Straw,
    /// Like `Straw`, except that the weights of the other items don't influence the length of an
    /// item's straw. Each bucket that an edit creates has this algorithm.
    Straw2,
    /// The bucket keeps its items as a linked list.
    List,
}

impl Alg {
    /// Returns the word for the algorithm in a map's text: `straw`, `straw2` or `list`.
    pub fn name(self) -> &'static str
        ensures { result.now ≡ alg_text self }
    {
        match self {
            Alg::Straw => "straw",
            Alg::Straw2 => "straw2",
            Alg::List => "list",
        }
    }

    /// Returns the algorithm that the word names, or `None` if the word isn't `straw`, `straw2` or
    /// `list`.
    pub fn read(word: &[u8]) -> Option<Alg>
        ensures value { result ≡ alg_of_text word.now }
        ensures found { IfSome result (λ alg. word.now ≡ alg_text alg) }
        ensures all { (alg : Alg) → word.now ≡ alg_text alg → result ≡ Some alg }
    {
        if word == b"straw".as_slice() {
            return Some(Alg::Straw);
        }
        if word == b"straw2".as_slice() {
            return Some(Alg::Straw2);
        }
        if word == b"list".as_slice() {
            return Some(Alg::List);
        }
        None
    }

    /// Whether this algorithm and `other` are the same.
    pub fn is_same(self, other: Alg) -> bool
        ensures value { result ≡ same_alg self other }
        ensures exact { IsTrue result ↔ (self ≡ other) }
    {
        self == other
    }
}
