//! A cache for the buckets and classes that steps of rules take. The cache says which of these
//! buckets have lost all their weight.

ghost use Rattle.std.specs.Prelude.{◌≡◌, ◌==◌, ◌&&◌, ◌<◌, List, IfSome, OnOk, get_or, length};
ghost use Rattle.std.specs.Option.{option_map};
ghost use Rattle.crush_compare.specs.Equal.{same_text};
ghost use Rattle.crush_compare.specs.declared.identity.Identity.{Identity};
ghost use Rattle.crush_model.specs.Table.{Row};
ghost use Rattle.crush_since.specs.Emptied.{is_emptied};
ghost use Rattle.crush_since.specs.TakenSeen.{AreRight};

use crate::since::columns::same_class;
use crush_units::BucketId;
use std::alloc::AllocError;

/// An entry of the cache: the bucket and the class that a step of a rule takes, with the result for
/// this bucket and this class.
#[derive(Clone, Copy, Debug)]
pub(crate) struct Taken<'a> {
    /// The distance of the bucket's id below 0.
    pub bucket: u32,
    pub class: Option<&'a str>,
    /// Whether the bucket's weight was above 0 in the old map, and is 0 in the new map. If `class`
    /// is a class, only the bucket's devices of this class count for both weights.
    pub is_emptied: bool,
}

/// Returns the cached result for this bucket and this class, or `None` if the cache has no such
/// result.
pub(crate) fn cached_result(
    cache: &[Taken<'_>],
    bucket: BucketId,
    class: Option<&str>,
) -> Option<bool>
    ensures { (identity : Identity) (t u : List Row) → AreRight identity t u cache.now
        → IfSome result (λ is. is ≡ is_emptied identity t u bucket
        (option_map (λ c. c.now) class.entry)) }
{
    for index in 0..cache.len() {
        let taken = entry_at(cache, index);
        if is_same(taken, bucket, class) {
            return Some(taken.is_emptied);
        }
    }
    None
}

fn entry_at<'b, 'a>(cache: &'b [Taken<'a>], at: usize) -> &'b Taken<'a>
    requires { at < length cache.now }
    ensures { result.now ≡ get_or cache.now at result.now }
{
    &cache[at]
}

/// Whether the entry is the one for this bucket and class.
fn is_same(taken: &Taken<'_>, bucket: BucketId, class: Option<&str>) -> bool
    ensures { result ≡ ((taken.now.bucket == bucket)
        && same_text (option_map (λ c. c.now) taken.now.class)
        (option_map (λ c. c.now) class.entry)) }
{
    taken.bucket == bucket.distance() && same_class(taken.class, class)
}

/// Stores the result for this bucket and class in the cache.
pub(crate) fn store<'a>(
    bucket: BucketId,
    class: Option<&'a str>,
    is: bool,
    cache: &mut Vec<Taken<'a>>,
) -> Result<(), AllocError>
    ensures { (identity : Identity) (t u : List Row) → AreRight identity t u cache.old.items
        → is ≡ is_emptied identity t u bucket (option_map (λ c. c.now) class.entry)
        → OnOk result (AreRight identity t u cache.new.items) }
{
    cache.push(Taken {
        bucket: bucket.distance(),
        class,
        is_emptied: is,
    })?;
    Ok(())
}
