//! Appends the section of the buckets.

ghost use Rattle.std.specs.Prelude.{◌≡◌, List, ◌++◌, OnOk, flat_map};
ghost use Rattle.crush_model.specs.Stands.{Stands};
ghost use Rattle.crush_model.specs.Table.{Row};
ghost use Rattle.crush_print.specs.ItemsText.{own_text};
ghost use Rattle.crush_print.specs.MapText.{bucket_section};

use crate::lines;
use crate::order::buckets_in_order;
use crate::printer::kinds::kind_name;
use crate::weight_form::WeightForm;
use crush_map::Setting;
use crush_tree::{Bucket, Forest};
use std::alloc::{AllocError, Allocator, Global};

/// Appends the heading of the section of the buckets, and then all buckets. Each bucket comes after
/// the buckets below it.
#[tactic(auto, unfolding(crate::specs::MapText::bucket_section))]
pub(crate) fn push_roots<A: Allocator>(
    alloc: Global,
    form: WeightForm,
    setting: &Setting,
    forest: &Forest<A>,
    out: &mut Vec<u8>,
) -> Result<(), AllocError>
    ensures { (t : List Row) → Stands forest.now t
        → OnOk result (out.new.items ≡ out.old.items ++ bucket_section form setting.now t) }
{
    out.extend_from_slice(b"\n# buckets\n")?;
    let buckets = buckets_in_order(alloc, forest)?;
    push_buckets(form, setting, buckets.as_slice(), out)
}

fn push_buckets<A: Allocator>(
    form: WeightForm,
    setting: &Setting,
    buckets: &[&Bucket<A>],
    out: &mut Vec<u8>,
) -> Result<(), AllocError>
    ensures { OnOk result (out.new.items ≡ out.old.items
        ++ flat_map (λ b. own_text form setting.now b.now) buckets.now) }
{
    for bucket in buckets {
        push_bucket(form, setting, *bucket, out)?;
    }
    Ok(())
}

fn push_bucket<A: Allocator>(
    form: WeightForm,
    setting: &Setting,
    bucket: &Bucket<A>,
    out: &mut Vec<u8>,
) -> Result<(), AllocError>
    ensures { OnOk result (out.new.items ≡ out.old.items ++ own_text form setting.now bucket.now) }
{
    let kind = kind_name(setting, bucket.header.kind);
    lines::push_bucket(
        form,
        kind,
        &bucket.header,
        bucket.weight,
        bucket.items.as_slice(),
        out,
    )
}
