//! Finds the difference between what two maps say about one item.

ghost use Rattle.std.specs.Prelude.{◌≡◌};
ghost use Rattle.std.specs.Option.{option_map};
ghost use Rattle.crush_items.specs.SeenItem.{seen_data};
ghost use Rattle.crush_compare.specs.Columns.{columns_by_ids, equal_weights, is_some_other};
ghost use Rattle.crush_compare.specs.Difference.{difference_by, if_other};
ghost use Rattle.crush_compare.specs.NamedColumns.{columns_by_names, columns_of};
ghost use Rattle.crush_compare.specs.Weights.{are_near, same_weight};

use crate::columns::{same_algs, same_parent, same_text, same_type};
use crate::identity::Identity;
use crush_items::Seen;
use crush_map::Setting;
use crush_units::{ItemId, Weight};

/// Says which differences count.
#[derive(Clone, Copy, Debug, PartialEq, Eq)]
pub enum Report {
    /// Every column in which two maps say different things about an item counts.
    Changes,
    /// This is for the differences that remain after a plan, which is a list of commands that lead
    /// from one map toward another map. Differences count as with `Changes`, with two exceptions.
    /// The weight of a bucket doesn't count, because it is the sum of the weights in the bucket. A
    /// difference of one unit (1/65536 TiB) in the weight of a device doesn't count either, because
    /// Ceph's `crushtool -c` may cut one unit off when it reads a weight.
    Remaining,
}

/// Says in which columns (such as the weight or the class) two maps say different things about one
/// item. Each field belongs to one column, and is true if the two maps differ in this column.
#[derive(Clone, Copy, Debug, PartialEq, Eq)]
pub struct Columns {
    /// Whether the names differ. This is always false if items are matched by their names.
    pub name: bool,
    /// Whether the types differ. If items are matched by their ids, the numbers of the types are
    /// compared. If items are matched by their names, the names of the types are compared for two
    /// buckets, and for two devices this field is always false.
    pub kind: bool,
    /// Whether different buckets hold the item, or a bucket holds the item in only one of the maps.
    /// If items are matched by their ids, the ids of the buckets are compared. If items are matched
    /// by their names, the names of the buckets are compared.
    pub place: bool,
    /// Whether the weights differ. [`Report`] says which differences of weights count.
    pub weight: bool,
    /// Whether the device classes differ, or the item has a class in only one of the maps.
    pub class: bool,
    /// Whether the algorithms of a bucket differ. This is always false for a device.
    pub alg: bool,
    /// Whether the class ids differ, which are the ids that Ceph gives to a bucket for each device
    /// class. This is always false if items are matched by their names.
    pub class_ids: bool,
}

/// What differs between the items of a pair.
#[derive(Clone, Copy, Debug, PartialEq, Eq)]
pub enum Difference {
    /// Only the new map has the item.
    Made,
    /// Only the old map has the item.
    Removed,
    /// Both maps have the item, and at least one column differs.
    Changed(Columns),
}

impl Columns {
    /// Returns whether at least one column differs.
    pub(crate) fn is_some_other(self) -> bool
        ensures { result ≡ is_some_other self }
    {
        self.name
            || self.kind
            || self.place
            || self.weight
            || self.class
            || self.alg
            || self.class_ids
    }

    /// Compares what the two maps say about an item that has the same id in both maps, and returns
    /// the columns that differ. `same_class_ids` says whether the item has the same class ids in
    /// both maps.
    fn by_ids(report: Report, before: &Seen<'_>, after: &Seen<'_>, same_class_ids: bool) -> Columns
        ensures { result
            ≡ columns_by_ids report (seen_data before.now) (seen_data after.now) same_class_ids }
    {
        Columns {
            name: before.view.name.as_bytes() != after.view.name.as_bytes(),
            kind: before.view.kind.number() != after.view.kind.number(),
            place: !same_parent(before.view.parent, after.view.parent),
            weight: !equal_weights(
                report,
                before.view.id,
                before.view.weight,
                after.view.weight,
            ),
            class: !same_text(before.view.class, after.view.class),
            alg: !same_algs(before.view.alg, after.view.alg),
            class_ids: !same_class_ids,
        }
    }

    /// Compares what the two maps say about an item that has the same name in both maps, and
    /// returns the columns that differ. `old` and `new` are the settings of the maps, which have
    /// the names of the types.
    fn by_names(
        report: Report,
        old: &Setting,
        new: &Setting,
        before: &Seen<'_>,
        after: &Seen<'_>,
    ) -> Columns
        ensures { result ≡ columns_by_names report old.now new.now (seen_data before.now)
            (seen_data after.now) }
    {
        Columns {
            name: false,
            kind: !same_type(old, new, &before.view, &after.view),
            place: !same_text(before.holder, after.holder),
            weight: !equal_weights(
                report,
                before.view.id,
                before.view.weight,
                after.view.weight,
            ),
            class: !same_text(before.view.class, after.view.class),
            alg: !same_algs(before.view.alg, after.view.alg),
            class_ids: false,
        }
    }

    /// Compares what the two maps say about an item that both maps have. Returns in which columns
    /// (name, type, place, weight and so on) the maps differ. `identity` says whether items are
    /// matched by their ids or by their names.
    fn of(
        identity: Identity,
        report: Report,
        old: &Setting,
        new: &Setting,
        before: &Seen<'_>,
        after: &Seen<'_>,
        same_class_ids: bool,
    ) -> Columns
        ensures { result ≡ columns_of identity report old.now new.now same_class_ids
            (seen_data before.now) (seen_data after.now) }
    {
        match identity {
            Identity::Ids => Columns::by_ids(report, before, after, same_class_ids),
            Identity::Names(_) => Columns::by_names(report, old, new, before, after),
        }
    }
}

impl Difference {
    /// Compares `before`, which is what the old map says about an item, with `after`, which is what
    /// the new map says about the item. Each is `None` if its map doesn't have the item. Returns
    /// the difference, or `None` if nothing differs. `old` and `new` are the settings of the maps.
    /// `same_class_ids` says whether the item has the same class ids in both maps.
    pub(crate) fn of(
        identity: Identity,
        report: Report,
        old: &Setting,
        new: &Setting,
        before: &Option<Seen<'_>>,
        after: &Option<Seen<'_>>,
        same_class_ids: bool,
    ) -> Option<Difference>
        ensures { result
            ≡ difference_by (columns_of identity report old.now new.now same_class_ids)
            (option_map seen_data before.now) (option_map seen_data after.now) }
    {
        match before {
            None => match after {
                None => None,
                Some(_) => Some(Difference::Made),
            },
            Some(before) => match after {
                None => Some(Difference::Removed),
                Some(after) => changed(Columns::of(
                    identity,
                    report,
                    old,
                    new,
                    before,
                    after,
                    same_class_ids,
                )),
            },
        }
    }
}

fn changed(columns: Columns) -> Option<Difference>
    ensures { result ≡ if_other columns }
{
    if columns.is_some_other() {
        Some(Difference::Changed(columns))
    } else {
        None
    }
}

fn equal_weights(report: Report, id: ItemId, before: Weight, after: Weight) -> bool
    ensures { result ≡ equal_weights report id before after }
{
    match report {
        Report::Changes => before.units() == after.units(),
        Report::Remaining => same_weight(id, before, after),
    }
}

/// Whether two weights differ by at most one unit (1/65536 TiB). Ceph's `crushtool -c` may cut one
/// unit off when it reads a weight.
pub fn are_near(here: Weight, there: Weight) -> bool
    ensures { result ≡ are_near here there }
{
    !((here.units() as u64) + 1 < there.units() as u64
        || (there.units() as u64) + 1 < here.units() as u64)
}

/// Whether the weights that two maps give to one item count as equal with [`Report::Remaining`].
/// `id` is the id of the item. The weights of a bucket always count as equal, because no command
/// sets the weight of a bucket. The weights of a device count as equal if [`are_near`] is true for
/// them.
pub fn same_weight(id: ItemId, here: Weight, there: Weight) -> bool
    ensures { result ≡ same_weight id here there }
{
    match id {
        ItemId::Device(_) => are_near(here, there),
        ItemId::Bucket(_) => true,
    }
}
