//! Tests whether [`write_since`](crate::write_since) writes a line about an item.

ghost use Rattle.std.specs.Prelude.{◌≡◌};
ghost use Rattle.std.specs.Option.{option_map};
ghost use Rattle.crush_edits.specs.Setting.{SettingData};
ghost use Rattle.crush_units.specs.declared.id.ItemId.{ItemId as Id};
ghost use Rattle.crush_since.specs.Changes.{has_some};
ghost use Rattle.crush_since.specs.ItemParts.{item_line};
ghost use Rattle.crush_items.specs.SeenItem.{seen_data};
ghost use Rattle.crush_compare.specs.SameItem.{same_item};

use crate::since::columns::{same_algs, same_class, same_parent};
use crate::since::seen::Seen;

pub(crate) fn is_listed(
    before: &Option<Seen<'_>>,
    after: &Option<Seen<'_>>,
    same_class_ids: bool,
) -> bool
    ensures { (s p : SettingData) (i : Id) → result ≡ has_some (item_line s p i
        (option_map seen_data before.now) (option_map seen_data after.now) same_class_ids) }
{
    match before {
        Some(before) => match after {
            Some(after) => !is_same(before, after, same_class_ids),
            None => true,
        },
        None => after.is_some(),
    }
}

fn is_same(before: &Seen<'_>, after: &Seen<'_>, same_class_ids: bool) -> bool
    ensures { result ≡ same_item (seen_data before.now) (seen_data after.now) same_class_ids }
{
    before.view.name.as_bytes() == after.view.name.as_bytes()
        && before.view.kind.number() == after.view.kind.number()
        && same_parent(before.view.parent, after.view.parent)
        && before.view.weight.units() == after.view.weight.units()
        && same_class(before.view.class, after.view.class)
        && same_algs(before.view.alg, after.view.alg)
        && same_class_ids
}
