//! Lists what still differs between a map and a wanted map. The items of the two maps are matched
//! by their names.

ghost use Rattle.std.specs.Prelude.{◌≡◌, ◌++◌, List, OnOk, IfOk, flat_map};
ghost use Rattle.std.specs.Option.{option_map};
ghost use Rattle.crush_model.specs.Stands.{Stands};
ghost use Rattle.crush_model.specs.Table.{Row};
ghost use Rattle.crush_items.specs.SeenItem.{seen_data};
ghost use Rattle.crush_compare.specs.Comparison.{pair_items};
ghost use Rattle.crush_since.specs.ItemParts.{behind};
ghost use Rattle.crush_since.specs.Since.{plain_map};
ghost use Rattle.crush_since.specs.Stays.{differing, line_texts, named_setting_lines, pair_name, settings_beside, stay_lines, stay_pair, stay_parts, stays, stays_part, wanted_parts};

pub(crate) mod columns;
mod rules;

use crate::names::lines::{push_item_line, push_unless};
use crate::since::{push_part, same_kinds, same_tunables};
pub use columns::place_in;
use columns::{push_alg, push_class, push_far_weight, push_lacking, push_place, push_type};
use crush_compare::{Comparison, Devices, Pair};
use crush_items::Seen;
use crush_map::{CrushMap, Setting};
use rules::push_rules;
use std::alloc::{AllocError, Allocator, Global};

/// Returns the differences between a map and the wanted map, as lines of text without line feeds.
/// The items of the two maps are matched by their names. But two devices match only if they also
/// have the same id, and a device never matches a bucket. The list begins with a line for each item
/// of the wanted map that has no match in the map, or that differs from its match. These lines are
/// in the order of the wanted map's tree. Then comes a line for each item of the map that has no
/// match in the wanted map, in the order of the map's tree. After these lines there may be a line
/// that says that the tunables differ, a line that says that the types differ, and a line that says
/// that the rules differ. Tunables and rules also differ if they are in different orders. Some
/// differences are not listed: two matching buckets may have different ids, class ids and weights,
/// and the weights of two matching devices may be up to one unit (1/65536 TiB) apart. The call
/// fails only if memory runs out.
pub fn stays<A: Allocator, B: Allocator>(
    alloc: Global,
    map: &CrushMap<A>,
    wanted: &CrushMap<B>,
) -> Result<Vec<Vec<u8>>, AllocError>
    ensures { IfOk result (λ lines. (t u : List Row)
        → Stands map.now.forest t → Stands wanted.now.forest u
        → line_texts lines.items ≡ stays (plain_map map.now.setting t) (plain_map wanted.now.setting u)) }
{
    stays_part(alloc, None, map, wanted)
}

/// Returns only some lines of [`stays`]: those about the item with the name `under`, and about all
/// items that are below this item in at least one of the maps. The lines about tunables, types and
/// rules are left out. If `under` is `None`, returns all lines of [`stays`]. The call fails only if
/// memory runs out.
pub fn stays_part<A: Allocator, B: Allocator>(
    alloc: Global,
    under: Option<&str>,
    map: &CrushMap<A>,
    wanted: &CrushMap<B>,
) -> Result<Vec<Vec<u8>>, AllocError>
    ensures { IfOk result (λ lines. (t u : List Row)
        → Stands map.now.forest t → Stands wanted.now.forest u
        → line_texts lines.items ≡ stays_part (option_map (λ n. n.now) under.entry) (plain_map map.now.setting t)
        (plain_map wanted.now.setting u)) }
{
    let mut lines = Vec::new(alloc);
    push_lines(alloc, under, map, wanted, &mut lines)?;
    push_beside(alloc, under, map, wanted, &mut lines)?;
    Ok(lines)
}

fn push_lines<A: Allocator, B: Allocator>(
    alloc: Global,
    under: Option<&str>,
    map: &CrushMap<A>,
    wanted: &CrushMap<B>,
    lines: &mut Vec<Vec<u8>>,
) -> Result<(), AllocError>
    ensures { (t u : List Row) → Stands map.now.forest t → Stands wanted.now.forest u
        → OnOk result (line_texts lines.new.items
        ≡ line_texts lines.old.items ++ stay_lines (option_map (λ n. n.now) under.entry) (plain_map map.now.setting t)
        (plain_map wanted.now.setting u)) }
{
    let both = Comparison::by_names_part(alloc, Devices::ById, under, map, wanted)?;
    push_pairs(alloc, &both, both.pairs.as_slice(), lines)
}

fn push_pairs<A: Allocator, B: Allocator>(
    alloc: Global,
    both: &Comparison<'_, A, B>,
    pairs: &[Pair],
    lines: &mut Vec<Vec<u8>>,
) -> Result<(), AllocError>
    ensures { OnOk result (line_texts lines.new.items ≡ line_texts lines.old.items ++ flat_map
        (λ p. stay_pair both.now.old.map.now.setting both.now.new.map.now.setting
        (pair_items both.now p)) pairs.now) }
{
    for pair in pairs {
        push_pair(alloc, both, pair, lines)?;
    }
    Ok(())
}

fn push_pair<A: Allocator, B: Allocator>(
    alloc: Global,
    both: &Comparison<'_, A, B>,
    pair: &Pair,
    lines: &mut Vec<Vec<u8>>,
) -> Result<(), AllocError>
    ensures { OnOk result (line_texts lines.new.items
        ≡ line_texts lines.old.items ++ stay_pair both.now.old.map.now.setting both.now.new.map.now.setting
        (pair_items both.now pair.now)) }
{
    let map = both.old.map.setting();
    let wanted = both.new.map.setting();
    push_stay_pair(
        alloc,
        map,
        wanted,
        &both.before(*pair),
        &both.after(*pair),
        lines,
    )
}

fn push_stay_pair(
    alloc: Global,
    map: &Setting,
    wanted: &Setting,
    here: &Option<Seen<'_>>,
    there: &Option<Seen<'_>>,
    lines: &mut Vec<Vec<u8>>,
) -> Result<(), AllocError>
    ensures { OnOk result (line_texts lines.new.items ≡ line_texts lines.old.items ++ stay_pair map.now wanted.now
        (record {
          before = option_map seen_data here.now;
          after = option_map seen_data there.now;
        })) }
{
    let mut parts = Vec::new(alloc);
    push_parts(alloc, map, wanted, here, there, &mut parts)?;
    push_item_line(alloc, pair_name(here, there), parts.as_slice(), lines)
}

fn push_parts(
    alloc: Global,
    map: &Setting,
    wanted: &Setting,
    here: &Option<Seen<'_>>,
    there: &Option<Seen<'_>>,
    parts: &mut Vec<u8>,
) -> Result<(), AllocError>
    ensures { OnOk result (parts.new.items ≡ parts.old.items ++ behind (stay_parts map.now
        wanted.now (option_map seen_data here.now) (option_map seen_data there.now))) }
{
    match there {
        Some(there) => push_wanted_parts(alloc, map, wanted, here, there, parts),
        None => match here {
            Some(_) => push_part(false, &[b"not wanted".as_slice()], parts),
            None => Ok(()),
        },
    }
}

fn push_wanted_parts(
    alloc: Global,
    map: &Setting,
    wanted: &Setting,
    here: &Option<Seen<'_>>,
    there: &Seen<'_>,
    parts: &mut Vec<u8>,
) -> Result<(), AllocError>
    ensures { OnOk result (parts.new.items ≡ parts.old.items ++ behind (wanted_parts map.now
        wanted.now (option_map seen_data here.now) (seen_data there.now))) }
{
    match here {
        Some(here) => push_differing(alloc, map, wanted, here, there, parts),
        None => push_lacking(wanted, there, parts),
    }
}

fn push_differing(
    alloc: Global,
    map: &Setting,
    wanted: &Setting,
    here: &Seen<'_>,
    there: &Seen<'_>,
    parts: &mut Vec<u8>,
) -> Result<(), AllocError>
    ensures { OnOk result (parts.new.items ≡ parts.old.items
        ++ behind (differing map.now wanted.now (seen_data here.now) (seen_data there.now))) }
{
    push_type(b", wanted ", map, wanted, here, there, parts)?;
    push_place(b"in ", b", wanted in ", here, there, parts)?;
    push_far_weight(alloc, here, there, parts)?;
    push_class(b", wanted ", here, there, parts)?;
    push_alg(b", wanted ", here, there, parts)?;
    Ok(())
}

/// Returns the name of the item of a pair. If the new (or wanted) map has the item, this is the
/// name in this map, and otherwise the name in the other map.
pub(crate) fn pair_name<'a>(before: &Option<Seen<'a>>, after: &Option<Seen<'a>>) -> &'a [u8]
    ensures { result.now
        ≡ pair_name (option_map seen_data before.now) (option_map seen_data after.now) }
{
    match after {
        Some(after) => after.view.name.as_bytes(),
        None => match before {
            Some(before) => before.view.name.as_bytes(),
            None => b"".as_slice(),
        },
    }
}

#[tactic(auto, unfolding(crate::specs::Stays::named_setting_lines))]
fn push_settings<A: Allocator, B: Allocator>(
    alloc: Global,
    map: &CrushMap<A>,
    wanted: &CrushMap<B>,
    lines: &mut Vec<Vec<u8>>,
) -> Result<(), AllocError>
    ensures { (t u : List Row) → Stands map.now.forest t → Stands wanted.now.forest u
        → OnOk result (line_texts lines.new.items
        ≡ line_texts lines.old.items ++ named_setting_lines (plain_map map.now.setting t) (plain_map wanted.now.setting u)) }
{
    let (here, there) = (map.setting(), wanted.setting());
    push_unless(alloc, same_tunables(here, there), b"tunables differ", lines)?;
    push_unless(alloc, same_kinds(here, there), b"types differ", lines)?;
    push_rules(alloc, map, wanted, lines)
}

fn push_beside<A: Allocator, B: Allocator>(
    alloc: Global,
    under: Option<&str>,
    map: &CrushMap<A>,
    wanted: &CrushMap<B>,
    lines: &mut Vec<Vec<u8>>,
) -> Result<(), AllocError>
    ensures { (t u : List Row) → Stands map.now.forest t → Stands wanted.now.forest u
        → OnOk result (line_texts lines.new.items
        ≡ line_texts lines.old.items ++ settings_beside (option_map (λ n. n.now) under.entry) (plain_map map.now.setting t)
        (plain_map wanted.now.setting u)) }
{
    match under {
        Some(_) => Ok(()),
        None => push_settings(alloc, map, wanted, lines),
    }
}
