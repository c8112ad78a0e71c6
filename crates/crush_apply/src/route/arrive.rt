//! Makes the last two tests of an edit that puts an item at a location, and then puts the item
//! there. The tests are: whether the map would have too many devices or buckets, and whether all
//! sums stay in range.

ghost use Rattle.std.specs.Prelude.{◌≡◌, List, None, true, false, IfOk};
ghost use Rattle.crush_units.specs.declared.id.ItemId.TheVariants.{Device};
ghost use Rattle.crush_model.specs.Stands.{Stands};
ghost use Rattle.crush_model.specs.Table.{Row, row_of, is_there};
ghost use Rattle.crush_nodes.specs.Seen.{leaf_data};
ghost use Rattle.crush_edits.specs.Answer.{on_some};
ghost use Rattle.crush_edits.specs.Placing.{put_after, edited_device};
ghost use Rattle.crush_edits.specs.Put.{held};
ghost use Rattle.crush_apply.specs.Answered.{last_answer};
ghost use Rattle.crush_apply.specs.Coming.{CanMove, CanArrive};
ghost use Rattle.crush_apply.specs.UndoLog.{AnswersLogged};

use crate::route::NewDevice;
use crate::route::destination::Destination;
use crate::route::put::{put_device, put_item, put_new};
use crate::route::room::{
    fits_put_device, fits_put_item, fits_put_new, lacks_room, lacks_room_for_new,
};
use crate::undo_log::Undo;
use crush_edits::{Done, EditFault, Refusal};
use crush_hierarchy::Hierarchy;
use crush_tree::Leaf;
use crush_units::ItemId;
use std::alloc::{AllocError, Allocator};

/// Moves an item that the map has, with everything below it, to the destination. Returns a refusal
/// if the map would have too many buckets, or if a sum would be too large.
pub(crate) fn place_item<A: Allocator + Clone>(
    hierarchy: &mut Hierarchy<A>,
    id: ItemId,
    to: &Destination,
) -> Result<(Done, Option<Undo<A>>), EditFault>
    requires can { (t : List Row) → Stands hierarchy.old t → CanMove t id to.now }
    requires free { (t : List Row) → Stands hierarchy.old t → held t id to.now.stops ≡ false }
    ensures { AnswersLogged (λ t. last_answer t
        (on_some t (row_of t id) (λ r. put_after t r to.now.stops)))
        hierarchy.old hierarchy.new result }
{
    let id = &id;
    if lacks_room(hierarchy, to) {
        return Err(EditFault::Refused(Refusal::NoRoom));
    }
    if !fits_put_item(hierarchy, *id, to) {
        return Err(EditFault::Refused(Refusal::SumTooLarge));
    }
    let undo = put_item(hierarchy, *id, to)?;
    Ok((done_at(to), Some(undo)))
}

/// Puts the device `arrival` at the destination, with the weight of `arrival`. Returns a refusal if
/// the map would have too many devices or buckets, or if a sum would be too large.
///
/// If the map already has the device, the device is moved and keeps its class. Otherwise the device
/// is created without a class.
pub(crate) fn place_device<A: Allocator + Clone>(
    hierarchy: &mut Hierarchy<A>,
    arrival: &NewDevice<'_>,
    to: &Destination,
) -> Result<(Done, Option<Undo<A>>), EditFault>
    requires can { (t : List Row) → Stands hierarchy.old t → CanArrive t arrival.now.device
        arrival.now.name.now arrival.now.weight to.now }
    requires free { (t : List Row) → Stands hierarchy.old t
        → held t (Device arrival.now.device) to.now.stops ≡ false }
    ensures { AnswersLogged (λ t. last_answer t
        (put_after t (edited_device t arrival.now.device arrival.now.name.now arrival.now.weight)
        to.now.stops))
        hierarchy.old hierarchy.new result }
{
    hierarchy.recall_invariant();
    if hierarchy.kind(ItemId::Device(arrival.device)).is_none() {
        return place_new(hierarchy, arrival, to);
    }
    if lacks_room(hierarchy, to) {
        return Err(EditFault::Refused(Refusal::NoRoom));
    }
    if !fits_put_device(hierarchy, arrival.device, arrival.weight, to) {
        return Err(EditFault::Refused(Refusal::SumTooLarge));
    }
    let undo = put_device(hierarchy, arrival.device, arrival.weight, to)?;
    Ok((done_at(to), Some(undo)))
}

/// Creates a device at the destination. Returns a refusal if the map would have too many devices or
/// buckets, or if a sum would be too large.
fn place_new<A: Allocator + Clone>(
    hierarchy: &mut Hierarchy<A>,
    arrival: &NewDevice<'_>,
    to: &Destination,
) -> Result<(Done, Option<Undo<A>>), EditFault>
    requires can { (t : List Row) → Stands hierarchy.old t → CanArrive t arrival.now.device
        arrival.now.name.now arrival.now.weight to.now }
    requires free { (t : List Row) → Stands hierarchy.old t
        → held t (Device arrival.now.device) to.now.stops ≡ false }
    requires gone { (t : List Row) → Stands hierarchy.old t
        → is_there t (Device arrival.now.device) ≡ false }
    ensures { AnswersLogged (λ t. last_answer t
        (put_after t (edited_device t arrival.now.device arrival.now.name.now arrival.now.weight)
        to.now.stops))
        hierarchy.old hierarchy.new result }
{
    hierarchy.recall_invariant();
    let _number = arrival.device.number();
    let _text = arrival.name.as_str();
    if lacks_room_for_new(hierarchy, to) {
        return Err(EditFault::Refused(Refusal::NoRoom));
    }
    if !fits_put_new(hierarchy, arrival.weight, to) {
        return Err(EditFault::Refused(Refusal::SumTooLarge));
    }
    let leaf = new_leaf(hierarchy.allocator(), arrival)?;
    let undo = put_new(hierarchy, leaf, to)?;
    Ok((done_at(to), Some(undo)))
}

fn done_at(to: &Destination) -> Done
    ensures { result ≡ record { changed = true; made = to.now.fresh } }
{
    Done {
        changed: true,
        made: to.fresh() as u16,
    }
}

fn new_leaf<A: Allocator + Clone>(alloc: &A, arrival: &NewDevice<'_>) -> Result<Leaf<A>, AllocError>
    ensures { IfOk result (λ leaf. leaf_data leaf
        ≡ record { id = arrival.now.device; name = arrival.now.name.now; weight = arrival.now.weight; class = None }) }
{
    Ok(Leaf {
        id: arrival.device,
        name: arrival.name.try_copy(alloc.clone()?)?,
        weight: arrival.weight,
        class: None,
    })
}
