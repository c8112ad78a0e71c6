//! The stops of a route, and the search for the stop that ends the route. The module `route`
//! explains these words.

ghost use Rattle.std.specs.Prelude.{◌≡◌, ◌+◌, ◌<◌, ◌≤◌, List, Some, All, IfOk, IfErr, length};
ghost use Rattle.arrayvec.specs.ArrayVec.{array_vec_len};
ghost use Rattle.std.specs.Prelude.{nat_le};
ghost use Rattle.std.specs.List.{position_or_len};
ghost use Rattle.std.specs.Option.{option_map};
ghost use Rattle.crush_model.specs.Table.{Row};
ghost use Rattle.crush_model.specs.Stands.{Stands};
ghost use Rattle.crush_edits.specs.Answer.{first_refusal};
ghost use Rattle.crush_edits.specs.Located.{end_tests};
ghost use Rattle.crush_edits.specs.Stops.{stops};
ghost use Rattle.crush_apply.specs.declared.route.stops.Stop.{Stop};
ghost use Rattle.crush_apply.specs.Stopped.{pair_name, stops_data, IsPairOf, put_stop};
ghost use Rattle.crush_apply.specs.Destination.{EndsAt};
ghost use Rattle.crush_apply.specs.Culprit.{end_name};

use crate::route::refusals::check_end;
use arrayvec::ArrayVec;
use crush_edits::{Location, Pair, Refusal, Setting};
use crush_hierarchy::Hierarchy;
use crush_units::limits::MOST_PAIRS;
use crush_units::{BucketId, Name, TypeId};
use std::alloc::{Allocator, Global};
use std::marker::Model;

/// One stop of a route: a pair of the location, with the number of the pair's type.
#[derive(Clone, Copy, Debug, PartialEq, Eq)]
pub(crate) struct Stop {
    pub(crate) kind: TypeId,
    /// The index of the pair in the location, from 0.
    pub(crate) pair: usize,
}

impl Default for Stop {
    /// Returns the stop that fills the unused slots in the array of a [`Route`]. These slots are
    /// never read.
    fn default() -> Stop {
        Stop {
            kind: TypeId::new(0),
            pair: 0,
        }
    }
}

/// The stops of a location, sorted by the numbers of their types, lowest first.
#[derive(Drop)]
pub(crate) struct Route {
    stops: ArrayVec<Stop, MOST_PAIRS>,
}

impl Model for Route {
    ghost use Rattle.std.specs.Prelude.{List};
    ghost use Rattle.crush_apply.specs.declared.route.stops.Stop.{Stop};

    ghost Value = { List Stop };

    ghost view = { λ route. route.stops.items };
}

impl Route {
    pub(crate) fn stops(&self) -> &[Stop]
        ensures value { result.now ≡ self.now }
        ensures few { length result.now ≤ MOST_PAIRS }
    {
        self.stops.as_slice()
    }
}

/// Returns the stops of a location. A pair whose type isn't in the setting is left out.
pub(crate) fn route_of(setting: &Setting, at: &Location) -> Route
    ensures stops { stops_data at.now result ≡ stops setting.now at.now }
    ensures pairs { All (IsPairOf at.now) result }
{
    let pairs = at.pairs();
    let mut stops = ArrayVec::new();
    for (index, pair) in pairs.iter().enumerate() {
        if let Some(kind) = setting.kind_number(pair.kind.as_bytes()) {
            put_stop(&mut stops, Stop { kind, pair: index });
        }
    }
    Route { stops }
}

/// Inserts the stop `stop` before the first stop whose type number is at least that of `stop`, or
/// at the end if there is no such stop.
fn put_stop(stops: &mut ArrayVec<Stop, MOST_PAIRS>, stop: Stop)
    requires { array_vec_len stops.old < MOST_PAIRS }
    ensures put { stops.new.items ≡ put_stop stop stops.old.items }
    ensures len { array_vec_len stops.new ≡ array_vec_len stops.old + 1 }
{
    let index = index_of(stops.as_slice(), stop.kind);
    stops.insert(index, stop);
}

/// Returns the index of the first stop whose type number is at least `kind`, or the number of stops
/// if there is no such stop.
fn index_of(stops: &[Stop], kind: TypeId) -> usize
    ensures value { result ≡ position_or_len (λ (q : Stop). nat_le kind q.kind) stops.now }
    ensures within { result ≤ length stops.now }
{
    for (k, stop) in stops.iter().enumerate() {
        if kind.number() <= stop.kind.number() {
            return k;
        }
    }
    stops.len()
}

pub(crate) fn stop_name<'a>(at: &'a Location, stop: &Stop) -> &'a Name<Global>
    requires { IsPairOf at.now stop.now }
    ensures { result.now ≡ pair_name at.now stop.now.pair }
{
    let pairs = at.pairs();
    let pair: &Pair = &pairs[stop.pair];
    &pair.name
}

/// Finds the stop that ends the route, which is the first stop whose name is in the map. Returns
/// how many stops are before this stop, and the bucket that has this name.
///
/// If no stop's name is in the map, returns the number of all stops and `None`. Returns a refusal
/// if the item that has the name is a device, or a bucket whose type isn't the stop's type.
pub(crate) fn route_end<A: Allocator>(
    hierarchy: &Hierarchy<A>,
    at: &Location,
    stops: &[Stop],
) -> Result<(usize, Option<BucketId>), Refusal>
    requires { All (IsPairOf at.now) stops.now }
    ensures ends { IfOk result (λ end. (t : List Row) → Stands hierarchy.now t
        → EndsAt t (stops_data at.now stops.now) end.0 end.1) }
    ensures within { IfOk result (λ end. end.0 ≤ length stops.now) }
    ensures refused { IfErr result (λ r. (t : List Row) → Stands hierarchy.now t
        → first_refusal (end_tests t (stops_data at.now stops.now)) ≡ Some r) }
{
    for (k, stop) in stops.iter().enumerate() {
        if let Some(id) = hierarchy.id_of(stop_name(at, stop).as_str()) {
            let bucket = check_end(hierarchy, stop.kind, id)?;
            return Ok((k, Some(bucket)));
        }
    }
    Ok((stops.len(), None))
}

/// Returns the name of the first stop whose name is in the map, or `None` if no stop's name is in
/// the map.
pub(crate) fn first_there<'a, A: Allocator>(
    hierarchy: &Hierarchy<A>,
    at: &'a Location,
    stops: &[Stop],
) -> Option<&'a Name<Global>>
    requires { All (IsPairOf at.now) stops.now }
    ensures { (t : List Row) → Stands hierarchy.now t
        → option_map (λ name. name.now) result ≡ end_name t (stops_data at.now stops.now) }
{
    for stop in stops {
        let name = stop_name(at, stop);
        if hierarchy.id_of(name.as_str()).is_some() {
            return Some(name);
        }
    }
    None
}
