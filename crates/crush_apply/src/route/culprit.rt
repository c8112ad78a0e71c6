//! Finds the name in a location that a refusal is about.

ghost use Rattle.std.specs.Prelude.{◌≡◌, List};
ghost use Rattle.std.specs.Option.{option_map};
ghost use Rattle.crush_model.specs.Stands.{Stands};
ghost use Rattle.crush_model.specs.Table.{Row};
ghost use Rattle.crush_edits.specs.declared.location.Pair.{Pair};
ghost use Rattle.crush_edits.specs.Located.{names_it};
ghost use Rattle.crush_edits.specs.Stops.{stops};
ghost use Rattle.crush_apply.specs.Culprit.{first_name, is_wrong_type, bad_name, unknown_type, end_name};

use crate::route::refusals::{is_type_zero, names_bucket, names_type};
use crate::route::stops::{first_there, route_of};
use crush_edits::{Location, Pair, Setting};
use crush_hierarchy::Hierarchy;
use crush_units::Name;
use std::alloc::{Allocator, Global};

/// Returns the name for which a location is refused with `BadLocation`. This is the first type name
/// that is the name of type 0 or that occurs again in a later pair. If no type name is wrong in
/// this way, it is the first bucket name that occurs again in a later pair. If no name is wrong,
/// returns `None`.
pub(crate) fn bad_name<'a>(setting: &Setting, at: &'a Location) -> Option<&'a Name<Global>>
    ensures { option_map (λ name. name.now) result ≡ bad_name setting.now at.now }
{
    let pairs = at.pairs();
    match wrong_type(setting, pairs) {
        Some(kind) => Some(kind),
        None => repeated_bucket(pairs),
    }
}

fn wrong_type<'a>(setting: &Setting, pairs: &'a [Pair]) -> Option<&'a Name<Global>>
    ensures { option_map (λ name. name.now) result
        ≡ first_name (is_wrong_type setting.now) (λ (p : Pair). p.kind) pairs.now }
{
    for (k, pair) in pairs.iter().enumerate() {
        let later = &pairs[k + 1..];
        if is_wrong_type(setting, pair, later) {
            return Some(&pair.kind);
        }
    }
    None
}

fn is_wrong_type(setting: &Setting, pair: &Pair, later: &[Pair]) -> bool
    ensures { result ≡ is_wrong_type setting.now pair.now later.now }
{
    is_type_zero(setting, pair) || names_type(later, &pair.kind)
}

fn repeated_bucket(pairs: &[Pair]) -> Option<&Name<Global>>
    ensures { option_map (λ name. name.now) result
        ≡ first_name (λ (p : Pair) l. names_it l p.name) (λ (p : Pair). p.name) pairs.now }
{
    for (k, pair) in pairs.iter().enumerate() {
        let later = &pairs[k + 1..];
        if names_bucket(later, &pair.name) {
            return Some(&pair.name);
        }
    }
    None
}

/// Returns the first type name of the location that isn't the name of a type in the setting, or
/// `None` if the setting has all types.
pub(crate) fn unknown_type<'a>(setting: &Setting, at: &'a Location) -> Option<&'a Name<Global>>
    ensures { option_map (λ name. name.now) result ≡ unknown_type setting.now at.now }
{
    let pairs = at.pairs();
    for pair in pairs {
        if setting.kind_number(pair.kind.as_bytes()).is_none() {
            return Some(&pair.kind);
        }
    }
    None
}

/// Returns the name of the first stop of the route whose name is the name of an item of the map.
/// This item ends the route. Returns `None` if the map has no item with the name of a stop.
pub(crate) fn end_name<'a, A: Allocator>(
    hierarchy: &Hierarchy<A>,
    setting: &Setting,
    at: &'a Location,
) -> Option<&'a Name<Global>>
    ensures { (t : List Row) → Stands hierarchy.now t
        → option_map (λ name. name.now) result ≡ end_name t (stops setting.now at.now) }
{
    let route = route_of(setting, at);
    let end = first_there(hierarchy, at, route.stops());
    drop(route);
    end
}
