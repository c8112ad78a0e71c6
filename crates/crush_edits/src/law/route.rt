//! Laws about routes and about the buckets that they create. The *stops* of a location are its
//! pairs of known types. A *route* is a list of valid stops along which an item can be put.

ghost use Rattle.crush_edits.specs.LawRoute.{StopsStep, StopsRise, StopsArePairs, LocationIsRoute, OtherIsNoStop, RouteIsFresh, RouteLeads, BoxesAreRows, NewKeepsLawful, NewKeepsSums};

/// The stops of a location are its pairs of known types, in ascending order of their types'
/// numbers.
pub fn stops_are_pairs_in_order()
    ensures step { StopsStep }
    ensures rise { StopsRise }
    ensures pairs { StopsArePairs }
{}

/// Suppose that the map's setting fits the table, that a valid location passes its tests, and that
/// the first stop that names an item of the table, if there is one, doesn't name a device. Then the
/// stops of the location are a route. The name of each stop is the bucket name of one of the
/// location's pairs. In a lawful table, no item has the id or the name of a bucket that a route
/// creates. For each route, there is a bucket into which the item is put.
pub fn locations_are_routes()
    ensures route { LocationIsRoute }
    ensures other { OtherIsNoStop }
    ensures fresh { RouteIsFresh }
    ensures leads { RouteLeads }
{}

/// In the tree, the new buckets of a route are nested, each inside the next. These nested buckets
/// have the rows that the put adds to the table. If these rows are appended to a lawful table, the
/// table stays lawful, unless there are too many items afterwards. The rows change no sum of
/// weights.
pub fn new_buckets_are_boxes()
    ensures boxes { BoxesAreRows }
    ensures lawful { NewKeepsLawful }
    ensures sums { NewKeepsSums }
{}
