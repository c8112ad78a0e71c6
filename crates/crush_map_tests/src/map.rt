//! Tests the example map: how the map is built, and how edits change the map, in the global
//! allocator and in small heaps. The jobs in `examples/worked` and the sessions in
//! `tests/runs/maps.txt` show the results of more edits. A test calls `drop` for each map, builder
//! and edit that it owns. So the proof that the parts of such a value are freed is needed in one
//! place only.

mod asking;
mod building;
mod classes;
mod culprits;
mod faults;
mod in_place;
mod lacking;
mod looked_up;
mod memory;
mod same;
mod statements;
mod whole;
