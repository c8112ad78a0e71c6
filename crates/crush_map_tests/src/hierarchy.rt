//! Tests that call most methods of an `Index` and of a `Hierarchy`.

mod asked;
mod asked_changes;
mod asked_weights;
mod asks;
mod calls;
mod collisions;
mod comes;
mod index;
mod items;
mod names;
mod places;
mod puts;
mod used;
