//! Tests of forests that are built item by item.

mod alike;
mod asks;
mod chain;
mod example;
mod items;
mod puts;
