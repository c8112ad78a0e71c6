//! Laws about edits. Each law is the contract of a function with an empty body. So no program needs
//! to call these functions.

pub mod edit;
pub mod order;
pub mod others;
pub mod put;
pub mod route;
pub mod same;
