//! Code that runs before and after each call of a script.

use std::sync::Wait;

/// Code that runs before and after each call of a script. Its methods get the operator's number and
/// the number of the call in the operator's script, both from 0. Tests use a gate to force an order
/// of calls. No contract depends on the gate.
pub trait Gate {
    /// Runs before the call is submitted. This method may wait, which delays the call.
    fn before<R: Wait>(&self, rt: &R, operator: usize, number: usize);

    /// Runs after the call was submitted, even if the call failed.
    fn after<R: Wait>(&self, rt: &R, operator: usize, number: usize);
}

/// A gate that does nothing.
#[derive(Clone, Copy)]
pub struct NoGate;

impl Gate for NoGate {
    fn before<R: Wait>(&self, _rt: &R, _operator: usize, _number: usize) {}

    fn after<R: Wait>(&self, _rt: &R, _operator: usize, _number: usize) {}
}
