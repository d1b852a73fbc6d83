//! What is called round each call on the heap.
use std::sync::Wait;

/// Called round each heap call of a worker, and round each turn of the collector. A worker's calls count from 0 for its seat,
/// also those that are refused; questions about registers aren't counted. The collector's seat is the number of tasks.
pub trait Gate: Sync {
    fn before<R: Wait>(&self, rt: &R, seat: u8, call: u64);

    fn after<R: Wait>(&self, rt: &R, seat: u8, call: u64);
}

/// The gate that does nothing.
pub struct Open;

impl Gate for Open {
    fn before<R: Wait>(&self, _rt: &R, _seat: u8, _call: u64) {}

    fn after<R: Wait>(&self, _rt: &R, _seat: u8, _call: u64) {}
}
