//! What the words of the heap are, by tables.
mod bounds;
mod call;
mod geometry;
mod packing;
mod row;
mod shape;

use crate::Shape;
use std::process::Abort;

/// The shape of one reference.
fn one_reference(rt: &impl Abort) -> Shape {
    let Some(shape) = Shape::new(1, 0) else {
        panic!(rt; "one reference is no shape");
    };
    shape
}
