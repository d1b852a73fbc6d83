//! The words of the heap: shapes, the geometry of a heap, the calls on it with their replies, and the packed
//! words that the heap's row consists of; and numbers that are drawn. Nothing here takes memory.
#![tactic(auto)]

mod bounds;
mod call;
mod draws;
mod geometry;
mod memory;
mod packing;
mod row;
mod shape;
mod sizes;
#[cfg(test)]
mod tests;

pub use bounds::{MOST_PLACES, cycle_events, frame_events, object_events};
pub use call::{Call, Reply, call_laws};
pub use draws::Draws;
pub use geometry::{
    GeoError, Geometry, MAX_REGISTERS, MAX_TASKS, MAX_WORDS, MIN_ALLOC, MIN_REGISTERS, REGISTERS,
};
pub use memory::Memory;
pub use packing::{
    ENTER, LEAVE, frame_accessors, frame_blackened, frame_cycle, frame_laws, frame_version,
    header_accessors, header_laws, header_moved, header_place, header_version, pack_frame,
    pack_header, pack_reference, pack_w0, raise_by, reference_laws, reference_number,
    reference_nums, reference_refs, w0_cycle, w0_laws, w0_objects, w0_words,
};
pub use row::row_laws;
pub use shape::{MAX_FIELDS, Shape, USUAL_FIELDS};
pub use sizes::one_geometry;
