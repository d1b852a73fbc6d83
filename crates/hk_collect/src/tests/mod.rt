//! Tests of the collector, on heaps of one owner.
mod aids;
mod answers;
mod cycles;
mod measured;
mod pieces;
mod replies;
