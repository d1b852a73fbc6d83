//! Cases worked out by hand.
mod refusals;
mod sums;
mod walks;
mod wide;

use crate::{ScriptError, parse};
use std::alloc::Global;
use std::process::Abort;

/// The text is refused for this reason.
fn refused(rt: &impl Abort, alloc: Global, text: &str, want: ScriptError) {
    match parse(alloc, text.as_bytes()) {
        Ok(_script) => assert!(rt; false, "{text:?} is parsed"),
        Err(error) => assert_eq!(rt; error, want, "at {text:?}"),
    }
}
