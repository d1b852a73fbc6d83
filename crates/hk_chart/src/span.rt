//! Which ticks a picture spans.
ghost use Rattle.std.specs.Prelude.{◌≡◌, ◌<◌, ◌≤◌, ◌^◌};
ghost use Rattle.hk_chart.specs.Drawing.{span_of};

use crate::window::Window;

/// So many ticks, from the first one on.
#[derive(Clone, Copy, Debug)]
pub struct Span {
    pub first: u64,
    pub ticks: u64,
}

impl Span {
    /// The ticks of a window that a run of so many has, and one at least.
    pub fn of(window: Window, ticks: u32) -> Span
        ensures value { result ≡ span_of window ticks }
        ensures first { result.first < 2 ^ 32 }
        ensures ticks { result.ticks ≤ 2 ^ 32 }
        ensures some { 0 < result.ticks }
    {
        let first = u64::from(window.first);
        let end = (u64::from(window.last) + 1).min(u64::from(ticks));
        Span {
            first,
            ticks: end.saturating_sub(first).max(1),
        }
    }
}
