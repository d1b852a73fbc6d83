//! Laws of what is drawn. These functions take no time; their clauses are the laws.
ghost use Rattle.hk_chart.specs.Runs.{RunsAreWhole};

/// Where a trace comes to a picture, each rectangle has ticks of its own lane alone, each tick that is to be drawn lies in a
/// rectangle of its lane, no two rectangles share a tick, and two that touch are of two lanes. So a run of equal ticks is one
/// rectangle.
pub fn runs_are_whole()
    ensures { RunsAreWhole }
{}
