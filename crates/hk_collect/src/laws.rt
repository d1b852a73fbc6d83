//! Laws of runs: what holds after any list of begins, steps of seats and events of the collector, in any order.
ghost use Rattle.hk_collect.specs.Laws.{CollectorKeepsLawful, RunsAreLawful, RunsAreLegal, RunsKeepGeometry, LawfulSpotFits, LawfulCanCollect, EventUnlessWorn, CollectorKeepsHistory, CollectorKeepsFlights, OperationsEnd, InsideStays, WritesAreInside, PlaceIsGivenToNone, InsideIsApart, RunsGiveFreshNumbers, AttemptsBegin, AttemptsGoOn, HeadersAfterMarks};

/// Every run from the opening state is lawful for its history, so each reply in it is the one of the heap that never
/// collects. No action changes the geometry.
pub fn runs_are_lawful()
    ensures collector { CollectorKeepsLawful }
    ensures runs { RunsAreLawful }
    ensures legal { RunsAreLegal }
    ensures geometry { RunsKeepGeometry }
{}

/// In a lawful state the collector can do its event, and has one but where a flip is due in the last cycle.
pub fn collector_can_go_on()
    ensures fits { LawfulSpotFits }
    ensures can_fire { LawfulCanCollect }
    ensures event { EventUnlessWorn }
{}

/// The collector leaves the history as it is, and the calls in flight.
pub fn collector_keeps_history()
    ensures history { CollectorKeepsHistory }
    ensures flights { CollectorKeepsFlights }
{}

/// Whatever comes in between, an operation goes on by the steps of its own seat, one place at each, and ends at exactly the
/// last place of its row.
pub fn operations_end()
    ensures { OperationsEnd }
{}

/// While a call is inside an object, no action changes the place in its header or gives that place to another number, nor
/// does one change a word of it but for the cell that a step of a call inside it writes. No other kept number has one of
/// its words, no New in flight was given one, and no number to which a New in flight has given a header has its place.
pub fn inside_stays()
    ensures stays { InsideStays }
    ensures writes { WritesAreInside }
    ensures given { PlaceIsGivenToNone }
    ensures apart { InsideIsApart }
{}

/// A New is given no number that is in use.
pub fn runs_give_fresh_numbers()
    ensures { RunsGiveFreshNumbers }
{}

/// The events of an attempt are counted from the load that begins it, and the pass comes to the header of a number exactly
/// where it has found its mark equal to the cycle.
pub fn events_are_counted()
    ensures begins { AttemptsBegin }
    ensures goes_on { AttemptsGoOn }
    ensures headers { HeadersAfterMarks }
{}
