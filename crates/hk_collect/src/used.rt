//! Laws of traced runs: which objects places are reserved for.
ghost use Rattle.hk_collect.specs.Live.{ReservedIsUsed, LiveOverHasLive};
ghost use Rattle.hk_collect.specs.Used.{TracedIsRun, TracedKeepsGeometry, LateIsLater, KeepsNoneLate, ReservedWasUsed, ClaimedWasUsed, HeldWasUsed, CallsReserveUsed, CollectorReservesUsed};

/// In any run, each object that is claimed in a cycle, and each that a call or the collector reserves a place for, could be
/// reached in the heap that never collects when the cycle began, or is the object of a New that had raised W0 before and had
/// its effect since. There is none of the latter kind where the cycle began with no call in flight.
pub fn reserved_was_used()
    ensures run { TracedIsRun }
    ensures geometry { TracedKeepsGeometry }
    ensures later { LateIsLater }
    ensures none_late { KeepsNoneLate }
    ensures reserved { ReservedWasUsed }
    ensures claimed { ClaimedWasUsed }
    ensures held { HeldWasUsed }
    ensures calls { CallsReserveUsed }
    ensures collector { CollectorReservesUsed }
{}

/// The words reserved for evacuation are those of such objects, each counted once. So where the cycle began with no call in
/// flight, the collector finds more words reserved than a space has for evacuation only if more were live when it began.
pub fn reserved_is_live()
    ensures reserved { ReservedIsUsed }
    ensures live_over { LiveOverHasLive }
{}
