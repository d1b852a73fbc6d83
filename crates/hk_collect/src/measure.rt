//! Laws of the measure of a cycle and of attempts, over definitions alone.
ghost use Rattle.hk_collect.specs.Cycles.{OpeningIsWorked, EventWorks, WornIsLate, FewEventsNeverWear};
ghost use Rattle.hk_collect.specs.Pays.{OpeningKeepsHeap, BeginsKeepHeap, StepsKeepHeap, MetKeepsHeap, CollectorPays, LostIsFew};
ghost use Rattle.hk_collect.specs.Measure.{CollectorIsMeasured, SeatsKeepCalm, OpeningIsCalm, BoundIsCycle, UntouchedOutside, EventKeepsUntouched, AttemptSucceeds, LostClosesAttempt, AttemptsAreCounted, LostIsBounded, ObjectsAreBirths};

/// Where no call is in mid-course and the state is calm, the useful events of a cycle are at most the bound of the spot,
/// and no event waits for anybody. The opening state is calm, and begins, steps and such events keep a state calm; begins
/// and steps leave the bound as it is. It is at most the bound of a cycle.
pub fn measured_cycle()
    ensures measured { CollectorIsMeasured }
    ensures opening { OpeningIsCalm }
    ensures calm { SeatsKeepCalm }
    ensures cycle { BoundIsCycle }
{}

/// An open attempt whose word nobody touched isn't lost, and the collector itself doesn't touch it. The events of an
/// attempt are among the useful ones of the cycle, and are taken away where it is lost; then they are at most those of an
/// attempt on a frame or on the object, which has the words of a birth.
pub fn untouched_attempts()
    ensures outside { UntouchedOutside }
    ensures keeps { EventKeepsUntouched }
    ensures succeeds { AttemptSucceeds }
    ensures closes { LostClosesAttempt }
    ensures counted { AttemptsAreCounted }
    ensures bounded { LostIsBounded }
    ensures births { ObjectsAreBirths }
{}

/// Each cycle takes at least as many events of the collector as a space has words, since it clears them. So the cycles of a
/// heap don't end before the collector has had 2^20 - 2 times as many events, which are more than 16 million.
pub fn cycles_take_events()
    ensures opening { OpeningIsWorked }
    ensures event { EventWorks }
    ensures late { WornIsLate }
    ensures few { FewEventsNeverWear }
{}

/// Where so many events of the collector are owed for each word that is taken, and those of a lost attempt are owed again,
/// the words used are paid for by the useful events of the cycle and by those that are owed. Begins and steps keep that, and
/// each event that is owed, while no call is in mid-course; it pays for one, waits for nobody, and loses only an attempt that a
/// task has met.
pub fn collector_pays()
    ensures opening { OpeningKeepsHeap }
    ensures begins { BeginsKeepHeap }
    ensures steps { StepsKeepHeap }
    ensures met { MetKeepsHeap }
    ensures pays { CollectorPays }
    ensures lost { LostIsFew }
{}
