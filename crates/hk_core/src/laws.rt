//! Laws of the machine, over its definitions alone.
ghost use Rattle.hk_core.specs.Laws.{BeginKeepsLawful, StepKeepsLawful, LawfulCanStep, LawfulIsLegal, BeginTellsPlain, NewTellsRoom, AnswersFull, ReachedIsKept, NumbersAreFresh, RowsAreSoLong, TakesItsSteps, EndsAtItsLastStep, AnswersItsEntry, RefusedChangesNothing, BeginsAtFirst, BeginsAlone, StaysInRow, StepGoesOn, StepEnds, StepsAlone, RegistersTested, StepsLeaveAlone, InsideStandsApart, InsideKnowsPlace, WritesOwn};

/// Begins and steps keep a lawful state lawful, for the history that they lead to, whatever the call; each reply in that
/// history is the one of the plain heap; a begin is refused for what the plain heap answers; and no seat in flight is ever
/// stuck.
pub fn lawful_states()
    ensures begin { BeginKeepsLawful }
    ensures step { StepKeepsLawful }
    ensures legal { LawfulIsLegal }
    ensures can_step { LawfulCanStep }
    ensures plain { BeginTellsPlain }
{}

/// A call goes through the places of its row one by one: it begins at the first, each step leads to the next, and the
/// step at the last place ends it: the tenth of a Load, the seventh of a Store or a New. A begin that is refused changes nothing, and no begin or step changes the flight of
/// another seat.
pub fn places_in_order()
    ensures refused { RefusedChangesNothing }
    ensures first { BeginsAtFirst }
    ensures begins_alone { BeginsAlone }
    ensures in_row { StaysInRow }
    ensures goes_on { StepGoesOn }
    ensures ends { StepEnds }
    ensures lengths { RowsAreSoLong }
    ensures steps_alone { StepsAlone }
    ensures registers { RegistersTested }
{}

/// While a call is inside an object, no step changes the place in its header, nor a word of it but for the cell that a
/// call inside it writes, and no other kept number, nor a New in flight, has one of its words.
pub fn inside_an_object()
    ensures alone { StepsLeaveAlone }
    ensures apart { InsideStandsApart }
    ensures place { InsideKnowsPlace }
    ensures own { WritesOwn }
{}

/// Whatever others do in between, a call goes on by the steps of its own seat, one place at each, and ends at exactly the
/// last one of its row. By then it has added one entry to the history, and it answers what the entry says.
pub fn steps_of_a_call()
    ensures later { TakesItsSteps }
    ensures ends { EndsAtItsLastStep }
    ensures answers { AnswersItsEntry }
{}

/// A New that is full answers at its last place how many words were used where it found too few, and no other step answers
/// so. It is full exactly where the W0 that it loaded left too few words for its seat, or the W0 that it raised left too
/// few for anybody. That place, and no other, adds to the history that there was no room, which changes nothing of the
/// plain heap.
pub fn news_without_room()
    ensures tells { NewTellsRoom }
    ensures answers { AnswersFull }
{}

/// Every birth that can be reached is kept, and a New is given no number that is in use.
pub fn fresh_numbers()
    ensures kept { ReachedIsKept }
    ensures fresh { NumbersAreFresh }
{}
