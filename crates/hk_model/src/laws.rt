ghost use Rattle.hk_model.specs.Laws.{AfterGrows, LegalGrows, OpeningIsHeap, CallsKeepHeap, HistoriesKeepHeap, OpeningHoldsBoard, CallsKeepBoard, NeverFull, SomeLive, OneLive, ReachedWithinLive, LegalBegins, ShapesLast, ObjectsStaySmall, OthersKeepRegisters, OthersLeaveRegisters, AsManyNumbers, BearerIsLast, NoBearer, BirthGivesNumber, OthersGiveNone, PutEffect, StoreEffect, LoadEffect, MoveEffect, ClearEffect, NewEffect};

/// Laws of histories that grow at their end: the heap after them, and when they are legal.
pub fn one_more_entry()
    ensures heap { AfterGrows }
    ensures legal { LegalGrows }
{}

/// Laws of what every call keeps: births in registers and cells were born, each object has the cells of its shape,
/// the tasks and their registers stay, and register 0 holds the board.
pub fn what_calls_keep()
    ensures opening { OpeningIsHeap }
    ensures calls { CallsKeepHeap }
    ensures histories { HistoriesKeepHeap }
    ensures opening_board { OpeningHoldsBoard }
    ensures board { CallsKeepBoard }
    ensures never_full { NeverFull }
{}

/// Laws of what can be reached: in each heap so many words are live, and no other number; and some of what can be reached
/// has no more words than that.
pub fn live_words()
    ensures some { SomeLive }
    ensures one { OneLive }
    ensures within { ReachedWithinLive }
{}

/// Laws of what lasts as a history grows: a beginning of a legal one is legal, births keep their shapes, objects are no
/// larger than the board and those that are made, and entries of others leave the registers of a seat as they are.
pub fn what_lasts()
    ensures begins { LegalBegins }
    ensures shapes { ShapesLast }
    ensures small { ObjectsStaySmall }
    ensures entry { OthersKeepRegisters }
    ensures others { OthersLeaveRegisters }
{}

/// Laws of the numbers that objects are given: a number may be given again, and its bearer is the last object that
/// was given it.
pub fn numbers_and_bearers()
    ensures many { AsManyNumbers }
    ensures last { BearerIsLast }
    ensures none { NoBearer }
    ensures birth { BirthGivesNumber }
    ensures others { OthersGiveNone }
{}

/// Laws of a heap that is seen by functions: each call changes one of them at one place. Only a New changes more.
pub fn one_change_a_call()
    ensures put { PutEffect }
    ensures store { StoreEffect }
    ensures load { LoadEffect }
    ensures move_effect { MoveEffect }
    ensures clear { ClearEffect }
    ensures new { NewEffect }
{}
