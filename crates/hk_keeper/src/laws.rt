//! Laws of the collector's turns, over their definitions alone.
ghost use Rattle.hk_keeper.specs.Laws.{AnswersTogether, SeatsAnswerNothing, UsefulExactly, SomeEvent, TurnsTogether};

/// What the events in a log answer is told by its parts, and only the collector's events answer.
pub fn logs_answer()
    ensures together { AnswersTogether }
    ensures seats { SeatsAnswerNothing }
{}

/// A turn answers Useful exactly where each event of its budget was useful, and it does some event unless no cycle is left. A
/// turn after one that used its whole budget is one turn with it.
pub fn turns_answer()
    ensures useful { UsefulExactly }
    ensures some { SomeEvent }
    ensures together { TurnsTogether }
{}
