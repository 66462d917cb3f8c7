// The law over lists of calls, of the relation alone: whatever carries calls out as they are defined keeps it.
ghost use Rattle.solver.specs.History.{EveryHistoryKeepsTheLaw};

// After every call of every history on a book that was opened, the law holds.
pub fn every_history_keeps_the_law()
    ensures { EveryHistoryKeepsTheLaw }
{}
