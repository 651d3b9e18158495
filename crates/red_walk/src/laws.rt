//! What the walk is to the round of a store's journal.

ghost use Rattle.red_walk.specs.Rounds.{HasLaw, OpenedLaw, MovedLaw, MovedToLaw, JoinedLaw, CopiedLaw, TouchedLaw, RemovedLaw, LookLaw, CopyLaw, VerdictLaw, LookWorkLaw, CopyWorkLaw, JoinWorkLaw, TouchWorkLaw, RemoveWorkLaw, MovedWalkLaw, JoinedWalkLaw, CopiedWalkLaw, TouchedWalkLaw, RemovedWalkLaw};

/// Each change of a walk is the change of the round that the laws of a journal speak of.
pub fn walks_are_rounds()
    ensures tells { HasLaw }
    ensures opens { OpenedLaw }
    ensures moves { MovedLaw }
    ensures jumps { MovedToLaw }
    ensures joins { JoinedLaw }
    ensures copies { CopiedLaw }
    ensures touches { TouchedLaw }
    ensures removes { RemovedLaw }
    ensures looks { LookLaw }
    ensures asks_for_copies { CopyLaw }
    ensures asks_for_the_verdict { VerdictLaw }
    ensures looks_are_work { LookWorkLaw }
    ensures copies_are_work { CopyWorkLaw }
    ensures joins_were_counted { JoinWorkLaw }
    ensures touches_are_no_work { TouchWorkLaw }
    ensures removes_are_no_work { RemoveWorkLaw }
    ensures moves_keep { MovedWalkLaw }
    ensures joins_keep { JoinedWalkLaw }
    ensures copies_keep { CopiedWalkLaw }
    ensures touches_keep { TouchedWalkLaw }
    ensures removes_keep { RemovedWalkLaw }
{}
