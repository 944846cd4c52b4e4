//! Laws of the log's single changes, over the definitions alone. Each is the contract of a function without
//! code. `C` is a change, `P` what a mark carries, and `S` the state that is changed.

ghost use Rattle.undo_log.specs.AtMarks.{CommittingKeeps, MarkingKeeps, NotingKeeps, TakenIsMarked, TakingKeeps};

/// A new mark keeps the state as it is, and the older marks keep what they kept.
pub fn marking_keeps<C, P, S>()
    ensures { MarkingKeeps C P S }
{}

/// If a change is made and noted, and can be taken back, the marks keep what they kept.
pub fn noting_keeps<C, P, S>()
    ensures { NotingKeeps C P S }
{}

/// If the last change is taken back, the marks keep what they kept.
pub fn taking_keeps<C, P, S>()
    ensures { TakingKeeps C P S }
{}

/// If no change is left since the newest mark, the state is the one at that mark.
pub fn taken_is_marked<C, P, S>()
    ensures { TakenIsMarked C P S }
{}

/// If the newest mark is closed, the older ones keep what they kept.
pub fn committing_keeps<C, P, S>()
    ensures { CommittingKeeps C P S }
{}
