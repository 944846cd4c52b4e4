//! Laws of the records' single changes, over the definitions alone. Each is the contract of a function
//! without code.

ghost use Rattle.open_records.specs.Laws.{AddedHere, AddedNotElsewhere, AddingKeeps, AllCut, CutHere, CutNotElsewhere, CutOnHere, CutOnNotElsewhere, CuttingKeeps, CuttingOnKeeps, NoEqualRecords, NoneNamed, OneHolder, SweepingKeeps, SweptEverywhere};

/// An interface of a sound table has at most one record with BY_DRIVER or EXCLUSIVE, and no two records of
/// the same agent, controller and attribute.
pub fn records_stand_apart()
    ensures holder { OneHolder }
    ensures equal { NoEqualRecords }
{}

/// After an open that may be entered, after a cut and after a sweep, a sound table is sound.
pub fn changes_keep()
    ensures adding { AddingKeeps }
    ensures cutting { CuttingKeeps }
    ensures cutting_on { CuttingOnKeeps }
    ensures sweeping { SweepingKeeps }
{}

/// What a change does to the records of one interface, and that it leaves those of the others. A cut on a
/// handle changes each of its interfaces and leaves those of the other handles.
pub fn interfaces_change()
    ensures added { AddedHere }
    ensures added_not_elsewhere { AddedNotElsewhere }
    ensures cut { CutHere }
    ensures cut_not_elsewhere { CutNotElsewhere }
    ensures cut_on { CutOnHere }
    ensures cut_on_not_elsewhere { CutOnNotElsewhere }
    ensures swept { SweptEverywhere }
{}

/// After a cut of all its records an interface has none, and after a sweep no record names the handle.
pub fn records_go()
    ensures cut { AllCut }
    ensures swept { NoneNamed }
{}
