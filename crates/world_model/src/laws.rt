//! Laws of the world's single changes, over the definitions alone. Each is the contract of a
//! function with no code.

ghost use Rattle.std.specs.Prelude.{◌≡◌, ◌^◌};
ghost use Rattle.fw_types.specs.declared.limits.TheConstants.{CALL_BUDGET, COMMAND_BUDGET, HANDLE_NUMBER_END, MOST_LEVELS, MOST_LISTED, MOST_MARKS, MOST_RECORDS};
ghost use Rattle.guest_memory.specs.declared.address_map.TheConstants.{BLOCK_END};
ghost use Rattle.world_model.specs.ThunkLaws.{DroppingTakesThunks, MadeIsFound, MakingKeepsOthers, ThunkEntersImage};
ghost use Rattle.world_model.specs.ImageLaws.{AddedIsFound};
ghost use Rattle.world_model.specs.Boards.{OpeningHandles, RollbackLeavesBoard, RootsAreThere, RootsFit, RootsHaveBuses};
ghost use Rattle.world_model.specs.Children.{ChildrenAreFew};
ghost use Rattle.world_model.specs.ChildLaws.{BusListIsSet, FunctionIsOfChild, OpeningHasBusLists, PciIoIsOfChild, RemovingForgets};
ghost use Rattle.world_model.specs.NewChild.{BlocksHaveSizes, ChildHasFunction, ChildHasInterfaces, ChildIsPossible, ChildKeepsStacks};
ghost use Rattle.world_model.specs.CommandPath.{ClearingLeavesNoPath, OpeningHasNoPath, PathClearingKeeps, PathClearingKeepsStacks, PathFits, PathSettingKeeps, PathSettingKeepsStacks, SetPathIsAlone};
ghost use Rattle.world_model.specs.Fixed.{MappingKeepsFixed, PuttingKeepsFixed, UnmappingKeepsFixed, WritingKeepsFixed};
ghost use Rattle.world_model.specs.Kept.{RangesAreSmall};
ghost use Rattle.world_model.specs.Legal.{DeadIsNotNamed, EveryoneIsLegal, NoneIsLost};
ghost use Rattle.world_model.specs.Levels.{CallHasMarks, DeeperHasMarks, DeeperIsFree, FewerToSpare, MarkingLeavesFree, NextIsFree, OpeningIsAtRest, PushingLeavesFree, RestHasMarks, RestIsFree, SpareIsMade, SparesAreEnough};
ghost use Rattle.world_model.specs.Marks.{CommitSpendsMark, RollbackPutsBack};
ghost use Rattle.world_model.specs.NestedLaws.{AllLeavingInView, ChildLeavingInView, EnteringInView, InstallingInView, LeavingInView, NewHandleInView, UninstallingInView, WeakDroppingInView};
ghost use Rattle.world_model.specs.StackLaws.{AddingKeepsStacks, AllottingKeepsStacks, DroppingKeepsStacks, FreeingKeepsStacks, PoppingUndoesPush, PoppingTakesStack, PushedStackIsThere, PushingAddsStack, PuttingKeepsStacks, StackOfLevel, SweepingKeepsStacks, WritingKeepsStacks};
ghost use Rattle.world_model.specs.BlockBytes.{EmptiedBesideStacks, EmptyFreeIsNoted, EmptyingKeeps, UndoneWithoutBytes};
ghost use Rattle.world_model.specs.UndoLaws.{AddImageIsNoted, AllotIsNoted, BusListIsNoted, ChildIsNoted, DropImageIsNoted, FreeIsNoted, InstallIsNoted, LeftStackIsThere, NoneIsLeftOut, NotedBesideStacks, PoppedIsLeftOut, PushedIsLeftOut, PutIsNoted, TakenBesideStacks, ThunkIsNoted, TplIsNoted, UndoingLeavesStacks, UninstallIsNoted, WriteIsNoted};
ghost use Rattle.world_model.specs.Keeping.{AddingKeeps, AllLeavingKeeps, AllottingKeeps, BlockFits, ChildLeavingKeeps, DroppingKeeps, EnteringKeeps, FreeingKeeps, ImageFits, InstallingKeeps, LeavingKeeps, ListFits, MakingKeeps, OpeningIsKept, PoppingKeeps, PushingKeeps, PuttingKeeps, StackFits, ImageBlockFits, SweepingKeeps, TplKeeps, UninstallingKeeps, WeakDroppingKeeps, WritingKeeps, BusListKeeps, NotingKeeps, RecordsKeep, NoRecordsAreKept, LivePartiesAreKept};

/// The tables, lists of children and blocks of the firmware keep their bytes while they are mapped.
/// They change only by being mapped and unmapped.
pub fn fixed_segments_stay()
    ensures writing { WritingKeepsFixed }
    ensures putting { PuttingKeepsFixed }
    ensures mapping { MappingKeepsFixed }
    ensures unmapping { UnmappingKeepsFixed }
{}

/// What holds of every soft part holds of the opening one, and each single change leaves it.
pub fn changes_keep()
    ensures opening { OpeningIsKept }
    ensures writing { WritingKeeps }
    ensures putting { PuttingKeeps }
    ensures tpl { TplKeeps }
    ensures allotting { AllottingKeeps }
    ensures freeing { FreeingKeeps }
    ensures installing { InstallingKeeps }
    ensures uninstalling { UninstallingKeeps }
    ensures entering { EnteringKeeps }
    ensures leaving { LeavingKeeps }
    ensures all_leaving { AllLeavingKeeps }
    ensures child_leaving { ChildLeavingKeeps }
    ensures weak_dropping { WeakDroppingKeeps }
    ensures adding { AddingKeeps }
    ensures dropping { DroppingKeeps }
    ensures sweeping { SweepingKeeps }
    ensures making { MakingKeeps }
    ensures noting { NotingKeeps }
    ensures bus_list { BusListKeeps }
    ensures pushing { PushingKeeps }
    ensures popping { PoppingKeeps }
    ensures records { RecordsKeep }
    ensures no_records { NoRecordsAreKept }
    ensures live_parties { LivePartiesAreKept }
{}

/// The open records, each seen with its interface, are legal, and none is left out. A handle that
/// is not live is named by none.
pub fn records_are_legal()
    ensures legal { EveryoneIsLegal }
    ensures whole { NoneIsLost }
    ensures dead { DeadIsNotNamed }
{}

/// What each change of interfaces and of open records is in the nested view, in which each handle
/// has its interfaces and each interface its records.
pub fn changes_in_view()
    ensures new_handle { NewHandleInView }
    ensures installing { InstallingInView }
    ensures uninstalling { UninstallingInView }
    ensures entering { EnteringInView }
    ensures leaving { LeavingInView }
    ensures all_leaving { AllLeavingInView }
    ensures child_leaving { ChildLeavingInView }
    ensures weak_dropping { WeakDroppingInView }
{}

/// A segment that a change maps meets no other and passes no limit, unless the change is refused.
pub fn segments_fit()
    ensures block { BlockFits }
    ensures image_block { ImageBlockFits }
    ensures image { ImageFits }
    ensures stack { StackFits }
    ensures list { ListFits }
{}

/// The device path of a `connect` command is mapped at a place that nothing else uses. Setting and
/// clearing it leaves what holds of every soft part, and all stacks. After it is cleared no path is
/// there, as at first.
pub fn command_paths_fit()
    ensures fits { PathFits }
    ensures setting { PathSettingKeeps }
    ensures clearing { PathClearingKeeps }
    ensures setting_stacks { PathSettingKeepsStacks }
    ensures clearing_stacks { PathClearingKeepsStacks }
    ensures opening { OpeningHasNoPath }
    ensures alone { SetPathIsAlone }
    ensures none { ClearingLeavesNoPath }
{}

/// Which stacks are there: all changes leave them, except for those that push and pop one.
pub fn stacks_stand()
    ensures level { StackOfLevel }
    ensures writing { WritingKeepsStacks }
    ensures putting { PuttingKeepsStacks }
    ensures allotting { AllottingKeepsStacks }
    ensures freeing { FreeingKeepsStacks }
    ensures adding { AddingKeepsStacks }
    ensures dropping { DroppingKeepsStacks }
    ensures sweeping { SweepingKeepsStacks }
    ensures pushing { PushingAddsStack }
    ensures popping { PoppingTakesStack }
    ensures there { PushedStackIsThere }
    ensures undone { PoppingUndoesPush }
{}

/// A handle has at most 4,096 children, since each is a live handle.
pub fn children_are_few()
    ensures { ChildrenAreFew }
{}

/// The levels that may still be entered have no stack, neither now nor in what an open mark keeps,
/// and that stays so as a level is entered and as marks are made.
pub fn levels_are_free()
    ensures next { NextIsFree }
    ensures pushing { PushingLeavesFree }
    ensures deeper { DeeperIsFree }
    ensures marking { MarkingLeavesFree }
{}

/// Each level opens three marks at most, and there is room for them.
pub fn marks_suffice()
    ensures enough { SparesAreEnough }
    ensures deeper { DeeperHasMarks }
    ensures call { CallHasMarks }
    ensures spare { SpareIsMade }
{}

/// Between commands no stack is there and no mark is open, as at first; so all levels are free, and
/// there is room for their marks, with some to spare.
pub fn rest_is_free()
    ensures opening { OpeningIsAtRest }
    ensures free { RestIsFree }
    ensures marks { RestHasMarks }
    ensures fewer { FewerToSpare }
{}

/// A rollback puts the soft part back as it was when the mark was made, and a commit leaves it,
/// whatever was done in between and however many marks are open. A rollback leaves the board, with
/// the bytes of its devices, and the option ROMs.
pub fn marks_are_spent()
    ensures rollback { RollbackPutsBack }
    ensures commit { CommitSpendsMark }
    ensures board { RollbackLeavesBoard }
{}

/// In the opening state each root bridge of the board has a handle with its device path and then
/// with root bridge I/O, in the order of the board's lines. The only other handles are those of the
/// firmware and of the bus driver. No limit keeps one of at most 16 root bridges out.
pub fn roots_are_there()
    ensures fit { RootsFit }
    ensures interfaces { RootsAreThere }
    ensures handles { OpeningHandles }
    ensures buses { RootsHaveBuses }
{}

/// Nothing refuses a child of the bus that passes no limit. It has its interfaces, in order, and its
/// function. The stacks stay.
pub fn children_are_made()
    ensures possible { ChildIsPossible }
    ensures sizes { BlocksHaveSizes }
    ensures interfaces { ChildHasInterfaces }
    ensures function { ChildHasFunction }
    ensures stacks { ChildKeepsStacks }
{}

/// A child of the bus, found by its handle or by the address of its PCI I/O, has PCI I/O of the
/// firmware, and its function is of the board. A handle without its PCI I/O is no child. An option
/// ROM that was processed has its images, and in the opening state there is a bus list for each
/// function of the board.
pub fn children_are_known()
    ensures handle { FunctionIsOfChild }
    ensures pci_io { PciIoIsOfChild }
    ensures removed { RemovingForgets }
    ensures bus_list { BusListIsSet }
    ensures opening { OpeningHasBusLists }
{}

/// No range of more than 2^63 bytes can be read or written.
pub fn ranges_are_small()
    ensures { RangesAreSmall }
{}

/// An image that is added is found under its new handle.
pub fn added_image_is_found()
    ensures { AddedIsFound }
{}

/// A thunk that is made is found at its address and enters an image, and it is removed with that
/// image.
pub fn thunks_enter_images()
    ensures found { MadeIsFound }
    ensures others { MakingKeepsOthers }
    ensures enters { ThunkEntersImage }
    ensures dropping { DroppingTakesThunks }
{}

/// Each change that is noted, made and taken back, leaves an equal soft part. Open records are not taken back
/// here: a change that removes some is taken back only if there are none.
pub fn changes_are_taken_back()
    ensures tpl { TplIsNoted }
    ensures write { WriteIsNoted }
    ensures put { PutIsNoted }
    ensures allot { AllotIsNoted }
    ensures free { FreeIsNoted }
    ensures install { InstallIsNoted }
    ensures uninstall { UninstallIsNoted }
    ensures drop_image { DropImageIsNoted }
    ensures add_image { AddImageIsNoted }
    ensures thunk { ThunkIsNoted }
    ensures child { ChildIsNoted }
    ensures bus_list { BusListIsNoted }
{}

/// What a mark keeps stays as changes are made and noted, and as the stacks of later levels are
/// pushed and popped. Taking changes back leaves the stacks.
pub fn marks_keep()
    ensures noted { NotedBesideStacks }
    ensures taken { TakenBesideStacks }
    ensures pushed { PushedIsLeftOut }
    ensures popped { PoppedIsLeftOut }
    ensures none { NoneIsLeftOut }
    ensures left { LeftStackIsThere }
    ensures undone { UndoingLeavesStacks }
{}

/// A mark that is older than a large block of the pool does not need the block's bytes: taking back
/// all changes since the mark removes the block too. So a free of the block may be noted without
/// them, and an undo leaves the same.
pub fn new_blocks_need_no_bytes()
    ensures keeps { EmptyingKeeps }
    ensures free { EmptyFreeIsNoted }
    ensures stacks { EmptiedBesideStacks }
    ensures undone { UndoneWithoutBytes }
{}

/// The limits that no test reaches have these values.
pub fn limits_have_their_values()
    ensures block_end { BLOCK_END ≡ 2 ^ 62 }
    ensures handle_number_end { HANDLE_NUMBER_END ≡ 2 ^ 62 }
    ensures levels { MOST_LEVELS ≡ 32 }
    ensures listed { MOST_LISTED ≡ 16384 }
    ensures marks { MOST_MARKS ≡ 65536 }
    ensures records { MOST_RECORDS ≡ 65536 }
    ensures command_budget { COMMAND_BUDGET ≡ 4194304 }
    ensures call_budget { CALL_BUDGET ≡ 1048576 }
{}
