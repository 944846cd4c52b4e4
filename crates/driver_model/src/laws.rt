//! Laws of the driver model, over the definitions alone: what driver calls, runs, activations and
//! loads leave, whatever they call on the levels below. Each is the contract of a function with no
//! code.

ghost use Rattle.driver_model.specs.Staying.{
  CallsStay,
  ConnectsStay,
  DisconnectsStay,
  FreeStays,
  LoadsStay,
  ManyUninstallsStay,
  NoPathStays,
  PathStaysAlone,
  RemovalsStay,
  RestCanRun,
  RunsStay,
  ServicesGoingOnStay,
  StepsLeaveStacks,
  ThunksStay,
  TurnsStay,
  UninstallsStay,
};

/// If no stack of a later level is there, a driver call, a thunk, a run of EBC code and each of its
/// turns (UEFI 2.8, 11.1 and chapter 22) leave what holds of every world, and the same stacks. No
/// byte of a segment that code may not write changes while the segment is mapped.
pub fn calls_and_runs_stay()
    ensures calls { CallsStay }
    ensures thunks { ThunksStay }
    ensures runs { RunsStay }
    ensures turns { TurnsStay }
{}

/// If no stack of a later level is there, ConnectController and DisconnectController leave what
/// holds of every world, and the same stacks, and so do a driver's OpenProtocol that removes a
/// driver and its uninstall that reconnects (UEFI 2.8, 7.3). No byte of a segment that code may not
/// write changes while the segment is mapped.
pub fn activations_stay()
    ensures connects { ConnectsStay }
    ensures disconnects { DisconnectsStay }
    ensures removals { RemovalsStay }
    ensures uninstalls { UninstallsStay }
    ensures many_uninstalls { ManyUninstallsStay }
    ensures services { ServicesGoingOnStay }
{}

/// If no stack of a later level is there, the load of an image (UEFI 2.8, 7.4: LoadImage and
/// StartImage) leaves what holds of every world, and the same stacks, whether its entry point
/// succeeds or not. No byte of a segment that code may not write changes while the segment is
/// mapped.
pub fn loads_stay()
    ensures { LoadsStay }
{}

/// Between commands no stack is there, and each level can run. Levels that have no stack have none
/// later, as long as the stacks stay, and a step leaves all stacks.
pub fn levels_can_run()
    ensures rest { RestCanRun }
    ensures free { FreeStays }
    ensures steps { StepsLeaveStacks }
{}

/// What a command runs leaves the place of the command's device path as it was: without one, or with
/// nothing but one.
pub fn command_paths_stay()
    ensures none { NoPathStays }
    ensures alone { PathStaysAlone }
{}
