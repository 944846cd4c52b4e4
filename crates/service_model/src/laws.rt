//! Laws of the services, over the definitions alone. Each is the contract of a function with no
//! work of its own.

ghost use Rattle.service_model.specs.Allowed.{
  BlocksLeaveWritable,
  ConnectIsAllowed,
  ContextEndsAtZero,
  ImagesDoNotLast,
  PairsAreInstalled,
  PuttingLeavesWritable,
  ReentriesChangeNothing,
  RowInstallsPairs,
  RowsAreAllowed,
};
ghost use Rattle.service_model.specs.SecondLook.{
  SecondLooksAreAllowed,
  SecondLooksEnd,
  SecondLooksLeaveStacks,
  SpendsNothing,
};
ghost use Rattle.service_model.specs.Untouched.{
  BoardStays,
  ErrorsChangeNothing,
  EventsStay,
  FixedStay,
  KeptStays,
  LinesStay,
  OthersEnd,
  ShortOfUnitsTraps,
  StacksStay,
  TplStays,
  TrapsChangeNothing,
  TrapsForItsCause,
  UnitsNeverRise,
  UnreadablePriceTraps,
};

use world_model::laws::{changes_keep, fixed_segments_stay, segments_fit, stacks_stand};

/// A row ends only with a change that can be applied: the bytes that it reads and writes can be read
/// and written; pairs can be installed; and an open that is recorded is of an interface that is there, by
/// a live agent, for a live controller or for none, with a legal attribute, and no record keeps it out.
pub fn rows_are_allowed()
    ensures { RowsAreAllowed }
{}

/// A range of bytes that can be written stays so when a block of the pool is made.
pub fn blocks_leave_writable()
    ensures { BlocksLeaveWritable }
{
    segments_fit();
}

/// A range of bytes that can be written stays so when bytes are put.
pub fn puts_leave_writable()
    ensures { PuttingLeavesWritable }
{}

/// An interface that an image owns is none of those that always stay: the firmware owns the loaded image
/// protocols and the bus driver's binding.
pub fn images_do_not_last()
    ensures { ImagesDoNotLast }
{}

/// InstallMultipleProtocolInterfaces installs all or none. Of pairs that can be installed none is
/// refused: each is there afterwards, all on one handle, each with its interface and its owner. The row
/// ends with such pairs, and the image that calls owns them.
pub fn pairs_are_installed()
    ensures each { PairsAreInstalled }
    ensures row { RowInstallsPairs }
{}

/// The row of ConnectController ends only with a change that can be applied, and its list of handles ends
/// at a 0. A service that goes on changes nothing before it does so.
pub fn reentries_change_nothing()
    ensures allowed { ConnectIsAllowed }
    ensures ends { ContextEndsAtZero }
    ensures state { ReentriesChangeNothing }
{}

/// What a service keeps: each segment that code may not write, with its bytes; all stacks; and what
/// holds of every soft part.
pub fn services_keep()
    ensures fixed_segments { FixedStay }
    ensures stacks { StacksStay }
    ensures kept { KeptStays }
{
    changes_keep();
    fixed_segments_stay();
    stacks_stand();
    segments_fit();
    puts_leave_writable();
    rows_are_allowed();
}

/// What a service leaves as it was: the task priority level, except for RaiseTPL and RestoreTPL; the
/// events; and the board with its devices, except for Mem.Write, Pci.Write and Attributes, which leave its
/// lines. Units never rise, and a service that traps leaves the whole soft part and all devices. One that
/// answers an error, whose bit 63 is set, has spent its price, and has stored one number at most.
pub fn services_leave()
    ensures tpl { TplStays }
    ensures events { EventsStay }
    ensures board { BoardStays }
    ensures lines { LinesStay }
    ensures units { UnitsNeverRise }
    ensures traps { TrapsChangeNothing }
    ensures errors { ErrorsChangeNothing }
{}

/// Why a service traps. If its price depends on an argument that can't be read, the cause is `Memory`.
/// Otherwise, exactly if the price is more than the units that are left, the cause is `Budget`. In all
/// other cases it is `Memory`.
pub fn services_trap()
    ensures cause { TrapsForItsCause }
    ensures short { ShortOfUnitsTraps }
    ensures unreadable { UnreadablePriceTraps }
{}

/// No service enters the driver model again, except for ConnectController, DisconnectController,
/// OpenProtocol, UninstallProtocolInterface and UninstallMultipleProtocolInterfaces.
pub fn services_end()
    ensures { OthersEnd }
{}

/// The second look of an OpenProtocol for which a driver was disconnected spends no units and leaves
/// the events.
pub fn second_looks_spend_nothing()
    ensures { SpendsNothing }
{}

/// The second look of an OpenProtocol ends only with a change that can be applied, and does not enter the
/// driver model again. It leaves all stacks.
pub fn second_looks_end()
    ensures allowed { SecondLooksAreAllowed }
    ensures ends { SecondLooksEnd }
    ensures stacks { SecondLooksLeaveStacks }
{
    changes_keep();
    stacks_stand();
    segments_fit();
    puts_leave_writable();
}
