//! Laws of boards, over the definitions alone. Each is the contract of a function with no code.
ghost use Rattle.pci_model.specs.Laws.{AmongItsBus, BarApart, BarByte, BarNotConfig, BarReadBack, BarsApart, ConfigApart, ConfigByte, ConfigNotBar, EachPasses, FewFunctions, FewLines, FewRoots, FoundAtLocation, IsWhereFound, NoLines, OneMorePasses, OnlyOfBus, RefusedAtFirst, RomIsNew};

/// Lines that are no board are refused for the first line that has a fault; each line of a board
/// has none. So a board grows line by line: it begins with no lines, and a line that has no fault
/// makes a board again.
pub fn lines_are_checked()
    ensures refused { RefusedAtFirst }
    ensures passes { EachPasses }
    ensures none { NoLines }
    ensures more { OneMorePasses }
{}

/// A board has at most 16 root bridges, 256 functions and 2,064 lines: a line for each of these,
/// and for 6 BARs and a ROM of each function.
pub fn boards_are_small()
    ensures roots { FewRoots }
    ensures functions { FewFunctions }
    ensures lines { FewLines }
{}

/// The number of a function and its location undo one another. So no two functions are at one
/// location.
pub fn locations_are_numbers()
    ensures found { FoundAtLocation }
    ensures there { IsWhereFound }
{}

/// The functions that are listed for a bus are all functions on it and no others.
pub fn buses_are_whole()
    ensures all { AmongItsBus }
    ensures only { OnlyOfBus }
{}

/// No two lines of a board name the option ROM of one function.
pub fn roms_are_apart()
    ensures { RomIsNew }
{}

/// Which bytes a write changes: those of a BAR that it reaches, and those of configuration space
/// that it reaches and that can be written.
#[tactic(auto, unfolding(fw_types::specs::Layout::put))]
pub fn writes_are_bytes()
    ensures config { ConfigByte }
    ensures bar { BarByte }
{}

/// A write changes nothing that is read elsewhere, and what is written to a BAR is read back.
pub fn writes_stay_apart()
    ensures config { ConfigApart }
    ensures config_not_bar { ConfigNotBar }
    ensures bar { BarApart }
    ensures bars { BarsApart }
    ensures bar_not_config { BarNotConfig }
    ensures read_back { BarReadBack }
{}
