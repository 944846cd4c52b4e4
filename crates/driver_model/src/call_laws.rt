//! Laws of what driver calls leave and what they cost, over the definitions alone. Each is the contract of a
//! function with no work of its own.

ghost use Rattle.driver_model.specs.BoardLaws.{BoardStays, BusListsStay};
ghost use Rattle.driver_model.specs.CallLaws.{CallsHaveTheirEvent, CallsLeaveTpl, SupportedLeaves, UncommittedCallsLeave};
ghost use Rattle.driver_model.specs.Chains.{CallsAreChains, ConnectsAreChains, DisconnectsAreChains, LoadsAreChains, RunsAreChains, UnloadsAreChains};
ghost use Rattle.driver_model.specs.Spending.{CallsSpend, ConnectsSpend, DisconnectsSpend, LoadsSpend, RunsSpend, ServicesGoingOnSpend};

use service_model::laws::{second_looks_spend_nothing, services_leave};

/// What a driver call leaves (UEFI 2.8, 11.1: EFI Driver Binding Protocol). If it does not commit, the soft part
/// is as it was, whatever the call and all that it called did; Supported never commits. The task priority level
/// is as it was. After the earlier events comes the event of the call, unless the call may not spend its price.
pub fn calls_leave()
    ensures uncommitted { UncommittedCallsLeave }
    ensures supported { SupportedLeaves }
    ensures tpl { CallsLeaveTpl }
    ensures event { CallsHaveTheirEvent }
{
    services_leave();
    second_looks_spend_nothing();
}

/// What is spent, through all levels. Units never rise. Events are only added: the earlier ones are still there,
/// in their places, and unchanged except for their results. Each event is paid.
pub fn all_is_paid()
    ensures calls { CallsSpend }
    ensures runs { RunsSpend }
    ensures connects { ConnectsSpend }
    ensures disconnects { DisconnectsSpend }
    ensures services { ServicesGoingOnSpend }
    ensures loads { LoadsSpend }
{
    second_looks_spend_nothing();
}

/// Driver calls, runs, activations, loads and unloads change the state only by single moves, and each move can
/// be made at the point at which it is made.
pub fn all_are_chains()
    ensures calls { CallsAreChains }
    ensures runs { RunsAreChains }
    ensures connects { ConnectsAreChains }
    ensures disconnects { DisconnectsAreChains }
    ensures loads { LoadsAreChains }
    ensures unloads { UnloadsAreChains }
{}

/// Whatever driver calls, runs, activations, loads and unloads change, the board has its lines and its functions
/// their option ROMs, and there is one bus list for each function if there was at first.
pub fn boards_stay()
    ensures board { BoardStays }
    ensures lists { BusListsStay }
{}
