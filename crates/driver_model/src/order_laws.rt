//! Laws of the order of drivers and of searches through it (UEFI 2.8, 7.3: ConnectController), over the
//! definitions alone. Each is the contract of a function with no work of its own.

ghost use Rattle.driver_model.specs.CallLaws.{SearchListIsUnmarked, SearchWithoutSuccessLeaves};
ghost use Rattle.driver_model.specs.OrderLaws.{
  BindingsRise,
  EachHasItsBinding,
  EachOnce,
  EveryBindingIsThere,
  FallingIsByVersion,
  OneMoreComesLast,
  OthersGoByVersion,
  VersionsFall,
};
ghost use Rattle.driver_model.specs.Spending.{FoundCosts, SearchIsLookAndSearch};

use service_model::laws::{second_looks_spend_nothing, services_leave};

/// Every handle with a driver binding is in the order of drivers, each once and with its binding. First
/// come the drivers that the context names, then those of the platform driver override and of the bus
/// specific driver override. The others follow, the highest Version first, and of equal Versions the
/// lowest handle.
pub fn order_of_drivers()
    ensures once { EachOnce }
    ensures bindings { EachHasItsBinding }
    ensures every { EveryBindingIsThere }
    ensures others { OthersGoByVersion }
    ensures versions { VersionsFall }
{}

/// How lists of drivers are put in order. All bindings go by rising handle. A list of them in which Versions
/// never rise, and drivers with the same Version stay in their order by handle, is their order by Version.
/// Of a list in which a driver may be more than once, the first places are taken one driver at a time: one
/// more driver comes last, unless it is there already.
pub fn lists_of_drivers()
    ensures handles { BindingsRise }
    ensures versions { FallingIsByVersion }
    ensures first_places { OneMoreComesLast }
{}

/// How ConnectController searches for a driver. A search goes down a list that has each driver once, and
/// none that is marked. If it finds no driver, it leaves the soft part as it was; a driver that it finds has
/// cost its price. All searches are the first one and, after the Start of the driver that it found, all
/// others from there.
pub fn searches_go_on()
    ensures list { SearchListIsUnmarked }
    ensures leaves { SearchWithoutSuccessLeaves }
    ensures costs { FoundCosts }
    ensures next { SearchIsLookAndSearch }
{
    services_leave();
    second_looks_spend_nothing();
}
