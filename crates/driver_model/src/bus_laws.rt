//! Laws of the PCI bus driver (UEFI 2.8, 14.3.2: PCI Bus Drivers), over the definitions alone: what holds whenever it
//! changes the state, because of the tests that come before. Each is the contract of a function with no code.

ghost use Rattle.driver_model.specs.BusLaws.{AllMayGo, ChildCanBeIn, DeadIsNoChild, DeadIsUnsupported, DriversMayUninstall, RootCanBeOpened, SupportedIsRoot};

/// A controller that is supported is a root bridge, and the bus driver can open it. A handle that is not live is not
/// supported.
pub fn roots_can_be_opened()
    ensures supported { SupportedIsRoot }
    ensures open { RootCanBeOpened }
    ensures dead { DeadIsUnsupported }
{}

/// Below a root bridge the bus driver can open a child that passes no limit, and the root bridge stays one.
pub fn children_can_be_opened()
    ensures { ChildCanBeIn }
{}

/// A handle that is not live is no child of the bus. What is uninstalled of a child has no lasting interfaces.
pub fn children_can_go()
    ensures dead { DeadIsNoChild }
    ensures go { AllMayGo }
{}

/// A driver may ask for the uninstall of any interface.
pub fn drivers_may_uninstall()
    ensures { DriversMayUninstall }
{}
