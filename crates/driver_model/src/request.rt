/// What ConnectController is asked for, except its context (UEFI 2.8, 7.3: ConnectController).
#[derive(Clone, Copy, Debug, PartialEq, Eq)]
pub struct Connection {
    /// The controller.
    pub controller: u64,
    /// The address of the remaining path, or 0.
    pub path: u64,
    /// Whether the path is an End node.
    pub at_end: bool,
    /// Whether the controller's children are connected too.
    pub recursive: bool,
}

/// What DisconnectController is asked for (UEFI 2.8, 7.3: DisconnectController).
#[derive(Clone, Copy, Debug, PartialEq, Eq)]
pub struct Disconnection {
    /// The controller.
    pub controller: u64,
    /// The driver, or 0 for all.
    pub driver: u64,
    /// The child, or 0 for all.
    pub child: u64,
}

/// Who uninstalls an interface (UEFI 2.8, 7.3: UninstallProtocolInterface).
#[derive(Clone, Copy, Debug, PartialEq, Eq)]
pub enum Remover {
    /// The firmware, for its PCI bus driver.
    TheFirmware,
    /// A driver.
    ADriver,
}

/// How a driver's turn in a disconnect ended.
#[derive(Clone, Copy, Debug, PartialEq, Eq)]
pub enum StopTurn {
    /// The driver was passed over, or only its child was stopped.
    Passed,
    /// A Stop of it did not succeed, or it has no binding.
    Failed,
    /// It was stopped, and its records on the controller were closed.
    Stopped,
}
