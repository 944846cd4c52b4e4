use fw_types::Rows;

/// The drivers that the platform prefers for a controller (UEFI 2.8, 11.3: EFI Platform Driver Override Protocol).
#[derive(Debug, Drop)]
pub struct PlatformList {
    /// The controller.
    pub controller: u64,
    /// The handles of the drivers, or of their images, in order.
    pub drivers: Rows<u64>,
}

/// What commands set, and no driver can.
#[derive(Debug, Drop)]
pub struct Settings {
    /// The platform's lists, one for each controller that has one.
    pub platform: Rows<PlatformList>,
    /// The most units that one driver call may spend.
    pub call_budget: u32,
}
