/// What a native call to one of the firmware's addresses asks for: a boot service (UEFI 2.8, 4.4:
/// EFI Boot Services Table) or a function of PCI I/O (UEFI 2.8, 14.4: EFI PCI I/O Protocol).
#[derive(Clone, Copy, Debug, PartialEq, Eq)]
pub enum Service {
    /// RaiseTPL.
    RaiseTpl,
    /// RestoreTPL.
    RestoreTpl,
    /// AllocatePool.
    AllocatePool,
    /// FreePool.
    FreePool,
    /// InstallProtocolInterface.
    Install,
    /// UninstallProtocolInterface.
    Uninstall,
    /// HandleProtocol.
    HandleProtocol,
    /// LocateHandle.
    LocateHandle,
    /// Stall.
    Stall,
    /// ConnectController.
    ConnectController,
    /// DisconnectController.
    DisconnectController,
    /// OpenProtocol.
    OpenProtocol,
    /// CloseProtocol.
    CloseProtocol,
    /// OpenProtocolInformation.
    OpenProtocolInformation,
    /// ProtocolsPerHandle.
    ProtocolsPerHandle,
    /// LocateHandleBuffer.
    LocateHandleBuffer,
    /// LocateProtocol.
    LocateProtocol,
    /// InstallMultipleProtocolInterfaces.
    InstallMultiple,
    /// UninstallMultipleProtocolInterfaces.
    UninstallMultiple,
    /// CopyMem.
    CopyMem,
    /// SetMem.
    SetMem,
    /// Mem.Read of PCI I/O.
    MemRead,
    /// Mem.Write of PCI I/O.
    MemWrite,
    /// Pci.Read of PCI I/O.
    PciRead,
    /// Pci.Write of PCI I/O.
    PciWrite,
    /// GetLocation of PCI I/O.
    GetLocation,
    /// Attributes of PCI I/O.
    Attributes,
    /// A boot service or a function of PCI I/O that this firmware does not have.
    Unbuilt,
}
