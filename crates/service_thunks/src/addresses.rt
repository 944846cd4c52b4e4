ghost use Rattle.std.specs.Prelude.{◌≡◌, Some, nat_eq, slice_get, true};
ghost use Rattle.std.specs.Map.{lookup};
ghost use Rattle.service_thunks.specs.Placed.{by_place};
ghost use Rattle.service_thunks.specs.Services.{is_built, service_of};

use crate::service::Service;
use guest_memory::address_map::{BOOT_SERVICES, PCI_IO_FUNCTIONS};

/// The address of the first boot service, whose entry comes after the header of the table.
const FIRST_SERVICE: u64 = BOOT_SERVICES + 24;

/// The boot services in the order of their table.
const BOOT: [Service; 44] = [
    Service::RaiseTpl,
    Service::RestoreTpl,
    Service::Unbuilt,
    Service::Unbuilt,
    Service::Unbuilt,
    Service::AllocatePool,
    Service::FreePool,
    Service::Unbuilt,
    Service::Unbuilt,
    Service::Unbuilt,
    Service::Unbuilt,
    Service::Unbuilt,
    Service::Unbuilt,
    Service::Install,
    Service::Unbuilt,
    Service::Uninstall,
    Service::HandleProtocol,
    Service::Unbuilt,
    Service::Unbuilt,
    Service::LocateHandle,
    Service::Unbuilt,
    Service::Unbuilt,
    Service::Unbuilt,
    Service::Unbuilt,
    Service::Unbuilt,
    Service::Unbuilt,
    Service::Unbuilt,
    Service::Unbuilt,
    Service::Stall,
    Service::Unbuilt,
    Service::ConnectController,
    Service::DisconnectController,
    Service::OpenProtocol,
    Service::CloseProtocol,
    Service::OpenProtocolInformation,
    Service::ProtocolsPerHandle,
    Service::LocateHandleBuffer,
    Service::LocateProtocol,
    Service::InstallMultiple,
    Service::UninstallMultiple,
    Service::Unbuilt,
    Service::CopyMem,
    Service::SetMem,
    Service::Unbuilt,
];

/// The functions of PCI I/O in the order of the protocol.
const PCI: [Service; 18] = [
    Service::Unbuilt,
    Service::Unbuilt,
    Service::MemRead,
    Service::MemWrite,
    Service::Unbuilt,
    Service::Unbuilt,
    Service::PciRead,
    Service::PciWrite,
    Service::Unbuilt,
    Service::Unbuilt,
    Service::Unbuilt,
    Service::Unbuilt,
    Service::Unbuilt,
    Service::Unbuilt,
    Service::GetLocation,
    Service::Attributes,
    Service::Unbuilt,
    Service::Unbuilt,
];

/// The service at an address, or `None` if there is none. Takes no memory.
pub fn service_at(at: u64) -> Option<Service>
    ensures { result ≡ service_of at }
{
    match placed_at(&BOOT, FIRST_SERVICE, at) {
        Some(service) => Some(service),
        None => placed_at(&PCI, PCI_IO_FUNCTIONS, at),
    }
}

/// The address of a service that this firmware has. Takes no memory.
#[tactic(auto, unfolding(crate::specs::Services::service_of))]
pub fn address_of(s: Service) -> u64
    requires { is_built s ≡ true }
    ensures { service_of result ≡ Some s }
{
    match s {
        Service::RaiseTpl => BOOT_SERVICES + 24,
        Service::RestoreTpl => BOOT_SERVICES + 32,
        Service::AllocatePool => BOOT_SERVICES + 64,
        Service::FreePool => BOOT_SERVICES + 72,
        Service::Install => BOOT_SERVICES + 128,
        Service::Uninstall => BOOT_SERVICES + 144,
        Service::HandleProtocol => BOOT_SERVICES + 152,
        Service::LocateHandle => BOOT_SERVICES + 176,
        Service::Stall => BOOT_SERVICES + 248,
        Service::ConnectController => BOOT_SERVICES + 264,
        Service::DisconnectController => BOOT_SERVICES + 272,
        Service::OpenProtocol => BOOT_SERVICES + 280,
        Service::CloseProtocol => BOOT_SERVICES + 288,
        Service::OpenProtocolInformation => BOOT_SERVICES + 296,
        Service::ProtocolsPerHandle => BOOT_SERVICES + 304,
        Service::LocateHandleBuffer => BOOT_SERVICES + 312,
        Service::LocateProtocol => BOOT_SERVICES + 320,
        Service::InstallMultiple => BOOT_SERVICES + 328,
        Service::UninstallMultiple => BOOT_SERVICES + 336,
        Service::CopyMem => BOOT_SERVICES + 352,
        Service::SetMem => BOOT_SERVICES + 360,
        Service::MemRead => PCI_IO_FUNCTIONS + 16,
        Service::MemWrite => PCI_IO_FUNCTIONS + 24,
        Service::PciRead => PCI_IO_FUNCTIONS + 48,
        Service::PciWrite => PCI_IO_FUNCTIONS + 56,
        Service::GetLocation => PCI_IO_FUNCTIONS + 112,
        Service::Attributes => PCI_IO_FUNCTIONS + 120,
        Service::Unbuilt => unreachable!(),
    }
}

/// The service at an address, if services have addresses 8 bytes apart, of which `from` is the
/// first.
fn placed_at(services: &[Service], from: u64, at: u64) -> Option<Service>
    ensures { result ≡ lookup (nat_eq at) (by_place from services.now) }
{
    if at < from || (at - from) % 8 != 0 {
        return None;
    }
    nth(services, ((at - from) / 8) as usize)
}

/// The service at a place of a list.
fn nth(services: &[Service], place: usize) -> Option<Service>
    ensures { result ≡ slice_get services.now place }
{
    services.get(place).copied()
}
