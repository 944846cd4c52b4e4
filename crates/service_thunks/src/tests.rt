use crate::{Service, address_of, args, boot_table, service_at, system_table};
use guest_memory::{GuestMem, Memory, SegKind};
use std::test::Fail;

/// The bytes of the system table and of the vendor's empty name after it.
#[test]
fn system_table_bytes(rt: HostRuntime) {
    let rows: [[u8; 8]; 16] = [
        // signature; revision and header size; CRC
        [0x49, 0x42, 0x49, 0x20, 0x53, 0x59, 0x53, 0x54],
        [0x50, 0, 2, 0, 120, 0, 0, 0],
        [0; 8],
        // the vendor at 0x10078; revision 1
        [0x78, 0, 1, 0, 0, 0, 0, 0],
        [1, 0, 0, 0, 0, 0, 0, 0],
        // no console and no runtime services
        [0; 8],
        [0; 8],
        [0; 8],
        [0; 8],
        [0; 8],
        [0; 8],
        [0; 8],
        // the boot services at 0x11000; no configuration table
        [0, 0x10, 1, 0, 0, 0, 0, 0],
        [0; 8],
        [0; 8],
        // the vendor's name
        [0; 8],
    ];
    let table = system_table();
    for (bytes, row) in table.chunks(8).zip(rows.iter()) {
        assert_eq!(rt; bytes, row.as_slice());
    }
}

/// The header of the boot services table, and some of its 44 addresses.
#[test]
fn boot_table_bytes(rt: HostRuntime) {
    let table = boot_table();
    let header = [
        0x42, 0x4f, 0x4f, 0x54, 0x53, 0x45, 0x52, 0x56, 0x50, 0, 2, 0, 0x78, 1, 0, 0, 0, 0, 0, 0,
        0, 0, 0, 0,
    ];
    assert_eq!(rt; &table[..24], header.as_slice());
    assert_eq!(rt; &table[24..32], [0x18, 0, 2, 0, 0, 0, 0, 0].as_slice());
    assert_eq!(rt; &table[248..256], [0xf8, 0, 2, 0, 0, 0, 0, 0].as_slice());
    assert_eq!(rt; &table[264..272], [0x08, 1, 2, 0, 0, 0, 0, 0].as_slice());
    assert_eq!(rt; &table[368..], [0x70, 1, 2, 0, 0, 0, 0, 0].as_slice());
}

/// The built services by offset, boot services first.
const BUILT: [(u64, Service); 27] = [
    (0x2_0000 + 24, Service::RaiseTpl),
    (0x2_0000 + 32, Service::RestoreTpl),
    (0x2_0000 + 64, Service::AllocatePool),
    (0x2_0000 + 72, Service::FreePool),
    (0x2_0000 + 128, Service::Install),
    (0x2_0000 + 144, Service::Uninstall),
    (0x2_0000 + 152, Service::HandleProtocol),
    (0x2_0000 + 176, Service::LocateHandle),
    (0x2_0000 + 248, Service::Stall),
    (0x2_0000 + 264, Service::ConnectController),
    (0x2_0000 + 272, Service::DisconnectController),
    (0x2_0000 + 280, Service::OpenProtocol),
    (0x2_0000 + 288, Service::CloseProtocol),
    (0x2_0000 + 296, Service::OpenProtocolInformation),
    (0x2_0000 + 304, Service::ProtocolsPerHandle),
    (0x2_0000 + 312, Service::LocateHandleBuffer),
    (0x2_0000 + 320, Service::LocateProtocol),
    (0x2_0000 + 328, Service::InstallMultiple),
    (0x2_0000 + 336, Service::UninstallMultiple),
    (0x2_0000 + 352, Service::CopyMem),
    (0x2_0000 + 360, Service::SetMem),
    (0x2_1000 + 16, Service::MemRead),
    (0x2_1000 + 24, Service::MemWrite),
    (0x2_1000 + 48, Service::PciRead),
    (0x2_1000 + 56, Service::PciWrite),
    (0x2_1000 + 112, Service::GetLocation),
    (0x2_1000 + 120, Service::Attributes),
];

/// The address of each service, and what is at other addresses.
#[test]
fn services_and_addresses(rt: HostRuntime) {
    for (at, service) in BUILT {
        assert_eq!(rt; service_at(at), Some(service));
    }
    assert_eq!(rt; address_of(Service::RaiseTpl), 0x2_0018);
    assert_eq!(rt; address_of(Service::SetMem), 0x2_0168);
    assert_eq!(rt; address_of(Service::Attributes), 0x2_1078);
    let others: [(u64, Option<Service>); 12] = [
        (0x2_0010, None),
        // SetTimer, and the last boot service
        (0x2_0058, Some(Service::Unbuilt)),
        (0x2_0170, Some(Service::Unbuilt)),
        (0x2_0178, None),
        (0x2_001c, None),
        (0x2_0ff8, None),
        (0x2_1000, Some(Service::Unbuilt)),
        (0x2_1088, Some(Service::Unbuilt)),
        (0x2_1090, None),
        (0x2_2000, None),
        (0, None),
        (0xffff_ffff_ffff_ffff, None),
    ];
    for (at, service) in others {
        assert_eq!(rt; service_at(at), service);
    }
}

/// Slots of a stack of 128 bytes, which hold the numbers from 1 to 16.
#[test]
fn arguments(rt: HostRuntime) -> Result<(), Fail> {
    let mut memory = Memory::new(rt.alloc());
    memory.map(0x1000, vec![in rt.alloc(); 0u8; 128]?, SegKind::Stack)?;
    for number in 0..16 {
        memory.write(0x1000 + 8 * number, 8, number + 1)?;
    }
    let all = [1, 2, 3, 4, 5, 6, 7, 8, 9, 10, 11, 12, 13, 14, 15, 16];
    assert_eq!(rt; args(&memory, 0x1000, 16), Some(all));
    let three = [1, 2, 3, 0, 0, 0, 0, 0, 0, 0, 0, 0, 0, 0, 0, 0];
    assert_eq!(rt; args(&memory, 0x1000, 3), Some(three));
    // no slot is read, and then one after the stack
    assert_eq!(rt; args(&memory, 0, 0), Some([0; 16]));
    assert_eq!(rt; args(&memory, 0x1008, 16), None);
    assert_eq!(rt; args(&memory, 0xffff_ffff_ffff_fff8, 2), None);
    Ok(())
}
