use crate::{
    Attr, Command, Guid, Handle, Known, OutOfMemory, Reply, Rows, Status, Text, put_bytes, put_u16,
    put_u32, put_u64,
};
use std::alloc::Global;
use std::test::Fail;

#[test]
fn statuses_have_their_names(rt: HostRuntime) {
    let cases: [(Status, u64, Option<&str>); 15] = [
        (Status::SUCCESS, 0, Some("SUCCESS")),
        (Status::LOAD_ERROR, 1, Some("LOAD_ERROR")),
        (Status::INVALID_PARAMETER, 2, Some("INVALID_PARAMETER")),
        (Status::UNSUPPORTED, 3, Some("UNSUPPORTED")),
        (Status::BAD_BUFFER_SIZE, 4, Some("BAD_BUFFER_SIZE")),
        (Status::BUFFER_TOO_SMALL, 5, Some("BUFFER_TOO_SMALL")),
        (Status::NOT_READY, 6, Some("NOT_READY")),
        (Status::DEVICE_ERROR, 7, Some("DEVICE_ERROR")),
        (Status::OUT_OF_RESOURCES, 9, Some("OUT_OF_RESOURCES")),
        (Status::NOT_FOUND, 14, Some("NOT_FOUND")),
        (Status::ACCESS_DENIED, 15, Some("ACCESS_DENIED")),
        (Status::ALREADY_STARTED, 20, Some("ALREADY_STARTED")),
        (Status::ABORTED, 21, Some("ABORTED")),
        (Status(0x8000_0000_0000_0008), 8, None),
        (Status(0x8000_0000_0000_0000), 0, None),
    ];
    for (status, code, name) in cases {
        assert_eq!(rt; status.name(), name, "at {code}");
        assert_eq!(rt; status.0 % (1 << 63), code);
        assert_eq!(rt; status.is_error(), status.0 != 0);
    }
    // Warnings have no name, and are no errors.
    for value in [1, 9, 14, 0x7fff_ffff_ffff_ffff] {
        assert_eq!(rt; Status(value).name(), None);
        assert!(rt; !Status(value).is_error());
    }
}

#[test]
fn seven_attributes_are_legal(rt: HostRuntime) {
    let legal = [0x01, 0x02, 0x04, 0x08, 0x10, 0x20, 0x30];
    for bits in 0..0x100 {
        let attr = Attr::legal(bits);
        assert_eq!(rt; attr.is_some(), legal.contains(&bits), "at {bits}");
        if let Some(attr) = attr {
            assert_eq!(rt; attr.bits(), bits);
            let manages = bits == Attr::BY_DRIVER || bits >= Attr::EXCLUSIVE;
            assert_eq!(rt; attr.has_bit_of(Attr::BY_DRIVER + Attr::EXCLUSIVE), manages);
            assert_eq!(rt; attr.has_bit_of(Attr::BY_HANDLE_PROTOCOL), bits == 0x01);
        }
    }
    // Bits above the byte are looked at too.
    assert_eq!(rt; Attr::legal(0x8000_0001), None);
    assert_eq!(rt; Attr::legal(0x0100_0010), None);
}

#[test]
fn a_guid_turns_its_first_three_fields_in_guest_memory(rt: HostRuntime) -> Result<(), Fail> {
    // EFI_PCI_IO_PROTOCOL_GUID.
    let guest = [
        0x00, 0xb2, 0xf5, 0x4c, 0xb8, 0x68, 0xa5, 0x4c, 0x9e, 0xec, 0xb2, 0x3e, 0x3f, 0x50, 0x02,
        0x9a,
    ];
    let guid = Guid::from_guest(&guest);
    let text = format!(in rt.alloc(); "{guid}")?;
    assert_eq!(rt; text.as_str(), "4cf5b200-68b8-4ca5-9eec-b23e3f50029a");
    assert_eq!(rt; guid.to_guest(), guest);
    assert!(rt; guid.guid_again() == guid);
    assert_eq!(rt; Guid::guest_form_again(&guest), guest);
    Ok(())
}

#[test]
fn known_protocols_have_their_guids(rt: HostRuntime) -> Result<(), Fail> {
    let cases: [(Known, &str); 6] = [
        (Known::DevicePath, "09576e91-6d3f-11d2-8e39-00a0c969723b"),
        (Known::LoadedImage, "5b1b31a1-9562-11d2-8e3f-00a0c969723b"),
        (Known::DriverBinding, "18a031ab-b443-4d1a-a5c0-0c09261e9f71"),
        (Known::PciIo, "4cf5b200-68b8-4ca5-9eec-b23e3f50029a"),
        (Known::RootBridgeIo, "2f707ebb-4a1a-11d4-9a38-0090273fc14d"),
        (Known::BusOverride, "3bc1b285-8a15-4a82-aabf-4d7d13fb3265"),
    ];
    for (known, wanted) in cases {
        let guid = Guid::known(known);
        let text = format!(in rt.alloc(); "{guid}")?;
        assert_eq!(rt; text.as_str(), wanted);
    }
    let guest = [
        0x00, 0xb2, 0xf5, 0x4c, 0xb8, 0x68, 0xa5, 0x4c, 0x9e, 0xec, 0xb2, 0x3e, 0x3f, 0x50, 0x02,
        0x9a,
    ];
    assert_eq!(rt; Guid::known(Known::PciIo).to_guest(), guest);
    Ok(())
}

#[test]
fn rows_grow_at_the_end_and_close_up(rt: HostRuntime) -> Result<(), Fail> {
    let mut rows = Rows::of(vec![in rt.alloc(); 3u64, 4]?);
    rows.push(5)?;
    assert_eq!(rt; rows.as_slice(), [3u64, 4, 5].as_slice());
    assert_eq!(rt; rows.as_slice().len(), 3);
    assert_eq!(rt; rows.remove(1), 4);
    assert_eq!(rt; rows.as_slice(), [3u64, 5].as_slice());
    Ok(())
}

#[test]
fn handles_count_from_1(rt: HostRuntime) {
    assert!(rt; Handle::new(0).is_none());
    let numbers = [
        Handle::firmware(),
        Handle::bus_driver(),
        Handle::bus_driver().next(),
    ];
    for (handle, number) in numbers.into_iter().zip(1u64..) {
        assert_eq!(rt; handle.get(), number);
        assert!(rt; Handle::new(number) == Some(handle));
    }
}

fn load(alloc: Global, name: &str) -> Result<Command, OutOfMemory> {
    let name = Text::of(String::from_str(alloc, name)?);
    Ok(Command::Load { name })
}

fn empty_reply(alloc: Global, units: u64) -> Reply {
    Reply {
        status: Status::SUCCESS,
        units,
        events: Rows::of(Vec::new(alloc)),
        images: Rows::of(Vec::new(alloc)),
        rom: None,
        dump: Rows::of(Vec::new(alloc)),
    }
}

#[test]
fn lists_and_texts_are_compared_by_what_they_hold(rt: HostRuntime) -> Result<(), Fail> {
    let alloc = rt.alloc();
    assert!(rt; load(alloc, "a.efi")? == load(alloc, "a.efi")?);
    assert!(rt; load(alloc, "a.efi")? != load(alloc, "b.efi")?);
    assert!(rt; empty_reply(alloc, 5) == empty_reply(alloc, 5));
    assert!(rt; empty_reply(alloc, 5) != empty_reply(alloc, 6));
    let rows = Rows::of(vec![in alloc; 3u64, 4]?);
    assert_eq!(rt; rows.as_slice(), [3u64, 4].as_slice());
    assert_eq!(rt; rows.into_vec().as_slice(), [3u64, 4].as_slice());
    let text = Text::of(String::from_str(alloc, "a.efi")?);
    assert_eq!(rt; text.as_str(), "a.efi");
    assert_eq!(rt; text.into_string().as_str(), "a.efi");
    Ok(())
}

#[test]
fn fields_are_put_lowest_byte_first(rt: HostRuntime) {
    let mut bytes = [0xFF; 18];
    put_bytes(&mut bytes, 0, b"PE");
    put_u16(&mut bytes, 3, 0x0EBC);
    put_u32(&mut bytes, 5, 0x0102_0304);
    put_u64(&mut bytes, 9, 0x5453_5953_2049_4249);
    let wanted = [
        b'P', b'E', 0xFF, 0xBC, 0x0E, 4, 3, 2, 1, b'I', b'B', b'I', b' ', b'S', b'Y', b'S', b'T',
        0xFF,
    ];
    assert_eq!(rt; bytes, wanted);
}
