use crate::{render, render_boot};
use fw_types::{
    Cause, Command, DumpLine, Event, EventKind, Guid, Handle, ImageNote, Known, OutOfMemory,
    Outcome, PathArg, PeRefusal, Reply, RomEnd, RomNote, RomNoteKind, Rows, Status,
};
use std::alloc::Global;
use std::test::Fail;

/// A reply with a status, units and nothing else.
fn plain_reply(alloc: Global, status: Status, units: u64) -> Reply {
    Reply {
        status,
        units,
        events: Rows::of(Vec::new(alloc)),
        images: Rows::of(Vec::new(alloc)),
        rom: None,
        dump: Rows::of(Vec::new(alloc)),
    }
}

/// An event of a Start that ended with the cause of a trap.
fn trapped(serial: u64, cause: Cause) -> Event {
    Event {
        serial,
        parent: 0,
        kind: EventKind::Start,
        driver: 4,
        controller: 3,
        extra: 0,
        result: Outcome::Trapped(cause),
    }
}

const TRAPS: &str = "> budget 1 64\n1 0 start 4 3 0 trap:Illegal\n2 0 start 4 3 0 trap:Fetch\n\
    3 0 start 4 3 0 trap:Memory\n4 0 start 4 3 0 trap:Align\n5 0 start 4 3 0 trap:Divide\n\
    6 0 start 4 3 0 trap:Break\n7 0 start 4 3 0 trap:BadCall\n8 0 start 4 3 0 trap:Nest\n\
    9 0 start 4 3 0 trap:Budget\n10 0 start 4 3 0 trap:Thunks\n= ABORTED 640\n";

#[test]
fn trap_of_each_cause(rt: HostRuntime) -> Result<(), Fail> {
    let mut reply = plain_reply(rt.alloc(), Status::ABORTED, 640);
    reply.events = Rows::of(vec![in rt.alloc();
        trapped(1, Cause::Illegal),
        trapped(2, Cause::Fetch),
        trapped(3, Cause::Memory),
        trapped(4, Cause::Align),
        trapped(5, Cause::Divide),
        trapped(6, Cause::Break),
        trapped(7, Cause::BadCall),
        trapped(8, Cause::Nest),
        trapped(9, Cause::Budget),
        trapped(10, Cause::Thunks),
    ]?);
    let command = Command::Budget {
        command: 1,
        call: 64,
    };
    let text = render(rt.alloc(), &command, &reply)?;
    assert_eq!(rt; text.as_str(), TRAPS);
    Ok(())
}

/// An entry for an open record.
fn record(attr: u32, count: u32) -> DumpLine {
    DumpLine::Entry {
        agent: 4,
        controller: 3,
        attr,
        count,
    }
}

/// The lines of a handle with an interface that was opened in each way.
fn opened_in_each_way(alloc: Global) -> Result<Rows<DumpLine>, OutOfMemory> {
    let proto = DumpLine::Proto {
        guid: Guid::known(Known::PciIo),
        interface: 0x0dea_dbee,
        owner: 2,
    };
    let lines = vec![in alloc;
        DumpLine::Handle(3),
        proto,
        record(0x01, 1),
        record(0x02, 1),
        record(0x04, 1),
        record(0x08, 16),
        record(0x10, 1),
        record(0x20, 1),
        record(0x30, 1),
    ]?;
    Ok(Rows::of(lines))
}

const DUMP: &str = "> dump\nhandle 3\nproto 4cf5b200-68b8-4ca5-9eec-b23e3f50029a 0xdeadbee 2\n\
    open 4 3 0x1 1\nopen 4 3 0x2 1\nopen 4 3 0x4 1\nopen 4 3 0x8 16\nopen 4 3 0x10 1\n\
    open 4 3 0x20 1\nopen 4 3 0x30 1\n= SUCCESS 0\n";

#[test]
fn dump_of_records_of_each_attribute(rt: HostRuntime) -> Result<(), Fail> {
    let mut reply = plain_reply(rt.alloc(), Status::SUCCESS, 0);
    reply.dump = opened_in_each_way(rt.alloc())?;
    let text = render(rt.alloc(), &Command::Dump, &reply)?;
    assert_eq!(rt; text.as_str(), DUMP);
    Ok(())
}

/// The notes of the images of an option ROM.
fn image_notes(alloc: Global) -> Result<Rows<ImageNote>, OutOfMemory> {
    let mut notes = vec![in alloc;
        ImageNote::Skipped,
        ImageNote::Compressed,
        ImageNote::Refused(PeRefusal::NoMz),
        ImageNote::Failed(Status(0x8000_0000_0000_0063)),
    ]?;
    if let Some(handle) = Handle::new(12) {
        notes.push(ImageNote::Loaded(handle))?;
    }
    Ok(Rows::of(notes))
}

const IMAGES: &str = "> connect 3 all pci:31.7 4 5\nimage 1 skipped\nimage 2 compressed\n\
    image 3 refused NoMz\nimage 4 0x8000000000000063\nimage 5 handle 12\nrom PastEnd\n\
    = 0x0000000000001234 466\n";

#[test]
fn images_and_statuses_without_a_name(rt: HostRuntime) -> Result<(), Fail> {
    let mut reply = plain_reply(rt.alloc(), Status(0x1234), 466);
    reply.images = image_notes(rt.alloc())?;
    reply.rom = Some(RomEnd::PastEnd);
    let command = Command::Connect {
        controller: 3,
        recursive: true,
        path: PathArg::Pci {
            device: 31,
            function: 7,
        },
        context: Rows::of(vec![in rt.alloc(); 4u64, 5]?),
    };
    let text = render(rt.alloc(), &command, &reply)?;
    assert_eq!(rt; text.as_str(), IMAGES);
    Ok(())
}

#[test]
fn notes_of_option_roms(rt: HostRuntime) -> Result<(), Fail> {
    let notes = [
        RomNote {
            bus: 0,
            device: 3,
            function: 0,
            kind: RomNoteKind::Missing,
        },
        RomNote {
            bus: 255,
            device: 31,
            function: 7,
            kind: RomNoteKind::TooLong,
        },
    ];
    let text = render_boot(rt.alloc(), &notes)?;
    assert_eq!(rt; text.as_str(), "rom 0:3.0 missing\nrom 255:31.7 too-long\n");
    assert_eq!(rt; render_boot(rt.alloc(), &[])?.as_str(), "");
    Ok(())
}
