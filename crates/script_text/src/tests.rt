use crate::script::ScriptKind::{
    BoardLate, Duplicate, Extra, Missing, NotAscii, Number, TooLong, UnknownWord,
};
use crate::{Script, ScriptFault, ScriptKind, parse};
use fw_types::{Command, OutOfMemory, PathArg, Rows, Text};
use pci_model::BoardLine;
use std::alloc::{AllocError, Global};
use std::fmt::Write;
use std::test::Fail;

/// Why a text is no script, if it is none.
fn fault_of(alloc: Global, text: &str) -> Option<ScriptFault> {
    match parse(alloc, text.as_bytes()) {
        Ok(_) => None,
        Err(fault) => Some(fault),
    }
}

/// The refusal of a line.
fn refused_at(line: u32, kind: ScriptKind) -> Option<ScriptFault> {
    Some(ScriptFault::Refused { line, kind })
}

/// The refusal of the first line.
fn refused(kind: ScriptKind) -> Option<ScriptFault> {
    refused_at(1, kind)
}

#[test]
fn first_words_and_their_counts(rt: HostRuntime) {
    for (text, kind) in [
        ("dump\r", NotAscii),
        ("dump\r\r\n", NotAscii),
        ("dump # \u{e9}", NotAscii),
        ("fly \x7f", NotAscii),
        ("unload", Missing),
        ("unload 3 4", Extra),
        ("Load a.efi", UnknownWord),
        ("load", Missing),
        ("load a.efi b.efi", Extra),
        ("connect", Missing),
        ("connect 3", Missing),
        ("connect 3 one", Missing),
        ("disconnect one 2", Missing),
        ("disconnect 3 0 0 0", Extra),
        ("platform # 3", Missing),
        ("budget 1", Missing),
        ("budget 1 64 64", Extra),
        ("dump 3", Extra),
    ] {
        assert_eq!(rt; fault_of(rt.alloc(), text), refused(kind), "at {text}");
    }
}

#[test]
fn words_of_arguments(rt: HostRuntime) {
    for (text, kind) in [
        ("connect 3 some", UnknownWord),
        ("connect 3 some none", UnknownWord),
        ("connect 3 one pci:01.0", UnknownWord),
        ("connect 3 one pci:0x1.0", UnknownWord),
        ("connect 3 one pci:1", UnknownWord),
        ("connect 3 one PCI:0.0", UnknownWord),
        ("connect 3 one pci:32.0", Number),
        ("connect 3 one pci:0.8", Number),
        ("connect 3 one none 4 x", Number),
        ("disconnect 3 0 18446744073709551616", Number),
        ("disconnect 0x 0 0", Number),
        ("disconnect 0X1 0 0", Number),
        ("disconnect 0x00000000000000001 0 0", Number),
        ("unload x", Number),
        ("platform +1", Number),
        ("budget 0 64", Number),
        ("budget 1 63", Number),
        ("budget 1 33554433", Number),
        ("budget 33554433 64", Number),
    ] {
        assert_eq!(rt; fault_of(rt.alloc(), text), refused(kind), "at {text}");
    }
}

#[test]
fn first_refused_line_counts(rt: HostRuntime) {
    let fault = fault_of(rt.alloc(), "# a comment\ndump\r\n\nfly\nload\n");
    assert_eq!(rt; fault, refused_at(4, UnknownWord));
}

/// A text, and a word as often as is asked for.
fn repeated(alloc: Global, text: &str, word: &str, count: u32) -> Result<String, AllocError> {
    let mut whole = String::from_str(alloc, text)?;
    for _ in 0..count {
        whole.push_str(word)?;
    }
    Ok(whole)
}

#[test]
fn longest_lines_names_and_lists(rt: HostRuntime) -> Result<(), Fail> {
    for (line, text, word, most, kind) in [
        (1, "load ", "x", 255, TooLong),
        (
            3,
            "root 0 0\nfunc 0 0 0 1 1 1\nrom 0 0 0 ",
            "x",
            255,
            TooLong,
        ),
        (1, "dump #", "x", 1018, TooLong),
        (1, "connect 3 one none", " 4", 64, Extra),
        (1, "platform 3", " 4", 64, Extra),
    ] {
        let longest = repeated(rt.alloc(), text, word, most)?;
        assert_eq!(rt; fault_of(rt.alloc(), longest.as_str()), None, "at {text}");
        let longer = repeated(rt.alloc(), text, word, most.wrapping_add(1))?;
        assert_eq!(rt;
            fault_of(rt.alloc(), longer.as_str()),
            refused_at(line, kind),
            "at {text}"
        );
    }
    Ok(())
}

#[test]
fn line_100_001_is_too_long(rt: HostRuntime) -> Result<(), Fail> {
    let mut script = repeated(rt.alloc(), "", "\n", 99_999)?;
    script.push_str("dump\n")?;
    assert_eq!(rt; fault_of(rt.alloc(), script.as_str()), None);
    script.push_str("# more")?;
    assert_eq!(rt;
        fault_of(rt.alloc(), script.as_str()),
        refused_at(100_001, TooLong)
    );
    Ok(())
}

/// A board with a bridge, and with a function of a bridge's class that declares no bus.
const BOARD: &str = "root 7 0\nfunc 0 4 0 0x8086 0x100e 0x060400\nbridge 0 1 0 0x1b36 1 1\n\n\
    # the devices\nfunc 0 3 0 0x8086 0x100e 0x020000\nfunc 1 0 1 0x8086 0x100e 0x020000\n\
    bar 0 4 0 2 0xfeb00000 16\nrom 0 3 0 net.rom\n";

/// The fault of that board with one line more.
fn fault_on_board(alloc: Global, line: &str) -> Result<Option<ScriptFault>, AllocError> {
    let script = format!(in alloc; "{BOARD}{line}")?;
    Ok(fault_of(alloc, script.as_str()))
}

#[test]
fn board_lines_that_are_malformed(rt: HostRuntime) -> Result<(), Fail> {
    for (line, kind) in [
        ("Root 8 2", UnknownWord),
        ("root x", Missing),
        ("func 0 2 0 1 1", Missing),
        ("bridge 0 2 0 1 1", Missing),
        ("bar 0 3 0 0 0", Missing),
        ("rom 0 3 0", Missing),
        ("root 8 x 0", Extra),
        ("rom 0 4 0 a b", Extra),
        ("root 0x100000000 2", Number),
        ("root 8 256", Number),
        ("func 0 2 0 0x10000 1 1", Number),
        ("func 0 2 0 1 0x10000 1", Number),
        ("func 0 2 0 1 1 0x1000000", Number),
        ("func 0 32 0 1 1 1", Number),
        ("func 0 2 8 1 1 1", Number),
        ("func 0 2 0 0xffff 1 1", Number),
        ("bridge 0 2 0 1 1 0", Number),
        ("bar 0 3 0 0 0x100000000 16", Number),
        ("bar 0 3 0 0 0 24", Number),
        ("bar 0 3 0 0 0 0x20000", Number),
        ("bar 0 3 0 0 8 16", Number),
        ("bar 0 3 0 6 0 16", Number),
        ("bar 0 1 0 2 0 16", Number),
    ] {
        let fault = fault_on_board(rt.alloc(), line)?;
        assert_eq!(rt; fault, refused_at(10, kind), "at {line}");
    }
    Ok(())
}

#[test]
fn board_lines_that_do_not_fit_the_board(rt: HostRuntime) -> Result<(), Fail> {
    for (line, kind) in [
        ("func 4 0 0 1 1 1", Number),
        ("bridge 2 0 0 1 1 3", Number),
        ("bar 0 5 0 0 0 16", Number),
        ("rom 0 5 0 a.rom", Number),
        ("root 8 0", Duplicate),
        ("root 8 1", Duplicate),
        ("bridge 0 2 0 1 1 1", Duplicate),
        ("func 0 1 0 1 1 1", Duplicate),
        ("bridge 0 3 0 1 1 2", Duplicate),
        ("bar 0 4 0 2 0 16", Duplicate),
        ("rom 0 3 0 other.rom", Duplicate),
    ] {
        let fault = fault_on_board(rt.alloc(), line)?;
        assert_eq!(rt; fault, refused_at(10, kind), "at {line}");
    }
    assert_eq!(rt;
        fault_on_board(rt.alloc(), "root 7 200 # the same UID")?,
        None
    );
    Ok(())
}

#[test]
fn board_lines_after_a_command(rt: HostRuntime) {
    for (text, fault) in [
        (
            "root 0 0\ndump\nfunc 0 3 0 0x8086 0x100e 0x020000",
            refused_at(3, BoardLate),
        ),
        (
            "dump\nfunc 0 3 0 0x8086 0x100e 0x020000",
            refused_at(2, Number),
        ),
        ("root 0 0\ndump\nroot 0 0", refused_at(3, BoardLate)),
        ("dump\nroot 0 0 0", refused_at(2, Extra)),
        ("root 0 0\n# dump\n\nroot 0 1\ndump", None),
    ] {
        assert_eq!(rt; fault_of(rt.alloc(), text), fault, "at {text}");
    }
}

#[test]
fn root_17_is_extra(rt: HostRuntime) -> Result<(), Fail> {
    let mut script = String::new(rt.alloc());
    for bus in 0..16 {
        writeln!(&mut script, "root 0 {bus}")?;
    }
    assert_eq!(rt; fault_of(rt.alloc(), script.as_str()), None);
    script.push_str("root x 0")?;
    assert_eq!(rt;
        fault_of(rt.alloc(), script.as_str()),
        refused_at(17, Extra)
    );
    Ok(())
}

#[test]
fn function_257_is_extra(rt: HostRuntime) -> Result<(), Fail> {
    let mut script = String::from_str(rt.alloc(), "root 0 0\nbridge 0 0 0 1 1 1\n")?;
    for place in 1..256u32 {
        let device = place / 8;
        let function = place % 8;
        writeln!(&mut script, "func 0 {device} {function} 1 1 1")?;
    }
    assert_eq!(rt; fault_of(rt.alloc(), script.as_str()), None);
    script.push_str("func 2 0 0 1 1 1")?;
    assert_eq!(rt;
        fault_of(rt.alloc(), script.as_str()),
        refused_at(258, Extra)
    );
    Ok(())
}

const EACH_LINE: &str = "\n# words\r\nroot 0x7 0\n func 0 3 1 0x8086 0x100e 0x020000\n\
    bridge\t0 1 0 0x1b36 1 255\nbar 0 3 1 5 0xFEB00000 0x20\nrom 0 3 1 net.rom # its ROM\n\
    \tload  a.efi # more\r\nconnect 3 all pci:31.7 4 0x5\n\
    connect 007 one end\ndisconnect 3 0 0xFFFFFFFFFFFFFFFF\nunload 0x5\nplatform 3 5 4\n\
    budget 1 0x2000000\ndump";

/// The board of that script.
fn each_board_line(alloc: Global) -> Result<Rows<BoardLine>, OutOfMemory> {
    let lines = vec![in alloc;
        BoardLine::Root { uid: 7, bus: 0 },
        BoardLine::Func {
            bus: 0,
            device: 3,
            function: 1,
            vendor: 0x8086,
            id: 0x100E,
            class: 0x02_0000,
        },
        BoardLine::Bridge {
            bus: 0,
            device: 1,
            function: 0,
            vendor: 0x1B36,
            id: 1,
            secondary: 255,
        },
        BoardLine::Bar {
            bus: 0,
            device: 3,
            function: 1,
            index: 5,
            address: 0xFEB0_0000,
            size: 32,
        },
        BoardLine::Rom {
            bus: 0,
            device: 3,
            function: 1,
            name: Text::of(String::from_str(alloc, "net.rom")?),
        },
    ]?;
    Ok(Rows::of(lines))
}

/// The commands of that script.
fn each_command(alloc: Global) -> Result<Rows<Command>, OutOfMemory> {
    let commands = vec![in alloc;
        Command::Load {
            name: Text::of(String::from_str(alloc, "a.efi")?),
        },
        Command::Connect {
            controller: 3,
            recursive: true,
            path: PathArg::Pci {
                device: 31,
                function: 7,
            },
            context: Rows::of(vec![in alloc; 4u64, 5]?),
        },
        Command::Connect {
            controller: 7,
            recursive: false,
            path: PathArg::End,
            context: Rows::of(Vec::new(alloc)),
        },
        Command::Disconnect {
            controller: 3,
            driver: 0,
            child: u64::MAX,
        },
        Command::Unload { image: 5 },
        Command::Platform {
            controller: 3,
            drivers: Rows::of(vec![in alloc; 5u64, 4]?),
        },
        Command::Budget {
            command: 1,
            call: 33_554_432,
        },
        Command::Dump,
    ]?;
    Ok(Rows::of(commands))
}

#[test]
fn what_lines_give_in_their_order(rt: HostRuntime) -> Result<(), Fail> {
    let script = parse(rt.alloc(), EACH_LINE.as_bytes())?;
    let wanted = Script {
        board: each_board_line(rt.alloc())?,
        commands: each_command(rt.alloc())?,
    };
    assert_eq!(rt; script, wanted);
    Ok(())
}
