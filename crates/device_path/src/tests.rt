use crate::{Node, PathRefusal, append_pci, is_end, node_at, text_of};

/// The path of the root bridge with _UID 0.
const ROOT: [u8; 16] = [
    0x02, 0x01, 0x0C, 0x00, 0xD0, 0x41, 0x03, 0x0A, 0x00, 0x00, 0x00, 0x00, 0x7F, 0xFF, 0x04, 0x00,
];

/// The path of its function 3.0.
const FUNCTION: [u8; 22] = [
    0x02, 0x01, 0x0C, 0x00, 0xD0, 0x41, 0x03, 0x0A, 0x00, 0x00, 0x00, 0x00, 0x01, 0x01, 0x06, 0x00,
    0x00, 0x03, 0x7F, 0xFF, 0x04, 0x00,
];

/// Headers of nodes, and bytes with which no node begins.
#[test]
fn headers(rt: HostRuntime) {
    let pci = Node {
        kind: 1,
        sub: 1,
        length: 6,
    };
    let cases: [(&[u8], Result<Node, PathRefusal>); 8] = [
        (&[], Err(PathRefusal::Short)),
        (&[0x7F, 0xFF, 0x04], Err(PathRefusal::Short)),
        (&[0x7F, 0xFF, 0x03, 0x00], Err(PathRefusal::BadLength)),
        (&[0x01, 0x01, 0x06, 0x00, 0x00], Err(PathRefusal::Short)),
        (&[0x01, 0x01, 0x06, 0x00, 0x00, 0x03], Ok(pci)),
        (&[0x01, 0x01, 0x06, 0x00, 0x00, 0x03, 0x7F], Ok(pci)),
        (
            &[0x01, 0x01, 0x06, 0x01, 0x00, 0x03],
            Err(PathRefusal::Short),
        ),
        (
            &[0x7F, 0x01, 0x04, 0x00],
            Ok(Node {
                kind: 0x7F,
                sub: 1,
                length: 4,
            }),
        ),
    ];
    for (bytes, node) in cases {
        assert_eq!(rt; node_at(bytes), node);
    }
    assert!(rt; is_end(&[0x7F, 0xFF]));
    assert!(rt; !is_end(&[0x7F]));
    assert!(rt; !is_end(&[0x7F, 0x01, 0x04, 0x00]));
}

/// The bytes of a path, or its refusal.
fn path_bytes(path: &Result<Vec<u8>, PathRefusal>) -> Result<&[u8], PathRefusal> {
    match path {
        Ok(bytes) => Ok(bytes.as_slice()),
        Err(refusal) => Err(*refusal),
    }
}

/// A PCI node is put after the other nodes; what follows the End node is dropped.
#[test]
fn one_more_node(rt: HostRuntime) {
    let cases: [(&[u8], Result<&[u8], PathRefusal>); 8] = [
        (&ROOT, Ok(&FUNCTION)),
        (
            &[0x7F, 0xFF, 0x04, 0x00],
            Ok(&[0x01, 0x01, 0x06, 0x00, 0x00, 0x03, 0x7F, 0xFF, 0x04, 0x00]),
        ),
        (
            &[0x7F, 0xFF, 0x05, 0x00, 0xEE, 0x01, 0x01],
            Ok(&[0x01, 0x01, 0x06, 0x00, 0x00, 0x03, 0x7F, 0xFF, 0x04, 0x00]),
        ),
        // The end of one instance of a path is not the end of the path.
        (
            &[0x7F, 0x01, 0x04, 0x00, 0x7F, 0xFF, 0x04, 0x00],
            Ok(&[
                0x7F, 0x01, 0x04, 0x00, 0x01, 0x01, 0x06, 0x00, 0x00, 0x03, 0x7F, 0xFF, 0x04, 0x00,
            ]),
        ),
        (&ROOT[..12], Err(PathRefusal::Short)),
        (&ROOT[..14], Err(PathRefusal::Short)),
        (&[0x01, 0x01, 0x03, 0x00], Err(PathRefusal::BadLength)),
        (&[0x7F, 0xFF, 0x00, 0x00], Err(PathRefusal::BadLength)),
    ];
    for (path, child) in cases {
        let made = append_pci(rt.alloc(), path, 3, 0);
        assert_eq!(rt; path_bytes(&made), child);
    }
}

/// The text of a path, or its refusal.
fn text_bytes(text: &Result<String, PathRefusal>) -> Result<&[u8], PathRefusal> {
    match text {
        Ok(text) => Ok(text.as_bytes()),
        Err(refusal) => Err(*refusal),
    }
}

/// Texts of paths.
#[test]
fn texts(rt: HostRuntime) {
    let cases: [(&[u8], Result<&str, PathRefusal>); 9] = [
        (&FUNCTION, Ok("PciRoot(0x0)/Pci(0x3,0x0)")),
        (&ROOT, Ok("PciRoot(0x0)")),
        (
            &[
                0x02, 0x01, 0x0C, 0x00, 0xD0, 0x41, 0x03, 0x0A, 0x2B, 0x1A, 0x00, 0xF0, 0x01, 0x01,
                0x06, 0x00, 0x00, 0x01, 0x01, 0x01, 0x06, 0x00, 0x07, 0x1F, 0x7F, 0xFF, 0x05, 0x00,
                0xEE, 0x03,
            ],
            Ok("PciRoot(0xF0001A2B)/Pci(0x1,0x0)/Pci(0x1F,0x7)"),
        ),
        (&[0x7F, 0xFF, 0x04, 0x00], Ok("")),
        // An ACPI node of another device, and a vendor's hardware node.
        (
            &[
                0x02, 0x01, 0x0C, 0x00, 0xD0, 0x41, 0x08, 0x0A, 0x00, 0x00, 0x00, 0x00, 0x7F, 0xFF,
                0x04, 0x00,
            ],
            Err(PathRefusal::Unknown),
        ),
        (&[0x01, 0x04, 0x04, 0x00, 0x01], Err(PathRefusal::Unknown)),
        // The first node that is bad or has no text counts.
        (
            &[0x01, 0x01, 0x03, 0x00, 0x01, 0x04, 0x04, 0x00],
            Err(PathRefusal::BadLength),
        ),
        (&FUNCTION[..18], Err(PathRefusal::Short)),
        (&FUNCTION[..17], Err(PathRefusal::Short)),
    ];
    for (path, wanted) in cases {
        let text = text_of(rt.alloc(), path);
        assert_eq!(rt; text_bytes(&text), wanted.map(str::as_bytes));
    }
}
