ghost use Rattle.std.specs.Prelude.{◌≡◌, ◌++◌, OnOk, string_bytes};
ghost use Rattle.device_path.specs.DevicePath.{path_in};
ghost use Rattle.device_path.specs.PathText.{known_text, text_of};
ghost use Rattle.device_path.specs.Steps.{GivesText};

use crate::known::{KnownNode, known_node};
use crate::path::first_size;
use crate::refusal::PathRefusal;
use std::alloc::{AllocError, Global};
use std::fmt::Write;

/// The text of a path (UEFI 2.8, 'EFI Device Path Display Format Overview'): `PciRoot(0xU)` for the
/// ACPI node of a PCI root bridge, PNP0A03, with its _UID, and `Pci(0xD,0xF)` for a PCI node with
/// its device and function numbers, in upper-case hexadecimal digits without leading zeros. The
/// nodes are joined by slashes.
///
/// # Errors
///
/// `Short` or `BadLength` if the first node that is bad or has no text is bad, and `Unknown` if it
/// has no text. `OutOfMemory` if there is no memory for the text.
pub fn text_of(alloc: Global, path: &[u8]) -> Result<String, PathRefusal>
    ensures { GivesText result (text_of (path_in path.now)) }
{
    let mut text = String::new(alloc);
    let mut separator = "";
    let mut rest = path;
    'nodes: while let Some(size) = first_size(rest)? {
        let Some(known) = known_node(&rest[..size]) else {
            return Err(PathRefusal::Unknown);
        };
        write_known(&mut text, separator, known)?;
        separator = "/";
        rest = &rest[size..];
    }
    Ok(text)
}

/// Writes the text of a node after a separator.
fn write_known(text: &mut String, separator: &str, node: KnownNode) -> Result<(), AllocError>
    ensures { OnOk result (string_bytes text.new
        ≡ string_bytes text.old ++ (separator.now ++ known_text node)) }
{
    write!(text, "{separator}{node}")
}
