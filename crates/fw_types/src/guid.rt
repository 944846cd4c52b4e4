ghost use Rattle.std.specs.Prelude.{◌≡◌, List, ℕ, Some, length};
ghost use Rattle.uuid.specs.Parts.{swap_fields};
ghost use Rattle.uuid.specs.Text.{hyphenated_text, lower};
ghost use Rattle.fw_types.specs.Guid.{known_guid};

use std::fmt;
use std::marker::Model;
use uuid::Uuid;

/// The protocols that this firmware looks for or installs itself.
#[derive(Clone, Copy, Debug, PartialEq, Eq)]
pub enum Known {
    /// Where a device is (UEFI 2.8, 'EFI Device Path Protocol').
    DevicePath,
    /// What is known of an image (UEFI 2.8, 'EFI Loaded Image Protocol').
    LoadedImage,
    /// A driver's Supported, Start and Stop (UEFI 2.8, 'EFI Driver Binding Protocol').
    DriverBinding,
    /// The functions of a PCI device (UEFI 2.8, 'EFI PCI I/O Protocol').
    PciIo,
    /// A PCI root bridge (UEFI 2.8, 'PCI Root Bridge I/O Protocol').
    RootBridgeIo,
    /// The drivers that a bus driver has for its child (UEFI 2.8, 'EFI Bus Specific Driver Override
    /// Protocol').
    BusOverride,
}

/// The name of a protocol (UEFI 2.8, appendix A: EFI_GUID). A contract sees its sixteen bytes in
/// the order in which the text form writes them.
#[derive(Clone, Copy, Debug, PartialEq, Eq, PartialOrd, Ord)]
pub struct Guid {
    uuid: Uuid,
}

impl Model for Guid {
    ghost use Rattle.std.specs.Prelude.{◌≡◌, List, ℕ, length};

    ghost Value = { List ℕ };

    ghost view = { λ inside. inside.uuid };

    ghost invariant = { λ inside. length inside.uuid ≡ 16 };

    ghost inverse = { λ bytes. record { uuid = bytes } };
}

/// Prints the text form in lower case, as `5b1b31a1-9562-11d2-8e3f-00a0c969723b`.
impl fmt::Display for Guid {
    ghost output = { λ bytes. Some (hyphenated_text lower bytes) };

    fn fmt<W: fmt::Write>(&self, f: &mut fmt::Formatter<W>) -> fmt::Result {
        let uuid = self.uuid;
        write!(f, "{uuid}")
    }
}

impl Guid {
    /// The GUID of its form in guest memory: the first field is 4 bytes little-endian, the next two
    /// are 2 bytes little-endian each, and the last 8 bytes are in order.
    pub fn from_guest(b: &[u8; 16]) -> Guid
        ensures { result ≡ swap_fields b.now }
    {
        Guid {
            uuid: Uuid::from_bytes_le(*b),
        }
    }

    /// The GUID of a protocol that is known by name.
    pub fn known(k: Known) -> Guid
        ensures { result ≡ known_guid k }
    {
        let digits = match k {
            Known::DevicePath => 0x09576e91_6d3f_11d2_8e39_00a0c969723b,
            Known::LoadedImage => 0x5b1b31a1_9562_11d2_8e3f_00a0c969723b,
            Known::DriverBinding => 0x18a031ab_b443_4d1a_a5c0_0c09261e9f71,
            Known::PciIo => 0x4cf5b200_68b8_4ca5_9eec_b23e3f50029a,
            Known::RootBridgeIo => 0x2f707ebb_4a1a_11d4_9a38_0090273fc14d,
            Known::BusOverride => 0x3bc1b285_8a15_4a82_aabf_4d7d13fb3265,
        };
        Guid {
            uuid: Uuid::from_u128(digits),
        }
    }

    /// The form in guest memory, from which `from_guest` makes the same GUID.
    pub fn to_guest(&self) -> [u8; 16]
        ensures form { result ≡ swap_fields self.now }
        ensures sixteen { length self.now ≡ 16 }
    {
        self.uuid.to_bytes_le()
    }

    /// Reading a guest form and writing it again gives the same bytes.
    pub fn guest_form_again(b: &[u8; 16]) -> [u8; 16]
        ensures { result ≡ b.now }
    {
        Guid::from_guest(b).to_guest()
    }

    /// Writing the guest form and reading it again gives the same GUID.
    pub fn guid_again(self) -> Guid
        ensures { result ≡ self }
    {
        Guid::from_guest(&self.to_guest())
    }
}
