//! The definitions of the boot services (UEFI 2.8, chapter 7 'Services - Boot Services') and of the
//! functions of PCI I/O (14.4: EFI PCI I/O Protocol), one row for each.
//!
//! `specs/BootServices.antt` is the table: how many arguments a service has, its price, and what it
//! does. `specs/Rows.antt`, `specs/Protocols.antt`, `specs/Many.antt` and `specs/Connecting.antt` say
//! what each boot service does, and `specs/PciIo.antt` what each function of PCI I/O does, in the small
//! language of `specs/Words.antt`: a row looks at the arguments and at the state, and then ends with a
//! change or stops. `specs/Changes.antt` applies the change, and `specs/Contents.antt` has the bytes
//! that a service returns in a block. `laws` says what services leave. There is code only for the plain
//! types and numbers that definitions and code share.
#![tactic(auto)]

mod call;
pub mod laws;
mod numbers;
mod plan;

pub use call::{Caller, HandleInterface, Opening, Reentry, Removal, Served};
pub use numbers::{
    ALL_ATTRIBUTES, ALL_HANDLES, ATTRIBUTES_DISABLE, ATTRIBUTES_ENABLE, ATTRIBUTES_GET,
    ATTRIBUTES_SET, ATTRIBUTES_SUPPORTED, BY_PROTOCOL, COMMAND, CONTEXT_SLOTS, END_NODE,
    LAST_BUILT_WIDTH, LAST_WIDTH, MOST_PAIRS, NATIVE_INTERFACE, PRICED_ELEMENTS, TPL_HIGH_LEVEL,
};
pub use plan::{Change, Contents, Stop, Transfer};
