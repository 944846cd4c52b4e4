use crate::boxed::Boxed;
use crate::bus_child::BusChild;
use crate::image::LoadedImage;
use crate::thunk::Thunk;
use fw_types::{Guid, Handle, Rows};
use guest_memory::Segment;
use handle_db::Removed;

/// An interface that was uninstalled, with what was removed with it besides open records.
#[derive(Drop)]
pub struct Uninstalled {
    /// Its handle.
    pub handle: Handle,
    /// Its protocol.
    pub guid: Guid,
    /// What it was.
    pub removed: Removed,
    /// The child of the bus that was removed with it, and its place among the others.
    pub child: Option<(usize, BusChild)>,
}

/// An image that was dropped, with what belonged to it besides open records.
#[derive(Drop)]
pub struct DroppedImage {
    /// The image.
    pub image: LoadedImage,
    /// Its place among the images that are loaded.
    pub place: usize,
    /// Its bytes.
    pub segment: Segment,
    /// Its loaded image block.
    pub block: Segment,
    /// Its loaded image interface.
    pub removed: Removed,
    /// The thunks that entered it.
    pub thunks: Rows<Thunk>,
}

/// A change of the soft part without the open records that was made, with what is needed to take it back. The
/// two that need most are boxed, since a log uses as much memory for each change as for the largest.
#[derive(Drop)]
pub enum Change {
    /// The task priority level was set.
    SetTpl {
        /// The level before.
        before: u8,
    },
    /// A number was written.
    Write {
        /// The address of its first byte.
        at: u64,
        /// How many bytes it has.
        n: u8,
        /// The bytes that were there before, and zeros after them.
        before: [u8; 8],
    },
    /// Bytes were put in place of others.
    Put {
        /// The address of the first.
        at: u64,
        /// The bytes that were there before.
        before: Rows<u8>,
    },
    /// A block was made.
    Allot {
        /// Its address.
        at: u64,
    },
    /// A block was freed.
    Free {
        /// What was mapped there.
        segment: Segment,
    },
    /// An interface was installed.
    Install {
        /// Its handle.
        handle: Handle,
        /// Its protocol.
        guid: Guid,
        /// Whether the handle was made for it.
        made: bool,
    },
    /// An interface was uninstalled.
    Uninstall {
        /// What was removed.
        went: Boxed<Uninstalled>,
    },
    /// An image was dropped.
    DropImage {
        /// What was removed.
        dropped: Boxed<DroppedImage>,
    },
    /// An image was added.
    AddImage {
        /// The image.
        image: LoadedImage,
    },
    /// A thunk was made.
    MakeThunk,
    /// A function became that of a handle.
    NoteChild {
        /// How many children of the bus there were before.
        count: usize,
    },
    /// The bus list of a function was set.
    SetBusList {
        /// The number of the function.
        function: u32,
        /// The list before.
        before: Option<Rows<Handle>>,
    },
}
