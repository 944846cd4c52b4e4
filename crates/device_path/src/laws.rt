//! Laws of device paths. Each is the contract of a function with no code.
ghost use Rattle.std.specs.Prelude.{◌≡◌, ◌++◌, ◌<◌, ◌^◌, List, ℕ, [], ◌∷◌, None, Ok};
ghost use Rattle.device_path.specs.DevicePath.{Path, path_in, pci_node, root_node, root_path, with_pci};
ghost use Rattle.device_path.specs.PathNodes.{IsPath, with_node};
ghost use Rattle.device_path.specs.PathText.{known_text, text_of};
ghost use Rattle.device_path.specs.declared.known.KnownNode.TheVariants.{Pci, PciRoot};

/// Bytes are whole nodes in a row, none of which is the End node, and then the End node or a bad
/// one. They are so in exactly one way.
pub fn paths_are_nodes()
    ensures some { (bytes : List ℕ) → IsPath bytes (path_in bytes) }
    ensures only { (bytes : List ℕ) (path : Path) → IsPath bytes path → path_in bytes ≡ path }
{}

/// What comes after the End node of a path does not count.
pub fn end_node_ends()
    ensures { (bytes more : List ℕ) → (path_in bytes).fault ≡ None
        → path_in (bytes ++ more) ≡ path_in bytes }
{}

/// A path with one more PCI node has the earlier nodes and that one, and ends with an End node.
pub fn pci_node_is_last()
    ensures { (bytes child : List ℕ) (device function : ℕ) →
        with_pci (path_in bytes) device function ≡ Ok child
        → path_in child
        ≡ record { nodes = (path_in bytes).nodes ++ pci_node device function ∷ []; fault = None } }
{}

/// Its text is the earlier text and that of the PCI node.
pub fn text_grows()
    ensures { (bytes child text : List ℕ) (device function : ℕ) →
        with_pci (path_in bytes) device function ≡ Ok child → text_of (path_in bytes) ≡ Ok text
        → text_of (path_in child) ≡ Ok (with_node text (known_text (Pci device function))) }
{}

/// The path of a root bridge has only its ACPI node, and its text is that of the root bridge with
/// the _UID.
pub fn root_path_is_one_node()
    ensures nodes { (uid : ℕ) →
        path_in (root_path uid) ≡ record { nodes = root_node uid ∷ []; fault = None } }
    ensures text { (uid : ℕ) → uid < 2 ^ 32
        → text_of (path_in (root_path uid)) ≡ Ok (known_text (PciRoot uid)) }
{}
