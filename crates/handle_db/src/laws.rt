//! Laws of the database's single changes, over the definitions alone. Each is the contract of a function
//! without code.

ghost use Rattle.handle_db.specs.Installing.{InstallingKeeps};
ghost use Rattle.handle_db.specs.OwnedInterfaces.{RemovingOwnedKeeps};
ghost use Rattle.handle_db.specs.Removing.{RemovingKeeps};
ghost use Rattle.handle_db.specs.Undoing.{InstallingIsUndone, RemovingIsUndone, UndoingInstallKeeps, UndoingRemoveKeeps};

/// If an interface may be installed, a sound database is sound afterwards.
pub fn installing_keeps()
    ensures { InstallingKeeps }
{}

/// After an interface is removed, a sound database is sound.
pub fn removing_keeps()
    ensures { RemovingKeeps }
{}

/// After the interfaces that belong to an image are removed with it, a sound database is sound.
pub fn removing_owned_keeps()
    ensures { RemovingOwnedKeeps }
{}

/// What is installed can be taken back, and the database is then as before.
pub fn installing_is_undone()
    ensures { InstallingIsUndone }
{}

/// What is removed can be put back, and the database is then as before.
pub fn removing_is_undone()
    ensures { RemovingIsUndone }
{}

/// After an installation is taken back, a sound database is sound.
pub fn undoing_install_keeps()
    ensures { UndoingInstallKeeps }
{}

/// After a removal is taken back, a sound database is sound.
pub fn undoing_remove_keeps()
    ensures { UndoingRemoveKeeps }
{}
