//! Interfaces.
ghost use Rattle.std.specs.Prelude.{◌≡◌, false, IfOk, OnErr, OnOk};
ghost use Rattle.handle_db.specs.Database.{Gives as GivesDb};
ghost use Rattle.world_model.specs.Interfaces.{install_answer, interface as interface_value, interface_added, interface_removed, is_lasting, uninstall_answer, without_value};
ghost use Rattle.world_model.specs.UndoLaws.{IsNoted};
ghost use Rattle.soft_part.specs.Answers.{AsBeforeRefusal};

use crate::soft_part::SoftPart;
use fw_types::{Guid, Handle};
use handle_db::DbRefusal;
use soft_pieces::bus_children::take_child;
use world_model::{Boxed, Change, Uninstalled};

impl SoftPart {
    /// Installs an interface on a handle or on a new one.
    ///
    /// # Errors
    ///
    /// Those of `Db::install`.
    pub fn install(
        &mut self,
        handle: Option<Handle>,
        guid: Guid,
        interface: u64,
        owner: Handle,
    ) -> Result<Handle, DbRefusal>
        ensures answer { GivesDb result (install_answer handle guid self.old) }
        ensures ok { OnOk result (self.new ≡
            interface_added handle (interface_value guid interface owner) self.old) }
        ensures err { OnErr result (self.new ≡ self.old) }
    {
        self.database.install(handle, guid, interface, owner)
    }

    /// Uninstalls an interface that does not last as long as an image, and answers the change.
    ///
    /// # Errors
    ///
    /// `BadHandle` if the handle is not live, `NotThere` if it does not have the protocol; the soft part
    /// is then as before. `OutOfMemory` if there is no memory.
    pub fn uninstall(&mut self, handle: Handle, guid: Guid) -> Result<Change, DbRefusal>
        requires { is_lasting handle guid self.old ≡ false }
        ensures answer { GivesDb (without_value result) (uninstall_answer handle guid self.old) }
        ensures noted { IfOk result (λ change. IsNoted change self.old self.new) }
        ensures ok { OnOk result (self.new ≡ interface_removed handle guid self.old) }
        ensures refused { AsBeforeRefusal result self.old self.new }
    {
        let removed = self.database.remove(handle, guid)?;
        let child = take_child(&mut self.plain.bus_children, handle, guid);
        let went = Uninstalled {
            handle,
            guid,
            removed,
            child,
        };
        Ok(Change::Uninstall {
            went: Boxed::new(self.alloc, went)?,
        })
    }
}
