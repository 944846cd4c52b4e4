//! Stacks of driver calls, and the path of a command.
ghost use Rattle.std.specs.Prelude.{◌≡◌, ◌<◌, ◌≤◌, true, false, IfOk, OnErr, OnOk, length};
ghost use Rattle.fw_types.specs.declared.limits.TheConstants.{MOST_LEVELS as most_levels, MOST_LISTED as most_listed};
ghost use Rattle.world_model.specs.Stacks.{frame as frame_value, has_stack, stack_popped, stack_pushed};
ghost use Rattle.world_model.specs.CommandPath.{has_no_path, path_cleared, path_room, path_set};
ghost use Rattle.world_model.specs.Undo.{AreLevelsOf};

use crate::soft_part::SoftPart;
use ebc_machine::Cpu;
use fw_types::OutOfMemory;
use guest_memory::SegKind;
use guest_memory::address_map::COMMAND_PATH;
use soft_pieces::mapping::map_free;
use soft_pieces::stack::{frame, levels_with_stack, map_level, stack_bytes, unmap_level};
use world_model::StackLevels;

impl SoftPart {
    /// Maps the stack of a level that has none, and its list of children, and answers the
    /// registers.
    ///
    /// # Errors
    ///
    /// `OutOfMemory` if there is no memory; the soft part is then as before.
    pub fn push_stack(
        &mut self,
        level: u8,
        slots: &[u64; 16],
        list: &[u64],
    ) -> Result<Cpu, OutOfMemory>
        requires from { 0 < level }
        requires to { level ≤ most_levels }
        requires none { has_stack level self.old.memory ≡ false }
        requires few { length list.now ≤ most_listed }
        ensures frame { IfOk result (λ cpu. cpu ≡ frame_value level) }
        ensures ok { OnOk result (self.new ≡ stack_pushed level slots.now list.now self.old) }
        ensures err { OnErr result (self.new ≡ self.old) }
    {
        let stack = stack_bytes(self.alloc, slots)?;
        map_level(self.alloc, &mut self.memory, level, stack, list)?;
        Ok(frame(level))
    }

    /// Removes the stack of a level and its list of children.
    pub fn pop_stack(&mut self, level: u8)
        requires from { 0 < level }
        requires to { level ≤ most_levels }
        ensures { self.new ≡ stack_popped level self.old }
    {
        unmap_level(&mut self.memory, level);
    }

    /// Which levels have a stack.
    pub fn levels(&self) -> StackLevels
        ensures { AreLevelsOf result self.now }
    {
        StackLevels {
            has_stack: levels_with_stack(&self.memory),
        }
    }

    // ---- the path of a command

    /// Maps the device path of a command. No path is there yet, and it has at most 45,056 bytes.
    ///
    /// # Errors
    ///
    /// `OutOfMemory` if there is no memory; the soft part is then as before.
    pub fn set_path(&mut self, bytes: Vec<u8>) -> Result<(), OutOfMemory>
        requires none { has_no_path self.old.memory ≡ true }
        requires few { length bytes.items ≤ path_room }
        ensures ok { OnOk result (self.new ≡ path_set bytes.items self.old) }
        ensures err { OnErr result (self.new ≡ self.old) }
    {
        map_free(&mut self.memory, COMMAND_PATH, bytes, SegKind::Table)
    }

    /// Removes the device path of a command. If there is none, all is as before.
    pub fn clear_path(&mut self)
        ensures { self.new ≡ path_cleared self.old }
    {
        let _ = self.memory.unmap(COMMAND_PATH);
    }
}
