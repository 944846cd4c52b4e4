ghost use Rattle.std.specs.Prelude.{◌≡◌, ◌++◌, ◌*◌, IfOk, OnOk, length, replicate, true};
ghost use Rattle.std.specs.List.{flat_map, list_all, range_with_len};
ghost use Rattle.fw_types.specs.Commands.{has_legal_budgets};
ghost use Rattle.load_gen.specs.GeneratedLoad.{commands, connection_lines, load_line};

use crate::files::DRIVER_NAME;
use fw_types::{Command, OutOfMemory, PathArg, Rows, Text};
use std::alloc::Global;

/// The handle of the root bridge.
const ROOT_HANDLE: u64 = 3;

/// Adds the loads of the driver.
///
/// # Errors
///
/// `OutOfMemory` if there is no memory for them.
fn add_loads(alloc: Global, commands: &mut Vec<Command>, count: u32) -> Result<(), OutOfMemory>
    ensures { OnOk result
        (commands.new.items ≡ commands.old.items ++ replicate count load_line) }
{
    for _number in 0..count {
        let name = Text::of(String::from_str(alloc, DRIVER_NAME)?);
        commands.push(Command::Load { name })?;
    }
    Ok(())
}

/// Adds one connection of the root bridge: it is connected, and then disconnected.
///
/// # Errors
///
/// `OutOfMemory` if there is no memory for it.
fn add_connection(alloc: Global, commands: &mut Vec<Command>) -> Result<(), OutOfMemory>
    ensures { OnOk result (commands.new.items ≡ commands.old.items ++ connection_lines) }
{
    commands.push(Command::Connect {
        controller: ROOT_HANDLE,
        recursive: false,
        path: PathArg::Null,
        context: Rows::of(Vec::new(alloc)),
    })?;
    commands.push(Command::Disconnect {
        controller: ROOT_HANDLE,
        driver: 0,
        child: 0,
    })?;
    Ok(())
}

/// Adds the connections of the root bridge.
///
/// # Errors
///
/// `OutOfMemory` if there is no memory for them.
fn add_connections(
    alloc: Global,
    commands: &mut Vec<Command>,
    count: u32,
) -> Result<(), OutOfMemory>
    ensures { OnOk result (commands.new.items
        ≡ commands.old.items ++ flat_map (λ number. connection_lines) (range_with_len 0 count)) }
{
    for _number in 0..count {
        add_connection(alloc, commands)?;
    }
    Ok(())
}

/// The commands of a load: so many loads of the driver, and then so many connections.
///
/// # Errors
///
/// `OutOfMemory` if there is no memory for them.
#[tactic(auto, using(crate::proofs::CommandLemmas::commands_legal, crate::proofs::CommandLemmas::commands_length))]
pub fn commands(alloc: Global, size: u32) -> Result<Vec<Command>, OutOfMemory>
    ensures commands { IfOk result (λ made. made.items ≡ commands size) }
    ensures budgets { IfOk result
        (λ made. list_all has_legal_budgets made.items ≡ true) }
    ensures count { IfOk result (λ made. length made.items ≡ 3 * size) }
{
    let mut commands = Vec::new(alloc);
    add_loads(alloc, &mut commands, size)?;
    add_connections(alloc, &mut commands, size)?;
    Ok(commands)
}
