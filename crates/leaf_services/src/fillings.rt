//! What tests use up, so that a limit is met.

use crate::steps::{DONE, FIRST, LIST, NAME, OTHER, PLACE, SECOND, call, put_name, put_word};
use fw_world::World;
use service_thunks::Service;
use std::test::Fail;

/// What is used up.
#[derive(Clone, Copy)]
pub(crate) enum Filling {
    /// Protocols with these numbers, from the first to just before the second, are installed on handle 4.
    Interfaces(u64, u64),
    /// 32 pairs are put at `LIST`, after the word `FIRST`, and then this word.
    Pairs(u64),
    /// As many blocks as there may be are made, counting the loaded image block.
    Blocks,
    /// Protocol 1 is installed on this many new handles.
    Handles(u64),
    /// 63 protocols of handle 4 are each opened in 1,083 ways, until no record is free and the last opens
    /// fail. The GUID of the first of them is then at `OTHER`.
    Records,
}

pub(crate) fn fill(world: &mut World, filling: Filling) -> Result<(), Fail> {
    match filling {
        Filling::Interfaces(from, to) => install_from(world, from, to),
        Filling::Pairs(last) => put_pairs(world, last),
        Filling::Blocks => most_blocks(world),
        Filling::Handles(many) => new_handles(world, many),
        Filling::Records => fill_table(world),
    }
}

/// Installs protocols of these numbers on handle 4.
fn install_from(world: &mut World, from: u64, to: u64) -> Result<(), Fail> {
    for number in from..to {
        put_name(world, OTHER, number)?;
        let _ = call(world, Service::Install, &[FIRST, OTHER, 0, number])?;
    }
    put_name(world, OTHER, 2)
}

/// Puts 32 pairs at `LIST`, after the word `FIRST`, and then the word `last`.
fn put_pairs(world: &mut World, last: u64) -> Result<(), Fail> {
    put_word(world, LIST, FIRST)?;
    let mut name = PLACE + 0x200;
    let mut at = LIST + 8;
    for i in 0..32u64 {
        put_name(world, name, 20 + i)?;
        put_word(world, at, name)?;
        put_word(world, at.wrapping_add(8), i)?;
        name = name.wrapping_add(16);
        at = at.wrapping_add(16);
    }
    put_word(world, at, last)
}

/// Makes as many blocks of no bytes as there may be, counting the loaded image block.
fn most_blocks(world: &mut World) -> Result<(), Fail> {
    for _ in 0..65_535 {
        if call(world, Service::AllocatePool, &[0, 0, SECOND])? != DONE {
            return Err("a block that was refused".into());
        }
    }
    Ok(())
}

/// Installs protocol 1 on `many` new handles.
fn new_handles(world: &mut World, many: u64) -> Result<(), Fail> {
    for _ in 0..many {
        put_word(world, FIRST, 0)?;
        let _ = call(world, Service::Install, &[FIRST, NAME, 0, 5])?;
    }
    Ok(())
}

/// Opens the protocol whose GUID is at `OTHER` on handle 4 with each of handles 1 to 19 as agent and as
/// controller, with each of the three attributes that keep nobody out: 1,083 opens.
fn open_many(world: &mut World) -> Result<(), Fail> {
    for i in 0..1083u64 {
        let (agent, controller) = (1 + i % 19, 1 + i / 19 % 19);
        let attr = match i / 361 {
            0 => 0x01,
            1 => 0x02,
            _ => 0x04,
        };
        let open = [4, OTHER, SECOND, agent, controller, attr];
        let _ = call(world, Service::OpenProtocol, &open)?;
    }
    Ok(())
}

/// Opens 63 protocols of handle 4 in this way, until the last opens fail, and leaves the GUID of the first
/// at `OTHER`.
fn fill_table(world: &mut World) -> Result<(), Fail> {
    for number in 100..163 {
        put_name(world, OTHER, number)?;
        let _ = call(world, Service::Install, &[FIRST, OTHER, 0, number])?;
        open_many(world)?;
    }
    put_name(world, OTHER, 100)
}
