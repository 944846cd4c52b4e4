//! ConnectController and DisconnectController, up to where they enter the driver model. Their rows are
//! called here, not `serve`.

ghost use Rattle.std.specs.Prelude.{◌≡◌, IfOk, false, true};
ghost use Rattle.service_model.specs.Allowed.{is_allowed};
ghost use Rattle.world_model.specs.Stacks.{has_stack};

use crate::changes::apply;
use crate::steps::{BAD, LIST, PLACE, STACK_END, empty_world, put_word, set_up};
use fw_types::{Cause, OutOfMemory, Rows, Status};
use fw_world::World;
use service_model::laws::reentries_change_nothing;
use service_model::{Change, Reentry, Served, Stop};
use service_rows::connecting::{connect_controller, disconnect_controller};
use std::process::Abort;
use std::test::Fail;

/// A list of 64 handles, of which the last 63 are a list that ends.
const ENDLESS: u64 = LIST;

/// A list of two handles.
const TWO: u64 = LIST + 0x400;

/// A device path that ends, and one that does not.
const END: u64 = PLACE;

const MORE: u64 = PLACE + 16;

/// The last 8 bytes of the stack.
const LAST: u64 = STACK_END - 8;

const TRAPPED: Result<(u64, bool, bool), Stop> = Err(Stop::Trap(Cause::Memory));

const INVALID: Result<(u64, bool, bool), Stop> = Err(Stop::Status(Status::INVALID_PARAMETER));

/// A list, a path and the last argument; then what is expected: how many handles the list has, whether the
/// path is at its end and whether children are connected too, or why the row stops.
type Connect = (u64, u64, u8, Result<(u64, bool, bool), Stop>);

const CONNECTS: [Connect; 16] = [
    // a pointer that can't be read answers before a list that does not end
    (ENDLESS, BAD, 0, TRAPPED),
    (ENDLESS, STACK_END - 3, 0, TRAPPED),
    (LAST, END, 0, TRAPPED),
    (LAST, BAD, 0, TRAPPED),
    (BAD, END, 0, TRAPPED),
    (BAD, BAD, 0, TRAPPED),
    // each of the two alone
    (ENDLESS, 0, 0, INVALID),
    (ENDLESS, END, 1, INVALID),
    (TWO, STACK_END - 3, 0, TRAPPED),
    // no list, no path
    (0, 0, 0, Ok((0, false, false))),
    (0, BAD, 0, TRAPPED),
    (0, END, 1, Ok((0, true, true))),
    (TWO, MORE, 0x80, Ok((2, false, true))),
    (TWO, END, 0, Ok((2, true, false))),
    (TWO + 16, 0, 0, Ok((0, false, false))),
    (ENDLESS + 8, 0, 0, Ok((63, false, false))),
];

/// Puts those lists and paths into an empty world, and 7 into the last 8 bytes of the stack.
fn prepare(rt: &impl AllocGlobal, world: &mut World) -> Result<(), Fail>
    requires { has_stack 1 world.old.now.soft.memory ≡ false }
{
    set_up(rt, world, 100)?;
    let mut at = ENDLESS;
    for i in 0..64u64 {
        put_word(world, at, 100 + i)?;
        at = at.wrapping_add(8);
    }
    put_word(world, TWO, 3)?;
    put_word(world, TWO + 8, 5)?;
    // an end node of 4 bytes, and a hardware node
    put_word(world, END, 0x0004_ff7f)?;
    put_word(world, MORE, 0x0006_017f)?;
    put_word(world, LAST, 7)
}

#[test]
fn connects(rt: HostRuntime) -> Result<(), Fail> {
    let mut world = empty_world(&rt)?;
    connects_in(&rt, &mut world)
}

fn connects_in(rt: &(impl AllocGlobal + Abort), world: &mut World) -> Result<(), Fail>
    requires { has_stack 1 world.old.now.soft.memory ≡ false }
{
    prepare(rt, world)?;
    for (list, path, flag, ends) in CONNECTS {
        let ends = ends.map(|(count, at_end, recursive)| Change::Connect {
            controller: 4,
            list,
            count,
            path,
            at_end,
            recursive,
        });
        assert_eq!(rt;
            connect_controller(4, list, path, flag, world),
            ends,
            "at {list:x} {path:x}"
        );
    }
    Ok(())
}

/// The row of ConnectController for handle 4, which ends with a change that can be applied.
fn connect_row(list: u64, path: u64, recursive: u8, world: &World) -> Result<Change, Stop>
    ensures { IfOk result (λ change. is_allowed change world.now.now ≡ true) }
{
    reentries_change_nothing();
    connect_controller(4, list, path, recursive, world)
}

/// What the service goes on with, or none if its row stopped.
fn go_on(change: Result<Change, Stop>, world: &mut World) -> Result<Option<Served>, OutOfMemory>
    requires { IfOk change (λ change. is_allowed change world.old.now ≡ true) }
{
    match change {
        Ok(change) => Ok(Some(apply(change, world)?)),
        Err(_) => Ok(None),
    }
}

/// The handles are read when the service goes on.
#[test]
fn goes_on(rt: HostRuntime) -> Result<(), Fail> {
    let mut world = empty_world(&rt)?;
    goes_on_in(&rt, &mut world)
}

fn goes_on_in(rt: &(impl AllocGlobal + Abort), world: &mut World) -> Result<(), Fail>
    requires { has_stack 1 world.old.now.soft.memory ≡ false }
{
    prepare(rt, world)?;
    let connect = connect_row(TWO, END, 1, world);
    assert_eq!(rt;
        go_on(connect, world)?,
        Some(Served::Again(Reentry::Connect {
            controller: 4,
            context: Rows::of(vec![in rt.alloc(); 3, 5]?),
            path: END,
            at_end: true,
            recursive: true,
        }))
    );
    let disconnect = disconnect_controller(4, 3, 99, world);
    assert_eq!(rt;
        go_on(disconnect, world)?,
        Some(Served::Again(Reentry::Disconnect {
            controller: 4,
            driver: 3,
            child: 99,
        }))
    );
    Ok(())
}
