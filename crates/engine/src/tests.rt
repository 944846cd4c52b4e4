ghost use Rattle.std.specs.Prelude.{◌≡◌, IfOk, true};
ghost use Rattle.fw_types.specs.declared.limits.TheConstants.{MOST_LEVELS as most_levels};
ghost use Rattle.world_model.specs.Levels.{has_marks, is_free};
ghost use Rattle.world_model.specs.Marks.{stacks};

use crate::{connect, disconnect};
use driver_model::{Connection, Disconnection, Scope, Settings};
use fw_types::{CALL_BUDGET, Event, EventKind, MOST_LEVELS, Outcome, Rows, Status};
use fw_world::World;
use pci_model::Board;
use std::alloc::Global;
use std::test::Fail;
use world_model::laws::rest_is_free;

/// A world in its opening state, with `units` units.
#[tactic(auto, unfolding(world_model::specs::Levels::has_marks))]
fn opening_world(alloc: Global, units: u32) -> Result<World, Fail>
    ensures free { IfOk result (λ world.
        is_free most_levels (stacks world.now.soft) world.marks ≡ true) }
    ensures marks { IfOk result (λ world. has_marks 0 most_levels world.marks ≡ true) }
{
    rest_is_free();
    let mut world = World::new(alloc, Board::empty(alloc), Vec::new(alloc))?;
    world.begin_command(units);
    Ok(world)
}

/// Settings with no platform lists and with the first budget of a call.
fn first_settings(alloc: Global) -> Settings {
    Settings {
        platform: Rows::of(Vec::new(alloc)),
        call_budget: CALL_BUDGET,
    }
}

/// The number of an event, the number of the event inside which it began, what was called, the
/// driver, the controller, and how it ended.
type EventRow = (u64, u64, EventKind, u64, u64, Status);

fn row_of(event: &Event) -> Option<EventRow> {
    let Outcome::Value(status) = event.result else {
        return None;
    };
    Some((
        event.serial,
        event.parent,
        event.kind,
        event.driver,
        event.controller,
        status,
    ))
}

fn rows_of(alloc: Global, world: &mut World) -> Result<Vec<EventRow>, Fail> {
    let events = world.take_events();
    Ok(events.iter().filter_map(row_of).collect(alloc)?)
}

/// A controller, whether the path is an End node, the units, the status, the units that are left,
/// and the events.
type ConnectRow = (u64, bool, u32, Status, u64, &'static [EventRow]);

/// The bus driver, handle 2, is asked, and supports only root bridges.
const CONNECTS: [ConnectRow; 5] = [
    (
        1,
        false,
        1000,
        Status::NOT_FOUND,
        872,
        &[
            (1, 0, EventKind::Connect, 0, 1, Status::NOT_FOUND),
            (2, 1, EventKind::Supported, 2, 1, Status::UNSUPPORTED),
        ],
    ),
    (
        1,
        true,
        1000,
        Status::SUCCESS,
        872,
        &[
            (1, 0, EventKind::Connect, 0, 1, Status::SUCCESS),
            (2, 1, EventKind::Supported, 2, 1, Status::UNSUPPORTED),
        ],
    ),
    (
        0,
        false,
        1000,
        Status::INVALID_PARAMETER,
        936,
        &[(1, 0, EventKind::Connect, 0, 0, Status::INVALID_PARAMETER)],
    ),
    (
        9,
        false,
        1000,
        Status::INVALID_PARAMETER,
        936,
        &[(1, 0, EventKind::Connect, 0, 9, Status::INVALID_PARAMETER)],
    ),
    // with fewer units than the price, nothing is begun
    (1, false, 63, Status::ABORTED, 63, &[]),
];

#[test]
fn connects_on_an_empty_board(rt: HostRuntime) -> Result<(), Fail> {
    let settings = first_settings(rt.alloc());
    for (controller, at_end, units, status, left, events) in CONNECTS {
        let mut world = opening_world(rt.alloc(), units)?;
        let c = Connection {
            controller,
            path: 0,
            at_end,
            recursive: false,
        };
        let scope = Scope { event: 0 };
        let answer = connect(&mut world, &settings, MOST_LEVELS, scope, &c, &[])?;
        assert_eq!(rt; answer, status, "at {controller}");
        assert_eq!(rt; world.left(), left, "at {controller}");
        let rows = rows_of(rt.alloc(), &mut world)?;
        assert_eq!(rt; rows.as_slice(), events, "at {controller}");
    }
    Ok(())
}

/// A driver, the status and its event.
const DISCONNECTS: [(u64, Status); 2] = [
    (0, Status::SUCCESS),
    // the firmware is not a driver
    (1, Status::INVALID_PARAMETER),
];

#[test]
fn disconnects_on_an_empty_board(rt: HostRuntime) -> Result<(), Fail> {
    for (driver, status) in DISCONNECTS {
        let mut world = opening_world(rt.alloc(), 1000)?;
        let d = Disconnection {
            controller: 1,
            driver,
            child: 0,
        };
        let settings = first_settings(rt.alloc());
        let scope = Scope { event: 0 };
        let answer = disconnect(&mut world, &settings, MOST_LEVELS, scope, &d)?;
        assert_eq!(rt; answer, status, "of {driver}");
        assert_eq!(rt; world.left(), 936, "of {driver}");
        let rows = rows_of(rt.alloc(), &mut world)?;
        let wanted = [(1, 0, EventKind::Disconnect, driver, 1, status)];
        assert_eq!(rt; rows.as_slice(), wanted.as_slice(), "of {driver}");
    }
    Ok(())
}
