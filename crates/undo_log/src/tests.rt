ghost use Rattle.std.specs.Prelude.{◌≡◌, IfOk, OnOk};
ghost use Rattle.undo_log.specs.Log.{depth};

use crate::{Log, Mark};
use fw_types::OutOfMemory;
use std::test::Fail;

/// Makes room for a change and notes it.
fn add(log: &mut Log<u64, char>, change: u64) -> Result<(), OutOfMemory>
    ensures { OnOk result (depth log.new ≡ depth log.old) }
{
    log.reserve()?;
    log.note(change);
    Ok(())
}

/// The last two changes since a mark.
fn last_two(log: &mut Log<u64, char>, mark: &Mark) -> [Option<u64>; 2]
    requires { mark.now ≡ depth log.old }
    ensures { depth log.new ≡ depth log.old }
{
    [log.take_last(mark), log.take_last(mark)]
}

/// The inner of two marks is closed, and its change is taken back by the outer one, last first.
#[test]
fn nested_marks(rt: HostRuntime) -> Result<(), Fail> {
    let mut log = Log::new(rt.alloc())?;
    let outer = log.mark('a');
    add(&mut log, 10)?;
    let inner = log.mark('b');
    assert_eq!(rt; log.carried().copied(), Some('b'));
    add(&mut log, 20)?;
    add(&mut log, 30)?;
    assert_eq!(rt; log.take_last(&inner), Some(30));
    log.commit(inner);
    assert_eq!(rt; last_two(&mut log, &outer), [Some(20), Some(10)]);
    assert_eq!(rt; log.take_last(&outer), None);
    log.commit(outer);
    assert_eq!(rt; log.carried().copied(), None);
    Ok(())
}

/// Without a mark a change is dropped, and so are those of the outermost mark.
#[test]
fn nothing_without_a_mark(rt: HostRuntime) -> Result<(), Fail> {
    let mut log = Log::new(rt.alloc())?;
    add(&mut log, 10)?;
    let first = log.mark('a');
    add(&mut log, 20)?;
    log.commit(first);
    let second = log.mark('b');
    assert_eq!(rt; last_two(&mut log, &second), [None, None]);
    log.commit(second);
    Ok(())
}
