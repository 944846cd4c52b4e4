//! The load of an image, around the call of its entry point (UEFI 2.8, 7.4: LoadImage and
//! StartImage, as one step).
ghost use Rattle.std.specs.Prelude.{◌≡◌, ◌<◌, IfOk, OnOk};
ghost use Rattle.world_model.specs.Marks.{depth, marked_stacks, older_marks, put_back, stacks};
ghost use Rattle.driver_model.specs.Moves.{plain};
ghost use Rattle.driver_model.specs.ImageLife.{entry_call, failure_of, kept_unless, refusal_status};

use driver_model::{Call, CallKind};
use fw_types::{Handle, ImageNote, OutOfMemory, Outcome, PeRefusal, Status};
use fw_world::{Mark, World};
use guest_memory::address_map::SYSTEM_TABLE;

/// What came of an image, and the status of its load.
#[derive(Clone, Copy, Debug, PartialEq, Eq)]
pub struct ImageLoad {
    pub note: ImageNote,
    pub status: Status,
}

/// The status of the load of a file that is refused.
fn refusal_status(refusal: PeRefusal) -> Status
    ensures { result ≡ refusal_status refusal }
{
    match refusal {
        PeRefusal::Machine | PeRefusal::Magic | PeRefusal::Subsystem => Status::UNSUPPORTED,
        _ => Status::LOAD_ERROR,
    }
}

/// The load of a file that is refused.
pub fn refused(refusal: PeRefusal) -> ImageLoad
    ensures { result
        ≡ record { note = ImageNote.Refused refusal; status = refusal_status refusal } }
{
    ImageLoad {
        note: ImageNote::Refused(refusal),
        status: refusal_status(refusal),
    }
}

/// A load that fails with a status.
pub fn failed(status: Status) -> ImageLoad
    ensures { result ≡ record { note = ImageNote.Failed status; status = status } }
{
    ImageLoad {
        note: ImageNote::Failed(status),
        status,
    }
}

/// The status of a load or an unload whose driver call ended like this, if the call failed.
pub fn failure(outcome: Outcome) -> Option<Status>
    ensures { result ≡ failure_of outcome }
{
    match outcome {
        Outcome::Value(status) if status.is_error() => Some(status),
        Outcome::Value(_) => None,
        Outcome::Trapped(_) => Some(Status::ABORTED),
    }
}

/// The call of an image's entry point: its arguments are the image and the system table.
pub fn entry_call(image: Handle, entry: u64) -> Call
    ensures { result ≡ entry_call image entry }
{
    let mut slots = [0; 16];
    slots[0] = image.get();
    slots[1] = SYSTEM_TABLE;
    Call {
        kind: CallKind::Entry,
        driver: image.get(),
        controller: 0,
        extra: 0,
        address: entry,
        binding: 0,
        slots,
    }
}

/// Keeps an image if its entry point succeeded, or puts back the soft part that the mark keeps.
///
/// # Errors
///
/// `OutOfMemory` if there is no memory for what is put back.
pub fn settle_load(
    world: &mut World,
    mark: Mark,
    image: Handle,
    outcome: Outcome,
) -> Result<ImageLoad, OutOfMemory>
    requires newest { mark ≡ depth world.old }
    requires stacks { stacks world.old.now.soft ≡ marked_stacks world.old }
    requires open { 0 < depth world.old }
    ensures now { IfOk result (λ load.
        kept_unless plain (failure_of outcome) image (put_back world.old.marks world.old.now).soft
        world.old.now
        ≡ record { note = load.note; status = load.status; world = world.new.now }) }
    ensures marks { OnOk result (world.new.marks ≡ older_marks world.old.marks) }
    ensures stacks { OnOk result (stacks world.new.now.soft ≡ stacks world.old.now.soft) }
    ensures hard { OnOk result (world.new.now.hard ≡ world.old.now.hard) }
{
    match failure(outcome) {
        None => {
            world.commit(mark);
            Ok(ImageLoad {
                note: ImageNote::Loaded(image),
                status: Status::SUCCESS,
            })
        }
        Some(status) => {
            world.rollback(mark)?;
            Ok(failed(status))
        }
    }
}
