//! Laws of the unload of an image (UEFI 2.8, 7.4: EFI_BOOT_SERVICES.UnloadImage()), over the
//! definitions alone. Each is the contract of a function with no code.

ghost use Rattle.driver_model.specs.Spending.{UnloadsSpend};
ghost use Rattle.driver_model.specs.Staying.{UnloadsStay};
ghost use Rattle.driver_model.specs.UnloadLaws.{
  CallsUnloadNone,
  SweepsLeaveOthers,
  SweepsStay,
  SweptImagesAreGone,
  ThunksEnterLoadedImages,
  UnloadedImagesAreGone,
  UnloadsLeaveOthers,
  UnloadsThatFailLeave,
  UnloadsThatSucceedSweep,
};

/// If no stack of a later level is there, the unload of an image leaves what holds of every world,
/// and the same stacks, whether it succeeds or not. So does the sweep that it ends with. No byte of
/// a segment that code may not write changes while the segment is mapped, and each live thunk
/// enters an image that is loaded.
pub fn unloads_stay()
    ensures unloads { UnloadsStay }
    ensures sweeps { SweepsStay }
    ensures thunks { ThunksEnterLoadedImages }
{}

/// The units never rise in an unload. Events are only added, and each one that is added is paid
/// with the price of a driver call.
pub fn unloads_spend()
    ensures { UnloadsSpend }
{}

/// An unload that does not succeed leaves memory, handles, protocol interfaces, open records,
/// images and thunks as they were: INVALID_PARAMETER and UNSUPPORTED change nothing, and what the
/// handler did is undone if it fails (UEFI 2.8, 9.1: EFI_LOADED_IMAGE_PROTOCOL.Unload()) or if the
/// image is in use after it (ACCESS_DENIED).
pub fn failed_unloads_leave()
    ensures { UnloadsThatFailLeave }
{}

/// An unload that succeeds is that of an image that is loaded, and stays loaded while its handler
/// runs. Then nothing of it is left: no protocol interface has it as owner, no open record has an
/// agent that was the image or had a driver binding of the image when the handler had returned, no
/// thunk enters it, and no byte of it and of its loaded image block can be read.
pub fn unloaded_images_are_gone()
    ensures sweeps { UnloadsThatSucceedSweep }
    ensures loaded { CallsUnloadNone }
    ensures gone { UnloadedImagesAreGone }
{}

/// Everything else is as the handler left it: the protocol interfaces that the image does not own,
/// the open records of other agents on interfaces and with handles that are still there, the other
/// images with the thunks that enter them, and every other segment of memory. The pool memory that
/// the image's driver allocated is among these.
pub fn unloads_leave_others()
    ensures { UnloadsLeaveOthers }
{}

/// The sweep of a loaded image in any world takes away the same and leaves the same.
pub fn sweeps_take_images()
    ensures gone { SweptImagesAreGone }
    ensures others { SweepsLeaveOthers }
{}
