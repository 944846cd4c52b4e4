//! Laws of uninstalls of several interfaces (UEFI 2.8, 7.3: UninstallMultipleProtocolInterfaces), over the
//! definitions alone.

ghost use Rattle.driver_model.specs.EarlyRefusal.{EarlyRefusalsChangeNothing, LateRefusalsChangeTheSoftPartAlone};

/// A list that reaches a pair that is refused, after pairs of interfaces without a record that is
/// BY_CHILD_CONTROLLER, BY_DRIVER or EXCLUSIVE, is answered with INVALID_PARAMETER and changes
/// nothing, units and events included.
pub fn early_refusals_change_nothing()
    ensures { EarlyRefusalsChangeNothing }
{}

/// The same after the driver that managed the handle of the list's first pair was disconnected: one of the
/// pairs is refused, and until then nothing but the soft part changes, which an undo puts back.
pub fn late_refusals_change_the_soft_part_alone()
    ensures { LateRefusalsChangeTheSoftPartAlone }
{}
