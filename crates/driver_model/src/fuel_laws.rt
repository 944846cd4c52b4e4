//! Laws of how long runs of EBC code go on, over the definitions alone.

ghost use Rattle.driver_model.specs.Spending.{GoingOnCosts, MoreTurnsChangeNothing, RunIsTurnAndRun};

use service_model::laws::{second_looks_spend_nothing, services_leave};

/// How a run of EBC code goes on (UEFI 2.8, chapter 22 'EFI Byte Code Virtual Machine'). A turn after which
/// it goes on leaves fewer units. So no run ends because its turns run out: more turns than units are left
/// change nothing. A run is its first turn and, if it goes on then, the run from there.
pub fn runs_go_on()
    ensures costs { GoingOnCosts }
    ensures more { MoreTurnsChangeNothing }
    ensures next { RunIsTurnAndRun }
{
    services_leave();
    second_looks_spend_nothing();
}
