//! How runs of EBC code end.
ghost use Rattle.std.specs.Prelude.{◌≡◌};
ghost use Rattle.driver_model.specs.GuestRun.{exit_of};

use driver_model::RunEnd;
use ebc_machine::Cpu;
use fw_types::{Cause, Outcome};

/// How a run ends if it reached its exit address.
#[inline]
pub fn exit_of(cpu: &Cpu) -> RunEnd
    ensures { result ≡ exit_of cpu.now }
{
    RunEnd::Returned(cpu.r[7])
}

/// How a run ends if it traps: its driver call ends with it.
#[inline]
pub fn trapped(cause: Cause) -> RunEnd
    ensures { result ≡ RunEnd.Over (Outcome.Trapped cause) }
{
    RunEnd::Over(Outcome::Trapped(cause))
}
