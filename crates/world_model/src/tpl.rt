/// The task priority level of applications and drivers (UEFI 2.8, 7.1: Event, Timer, and Task
/// Priority Services).
pub const TPL_APPLICATION: u8 = 4;
