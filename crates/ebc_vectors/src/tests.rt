use crate::comparison::report_of;
use std::test::Fail;

/// The first run is a firmware's: CMP32eq R1, R2 of equal numbers sets C. Each other run expects
/// something else of the same code: another FLAGS, another register, and another byte of data.
const RUNS: &str = "as it is|0521|0 0 0 0 0 0 0|0||81ff70 0 0 0 0 0 0 0|1|
wrong flags|0521|0 0 0 0 0 0 0|0||81ff70 0 0 0 0 0 0 0|0|
wrong register|0521|0 0 0 0 0 0 0|0||81ff70 0 0 0 0 0 0 1|1|
wrong stack pointer|0521|0 0 0 0 0 0 0|0||81ff78 0 0 0 0 0 0 0|1|
wrong data|0521|0 0 0 0 0 0 0|0|00|81ff70 0 0 0 0 0 0 0|1|01
no instruction|2700|0 0 0 0 0 0 0|0||81ff70 0 0 0 0 0 0 0|0|
";

#[test]
fn runs_that_differ_are_reported(rt: HostRuntime) -> Result<(), Fail> {
    let report = report_of(rt.alloc(), RUNS)?;
    assert_eq!(rt;
        report.as_str(),
        "wrong flags\nwrong register\nwrong stack pointer\nwrong data\nno instruction\n6 runs, 5 differ\n"
    );
    Ok(())
}
