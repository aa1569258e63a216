// The ends of the range of steps. Rows, slacks and floors are run by the desk program.
use crate::StepRule;
use std::test::Fail;

#[test]
fn steps_have_their_range(rt: HostRuntime) -> Result<(), Fail> {
    for step in [0u32, 4097, u32::MAX] {
        assert!(rt; StepRule::constant(step).is_err() && StepRule::divided(step).is_err());
    }
    assert_eq!(rt; StepRule::constant(4096)?.step(9), 4096);
    let rule = StepRule::divided(4096)?;
    for (round, step) in [(0u32, 4096u32), (1, 4096), (3, 1365), (4096, 1), (4097, 1)] {
        assert_eq!(rt; rule.step(round), step);
    }
    Ok(())
}
