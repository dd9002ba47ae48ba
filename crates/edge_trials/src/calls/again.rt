// The law of two runs, called for the controller: a crash at any moment cuts the first one off.
use super::{CLOSED, DONE, EVENT, MADE, OPENED, SCRIPT, file_with, records_of};
use pef_core::Controller;
use script_run::{run_after_crash, run_in_memory};
use std::test::Fail;

// More moments than a run here has.
const MOMENTS: u64 = 1_000;

#[test]
fn a_run_behind_a_crash_repeats_at_most_the_step_that_was_in_flight(
    rt: HostRuntime,
) -> Result<(), Fail> {
    let alloc = rt.alloc();
    let whole = file_with(alloc, &[&OPENED, &EVENT, &DONE, &CLOSED])?;
    let first = run_in_memory::<Controller>(alloc, &MADE, SCRIPT.as_bytes(), &[])?;
    assert_eq!(rt; first.octets(), whole.as_slice());
    let mut repeated = false;
    'moments: for moment in 0..MOMENTS {
        for torn in [0x00, 0xA5] {
            let Some(second) = run_after_crash::<Controller>(
                alloc,
                &first,
                moment,
                torn,
                SCRIPT.as_bytes(),
            )?
            else {
                break 'moments;
            };
            assert!(rt; second.octets().starts_with(whole.as_slice()));
            let steps = records_of(alloc, second.issued())?;
            if steps.as_slice() == [1, 1].as_slice() {
                repeated = true;
            } else {
                assert_eq!(rt; steps.as_slice(), [1].as_slice());
            }
        }
    }
    assert!(rt; repeated);
    Ok(())
}
