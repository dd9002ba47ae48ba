// A run that a crash at any moment cuts off, and another one behind it.
use super::limit::{CLOSE, OPEN_3, PUT, THREE, file_with};
use super::shelf::Shelf;
use script_run::{run_after_crash, run_in_memory};
use std::test::Fail;

#[test]
fn a_run_goes_on_behind_a_crash_at_each_moment(rt: HostRuntime) -> Result<(), Fail> {
    let alloc = rt.alloc();
    let fresh = file_with(alloc, &[])?;
    let whole = file_with(alloc, &[&OPEN_3, &PUT, &PUT, &PUT, &CLOSE])?;
    let first = run_in_memory::<Shelf>(alloc, fresh.as_slice(), THREE.as_bytes(), &[])?;
    assert_eq!(rt; first.octets(), whole.as_slice());
    let mut crashes = 0u32;
    // there are fewer moments than that
    'moments: for moment in 0..1000u64 {
        for torn in [0x00, 0xA5] {
            let Some(second) = run_after_crash::<Shelf>(
                alloc,
                &first,
                moment,
                torn,
                THREE.as_bytes(),
            )?
            else {
                break 'moments;
            };
            assert!(rt; second.octets().starts_with(whole.as_slice()));
            crashes = crashes.saturating_add(1);
        }
    }
    assert!(rt; crashes > 100);
    Ok(())
}
