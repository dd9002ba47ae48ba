// What a controller shows of itself; the trials of calls have the page in all its forms.
use super::*;

#[test]
fn a_controller_shows_how_it_stands(rt: HostRuntime) -> Result<(), Fail> {
    let mut controller = alerting(&rt, rt.alloc())?;
    let fresh = Summary {
        records: 0,
        processed: 0,
        last: 0x0000,
        job: None,
        status: 0x00,
        ticks: 0,
        delay: 0,
        postpone: 0,
        sequence: 1,
        pending: false,
    };
    assert_eq!(rt; controller.show(), fresh);
    assert!(rt; go(&mut controller, &alert_immediate(&rt, 0x02, 0x00)));
    let at_once = Summary {
        status: 0xFF,
        sequence: 2,
        pending: true,
        ..fresh
    };
    assert_eq!(rt; controller.show(), at_once);
    assert!(rt;
        controller.page().as_slice()
            == b"records 0\nprocessed 0\nlast 0000\njob none\nimmediate ff\nticks 0\ndelay 0\npostpone 0\nsequence 2\nscript none\npending yes\n".as_slice()
    );
    Ok(())
}
