use super::*;

#[test]
fn standard_output_takes_what_is_written(rt: HostRuntime) {
    let mut sink = StdSink::new(rt.stdout());
    assert_eq!(rt; sink.write(b""), Ok(()));
    assert!(rt; sink.failure().is_none());
}
