// The streams of the machine. What standard input holds is not known here.
use crate::directories::empty_dir;
use crate::runs::words_of;
use std::test::Fail;
use sv_run::{Failed, Sink, Source, Status, StdSink, StdSource, run};

#[test]
fn reads_standard_input(rt: HostRuntime) {
    let mut source = StdSource::new(rt);
    let mut buffer = [0u8; 16];
    match source.read(&mut buffer) {
        Ok(count) => assert!(rt; count <= 16),
        Err(failed) => assert_eq!(rt; failed, Failed),
    }
}

#[test]
fn writes_standard_output(rt: HostRuntime) -> Result<(), Fail> {
    let mut sink = StdSink::new(rt);
    assert_eq!(rt; sink.write(b"").map_err(|_| "a fault")?, 0);
    let count = sink.write(b"lane 1\n").map_err(|_| "a fault")?;
    assert!(rt; 0 < count && count <= 7);
    let words = words_of(rt.alloc(), "walk")?;
    let mut source = StdSource::new(rt);
    let dir = empty_dir(rt.alloc())?;
    let ran = run(rt.alloc(), words.as_slice(), &mut source, dir, &mut sink);
    assert_eq!(rt; ran.status, Status::Usage);
    Ok(())
}
