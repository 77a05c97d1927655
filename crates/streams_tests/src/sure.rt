use std::test::Fail;
use streams::{Sink, Source, SureSink, SureSource};

// The examples of the source and the sink.
#[test]
fn gives_all_and_takes_what_fits(rt: HostRuntime) -> Result<(), Fail> {
    let alloc = rt.alloc();
    let mut source = SureSource::new(b"abcd".to_vec(alloc)?);
    let mut buffer = [0; 3];
    for (count, front) in [(3, b"abc".as_slice()), (1, b"d"), (0, b"d")] {
        assert_eq!(rt; source.read(&mut buffer).ok(), Some(count));
        assert!(rt; buffer.starts_with(front));
    }

    let mut sink = SureSink::with_room(alloc, 5)?;
    let turns: [(&[u8], Option<usize>); 5] = [
        (b"abc", Some(3)),
        (b"", Some(0)),
        (b"def", Some(2)),
        (b"f", None),
        (b"", Some(0)),
    ];
    for (piece, count) in turns {
        assert_eq!(rt; sink.write(piece).ok(), count);
    }
    assert_eq!(rt; sink.bytes(), b"abcde".as_slice());
    Ok(())
}
