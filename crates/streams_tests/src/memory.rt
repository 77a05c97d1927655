use std::test::Fail;
use streams::{MemSink, MemSource, Sink, Source};

// The examples of the source and the sink.
#[test]
fn moves_pieces(rt: HostRuntime) -> Result<(), Fail> {
    let alloc = rt.alloc();
    let mut source = MemSource::new(b"abcd".to_vec(alloc)?, 3, [1].to_vec(alloc)?);
    let mut buffer = [0; 5];
    assert_eq!(rt; source.read(&mut buffer).ok(), Some(3));
    assert_eq!(rt; source.read(&mut buffer).ok(), None);
    assert_eq!(rt; source.read(&mut buffer).ok(), Some(1));

    let mut sink = MemSink::new(alloc, 10, 4, Vec::new(alloc))?;
    assert_eq!(rt; sink.write(b"abcdefgh").ok(), Some(4));
    assert_eq!(rt; sink.bytes(), b"abcd".as_slice());
    Ok(())
}

#[test]
fn source_gives_pieces_but_in_the_failing_call(rt: HostRuntime) -> Result<(), Fail> {
    let bytes = b"abcdefg".to_vec(rt.alloc())?;
    let mut source = MemSource::new(bytes, 3, [1].to_vec(rt.alloc())?);
    let mut buffer = [0; 5];
    let turns: [(Option<usize>, &[u8]); 5] = [
        (Some(3), b"abc"),
        (None, b"abc"),
        (Some(3), b"def"),
        (Some(1), b"g"),
        (Some(0), b"g"),
    ];
    for (count, front) in turns {
        assert_eq!(rt; source.read(&mut buffer).ok(), count);
        assert!(rt; buffer.starts_with(front));
    }
    Ok(())
}

#[test]
fn sink_takes_pieces_but_in_the_failing_call_and_when_full(rt: HostRuntime) -> Result<(), Fail> {
    let mut sink = MemSink::new(rt.alloc(), 10, 4, [1].to_vec(rt.alloc())?)?;
    let turns: [(&[u8], Option<usize>); 6] = [
        (b"abcdefgh", Some(4)),
        (b"efgh", None),
        (b"efgh", Some(4)),
        (b"ijk", Some(2)),
        (b"k", None),
        (b"", Some(0)),
    ];
    for (piece, count) in turns {
        assert_eq!(rt; sink.write(piece).ok(), count);
    }
    assert_eq!(rt; sink.bytes(), b"abcdefghij".as_slice());
    Ok(())
}
