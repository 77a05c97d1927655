use std::test::Fail;
use streams::{MemSink, MemSource, ReadRefused, read_whole, write_whole};

// The examples of `read_whole` and `write_whole`.
#[test]
fn moves_bytes_whole(rt: HostRuntime) -> Result<(), Fail> {
    let alloc = rt.alloc();
    let mut source = MemSource::new(b"abcdefg".to_vec(alloc)?, 3, Vec::new(alloc));
    assert_eq!(rt;
        read_whole(alloc, &mut source, 7)?.as_slice(),
        b"abcdefg".as_slice()
    );

    let mut sink = MemSink::new(alloc, 10, 4, Vec::new(alloc))?;
    write_whole(&mut sink, b"abcdefg")?;
    assert_eq!(rt; sink.bytes(), b"abcdefg".as_slice());
    Ok(())
}

#[test]
fn reads_to_the_end_piece_by_piece(rt: HostRuntime) -> Result<(), Fail> {
    let text = b"twelve bytes".as_slice();
    let mut source = MemSource::new(text.to_vec(rt.alloc())?, 5, Vec::new(rt.alloc()));
    assert_eq!(rt; read_whole(rt.alloc(), &mut source, 12)?.as_slice(), text);

    let failing = [2].to_vec(rt.alloc())?;
    let mut source = MemSource::new(text.to_vec(rt.alloc())?, 5, failing);
    let refused = read_whole(rt.alloc(), &mut source, 12);
    assert!(rt; matches!(refused, Err(ReadRefused::Failed)));
    Ok(())
}

#[test]
fn reads_no_more_than_the_most(rt: HostRuntime) -> Result<(), Fail> {
    let most = 100_000;
    let mut bytes = vec![in rt.alloc(); b'x'; most]?;
    let mut source = MemSource::new(bytes.clone()?, most, Vec::new(rt.alloc()));
    assert_eq!(rt; read_whole(rt.alloc(), &mut source, most)?.len(), most);

    bytes.push(b'x')?;
    let mut source = MemSource::new(bytes, most, Vec::new(rt.alloc()));
    let refused = read_whole(rt.alloc(), &mut source, most);
    assert!(rt; matches!(refused, Err(ReadRefused::TooLong)));
    Ok(())
}

#[test]
fn writes_all_or_a_front(rt: HostRuntime) -> Result<(), Fail> {
    let text = b"twelve bytes".as_slice();
    for (room, whole, held) in [(12, true, text), (8, false, b"twelve b".as_slice())] {
        let mut sink = MemSink::new(rt.alloc(), room, 5, Vec::new(rt.alloc()))?;
        assert_eq!(rt; write_whole(&mut sink, text).is_ok(), whole);
        assert_eq!(rt; sink.bytes(), held);
    }
    Ok(())
}
