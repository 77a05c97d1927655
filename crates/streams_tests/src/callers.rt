// Callers that know of sources and sinks what their contracts say, and nothing else.

ghost use Rattle.std.specs.Prelude.{◌≡◌, IfOk, IfSome};

use std::alloc::{AllocError, Global};
use std::test::Fail;
use streams::{ReadRefused, SureSink, SureSource, read_whole, write_whole};

// Bytes that fit are written whole.
fn write_fitting(alloc: Global, bytes: &[u8]) -> Result<SureSink, AllocError>
    ensures { IfOk result (λ sink. sink.bytes ≡ bytes.now) }
{
    let mut sink = SureSink::with_room(alloc, bytes.len())?;
    match write_whole(&mut sink, bytes) {
        Ok(()) => Ok(sink),
        Err(_) => unreachable!(),
    }
}

// No read fails: at most a hundred bytes are read whole, more are none.
fn read_hundred(alloc: Global, bytes: Vec<u8>) -> Result<Option<Vec<u8>>, AllocError>
    ensures { IfOk result (λ read. IfSome read (λ r. r.items ≡ bytes.items)) }
{
    let mut source = SureSource::new(bytes);
    match read_whole(alloc, &mut source, 100) {
        Ok(bytes) => Ok(Some(bytes)),
        Err(ReadRefused::Failed) => unreachable!(),
        Err(ReadRefused::TooLong) => Ok(None),
        Err(ReadRefused::Memory(refused)) => Err(refused),
    }
}

#[test]
fn reads_and_writes_surely(rt: HostRuntime) -> Result<(), Fail> {
    let text = b"twelve bytes".as_slice();
    assert_eq!(rt; write_fitting(rt.alloc(), text)?.bytes(), text);

    let read = read_hundred(rt.alloc(), text.to_vec(rt.alloc())?)?;
    assert!(rt; read.is_some_and(|bytes| bytes.as_slice() == text));
    let long = vec![in rt.alloc(); b'x'; 101]?;
    assert!(rt; read_hundred(rt.alloc(), long)?.is_none());
    Ok(())
}
