use std::test::Fail;
use streams::{StdSink, StdSource, read_whole, write_whole};

#[test]
fn a_reader_and_a_writer_pass_bytes_on(rt: HostRuntime) -> Result<(), Fail> {
    let text = b"lowered".as_slice();
    let bytes = read_whole(rt.alloc(), &mut StdSource::new(text), 100)?;
    let mut written = Vec::new(rt.alloc());
    write_whole(&mut StdSink::new(&mut written), &bytes)?;
    assert_eq!(rt; written.as_slice(), text);
    Ok(())
}

#[test]
fn a_writer_that_takes_nothing_is_a_fault(rt: HostRuntime) -> Result<(), Fail> {
    let mut room = [0u8; 3];
    let mut sink = StdSink::new(room.as_mut_slice());
    assert!(rt; write_whole(&mut sink, b"abcd").is_err());
    assert!(rt; write_whole(&mut sink, b"").is_ok());
    Ok(())
}
