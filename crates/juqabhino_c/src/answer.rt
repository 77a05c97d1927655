ghost use Rattle.std.specs.Prelude.{IfOk};
ghost use Rattle.juqabhino_c.specs.Words.{words_of};
ghost use Rattle.juqabhino_c.specs.InMemory.{IsAnswer};

use crate::growing::GrowingSink;
use crate::words::words_of;
use cfgfmt::{Session, SureSource, run};
use std::alloc::{AllocError, Global};
use sym_core::Symbol;

// Runs the program over words and a script in memory: its status, and the sink that holds what it wrote.
fn run_words(
    alloc: Global,
    words: &[Symbol],
    script: &[u8],
) -> Result<(u8, GrowingSink), AllocError>
    ensures { IfOk result (λ r. IsAnswer words.now script.now r.0 r.1.bytes) }
{
    let mut source = SureSource::new(script.to_vec(alloc)?);
    let mut sink = GrowingSink::new(alloc);
    let mut session = Session::new(alloc)?;
    let status = run(alloc, words, &mut source, &mut sink, &mut session);
    if status == 5 {
        return Err(AllocError);
    }
    Ok((status, sink))
}

// The same of words in one text.
pub(crate) fn answer(
    alloc: Global,
    words: &str,
    script: &[u8],
) -> Result<(u8, GrowingSink), AllocError>
    ensures { IfOk result (λ r. IsAnswer (words_of words.now) script.now r.0 r.1.bytes) }
{
    let words = words_of(alloc, words)?;
    run_words(alloc, words.as_slice(), script)
}

#[cfg(test)]
mod tests {
    use super::*;
    use crate::handing::hand_out;
    use std::test::Fail;

    #[test]
    fn answers_in_memory(rt: HostRuntime) -> Result<(), Fail> {
        let line = b"0 code Arguments::from_str(s\"6869\")\n".as_slice();
        let (status, sink) = answer(rt.alloc(), "", b"format \"hi\"")?;
        assert_eq!(rt; status, 0);
        assert_eq!(rt; sink.bytes(), line);
        let mut told = 0;
        let mut small = [1; 30];
        assert_eq!(rt; hand_out(status, sink.bytes(), &mut small, &mut told), 5);
        assert_eq!(rt; told, line.len());
        assert!(rt; small.iter().all(|byte| *byte == 1));
        let mut room = [1; 40];
        assert_eq!(rt; hand_out(status, sink.bytes(), &mut room, &mut told), 0);
        assert!(rt; room.starts_with(line));
        Ok(())
    }

    #[test]
    fn answers_words(rt: HostRuntime) -> Result<(), Fail> {
        let cases = [
            ("gen 4", 0, "calls 5\noff 1\ncode 4\nhints 2\nexprs 75\n"),
            ("run", 0, "0 code Arguments::from_str(s\"6869\")\n"),
            ("gen", 2, "error usage\n"),
            ("gen  4", 2, "error usage\n"),
            (" ", 2, "error usage\n"),
        ];
        for (words, want, output) in cases {
            let (status, sink) = answer(rt.alloc(), words, b"format \"hi\"")?;
            assert_eq!(rt; status, want, "of {words}");
            assert_eq!(rt; sink.bytes(), output.as_bytes(), "of {words}");
        }
        Ok(())
    }
}
