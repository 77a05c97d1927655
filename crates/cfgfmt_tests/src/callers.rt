// Callers that know of `run` what its contract says, and nothing else.

ghost use Rattle.std.specs.Prelude.{◌≡◌, ◌≢◌, ◌++◌, ◌∷◌, [], IfOk, codes};
ghost use Rattle.std.specs.Fmt.{decimal};
ghost use Rattle.cfgfmt.specs.Refusal.{IsFaulty};
ghost use Rattle.cfgfmt.specs.Run.{IsSmall};

use cfgfmt::{MemSink, MemSource, Session, SureSink, SureSource, run};
use std::alloc::{AllocError, Global};
use std::test::Fail;

// A run over a script in memory and a sink with room for a thousand bytes: where the status is 3, what is written is the line of the
// first broken item.
fn run_in_memory(alloc: Global, script: Vec<u8>) -> Result<(u8, MemSink), AllocError>
    ensures { IfOk result (λ r. r.0 ≡ 3 → (line : _) × IsFaulty script.items line × (r.1.bytes ≡ codes "error syntax at line " ++ decimal line ++ codes "\n")) }
{
    let mut source = MemSource::new(script, 4096, Vec::new(alloc));
    let mut sink = MemSink::new(alloc, 1_000, 1_000, Vec::new(alloc))?;
    let mut session = Session::new(alloc)?;
    let status = run(alloc, &[], &mut source, &mut sink, &mut session);
    Ok((status, sink))
}

// A run over a script in memory and a sink with this room: the source is never blamed, and the sink only where its room was less
// than 64 bytes, or less than the output.
fn run_surely(
    alloc: Global,
    script: Vec<u8>,
    room: usize,
) -> Result<(u8, SureSink, Session), AllocError>
    ensures source { IfOk result (λ r. r.0 ≢ 4) }
    ensures sink { IfOk result (λ r. r.0 ≡ 5 → IsSmall [] r.2 room) }
{
    let mut source = SureSource::new(script);
    let mut sink = SureSink::with_room(alloc, room)?;
    let mut session = Session::new(alloc)?;
    let status = run(alloc, &[], &mut source, &mut sink, &mut session);
    Ok((status, sink, session))
}

// The room is that of the output.
#[test]
fn runs_surely(rt: HostRuntime) -> Result<(), Fail> {
    let script = b"format \"{0} {0:x} {0} {1}\" @1 @2".to_vec(rt.alloc())?;
    let line =
        b"0 code { let #0 = (&@1, &@2); let #0 = [Argument::new_display(#0.0), Argument::new_lower_hex(#0.0), Argument::new_display(#0.1)]; unsafe { Arguments::new(b\"C00120C00120C800000120C8020000\", &#0) } }\n";
    let (status, sink, session) = run_surely(rt.alloc(), script, line.len())?;
    assert_eq!(rt; status, 0);
    assert_eq!(rt; sink.bytes(), line.as_slice());
    assert_eq!(rt; session.outcomes.len(), 1);
    Ok(())
}

#[test]
fn runs_in_memory(rt: HostRuntime) -> Result<(), Fail> {
    let (status, sink) = run_in_memory(rt.alloc(), b"\nformat {".to_vec(rt.alloc())?)?;
    assert_eq!(rt; status, 3);
    assert_eq!(rt; sink.bytes(), b"error syntax at line 2\n".as_slice());
    Ok(())
}

// The example of `run`.
#[test]
fn runs_a_call(rt: HostRuntime) -> Result<(), Fail> {
    let alloc = rt.alloc();
    let mut source = MemSource::new(b"format \"hi\"".to_vec(alloc)?, 4096, Vec::new(alloc));
    let mut sink = MemSink::new(alloc, 1_000, 1_000, Vec::new(alloc))?;
    let mut session = Session::new(alloc)?;
    assert_eq!(rt; run(alloc, &[], &mut source, &mut sink, &mut session), 0);
    assert_eq!(rt;
        sink.bytes(),
        b"0 code Arguments::from_str(s\"6869\")\n".as_slice()
    );
    Ok(())
}
