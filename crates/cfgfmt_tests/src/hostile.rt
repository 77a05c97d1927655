// Scripts that are cut short, names that are reserved, versions, and an outside that fails at any of its calls.

use super::tests::{assert_told, told};
use cfgfmt::{MemSink, MemSource, Session, run};
use std::alloc::{AllocError, Global};
use std::test::Fail;

// A script is whole where it is cut behind an item, and else broken in the line of the item that is cut.
#[test]
fn answers_a_script_that_is_cut_anywhere(rt: HostRuntime) -> Result<(), Fail> {
    let script = b"opt b\ncfg all(a, not(b))\nformat \"\"\n".as_slice();
    let off = "0 1\n0 off\n0 reason b is enabled and a is disabled\n0 hint enable a; disable b\n";
    for length in 0..=script.len() {
        let want = match length {
            0 | 5 | 6 | 9..=13 | 24 | 25 => "0 0\n",
            34 | 35 => off,
            1..=4 => "3 0\nerror syntax at line 1\n",
            7..=23 => "3 0\nerror syntax at line 2\n",
            _ => "3 0\nerror syntax at line 3\n",
        };
        let front = script[..length].to_vec(rt.alloc())?;
        let text = told(rt.alloc(), "", front, &[], &[])?;
        assert_eq!(rt; text.as_str(), want, "of {length} bytes");
    }
    Ok(())
}

#[test]
fn tells_why_reserved_names_and_versions_are_off(rt: HostRuntime) -> Result<(), Fail> {
    let cases = [
        (
            "opt true = \"x\"\ncfg true = \"x\"\nformat \"\"\ncfg not(true)\nformat \"\"\ncfg any(a, 5)\nformat \"\"",
            "0 3\n0 off\n0 reason true = \"x\" is disabled\n1 off\n1 reason true is enabled\n2 code Arguments::from_str(s\"\")\n",
        ),
        (
            "version \"1.70\" yes\nversion \"9.0\" no\ncfg version(\"1.70\")\nformat \"a\"\ncfg all(a, version(\"9.0\"))\nformat \"b\"\ncfg any(version(\"2\"), a)\nformat \"c\"\ncfg all(version(\"1.70\"), a)\nformat \"d\"\nattr version(\"9.0\")\nformat \"e\"",
            "0 5\n0 code Arguments::from_str(s\"61\")\n1 off\n1 reason a is disabled\n2 code Arguments::from_str(s\"63\")\n3 off\n3 reason a is disabled\n3 hint enable a\n4 off\n4 reason\n",
        ),
    ];
    for (script, want) in cases {
        assert_told(&rt, rt.alloc(), script, want)?;
    }
    Ok(())
}

// Scripts with format calls, macros, assembly and options, and what a run prints of them.
const SCRIPTS: [(&str, &str); 4] = [
    (
        "format \"{0} {0:x} {0} {1}\" @1 @2\n",
        "0 code { let #0 = (&@1, &@2); let #0 = [Argument::new_display(#0.0), Argument::new_lower_hex(#0.0), Argument::new_display(#0.1)]; unsafe { Arguments::new(b\"C00120C00120C800000120C8020000\", &#0) } }\n",
    ),
    (
        "limit 1\nmacro m1 => m2!\nmacro m2 => m3!\nmacro m3 => \"hi\"\nformat m1! @1\nformat m2!\n",
        "0 code { @1; Arguments::from_str(s\"\") }\n1 code Arguments::from_str(s\"6869\")\n",
    ),
    (
        "asm \"{} {x}\", \"{}\"; in reg @1; in reg @2; x = in reg @3\n",
        "0 code asm!(in(reg) @1, in(reg) @2, x = in(reg) @3)\n0 map 0 2..2 0\n0 map 0 5..6 2\n0 map 1 2..2 1\n",
    ),
    (
        "opt unix\nopt debug_assertions\nopt test\nopt target_os = \"linux\"\nopt target_arch = \"x86_64\"\nopt feature = \"net\"\ncfg all(unix, feature = \"net\")\nformat \"{name:>8}: {:?}\\n\" @1\ncfg windows\nformat \"{0:02x}\\n\" @2\n",
        "0 code { let #0 = (&@1, &name); let #0 = [Argument::new_display(#0.1), Argument::new_debug(#0.0)]; unsafe { Arguments::new(b\"C3200000280800023A20C0010A00\", &#0) } }\n1 off\n1 reason windows is disabled\n1 hint enable windows\n",
    ),
];

// The status of a run, and what it writes, where the source gives one byte in a call and the sink takes seven, and the
// calls of these numbers fail.
fn run_by_pieces(
    alloc: Global,
    script: &str,
    failing_reads: &[u64],
    failing_writes: &[u64],
) -> Result<(u8, MemSink), AllocError> {
    let bytes = script.as_bytes().to_vec(alloc)?;
    let mut source = MemSource::new(bytes, 1, Vec::from_slice(alloc, failing_reads)?);
    let mut sink = MemSink::new(alloc, 2_000, 7, Vec::from_slice(alloc, failing_writes)?)?;
    let mut session = Session::new(alloc)?;
    let status = run(alloc, &[], &mut source, &mut sink, &mut session);
    Ok((status, sink))
}

#[test]
fn tells_of_each_call_of_a_source_that_fails(rt: HostRuntime) -> Result<(), Fail> {
    for (script, _) in SCRIPTS {
        for call in 0..=script.len() {
            let (status, sink) = run_by_pieces(rt.alloc(), script, &[call as u64], &[])?;
            assert_eq!(rt; status, 4, "where call {call} of the source fails");
            assert!(rt; sink.bytes() == b"error read\n".as_slice());
        }
    }
    Ok(())
}

#[test]
fn writes_up_to_each_call_of_a_sink_that_fails(rt: HostRuntime) -> Result<(), Fail> {
    for (script, want) in SCRIPTS {
        for call in 0..want.len().div_ceil(7) {
            let (status, sink) = run_by_pieces(rt.alloc(), script, &[], &[call as u64])?;
            assert_eq!(rt; status, 5, "where call {call} of the sink fails");
            assert!(rt; sink.bytes() == &want.as_bytes()[..7 * call]);
        }
    }
    Ok(())
}

// Where neither fails all is written, and where both do nothing is.
#[test]
fn writes_all_or_nothing(rt: HostRuntime) -> Result<(), Fail> {
    for (script, want) in SCRIPTS {
        let (status, sink) = run_by_pieces(rt.alloc(), script, &[], &[])?;
        assert_eq!(rt; status, 0);
        assert!(rt; sink.bytes() == want.as_bytes());
        let (status, sink) = run_by_pieces(rt.alloc(), script, &[0], &[0])?;
        assert_eq!(rt; status, 5);
        assert!(rt; sink.bytes().is_empty());
    }
    Ok(())
}

// A script with every item.
const ITEMS: &[u8] =
    b"# a\nopt k = \"v\"\nversion \"1\" yes\nlimit 9\nnolang argument\nmacro m => \"{}\"\ncfg all(a, not(k = \"v\"))\nattr any(b, version(\"1\"))\nformat m! @1 n = ?\nasm \"{n}\", r#\"{}\"#; cfg(b) n = inout \"eax\" @2 => _; options(raw)\n";

// Whatever byte stands at a place of a script, the script is answered, or the line of a fault is told.
#[test]
fn answers_every_byte_at_every_place(rt: HostRuntime) -> Result<(), Fail> {
    for place in 0..ITEMS.len() {
        for byte in 0..=255 {
            let mut script = ITEMS.to_vec(rt.alloc())?;
            script[place] = byte;
            let text = told(rt.alloc(), "", script, &[], &[])?;
            let text = text.as_str();
            assert!(rt; text.starts_with("0 ") || text.starts_with("3 0\nerror syntax at line "));
        }
    }
    Ok(())
}
