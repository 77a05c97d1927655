use cfgfmt::{MemSink, MemSource, Session, run};
use std::alloc::{AllocError, Global};
use std::process::Abort;
use std::str;
use std::test::Fail;
use sym_core::Symbol;

// The words of a text.
fn words_of(alloc: Global, text: &str) -> Result<Vec<Symbol>, AllocError> {
    let mut words = Vec::new(alloc);
    for word in text.split_whitespace() {
        words.push(Symbol::new(alloc, word)?)?;
    }
    Ok(words)
}

// What a run with these words tells of a script: the status, the number of outcomes, and what is written. The source and the
// sink fail in the calls of these numbers; the sink takes ten bytes in a call.
pub(crate) fn told(
    alloc: Global,
    words: &str,
    script: Vec<u8>,
    failing_reads: &[u64],
    failing_writes: &[u64],
) -> Result<String, Fail> {
    let words = words_of(alloc, words)?;
    let mut source = MemSource::new(script, 65_536, Vec::from_slice(alloc, failing_reads)?);
    let mut sink = MemSink::new(alloc, 2_000, 10, Vec::from_slice(alloc, failing_writes)?)?;
    let mut session = Session::new(alloc)?;
    let status = run(alloc, &words, &mut source, &mut sink, &mut session);
    let calls = session.outcomes.len();
    let written = str::from_utf8(sink.bytes()).unwrap_or("no text");
    Ok(format!(in alloc; "{status} {calls}\n{written}")?)
}

// What a run without words tells of a script.
pub(crate) fn told_of(alloc: Global, script: &str) -> Result<String, Fail> {
    told(alloc, "", script.as_bytes().to_vec(alloc)?, &[], &[])
}

// Asserts what a run without words tells of a script.
pub(crate) fn assert_told(
    rt: &impl Abort,
    alloc: Global,
    script: &str,
    want: &str,
) -> Result<(), Fail> {
    let text = told_of(alloc, script)?;
    assert_eq!(rt; text.as_str(), want, "of the script {script}");
    Ok(())
}

// Each case is a script, and behind it the status, the number of calls and the output that it has.
#[test]
fn answers_scripts(rt: HostRuntime) -> Result<(), Fail> {
    let cases = [
        ("", "0 0\n"),
        (
            r#"format "hi""#,
            r#"0 1
0 code Arguments::from_str(s"6869")
"#,
        ),
        (
            "format \"hi\"\n\n\tformat\"{{}}\" \r",
            r#"0 2
0 code Arguments::from_str(s"6869")
1 code Arguments::from_str(s"7B7D")
"#,
        ),
        (
            r#"
opt a
cfg a
format "x{}y{{" @1
cfg b
format "q"
"#,
            r#"0 2
0 code { let #0 = (&@1,); let #0 = [Argument::new_display(#0.0)]; unsafe { Arguments::new(b"0178C002797B00", &#0) } }
1 off
1 reason b is disabled
1 hint enable b
"#,
        ),
        (
            r#"
format "{}" @7
format "{}"@7
"#,
            r#"0 2
0 code { let #0 = (&@7,); let #0 = [Argument::new_display(#0.0)]; unsafe { Arguments::new(b"C000", &#0) } }
1 code { let #1 = (&@7,); let #1 = [Argument::new_display(#1.0)]; unsafe { Arguments::new(b"C000", &#1) } }
"#,
        ),
        (
            r##"
# a note
format r#"a"b{}"# @3
format "a\x41"
"##,
            r#"0 2
0 code { let #0 = (&@3,); let #0 = [Argument::new_display(#0.0)]; unsafe { Arguments::new(b"03612262C000", &#0) } }
1 code Arguments::from_str(s"6141")
"#,
        ),
        // Words of any script that Unicode has, and a string over two lines.
        (
            r#"
opt π
cfg π
format "a
b"
cfg é
format ""
"#,
            r#"0 2
0 code Arguments::from_str(s"610A62")
1 off
1 reason é is disabled
1 hint enable é
"#,
        ),
    ];
    for (script, want) in cases {
        assert_told(&rt, rt.alloc(), script, want)?;
    }
    Ok(())
}

#[test]
fn gates_calls_by_their_predicates(rt: HostRuntime) -> Result<(), Fail> {
    let cases = [
        // An option counts wherever it stands, and a predicate behind the last call has no effect.
        (
            "cfg a\nformat \"\"\nopt a\ncfg b",
            "0 1\n0 code Arguments::from_str(s\"\")\n",
        ),
        // Each predicate by itself, and for the next call alone.
        (
            "opt a\ncfg a\ncfg b\nformat \"\"\nformat \"\"",
            "0 2\n0 off\n0 reason b is disabled\n0 hint enable b\n1 code Arguments::from_str(s\"\")\n",
        ),
        // What has a reserved name or key changes nothing: `true` is set, and nothing sets `false`.
        (
            "opt true = \"x\"\nopt false\ncfg true\nformat \"\"\ncfg false\nformat \"\"",
            "0 2\n0 code Arguments::from_str(s\"\")\n1 off\n1 reason false is disabled\n",
        ),
        // A part that is no predicate decides nothing, and `all` goes on behind it.
        (
            "cfg all(windows, 5)\nformat \"\"\ncfg all(5, windows)\nformat \"\"",
            "0 2\n0 off\n1 code Arguments::from_str(s\"\")\n",
        ),
        // Of token trees, `not` reads its first part; as syntax it has one part or is no predicate.
        (
            "opt a\ncfg not(a, b)\nformat \"\"\nattr not(a, b)\nformat \"\"",
            "0 2\n0 off\n0 reason a is enabled\n0 hint disable a\n1 code Arguments::from_str(s\"\")\n",
        ),
        (
            "opt k = \"v\"\ncfg k = \"v\"\nformat \"\"\nattr k = r\"w\"\nformat \"\"",
            "0 2\n0 code Arguments::from_str(s\"\")\n1 off\n1 reason k = \"w\" is disabled\n1 hint enable k = \"w\"\n",
        ),
        // Each predicate is looked at by itself: what evaluates to nothing switches nothing on.
        ("cfg 5\ncfg false\nformat \"\"", "0 1\n0 off\n"),
        // The last answer for a version counts, and one without an answer is neither true nor false.
        (
            "version \"1\" no\nversion \"1\" yes\ncfg version(\"1\")\nformat \"\"\ncfg version(\"2\")\nformat \"\"",
            "0 2\n0 code Arguments::from_str(s\"\")\n1 code Arguments::from_str(s\"\")\n",
        ),
        (
            "version \"9.0\" no\nattr version(\"9.0\")\nformat \"\"\ncfg any(version(\"2\"), a)\nformat \"\"",
            "0 2\n0 off\n0 reason\n1 code Arguments::from_str(s\"\")\n",
        ),
    ];
    for (script, want) in cases {
        assert_told(&rt, rt.alloc(), script, want)?;
    }
    Ok(())
}

// The script of `examples/compiler.script` without its comments.
#[test]
fn gates_calls_by_the_compilers_options(rt: HostRuntime) -> Result<(), Fail> {
    let script = r#"
opt debug_assertions
opt panic="unwind"
opt target_abi=""
opt target_arch="x86_64"
opt target_endian="little"
opt target_env="gnu"
opt target_family="unix"
opt target_feature="fxsr"
opt target_feature="sse"
opt target_feature="sse2"
opt target_has_atomic="16"
opt target_has_atomic="32"
opt target_has_atomic="64"
opt target_has_atomic="8"
opt target_has_atomic="ptr"
opt target_os="linux"
opt target_pointer_width="64"
opt target_vendor="unknown"
opt unix
cfg all(unix, target_pointer_width = "64")
format "{} bytes\n" @1
cfg windows
format "{}\r\n" @2
attr any(target_feature = "sse2", target_feature = "neon")
format "wide {}" @3
cfg not(debug_assertions)
format ""
"#;
    let want = r#"0 4
0 code { let #0 = (&@1,); let #0 = [Argument::new_display(#0.0)]; unsafe { Arguments::new(b"C0072062797465730A00", &#0) } }
1 off
1 reason windows is disabled
1 hint enable windows
2 code { let #1 = (&@3,); let #1 = [Argument::new_display(#1.0)]; unsafe { Arguments::new(b"057769646520C000", &#1) } }
3 off
3 reason debug_assertions is enabled
3 hint disable debug_assertions
"#;
    assert_eq!(rt; told_of(rt.alloc(), script)?.as_str(), want);
    Ok(())
}

#[test]
fn refuses_what_is_no_script(rt: HostRuntime) -> Result<(), Fail> {
    let cases: [(&[u8], u64); 9] = [
        (b"cfg all(a", 1),
        (b"cfg a)", 1),
        (b"\nattr all(a,,b)", 2),
        (b"attr", 1),
        (b"opt a =", 1),
        (b"version \"1\" maybe", 1),
        (b"\n\n\xff", 3),
        (b"opt a\nformat \"a", 2),
        // The line feed in a string counts.
        (b"format \"a\nb\"\nformat {", 3),
    ];
    for (script, line) in cases {
        let want = format!(in rt.alloc(); "3 0\nerror syntax at line {line}\n")?;
        let text = told(rt.alloc(), "", script.to_vec(rt.alloc())?, &[], &[])?;
        assert_eq!(rt; text.as_str(), want.as_str(), "of the script {script:?}");
    }
    Ok(())
}

// A line with this keyword, so many times `not(`, `a` and as many `)`, and a call behind it.
fn nested(alloc: Global, keyword: &str, depth: usize) -> Result<String, AllocError> {
    let mut text = String::from_str(alloc, keyword)?;
    for _ in 0..depth {
        text.push_str(" not(")?;
    }
    text.push_str("a")?;
    for _ in 0..depth {
        text.push_str(")")?;
    }
    text.push_str("\nformat \"\"\n")?;
    Ok(text)
}

#[test]
fn nests_to_a_depth_of_128(rt: HostRuntime) -> Result<(), Fail> {
    let cases = [
        (
            "cfg",
            128,
            "0 1\n0 off\n0 reason a is disabled\n0 hint enable a\n",
        ),
        ("cfg", 129, "3 0\nerror syntax at line 1\n"),
        (
            "attr",
            128,
            "0 1\n0 off\n0 reason a is disabled\n0 hint enable a\n",
        ),
        ("attr", 129, "3 0\nerror syntax at line 1\n"),
    ];
    for (keyword, depth, want) in cases {
        let script = nested(rt.alloc(), keyword, depth)?;
        let text = told_of(rt.alloc(), script.as_str())?;
        assert_eq!(rt; text.as_str(), want, "of {keyword} and {depth} brackets");
    }
    Ok(())
}

#[test]
fn tells_what_failed(rt: HostRuntime) -> Result<(), Fail> {
    let script = b"format \"hi\"".as_slice();
    let whole = "0 1\n0 code Arguments::from_str(s\"6869\")\n";
    let cases: [(&str, &[u64], &[u64], &str); 4] = [
        ("run", &[], &[], whole),
        // The source fails where it would tell its end.
        ("", &[1], &[], "4 0\nerror read\n"),
        // The sink fails behind ten bytes of the output, and then at an error line.
        ("", &[], &[1], "5 1\n0 code Arg"),
        ("foo", &[], &[0], "5 0\n"),
    ];
    for (words, failing_reads, failing_writes, want) in cases {
        let bytes = script.to_vec(rt.alloc())?;
        let text = told(rt.alloc(), words, bytes, failing_reads, failing_writes)?;
        assert_eq!(rt; text.as_str(), want, "with the words {words}");
    }
    Ok(())
}

// Words ask for a script that is read, or for one that is made; no others ask for anything.
#[test]
fn does_what_words_ask_for(rt: HostRuntime) -> Result<(), Fail> {
    let many = "0 1001\ncalls 1001\noff 250\ncode 751\nhints 500\nexprs 370509\n";
    let usage = "2 0\nerror usage\n";
    let cases = [
        ("", "4 0\nerror read\n"),
        ("run", "4 0\nerror read\n"),
        ("gen 0", "0 1\ncalls 1\noff 0\ncode 1\nhints 0\nexprs 3\n"),
        ("gen 4", "0 5\ncalls 5\noff 1\ncode 4\nhints 2\nexprs 75\n"),
        (
            "gen 0000000004",
            "0 5\ncalls 5\noff 1\ncode 4\nhints 2\nexprs 75\n",
        ),
        (
            "gen 1000",
            "0 1001\ncalls 1001\noff 250\ncode 751\nhints 500\nexprs 16509\n",
        ),
        ("gen 60000", many),
        ("gen 4294967295", many),
        ("gen 4294967296", usage),
        ("gen 00000000004", usage),
        ("gen +4", usage),
        ("gen", usage),
        ("gen 4 4", usage),
        ("foo", usage),
        ("foo 4", usage),
        ("run run", usage),
    ];
    for (words, want) in cases {
        // The source fails in its first call, and is not read for a script that is made.
        let text = told(rt.alloc(), words, Vec::new(rt.alloc()), &[0], &[])?;
        assert_eq!(rt; text.as_str(), want, "with the words {words}");
    }
    Ok(())
}

#[test]
fn reads_no_more_than_the_limit(rt: HostRuntime) -> Result<(), Fail> {
    let alloc = rt.alloc();
    for (length, want) in [(16_777_216, "0 0\n"), (16_777_217, "9 0\nerror too long\n")] {
        let lines = vec![in alloc; b'\n'; length]?;
        let text = told(alloc, "", lines, &[], &[])?;
        assert_eq!(rt; text.as_str(), want, "of {length} line feeds");
    }
    Ok(())
}
