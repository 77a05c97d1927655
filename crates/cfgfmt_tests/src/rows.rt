// Rows of scripts: macros, limits, language items, templates and arguments, and what a run prints of them.

use super::tests::{assert_told, told_of};
use cfgfmt::{MemSink, MemSource, Session, run};
use std::alloc::{AllocError, Global};
use std::test::Fail;

// Why calls are off, and what switches them on.
#[test]
fn tells_reasons_and_hints(rt: HostRuntime) -> Result<(), Fail> {
    let cases = [
        // No conjunction at all; and the atom that nothing can set.
        ("cfg any()", "0 off\n0 reason\n"),
        ("cfg false", "0 off\n0 reason false is disabled\n"),
        (
            "opt b\ncfg all(a, not(b))",
            "0 off\n0 reason b is enabled and a is disabled\n0 hint enable a; disable b\n",
        ),
        (
            "cfg all(any(a, b), c)",
            "0 off\n0 reason a, b and c are disabled\n0 hint enable a and c\n0 hint enable b and c\n",
        ),
        // Predicates are taken together, and a hint makes each of them true.
        (
            "cfg a\nattr any(b, c)",
            "0 off\n0 reason a, b and c are disabled\n0 hint enable a and b\n0 hint enable a and c\n",
        ),
        // What contradicts itself gives no hint, and what is no predicate no reason.
        ("cfg all(a, not(a))", "0 off\n0 reason a is disabled\n"),
        ("cfg all(a, 5)", "0 off\n"),
        // A version without an answer is open; one whose answer is no stays as it is.
        ("cfg all(a, version(\"1\"))", "0 off\n"),
        (
            "version \"1\" no\ncfg any(a, version(\"1\"))",
            "0 off\n0 reason a is disabled\n0 hint enable a\n",
        ),
        (
            "version \"1\" yes\nattr all(a, version(\"1\"))",
            "0 off\n0 reason a is disabled\n0 hint enable a\n",
        ),
    ];
    for (predicates, want) in cases {
        let script = format!(in rt.alloc(); "{predicates}\nformat \"\"")?;
        let want = format!(in rt.alloc(); "0 1\n{want}")?;
        assert_eq!(rt;
            told_of(rt.alloc(), script.as_str())?.as_str(),
            want.as_str(),
            "of the predicates {predicates}"
        );
    }
    Ok(())
}

// Texts with placeholders of every kind; what they refer to may be written, captured, or not there.
#[test]
fn prints_code(rt: HostRuntime) -> Result<(), Fail> {
    let cases = [
        // Texts without a placeholder, and literals with escapes and marks.
        (
            "format \"hi\"",
            "0 1\n0 code Arguments::from_str(s\"6869\")\n",
        ),
        (
            "format \"{{}}\"",
            "0 1\n0 code Arguments::from_str(s\"7B7D\")\n",
        ),
        // An escape is replaced before the text is read, and a raw literal has none.
        (
            "format \"a\\x41\"",
            "0 1\n0 code Arguments::from_str(s\"6141\")\n",
        ),
        (
            "format \"\\u{7b}{\"",
            "0 1\n0 code Arguments::from_str(s\"7B\")\n",
        ),
        (
            "format r\"a\\q\"",
            "0 1\n0 code Arguments::from_str(s\"615C71\")\n",
        ),
        (
            "format r#\"a\"b{}\"# @3",
            "0 1\n0 code { let #0 = (&@3,); let #0 = [Argument::new_display(#0.0)]; unsafe { Arguments::new(b\"03612262C000\", &#0) } }\n",
        ),
        (
            "format \"x{}y{{\" @1",
            "0 1\n0 code { let #0 = (&@1,); let #0 = [Argument::new_display(#0.0)]; unsafe { Arguments::new(b\"0178C002797B00\", &#0) } }\n",
        ),
        // An argument under two traits, and one that is referred to again.
        (
            "format \"{0} {0:x} {0} {1}\" @1 @2",
            "0 1\n0 code { let #0 = (&@1, &@2); let #0 = [Argument::new_display(#0.0), Argument::new_lower_hex(#0.0), Argument::new_display(#0.1)]; unsafe { Arguments::new(b\"C00120C00120C800000120C8020000\", &#0) } }\n",
        ),
        // A width; the zero flag and the width 0; an argument that is its own width.
        (
            "format \"{:5}\" @7",
            "0 1\n0 code { let #0 = (&@7,); let #0 = [Argument::new_display(#0.0)]; unsafe { Arguments::new(b\"C320000068050000\", &#0) } }\n",
        ),
        (
            "format \"{:00}\" @7",
            "0 1\n0 code { let #0 = (&@7,); let #0 = [Argument::new_display(#0.0)]; unsafe { Arguments::new(b\"C12000006900\", &#0) } }\n",
        ),
        (
            "format \"{:0$}\" @1",
            "0 1\n0 code { let #0 = (&@1,); let #0 = [Argument::new_display(#0.0), Argument::from_usize(#0.0)]; unsafe { Arguments::new(b\"D320000068010000\", &#0) } }\n",
        ),
        // Names that are captured, the precision before the width.
        (
            "format \"{x:>w$.p$}\"",
            "0 1\n0 code { let #0 = (&x, &p, &w); let #0 = [Argument::new_display(#0.0), Argument::from_usize(#0.2), Argument::from_usize(#0.1)]; unsafe { Arguments::new(b\"F7200000380100020000\", &#0) } }\n0 use x 2..3\n0 use p 8..9\n0 use w 5..6\n",
        ),
        // A literal with an escape has no spans.
        (
            "format \"{name:>8}: {:?}\\n\" @1",
            "0 1\n0 code { let #0 = (&@1, &name); let #0 = [Argument::new_display(#0.1), Argument::new_debug(#0.0)]; unsafe { Arguments::new(b\"C3200000280800023A20C0010A00\", &#0) } }\n",
        ),
        // A precision that comes before its value.
        (
            "format \"{:.*}\" @1 @2",
            "0 1\n0 code { let #0 = (&@1, &@2); let #0 = [Argument::new_display(#0.1), Argument::from_usize(#0.0)]; unsafe { Arguments::new(b\"E520000070010000\", &#0) } }\n",
        ),
        // An argument that nothing refers to, and a reference without an argument.
        (
            "format \"{}\" @1 @2",
            "0 1\n0 code { let #0 = (&@1, &@2); let #0 = [Argument::new_display(#0.0)]; @2; unsafe { Arguments::new(b\"C000\", &#0) } }\n",
        ),
        (
            "format \"{0}\"",
            "0 1\n0 code unsafe { Arguments::new(b\"C000\", &[]) }\n",
        ),
        // A named argument is used under its name; one without an expression is missing.
        (
            "format \"{x}\" x=@3",
            "0 1\n0 code { let #0 = (&@3,); let #0 = [Argument::new_display(#0.0)]; unsafe { Arguments::new(b\"C000\", &#0) } }\n0 use x 2..3\n",
        ),
        // Written arguments that bear a name have a place too.
        (
            "format \"{}{}{}\" @3 ? n=@5",
            "0 1\n0 code { let #0 = (&@3, &missing, &@5); let #0 = [Argument::new_display(#0.0), Argument::new_display(#0.1), Argument::new_display(#0.2)]; unsafe { Arguments::new(b\"C0C0C000\", &#0) } }\n",
        ),
        (
            "format \"{}{}\" @3 ?",
            "0 1\n0 code { let #0 = (&@3, &missing); let #0 = [Argument::new_display(#0.0), Argument::new_display(#0.1)]; unsafe { Arguments::new(b\"C0C000\", &#0) } }\n",
        ),
    ];
    for (script, want) in cases {
        assert_told(&rt, rt.alloc(), script, want)?;
    }
    Ok(())
}

#[test]
fn expands_macros(rt: HostRuntime) -> Result<(), Fail> {
    let cases = [
        // The third nesting is too deep, and the next call is untouched.
        (
            "limit 1\nmacro m1 => m2!\nmacro m2 => m3!\nmacro m3 => \"hi\"\nformat m1! @1\nformat m2!",
            "0 2\n0 code { @1; Arguments::from_str(s\"\") }\n1 code Arguments::from_str(s\"6869\")\n",
        ),
        // No name is captured from an expansion.
        (
            "macro m => \"{x}\"\nformat m! @1",
            "0 1\n0 code { let #0 = (&@1,); let #0 = [Argument::new_display(#0.18446744073709551615)]; @1; unsafe { Arguments::new(b\"C000\", &#0) } }\n",
        ),
        (
            "opt unix\nopt feature = \"net\"\nmacro greeting => \"{}, {name}!\"\ncfg all(unix, feature = \"net\")\nformat greeting! @1 name = @2\n",
            "0 1\n0 code { let #0 = (&@1, &@2); let #0 = [Argument::new_display(#0.0), Argument::new_display(#0.1)]; unsafe { Arguments::new(b\"C0022C20C0012100\", &#0) } }\n",
        ),
        // A macro that leads to itself reaches no literal.
        (
            "macro m => m!\nformat m! @1\nformat \"x\"",
            "0 2\n0 code { @1; Arguments::from_str(s\"\") }\n1 code Arguments::from_str(s\"78\")\n",
        ),
        (
            "limit 1025\nmacro m => m!\nformat m! @1\nformat \"x\"",
            "3 0\nerror syntax at line 1\n",
        ),
        (
            "limit 0\nmacro m => \"hi\"\nformat m!",
            "0 1\n0 code Arguments::from_str(s\"6869\")\n",
        ),
        // The last limit and the last definition of a name count, wherever they stand.
        (
            "format m!\nlimit 1\nmacro m => n!\nmacro n => o!\nmacro o => \"a\"\nmacro m => o!\nlimit 2",
            "0 1\n0 code Arguments::from_str(s\"61\")\n",
        ),
        // No macro of this name, no name, no expansion, no literal.
        (
            "macro m => ?\nmacro o => @1\nformat n!\nformat ! @2\nformat m!\nformat o!",
            "0 4\n0 code Arguments::from_str(s\"\")\n1 code { @2; Arguments::from_str(s\"\") }\n2 code Arguments::from_str(s\"\")\n3 code Arguments::from_str(s\"\")\n",
        ),
        (
            "format ? @1\nformat @1 @2",
            "0 2\n0 code { @1; Arguments::from_str(s\"\") }\n1 code { @2; Arguments::from_str(s\"\") }\n",
        ),
    ];
    for (script, want) in cases {
        assert_told(&rt, rt.alloc(), script, want)?;
    }
    Ok(())
}

#[test]
fn lowers_arguments(rt: HostRuntime) -> Result<(), Fail> {
    let cases = [
        (
            "format \"{} {x}\" @1 x = @2",
            "0 1\n0 code { let #0 = (&@1, &@2); let #0 = [Argument::new_display(#0.0), Argument::new_display(#0.1)]; unsafe { Arguments::new(b\"C00120C000\", &#0) } }\n0 use x 5..6\n",
        ),
        (
            "format \"{}\" ?",
            "0 1\n0 code { let #0 = (&missing,); let #0 = [Argument::new_display(#0.0)]; unsafe { Arguments::new(b\"C000\", &#0) } }\n",
        ),
        (
            "format \"{x}\" x = ?",
            "0 1\n0 code { let #0 = (&missing,); let #0 = [Argument::new_display(#0.0)]; unsafe { Arguments::new(b\"C000\", &#0) } }\n0 use x 2..3\n",
        ),
        // A language item that is not there.
        (
            "nolang arguments\nformat \"hi\"",
            "0 1\n0 code missing(s\"6869\")\n",
        ),
        (
            "format \"{} {x}\" @1 x = @2\nnolang argument\n",
            "0 1\n0 code { let #0 = (&@1, &@2); let #0 = [missing(#0.0), missing(#0.1)]; unsafe { Arguments::new(b\"C00120C000\", &#0) } }\n0 use x 5..6\n",
        ),
        (
            "nolang arguments\nformat \"{}\" @1",
            "0 1\n0 code { let #0 = (&@1,); let #0 = [Argument::new_display(#0.0)]; unsafe { missing(b\"C000\", &#0) } }\n",
        ),
        // A script as people write it.
        (
            "opt unix\nopt debug_assertions\nopt test\nopt target_os = \"linux\"\nopt target_arch = \"x86_64\"\nopt feature = \"net\"\ncfg all(unix, feature = \"net\")\nformat \"{name:>8}: {:?}\\n\" @1\ncfg windows\nformat \"{0:02x}\\n\" @2\n",
            "0 2\n0 code { let #0 = (&@1, &name); let #0 = [Argument::new_display(#0.1), Argument::new_debug(#0.0)]; unsafe { Arguments::new(b\"C3200000280800023A20C0010A00\", &#0) } }\n1 off\n1 reason windows is disabled\n1 hint enable windows\n",
        ),
    ];
    for (script, want) in cases {
        assert_told(&rt, rt.alloc(), script, want)?;
    }
    Ok(())
}

// A text that is no format string counts as empty, and its argument is evaluated.
#[test]
fn passes_over_broken_texts(rt: HostRuntime) -> Result<(), Fail> {
    let want = "0 1\n0 code { @1; Arguments::from_str(s\"\") }\n";
    for text in [
        "{", "}", "{:", "{0", "{:65536}", "{a b}", "{:.}", "{_}", "{:}<", "\\q",
    ] {
        let script = format!(in rt.alloc(); "format \"{text}\" @1")?;
        assert_eq!(rt;
            told_of(rt.alloc(), script.as_str())?.as_str(),
            want,
            "of the text {text}"
        );
    }
    Ok(())
}

// A text that the template has in two chunks, the first of which ends where a character does.
#[test]
fn prints_long_texts(rt: HostRuntime) -> Result<(), Fail> {
    let alloc = rt.alloc();
    let text = "é".repeat(alloc, 32_768)?;
    let script = format!(in alloc; "format \"{text}{{}}\" @1")?;
    let first = "C3A9".repeat(alloc, 32_767)?;
    let want = format!(in alloc;
        "0 code {{ let #0 = (&@1,); let #0 = [Argument::new_display(#0.0)]; unsafe {{ Arguments::new(b\"80FEFF{first}02C3A9C000\", &#0) }} }}\n"
    )?;
    let sink = written(alloc, script.as_str())?;
    assert!(rt; sink.bytes() == want.as_bytes());
    Ok(())
}

// The array of the pairs: each of 65,537 arguments as it is, and the last one as a width.
fn wide_pairs(alloc: Global) -> Result<String, AllocError> {
    let mut pairs = String::new(alloc);
    for place in 0..65_537 {
        pairs.push_str(format!(in alloc; "Argument::new_display(#0.{place}), ")?.as_str())?;
    }
    pairs.push_str("Argument::from_usize(#0.65536)")?;
    Ok(pairs)
}

// What a run of the script writes, into a sink with room enough.
fn written(alloc: Global, script: &str) -> Result<MemSink, AllocError> {
    let mut source = MemSource::new(script.as_bytes().to_vec(alloc)?, 65_536, Vec::new(alloc));
    let mut sink = MemSink::new(alloc, 16_777_216, 65_536, Vec::new(alloc))?;
    let mut session = Session::new(alloc)?;
    run(alloc, &[], &mut source, &mut sink, &mut session);
    Ok(sink)
}

// The places of an argument behind 65,536 others, and of its use as a width, take four bytes.
#[test]
fn prints_wide_places(rt: HostRuntime) -> Result<(), Fail> {
    let alloc = rt.alloc();
    let text = "{}".repeat(alloc, 65_536)?;
    let leaves = "@1 ".repeat(alloc, 65_536)?;
    let script = format!(in alloc; "format \"{text}{{x}}{{x}}{{0:x$}}\" {leaves}x = @1")?;
    let references = "&@1, ".repeat(alloc, 65_536)?;
    let pairs = wide_pairs(alloc)?;
    let narrow = "C0".repeat(alloc, 65_537)?;
    let want = format!(in alloc;
        "0 code {{ let #0 = ({references}&@1); let #0 = [{pairs}]; unsafe {{ Arguments::new(b\"{narrow}81C80000010081DB20000068010001000000000000\", &#0) }} }}\n0 use x 131074..131075\n0 use x 131077..131078\n0 use x 131082..131083\n"
    )?;
    let sink = written(alloc, script.as_str())?;
    assert!(rt; sink.bytes() == want.as_bytes());
    Ok(())
}

// Inline assembly: its operands and options, and which operands its templates put.
#[test]
fn prints_assembly(rt: HostRuntime) -> Result<(), Fail> {
    let cases = [
        // The counter goes on from template to template, and a name is looked up among the finished operands.
        (
            "asm \"{} {x}\", \"{}\"; in reg @1; in reg @2; x = in reg @3",
            "0 1\n0 code asm!(in(reg) @1, in(reg) @2, x = in(reg) @3)\n0 map 0 2..2 0\n0 map 0 5..6 2\n0 map 1 2..2 1\n",
        ),
        // An operand that is dropped leaves no name; a number denotes none in a register of its own.
        (
            "asm \"{}{y}\"; y = in ? @9; in reg @1",
            "0 1\n0 code asm!(in(reg) @1)\n0 map 0 2..2 0\n",
        ),
        (
            "asm \"{0} {1}\"; out \"eax\" _; const @5",
            "0 1\n0 code asm!(out(\"eax\") _, const @5)\n0 map 0 6..7 1\n",
        ),
        // Raw templates put nothing, and a faulty one is read up to its fault.
        (
            "asm \"{}\"; in reg @1; options(raw)",
            "0 1\n0 code asm!(in(reg) @1; options(raw))\n",
        ),
        (
            "asm \"{}{\"; in reg @1",
            "0 1\n0 code asm!(in(reg) @1)\n0 map 0 2..2 0\n",
        ),
        // Each direction, and expressions that are not there.
        (
            "asm \"\"; in a @1; out b @2; lateout c _; inout d @3; inlateout e @4 => @5; inout f @6 => _",
            "0 1\n0 code asm!(in(a) @1, out(b) @2, lateout(c) _, inout(d) @3, inlateout(e) @4 => @5, inout(f) @6 => _)\n",
        ),
        (
            "asm \"\"; in a; out b; inout c ?; inout d ? => ?; in e _; label ?; const ?",
            "0 1\n0 code asm!(in(a) missing, out(b) _, inout(c) missing, inout(d) missing => _, in(e) missing, label missing, const missing)\n",
        ),
        // Dropped operands of every kind, and those that are in no register.
        (
            "asm \"{}\"; a = ?; in ? @1; inout b; inlateout c; sym ?; ?; clobber_abi \"C\"; const @2",
            "0 1\n0 code asm!(const @2)\n0 map 0 2..2 0\n",
        ),
        (
            "asm \"{} {} {}\"; label @1; sym f; const @2",
            "0 1\n0 code asm!(label @1, sym f, const @2)\n0 map 0 2..2 0\n0 map 0 5..5 1\n0 map 0 8..8 2\n",
        ),
        // The kinds of the macro. In front of a mark that follows directly, `global` is the name of a macro.
        ("asm global \"nop\"", "0 1\n0 code global_asm!()\n"),
        ("asm naked \"nop\"", "0 1\n0 code naked_asm!()\n"),
        ("asm global!; in reg @1", "0 1\n0 code asm!(in(reg) @1)\n"),
        (
            "asm global !; in reg @1",
            "0 1\n0 code global_asm!(in(reg) @1)\n",
        ),
        // Options stand in the order of their bits, and words that are none have no effect.
        (
            "asm \"\"; options(readonly, att_syntax); options(nomem, pure, other)",
            "0 1\n0 code asm!(; options(att_syntax, nomem, pure, readonly))\n",
        ),
        // Pieces that are off say nothing.
        (
            "opt a\nasm \"{}\"; cfg(b) options(raw); cfg(b) in r @1; cfg(a) in s @2; cfg(a) cfg(b) const @3",
            "0 1\n0 code asm!(in(s) @2)\n0 map 0 2..2 0\n",
        ),
        // A template through a macro takes part in the counter, and has no spans; one that reaches nothing has an empty row.
        (
            "macro m => \"{}\"\nasm \"{}\", m!, \"{}\", !, \"{}\"; in a @1; in b @2; in c @3; in d @4",
            "0 1\n0 code asm!(in(a) @1, in(b) @2, in(c) @3, in(d) @4)\n0 map 0 2..2 0\n0 map 2 2..2 2\n0 map 4 2..2 3\n",
        ),
        // A literal without a value leaves the counter; one with an escape is read, and has no spans.
        (
            "asm \"{}\", \"\\q{}\", \"{}\"; in a @1; in b @2",
            "0 1\n0 code asm!(in(a) @1, in(b) @2)\n0 map 0 2..2 0\n0 map 2 2..2 1\n",
        ),
        (
            "asm \"{}\\n\", \"{}\"; in a @1; in b @2",
            "0 1\n0 code asm!(in(a) @1, in(b) @2)\n0 map 1 2..2 1\n",
        ),
        // Of operands that share a name the last one counts; numbers pass by those that bear one.
        (
            "asm \"{x}\"; x = in a @1; x = in b @2",
            "0 1\n0 code asm!(x = in(a) @1, x = in(b) @2)\n0 map 0 2..3 1\n",
        ),
        (
            "asm \"{0}{1}\"; x = in a @1; in b @2",
            "0 1\n0 code asm!(x = in(a) @1, in(b) @2)\n0 map 0 5..6 1\n",
        ),
        (
            "asm \"{x}\"; x = in \"eax\" @1",
            "0 1\n0 code asm!(x = in(\"eax\") @1)\n0 map 0 2..3 0\n",
        ),
        // Places are bytes of the token; a number may denote nothing, and a modifier changes nothing.
        (
            "asm r\"{}\"; in a @1",
            "0 1\n0 code asm!(in(a) @1)\n0 map 0 3..3 0\n",
        ),
        (
            "asm \"{5}{:e}\"; in a @1",
            "0 1\n0 code asm!(in(a) @1)\n0 map 0 5..5 0\n",
        ),
    ];
    for (script, want) in cases {
        assert_told(&rt, rt.alloc(), script, want)?;
    }
    Ok(())
}
