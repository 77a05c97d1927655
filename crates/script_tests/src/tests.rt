ghost use Rattle.std.specs.Prelude.{◌≤◌, length};

use gated_calls::{Call, GatedCall};
use hir_expander::Macros;
use ra_cfg::{CfgAtom, CfgExpr};
use script::{MAX_SCRIPT_LEN, Script, ScriptError, end_last_line, read_ended, read_script};
use std::alloc::{AllocError, Global};
use std::test::Fail;
use sym_core::{AstPtr, FileId, HirFileId, Symbol};
use syn_trees::{AsmCall, FormatArgSyntax, FormatCall, MacroCallSrc, Template};

// Adds a template as a script writes it; a leaf without its number.
fn push_template(text: &mut String, template: Option<&Template>) -> Result<(), AllocError> {
    match template {
        Some(Template::Str(literal)) => text.push_str(literal.text()),
        Some(Template::Macro(call)) => {
            if let Some(path) = &call.path {
                text.push_str(path.as_str())?;
            }
            text.push('!')
        }
        Some(Template::Other) => text.push('@'),
        None => text.push('?'),
    }
}

// Adds an argument as a script writes it.
fn push_arg(alloc: Global, text: &mut String, arg: &FormatArgSyntax) -> Result<(), AllocError> {
    text.push(' ')?;
    if let Some(name) = &arg.name {
        text.push_str(name.as_str())?;
        text.push('=')?;
    }
    match arg.expr {
        Some(leaf) => {
            let number = leaf.leaf;
            text.push_str(format!(in alloc; "@{number}")?.as_str())
        }
        None => text.push('?'),
    }
}

// Adds the template and the arguments of a call.
fn push_format(alloc: Global, text: &mut String, call: &FormatCall) -> Result<(), AllocError> {
    push_template(text, call.template.as_ref())?;
    for arg in call.args.as_slice() {
        push_arg(alloc, text, arg)?;
    }
    text.push('\n')
}

// Adds how many templates and how many pieces an assembly call has.
fn push_asm(alloc: Global, text: &mut String, call: &AsmCall) -> Result<(), AllocError> {
    let templates = call.templates.len();
    let pieces = call.pieces.len();
    text.push_str(format!(in alloc; "asm {templates} {pieces}\n")?.as_str())
}

// Adds a line with the names of a call's predicates, and what is called.
fn push_call(alloc: Global, text: &mut String, call: &GatedCall) -> Result<(), AllocError> {
    for cfg in call.cfgs.as_slice() {
        if let CfgExpr::Atom(CfgAtom::Flag(name)) = cfg {
            text.push_str(name.as_str())?;
            text.push(' ')?;
        }
    }
    match &call.call {
        Call::Format(format) => push_format(alloc, text, format),
        Call::Asm(asm) => push_asm(alloc, text, asm),
    }
}

// The calls, one a line; or the line of the fault.
fn told(alloc: Global, bytes: &[u8]) -> Result<String, ScriptError>
    requires { length bytes.now ≤ MAX_SCRIPT_LEN }
{
    let mut text = String::new(alloc);
    match read_script(alloc, bytes) {
        Ok(script) => {
            for call in &script.calls {
                push_call(alloc, &mut text, call)?;
            }
        }
        Err(ScriptError::Syntax { line }) => text = format!(in alloc; "line {line}")?,
        Err(ScriptError::Memory(error)) => return Err(ScriptError::Memory(error)),
    }
    Ok(text)
}

#[test]
fn reads_scripts(rt: HostRuntime) -> Result<(), Fail> {
    let cases: [(&[u8], &str); 12] = [
        (b"", ""),
        (b"\n", ""),
        (b"format \"hi\"", "\"hi\"\n"),
        (b" \t format\t\"a\" \r\n", "\"a\"\n"),
        (b"format\"\"\nformat \"{{}}\"\n", "\"\"\n\"{{}}\"\n"),
        (b"format \"h\xc3\xa9\"", "\"hé\"\n"),
        (b"\n\n\xff", "line 3"),
        (b"opt a\nformat \"a", "line 2"),
        (b"format \"{\"\n\nformat a\n", "line 3"),
        (b"format \"{0}\"", "\"{0}\"\n"),
        (b"format \"a\\n\"", "\"a\\n\"\n"),
        (b"format \"a\" b", "line 1"),
    ];
    for (bytes, want) in cases {
        assert_eq!(rt; told(rt.alloc(), bytes)?.as_str(), want, "at {bytes:?}");
    }
    Ok(())
}

// The examples of `read_script`.
#[test]
fn reads_a_script(rt: HostRuntime) -> Result<(), Fail> {
    let alloc = rt.alloc();
    let script = read_script(alloc, b"opt a\ncfg a\nformat \"hi\"")?;
    assert_eq!(rt; script.calls.len(), 1);
    assert!(rt;
        matches!(
            read_script(alloc, b"opt a\n?"),
            Err(ScriptError::Syntax { line: 2 })
        )
    );
    Ok(())
}

// The example of `read_ended` and of `end_last_line`.
#[test]
fn ends_the_last_line(rt: HostRuntime) -> Result<(), Fail> {
    let alloc = rt.alloc();
    let mut bytes = Vec::from_slice(alloc, b"format \"a\"")?;
    assert!(rt;
        matches!(
            read_ended(alloc, &bytes),
            Err(ScriptError::Syntax { line: 1 })
        )
    );
    end_last_line(&mut bytes)?;
    assert_eq!(rt; read_ended(alloc, &bytes)?.calls.len(), 1);
    Ok(())
}

#[test]
fn reads_arguments(rt: HostRuntime) -> Result<(), Fail> {
    let cases: [(&[u8], &str); 20] = [
        (b"format \"x{}y{{\" @1", "\"x{}y{{\" @1\n"),
        (b"format \"{}{}\"@1@20\n", "\"{}{}\" @1 @20\n"),
        (b"format \"{}{}\" @2\t@1 \r", "\"{}{}\" @2 @1\n"),
        (b"format \"{}\" @007", "\"{}\" @7\n"),
        (b"format \"{}\" @4294967295", "\"{}\" @4294967295\n"),
        (b"format \"{}\" @4294967296", "line 1"),
        (b"format \"{}\" @99999999999999999999999999", "line 1"),
        (b"format \"{}\" @1a", "line 1"),
        (b"format \"{}\" @1_", "line 1"),
        (b"format \"{}\" @+1", "line 1"),
        (b"format \"{}\" @", "line 1"),
        (b"format \"{}\" @ 1", "line 1"),
        (b"\nformat \"{}\" 1", "line 2"),
        (b"format \"{}{}\" @1", "\"{}{}\" @1\n"),
        (b"format \"}{\" @1", "\"}{\" @1\n"),
        (b"format \"\" ? a=@1 b = ? ?", "\"\" ? a=@1 b=? ?\n"),
        (b"format \"\" a=b", "line 1"),
        (b"format \"\" a=", "line 1"),
        (b"format \"\" a==@1", "line 1"),
        (b"format \"\" \"a\"=@1", "line 1"),
    ];
    for (bytes, want) in cases {
        assert_eq!(rt; told(rt.alloc(), bytes)?.as_str(), want, "at {bytes:?}");
    }
    Ok(())
}

#[test]
fn reads_templates(rt: HostRuntime) -> Result<(), Fail> {
    let cases: [(&[u8], &str); 14] = [
        (b"format m!", "m!\n"),
        (b"format m ! @1", "m! @1\n"),
        (b"format ! ?", "! ?\n"),
        (b"format ?", "?\n"),
        (b"format @1 @2", "@ @2\n"),
        (b"format @ 1", "line 1"),
        (b"format m", "line 1"),
        (b"format m!!", "line 1"),
        (b"format", "line 1"),
        (b"macro m => \"x\"", ""),
        (b"macro m =>@1", ""),
        (b"macro m = > \"x\"", "line 1"),
        (b"macro => \"x\"", "line 1"),
        (b"macro m => \"x\" @1", "line 1"),
    ];
    for (bytes, want) in cases {
        assert_eq!(rt; told(rt.alloc(), bytes)?.as_str(), want, "at {bytes:?}");
    }
    Ok(())
}

#[test]
fn reads_predicates(rt: HostRuntime) -> Result<(), Fail> {
    let cases: [(&[u8], &str); 15] = [
        (b"opt _a1", ""),
        (b"optb", "line 1"),
        (b"opt a b", "line 1"),
        (b"opt \n", "line 1"),
        (b"cfg 1a", ""),
        (b"cfg h\xc3\xa9", ""),
        (b"opt a\n cfg\ta \r\nformat \"x\"", "a \"x\"\n"),
        (b"cfg a\n\nattr b\nformat \"x\"", "a b \"x\"\n"),
        (b"cfg a\nformat \"x\"\nformat \"y\"", "a \"x\"\n\"y\"\n"),
        (b"format \"x\"\ncfg a", "\"x\"\n"),
        (
            b"cfg a\nasm \"x\", ?; in reg @1; ?\nformat \"y\"",
            "a asm 2 2\n\"y\"\n",
        ),
        (
            b"cfg a\nformat \"x\"\nattr b\ncfg c\nasm global!",
            "a \"x\"\nb c asm 1 0\n",
        ),
        (b"opt a\nasm \"x\";\n", "line 2"),
        (b"attr a b", "line 1"),
        (b"cfg (a]", "line 1"),
    ];
    for (bytes, want) in cases {
        assert_eq!(rt; told(rt.alloc(), bytes)?.as_str(), want, "at {bytes:?}");
    }
    Ok(())
}

#[test]
fn reads_comments_and_words(rt: HostRuntime) -> Result<(), Fail> {
    let cases: [(&[u8], &str); 11] = [
        (b"# a note\n", ""),
        (b" # a", ""),
        (b"#", ""),
        (b"# \xc3\xa9 #\nformat \"x\"\n#", "\"x\"\n"),
        (b"opt a # x", "line 1"),
        (b"opt \xc3\xa9", ""),
        (b"cfg \xcf\x801", ""),
        (b"opt \xc2\xb7x", "line 1"),
        (b"opt x\xc2\xb7", ""),
        (b"opt 1a", "line 1"),
        (b"cfg h\xc3\xa9\nformat \"x\"", "hé \"x\"\n"),
    ];
    for (bytes, want) in cases {
        assert_eq!(rt; told(rt.alloc(), bytes)?.as_str(), want, "at {bytes:?}");
    }
    Ok(())
}

#[test]
fn reads_strings(rt: HostRuntime) -> Result<(), Fail> {
    let cases: [(&[u8], &str); 15] = [
        (b"format\xc3\xa9\"x\"", "line 1"),
        (b"formatr\"x\"", "line 1"),
        (b"format r\"x\"", "r\"x\"\n"),
        (b"format r#\"a\"b{}\"# @3", "r#\"a\"b{}\"# @3\n"),
        (b"format \"a\\x41\"", "\"a\\x41\"\n"),
        (b"format \"\\x7b}\" @1", "\"\\x7b}\" @1\n"),
        (b"format \"\\q\"", "\"\\q\"\n"),
        (b"format r\"\\q\"", "r\"\\q\"\n"),
        (b"format \"a\nb\"", "\"a\nb\"\n"),
        (b"format \"a\nb\"\n?", "line 3"),
        (b"format\"x\"@1", "\"x\" @1\n"),
        (b"opt a = \"\\q\"", "line 1"),
        (b"version \"\\q\" yes", "line 1"),
        (b"format r\"a", "line 1"),
        (b"format r#\"a\"", "line 1"),
    ];
    for (bytes, want) in cases {
        assert_eq!(rt; told(rt.alloc(), bytes)?.as_str(), want, "at {bytes:?}");
    }
    Ok(())
}

fn push_marks(text: &mut String, marks: u32) -> Result<(), AllocError> {
    for _ in 0..marks {
        text.push('#')?;
    }
    Ok(())
}

// Whether a call with a raw string of so many marks is a script.
fn is_call(alloc: Global, marks: u32) -> Result<bool, ScriptError> {
    let mut text = String::new(alloc);
    text.push_str("format r")?;
    push_marks(&mut text, marks)?;
    text.push_str("\"a\"")?;
    push_marks(&mut text, marks)?;
    if text.len() > MAX_SCRIPT_LEN {
        return Ok(false);
    }
    match read_script(alloc, text.as_bytes()) {
        Ok(_) => Ok(true),
        Err(ScriptError::Syntax { .. }) => Ok(false),
        Err(error) => Err(error),
    }
}

#[test]
fn reads_marks(rt: HostRuntime) -> Result<(), Fail> {
    assert!(rt; is_call(rt.alloc(), 255)?, "255 marks");
    assert!(rt; !is_call(rt.alloc(), 256)?, "256 marks");
    Ok(())
}

// Whether every pointer of a format call is this one.
fn is_format_at(format: &FormatCall, ptr: AstPtr) -> bool {
    format.ptr == ptr
        && format.template_ptr == ptr
        && format
            .args
            .as_slice()
            .iter()
            .all(|arg| arg.expr.is_none_or(|leaf| leaf.ptr == ptr))
}

// Whether a call stands at this node.
fn is_at(call: &GatedCall, node: u32) -> bool {
    let ptr = AstPtr { node };
    match &call.call {
        Call::Format(format) => is_format_at(format, ptr),
        Call::Asm(asm) => asm.ptr == ptr,
    }
}

#[test]
fn numbers_calls(rt: HostRuntime) -> Result<(), Fail> {
    let script = read_script(
        rt.alloc(),
        b"format \"{}\" @7\nopt a\n\nasm \"x\"\nformat \"{}{}\" @1 a = @2\nasm ?",
    )?;
    assert_eq!(rt; script.calls.len(), 4, "four calls");
    for (node, call) in script.calls.iter().enumerate() {
        assert!(rt; is_at(call, node as u32), "call {node}");
    }
    Ok(())
}

#[test]
fn reads_options(rt: HostRuntime) -> Result<(), Fail> {
    let cases: [(&[u8], &str, bool); 7] = [
        (b"", "a", false),
        (b"opt a", "a", true),
        (b"opt a", "b", false),
        (b"format \"x\"\nopt a\n", "a", true),
        (b"cfg a\nformat \"x\"", "a", false),
        (b"opt true\nopt false", "true", true),
        (b"opt true\nopt false", "false", false),
    ];
    for (bytes, name, want) in cases {
        let script = read_script(rt.alloc(), bytes)?;
        let atom = CfgAtom::Flag(Symbol::new(rt.alloc(), name)?);
        assert_eq!(rt;
            script.options.check_atom(&atom),
            want,
            "{name} at {bytes:?}"
        );
    }
    Ok(())
}

// The recursion limit, and which language items there are.
#[test]
fn reads_limits_and_items(rt: HostRuntime) -> Result<(), Fail> {
    let cases: [(&[u8], u32, bool, bool); 8] = [
        (b"", 128, true, true),
        (b"limit 0", 0, true, true),
        (b"limit 1024\n", 1024, true, true),
        (b"limit 7\nlimit 05", 5, true, true),
        (b"nolang arguments", 128, false, true),
        (b"format \"\"\nnolang argument", 128, true, false),
        (b"nolang argument\nnolang argument", 128, true, false),
        (b"nolang argument\nnolang arguments", 128, false, false),
    ];
    for (bytes, limit, arguments, argument) in cases {
        let script = read_script(rt.alloc(), bytes)?;
        assert_eq!(rt; script.limit, limit, "the limit of {bytes:?}");
        assert_eq!(rt;
            script.items.format_arguments,
            arguments,
            "the items of {bytes:?}"
        );
        assert_eq!(rt;
            script.items.format_argument,
            argument,
            "the items of {bytes:?}"
        );
    }
    for bytes in [
        b"limit 1025".as_slice(),
        b"limit",
        b"limit x",
        b"nolang x",
        b"nolang",
    ] {
        assert_eq!(rt; told(rt.alloc(), bytes)?.as_str(), "line 1", "at {bytes:?}");
    }
    Ok(())
}

// What a macro of this name expands to, as a script writes it; nothing where there is none.
fn expansion(alloc: Global, script: &Script, name: &str) -> Result<String, AllocError> {
    let call = MacroCallSrc {
        path: Some(Symbol::new(alloc, name)?),
    };
    let file = HirFileId::File(FileId { raw: 0 });
    let mut text = String::new(alloc);
    if let Some(id) = script.macros.resolve(file, &call) {
        push_template(&mut text, script.macros.expansion(id))?;
    }
    Ok(text)
}

#[test]
fn reads_macros(rt: HostRuntime) -> Result<(), Fail> {
    let alloc = rt.alloc();
    let script = read_script(
        alloc,
        b"format m!\nmacro m => \"a\"\nmacro n => m!\nmacro m => \"b\"\nmacro o => ?\nmacro p => @1",
    )?;
    assert_eq!(rt; script.macros.len(), 4, "four names");
    for (name, want) in [
        ("m", "\"b\""),
        ("n", "m!"),
        ("o", "?"),
        ("p", "@"),
        ("q", ""),
    ] {
        assert_eq!(rt;
            expansion(alloc, &script, name)?.as_str(),
            want,
            "of the macro {name}"
        );
    }
    Ok(())
}
