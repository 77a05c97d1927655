use script_grammar::{Item, read_item};
use std::alloc::{AllocError, Global};
use std::test::Fail;
use sym_core::{AstPtr, Symbol};
use syn_trees::{
    AsmCall, AsmDir, AsmExprSyntax, AsmExprs, AsmOperandSyntax, AsmPiece, AsmPieceKind,
    AsmRegSyntax, CfgAtomKey, CfgPredicate, LeafSyntax, StringLit, Template,
};
use text_cut::begin;

// Adds a leaf with its number and its node, or `-`.
fn push_leaf(alloc: Global, out: &mut String, leaf: Option<LeafSyntax>) -> Result<(), AllocError> {
    match leaf {
        Some(LeafSyntax { leaf, ptr }) => {
            let node = ptr.node;
            out.push_str(format!(in alloc; "@{leaf}^{node}")?.as_str())
        }
        None => out.push('-'),
    }
}

// Adds a word, or `-`.
fn push_word(out: &mut String, word: Option<&Symbol>) -> Result<(), AllocError> {
    match word {
        Some(word) => out.push_str(word.as_str()),
        None => out.push('-'),
    }
}

// Adds a string token, or `-`.
fn push_string(out: &mut String, string: Option<&StringLit>) -> Result<(), AllocError> {
    match string {
        Some(literal) => out.push_str(literal.text()),
        None => out.push('-'),
    }
}

// Adds a template, `*` for another expression.
fn push_template(out: &mut String, template: &Template) -> Result<(), AllocError> {
    match template {
        Template::Str(literal) => out.push_str(literal.text()),
        Template::Macro(call) => {
            push_word(out, call.path.as_ref())?;
            out.push('!')
        }
        Template::Other => out.push('*'),
    }
}

// Adds a predicate in `[` and `]`: a flag by its name, another by `..`.
fn push_cfg(out: &mut String, cfg: &CfgPredicate) -> Result<(), AllocError> {
    out.push('[')?;
    match cfg {
        CfgPredicate::Atom {
            key: Some(CfgAtomKey::Ident(name)),
            string: None,
        } => out.push_str(name.as_str())?,
        _ => out.push_str("..")?,
    }
    out.push(']')
}

// Adds an expression of a register, or `-`.
fn push_expr(
    alloc: Global,
    out: &mut String,
    expr: Option<AsmExprSyntax>,
) -> Result<(), AllocError> {
    match expr {
        Some(AsmExprSyntax::Leaf(leaf)) => push_leaf(alloc, out, Some(leaf)),
        Some(AsmExprSyntax::Underscore) => out.push('_'),
        None => out.push('-'),
    }
}

// Adds the expressions of a register, where there are some.
fn push_exprs(alloc: Global, out: &mut String, exprs: Option<&AsmExprs>) -> Result<(), AllocError> {
    let Some(exprs) = exprs else {
        return Ok(());
    };
    out.push(' ')?;
    push_expr(alloc, out, exprs.first)?;
    if exprs.arrow {
        out.push_str(" => ")?;
        push_expr(alloc, out, exprs.second)?;
    }
    Ok(())
}

// Adds a register by its string, a class behind `.`, or `-`.
fn push_reg(out: &mut String, reg: Option<&AsmRegSyntax>) -> Result<(), AllocError> {
    match reg {
        Some(AsmRegSyntax::Register(literal)) => out.push_str(literal.text()),
        Some(AsmRegSyntax::Class(class)) => {
            out.push('.')?;
            out.push_str(class.as_str())
        }
        None => out.push('-'),
    }
}

// The name of a direction, in capitals.
fn dir_name(dir: Option<AsmDir>) -> &'static str {
    match dir {
        Some(AsmDir::In) => "IN ",
        Some(AsmDir::Out) => "OUT ",
        Some(AsmDir::LateOut) => "LATEOUT ",
        Some(AsmDir::InOut) => "INOUT ",
        Some(AsmDir::InLateOut) => "INLATEOUT ",
        None => "NONE ",
    }
}

// Adds an operand.
fn push_operand(
    alloc: Global,
    out: &mut String,
    operand: &AsmOperandSyntax,
) -> Result<(), AllocError> {
    match operand {
        AsmOperandSyntax::Reg { dir, reg, exprs } => {
            out.push_str(dir_name(*dir))?;
            push_reg(out, reg.as_ref())?;
            push_exprs(alloc, out, exprs.as_ref())
        }
        AsmOperandSyntax::Label(block) => {
            out.push_str("LABEL ")?;
            push_leaf(alloc, out, *block)
        }
        AsmOperandSyntax::Const(value) => {
            out.push_str("CONST ")?;
            push_leaf(alloc, out, *value)
        }
        AsmOperandSyntax::Sym(path) => {
            out.push_str("SYM ")?;
            push_word(out, path.as_ref())
        }
    }
}

// Adds words, each with a comma behind it.
fn push_words(out: &mut String, words: &[Symbol]) -> Result<(), AllocError> {
    for word in words {
        out.push_str(word.as_str())?;
        out.push(',')?;
    }
    Ok(())
}

// Adds what a piece says, a name in front of `:`.
fn push_kind(alloc: Global, out: &mut String, kind: &AsmPieceKind) -> Result<(), AllocError> {
    match kind {
        AsmPieceKind::ClobberAbi(abi) => {
            out.push_str("ABI ")?;
            push_string(out, abi.as_ref())
        }
        AsmPieceKind::Options(words) => {
            out.push_str("OPTIONS ")?;
            push_words(out, words.as_slice())
        }
        AsmPieceKind::Operand { name, op } => {
            if let Some(name) = name {
                out.push_str(name.as_str())?;
                out.push(':')?;
            }
            match op {
                Some(operand) => push_operand(alloc, out, operand),
                None => out.push('-'),
            }
        }
    }
}

// Adds a piece behind `; `, its predicates first.
fn push_piece(alloc: Global, out: &mut String, piece: &AsmPiece) -> Result<(), AllocError> {
    out.push_str("; ")?;
    for cfg in piece.cfgs.as_slice() {
        push_cfg(out, cfg)?;
    }
    push_kind(alloc, out, &piece.kind)
}

// Adds the words in front of a call's templates, and the templates, each with a blank in front.
fn push_head(out: &mut String, call: &AsmCall) -> Result<(), AllocError> {
    out.push_str(if call.global { "GLOBAL" } else { "" })?;
    out.push_str(if call.naked { "NAKED" } else { "" })?;
    for template in call.templates.as_slice() {
        out.push(' ')?;
        push_template(out, template)?;
    }
    Ok(())
}

// The assembly call that the line of a text is, as call number 3.
fn asm_of(alloc: Global, text: &str) -> Result<Option<AsmCall>, AllocError> {
    let mut line = String::from_str(alloc, text)?;
    line.push('\n')?;
    if line.len() > 1_000_000 {
        return Ok(None);
    }
    let Some((item, _end)) = read_item(alloc, begin(line.as_str()), AstPtr { node: 3 })? else {
        return Ok(None);
    };
    match item {
        Item::Asm(call) => Ok(Some(call)),
        _other => Ok(None),
    }
}

// What the line of a text is read as, or `none`.
fn told(alloc: Global, text: &str) -> Result<String, AllocError> {
    let mut out = String::new(alloc);
    let Some(call) = asm_of(alloc, text)? else {
        return String::from_str(alloc, "none");
    };
    push_head(&mut out, &call)?;
    for piece in call.pieces.as_slice() {
        push_piece(alloc, &mut out, piece)?;
    }
    Ok(out)
}

#[test]
fn reads_assembly_calls(rt: HostRuntime) -> Result<(), Fail> {
    let cases = [
        ("asm \"x\"", " \"x\""),
        ("asm global \"a\" , r\"b\"", "GLOBAL \"a\" r\"b\""),
        ("asm naked m !,?,@1,!", "NAKED m! * * -!"),
        ("asm global!, naked!", " global! naked!"),
        ("asm global !", "GLOBAL -!"),
        ("asm global naked !", "GLOBAL naked!"),
        (
            "asm \"x\";in reg@1;out\"eax\" ?;lateout ? _",
            " \"x\"; IN .reg @1^3; OUT \"eax\" -; LATEOUT - _",
        ),
        (
            "asm ?; inout _ @1 => @2; inlateout a _=>?",
            " *; INOUT ._ @1^3 => @2^3; INLATEOUT .a _ => -",
        ),
        (
            "asm ?; in _; in _ _; in ?; in ? @1; in r ?=>_",
            " *; IN ._; IN ._ _; IN -; IN - @1^3; IN .r - => _",
        ),
        (
            "asm ?; label @1; label ?; const @2; const ?",
            " *; LABEL @1^3; LABEL -; CONST @2^3; CONST -",
        ),
        ("asm ?; sym f; sym ?; ?; a = ?", " *; SYM f; SYM -; -; a:-"),
        (
            "asm ?; options(); options(a , in)",
            " *; OPTIONS ; OPTIONS a,in,",
        ),
        (
            "asm ?; clobber_abi \"C\"; clobber_abi ?",
            " *; ABI \"C\"; ABI -",
        ),
        (
            "asm ?; a = in r @1; in=in r; label = label @1",
            " *; a:IN .r @1^3; in:IN .r; label:LABEL @1^3",
        ),
        (
            "asm ?; options = ?; clobber_abi=?; cfg = ?",
            " *; options:-; clobber_abi:-; cfg:-",
        ),
        (
            "asm ?; cfg(a) cfg (all(b,version(\"1\"))) cfg=?",
            " *; [a][..]cfg:-",
        ),
        (
            "asm ?; cfg(cfg)options(a); cfg(b) clobber_abi ?",
            " *; [cfg]OPTIONS a,; [b]ABI -",
        ),
        (
            "asm \"\\q\";in\"\\q\"; clobber_abi\"\\q\"",
            " \"\\q\"; IN \"\\q\"; ABI \"\\q\"",
        ),
    ];
    for (text, want) in cases {
        assert_eq!(rt; told(rt.alloc(), text)?.as_str(), want, "of {text}");
    }
    Ok(())
}

#[test]
fn refuses_other_lines(rt: HostRuntime) -> Result<(), Fail> {
    let cases = [
        "asm",
        "asm global",
        "asm global global \"\"",
        "asm \"\" ;",
        "asm \"\",",
        "asm \"\" \"\"",
        "asm \"\"; cfg(a)",
        "asm \"\"; cfg(a",
        "asm \"\"; cfg(a) cfg in reg",
        "asm \"\"; in",
        "asm \"\"; in reg @ 1",
        "asm \"\"; in reg => @1",
        "asm \"\"; in reg @1 =>",
        "asm \"\"; in reg @1 = > @2",
        "asm \"\"; options",
        "asm \"\"; options(a,)",
        "asm \"\"; a = options()",
        "asm \"\"; clobber_abi C",
        "asm \"\"; const",
        "asm \"\"; sym \"f\"",
        "asm \"\"; x",
        "asm \"\"; x =",
    ];
    for text in cases {
        assert_eq!(rt; told(rt.alloc(), text)?.as_str(), "none", "of {text}");
    }
    Ok(())
}

#[test]
fn reads_a_long_line(rt: HostRuntime) -> Result<(), Fail> {
    let alloc = rt.alloc();
    let mut text = String::from_str(alloc, "asm \"x\"")?;
    text.push_str(
        "; cfg(a) b = inout reg @1 => _"
            .repeat(alloc, 10_000)?
            .as_str(),
    )?;
    let call = asm_of(alloc, text.as_str())?.expect(&rt, "a call");
    assert_eq!(rt; call.pieces.len(), 10_000, "ten thousand pieces");
    Ok(())
}
