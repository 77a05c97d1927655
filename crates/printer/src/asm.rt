ghost use Rattle.std.specs.Prelude.{map, ◌≡◌, ◌++◌, Some, IsTrue, OnOk, string_bytes};
ghost use Rattle.std.specs.List.{flat_map};
ghost use Rattle.std.specs.Option.{option_copied};
ghost use Rattle.hir_store.specs.Tree.{all_whole, operands_whole};
ghost use Rattle.hir_store.specs.Unfolding.{tree_at, trees_of, row_of, operand_exprs, shape_of, operands_of};
ghost use Rattle.ra_cfg.specs.Text.{joined, after_comma};
ghost use Rattle.printer.specs.Assembly.{macro_word, out_word, inout_word, register_text, register_front, name_front, first_text, operand_text, option_front, set_words, options_in_brackets, options_text, assembly_text};
ghost use Rattle.printer.specs.Printed.{each_text, operand_texts};

use crate::expr::push_expr;
use bitflags::Flags;
use hir_store::{
    AsmOperand, AsmOptions, ExprId, ExpressionStore, InlineAsm, InlineAsmKind,
    InlineAsmRegOrRegClass,
};
use std::alloc::AllocError;
use std::fmt::Write;
use sym_core::Name;

/// The options that have a word, in the order of their bits.
const OPTION_WORDS: [(AsmOptions, &str); 9] = [
    (AsmOptions::ATT_SYNTAX, "att_syntax"),
    (AsmOptions::MAY_UNWIND, "may_unwind"),
    (AsmOptions::NOMEM, "nomem"),
    (AsmOptions::NORETURN, "noreturn"),
    (AsmOptions::NOSTACK, "nostack"),
    (AsmOptions::PRESERVES_FLAGS, "preserves_flags"),
    (AsmOptions::PURE, "pure"),
    (AsmOptions::RAW, "raw"),
    (AsmOptions::READONLY, "readonly"),
];

/// Writes inline assembly over the store.
#[cycle(printing)]
pub fn push_assembly(
    out: &mut String,
    store: &ExpressionStore,
    assembly: &InlineAsm,
) -> Result<(), AllocError>
    requires { IsTrue (operands_whole (operands_of (tree_at store.now) assembly.now.operands)) }
    ensures { OnOk result (string_bytes out.new ≡ string_bytes out.old ++ assembly_text assembly.now.kind (operand_texts (operands_of (tree_at store.now) assembly.now.operands)) assembly.now.options.0) }
{
    write!(out, "{}(", macro_word(assembly.kind))?;
    push_operands(out, store, assembly.operands.get().as_slice())?;
    push_options(out, assembly.options)?;
    out.push_str(")")
}

/// The macro that inline assembly is written with.
fn macro_word(kind: InlineAsmKind) -> &'static str
    ensures { result.now ≡ macro_word kind }
{
    match kind {
        InlineAsmKind::Asm => "asm!",
        InlineAsmKind::GlobalAsm => "global_asm!",
        InlineAsmKind::NakedAsm => "naked_asm!",
    }
}

/// Writes operands with `, ` between.
#[cycle(printing)]
fn push_operands(
    out: &mut String,
    store: &ExpressionStore,
    operands: &[(Option<Name>, AsmOperand)],
) -> Result<(), AllocError>
    requires { IsTrue (operands_whole (operands_of (tree_at store.now) operands.now)) }
    ensures { OnOk result (string_bytes out.new ≡ string_bytes out.old ++ joined (operand_texts (operands_of (tree_at store.now) operands.now))) }
{
    match operands {
        [] => Ok(()),
        [(name, operand), rest @ ..] => {
            push_operand(out, store, name.as_ref(), operand)?;
            push_later_operands(out, store, rest)
        }
    }
}

/// Writes operands, each behind `, `.
#[cycle(printing)]
fn push_later_operands(
    out: &mut String,
    store: &ExpressionStore,
    operands: &[(Option<Name>, AsmOperand)],
) -> Result<(), AllocError>
    requires { IsTrue (operands_whole (operands_of (tree_at store.now) operands.now)) }
    ensures { OnOk result (string_bytes out.new ≡ string_bytes out.old ++ flat_map after_comma (operand_texts (operands_of (tree_at store.now) operands.now))) }
{
    for (name, operand) in operands {
        out.push_str(", ")?;
        push_operand(out, store, name.as_ref(), operand)?;
    }
    Ok(())
}

/// Writes an operand, behind its name where it has one.
#[cycle(printing)]
fn push_operand(
    out: &mut String,
    store: &ExpressionStore,
    name: Option<&Name>,
    operand: &AsmOperand,
) -> Result<(), AllocError>
    requires { IsTrue (all_whole (trees_of (tree_at store.now) (operand_exprs operand.now))) }
    ensures { OnOk result (string_bytes out.new ≡ string_bytes out.old ++ operand_text (option_copied name.entry) (shape_of operand.now) (each_text (trees_of (tree_at store.now) (operand_exprs operand.now)))) }
{
    push_name(out, name)?;
    match operand {
        AsmOperand::In { reg, expr } => {
            push_register(out, "in", reg)?;
            push_expr(out, store, *expr)
        }
        AsmOperand::Out { reg, expr, late } => {
            push_register(out, out_word(*late), reg)?;
            push_output(out, store, *expr)
        }
        AsmOperand::InOut { reg, expr, late } => {
            push_register(out, inout_word(*late), reg)?;
            push_expr(out, store, *expr)
        }
        AsmOperand::SplitInOut {
            reg,
            in_expr,
            out_expr,
            late,
        } => {
            push_register(out, inout_word(*late), reg)?;
            push_expr(out, store, *in_expr)?;
            out.push_str(" => ")?;
            push_output(out, store, *out_expr)
        }
        AsmOperand::Label(expr) => {
            out.push_str("label ")?;
            push_expr(out, store, *expr)
        }
        AsmOperand::Const(expr) => {
            out.push_str("const ")?;
            push_expr(out, store, *expr)
        }
        AsmOperand::Sym(name) => write!(out, "sym {name}"),
    }
}

/// Writes the name of an operand and an equals sign, where it has one.
fn push_name(out: &mut String, name: Option<&Name>) -> Result<(), AllocError>
    ensures { OnOk result (string_bytes out.new ≡ string_bytes out.old ++ name_front (option_copied name.entry)) }
{
    match name {
        Some(name) => write!(out, "{name} = "),
        None => Ok(()),
    }
}

/// The word of an operand that is only stored.
fn out_word(late: bool) -> &'static str
    ensures { result.now ≡ out_word late }
{
    if late { "lateout" } else { "out" }
}

/// The word of an operand that is read and stored.
fn inout_word(late: bool) -> &'static str
    ensures { result.now ≡ inout_word late }
{
    if late { "inlateout" } else { "inout" }
}

/// Writes the word of an operand with its register, and a space.
fn push_register(
    out: &mut String,
    word: &str,
    register: &InlineAsmRegOrRegClass,
) -> Result<(), AllocError>
    ensures { OnOk result (string_bytes out.new ≡ string_bytes out.old ++ register_front word.now register.now) }
{
    match register {
        InlineAsmRegOrRegClass::Reg(token) => write!(out, "{word}({token}) "),
        InlineAsmRegOrRegClass::RegClass(name) => write!(out, "{word}({name}) "),
    }
}

/// Writes where a value is stored, `_` where it is let go.
#[cycle(printing)]
fn push_output(
    out: &mut String,
    store: &ExpressionStore,
    expr: Option<ExprId>,
) -> Result<(), AllocError>
    requires { IsTrue (all_whole (trees_of (tree_at store.now) (row_of expr))) }
    ensures { OnOk result (string_bytes out.new ≡ string_bytes out.old ++ first_text (each_text (trees_of (tree_at store.now) (row_of expr)))) }
{
    match expr {
        Some(id) => push_expr(out, store, id),
        None => out.push_str("_"),
    }
}

/// Writes the options that are set, by their words, where one is.
fn push_options(out: &mut String, options: AsmOptions) -> Result<(), AllocError>
    ensures { OnOk result (string_bytes out.new ≡ string_bytes out.old ++ options_text options.0) }
{
    push_set_options(out, options, &OPTION_WORDS)
}

/// Writes the options that are set among these, by their words, where one is.
fn push_set_options(
    out: &mut String,
    options: AsmOptions,
    words: &[(AsmOptions, &'static str)],
) -> Result<(), AllocError>
    ensures { OnOk result (string_bytes out.new ≡ string_bytes out.old ++ options_in_brackets (set_words options.0 (map (λ row. (row.0.0, row.1.now)) words.now))) }
{
    let mut is_first = true;
    for (option, word) in words {
        if options.contains(*option) {
            out.push_str(option_front(is_first))?;
            out.push_str(word)?;
            is_first = false;
        }
    }
    if is_first { Ok(()) } else { out.push_str(")") }
}

/// What stands in front of an option that is set.
fn option_front(is_first: bool) -> &'static str
    ensures { result.now ≡ option_front is_first }
{
    if is_first { "; options(" } else { ", " }
}
