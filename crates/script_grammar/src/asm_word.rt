ghost use Rattle.std.specs.Prelude.{◌≡◌, ◌<◌, IfSome, length};
ghost use Rattle.script_tokens.specs.Ahead.{ahead};
ghost use Rattle.script_tokens.specs.Found.{Passes};
ghost use Rattle.script_grammar.specs.AsmWords.{macro_of, operand_word_of, exact_word, direct_mark};

use script_tokens::{TokenKind, next_token};
use syn_trees::AsmDir;
use text_cut::Cursor;

/// The macro that an assembly call calls.
#[derive(Clone, Copy, Drop)]
pub(crate) enum AsmMacro {
    /// `asm!`.
    Asm,
    /// `global_asm!`.
    Global,
    /// `naked_asm!`.
    Naked,
}

/// The word that an operand begins with.
#[derive(Clone, Copy, Drop)]
pub(crate) enum OperandWord {
    /// The direction of a register.
    Dir(AsmDir),
    /// `label`.
    Label,
    /// `const`.
    Const,
    /// `sym`.
    Sym,
}

/// The macro that a word in front of the templates stands for.
pub(crate) fn macro_of(word: &str) -> Option<AsmMacro>
    ensures { result ≡ macro_of word.now }
{
    match word {
        "global" => Some(AsmMacro::Global),
        "naked" => Some(AsmMacro::Naked),
        _ => None,
    }
}

/// What a word at the begin of an operand says.
pub(crate) fn operand_word_of(word: &str) -> Option<OperandWord>
    ensures { result ≡ operand_word_of word.now }
{
    match word {
        "in" => Some(OperandWord::Dir(AsmDir::In)),
        "out" => Some(OperandWord::Dir(AsmDir::Out)),
        "lateout" => Some(OperandWord::Dir(AsmDir::LateOut)),
        "inout" => Some(OperandWord::Dir(AsmDir::InOut)),
        "inlateout" => Some(OperandWord::Dir(AsmDir::InLateOut)),
        "label" => Some(OperandWord::Label),
        "const" => Some(OperandWord::Const),
        "sym" => Some(OperandWord::Sym),
        _ => None,
    }
}

/// The place behind this word, where it stands first.
pub(crate) fn exact_word<'a>(here: Cursor<'a>, name: &str) -> Option<Cursor<'a>>
    ensures value { Passes (exact_word name.now) here.entry result }
    ensures fewer { IfSome result (λ after. length (ahead after) < length (ahead here.entry)) }
{
    let (token, behind) = next_token(here)?;
    match token.kind {
        TokenKind::Word(text) => { if text == name { Some(behind) } else { None } }
        _ => None,
    }
}

/// The place behind this mark, where it stands first without blanks in front of it.
pub(crate) fn direct_mark(here: Cursor<'_>, c: char) -> Option<Cursor<'_>>
    ensures { Passes (direct_mark c) here.entry result }
{
    let (token, behind) = next_token(here)?;
    if token.spaced {
        return None;
    }
    match token.kind {
        TokenKind::Mark(d, _) => { if d == c { Some(behind) } else { None } }
        _ => None,
    }
}
