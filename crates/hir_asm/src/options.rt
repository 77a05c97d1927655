ghost use Rattle.std.specs.Prelude.{◌≡◌};
ghost use Rattle.hir_asm.specs.Operands.{bit_of, with_bits};

use bitflags::Flags;
use hir_store::AsmOptions;
use sym_core::Symbol;

// The option that a word is; none for any other word.
fn option_of(word: &str) -> AsmOptions
    ensures { result.0 ≡ bit_of word.now }
{
    match word {
        "att_syntax" => AsmOptions::ATT_SYNTAX,
        "may_unwind" => AsmOptions::MAY_UNWIND,
        "nomem" => AsmOptions::NOMEM,
        "noreturn" => AsmOptions::NORETURN,
        "nostack" => AsmOptions::NOSTACK,
        "preserves_flags" => AsmOptions::PRESERVES_FLAGS,
        "pure" => AsmOptions::PURE,
        "raw" => AsmOptions::RAW,
        "readonly" => AsmOptions::READONLY,
        _ => AsmOptions::empty(),
    }
}

/// The options, with those that these words are.
pub(crate) fn with_options(options: AsmOptions, words: &[Symbol]) -> AsmOptions
    ensures { result.0 ≡ with_bits options.0 words.now }
{
    let mut all = options;
    for word in words {
        all = all.union(option_of(word.as_str()));
    }
    all
}
