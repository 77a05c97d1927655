ghost use Rattle.std.specs.Prelude.{◌≡◌};
ghost use Rattle.script_grammar.specs.Keywords.{keyword_of, answer_of, lang_of};

use hir_store::LangItem;

/// The word that a line of a script begins with.
#[derive(Clone, Copy, Drop)]
pub(crate) enum Keyword {
    /// `opt`.
    Opt,
    /// `version`.
    Version,
    /// `limit`.
    Limit,
    /// `nolang`.
    NoLang,
    /// `macro`.
    Macro,
    /// `cfg`.
    Cfg,
    /// `attr`.
    Attr,
    /// `format`.
    Format,
    /// `asm`.
    Asm,
}

/// The keyword that a word is.
pub(crate) fn keyword_of(word: &str) -> Option<Keyword>
    ensures { result ≡ keyword_of word.now }
{
    match word {
        "opt" => Some(Keyword::Opt),
        "version" => Some(Keyword::Version),
        "limit" => Some(Keyword::Limit),
        "nolang" => Some(Keyword::NoLang),
        "macro" => Some(Keyword::Macro),
        "cfg" => Some(Keyword::Cfg),
        "attr" => Some(Keyword::Attr),
        "format" => Some(Keyword::Format),
        "asm" => Some(Keyword::Asm),
        _ => None,
    }
}

/// The answer that a word says.
pub(crate) fn answer_of(word: &str) -> Option<bool>
    ensures { result ≡ answer_of word.now }
{
    match word {
        "yes" => Some(true),
        "no" => Some(false),
        _ => None,
    }
}

/// The language item that a word names.
pub(crate) fn lang_of(word: &str) -> Option<LangItem>
    ensures { result ≡ lang_of word.now }
{
    match word {
        "arguments" => Some(LangItem::FormatArguments),
        "argument" => Some(LangItem::FormatArgument),
        _ => None,
    }
}
