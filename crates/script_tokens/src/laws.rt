ghost use Rattle.script_tokens.specs.Laws.{ReadsLines};

/// The law that the tokens of a line are found, and no others, and that a text is at most one list of tokens; it computes nothing.
pub fn lines_are_read()
    ensures { ReadsLines }
{}
