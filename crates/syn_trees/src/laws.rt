ghost use Rattle.syn_trees.specs.Laws.{ReadsTokens, HasOneValue, ValuesFit, ValuesAsWritten};

/// The law that [`string_token`](crate::string_token) finds each string token, whatever follows it, and nothing else; it computes nothing.
pub fn tokens_are_read()
    ensures { ReadsTokens }
{}

/// The law that a string token has at most one value; it computes nothing.
pub fn one_value()
    ensures { HasOneValue }
{}

/// The law that no value of a string token takes more bytes than what stands between its quotes; it computes nothing.
pub fn values_fit()
    ensures { ValuesFit }
{}

/// The law that the value of a raw token, and of one without `\`, is the text between its quotes; it computes nothing.
pub fn values_as_written()
    ensures { ValuesAsWritten }
{}
