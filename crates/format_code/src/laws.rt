//! Laws of the code of a format call, for callers that reason about it.

ghost use Rattle.format_code.specs.CallCode.{CompleteRuns, EmptyRuns, WellFormedRuns};
ghost use Rattle.format_code.specs.Laws.{RunsOnce, TextRuns, ReadsBack, MeansWrites, TextMeans, PairsWithin, FormatRuns, StaysWhole};

/// The code of a format call evaluates each argument once, in order, and gives one value for each pair, or the text where there
/// is no placeholder.
pub fn code_runs()
    ensures once { RunsOnce }
    ensures text { TextRuns }
{}

/// Template bytes over the values of pairs, and texts, mean what the template writes.
pub fn code_means()
    ensures reads_back { ReadsBack }
    ensures writes { MeansWrites }
    ensures text { TextMeans }
{}

/// Where a template refers to so many arguments, so do its pairs.
pub fn pairs_within()
    ensures within { PairsWithin }
{}

/// The code of a format call runs, and its value means what the template writes.
pub fn format_runs()
    ensures evaluates { FormatRuns }
{}

/// The code of a format call stands in a store where its arguments do.
pub fn stays_whole()
    ensures whole { StaysWhole }
{}

/// The code of a format call, whatever its surroundings: that of a well formed call evaluates its arguments once each, in order, and means
/// exactly what its text asks for; that of a complete call evaluates those once more that its text does not refer to; that of a call without
/// pieces evaluates its arguments, and means no writes.
pub fn call_runs()
    ensures well_formed { WellFormedRuns }
    ensures complete { CompleteRuns }
    ensures empty { EmptyRuns }
{}
