ghost use Rattle.hir_lower.specs.Laws.{HaveMost};

/// The law that for calls, wherever they stand, there is exactly one number that is the most expressions which they place; it
/// computes nothing.
///
/// So what is said of that number, as of a full arena, is said of some number.
pub fn calls_have_a_most()
    ensures { HaveMost }
{}
