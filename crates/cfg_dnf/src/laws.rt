ghost use Rattle.cfg_dnf.specs.Laws.{WalksInOrder, HintsWork, HintsAreComplete, ReasonsByLeaves};
ghost use Rattle.cfg_dnf.specs.Joined.{HintsOfAll};

/// The law of the walk: the choices of the conjunctions, in order, come out from the first ones by the next ones.
pub fn walks_in_order()
    ensures { WalksInOrder }
{}

/// Each hint works: applied to the options it makes the predicate surely true.
pub fn hints_work()
    ensures { HintsWork }
{}

/// Hints are complete: where a predicate is not surely true, each settable set of atoms under which it is surely true has
/// all that some hint enables, and none that it disables.
pub fn hints_are_complete()
    ensures { HintsAreComplete }
{}

/// A reason is found by recursion over the predicate. Where all of its leaves have an answer, there is one exactly where the
/// predicate evaluates to `Some(false)`.
pub fn reasons_by_leaves()
    ensures { ReasonsByLeaves }
{}

/// The hints of predicates taken together, for each of them: a hint makes every one surely true, and where not all of them are surely
/// true, each settable set of atoms under which they all are has the changes of some hint.
pub fn hints_of_all()
    ensures { HintsOfAll }
{}
