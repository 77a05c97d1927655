ghost use Rattle.generated_script.specs.Laws.{MadeAreScripts, MadePlaceFew};

/// The law that the script that is made for a number is one, with the option `a`, a call for each of its items, and a last
/// one; it computes nothing.
pub fn made_are_scripts()
    ensures { MadeAreScripts }
{}

/// The law that the calls of a made script place at most ten million expressions, whatever the options are, and wherever they
/// stand; it computes nothing.
///
/// So they fit into a store.
pub fn made_place_few()
    ensures { MadePlaceFew }
{}
