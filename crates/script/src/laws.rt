ghost use Rattle.script.specs.Laws.{HasOneReading};

/// The law that bytes are a script in at most one way, or broken in one line, and never both; it computes nothing.
pub fn one_script()
    ensures { HasOneReading }
{}
