ghost use Rattle.la_arena.specs.Laws.{StandsAndStays, IndexesEqualByNumber, IndexesOrderedByNumber, IndexesHashedByNumber, RawEqualByNumber, RawOrderedByNumber, RawHashedByNumber};

/// A value that an arena places stands at the index that it was given, and each older index keeps its value.
pub fn placing_keeps<T>()
    ensures { StandsAndStays T }
{}

/// Indexes are compared by their numbers alone: two are equal exactly where their numbers are, are ordered as their
/// numbers are, and feed a hash what their numbers feed it.
pub fn indexes_are_numbers<T>()
    ensures equal { IndexesEqualByNumber T.row }
    ensures ordered { IndexesOrderedByNumber T.row }
    ensures hashed { IndexesHashedByNumber T.row }
{}

/// Raw indexes are compared by their numbers alone, in the same way.
pub fn raw_indexes_are_numbers()
    ensures equal { RawEqualByNumber }
    ensures ordered { RawOrderedByNumber }
    ensures hashed { RawHashedByNumber }
{}
