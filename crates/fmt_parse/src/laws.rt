ghost use Rattle.fmt_parse.specs.Laws.{HasOneReading, PiecesStandWithin, HasOneAsmReading, AsmPiecesStandWithin};

/// The law that a format text is pieces in at most one way, or stops at one offset, and never both; it computes nothing.
pub fn one_reading()
    ensures { HasOneReading }
{}

/// The law that every range of the pieces of a format text is a part of the text; it computes nothing.
pub fn pieces_stand_within()
    ensures { PiecesStandWithin }
{}

/// The law that from one number on a template of inline assembly is read in exactly one way; it computes nothing.
pub fn one_asm_reading()
    ensures { HasOneAsmReading }
{}

/// The law that every range of the pieces that are read of a template of inline assembly is a part of it; it computes nothing.
pub fn asm_pieces_stand_within()
    ensures { AsmPiecesStandWithin }
{}
