/// Why a run answers no script, as the contract of [`run`](crate::run) tells it.
#[derive(Debug, Drop)]
pub enum Refusal {
    /// The words ask for nothing that there is.
    Usage,
    /// The bytes are no script, and the first broken item begins in this line, counted from 1.
    Syntax { line: u64 },
    /// The source could not be read.
    Read,
    /// No memory is left.
    Memory,
    /// An arena of the store is full.
    ArenaFull,
    /// More bytes came than a script may have.
    TooLong,
}
