/// A placeholder, with the places of pairs in place of its arguments.
#[derive(Clone, Copy, Debug)]
pub(crate) struct Slot {
    /// The place of the pair of its value.
    pub(crate) place: u32,
    /// Its options, and whether a width and a precision are given.
    pub(crate) flags: u32,
    pub(crate) width: Count,
    pub(crate) precision: Count,
}

/// A width or a precision.
#[derive(Clone, Copy, Debug)]
pub(crate) enum Count {
    Absent,
    /// The number itself.
    Number(u16),
    /// The place of the pair that gives it.
    Place(u32),
}
