ghost use Rattle.std.specs.Prelude.{◌+◌, ◌≤◌, length};

/// A place in a text of at most 4,294,967,295 bytes.
///
/// A cursor is copied to look ahead: what reads further is given a copy, and the copy is kept or let go.
///
/// ```
/// let start = begin("é12  x");
/// let digits = eat(start, "é").unwrap();
/// let end = eat_while(digits, |c| c.is_ascii_digit());
/// assert_eq!(text_between(digits, end), "12");
/// let (last, behind) = next(blanks(end)).unwrap();
/// assert_eq!((last, behind.at), ('x', 7));
/// ```
#[derive(Clone, Copy, Drop)]
pub struct Cursor<'a> {
    /// How many bytes stand in front of the place.
    pub at: u32,
    /// The text behind the place.
    pub rest: &'a str,
    ghost small: { at + length rest.now ≤ 4_294_967_295 },
}
