ghost use Rattle.std.specs.Prelude.{◌≤◌, length, IfOk};
ghost use Rattle.std.specs.List.{All};
ghost use Rattle.fmt_parse.specs.Asm.{IsAsmRead};
ghost use Rattle.fmt_parse.specs.Ranges.{RangesWithin};

use crate::options::Mode;
use crate::piece::Piece;
use crate::reader::{add, next_piece, takes};
use std::alloc::{AllocError, Global};
use text_cut::{begin, is_at_end};

/// What is read of a template of inline assembly.
///
/// In its placeholders `format` has no options, and `ty` is the modifier's range, empty where there is none.
#[derive(Debug, PartialEq, Eq, Drop)]
pub struct AsmRead {
    /// The pieces, from the front of the text up to the first place where none can be read.
    pub pieces: Vec<Piece>,
    /// The running counter behind them.
    pub curarg: usize,
    /// Whether they are the whole text.
    pub complete: bool,
}

/// Reads a template of inline assembly of at most 4,294,967,295 bytes: the longest list of pieces from its front.
///
/// The running counter starts at `curarg`. A placeholder that names no argument takes the counter's number and raises it by one;
/// at 18,446,744,073,709,551,615 it stays. What stands behind the pieces is not read, and is no error.
///
/// The grammar is that of the Rust Reference, "Inline assembly", section "Template string arguments". Literals and arguments
/// are those of format texts; behind a colon any name is allowed, and none.
///
/// Every range of a piece is a part of the text, in bytes: from where a spelling begins up to where it ends.
///
/// ```
/// let read = parse_asm(alloc, "{} {x:r}", 3)?;
/// let [Piece::NextArgument(next), Piece::Lit(_), Piece::NextArgument(named)] = read.pieces.as_slice() else { panic!() };
/// assert_eq!(next.position, Position::ImplicitlyIs(3));
/// assert_eq!(named.position, Position::Named(TextRange { start: 4, end: 5 }));
/// assert_eq!(named.format.ty, TextRange { start: 6, end: 7 });
/// assert_eq!((read.curarg, read.complete), (4, true));
/// assert!(!parse_asm(alloc, "{}{", 0)?.complete);
/// ```
///
/// # Errors
///
/// [`AllocError`] where no memory is left, and only there.
pub fn parse_asm(alloc: Global, text: &str, curarg: usize) -> Result<AsmRead, AllocError>
    requires { length text.now ≤ 4_294_967_295 }
    ensures read { IfOk result (IsAsmRead curarg text.now) }
    ensures ranges { IfOk result (λ read. All (RangesWithin text.now) read.pieces.items) }
{
    let mut pieces = Vec::new(alloc);
    let mut counter = curarg;
    let mut here = begin(text);
    while let Some((piece, behind)) = next_piece(here, counter, Mode::InlineAsm) {
        counter = counter.saturating_add(takes(piece));
        add(&mut pieces, piece)?;
        here = behind;
    }
    Ok(AsmRead {
        pieces,
        curarg: counter,
        complete: is_at_end(here),
    })
}
