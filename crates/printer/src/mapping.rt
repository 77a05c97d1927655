ghost use Rattle.std.specs.Prelude.{◌≡◌, ◌++◌, OnOk, string_bytes};
ghost use Rattle.printer.specs.Mapping.{place_text, map_line, row_lines, row_lines_from};

use hir_store::AsmRow;
use std::alloc::AllocError;
use std::fmt::Write;
use sym_core::TextRange;

/// Writes a line for each place of a mapping, row by row: the number of the call, that of the row, the range of the
/// place, and the operand.
pub fn push_map_lines(out: &mut String, number: usize, rows: &[AsmRow]) -> Result<(), AllocError>
    ensures { OnOk result (string_bytes out.new ≡ string_bytes out.old ++ row_lines_from number 0 rows.now) }
{
    for (row, places) in rows.iter().enumerate() {
        push_row_lines(out, number, row, places.places.as_slice())?;
    }
    Ok(())
}

/// Writes a line for each place in a row.
fn push_row_lines(
    out: &mut String,
    number: usize,
    row: usize,
    places: &[(TextRange, usize)],
) -> Result<(), AllocError>
    ensures { OnOk result (string_bytes out.new ≡ string_bytes out.old ++ row_lines number row places.now) }
{
    for (range, operand) in places {
        push_map_line(out, number, row, *range, *operand)?;
    }
    Ok(())
}

/// Writes the line of a place.
fn push_map_line(
    out: &mut String,
    number: usize,
    row: usize,
    range: TextRange,
    operand: usize,
) -> Result<(), AllocError>
    ensures { OnOk result (string_bytes out.new ≡ string_bytes out.old ++ map_line number row (range, operand)) }
{
    write!(out, "{number} map {row} ")?;
    push_place(out, range, operand)
}

/// Writes the range of a place and its operand, and ends the line.
fn push_place(out: &mut String, range: TextRange, operand: usize) -> Result<(), AllocError>
    ensures { OnOk result (string_bytes out.new ≡ string_bytes out.old ++ place_text (range, operand)) }
{
    writeln!(out, "{}..{} {operand}", range.start, range.end)
}
