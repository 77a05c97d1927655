ghost use Rattle.std.specs.Prelude.{◌≡◌, IfOk, option_map, string_bytes};
ghost use Rattle.cfg_query.specs.Query.{IsRefused, IfRefused};
ghost use Rattle.juqabhino_c.specs.Questions.{AsksOf, status_of as query_status, number_of as reading_number, reason_line, Tells, hint_line};
ghost use Rattle.juqabhino_c.specs.Shown.{shown};

use crate::handing::hand_out;
use crate::numbered_text::NumberedText;
use cfg_query::{CfgQuery, QueryError};
use std::alloc::Global;

// The status of a question that is refused.
pub(crate) fn status_of(error: &QueryError) -> u8
    ensures { result ≡ query_status error.now }
{
    match error {
        QueryError::Options { line: _ } => 3,
        QueryError::Predicate => 10,
        QueryError::TooLong => 9,
        QueryError::Memory(_) => 6,
    }
}

// What a predicate reads, as a number.
pub(crate) fn number_of(reads: Option<bool>) -> u8
    ensures { result ≡ reading_number reads }
{
    match reads {
        Some(false) => 0,
        Some(true) => 1,
        None => 2,
    }
}

// The text of the reason of a predicate under the options of a script.
pub(crate) fn reason_text(
    alloc: Global,
    options: &[u8],
    predicate: &[u8],
) -> Result<Option<String>, QueryError>
    ensures asks { IfOk result (λ text. AsksOf options.now predicate.now (λ set expr. option_map string_bytes text ≡ reason_line set expr)) }
    ensures refused { IfRefused result (λ error. IsRefused options.now predicate.now error) }
{
    let query = CfgQuery::read(alloc, options, predicate)?;
    let Some(reason) = query.reason(alloc)? else {
        return Ok(None);
    };
    Ok(Some(format!(in alloc; "{reason}")?))
}

// Hands out a text, if there is one: the status is 0, or 1 where there is none.
pub(crate) fn tell(text: &Option<String>, room: &mut [u8], told: &mut usize) -> u8
    ensures { Tells (option_map string_bytes text.now) room.old room.new told.new result }
{
    match text {
        Some(text) => hand_out(0, text.as_str().as_bytes(), room, told),
        None => {
            *told = 0;
            1
        }
    }
}

// The text of the first hint from a number on, with the number of its conjunction.
pub(crate) fn hint_text(
    alloc: Global,
    options: &[u8],
    predicate: &[u8],
    number: u64,
) -> Result<Option<NumberedText>, QueryError>
    ensures asks { IfOk result (λ found. AsksOf options.now predicate.now (λ set expr. option_map shown found ≡ hint_line set expr number)) }
    ensures refused { IfRefused result (λ error. IsRefused options.now predicate.now error) }
{
    let query = CfgQuery::read(alloc, options, predicate)?;
    let Some(found) = query.hint_from(alloc, number)? else {
        return Ok(None);
    };
    let hint = found.hint;
    let text = format!(in alloc; "{hint}")?;
    Ok(Some(NumberedText {
        number: found.number,
        text,
    }))
}
