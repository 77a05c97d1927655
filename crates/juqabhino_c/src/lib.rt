//! The program, and questions about predicates, as a static library over bytes in memory, for callers in C and in languages that
//! call C. Nothing checks such a caller.
//!
//! A caller owes, at each call: no pointer is null, not even that of no bytes; the bytes that are handed over, and the room, are
//! initialised; no one writes to what is handed over during the call, and no one else reads or writes the room, or what a call writes a
//! number to; no two of them overlap; and lengths are less than 2^63. A call keeps nothing, so calls may come from any number of threads
//! at once, each with a room of its own.
#![tactic(auto)]

mod answer;
mod growing;
mod handing;
mod numbered_text;
mod question;
#[cfg(test)]
mod tests;
mod words;

ghost use Rattle.juqabhino_c.specs.InMemory.{Answered};
ghost use Rattle.juqabhino_c.specs.Questions.{Checked, Reasoned, Hinted};

use answer::answer;
use cfg_query::CfgQuery;
use handing::hand_out;
use numbered_text::tell_hint;
use question::{hint_text, number_of, reason_text, status_of, tell};
use std::alloc::Global;
use std::str;

/// Runs the program as `juqabhino` with these words does, over the bytes of a script in place of standard input, and puts what it
/// prints at the front of `room`. Answers the status, and tells the length of the output.
///
/// `words` is empty, or has a single space between two words, as `gen 4`.
///
/// The status is 0 where the output is that of the script's outcomes, or the summary. Where the run is refused, the output is the line
/// of the refusal: with status 2 the words ask for nothing, with 3 the script is none, with 6 no memory is left, with 8 an arena of
/// the store is full, with 9 the script has more than 16,777,216 bytes. The status is 5 where the output does not fit: the room is then
/// left as it was, and a second call with room for the length that is told has the output, if memory is left as it was. Behind an
/// output that fits the room is as it was.
///
/// To C it is `uint8_t juqabhino_run(const uint8_t *words, size_t words_len, const uint8_t *script, size_t script_len, uint8_t *room,
/// size_t room_len, size_t *told)`.
#[unsafe(no_mangle)]
pub extern "C" fn juqabhino_run(
    alloc: Global,
    words: &[u8],
    script: &[u8],
    room: &mut [u8],
    told: &mut usize,
) -> u8
    ensures { Answered words.now script.now room.old room.new told.new result }
{
    let Ok(words) = str::from_utf8(words) else {
        return hand_out(2, b"error usage\n", room, told);
    };
    match answer(alloc, words, script) {
        Ok((status, sink)) => hand_out(status, sink.bytes(), room, told),
        Err(_) => hand_out(6, b"error memory\n", room, told),
    }
}

/// Says what a predicate reads under the options of a script: writes 0 to `reads` where it reads false, 1 where it reads true, and 2
/// where it is open.
///
/// `predicate` is what stands behind `cfg` in a script. Of `options`, a script, the options and the answers for versions count.
///
/// The status is 0; or the question is refused, and `reads` is as it was: with status 3 the options are no script, with 10 the predicate
/// is none, with 9 one of the two has more than 16,777,216 bytes, and with 6 no memory is left.
///
/// To C it is `uint8_t juqabhino_check(const uint8_t *options, size_t options_len, const uint8_t *predicate, size_t predicate_len,
/// uint8_t *reads)`.
#[unsafe(no_mangle)]
pub extern "C" fn juqabhino_check(
    alloc: Global,
    options: &[u8],
    predicate: &[u8],
    reads: &mut u8,
) -> u8
    ensures { Checked options.now predicate.now reads.old reads.new result }
{
    match CfgQuery::read(alloc, options, predicate) {
        Ok(query) => {
            *reads = number_of(query.check());
            0
        }
        Err(error) => status_of(&error),
    }
}

/// Says why a predicate is off under the options of a script, as `std is disabled`: puts the text at the front of `room`, and tells its
/// length.
///
/// The status is 0 where the text fits, 5 where it does not, with the room as it was, and 1 where there is no reason, since the predicate
/// is on or open. Else the question is refused, as [`juqabhino_check`] says. Where there is no text, its length is told as 0, and the room
/// is as it was.
///
/// To C it is `uint8_t juqabhino_reason(const uint8_t *options, size_t options_len, const uint8_t *predicate, size_t predicate_len,
/// uint8_t *room, size_t room_len, size_t *told)`.
#[unsafe(no_mangle)]
pub extern "C" fn juqabhino_reason(
    alloc: Global,
    options: &[u8],
    predicate: &[u8],
    room: &mut [u8],
    told: &mut usize,
) -> u8
    ensures { Reasoned options.now predicate.now room.old room.new told.new result }
{
    match reason_text(alloc, options, predicate) {
        Ok(text) => tell(&text, room, told),
        Err(error) => {
            *told = 0;
            status_of(&error)
        }
    }
}

/// Says what switches a predicate on under the options of a script, hint by hint, as `enable std`: finds the first hint among the
/// conjunctions of `*number` and of larger numbers, puts its text at the front of `room`, and tells its length. Conjunctions are
/// counted from 0, below 2^64 - 1. Where the text fits, `*number` is then the number of the hint's conjunction, so that the next call
/// is for the number behind it.
///
/// The status is 0 where the text fits, 5 where it does not, with `*number` and the room as they were, and 1 where there is no further
/// hint. Else the question is refused, as [`juqabhino_check`] says. Where there is no text, its length is told as 0, and `*number` and
/// the room are as they were.
///
/// To C it is `uint8_t juqabhino_hint(const uint8_t *options, size_t options_len, const uint8_t *predicate, size_t predicate_len,
/// uint64_t *number, uint8_t *room, size_t room_len, size_t *told)`.
#[unsafe(no_mangle)]
pub extern "C" fn juqabhino_hint(
    alloc: Global,
    options: &[u8],
    predicate: &[u8],
    number: &mut u64,
    room: &mut [u8],
    told: &mut usize,
) -> u8
    ensures { Hinted options.now predicate.now number.old number.new room.old room.new told.new result }
{
    match hint_text(alloc, options, predicate, *number) {
        Ok(found) => tell_hint(&found, number, room, told),
        Err(error) => {
            *told = 0;
            status_of(&error)
        }
    }
}
