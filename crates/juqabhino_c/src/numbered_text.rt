ghost use Rattle.std.specs.Prelude.{option_map};
ghost use Rattle.juqabhino_c.specs.Questions.{TellsHint};
ghost use Rattle.juqabhino_c.specs.Shown.{shown};

use crate::handing::hand_out;

/// A text with a number.
#[derive(Drop)]
pub(crate) struct NumberedText {
    pub(crate) number: u64,
    pub(crate) text: String,
}

// Hands out a text with its number, if there is one and it fits: the status is 0, or 1 where there is none.
pub(crate) fn tell_hint(
    found: &Option<NumberedText>,
    number: &mut u64,
    room: &mut [u8],
    told: &mut usize,
) -> u8
    ensures { TellsHint (option_map shown found.now) number.old number.new room.old room.new told.new result }
{
    match found {
        Some(found) => {
            let status = hand_out(0, found.text.as_str().as_bytes(), room, told);
            if status == 0 {
                *number = found.number;
            }
            status
        }
        None => {
            *told = 0;
            1
        }
    }
}
