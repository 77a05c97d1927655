//! Cutting a text, a list of characters, into what rules spell.
//! A [`Cursor`] is a place in a text; what rules and readers are, and what a reading is, stands in `specs/`.
#![tactic(auto)]

mod cursor;
mod walk;

pub use cursor::Cursor;
pub use walk::{
    begin, begins_with, blanks, eat, eat_char, eat_while, first_char, is_at_end, next, peek,
    starts_with, text_between,
};
