//! The tokens of a script's lines: words, numerals, string tokens, marks and brackets, and the ends of lines.
//! A cursor stands for the list of the tokens that are left of its line, so that a grammar is a function on lists of tokens.
#![tactic(auto)]

mod item_line;
mod laws;
mod lexer;
mod line;
mod reader;
mod token;

pub use item_line::end_item;
pub use laws::lines_are_read;
pub use lexer::next_token;
pub use line::{blank_line, line_end};
pub use reader::{
    arrow, close_round, direct_number, leaf, mark, number, number_of, open_round, text, word,
};
pub use token::{Bracket, Token, TokenKind};
