ghost use Rattle.std.specs.Prelude.{◌≡◌};
ghost use Rattle.cfgfmt.specs.Command.{command_of, command_of_word, command_with, short_number};

use script_tokens::number_of;
use sym_core::Symbol;

/// The most digits that the number of a command may have.
const MOST_DIGITS: usize = 10;

/// What the words of the program ask for.
#[derive(Clone, Copy, Debug)]
pub enum Command {
    /// To read a script, and to print what becomes of its calls.
    Run,
    /// To make the script of a number, and to print its summary.
    Generate(u32),
}

impl Command {
    /// What words ask for: no word, or `run`, for a script that is read; `gen` and a number of 1 to 10 decimal digits, of
    /// at most 4,294,967,295, for one that is made. `None` where the words are anything else.
    ///
    /// ```
    /// assert!(matches!(Command::of_words(&[]), Some(Command::Run)));
    /// ```
    pub fn of_words(words: &[Symbol]) -> Option<Command>
        ensures { result ≡ command_of words.now }
    {
        match words {
            [] => Some(Command::Run),
            [word] => Command::of_word(word.as_str()),
            [word, number] => Command::with_number(word.as_str(), number.as_str()),
            _ => None,
        }
    }

    // What one word asks for.
    fn of_word(word: &str) -> Option<Command>
        ensures { result ≡ command_of_word word.now }
    {
        if word == "run" {
            Some(Command::Run)
        } else {
            None
        }
    }

    // What a word and a number ask for.
    fn with_number(word: &str, number: &str) -> Option<Command>
        ensures { result ≡ command_with word.now number.now }
    {
        if word != "gen" {
            return None;
        }
        Some(Command::Generate(short_number(number)?))
    }
}

// The number of 32 bits that 1 to 10 digits write.
fn short_number(digits: &str) -> Option<u32>
    ensures { result ≡ short_number digits.now }
{
    if digits.len() > MOST_DIGITS {
        return None;
    }
    number_of(digits)
}
