ghost use Rattle.std.specs.Prelude.{◌≡◌, IfOk};
ghost use Rattle.juqabhino_c.specs.Words.{words_of};

use std::alloc::{AllocError, Global};
use sym_core::Symbol;

// The words of a text: none of an empty one, or else those between its spaces.
pub(crate) fn words_of(alloc: Global, text: &str) -> Result<Vec<Symbol>, AllocError>
    ensures { IfOk result (λ words. words.items ≡ words_of text.now) }
{
    let mut words = Vec::new(alloc);
    if text.is_empty() {
        return Ok(words);
    }
    let parts = text.split(' ').collect::<Vec<&str>>(alloc)?;
    for part in &parts {
        words.push(Symbol::new(alloc, part)?)?;
    }
    Ok(words)
}
