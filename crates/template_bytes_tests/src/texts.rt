use crate::tokens::{encoded, hex_text};
use std::test::Fail;

#[test]
fn cuts_long_texts(rt: HostRuntime) -> Result<(), Fail> {
    let alloc = rt.alloc();
    // A character so many times in front of a placeholder: the size of the first chunk, how many of them it has, and the second chunk.
    let cases = [
        ("a", "61", 127, "7F", 127, ""),
        ("a", "61", 128, "808000", 128, ""),
        ("a", "61", 65_535, "80FFFF", 65_535, ""),
        ("a", "61", 65_536, "80FFFF", 65_535, "0161"),
        ("é", "C3A9", 32_768, "80FEFF", 32_767, "02C3A9"),
    ];
    for (character, hex, count, size, first, second) in cases {
        let text = character.repeat(alloc, count)?;
        let token = format!(in alloc; "\"{text}{{}}\"")?;
        let made = encoded(alloc, token.as_str(), 1)?;
        let bytes = hex_text(alloc, made.bytes.as_slice())?;
        let chunk = hex.repeat(alloc, first)?;
        let wanted = format!(in alloc; "{size}{chunk}{second}C000")?;
        assert!(rt; bytes == wanted, "of {count} times {character}");
    }
    Ok(())
}
