use super::*;
use std::test::Fail;

#[test]
fn makes_scripts(rt: HostRuntime) -> Result<(), Fail> {
    let none = script_of(rt.alloc(), 0)?;
    assert_eq!(rt; none.as_slice(), b"opt a\nformat \"\"\n".as_slice(), "of 0");
    let one = script_of(rt.alloc(), 1)?;
    assert_eq!(rt;
        one.as_slice(),
        b"opt a\nformat \"p{}q\" @0\nformat \"{n0}\"\n".as_slice(),
        "of 1"
    );
    let four = script_of(rt.alloc(), 4)?;
    assert_eq!(rt;
        four.as_slice(),
        b"opt a\nformat \"p{}q\" @0\ncfg all(any(a, b), not(c))\nformat \"{0:>5}{0:x}{1:?}\" @1 @1\ncfg any(b, all(c, d))\nformat \"{{}}\"\ncfg a\nasm \"{}\"; in reg @3\nformat \"{n0}{n1}{n2}{n3}\"\n".as_slice(),
        "of 4, each kind of item once"
    );
    Ok(())
}

// How many line feeds there are.
fn lines_in(bytes: &[u8]) -> u32 {
    let mut lines: u32 = 0;
    for byte in bytes {
        if *byte == b'\n' {
            lines = lines.saturating_add(1);
        }
    }
    lines
}

#[test]
fn stops_at_the_most(rt: HostRuntime) -> Result<(), Fail> {
    let most = script_of(rt.alloc(), MOST_NAMES)?;
    // 6 bytes of the option, 36,389 of a thousand items, 468,890 of sixty thousand names, 10 around these
    assert_eq!(rt; most.len(), 505_295, "how many bytes");
    assert_eq!(rt;
        lines_in(most.as_slice()),
        1_752,
        "seven lines for four items, the first and the last"
    );
    let greatest = script_of(rt.alloc(), u32::MAX)?;
    assert!(rt;
        greatest.as_slice() == most.as_slice(),
        "no more than the most"
    );
    Ok(())
}
