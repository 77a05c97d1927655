ghost use Rattle.std.specs.Prelude.{◌≡◌, ◌≤◌, ◌++◌, codes, length, min, IfOk, OnOk, string_bytes};
ghost use Rattle.script_generator.specs.Generated.{max_script_len, plain_item, options_item, braces_item, assembly_item, item_text, items_text, name_text, names_text, last_line, script_of as text_of};

use std::alloc::{AllocError, Global};
use std::fmt::Write;

/// The most items that a script has: `script_of` of a greater number makes no more of them.
pub const MOST_ITEMS: u32 = 1_000;

/// The most names in the last line of a script: `script_of` of a greater number makes no more of them.
pub const MOST_NAMES: u32 = 60_000;

/// Makes the script of a number: an option, an item for each number below `n` and below [`MOST_ITEMS`], and one call
/// whose text captures a name for each number below `n` and below [`MOST_NAMES`].
///
/// The items are of four kinds, by turns: a call of a plain text, one behind a predicate that has options and two
/// arguments, one that is off, and inline assembly. A script has at most 16,777,216 bytes.
///
/// ```
/// let script = script_of(rt.alloc(), 1)?;
/// assert_eq!(rt; script.as_slice(), b"opt a\nformat \"p{}q\" @0\nformat \"{n0}\"\n".as_slice());
/// ```
#[tactic(auto, using(crate::proofs::Length::length_script))]
pub fn script_of(alloc: Global, n: u32) -> Result<Vec<u8>, AllocError>
    ensures script { IfOk result (λ script. script.items ≡ text_of n) }
    ensures fits { IfOk result (λ script. length script.items ≤ max_script_len) }
{
    let mut out = String::new(alloc);
    out.push_str("opt a\n")?;
    push_items(&mut out, n.min(MOST_ITEMS))?;
    push_last_line(&mut out, n.min(MOST_NAMES))?;
    Ok(out.into_bytes())
}

/// Writes the items of the numbers below a count.
fn push_items(out: &mut String, count: u32) -> Result<(), AllocError>
    ensures { OnOk result (string_bytes out.new ≡ string_bytes out.old ++ items_text count) }
{
    for number in 0..count {
        push_item(out, number)?;
    }
    Ok(())
}

/// Writes the item of a number, of the kind that is its turn.
fn push_item(out: &mut String, number: u32) -> Result<(), AllocError>
    ensures { OnOk result (string_bytes out.new ≡ string_bytes out.old ++ item_text number) }
{
    match number % 4 {
        0 => push_plain(out, number),
        1 => push_options(out, number),
        2 => push_braces(out),
        _ => push_assembly(out, number),
    }
}

/// Writes a call whose text has one placeholder, and letters around it.
fn push_plain(out: &mut String, number: u32) -> Result<(), AllocError>
    ensures { OnOk result (string_bytes out.new ≡ string_bytes out.old ++ plain_item number) }
{
    writeln!(out, "format \"p{{}}q\" @{number}")
}

/// Writes a call behind a predicate of three parts, with options and two arguments.
fn push_options(out: &mut String, number: u32) -> Result<(), AllocError>
    ensures { OnOk result (string_bytes out.new ≡ string_bytes out.old ++ options_item number) }
{
    writeln!(
        out,
        "cfg all(any(a, b), not(c))\nformat \"{{0:>5}}{{0:x}}{{1:?}}\" @{number} @{number}"
    )
}

/// Writes a call behind a predicate that is off, whose text has braces alone.
fn push_braces(out: &mut String) -> Result<(), AllocError>
    ensures { OnOk result (string_bytes out.new ≡ string_bytes out.old ++ braces_item) }
{
    out.push_str("cfg any(b, all(c, d))\nformat \"{{}}\"\n")
}

/// Writes a call of inline assembly with one operand, behind a predicate that is on.
fn push_assembly(out: &mut String, number: u32) -> Result<(), AllocError>
    ensures { OnOk result (string_bytes out.new ≡ string_bytes out.old ++ assembly_item number) }
{
    writeln!(out, "cfg a\nasm \"{{}}\"; in reg @{number}")
}

/// Writes a call whose text is the placeholders of the numbers below a count.
fn push_last_line(out: &mut String, count: u32) -> Result<(), AllocError>
    ensures { OnOk result (string_bytes out.new ≡ string_bytes out.old ++ last_line count) }
{
    out.push_str("format \"")?;
    push_names(out, count)?;
    out.push_str("\"\n")
}

/// Writes the placeholders of the numbers below a count.
fn push_names(out: &mut String, count: u32) -> Result<(), AllocError>
    ensures { OnOk result (string_bytes out.new ≡ string_bytes out.old ++ names_text count) }
{
    for number in 0..count {
        push_name(out, number)?;
    }
    Ok(())
}

/// Writes a placeholder that captures the name of a number.
fn push_name(out: &mut String, number: u32) -> Result<(), AllocError>
    ensures { OnOk result (string_bytes out.new ≡ string_bytes out.old ++ name_text number) }
{
    write!(out, "{{n{number}}}")
}

#[cfg(test)]
mod tests;
