use crate::calls::{format_call, lowered};
use std::alloc::{AllocError, Global};
use std::test::Fail;
use syn_trees::FormatCall;

// A call that has the same placeholder so many times over so many leaves.
fn repeated(
    alloc: Global,
    placeholder: &str,
    times: usize,
    leaves: usize,
) -> Result<FormatCall, AllocError> {
    let text = placeholder.repeat(alloc, times)?;
    let token = format!(in alloc; "\"{text}\"")?;
    let words = "1 ".repeat(alloc, leaves)?;
    format_call(alloc, token.as_str(), words.as_str())
}

// How many expressions such a call places.
fn placed(alloc: Global, placeholder: &str, times: usize, leaves: usize) -> Result<usize, Fail> {
    let call = repeated(alloc, placeholder, times, leaves)?;
    let (placed, _) = lowered(alloc, &call)?;
    Ok(placed)
}

// For n arguments and p pairs 2n + 4p + 9.
#[test]
fn lowers_a_million_placeholders(rt: HostRuntime) -> Result<(), Fail> {
    assert_eq!(rt; placed(rt.alloc(), "{}", 1_000_000, 1_000_000)?, 6_000_009);
    assert_eq!(rt; placed(rt.alloc(), "{0}", 65_536, 1)?, 15);
    Ok(())
}
