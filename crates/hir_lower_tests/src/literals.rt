use crate::calls::{ITEMS, collector, some_macros, template};
use std::alloc::{AllocError, Global};
use std::test::Fail;

// The token that a template reaches, and whether it is that template itself.
fn reached(alloc: Global, limit: u32, text: &str) -> Result<String, AllocError> {
    let macros = some_macros(alloc)?;
    let from = template(alloc, text)?;
    let mut collector = collector(alloc, &macros, limit, ITEMS);
    match collector.expand_macros_to_string(&from, &macros) {
        Some((literal, direct)) => {
            let token = literal.text();
            format!(in alloc; "{token} {direct}")
        }
        None => String::from_str(alloc, "nothing"),
    }
}

#[test]
fn reaches_literals(rt: HostRuntime) -> Result<(), Fail> {
    let cases = [
        (0, r#""a""#, r#""a" true"#),
        (0, "m3!", r#""hi" false"#),
        (1, "m2!", r#""hi" false"#),
        (1, "m1!", "nothing"),
        (2, "m1!", r#""hi" false"#),
        (128, "again!", "nothing"),
        (128, "lost!", "nothing"),
        (128, "1 + 1", "nothing"),
    ];
    for (limit, text, want) in cases {
        let reached = reached(rt.alloc(), limit, text)?;
        assert_eq!(rt; reached.as_str(), want, "{text} under {limit}");
    }
    Ok(())
}
