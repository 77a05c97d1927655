use super::*;
use std::test::Fail;

#[test]
fn runs_words(rt: HostRuntime) -> Result<(), Fail> {
    let mut room = [1; 60];
    let mut told = 0;
    assert_eq!(rt;
        juqabhino_run(rt.alloc(), b"gen 0", b"", &mut room, &mut told),
        0
    );
    assert!(rt; room.starts_with(b"calls 1\noff 0\ncode 1\nhints 0\nexprs 3\n"));
    assert_eq!(rt; told, 37);
    assert_eq!(rt;
        juqabhino_run(rt.alloc(), b"\xFF", b"", &mut room, &mut told),
        2
    );
    assert!(rt; room.starts_with(b"error usage\n"));
    Ok(())
}

#[test]
fn tells_what_a_predicate_reads(rt: HostRuntime) -> Result<(), Fail> {
    let cases = [
        ("opt unix", "all(unix, std)", 0, 0),
        ("opt unix", "unix", 0, 1),
        ("", "version(\"1\")", 0, 2),
        ("opt", "unix", 3, 7),
        ("", "all(", 10, 7),
    ];
    for (options, predicate, status, want) in cases {
        let mut reads = 7;
        let (options, asked) = (options.as_bytes(), predicate.as_bytes());
        assert_eq!(rt;
            juqabhino_check(rt.alloc(), options, asked, &mut reads),
            status,
            "of {predicate}"
        );
        assert_eq!(rt; reads, want, "of {predicate}");
    }
    Ok(())
}

#[test]
fn tells_reasons(rt: HostRuntime) -> Result<(), Fail> {
    let mut room = [1; 20];
    let mut told = 9;
    assert_eq!(rt;
        juqabhino_reason(rt.alloc(), b"", b"std", &mut room, &mut told),
        0
    );
    assert_eq!(rt; told, 15);
    assert!(rt; room.starts_with(b"std is disabled\x01"));
    assert_eq!(rt;
        juqabhino_reason(rt.alloc(), b"opt a", b"a", &mut room, &mut told),
        1
    );
    assert_eq!(rt; told, 0);
    Ok(())
}

#[test]
fn tells_hints(rt: HostRuntime) -> Result<(), Fail> {
    let (mut room, mut told, mut number) = ([1; 20], 9, 0);
    assert_eq!(rt;
        juqabhino_hint(
            rt.alloc(),
            b"",
            b"any(all(a, not(a)), b)",
            &mut number,
            &mut room,
            &mut told
        ),
        0
    );
    assert_eq!(rt; (number, told), (1, 8));
    assert!(rt; room.starts_with(b"enable b\x01"));
    let mut small = [1; 7];
    number = 0;
    assert_eq!(rt;
        juqabhino_hint(
            rt.alloc(),
            b"",
            b"any(all(a, not(a)), b)",
            &mut number,
            &mut small,
            &mut told
        ),
        5
    );
    assert_eq!(rt; (number, told), (0, 8));
    number = 2;
    assert_eq!(rt;
        juqabhino_hint(
            rt.alloc(),
            b"",
            b"any(all(a, not(a)), b)",
            &mut number,
            &mut room,
            &mut told
        ),
        1
    );
    assert_eq!(rt; (number, told), (2, 0));
    Ok(())
}
