use syn_trees::{lex_string, raw_start, string_token};
use text_cut::begin;

#[test]
fn finds_the_ends_of_tokens(rt: HostRuntime) {
    let end = string_token(begin("\"a\"b")).expect(&rt, "a plain token");
    assert_eq!(rt; (end.at, end.rest), (3, "b"), "behind the token");
    assert!(rt; string_token(begin("b\"a\"")).is_none(), "no string token");
}

#[test]
fn finds_raw_starts(rt: HostRuntime) {
    let (marks, from) = raw_start(begin("r#\"a")).expect(&rt, "a start");
    assert_eq!(rt;
        (marks, from.rest),
        (1, "a"),
        "its `#`, and what follows it"
    );
    assert!(rt; raw_start(begin("r#a")).is_none(), "no quote");
}

#[test]
fn finds_string_tokens(rt: HostRuntime) {
    let (token, end) = lex_string(begin("r#\"a\\n\"#b")).expect(&rt, "a raw token");
    assert_eq!(rt; token.text, "r#\"a\\n\"#", "with its quotes");
    assert_eq!(rt; token.inside, "a\\n", "as written");
    assert_eq!(rt; end.at, 8, "behind the token");
    assert!(rt; lex_string(begin("b\"a\"")).is_none(), "no string token");
}
