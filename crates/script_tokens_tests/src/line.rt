use script_tokens::{blank_line, line_end};
use text_cut::begin;

#[test]
fn ends_lines(rt: HostRuntime) {
    let end = line_end(begin(" \t\nopt a\n")).expect(&rt, "blanks and a line feed");
    assert_eq!(rt; end.at, 3, "behind the line feed");
    assert!(rt; line_end(begin(" a\n")).is_none(), "a token is left");
    assert!(rt; line_end(begin(" ")).is_none(), "no line feed");
    let end = blank_line(begin("  # opt a\n")).expect(&rt, "a comment");
    assert_eq!(rt; end.at, 10, "behind the comment's line");
    assert!(rt; blank_line(begin("opt a # b\n")).is_none());
    assert!(rt; blank_line(begin("# a")).is_none(), "no line feed");
}
