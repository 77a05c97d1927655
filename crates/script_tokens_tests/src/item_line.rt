use script_tokens::{end_item, word};
use text_cut::begin;

#[test]
fn ends_items(rt: HostRuntime) {
    let (item, end) = end_item(word(begin("unix\n"))).expect(&rt, "a line of one word");
    assert_eq!(rt; item, "unix", "the word");
    assert_eq!(rt; end.at, 5, "behind the line");
    assert!(rt; end_item(word(begin(" # unix\n"))).is_none(), "a comment");
    assert!(rt;
        end_item(word(begin("more = 1\n"))).is_none(),
        "tokens are left"
    );
    assert!(rt; end_item(word(begin("unix"))).is_none(), "no line feed");
}
