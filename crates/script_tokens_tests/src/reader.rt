use script_tokens::{arrow, close_round, leaf, mark, number, number_of, open_round, text, word};
use text_cut::begin;

#[test]
fn reads_words_and_marks(rt: HostRuntime) {
    let (name, behind) = word(begin("unix = 1")).expect(&rt, "a word");
    assert_eq!(rt; name, "unix", "the word");
    assert!(rt; mark(behind, '=').is_some(), "the mark behind it");
    assert!(rt; mark(behind, '!').is_none(), "another mark");
    assert!(rt; arrow(begin("=> 1")).is_some(), "an arrow");
    assert!(rt; arrow(begin("= > 1")).is_none(), "two marks");
    assert!(rt; text(begin("\"a\"")).is_some(), "a string");
    let inside = open_round(begin("()")).expect(&rt, "a bracket");
    assert!(rt; close_round(inside).is_some(), "the other");
}

#[test]
fn reads_numbers(rt: HostRuntime) {
    let (value, _) = number(begin("007 ")).expect(&rt, "a number");
    assert_eq!(rt; value, 7, "leading zeros");
    let (greatest, _) = number(begin("4294967295")).expect(&rt, "the greatest");
    assert_eq!(rt; greatest, u32::MAX, "the greatest number");
    assert!(rt; number(begin("4294967296")).is_none(), "one more");
    assert_eq!(rt; number_of("007"), Some(7), "digits alone");
    assert!(rt; number_of("+7").is_none(), "another character");
    assert!(rt; number(begin("12x")).is_none(), "a word goes on");
    assert!(rt; leaf(begin("@7")).is_some(), "a leaf");
    assert!(rt; leaf(begin("@ 7")).is_none(), "a mark and a number");
}
