use script_grammar::RecursionLimit;

#[test]
fn bounds_limits(rt: HostRuntime) {
    let limit = RecursionLimit::new(1024).expect(&rt, "the greatest");
    assert_eq!(rt; limit.get(), 1024, "its value");
    assert!(rt; RecursionLimit::new(1025).is_none(), "one more");
    assert_eq!(rt; RecursionLimit::usual().get(), 128, "without one");
}
