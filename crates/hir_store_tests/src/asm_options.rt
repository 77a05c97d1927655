use bitflags::Flags;
use hir_store::AsmOptions;

#[test]
fn collects_options(rt: HostRuntime) {
    let options = AsmOptions::PURE.union(AsmOptions::NOMEM);
    assert!(rt; options.contains(AsmOptions::NOMEM));
    assert!(rt; !options.contains(AsmOptions::RAW));
    assert_eq!(rt; options.bits(), 68);
    assert_eq!(rt; AsmOptions::empty().bits(), 0);
}
