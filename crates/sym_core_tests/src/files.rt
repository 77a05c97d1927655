use sym_core::{AstPtr, FileId, HirFileId, InFile, MacroCallId};

#[test]
fn tells_macros_from_files(rt: HostRuntime) {
    let file = HirFileId::File(FileId { raw: 7 });
    let call = HirFileId::Macro(MacroCallId { raw: 7 });
    assert!(rt; !file.is_macro());
    assert!(rt; call.is_macro());

    let node = AstPtr { node: 1 };
    let here = InFile {
        file_id: file,
        value: node,
    };
    let there = InFile {
        file_id: call,
        value: node,
    };
    assert!(rt; here == here);
    assert!(rt; here != there);
}
