ghost use Rattle.std.specs.Prelude.{◌≡◌, ◌↔◌, IfOk, IsTrue};

use std::alloc::{AllocError, Global};
use std::test::Fail;
use sym_core::Symbol;

fn same(left: &Symbol, right: &Symbol) -> bool
    ensures { IsTrue result ↔ (left.now ≡ right.now) }
{
    left == right
}

fn copy(symbol: &Symbol) -> Result<Symbol, AllocError>
    ensures { IfOk result (λ copy. copy ≡ symbol.now) }
{
    Ok(symbol.clone()?)
}

#[test]
fn keeps_its_text(rt: HostRuntime) -> Result<(), Fail> {
    let net = Symbol::new(rt.alloc(), "net")?;
    let copy = net.clone()?;
    assert_eq!(rt; net.as_str(), "net");
    assert!(rt; net == copy);
    assert!(rt; net < Symbol::new(rt.alloc(), "nets")?);
    assert!(rt; Symbol::new(rt.alloc(), "all")?.is_all());
    Ok(())
}

#[test]
fn tells_words(rt: HostRuntime) -> Result<(), Fail> {
    let net = Symbol::new(rt.alloc(), "net")?;
    assert!(rt; !net.is_all());
    assert!(rt; Symbol::new(rt.alloc(), "any")?.is_any());
    assert!(rt; Symbol::new(rt.alloc(), "not")?.is_not());
    assert!(rt; Symbol::new(rt.alloc(), "true")?.is_true());
    assert!(rt; Symbol::new(rt.alloc(), "false")?.is_false());
    Ok(())
}

#[test]
fn is_its_text(rt: HostRuntime) -> Result<(), Fail> {
    let net = Symbol::new(rt.alloc(), "net")?;
    assert!(rt; same(&net, &copy(&net)?));
    assert!(rt; !same(&net, &Symbol::new(rt.alloc(), "all")?));
    assert_eq!(rt;
        format!(in rt.alloc(); "{net} {net:?}")?.as_str(),
        "net \"net\""
    );
    Ok(())
}
