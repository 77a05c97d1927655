ghost use Rattle.std.specs.Prelude.{◌≡◌, ◌↔◌, IfOk, IsTrue};

use std::alloc::{AllocError, Global};
use std::test::Fail;
use sym_core::{Name, Symbol};

fn same(left: &Name, right: &Name) -> bool
    ensures { IsTrue result ↔ (left.now ≡ right.now) }
{
    left == right
}

fn copy(name: &Name) -> Result<Name, AllocError>
    ensures { IfOk result (λ copy. copy ≡ name.now) }
{
    Ok(name.clone()?)
}

#[test]
fn writes_each_kind(rt: HostRuntime) -> Result<(), Fail> {
    let total = Name::new(rt.alloc(), "total")?;
    let field = Name::tuple_field(3);
    let fresh = Name::fresh(2);
    let text = format!(in rt.alloc(); "{total} {field} {fresh}")?;
    assert_eq!(rt; text.as_str(), "total 3 #2");
    assert!(rt; fresh.symbol().is_none());
    Ok(())
}

#[test]
fn has_a_symbol(rt: HostRuntime) -> Result<(), Fail> {
    let x = Symbol::new(rt.alloc(), "x")?;
    let text = Name::new(rt.alloc(), "x")?;
    assert!(rt; text.symbol().is_some_and(|symbol| symbol.as_str() == "x"));
    assert!(rt; same(&text, &Name::from_symbol(x)));
    assert!(rt; Name::tuple_field(3).symbol().is_none());
    Ok(())
}

#[test]
fn equals_its_copy(rt: HostRuntime) -> Result<(), Fail> {
    let text = Name::new(rt.alloc(), "x")?;
    let field = Name::tuple_field(2);
    let fresh = Name::fresh(2);
    assert!(rt; same(&text, &copy(&text)?));
    assert!(rt; same(&field, &copy(&field)?));
    assert!(rt; same(&fresh, &copy(&fresh)?));
    assert!(rt; !same(&field, &fresh));
    Ok(())
}
