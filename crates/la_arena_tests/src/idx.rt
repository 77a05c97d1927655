ghost use Rattle.std.specs.Prelude.{◌≡◌, ◌↔◌, ◌<◌, IsTrue};
ghost use Rattle.la_arena.specs.Idx.{index_of};

use la_arena::{Idx, RawIdx};
use std::test::Fail;

fn same<T>(left: Idx<T>, right: Idx<T>) -> bool
    ensures { IsTrue result ↔ (left ≡ right) }
{
    left == right
}

fn stands_before<T>(left: Idx<T>, right: Idx<T>) -> bool
    ensures { IsTrue result ↔ (index_of left < index_of right) }
{
    left < right
}

#[test]
fn holds_a_number(rt: HostRuntime) -> Result<(), Fail> {
    let idx: Idx<u8> = Idx::from_raw(RawIdx::from_u32(40));
    assert_eq!(rt; idx.into_raw().into_u32(), 40);
    assert!(rt; idx < Idx::from_raw(RawIdx::from_u32(41)));
    assert_eq!(rt; format!(in rt.alloc(); "{idx:?}")?.as_str(), "Idx(40)");
    Ok(())
}

#[test]
fn compares_numbers(rt: HostRuntime) -> Result<(), Fail> {
    let idx: Idx<u8> = Idx::from_raw(RawIdx::from_u32(40));
    assert!(rt; same(idx, idx));
    assert!(rt; !stands_before(idx, idx));
    Ok(())
}

#[test]
fn writes_the_number(rt: HostRuntime) -> Result<(), Fail> {
    let raw = RawIdx::from(40);
    assert_eq!(rt; raw, RawIdx::from_u32(40));
    assert_eq!(rt; u32::from(raw), 40);
    assert_eq!(rt; format!(in rt.alloc(); "{raw}")?.as_str(), "40");
    assert_eq!(rt; format!(in rt.alloc(); "{raw:?}")?.as_str(), "40");
    Ok(())
}
