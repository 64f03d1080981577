//! Tests of lists and stacks.
use base::{ItemList, Stack};
use std::test::Fail;

#[test]
fn gives_its_items_back(rt: HostRuntime) -> Result<(), Fail> {
    let list = ItemList::of(vec![in rt.alloc(); 3u32, 1, 2]?);
    assert!(rt; list.as_slice() == [3, 1, 2].as_slice());
    assert!(rt; list.len() == 3);
    assert!(rt; !list.is_empty());
    let items = list.into_items();
    assert!(rt; items.as_slice() == [3, 1, 2].as_slice());
    Ok(())
}

#[test]
fn takes_the_newest_item_first(rt: HostRuntime) -> Result<(), Fail> {
    let mut stack = Stack::new(rt.alloc());
    stack.push(1u32)?;
    stack.push(2)?;
    assert!(rt; stack.len() == 2 && stack.pop() == Some(2));
    stack.push(3)?;
    stack.clear();
    assert!(rt; stack.pop().is_none());
    Ok(())
}
