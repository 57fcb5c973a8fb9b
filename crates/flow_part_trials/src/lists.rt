//! Lists and bytes that own their memory.

use flow_items::{Items, Text};

#[test]
fn items_keep_what_they_are_given(rt: HostRuntime) {
    let two = [1u8, 2].to_vec(rt.alloc());
    let mut items = Items::of(two.expect(&rt, "no memory"));
    assert!(rt; items.push(3).is_ok());
    items.set(0, 7);
    assert!(rt; items.as_slice() == [7, 2, 3].as_slice());
    assert!(rt; items.iter().count() == items.len());
    assert!(rt; items.into_vec().as_slice() == [7, 2, 3].as_slice());
    assert!(rt; Items::<u8>::new(rt.alloc()).is_empty());
}

#[test]
fn a_text_keeps_what_it_is_given(rt: HostRuntime) {
    let text = Text::from_slice(rt.alloc(), b"ab").expect(&rt, "no memory");
    let mut longer = text.copy(rt.alloc()).expect(&rt, "no memory");
    assert!(rt; longer == text);
    assert!(rt; longer.push(b'c').is_ok());
    assert!(rt; longer != text);
    assert!(rt; longer.into_vec().as_slice() == b"abc".as_slice());
    assert!(rt; Text::new(rt.alloc()).is_empty());
}
