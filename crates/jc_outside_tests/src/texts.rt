//! Names, texts and lists.
use jc_base::items::Items;
use jc_base::name::Name;
use jc_base::text::Text;
use std::alloc::Global;
use std::process::Abort;

fn name(rt: &impl Abort, alloc: Global, bytes: &[u8]) -> Name {
    Name::from_bytes(alloc, bytes).expect(rt, "memory")
}

fn text(rt: &impl Abort, alloc: Global, text: &str) -> Text {
    Text::from_str(alloc, text).expect(rt, "memory")
}

#[test]
fn names_are_copied(rt: HostRuntime) {
    let name = name(&rt, rt.alloc(), b"p/A");
    let copy = name.copy(rt.alloc()).expect(&rt, "memory");
    assert!(rt; copy.as_bytes() == b"p/A".as_slice());
    assert!(rt; copy == name);
}

#[test]
fn names_and_texts_have_the_order_of_their_bytes(rt: HostRuntime) {
    assert!(rt; name(&rt, rt.alloc(), b"p/B") > name(&rt, rt.alloc(), b"p/A"));
    assert!(rt; text(&rt, rt.alloc(), "é") < text(&rt, rt.alloc(), "ê"));
    assert!(rt; text(&rt, rt.alloc(), "é").as_str() == "é");
}

#[test]
fn lists_are_lent_and_given_back(rt: HostRuntime) {
    let items = Items::from_vec(Vec::from_slice(rt.alloc(), &[1u8, 2]).expect(&rt, "memory"));
    assert!(rt; items.as_slice() == [1u8, 2].as_slice());
    assert!(rt; items.into_vec().len() == 2);
}
