//! Items that a client may have, by its record.
use crate::classes::{Row, class, plain};
use jc_base::items::Items;
use jc_base::name::Name;
use jc_facts::act::Act;
use jc_facts::client::{ClientClass, Item, Place};
use jc_facts::client_validity::is_valid_client;
use jc_facts::key::Key;
use std::alloc::Global;
use std::process::Abort;

fn init(rt: &impl Abort, alloc: Global, class: &[u8]) -> Item {
    Item::Init {
        class: Name::from_bytes(alloc, class).expect(rt, "memory"),
        descriptor: Name::from_bytes(alloc, b"()V").expect(rt, "memory"),
    }
}

fn call(rt: &impl Abort, alloc: Global, act: Act, name: &[u8]) -> Item {
    Item::Access {
        act,
        class: Name::from_bytes(alloc, b"p/A").expect(rt, "memory"),
        key: Key {
            name: Name::from_bytes(alloc, name).expect(rt, "memory"),
            descriptor: Name::from_bytes(alloc, b"()V").expect(rt, "memory"),
        },
        receiver: None,
        place: Place::Other,
    }
}

fn is_valid_with(rt: &impl Abort, alloc: Global, item: Item) -> bool {
    let row = Row {
        name: b"q/C",
        superclass: b"p/A",
        ..plain(52, 0x0021)
    };
    let client = ClientClass {
        facts: class(rt, alloc, &row),
        items: Items::from_vec(vec![in alloc; item].expect(rt, "memory")),
    };
    is_valid_client(alloc, &client).expect(rt, "memory")
}

#[test]
fn clients_call_initializers_of_their_superclass(rt: HostRuntime) {
    let alloc = rt.alloc();
    assert!(rt; is_valid_with(&rt, alloc, init(&rt, alloc, b"p/A")));
    assert!(rt; is_valid_with(&rt, alloc, init(&rt, alloc, b"q/C")));
    assert!(rt; !is_valid_with(&rt, alloc, init(&rt, alloc, b"java/lang/Object")));
    assert!(rt; is_valid_with(&rt, alloc, call(&rt, alloc, Act::InvokeVirtual, b"run")));
    assert!(rt; !is_valid_with(&rt, alloc, call(&rt, alloc, Act::InvokeSpecial, b"<init>")));
    assert!(rt; !is_valid_with(&rt, alloc, call(&rt, alloc, Act::InvokeStatic, b"<clinit>")));
}
