//! Fields of a small side, by the walk and by the plain search.
use crate::rows::{Declared, INTERFACE, PLAIN, Row};
use crate::sides::{key, loaded, table};
use jc_facts::key::Key;
use jc_field::find::find_field;
use jc_field::keys::field_keys;
use jc_field::plain::search_field;
use jc_index::ids::ClassId;
use jc_table::table::Table;
use std::alloc::Global;
use std::process::Abort;

// A field of a class, public, and static and final in an interface.
const FIELD: &[Declared] = &[(b"f", b"I", 0x0001)];

const CONSTANT: &[Declared] = &[(b"f", b"I", 0x0019)];

// The lattice `p/Low` of `p/Left` and `p/Right`, of which the right one leads to the field of
// `p/High`, and the classes below it.
const ROWS: &[Row] = &[
    Row {
        name: b"p/High",
        flags: INTERFACE,
        fields: CONSTANT,
        ..PLAIN
    },
    Row {
        name: b"p/Left",
        flags: INTERFACE,
        ..PLAIN
    },
    Row {
        name: b"p/Right",
        flags: INTERFACE,
        interfaces: &[b"p/High"],
        ..PLAIN
    },
    Row {
        name: b"p/Low",
        flags: INTERFACE,
        interfaces: &[b"p/Left", b"p/Right"],
        ..PLAIN
    },
    Row {
        name: b"p/Base",
        fields: FIELD,
        ..PLAIN
    },
    Row {
        name: b"p/Child",
        superclass: b"p/Base",
        interfaces: &[b"p/Low"],
        ..PLAIN
    },
    Row {
        name: b"p/Grandchild",
        superclass: b"p/Child",
        interfaces: &[b"p/Left"],
        ..PLAIN
    },
    Row {
        name: b"p/Other",
        superclass: b"p/Base",
        interfaces: &[b"p/Left"],
        ..PLAIN
    },
    Row {
        name: b"p/None",
        interfaces: &[b"p/Left"],
        ..PLAIN
    },
];

fn side(rt: &impl Abort, alloc: Global) -> Table {
    table(rt, alloc, ROWS)
}

// A class, and the owner of the field that is found from it.
const OWNERS: &[(&[u8], &[u8])] = &[
    (b"p/High", b"p/High"),
    (b"p/Low", b"p/High"),
    (b"p/Base", b"p/Base"),
    (b"p/Child", b"p/High"),
    (b"p/Grandchild", b"p/High"),
    (b"p/Other", b"p/Base"),
    (b"p/None", b""),
];

// The owner of the field that the lookup and the plain search find, where they find the same.
fn owner(rt: &impl Abort, table: &Table, name: &[u8], key: &Key) -> Option<ClassId> {
    let class = loaded(rt, table, name);
    let found = find_field(table, class, key);
    assert!(rt; search_field(table, class, key) == found);
    found.map(|f| f.owner)
}

fn see_owners(rt: &impl Abort, table: &Table, key: &Key, other: &Key) {
    for (name, wanted) in OWNERS {
        assert_eq!(rt; owner(rt, table, name, key), table.get(wanted));
        assert_eq!(rt; owner(rt, table, name, other), None);
    }
}

#[test]
fn interfaces_come_before_the_superclass(rt: HostRuntime) {
    let alloc = rt.alloc();
    let table = side(&rt, alloc);
    see_owners(
        &rt,
        &table,
        &key(&rt, alloc, b"f", b"I"),
        &key(&rt, alloc, b"f", b"J"),
    );
}

fn keys_of(rt: &impl Abort, alloc: Global, table: &Table, name: &[u8]) -> Vec<Key> {
    field_keys(alloc, table, loaded(rt, table, name)).expect(rt, "memory")
}

#[test]
fn keys_of_fields_above_a_class(rt: HostRuntime) {
    let alloc = rt.alloc();
    let table = side(&rt, alloc);
    let keys = keys_of(&rt, alloc, &table, b"p/Child");
    assert_eq!(rt; keys.len(), 1);
    assert!(rt; keys.as_slice().contains(&key(&rt, alloc, b"f", b"I")));
    assert!(rt; keys_of(&rt, alloc, &table, b"p/None").is_empty());
}
