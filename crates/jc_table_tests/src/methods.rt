//! Lookups of one method from the classes of a small side.
ghost use Rattle.std.specs.Prelude.{◌≡◌, ◌<◌, None};
ghost use Rattle.jc_facts.specs.world.World.{size};
ghost use Rattle.jc_facts.specs.world.Loading.{load_fault};
ghost use Rattle.jc_index.specs.Ids.{name_at};

use crate::rows::{self, INTERFACE, PLAIN};
use crate::sides::{key, loaded, table};
use jc_facts::flags::is_interface;
use jc_facts::key::Key;
use jc_index::ids::{ClassId, Found};
use jc_method::find::{find_in_chain, find_interface_method, find_method, inherits_instance};
use jc_method::keys::method_keys;
use jc_table::table::Table;
use std::alloc::Global;
use std::process::Abort;

// A class; which class's method `m()V` the chain has, and which one a reference to the class finds;
// whether it inherits the method; and how many keys it has.
#[derive(Clone, Copy)]
struct Row {
    class: rows::Row,
    chain: Option<&'static [u8]>,
    found: Option<&'static [u8]>,
    inherits: bool,
    keys: usize,
}

const NONE: Row = Row {
    class: PLAIN,
    chain: None,
    found: None,
    inherits: false,
    keys: 1,
};

const ROWS: &[Row] = &[
    NONE,
    Row {
        class: rows::Row {
            name: b"p/Abstract",
            flags: INTERFACE,
            methods: &[(b"m", b"()V", 0x0401)],
            ..PLAIN
        },
        chain: Some(b"p/Abstract"),
        found: Some(b"p/Abstract"),
        inherits: true,
        keys: 2,
        ..NONE
    },
    Row {
        class: rows::Row {
            name: b"p/Default",
            flags: INTERFACE,
            interfaces: &[b"p/Abstract"],
            methods: &[(b"m", b"()V", 0x0001)],
            ..PLAIN
        },
        chain: Some(b"p/Default"),
        found: Some(b"p/Default"),
        inherits: true,
        keys: 2,
        ..NONE
    },
    Row {
        class: rows::Row {
            name: b"p/Private",
            flags: INTERFACE,
            methods: &[(b"m", b"()V", 0x0002)],
            ..PLAIN
        },
        chain: Some(b"p/Private"),
        found: Some(b"p/Private"),
        keys: 2,
        ..NONE
    },
    Row {
        class: rows::Row {
            name: b"p/Empty",
            flags: INTERFACE,
            interfaces: &[b"p/Default", b"p/Private"],
            ..PLAIN
        },
        found: Some(b"p/Default"),
        inherits: true,
        keys: 2,
        ..NONE
    },
    // The maximally specific method, and not the abstract one that is named first.
    Row {
        class: rows::Row {
            name: b"p/Both",
            interfaces: &[b"p/Abstract", b"p/Default"],
            ..PLAIN
        },
        found: Some(b"p/Default"),
        inherits: true,
        keys: 2,
        ..NONE
    },
    Row {
        class: rows::Row {
            name: b"p/Below",
            superclass: b"p/Both",
            interfaces: &[b"p/Private"],
            ..PLAIN
        },
        found: Some(b"p/Default"),
        inherits: true,
        keys: 2,
        ..NONE
    },
    // A private method of an interface is no one's, a private static one of a class is found.
    Row {
        class: rows::Row {
            name: b"p/None",
            interfaces: &[b"p/Private"],
            ..PLAIN
        },
        keys: 2,
        ..NONE
    },
    Row {
        class: rows::Row {
            name: b"p/Own",
            superclass: b"p/Below",
            methods: &[(b"m", b"()V", 0x000a)],
            ..PLAIN
        },
        chain: Some(b"p/Own"),
        found: Some(b"p/Own"),
        inherits: true,
        keys: 2,
        ..NONE
    },
    Row {
        class: rows::Row {
            name: b"p/Last",
            superclass: b"p/Own",
            ..PLAIN
        },
        chain: Some(b"p/Own"),
        found: Some(b"p/Own"),
        inherits: true,
        keys: 2,
        ..NONE
    },
];

// The rows are named here alone: each function that names a table holds all of it.
fn rows() -> &'static [Row] {
    ROWS
}

fn side(rt: &impl Abort, alloc: Global) -> Table {
    let mut side = Vec::new(alloc);
    for row in rows() {
        side.push(row.class).expect(rt, "memory");
    }
    table(rt, alloc, side.as_slice())
}

// The number of the class whose method is found.
fn owner(found: Option<Found>) -> Option<ClassId> {
    match found {
        Some(found) => Some(found.owner),
        None => None,
    }
}

// The number of the class of this name, where there is a name.
fn number(table: &Table, name: Option<&[u8]>) -> Option<ClassId> {
    match name {
        Some(name) => table.get(name),
        None => None,
    }
}

// What a reference to the class or the interface finds.
fn found(table: &Table, class: ClassId, key: &Key) -> Option<Found>
    requires class { class < size table.now }
    requires loads { load_fault table.now (name_at table.now class) ≡ None }
{
    if is_interface(table.facts(class).flags) {
        find_interface_method(table, class, key)
    } else {
        find_method(table, class, key)
    }
}

// Whether all calls answer for the class of the row as it says.
fn agrees(table: &Table, class: ClassId, key: &Key, row: &Row) -> bool
    requires class { class < size table.now }
    requires loads { load_fault table.now (name_at table.now class) ≡ None }
{
    owner(find_in_chain(table, class, key)) == number(table, row.chain)
        && owner(found(table, class, key)) == number(table, row.found)
        && inherits_instance(table, class, key) == row.inherits
}

fn see_row(rt: &impl Abort, alloc: Global, table: &Table, key: &Key, row: &Row) {
    let class = loaded(rt, table, row.class.name);
    assert!(rt; agrees(table, class, key, row));
    let keys = method_keys(alloc, table, class).expect(rt, "memory");
    assert_eq!(rt; keys.len(), row.keys);
}

fn see_rows(rt: &impl Abort, alloc: Global, table: &Table, key: &Key) {
    for row in rows() {
        see_row(rt, alloc, table, key, row);
    }
}

#[test]
fn lookups_of_a_method(rt: HostRuntime) {
    let alloc = rt.alloc();
    let table = side(&rt, alloc);
    see_rows(&rt, alloc, &table, &key(&rt, alloc, b"m", b"()V"));
}
