//! Rows and walks agree on hierarchies that are hard to look up in.
ghost use Rattle.std.specs.Prelude.{◌≡◌, ◌<◌, None};
ghost use Rattle.jc_facts.specs.world.World.{size};
ghost use Rattle.jc_facts.specs.world.Loading.{load_fault};
ghost use Rattle.jc_index.specs.Ids.{name_at};

use crate::rows::{INTERFACE, PLAIN, Row};
use crate::sides::{key, loaded, table};
use jc_facts::flags::is_interface;
use jc_facts::key::Key;
use jc_field::find::find_field;
use jc_field::plain::search_field;
use jc_field::walk::walk_field;
use jc_index::ids::ClassId;
use jc_method::find::{find_interface_method, find_method};
use jc_method::walk::{walk_interface_method, walk_method};
use jc_table::table::Table;
use std::alloc::Global;
use std::process::Abort;

const ROWS: &[Row] = &[
    // A diamond with a field and a default method at its top, which one side of it overrides.
    Row {
        name: b"p/Top",
        flags: INTERFACE,
        fields: &[(b"f", b"I", 0x0019)],
        methods: &[(b"m", b"()V", 0x0001), (b"a", b"()V", 0x0401)],
        ..PLAIN
    },
    Row {
        name: b"p/Left",
        flags: INTERFACE,
        interfaces: &[b"p/Top"],
        methods: &[(b"m", b"()V", 0x0001)],
        ..PLAIN
    },
    Row {
        name: b"p/Right",
        flags: INTERFACE,
        interfaces: &[b"p/Top"],
        ..PLAIN
    },
    Row {
        name: b"p/Bottom",
        interfaces: &[b"p/Right", b"p/Left"],
        ..PLAIN
    },
    // A class and an interface whose rows agree on one method, and not on another.
    Row {
        name: b"p/Below",
        superclass: b"p/Bottom",
        interfaces: &[b"p/Right"],
        ..PLAIN
    },
    // Two interfaces with one default method.
    Row {
        name: b"p/One",
        flags: INTERFACE,
        methods: &[(b"d", b"()V", 0x0001)],
        ..PLAIN
    },
    Row {
        name: b"p/Two",
        flags: INTERFACE,
        methods: &[(b"d", b"()V", 0x0001)],
        ..PLAIN
    },
    Row {
        name: b"p/Joined",
        interfaces: &[b"p/One", b"p/Two"],
        ..PLAIN
    },
    // A private and a static method of an interface.
    Row {
        name: b"p/Hidden",
        flags: INTERFACE,
        methods: &[(b"h", b"()V", 0x0002), (b"s", b"()V", 0x0009)],
        ..PLAIN
    },
    Row {
        name: b"p/Under",
        interfaces: &[b"p/Hidden"],
        ..PLAIN
    },
    // A field of a superinterface before the superclass's.
    Row {
        name: b"p/Base",
        fields: &[(b"f", b"I", 0x0001), (b"g", b"I", 0x0001)],
        ..PLAIN
    },
    Row {
        name: b"p/Child",
        superclass: b"p/Base",
        interfaces: &[b"p/Top"],
        ..PLAIN
    },
    // Classes on a cycle, and one whose superclass is gone.
    Row {
        name: b"p/Upper",
        superclass: b"p/Lower",
        ..PLAIN
    },
    Row {
        name: b"p/Lower",
        superclass: b"p/Upper",
        ..PLAIN
    },
    Row {
        name: b"p/Orphan",
        superclass: b"p/Gone",
        ..PLAIN
    },
];

// A class that loads, and how many entries its rows have: of fields, and of methods, of which one is
// the initializer of `java/lang/Object`.
const LENGTHS: &[(&[u8], usize, usize)] = &[
    (b"p/Top", 1, 3),
    (b"p/Left", 1, 3),
    (b"p/Bottom", 1, 3),
    (b"p/Below", 1, 3),
    (b"p/Joined", 0, 2),
    (b"p/Hidden", 0, 3),
    (b"p/Under", 0, 1),
    (b"p/Base", 2, 1),
    (b"p/Child", 2, 3),
];

fn side(rt: &impl Abort, alloc: Global) -> Table {
    table(rt, alloc, ROWS)
}

/// Whether the lookup of a field finds what the walk and the plain search find.
pub(crate) fn same_field(table: &Table, class: ClassId, key: &Key) -> bool
    requires class { class < size table.now }
    requires loads { load_fault table.now (name_at table.now class) ≡ None }
{
    let found = find_field(table, class, key);
    found == walk_field(table, class, key) && found == search_field(table, class, key)
}

/// Whether the lookup of a method finds what the walk finds.
pub(crate) fn same_method(table: &Table, class: ClassId, key: &Key) -> bool
    requires class { class < size table.now }
    requires loads { load_fault table.now (name_at table.now class) ≡ None }
{
    if is_interface(table.facts(class).flags) {
        find_interface_method(table, class, key) == walk_interface_method(table, class, key)
    } else {
        find_method(table, class, key) == walk_method(table, class, key)
    }
}

// Whether this is the number of a key, of which the lookups in the rows and the walks find the same.
fn agrees_on(table: &Table, class: ClassId, number: usize) -> bool
    requires class { class < size table.now }
    requires loads { load_fault table.now (name_at table.now class) ≡ None }
{
    match table.key_at(number) {
        Some(key) => {
            table.key_number(key) == Some(number)
                && same_field(table, class, key)
                && same_method(table, class, key)
        }
        None => false,
    }
}

// The same of each key.
fn agrees(table: &Table, class: ClassId) -> bool
    requires class { class < size table.now }
    requires loads { load_fault table.now (name_at table.now class) ≡ None }
{
    for number in 0..table.key_count() {
        if !agrees_on(table, class, number) {
            return false;
        }
    }
    true
}

/// Sees that the lookups in rows and the walks find the same, of each class that loads and each key that has a number.
pub(crate) fn see_rows(rt: &impl Abort, table: &Table) {
    for number in 0..table.count() {
        let class = table.id(number).expect(rt, "a class of the table");
        if table.fault_at(class).is_none() {
            assert!(rt; agrees(table, class));
        }
    }
}

fn see_lengths(rt: &impl Abort, table: &Table) {
    for (name, fields, methods) in LENGTHS {
        let class = loaded(rt, table, name);
        assert_eq!(rt; table.field_row(class).map(|row| row.len()), Some(*fields));
        assert_eq!(rt;
            table.method_row(class).map(|row| row.len()),
            Some(*methods)
        );
    }
}

#[test]
fn lookups_in_rows_find_what_walks_find(rt: HostRuntime) {
    let table = side(&rt, rt.alloc());
    see_rows(&rt, &table);
    see_lengths(&rt, &table);
}

fn see_unknown(rt: &impl Abort, table: &Table, unknown: &Key) {
    // f, g, m, a, d, h, s and the initializer of `java/lang/Object`.
    assert_eq!(rt; table.key_count(), 8);
    assert_eq!(rt; table.key_number(unknown), None);
    assert!(rt; table.key_at(8).is_none());
    let class = loaded(rt, table, b"p/Child");
    assert_eq!(rt; find_field(table, class, unknown), None);
}

#[test]
fn what_no_class_declares_has_no_number(rt: HostRuntime) {
    let table = side(&rt, rt.alloc());
    see_unknown(&rt, &table, &key(&rt, rt.alloc(), b"f", b"J"));
}
