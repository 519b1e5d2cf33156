//! The rows of a class one of whose methods moved to its superclass, as the table of each release lends them.
use crate::rows::{Declared, PLAIN, Row};
use crate::sides::{key, table};
use jc_facts::key::Key;
use jc_index::ids::Found;
use jc_rows::row::RowItem;
use jc_table::table::Table;
use std::alloc::Global;
use std::process::Abort;

const INIT: Declared = (b"<init>", b"()V", 0x0001);

const METHOD: Declared = (b"m", b"()V", 0x0001);

const ABOVE: Row = Row {
    name: b"p/B",
    methods: &[INIT],
    ..PLAIN
};

const BELOW: Row = Row {
    name: b"p/A",
    superclass: b"p/B",
    methods: &[INIT],
    ..PLAIN
};

const OLD: &[Row] = &[
    ABOVE,
    Row {
        methods: &[INIT, METHOD],
        ..BELOW
    },
];

const NEW: &[Row] = &[
    Row {
        methods: &[INIT, METHOD],
        ..ABOVE
    },
    BELOW,
];

// Whether the number of the key is that of no other.
fn is_numbered(table: &Table, key: &Key) -> bool {
    let Some(number) = table.key_number(key) else {
        return false;
    };
    let Some(same) = table.key_at(number) else {
        return false;
    };
    number < table.key_count() && *same == *key
}

// Whether the row says of the key that the class of this name has the method, which is public.
fn has(table: &Table, row: &[RowItem], key: &Key, owner: &[u8]) -> bool {
    let Some(number) = table.key_number(key) else {
        return false;
    };
    let Some(owner) = table.get(owner) else {
        return false;
    };
    row.contains(&RowItem {
        key: number,
        found: Found {
            owner,
            flags: 0x0001,
        },
    })
}

// Whether the class has no fields and these two methods, of which `p/A` has the first.
fn has_methods(table: &Table, init: &Key, moved: &Key, owner: &[u8]) -> bool {
    let Some(class) = table.get(b"p/A") else {
        return false;
    };
    let None = table.fault_at(class) else {
        return false;
    };
    let (Some(fields), Some(row)) = (table.field_row(class), table.method_row(class)) else {
        return false;
    };
    fields.is_empty()
        && row.len() == 2
        && has(table, row, init, b"p/A")
        && has(table, row, moved, owner)
}

// Whether there are three classes, which all load.
fn all_load(table: &Table) -> bool {
    let faults = table.load_faults();
    faults.len() == 3 && faults.iter().all(|fault| fault.is_none())
}

// Whether the table has just these two keys.
fn has_keys(table: &Table, init: &Key, moved: &Key) -> bool {
    table.key_count() == 2
        && table.key_at(2).is_none()
        && is_numbered(table, init)
        && is_numbered(table, moved)
}

// Whether the calls tell of a release whose method of the second key the class of this name has.
fn is_told(table: &Table, init: &Key, moved: &Key, owner: &[u8]) -> bool {
    all_load(table) && has_keys(table, init, moved) && has_methods(table, init, moved, owner)
}

fn see_owner(rt: &impl Abort, alloc: Global, table: &Table, owner: &[u8]) {
    let init = key(rt, alloc, b"<init>", b"()V");
    let moved = key(rt, alloc, b"m", b"()V");
    assert!(rt; is_told(table, &init, &moved, owner));
}

#[test]
fn a_method_of_its_own(rt: HostRuntime) {
    see_owner(&rt, rt.alloc(), &table(&rt, rt.alloc(), OLD), b"p/A");
}

#[test]
fn the_method_moved_to_the_superclass(rt: HostRuntime) {
    see_owner(&rt, rt.alloc(), &table(&rt, rt.alloc(), NEW), b"p/B");
}
