//! Tables of sides of classes made from rows, and the names and keys that they are asked for.
ghost use Rattle.std.specs.Prelude.{◌≡◌, ◌≤◌, ◌<◌, length, None, IsTrue};
ghost use Rattle.std.specs.List.{All};
ghost use Rattle.jc_facts.specs.world.World.{differ_by_name, size};
ghost use Rattle.jc_facts.specs.file.Valid.{IsValidClass};
ghost use Rattle.jc_facts.specs.world.Loading.{load_fault};
ghost use Rattle.jc_index.specs.Ids.{name_at};

use crate::rows::{ROOT, Row, class, classes};
use jc_base::name::Name;
use jc_facts::class_facts::ClassFacts;
use jc_facts::key::Key;
use jc_index::ids::ClassId;
use jc_index::plain::{are_valid, names_differ};
use jc_table::table::{Table, TableError};
use std::alloc::Global;
use std::process::Abort;

/// The records of rows.
pub(crate) fn made(rt: &impl Abort, alloc: Global, rows: &[Row]) -> Vec<ClassFacts> {
    classes(alloc, rows).expect(rt, "memory")
}

/// The same of rows whose records are valid, with names that differ.
pub(crate) fn valid(rt: &impl Abort, alloc: Global, rows: &[Row]) -> Vec<ClassFacts>
    ensures valid { All IsValidClass result.items }
    ensures differ { IsTrue (differ_by_name result.items) }
    ensures few { length result.items ≤ 40000 }
{
    let records = made(rt, alloc, rows);
    assert!(rt; are_valid(alloc, records.as_slice()).expect(rt, "memory"));
    assert!(rt; names_differ(records.as_slice()) && records.len() <= 40_000);
    records
}

/// The answer of `Table::build`.
pub(crate) fn build(
    rt: &impl Abort,
    alloc: Global,
    platform: &[Row],
    release: &[Row],
) -> Result<Table, TableError> {
    let platform = valid(rt, alloc, platform);
    let release = valid(rt, alloc, release);
    Table::build(alloc, platform.as_slice(), release)
}

/// The table of a release over a platform.
pub(crate) fn table_over(
    rt: &impl Abort,
    alloc: Global,
    platform: &[Row],
    release: &[Row],
) -> Table {
    build(rt, alloc, platform, release).expect(rt, "a table")
}

/// The table of a release over a platform of `java/lang/Object` alone.
pub(crate) fn table(rt: &impl Abort, alloc: Global, release: &[Row]) -> Table {
    table_over(rt, alloc, &[ROOT], release)
}

/// The table of a release in a run with modules: its module exports these packages, or it has none of its own.
pub(crate) fn modular(
    rt: &impl Abort,
    alloc: Global,
    release: &[Row],
    exports: Option<&[&[u8]]>,
) -> Table {
    let platform = valid(rt, alloc, &[ROOT]);
    let release = valid(rt, alloc, release);
    let exports = match exports {
        Some(exports) => Some(names(rt, alloc, exports)),
        None => None,
    };
    Table::build_modular(
        alloc,
        platform.as_slice(),
        release,
        Vec::new(alloc),
        exports,
    )
    .expect(rt, "a table")
}

/// The class of this name, which the table has.
pub(crate) fn class_of(rt: &impl Abort, table: &Table, name: &[u8]) -> ClassId
    ensures { result < size table.now }
{
    table.get(name).expect(rt, "a class of the table")
}

/// The same of a class that loads.
pub(crate) fn loaded(rt: &impl Abort, table: &Table, name: &[u8]) -> ClassId
    ensures class { result < size table.now }
    ensures loads { load_fault table.now (name_at table.now result) ≡ None }
{
    let class = class_of(rt, table, name);
    assert!(rt; table.fault_at(class).is_none());
    class
}

pub(crate) fn name(rt: &impl Abort, alloc: Global, text: &[u8]) -> Name {
    Name::from_bytes(alloc, text).expect(rt, "memory")
}

pub(crate) fn names(rt: &impl Abort, alloc: Global, texts: &[&[u8]]) -> Vec<Name> {
    let mut names = Vec::new(alloc);
    for text in texts {
        names.push(name(rt, alloc, text)).expect(rt, "memory");
    }
    names
}

pub(crate) fn key(rt: &impl Abort, alloc: Global, text: &[u8], descriptor: &[u8]) -> Key {
    Key {
        name: name(rt, alloc, text),
        descriptor: name(rt, alloc, descriptor),
    }
}
