//! The number of each class of one side on the other, beside a look-up by its name.
ghost use Rattle.std.specs.Prelude.{◌≡◌, ◌<◌};
ghost use Rattle.jc_promises.specs.Pairs.{AreOfOneRun};
ghost use Rattle.jc_facts.specs.world.World.{size};

use crate::releases::tables;
use jc_index::ids::ClassId;
use jc_sides::sides::Sides;
use jc_table::table::Table;
use jc_table_tests::rows::{PLAIN, ROOT, Row, classes};
use std::alloc::Global;
use std::process::Abort;

/// Its places aren't in the order of the names.
const PLATFORM: &[Row] = &[
    Row {
        name: b"p/F",
        ..PLAIN
    },
    ROOT,
    Row {
        name: b"p/C",
        ..PLAIN
    },
];

const KEPT: Row = Row {
    name: b"p/D",
    ..PLAIN
};

const LAST: Row = Row {
    name: b"p/G",
    ..PLAIN
};

const OLD: &[Row] = &[
    LAST,
    KEPT,
    Row {
        name: b"p/A",
        ..PLAIN
    },
];

const NEW: &[Row] = &[
    KEPT,
    Row {
        name: b"p/E",
        ..PLAIN
    },
    LAST,
];

/// For `java/lang/Object`, `p/A`, `p/C`, `p/D`, `p/F` and `p/G` the place among `java/lang/Object`,
/// `p/C`, `p/D`, `p/E`, `p/F` and `p/G`.
const NUMBERS: &[Option<u32>] = &[Some(0), None, Some(1), Some(2), Some(4), Some(5)];

// Whether the class has this number on the new side.
fn is_numbered(sides: &Sides<'_>, id: ClassId, number: Option<u32>) -> bool
    requires { id < size sides.now.old }
{
    match (sides.new_id(id), number) {
        (None, None) => true,
        (Some(id), Some(number)) => id.number() == number,
        _ => false,
    }
}

// Whether the classes of the old side have these numbers on the new side.
fn are_numbered(sides: &Sides<'_>, numbers: &[Option<u32>]) -> bool {
    if sides.old.count() as usize != numbers.len() {
        return false;
    }
    for n in 0..sides.old.count() {
        let id = sides.old.id(n).unwrap();
        if !is_numbered(sides, id, numbers[n as usize]) {
            return false;
        }
    }
    true
}

// Whether each class of the old side has the number on the new one that a look-up by its name gives.
fn are_found(sides: &Sides<'_>) -> bool {
    for n in 0..sides.old.count() {
        let id = sides.old.id(n).unwrap();
        if sides.new_id(id) != sides.new.get(sides.old.facts(id).name.as_bytes()) {
            return false;
        }
    }
    true
}

fn see_numbers(rt: &impl Abort, alloc: Global, old: &Table, new: &Table)
    requires { AreOfOneRun old.now new.now }
{
    let sides = Sides::new(alloc, old, new).expect(rt, "memory");
    assert!(rt; are_numbered(&sides, NUMBERS));
    assert!(rt; are_found(&sides));
}

#[test]
fn each_class_has_the_number_of_its_name_on_the_other_side(rt: HostRuntime) {
    let alloc = rt.alloc();
    let platform = classes(alloc, PLATFORM).expect(&rt, "memory");
    let (old, new) = tables(&rt, alloc, platform.as_slice(), OLD, NEW);
    see_numbers(&rt, alloc, &old, &new);
}
