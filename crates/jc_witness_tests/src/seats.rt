//! Acts on members that are closed now: asking few seats gives what asking all seats gives.
ghost use Rattle.std.specs.Prelude.{◌≡◌, IfOk, IfSome, IsTrue};
ghost use Rattle.jc_acts.specs.Seats.{AreSeats};
ghost use Rattle.jc_promises.specs.rule.Bases.{is_key_of_method, is_steady};
ghost use Rattle.jc_promises.specs.Pairs.{AreOfOneRun};
ghost use Rattle.jc_sides.specs.SharedOf.{IsShared, name_of};

use crate::releases::{platform, tables};
use jc_acts::closed_act::ClosedAct;
use jc_acts::seats::Seats;
use jc_acts::{members, plain};
use jc_base::name::Name;
use jc_desc::names::is_initializer;
use jc_facts::key::Key;
use jc_sides::classes::base_classes;
use jc_sides::clients::is_steady;
use jc_sides::kept::kept;
use jc_sides::key_numbers::KeyNumbers;
use jc_sides::shared::Shared;
use jc_sides::sides::Sides;
use jc_table::table::Table;
use jc_table_tests::rows::{Declared, INTERFACE, PLAIN, Row};
use std::alloc::{AllocError, Global};
use std::process::Abort;

const INIT: Declared = (b"<init>", b"()V", 0x0001);

/// Without the members `static int f` and `static void f()`.
const WITHOUT: Row = Row {
    methods: &[INIT],
    ..PLAIN
};

/// With them, which are protected.
const WITH: Row = Row {
    fields: &[(b"f", b"I", 0x000c)],
    methods: &[INIT, (b"f", b"()V", 0x000c)],
    ..PLAIN
};

const BASE: &[u8] = b"p/B";

const OLD: &[Row] = &[
    Row {
        name: BASE,
        flags: 0x0020,
        ..WITH
    },
    Row {
        name: b"p/C",
        superclass: BASE,
        ..WITHOUT
    },
    Row {
        name: b"p/D",
        superclass: BASE,
        ..WITHOUT
    },
    Row {
        name: b"p/E",
        ..WITH
    },
    Row {
        name: b"p/I",
        flags: INTERFACE,
        fields: &[(b"f", b"I", 0x0019)],
        methods: &[(b"f", b"()V", 0x0009)],
        ..PLAIN
    },
];

/// The base class and the interface have the members no longer, and `p/C` has some of its own.
const NEW: &[Row] = &[
    Row {
        name: BASE,
        flags: 0x0020,
        ..WITHOUT
    },
    Row {
        name: b"p/C",
        superclass: BASE,
        ..WITH
    },
    Row {
        name: b"p/D",
        superclass: BASE,
        ..WITHOUT
    },
    Row {
        name: b"p/E",
        ..WITH
    },
    Row {
        name: b"p/I",
        flags: INTERFACE,
        ..PLAIN
    },
];

/// The classes, and whether acts on their members are closed now.
const CLOSED: &[(&[u8], bool)] = &[
    (b"p/C", true),
    (b"p/D", true),
    (b"p/E", false),
    (b"p/I", true),
];

fn is_same(one: &Option<ClosedAct<'_>>, other: &Option<ClosedAct<'_>>) -> bool {
    match (one, other) {
        (None, None) => true,
        (Some(one), Some(other)) => {
            one.act == other.act && *one.seat == *other.seat && one.error == other.error
        }
        _ => false,
    }
}

fn steady<'a>(sides: &Sides<'a>, name: &[u8]) -> Option<Shared<'a>>
    ensures { IfSome result (λ c. IsShared sides.now c × IsTrue (is_steady sides.now.old sides.now.new (name_of c))) }
{
    let id = sides.old.get(name)?;
    let class = kept(sides, id)?;
    if is_steady(sides, &class) {
        Some(class)
    } else {
        None
    }
}

// Whether both programs say that an act on the field, named through this class, is closed now, or
// both that none is.
fn is_told_of_field(
    sides: &Sides<'_>,
    seats: &Seats<'_>,
    class: &Shared<'_>,
    key: &Key,
    closed: bool,
) -> bool
    requires seats { AreSeats sides.now seats.now }
    requires class { IsShared sides.now «class».now }
    requires steady { IsTrue (is_steady sides.now.old sides.now.new (name_of «class».now)) }
{
    let numbers = KeyNumbers::of(sides, key);
    let few = members::field_closed(sides, seats, class, key, &numbers);
    let all = plain::field_closed(sides, seats, class, key);
    few.is_some() == closed && is_same(&few, &all)
}

// The same of an act on the method.
fn is_told_of_method(
    sides: &Sides<'_>,
    seats: &Seats<'_>,
    class: &Shared<'_>,
    key: &Key,
    closed: bool,
) -> bool
    requires seats { AreSeats sides.now seats.now }
    requires class { IsShared sides.now «class».now }
    requires steady { IsTrue (is_steady sides.now.old sides.now.new (name_of «class».now)) }
    requires key { IsTrue (is_key_of_method key.now) }
{
    let numbers = KeyNumbers::of(sides, key);
    let few = members::method_closed(sides, seats, class, key, &numbers);
    let all = plain::method_closed(sides, seats, class, key);
    few.is_some() == closed && is_same(&few, &all)
}

fn is_field_told(sides: &Sides<'_>, seats: &Seats<'_>, name: &[u8], key: &Key, closed: bool) -> bool
    requires seats { AreSeats sides.now seats.now }
{
    match steady(sides, name) {
        Some(class) => is_told_of_field(sides, seats, &class, key, closed),
        None => false,
    }
}

fn is_method_told(
    sides: &Sides<'_>,
    seats: &Seats<'_>,
    name: &[u8],
    key: &Key,
    closed: bool,
) -> bool
    requires seats { AreSeats sides.now seats.now }
    requires key { IsTrue (is_key_of_method key.now) }
{
    match steady(sides, name) {
        Some(class) => is_told_of_method(sides, seats, &class, key, closed),
        None => false,
    }
}

fn are_fields_told(sides: &Sides<'_>, seats: &Seats<'_>, key: &Key) -> bool
    requires seats { AreSeats sides.now seats.now }
{
    for (name, closed) in CLOSED {
        if !is_field_told(sides, seats, name, key, *closed) {
            return false;
        }
    }
    true
}

fn are_methods_told(sides: &Sides<'_>, seats: &Seats<'_>, key: &Key) -> bool
    requires seats { AreSeats sides.now seats.now }
    requires key { IsTrue (is_key_of_method key.now) }
{
    for (name, closed) in CLOSED {
        if !is_method_told(sides, seats, name, key, *closed) {
            return false;
        }
    }
    true
}

fn seats_of<'a>(alloc: Global, sides: &Sides<'a>) -> Result<Seats<'a>, AllocError>
    ensures { IfOk result (λ seats. AreSeats sides.now seats) }
{
    Seats::new(alloc, sides, base_classes(alloc, sides)?)
}

fn key(rt: &impl Abort, alloc: Global, descriptor: &[u8]) -> Key {
    Key {
        name: Name::from_bytes(alloc, b"f").expect(rt, "memory"),
        descriptor: Name::from_bytes(alloc, descriptor).expect(rt, "memory"),
    }
}

fn see_told(rt: &impl Abort, alloc: Global, old: &Table, new: &Table)
    requires { AreOfOneRun old.now new.now }
{
    let sides = Sides::new(alloc, old, new).expect(rt, "memory");
    let field = key(rt, alloc, b"I");
    let method = key(rt, alloc, b"()V");
    let seats = seats_of(alloc, &sides).expect(rt, "memory");
    assert!(rt; !is_initializer(method.name.as_bytes()));
    assert!(rt; are_fields_told(&sides, &seats, &field));
    assert!(rt; are_methods_told(&sides, &seats, &method));
}

#[test]
fn asking_few_seats_gives_what_asking_all_gives(rt: HostRuntime) {
    let alloc = rt.alloc();
    let platform = platform(&rt, alloc);
    let (old, new) = tables(&rt, alloc, platform.as_slice(), OLD, NEW);
    see_told(&rt, alloc, &old, &new);
}
