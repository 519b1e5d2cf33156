//! Access, assignment and the check on protected members on a small side.
use crate::rows::{INTERFACE, OBJECT, PLAIN, Row};
use crate::sides::{class_of, modular, name, table};
use jc_access::access::{Seat, accessible, class_access};
use jc_access::assigning::assignable;
use jc_access::protection::protected_ok;
use jc_index::ids::Found;
use jc_table::table::Table;
use std::alloc::Global;
use std::process::Abort;

const PUBLIC: u16 = 0x0001;

const PRIVATE: u16 = 0x0002;

const PROTECTED: u16 = 0x0004;

const STATIC: u16 = 0x0008;

const ROWS: &[Row] = &[
    Row {
        name: b"p/Base",
        ..PLAIN
    },
    Row {
        name: b"p/Near",
        ..PLAIN
    },
    Row {
        name: b"p/Hidden",
        flags: 0x0020,
        ..PLAIN
    },
    Row {
        name: b"p/Face",
        flags: INTERFACE,
        ..PLAIN
    },
    Row {
        name: b"q/Child",
        superclass: b"p/Base",
        nest_members: &[b"q/Child$In"],
        ..PLAIN
    },
    Row {
        name: b"q/Child$In",
        nest_host: b"q/Child",
        ..PLAIN
    },
    // It says that it is of the nest, but isn't named back.
    Row {
        name: b"q/Child$Out",
        nest_host: b"q/Child",
        ..PLAIN
    },
    Row {
        name: b"q/Other",
        superclass: b"p/Base",
        ..PLAIN
    },
];

fn side(rt: &impl Abort, alloc: Global) -> Table {
    table(rt, alloc, ROWS)
}

// Whether a member of the owner with these flags, named through the class, is accessible from the
// class itself, and from clients that have it as their seat.
fn access(
    rt: &impl Abort,
    table: &Table,
    from: &[u8],
    owner: &[u8],
    flags: u16,
    named: &[u8],
) -> (bool, bool) {
    let class = class_of(rt, table, from);
    let owner = class_of(rt, table, owner);
    let named = class_of(rt, table, named);
    let inside = accessible(table, Seat::Inside(class), Found { owner, flags }, named);
    let client = accessible(table, Seat::Client(class), Found { owner, flags }, named);
    (inside, client)
}

/// The class of the seat, the owner and flags of a member, the class through which it is named, and whether it is accessible from
/// the class itself and from clients that have it as their seat.
type SeatRow = (&'static [u8], &'static [u8], u16, &'static [u8], bool, bool);

const SEATS: &[SeatRow] = &[
    (b"p/Near", b"p/Base", 0, b"p/Base", true, false),
    (b"q/Child", b"p/Base", 0, b"q/Child", false, false),
    (b"q/Other", b"q/Child", PUBLIC, b"q/Child", true, true),
    (b"p/Near", b"p/Base", PROTECTED, b"p/Base", true, false),
    (b"q/Child", b"p/Base", PROTECTED, b"q/Child", true, true),
    (b"q/Child", b"p/Base", PROTECTED, b"p/Base", true, true),
    (b"q/Child", b"p/Base", PROTECTED, b"q/Other", false, false),
    (
        b"q/Child",
        b"p/Base",
        PROTECTED | STATIC,
        b"q/Other",
        true,
        true,
    ),
    (b"q/Child$In", b"q/Child", PRIVATE, b"q/Child", true, false),
    (
        b"q/Child$Out",
        b"q/Child",
        PRIVATE,
        b"q/Child",
        false,
        false,
    ),
    (b"q/Other", b"q/Child", PRIVATE, b"q/Child", false, false),
];

fn see_members(rt: &impl Abort, table: &Table) {
    for (from, owner, flags, named, inside, client) in SEATS {
        let answers = access(rt, table, from, owner, *flags, named);
        assert_eq!(rt; answers, (*inside, *client));
    }
}

#[test]
fn members_by_seat(rt: HostRuntime) {
    see_members(&rt, &side(&rt, rt.alloc()));
}

fn see_classes(rt: &impl Abort, table: &Table) {
    let near = class_of(rt, table, b"p/Near");
    let child = class_of(rt, table, b"q/Child");
    let hidden = class_of(rt, table, b"p/Hidden");
    assert!(rt; class_access(table, Seat::Inside(near), hidden));
    assert!(rt; !class_access(table, Seat::Inside(child), hidden));
    assert!(rt; !class_access(table, Seat::Client(near), hidden));
    assert!(rt; class_access(table, Seat::Client(near), child));
}

#[test]
fn classes_by_seat(rt: HostRuntime) {
    see_classes(&rt, &side(&rt, rt.alloc()));
}

const IN_A_PACKAGE: &[Row] = &[Row {
    name: b"p/A",
    ..PLAIN
}];

// Whether clients of `java/lang/Object` may name `p/A`, whose release's module exports these packages.
fn may_name(rt: &impl Abort, alloc: Global, exports: &[&[u8]]) -> bool {
    let table = modular(rt, alloc, IN_A_PACKAGE, Some(exports));
    let object = class_of(rt, &table, OBJECT);
    class_access(&table, Seat::Client(object), class_of(rt, &table, b"p/A"))
}

#[test]
fn classes_by_module(rt: HostRuntime) {
    assert!(&rt; may_name(&rt, rt.alloc(), &[b"p"]));
    assert!(&rt; !may_name(&rt, rt.alloc(), &[b"q"]));
}

const TYPES: &[(&[u8], &[u8], bool)] = &[
    (b"q/Child", b"p/Base", true),
    (b"p/Base", b"q/Child", false),
    (b"p/Base", b"p/Face", true),
    (b"r/None", b"r/None", true),
    (b"r/None", b"p/Base", false),
    (b"[I", OBJECT, true),
    (b"[I", b"java/lang/Cloneable", true),
    (b"[I", b"java/io/Serializable", true),
    (b"[I", b"java/lang/Comparable", false),
    (b"[I", b"p/Face", false),
    (b"[I", b"[I", true),
    (b"[I", b"[J", false),
    (b"[[I", b"[Ljava/lang/Object;", true),
    (b"[Lq/Child;", b"[Lp/Base;", true),
    (OBJECT, b"[I", false),
    (b"[", OBJECT, false),
];

// Whether a value of the one type may be used as one of the other.
fn is_assignable(rt: &impl Abort, alloc: Global, table: &Table, from: &[u8], to: &[u8]) -> bool {
    assignable(table, &name(rt, alloc, from), &name(rt, alloc, to))
}

fn see_types(rt: &impl Abort, alloc: Global, table: &Table) {
    for (from, to, expected) in TYPES {
        assert_eq!(rt; is_assignable(rt, alloc, table, from, to), *expected);
    }
}

#[test]
fn assignment_of_types(rt: HostRuntime) {
    see_types(&rt, rt.alloc(), &side(&rt, rt.alloc()));
}

// Whether the class of this name may have the receiver, where it uses a protected member of
// `p/Base` through `p/Base`.
fn is_receiver(
    rt: &impl Abort,
    alloc: Global,
    table: &Table,
    class: &[u8],
    receiver: &[u8],
) -> bool {
    let class = class_of(rt, table, class);
    let owner = class_of(rt, table, b"p/Base");
    let found = Found {
        owner,
        flags: PROTECTED,
    };
    protected_ok(table, class, owner, found, &name(rt, alloc, receiver))
}

fn see_receivers(rt: &impl Abort, alloc: Global, table: &Table) {
    assert!(rt; is_receiver(rt, alloc, table, b"q/Child", b"q/Child"));
    assert!(rt; !is_receiver(rt, alloc, table, b"q/Child", b"p/Base"));
    assert!(rt; is_receiver(rt, alloc, table, b"p/Base", b"p/Base"));
}

#[test]
fn receivers_of_protected_members(rt: HostRuntime) {
    see_receivers(&rt, rt.alloc(), &side(&rt, rt.alloc()));
}
