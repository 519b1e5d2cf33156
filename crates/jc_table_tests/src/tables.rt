//! Tables of small sides: a plain `p/A` over a platform of `java/lang/Object` alone, roots that aren't as they have to be, and classes on a cycle.
use crate::rows::{INTERFACE, PLAIN, ROOT, Row};
use crate::sides::{build, class_of, made, name, table};
use jc_facts::class_facts::ClassFacts;
use jc_facts::key_set::KeyRef;
use jc_index::members::own_field;
use jc_index::plain::find;
use jc_index::root::{RootPart, root_fault};
use jc_table::table::{Table, TableError};
use std::alloc::Global;
use std::process::Abort;

const A: Row = Row {
    name: b"p/A",
    ..PLAIN
};

fn see_plain_class(rt: &impl Abort, table: &Table) {
    assert_eq!(rt; table.count(), 2);
    assert_eq!(rt; table.id(2), None);
    let object = table.id(0).expect(rt, "a first class");
    let plain = class_of(rt, table, b"p/A");
    assert_eq!(rt; table.id(1), Some(plain));
    assert_eq!(rt; table.get(b"java/lang/Object"), Some(object));
    assert_eq!(rt; table.get(b"p/B"), None);
    assert!(rt; table.facts(plain).name.as_bytes() == b"p/A".as_slice());
    assert_eq!(rt; table.superclass(plain), Some(object));
    assert_eq!(rt; table.superclass(object), None);
    assert!(rt; table.in_platform(object) && !table.in_platform(plain));
    assert!(rt; table.has_super(plain, object) && table.has_super(plain, plain));
    assert!(rt; !table.has_super(object, plain));
}

#[test]
fn plain_class_over_a_platform(rt: HostRuntime) {
    see_plain_class(&rt, &table(&rt, rt.alloc(), &[A]));
}

// Whether the name is declared twice.
fn is_overlap(built: &Result<Table, TableError>, name: &[u8]) -> bool {
    match built {
        Err(TableError::Overlap(twice)) => twice.as_bytes() == name,
        _ => false,
    }
}

fn is_without_root(built: &Result<Table, TableError>) -> bool {
    match built {
        Err(TableError::BadRoot(part)) => *part == RootPart::Missing,
        _ => false,
    }
}

#[test]
fn a_release_with_a_class_of_the_platform(rt: HostRuntime) {
    let built = build(&rt, rt.alloc(), &[ROOT], &[ROOT]);
    assert!(rt; is_overlap(&built, b"java/lang/Object"));
}

#[test]
fn a_platform_without_a_root(rt: HostRuntime) {
    let built = build(&rt, rt.alloc(), &[], &[ROOT]);
    assert!(rt; is_without_root(&built));
}

// A `java/lang/Object`, and the part of it that isn't as it has to be.
const ROOTS: &[(Row, Option<RootPart>)] = &[
    (ROOT, None),
    (
        Row {
            flags: 0x0020,
            superclass: b"p/A",
            ..ROOT
        },
        Some(RootPart::Flags),
    ),
    (
        Row {
            flags: 0x0031,
            ..ROOT
        },
        Some(RootPart::Flags),
    ),
    (
        Row {
            flags: 0x0601,
            ..ROOT
        },
        Some(RootPart::Flags),
    ),
    (
        Row {
            superclass: b"p/A",
            interfaces: &[b"p/I"],
            ..ROOT
        },
        Some(RootPart::Super),
    ),
    (
        Row {
            interfaces: &[b"p/I"],
            fields: &[(b"f", b"I", 0x0001)],
            ..ROOT
        },
        Some(RootPart::Interfaces),
    ),
    (
        Row {
            fields: &[(b"f", b"I", 0x0001)],
            permits: Some(&[]),
            ..ROOT
        },
        Some(RootPart::Fields),
    ),
    (
        Row {
            permits: Some(&[]),
            methods: &[(b"<init>", b"()V", 0x0004)],
            ..ROOT
        },
        Some(RootPart::Permits),
    ),
    (
        Row {
            methods: &[(b"<init>", b"()V", 0x0004)],
            ..ROOT
        },
        Some(RootPart::Init),
    ),
    (
        Row {
            methods: &[(b"init", b"()V", 0x0001)],
            ..ROOT
        },
        Some(RootPart::Init),
    ),
];

#[test]
fn each_part_of_a_root(rt: HostRuntime) {
    assert_eq!(rt; root_fault(&[]), Some(RootPart::Missing));
    for (row, part) in ROOTS {
        let root = made(&rt, rt.alloc(), &[*row]);
        assert_eq!(rt; root_fault(root.as_slice()), *part);
    }
}

// `p/A` and `p/B` extend each other, `p/C` itself, and `p/E` what isn't there.
const CYCLES: &[Row] = &[
    Row {
        name: b"p/C",
        superclass: b"p/C",
        ..PLAIN
    },
    Row {
        name: b"p/B",
        superclass: b"p/A",
        ..PLAIN
    },
    Row {
        name: b"p/D",
        superclass: b"p/A",
        ..PLAIN
    },
    Row {
        name: b"p/E",
        superclass: b"q/None",
        ..PLAIN
    },
    Row {
        name: b"p/A",
        superclass: b"p/B",
        ..PLAIN
    },
];

// A class, and those that stand above it.
const ABOVE: &[(&[u8], &[&[u8]])] = &[
    (b"p/A", &[b"p/A", b"p/B"]),
    (b"p/B", &[b"p/A", b"p/B"]),
    (b"p/C", &[b"p/C"]),
    (b"p/D", &[b"p/A", b"p/B", b"p/D"]),
    (b"p/E", &[b"p/E"]),
];

// Names, of which the last two are of no class.
const SOUGHT: &[&[u8]] = &[b"p/A", b"p/E", b"java/lang/Object", b"q/None", b""];

// Whether just these stand above the class, of those that have a row.
fn has_above(table: &Table, name: &[u8], above: &[&[u8]]) -> bool {
    let Some(id) = table.get(name) else {
        return false;
    };
    for (other, _) in ABOVE {
        let Some(of) = table.get(other) else {
            return false;
        };
        if table.has_super(id, of) != above.contains(other) {
            return false;
        }
    }
    true
}

// Whether the table has the same class of this name as the lists have.
fn finds_the_same(
    table: &Table,
    platform: &[ClassFacts],
    release: &[ClassFacts],
    name: &[u8],
) -> bool {
    match (table.get(name), find(platform, release, name)) {
        (None, None) => true,
        (Some(id), Some(class)) => table.facts(id).name == class.name,
        _ => false,
    }
}

fn see_cycles(rt: &impl Abort, table: &Table) {
    for (name, above) in ABOVE {
        assert!(rt; has_above(table, name, above));
    }
}

fn see_same(rt: &impl Abort, table: &Table, platform: &[ClassFacts], release: &[ClassFacts]) {
    for name in SOUGHT {
        assert!(rt; finds_the_same(table, platform, release, name));
    }
}

#[test]
fn classes_on_a_cycle(rt: HostRuntime) {
    let alloc = rt.alloc();
    let table = table(&rt, alloc, CYCLES);
    see_cycles(&rt, &table);
    let platform = made(&rt, alloc, &[ROOT]);
    let release = made(&rt, alloc, CYCLES);
    see_same(&rt, &table, platform.as_slice(), release.as_slice());
}

// `p/J` extends the interface `p/I`, which declares the field `f`, the class `p/S` implements `p/J` and permits `q/T` to extend
// it.
const SEALED: &[Row] = &[
    Row {
        name: b"p/J",
        flags: INTERFACE,
        interfaces: &[b"p/I"],
        ..PLAIN
    },
    Row {
        name: b"p/I",
        flags: INTERFACE,
        fields: &[(b"f", b"I", 0x0019)],
        ..PLAIN
    },
    Row {
        name: b"p/S",
        interfaces: &[b"p/J"],
        permits: Some(&[b"q/T"]),
        ..PLAIN
    },
];

fn see_interfaces(rt: &impl Abort, table: &Table) {
    let upper = class_of(rt, table, b"p/I");
    let lower = class_of(rt, table, b"p/J");
    let sealed = class_of(rt, table, b"p/S");
    assert!(rt; table.is_below(sealed, upper) && table.is_below(sealed, lower));
    assert!(rt; table.is_below(lower, upper) && table.is_below(upper, upper));
    assert!(rt; !table.is_below(upper, lower) && !table.is_below(lower, sealed));
    assert!(rt; table.interfaces(sealed).len() == 2 && table.interfaces(sealed).contains(&upper));
    assert!(rt; table.interfaces(lower).len() == 1 && table.interfaces(upper).is_empty());
    assert_eq!(rt; table.fault_at(sealed), None);
    assert!(rt; table.load_faults().len() == 4);
}

fn see_own_fields(rt: &impl Abort, table: &Table) {
    let key = KeyRef::new(b"f", b"I");
    let upper = class_of(rt, table, b"p/I");
    let lower = class_of(rt, table, b"p/J");
    assert!(rt; own_field(table.facts(upper), &key).is_some());
    assert!(rt; own_field(table.facts(lower), &key).is_none());
}

fn names_super(rt: &impl Abort, alloc: Global, table: &Table, text: &[u8]) -> bool {
    table.names_super(&name(rt, alloc, text))
}

fn see_names(rt: &impl Abort, table: &Table) {
    assert!(rt; table.has_package(b"p") && table.has_package(b"java/lang"));
    assert!(rt; !table.has_package(b"q"));
    assert!(rt; table.begins(b"q/") && table.begins(b"p/J"));
    assert!(rt; !table.begins(b"p/K") && !table.begins(b"q/TT"));
    assert_eq!(rt; table.mention_count(), 10);
}

fn sealed(rt: &impl Abort, alloc: Global) -> Table {
    table(rt, alloc, SEALED)
}

#[test]
fn interfaces_and_fields_of_a_side(rt: HostRuntime) {
    let table = sealed(&rt, rt.alloc());
    see_interfaces(&rt, &table);
    see_own_fields(&rt, &table);
}

#[test]
fn names_of_a_side(rt: HostRuntime) {
    let alloc = rt.alloc();
    let table = sealed(&rt, alloc);
    see_names(&rt, &table);
    assert!(rt; names_super(&rt, alloc, &table, b"p/J"));
    assert!(rt; !names_super(&rt, alloc, &table, b"q/T"));
}
