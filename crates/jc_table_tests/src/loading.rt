//! Load faults of small sides, by the pass over all classes and by the plain search.
use crate::rows::{INTERFACE, PLAIN, Row};
use crate::sides::{class_of, key, modular, name, table};
use jc_facts::key::Key;
use jc_facts::link_error::LinkError;
use jc_load::extending::extendable;
use jc_load::finals::finals;
use jc_load::loading::{load_error, search_fault};
use jc_table::table::Table;
use std::alloc::Global;
use std::process::Abort;

const FINAL: u16 = 0x0031;

const NO_CLASS: Option<LinkError> = Some(LinkError::NoClassDefFoundError);

const CIRCLE: Option<LinkError> = Some(LinkError::ClassCircularityError);

const CHANGED: Option<LinkError> = Some(LinkError::IncompatibleClassChangeError);

const NO_ACCESS: Option<LinkError> = Some(LinkError::IllegalAccessError);

// A class and its load fault.
const ROWS: &[(Row, Option<LinkError>)] = &[
    (PLAIN, None),
    // What isn't there, and what is above it.
    (
        Row {
            name: b"p/Orphan",
            superclass: b"q/None",
            ..PLAIN
        },
        NO_CLASS,
    ),
    (
        Row {
            name: b"p/Grandchild",
            superclass: b"p/Orphan",
            ..PLAIN
        },
        NO_CLASS,
    ),
    // Cycles; the superclass comes before the interfaces.
    (
        Row {
            name: b"p/Left",
            superclass: b"p/Right",
            interfaces: &[b"q/None"],
            ..PLAIN
        },
        CIRCLE,
    ),
    (
        Row {
            name: b"p/Right",
            superclass: b"p/Left",
            ..PLAIN
        },
        CIRCLE,
    ),
    (
        Row {
            name: b"p/Self",
            superclass: b"p/Self",
            ..PLAIN
        },
        CIRCLE,
    ),
    (
        Row {
            name: b"p/Above",
            superclass: b"p/Left",
            ..PLAIN
        },
        CIRCLE,
    ),
    // Kinds, and access before kinds.
    (
        Row {
            name: b"p/Final",
            flags: FINAL,
            ..PLAIN
        },
        None,
    ),
    (
        Row {
            name: b"p/OfFinal",
            superclass: b"p/Final",
            ..PLAIN
        },
        CHANGED,
    ),
    (
        Row {
            name: b"q/Hidden",
            flags: 0x0030,
            ..PLAIN
        },
        None,
    ),
    (
        Row {
            name: b"p/OfHidden",
            superclass: b"q/Hidden",
            ..PLAIN
        },
        NO_ACCESS,
    ),
    (
        Row {
            name: b"p/Interface",
            flags: INTERFACE,
            ..PLAIN
        },
        None,
    ),
    (
        Row {
            name: b"p/Implements",
            interfaces: &[b"p/Interface"],
            ..PLAIN
        },
        None,
    ),
    (
        Row {
            name: b"p/Extends",
            superclass: b"p/Interface",
            ..PLAIN
        },
        CHANGED,
    ),
    (
        Row {
            name: b"p/NoInterface",
            interfaces: &[b"p/Plain"],
            ..PLAIN
        },
        CHANGED,
    ),
    // Seals.
    (
        Row {
            name: b"p/Sealed",
            permits: Some(&[b"p/Let", b"q/Private"]),
            ..PLAIN
        },
        None,
    ),
    (
        Row {
            name: b"p/Let",
            superclass: b"p/Sealed",
            ..PLAIN
        },
        None,
    ),
    (
        Row {
            name: b"p/Unlet",
            superclass: b"p/Sealed",
            ..PLAIN
        },
        CHANGED,
    ),
    (
        Row {
            name: b"q/Private",
            flags: 0x0020,
            superclass: b"p/Sealed",
            ..PLAIN
        },
        CHANGED,
    ),
    // Final methods: a package-private one is overridden in its package alone.
    (
        Row {
            name: b"p/Fixed",
            methods: &[(b"m", b"()V", 0x0011)],
            ..PLAIN
        },
        None,
    ),
    (
        Row {
            name: b"p/Overrides",
            superclass: b"p/Fixed",
            methods: &[(b"m", b"()V", 0x0001)],
            ..PLAIN
        },
        CHANGED,
    ),
    (
        Row {
            name: b"p/Hides",
            superclass: b"p/Fixed",
            methods: &[(b"m", b"()V", 0x0002)],
            ..PLAIN
        },
        None,
    ),
    (
        Row {
            name: b"p/Near",
            methods: &[(b"m", b"()V", 0x0010)],
            ..PLAIN
        },
        None,
    ),
    (
        Row {
            name: b"q/Far",
            superclass: b"p/Near",
            methods: &[(b"m", b"()V", 0x0001)],
            ..PLAIN
        },
        None,
    ),
    (
        Row {
            name: b"p/Nearer",
            superclass: b"q/Far",
            methods: &[(b"m", b"()V", 0x0001)],
            ..PLAIN
        },
        CHANGED,
    ),
];

// What a function names is a part of it: the rows are named here alone.
fn rows() -> &'static [(Row, Option<LinkError>)] {
    ROWS
}

fn side(rt: &impl Abort, alloc: Global) -> Table {
    let mut side = Vec::new(alloc);
    for (row, _) in rows() {
        side.push(*row).expect(rt, "memory");
    }
    table(rt, alloc, side.as_slice())
}

// The load fault of the class, which the plain search finds too.
fn fault(rt: &impl Abort, alloc: Global, table: &Table, name: &[u8]) -> Option<LinkError> {
    let class = class_of(rt, table, name);
    let searched = search_fault(alloc, table, class).expect(rt, "memory");
    assert_eq!(rt; load_error(table, class), searched);
    searched
}

#[test]
fn load_faults_of_small_sides(rt: HostRuntime) {
    let table = side(&rt, rt.alloc());
    for (row, wanted) in rows() {
        assert_eq!(rt; fault(&rt, rt.alloc(), &table, row.name), *wanted);
    }
}

// A class, whether `p/Let` may extend it, and whether `m()V` is final in it.
const OPEN: &[(&[u8], bool, bool)] = &[
    (b"p/Plain", true, false),
    (b"p/Final", false, false),
    (b"q/Private", false, false),
    (b"p/Sealed", true, false),
    (b"p/Hides", true, true),
    (b"q/Far", true, false),
];

// Whether a class of this name may extend the class.
fn may_extend(rt: &impl Abort, alloc: Global, table: &Table, class: &[u8], text: &[u8]) -> bool {
    extendable(table, class_of(rt, table, class), &name(rt, alloc, text))
}

#[test]
fn who_may_extend(rt: HostRuntime) {
    let alloc = rt.alloc();
    let table = side(&rt, alloc);
    for (name, extends, _) in OPEN {
        assert_eq!(rt; may_extend(&rt, alloc, &table, name, b"p/Let"), *extends);
    }
    assert!(rt; !may_extend(&rt, alloc, &table, b"p/Sealed", b"p/Other"));
}

const SEALED: &[Row] = &[Row {
    name: b"p/S",
    permits: Some(&[b"q/C"]),
    ..PLAIN
}];

// Whether `q/C`, which the class permits, may extend it, where the release's module exports these packages.
fn may_be_permitted(rt: &impl Abort, alloc: Global, exports: Option<&[&[u8]]>) -> bool {
    let table = modular(rt, alloc, SEALED, exports);
    may_extend(rt, alloc, &table, b"p/S", b"q/C")
}

#[test]
fn who_may_extend_across_modules(rt: HostRuntime) {
    assert!(&rt; !may_be_permitted(&rt, rt.alloc(), Some(&[b"p"])));
    assert!(&rt; may_be_permitted(&rt, rt.alloc(), None));
}

fn see_finals(rt: &impl Abort, table: &Table, key: &Key) {
    for (name, _, is_final) in OPEN {
        assert_eq!(rt; finals(table, class_of(rt, table, name), key), *is_final);
    }
}

#[test]
fn who_may_override(rt: HostRuntime) {
    let table = side(&rt, rt.alloc());
    see_finals(&rt, &table, &key(&rt, rt.alloc(), b"m", b"()V"));
}
