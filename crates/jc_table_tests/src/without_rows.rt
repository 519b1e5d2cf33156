//! Of which classes of the platform rows are made. Lookups from the others walk.
use crate::agreeing::{same_field, same_method, see_rows};
use crate::rows::{Declared, INTERFACE, PLAIN, ROOT, Row};
use crate::sides::{key, loaded, table_over};
use jc_facts::key::Key;
use jc_field::find::find_field;
use jc_field::keys::found_field_keys;
use jc_method::keys::found_method_keys;
use jc_table::table::Table;
use std::alloc::Global;
use std::process::Abort;

const NUMBER: &[u8] = b"I";

const ACTION: &[u8] = b"()V";

const METHOD: &[Declared] = &[(b"m", ACTION, 0x0001)];

const BASE: Row = Row {
    name: b"q/Base",
    fields: &[(b"f", NUMBER, 0x0001)],
    methods: METHOD,
    ..PLAIN
};

const FACE: Row = Row {
    name: b"q/Face",
    flags: INTERFACE,
    fields: &[(b"c", NUMBER, 0x0019)],
    methods: &[(b"d", ACTION, 0x0001)],
    ..PLAIN
};

// `q/Base` stands above a class of the release, and the others don't.
const PLATFORM: &[Row] = &[
    ROOT,
    BASE,
    FACE,
    Row {
        name: b"q/Lower",
        flags: INTERFACE,
        interfaces: &[b"q/Face"],
        ..PLAIN
    },
    Row {
        name: b"q/Other",
        superclass: b"q/Base",
        interfaces: &[b"q/Lower"],
        methods: METHOD,
        ..PLAIN
    },
];

const CLASS: Row = Row {
    name: b"p/A",
    superclass: b"q/Base",
    ..PLAIN
};

fn with_platform(rt: &impl Abort, alloc: Global) -> Table {
    table_over(rt, alloc, PLATFORM, &[CLASS])
}

// A platform of which three classes stand on a release: one extends a class of it, one stands below
// that one, and one implements an interface of it. `q/Beside` stands beside them.
const STANDING: &[Row] = &[
    ROOT,
    BASE,
    FACE,
    Row {
        name: b"q/Below",
        superclass: b"p/A",
        interfaces: &[b"q/Face"],
        ..PLAIN
    },
    Row {
        name: b"q/Beside",
        superclass: b"q/Base",
        fields: &[(b"z", NUMBER, 0x0001)],
        methods: METHOD,
        ..PLAIN
    },
    Row {
        name: b"q/Lowest",
        superclass: b"q/Below",
        methods: METHOD,
        ..PLAIN
    },
    Row {
        name: b"q/Maker",
        interfaces: &[b"p/I"],
        ..PLAIN
    },
];

const STOOD_ON: &[Row] = &[
    CLASS,
    Row {
        name: b"p/I",
        ..FACE
    },
];

fn with_standing(rt: &impl Abort, alloc: Global) -> Table {
    table_over(rt, alloc, STANDING, STOOD_ON)
}

// A class, and how many entries its rows of fields and of methods have.
type Lengths = (&'static [u8], Option<usize>, Option<usize>);

const LENGTHS: &[Lengths] = &[
    (b"java/lang/Object", Some(0), Some(1)),
    (b"p/A", Some(1), Some(2)),
    (b"q/Base", Some(1), Some(2)),
    (b"q/Face", None, None),
    (b"q/Lower", None, None),
    (b"q/Other", None, None),
];

const OF_STANDING: &[Lengths] = &[
    (b"java/lang/Object", Some(0), Some(1)),
    (b"p/A", Some(1), Some(2)),
    (b"p/I", Some(1), Some(2)),
    (b"q/Base", Some(1), Some(2)),
    (b"q/Below", Some(2), Some(3)),
    (b"q/Beside", None, None),
    (b"q/Face", Some(1), Some(2)),
    (b"q/Lowest", Some(2), Some(3)),
    (b"q/Maker", Some(1), Some(2)),
];

fn see_lengths(rt: &impl Abort, table: &Table, lengths: &[Lengths]) {
    for (name, fields, methods) in lengths {
        let class = loaded(rt, table, name);
        assert_eq!(rt; table.field_row(class).map(|row| row.len()), *fields);
        assert_eq!(rt; table.method_row(class).map(|row| row.len()), *methods);
    }
}

// The fields and the methods that some class declares.
const FIELDS: &[&[u8]] = &[b"c", b"f"];

const METHODS: &[&[u8]] = &[b"<init>", b"d", b"m"];

fn see_field(rt: &impl Abort, table: &Table, key: &Key) {
    for (name, _, _) in LENGTHS {
        assert!(rt; same_field(table, loaded(rt, table, name), key));
    }
}

fn see_method(rt: &impl Abort, table: &Table, key: &Key) {
    for (name, _, _) in LENGTHS {
        assert!(rt; same_method(table, loaded(rt, table, name), key));
    }
}

// The keys that `q/Other` has, its own and those above it; the constant has no number.
fn see_keys(rt: &impl Abort, alloc: Global, table: &Table, constant: &Key) {
    let class = loaded(rt, table, b"q/Other");
    assert_eq!(rt; table.key_count(), 3);
    assert_eq!(rt; table.key_number(constant), None);
    assert_eq!(rt;
        find_field(table, class, constant).map(|found| found.owner),
        table.get(b"q/Face")
    );
    let fields = found_field_keys(alloc, table, class).expect(rt, "memory");
    assert!(rt; fields.len() == 2 && fields.as_slice().contains(constant));
    let methods = found_method_keys(alloc, table, class).expect(rt, "memory");
    assert_eq!(rt; methods.len(), 3);
}

#[test]
fn rows_of_the_classes_above_a_release(rt: HostRuntime) {
    see_lengths(&rt, &with_platform(&rt, rt.alloc()), LENGTHS);
}

#[test]
fn rows_of_the_platforms_classes_that_stand_on_a_release(rt: HostRuntime) {
    let table = with_standing(&rt, rt.alloc());
    see_lengths(&rt, &table, OF_STANDING);
    see_rows(&rt, &table);
    // c, d, f, m and the initializer of `java/lang/Object`, but not z.
    assert_eq!(&rt; table.key_count(), 5);
}

#[test]
fn lookups_without_rows_find_what_walks_find(rt: HostRuntime) {
    let alloc = rt.alloc();
    let table = with_platform(&rt, alloc);
    for name in FIELDS {
        see_field(&rt, &table, &key(&rt, alloc, name, NUMBER));
    }
    for name in METHODS {
        see_method(&rt, &table, &key(&rt, alloc, name, ACTION));
    }
}

#[test]
fn keys_of_a_class_without_rows(rt: HostRuntime) {
    let alloc = rt.alloc();
    let table = with_platform(&rt, alloc);
    see_keys(&rt, alloc, &table, &key(&rt, alloc, b"c", NUMBER));
}
