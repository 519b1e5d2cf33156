//! For each rule, a record that breaks it alone, beside one that doesn't.
use crate::classes::{Declared, Row, class, plain};
use jc_facts::validity::is_valid;
use std::alloc::Global;
use std::process::Abort;

/// Major and flags of a class, its name, its superclass (none where it is empty) and an interface,
/// and whether the record is valid.
type ClassRow = (u16, u16, &'static [u8], &'static [u8], &'static [u8], bool);

const CLASSES: &[ClassRow] = &[
    (61, 0x0021, b"p/A", b"java/lang/Object", b"p/I", true),
    (61, 0x8021, b"p/A", b"java/lang/Object", b"p/I", false),
    (61, 0x0431, b"p/A", b"java/lang/Object", b"p/I", false),
    (61, 0x0601, b"p/A", b"java/lang/Object", b"p/I", true),
    (50, 0x0201, b"p/A", b"java/lang/Object", b"p/I", false),
    (49, 0x0201, b"p/A", b"java/lang/Object", b"p/I", true),
    (49, 0x0211, b"p/A", b"java/lang/Object", b"p/I", false),
    (61, 0x0021, b"p.A", b"java/lang/Object", b"p/I", false),
    (61, 0x0021, b"p/\xff", b"java/lang/Object", b"p/I", false),
    (61, 0x0021, b"p/A", b"", b"p/I", false),
    (61, 0x0021, b"java/lang/Object", b"", b"p/I", true),
    (61, 0x0021, b"java/lang/Object", b"p/A", b"p/I", false),
    (61, 0x0021, b"p/A", b"[I", b"p/I", false),
    (61, 0x0601, b"p/A", b"p/B", b"p/I", false),
    (61, 0x0021, b"p/A", b"java/lang/Object", b"p//I", false),
];

/// Major and flags of a class, and name, descriptor and flags of its only member, and whether the
/// record is valid.
type MemberRow = (u16, u16, &'static [u8], &'static [u8], u16, bool);

const FIELDS: &[MemberRow] = &[
    (61, 0x0021, b"f", b"I", 0x0001, true),
    (61, 0x0021, b"f/g", b"I", 0x0001, false),
    (61, 0x0021, b"f\x80", b"I", 0x0001, false),
    (61, 0x0021, b"f", b"()V", 0x0001, false),
    (61, 0x0021, b"f", b"Lp/\xc0;", 0x0001, false),
    (61, 0x0021, b"f", b"I", 0x0003, false),
    (61, 0x0021, b"f", b"I", 0x0005, false),
    (61, 0x0021, b"f", b"I", 0x0006, false),
    (61, 0x0021, b"f", b"I", 0x0051, false),
    (61, 0x0601, b"f", b"I", 0x0019, true),
    (61, 0x0601, b"f", b"I", 0x0011, false),
    (61, 0x0601, b"f", b"I", 0x0009, false),
    (61, 0x0601, b"f", b"I", 0x0018, false),
];

const METHODS: &[MemberRow] = &[
    (61, 0x0021, b"m", b"()V", 0x0001, true),
    (61, 0x0021, b"a>b", b"()V", 0x0001, false),
    (61, 0x0021, b"m", b"I", 0x0001, false),
    (61, 0x0021, b"m", b"()V", 0x0003, false),
    (61, 0x0421, b"m", b"()V", 0x0401, true),
    (61, 0x0421, b"m", b"()V", 0x0402, false),
    (61, 0x0421, b"m", b"()V", 0x0409, false),
    (61, 0x0421, b"m", b"()V", 0x0411, false),
    (61, 0x0421, b"m", b"()V", 0x0501, false),
    (61, 0x0021, b"<init>", b"()V", 0x0001, true),
    (61, 0x0021, b"<init>", b"()I", 0x0001, false),
    (61, 0x0021, b"<init>", b"()V", 0x0009, false),
    (61, 0x0021, b"<init>", b"()V", 0x0011, false),
    (61, 0x0021, b"<init>", b"()V", 0x0101, false),
    (61, 0x0421, b"<init>", b"()V", 0x0401, false),
    (52, 0x0601, b"m", b"()V", 0x0002, true),
    (52, 0x0601, b"m", b"()V", 0x0000, false),
    (51, 0x0601, b"m", b"()V", 0x0401, true),
    (51, 0x0601, b"m", b"()V", 0x0001, false),
    (51, 0x0601, b"<clinit>", b"()V", 0x0403, true),
    // 127 longs and an int take 255 slots, and an instance one more
    (
        61,
        0x0021,
        b"m",
        b"(JJJJJJJJJJJJJJJJJJJJJJJJJJJJJJJJJJJJJJJJJJJJJJJJJJJJJJJJJJJJJJJJJJJJJJJJJJJJJJJJJJJJJJJJJJJJJJJJJJJJJJJJJJJJJJJJJJJJJJJJJJJJJJJI)V",
        0x0009,
        true,
    ),
    (
        61,
        0x0021,
        b"m",
        b"(JJJJJJJJJJJJJJJJJJJJJJJJJJJJJJJJJJJJJJJJJJJJJJJJJJJJJJJJJJJJJJJJJJJJJJJJJJJJJJJJJJJJJJJJJJJJJJJJJJJJJJJJJJJJJJJJJJJJJJJJJJJJJJJI)V",
        0x0001,
        false,
    ),
];

/// Two names and a text, and whether a record is valid with them. The class has the fields `f` and
/// `g` of type `int`, of which only `g` isn't static.
type ListRow = (&'static [u8], &'static [u8], &'static [u8], bool);

const TWO_MEMBERS: &[ListRow] = &[(b"f", b"g", b"", true), (b"f", b"f", b"", false)];

const CONSTANTS: &[ListRow] = &[
    (b"f", b"e", b"x", true),
    (b"f", b"f", b"x", false),
    (b"f", b"g", b"x", false),
    (b"f", b"h", b"x", false),
    (b"f", b"e", b"\0", false),
];

/// An empty name stands for the class.
const SIGNATURES: &[ListRow] = &[
    (b"f", b"", b"TT;", true),
    (b"f", b"f", b"TT;", false),
    (b"", b"", b"TT;", false),
    (b"h", b"", b"TT;", false),
    (b"f", b"", b"\xf0", false),
];

/// A major and a name, and whether a record is valid that permits this subclass, has it as its nest
/// host, and as its nest member.
type NestRow = (u16, &'static [u8], bool, bool);

const NESTS: &[NestRow] = &[
    (61, b"p/B", true, true),
    (60, b"p/B", false, true),
    (55, b"p/B", false, true),
    (54, b"p/B", false, false),
    (61, b"[I", false, false),
];

/// Three fields of type `int`.
const INT_FIELDS: &[Declared<'static>] = &[
    (b"e", b"I", 0x0018),
    (b"f", b"I", 0x0008),
    (b"g", b"I", 0),
];

fn valid(rt: &impl Abort, alloc: Global, row: &Row) -> bool {
    is_valid(alloc, &class(rt, alloc, row)).expect(rt, "memory")
}

fn is_class(rt: &impl Abort, alloc: Global, row: &ClassRow) -> bool {
    let made = Row {
        name: row.2,
        superclass: row.3,
        interfaces: &[row.4],
        ..plain(row.0, row.1)
    };
    valid(rt, alloc, &made) == row.5
}

fn check_classes(rt: &impl Abort, alloc: Global, rows: &[ClassRow]) {
    for row in rows {
        assert!(rt; is_class(rt, alloc, row), "{row:?}");
    }
}

#[test]
fn rules_on_the_class(rt: HostRuntime) {
    check_classes(&rt, rt.alloc(), CLASSES);
}

fn is_field(rt: &impl Abort, alloc: Global, row: &MemberRow) -> bool {
    let made = Row {
        fields: &[(row.2, row.3, row.4)],
        ..plain(row.0, row.1)
    };
    valid(rt, alloc, &made) == row.5
}

fn check_fields(rt: &impl Abort, alloc: Global, rows: &[MemberRow]) {
    for row in rows {
        assert!(rt; is_field(rt, alloc, row), "{row:?}");
    }
}

#[test]
fn rules_on_a_field(rt: HostRuntime) {
    check_fields(&rt, rt.alloc(), FIELDS);
}

fn is_method(rt: &impl Abort, alloc: Global, row: &MemberRow) -> bool {
    let made = Row {
        methods: &[(row.2, row.3, row.4)],
        ..plain(row.0, row.1)
    };
    valid(rt, alloc, &made) == row.5
}

fn check_methods(rt: &impl Abort, alloc: Global, rows: &[MemberRow]) {
    for row in rows {
        assert!(rt; is_method(rt, alloc, row), "{row:?}");
    }
}

#[test]
fn rules_on_a_method(rt: HostRuntime) {
    check_methods(&rt, rt.alloc(), METHODS);
}

fn are_fields(rt: &impl Abort, alloc: Global, row: &ListRow) -> bool {
    let made = Row {
        fields: &[(row.0, b"I", 0), (row.1, b"I", 1)],
        ..plain(61, 0x0021)
    };
    valid(rt, alloc, &made) == row.3
}

fn are_methods(rt: &impl Abort, alloc: Global, row: &ListRow) -> bool {
    let made = Row {
        methods: &[(row.0, b"()V", 0), (row.1, b"()V", 1)],
        ..plain(61, 0x0021)
    };
    valid(rt, alloc, &made) == row.3
}

#[test]
fn keys_that_stand_twice(rt: HostRuntime) {
    for row in TWO_MEMBERS {
        assert!(rt; are_fields(&rt, rt.alloc(), row), "fields {row:?}");
        assert!(rt; are_methods(&rt, rt.alloc(), row), "methods {row:?}");
    }
}

fn are_constants(rt: &impl Abort, alloc: Global, row: &ListRow) -> bool {
    let made = Row {
        fields: INT_FIELDS,
        constants: &[(row.0, b""), (row.1, row.2)],
        ..plain(61, 0x0021)
    };
    valid(rt, alloc, &made) == row.3
}

#[test]
fn constants_of_fields(rt: HostRuntime) {
    for row in CONSTANTS {
        assert!(rt; are_constants(&rt, rt.alloc(), row), "{row:?}");
    }
}

fn are_signatures(rt: &impl Abort, alloc: Global, row: &ListRow) -> bool {
    let made = Row {
        fields: INT_FIELDS,
        signatures: &[(row.0, row.2), (row.1, b"TT;")],
        ..plain(61, 0x0021)
    };
    valid(rt, alloc, &made) == row.3
}

#[test]
fn signatures_of_fields_and_the_class(rt: HostRuntime) {
    for row in SIGNATURES {
        assert!(rt; are_signatures(&rt, rt.alloc(), row), "{row:?}");
    }
}

fn permits(rt: &impl Abort, alloc: Global, row: &NestRow) -> bool {
    let made = Row {
        permits: &[row.1],
        ..plain(row.0, 0x0021)
    };
    valid(rt, alloc, &made) == row.2
}

fn has_host(rt: &impl Abort, alloc: Global, row: &NestRow) -> bool {
    let made = Row {
        nest_host: row.1,
        ..plain(row.0, 0x0021)
    };
    valid(rt, alloc, &made) == row.3
}

fn has_member(rt: &impl Abort, alloc: Global, row: &NestRow) -> bool {
    let made = Row {
        nest_members: &[row.1],
        ..plain(row.0, 0x0021)
    };
    valid(rt, alloc, &made) == row.3
}

#[test]
fn nests_and_permitted_subclasses(rt: HostRuntime) {
    for row in NESTS {
        assert!(rt; permits(&rt, rt.alloc(), row), "permits {row:?}");
        assert!(rt; has_host(&rt, rt.alloc(), row), "nest host {row:?}");
        assert!(rt; has_member(&rt, rt.alloc(), row), "nest members {row:?}");
    }
}
