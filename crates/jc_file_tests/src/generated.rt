//! Generated releases, and the text of the verdict on two.
use jc_base::items::Items;
use jc_base::name::Name;
use jc_facts::act::Act;
use jc_facts::class_facts::{ClassFacts, Member};
use jc_facts::finding::Finding;
use jc_facts::generate::{Made, generate};
use jc_facts::key::Key;
use jc_facts::link_error::LinkError;
use jc_facts::validity::is_valid;
use jc_facts::verdict::{Collision, Note, Verdict};
use jc_report::made_text::made_text;
use std::alloc::Global;
use std::process::Abort;

type Bytes = &'static [u8];

/// Name and flags of a method without parameters or result.
type Method = (Bytes, u16);

/// How many classes there are, the number of one, its name and its superclass, the name of its field,
/// and the field's flags and the methods in a release.
type Row = (u32, usize, Bytes, Bytes, Bytes, u16, &'static [Method]);

const INIT: Method = (b"<init>", 0x0001);

const OLD: &[Row] = &[
    (
        1,
        0,
        b"g/C0000",
        b"java/lang/Object",
        b"f0000",
        0x0009,
        &[INIT, (b"m0000", 0x0001)],
    ),
    (
        8,
        3,
        b"g/C0003",
        b"g/C0001",
        b"f0003",
        0x0009,
        &[INIT, (b"m0003", 0x0001)],
    ),
    (
        8,
        7,
        b"g/C0007",
        b"g/C0003",
        b"f0007",
        0x0009,
        &[INIT, (b"m0007", 0x0001)],
    ),
    (
        64,
        63,
        b"g/C0063",
        b"g/C0031",
        b"f0063",
        0x0009,
        &[INIT, (b"m0063", 0x0001)],
    ),
];

const NEW: &[Row] = &[
    (
        1,
        0,
        b"g/C0000",
        b"java/lang/Object",
        b"f0000",
        0x0009,
        &[INIT, (b"m0000", 0x0001)],
    ),
    (
        8,
        2,
        b"g/C0002",
        b"g/C0000",
        b"f0002",
        0x0009,
        &[INIT, (b"m0002", 0x0001)],
    ),
    (8, 3, b"g/C0003", b"g/C0001", b"f0003", 0x0009, &[INIT]),
    (
        8,
        4,
        b"g/C0004",
        b"g/C0001",
        b"f0004",
        0x0009,
        &[INIT, (b"m0004", 0x0001)],
    ),
    (
        8,
        5,
        b"g/C0005",
        b"g/C0002",
        b"f0005",
        0x0009,
        &[INIT, (b"m0005", 0x0001), (b"p0005", 0x0002)],
    ),
    (
        8,
        6,
        b"g/C0006",
        b"g/C0002",
        b"f0006",
        0x0019,
        &[INIT, (b"m0006", 0x0001)],
    ),
    (
        8,
        7,
        b"g/C0007",
        b"g/C0003",
        b"f0007",
        0x0009,
        &[INIT, (b"m0007", 0x0011)],
    ),
    (64, 59, b"g/C0059", b"g/C0029", b"f0059", 0x0009, &[INIT]),
    (
        64,
        63,
        b"g/C0063",
        b"g/C0031",
        b"f0063",
        0x0009,
        &[INIT, (b"m0063", 0x0011)],
    ),
];

fn methods(rt: &impl Abort, alloc: Global, list: &[Method]) -> Vec<Member> {
    let mut methods = Vec::new(alloc);
    for (name, flags) in list {
        methods
            .push(Member::new(alloc, name, b"()V", *flags).expect(rt, "memory"))
            .expect(rt, "memory");
    }
    methods
}

// The record of a row.
fn class(rt: &impl Abort, alloc: Global, row: &Row) -> ClassFacts {
    let (_, _, name, superclass, field, flags, list) = row;
    let mut fields = Vec::new(alloc);
    fields
        .push(Member::new(alloc, field, b"I", *flags).expect(rt, "memory"))
        .expect(rt, "memory");
    let methods = methods(rt, alloc, list);
    let name = Name::from_bytes(alloc, name).expect(rt, "memory");
    let superclass = Name::from_bytes(alloc, superclass).expect(rt, "memory");
    ClassFacts::plain(alloc, name, Some(superclass), fields, methods)
}

fn are_valid(rt: &impl Abort, alloc: Global, classes: &[ClassFacts]) -> bool {
    for class in classes {
        if !is_valid(alloc, class).expect(rt, "memory") {
            return false;
        }
    }
    true
}

// Whether the release has so many classes, all valid, and at its place the one of the row.
fn has(rt: &impl Abort, alloc: Global, release: &Items<ClassFacts>, row: &Row) -> bool {
    let wanted = class(rt, alloc, row);
    let classes = release.as_slice();
    are_valid(rt, alloc, classes)
        && classes.len() == row.0 as usize
        && classes.get(row.1) == Some(&wanted)
}

fn generated(rt: &impl Abort, alloc: Global, classes: u32) -> Made {
    assert!(rt; classes >= 1 && classes <= 4096);
    generate(alloc, classes).expect(rt, "memory")
}

fn check_old(rt: &impl Abort, alloc: Global, rows: &[Row]) {
    for row in rows {
        let made = generated(rt, alloc, row.0);
        assert!(rt; has(rt, alloc, &made.old, row), "{} of {}", row.1, row.0);
    }
}

fn check_new(rt: &impl Abort, alloc: Global, rows: &[Row]) {
    for row in rows {
        let made = generated(rt, alloc, row.0);
        assert!(rt; has(rt, alloc, &made.new, row), "{} of {}", row.1, row.0);
    }
}

#[test]
fn classes_of_the_old_release(rt: HostRuntime) {
    check_old(&rt, rt.alloc(), OLD);
}

#[test]
fn classes_of_the_new_release(rt: HostRuntime) {
    check_new(&rt, rt.alloc(), NEW);
}

fn root(rt: &impl Abort, alloc: Global) -> ClassFacts {
    let name = Name::from_bytes(alloc, b"java/lang/Object").expect(rt, "memory");
    let methods = methods(rt, alloc, &[INIT]);
    ClassFacts::plain(alloc, name, None, Vec::new(alloc), methods)
}

#[test]
fn the_platform_is_its_root(rt: HostRuntime) {
    let made = generated(&rt, rt.alloc(), 8);
    let root = root(&rt, rt.alloc());
    let platform = made.platform.as_slice();
    assert!(rt; platform.len() == 1 && platform.get(0) == Some(&root));
}

/// How many classes, findings, collisions and notes there are, and the text.
type TextRow = (u32, u32, u32, u32, &'static str);

const TEXTS: &[TextRow] = &[
    (
        8,
        4,
        1,
        0,
        "classes 8\nfindings 4\ncollisions 1\nnotes 0\nverdict incompatible\n",
    ),
    (
        64,
        86,
        32,
        0,
        "classes 64\nfindings 86\ncollisions 32\nnotes 0\nverdict incompatible\n",
    ),
    (
        1,
        0,
        0,
        0,
        "classes 1\nfindings 0\ncollisions 0\nnotes 0\nverdict compatible\n",
    ),
    (
        4096,
        0,
        1,
        2,
        "classes 4096\nfindings 0\ncollisions 1\nnotes 2\nverdict compatible\n",
    ),
];

fn finding(rt: &impl Abort, alloc: Global) -> Finding {
    Finding {
        rule: 1,
        class: Name::from_bytes(alloc, b"p/A").expect(rt, "memory"),
        key: None,
        target: None,
        act: Act::ClassRef,
        seat: None,
        error: LinkError::NoClassDefFoundError,
    }
}

fn collision(rt: &impl Abort, alloc: Global) -> Collision {
    Collision {
        rule: 11,
        class: Name::from_bytes(alloc, b"p/A").expect(rt, "memory"),
        key: Key {
            name: Name::from_bytes(alloc, b"run").expect(rt, "memory"),
            descriptor: Name::from_bytes(alloc, b"()V").expect(rt, "memory"),
        },
        act: Act::InvokeVirtual,
        error: LinkError::IllegalAccessError,
    }
}

fn note(rt: &impl Abort, alloc: Global) -> Note {
    Note::Unloadable {
        old: true,
        class: Name::from_bytes(alloc, b"p/A").expect(rt, "memory"),
        error: LinkError::ClassCircularityError,
    }
}

fn findings(rt: &impl Abort, alloc: Global, count: u32) -> Items<Finding> {
    let mut findings = Vec::new(alloc);
    for _ in 0..count {
        findings.push(finding(rt, alloc)).expect(rt, "memory");
    }
    Items::from_vec(findings)
}

fn collisions(rt: &impl Abort, alloc: Global, count: u32) -> Items<Collision> {
    let mut collisions = Vec::new(alloc);
    for _ in 0..count {
        collisions.push(collision(rt, alloc)).expect(rt, "memory");
    }
    Items::from_vec(collisions)
}

fn notes(rt: &impl Abort, alloc: Global, count: u32) -> Items<Note> {
    let mut notes = Vec::new(alloc);
    for _ in 0..count {
        notes.push(note(rt, alloc)).expect(rt, "memory");
    }
    Items::from_vec(notes)
}

// Whether the text on so many classes and a verdict of so many findings, collisions and notes is that of the row.
fn has_text(rt: &impl Abort, alloc: Global, row: &TextRow) -> bool {
    let verdict = Verdict {
        findings: findings(rt, alloc, row.1),
        collisions: collisions(rt, alloc, row.2),
        notes: notes(rt, alloc, row.3),
    };
    let text = made_text(alloc, row.0, &verdict).expect(rt, "memory");
    text.as_slice() == row.4.as_bytes()
}

#[test]
fn texts_of_five_lines(rt: HostRuntime) {
    for row in TEXTS {
        assert!(rt; has_text(&rt, rt.alloc(), row), "{row:?}");
    }
}
