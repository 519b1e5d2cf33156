//! The printed forms of verdicts.
use jc_base::items::Items;
use jc_base::name::Name;
use jc_base::sure_sink::SureSink;
use jc_facts::act::Act;
use jc_facts::finding::Finding;
use jc_facts::key::Key;
use jc_facts::link_error::LinkError;
use jc_facts::verdict::{Collision, Note, Verdict};
use jc_facts::warning::{WarnKind, Warning};
use jc_report::json::json;
use jc_report::put_listing::put_listing;
use jc_report::text::text;
use jc_report::warnings::{warn_json, warn_text};
use std::alloc::Global;
use std::process::Abort;

type Bytes = &'static [u8];

/// A finding: its rule, class, key, target, act, seat and error.
type FindingRow = (
    u8,
    Bytes,
    Option<(Bytes, Bytes)>,
    Option<Bytes>,
    Act,
    Option<Bytes>,
    LinkError,
);

const FINDINGS: &[FindingRow] = &[
    (
        1,
        b"p/\\ \xc3\xa9",
        None,
        None,
        Act::ClassRef,
        None,
        LinkError::NoClassDefFoundError,
    ),
    (
        2,
        b"p/B",
        None,
        None,
        Act::Extend,
        None,
        LinkError::IncompatibleClassChangeError,
    ),
    (
        3,
        b"p/I",
        None,
        None,
        Act::Assignment,
        None,
        LinkError::VerifyError,
    ),
    (
        4,
        b"p/A",
        None,
        Some(b"p/B"),
        Act::Assignment,
        None,
        LinkError::VerifyError,
    ),
    (
        5,
        b"p/A",
        Some((b"<init>", b"()V")),
        None,
        Act::NewObject,
        None,
        LinkError::IllegalAccessError,
    ),
    (
        5,
        b"p/B",
        Some((b"<init>", b"()V")),
        None,
        Act::InitSuper,
        None,
        LinkError::NoSuchMethodError,
    ),
    (
        6,
        b"p/A",
        Some((b"m", b"()V")),
        None,
        Act::Override,
        None,
        LinkError::IncompatibleClassChangeError,
    ),
    (
        7,
        b"p/D",
        Some((b"f", b"I")),
        None,
        Act::GetStatic,
        Some(b"p/C"),
        LinkError::NoSuchFieldError,
    ),
    (
        8,
        b"p/A",
        Some((b"m", b"([I)Ljava/lang/Object;")),
        None,
        Act::InvokeStaticInterface,
        Some(b"java/lang/Object"),
        LinkError::InstantiationError,
    ),
    (
        9,
        b"p/I",
        Some((b"n", b"()I")),
        None,
        Act::Inherit,
        None,
        LinkError::NoSuchMethodError,
    ),
];

/// A collision: its rule, class, key, act and error.
type CollisionRow = (u8, Bytes, (Bytes, Bytes), Act, LinkError);

const COLLISIONS: &[CollisionRow] = &[
    (
        10,
        b"p/I",
        (b"f", b"I"),
        Act::GetField,
        LinkError::IncompatibleClassChangeError,
    ),
    (
        11,
        b"p/A",
        (b"run", b"()V"),
        Act::InvokeVirtual,
        LinkError::IllegalAccessError,
    ),
    (
        12,
        b"p/A",
        (b"close", b"()V"),
        Act::Override,
        LinkError::IncompatibleClassChangeError,
    ),
];

const TEXT: &str = r"1 H1 p/\\\x20\xc3\xa9 - class - NoClassDefFoundError
2 H2 p/B - extend - IncompatibleClassChangeError
3 H3 p/I - assign - VerifyError
4 H4 p/A p/B assign - VerifyError
5 H5 p/A <init>()V new - IllegalAccessError
6 H5 p/B <init>()V init - NoSuchMethodError
7 H6 p/A m()V override - IncompatibleClassChangeError
8 H7 p/D f:I getstatic p/C NoSuchFieldError
9 H8 p/A m([I)Ljava/lang/Object; invokestatic-interface java/lang/Object InstantiationError
10 H9 p/I n()I inherit - NoSuchMethodError
11 Constant p/I f:I getfield - IncompatibleClassChangeError
12 Capture p/A run()V invokevirtual - IllegalAccessError
13 Final p/A close()V override - IncompatibleClassChangeError
note unloadable old p/X ClassCircularityError
note unloadable new p/Y NoClassDefFoundError
note constant p/A f:I
incompatible: 10 findings, 3 collisions, 3 notes
";

const JSON: &str =
    r#"{"collisions":[{"class":"p/I","error":"IncompatibleClassChangeError","member":"f:I","number":11,"operation":"getfield","rule":"Constant","seat":null},{"class":"p/A","error":"IllegalAccessError","member":"run()V","number":12,"operation":"invokevirtual","rule":"Capture","seat":null},{"class":"p/A","error":"IncompatibleClassChangeError","member":"close()V","number":13,"operation":"override","rule":"Final","seat":null}],"findings":[{"class":"p/\\\\\\x20\\xc3\\xa9","error":"NoClassDefFoundError","member":null,"number":1,"operation":"class","rule":"H1","seat":null},{"class":"p/B","error":"IncompatibleClassChangeError","member":null,"number":2,"operation":"extend","rule":"H2","seat":null},{"class":"p/I","error":"VerifyError","member":null,"number":3,"operation":"assign","rule":"H3","seat":null},{"class":"p/A","error":"VerifyError","member":"p/B","number":4,"operation":"assign","rule":"H4","seat":null},{"class":"p/A","error":"IllegalAccessError","member":"<init>()V","number":5,"operation":"new","rule":"H5","seat":null},{"class":"p/B","error":"NoSuchMethodError","member":"<init>()V","number":6,"operation":"init","rule":"H5","seat":null},{"class":"p/A","error":"IncompatibleClassChangeError","member":"m()V","number":7,"operation":"override","rule":"H6","seat":null},{"class":"p/D","error":"NoSuchFieldError","member":"f:I","number":8,"operation":"getstatic","rule":"H7","seat":"p/C"},{"class":"p/A","error":"InstantiationError","member":"m([I)Ljava/lang/Object;","number":9,"operation":"invokestatic-interface","rule":"H8","seat":"java/lang/Object"},{"class":"p/I","error":"NoSuchMethodError","member":"n()I","number":10,"operation":"inherit","rule":"H9","seat":null}],"notes":[{"class":"p/X","detail":"ClassCircularityError","kind":"unloadable","member":null,"side":"old"},{"class":"p/Y","detail":"NoClassDefFoundError","kind":"unloadable","member":null,"side":"new"},{"class":"p/A","detail":null,"kind":"constant","member":"f:I","side":null}],"verdict":"incompatible"}
"#;

fn name(rt: &impl Abort, alloc: Global, bytes: Option<&[u8]>) -> Option<Name> {
    match bytes {
        Some(bytes) => Some(Name::from_bytes(alloc, bytes).expect(rt, "memory")),
        None => None,
    }
}

fn key(rt: &impl Abort, alloc: Global, parts: (&[u8], &[u8])) -> Key {
    Key {
        name: Name::from_bytes(alloc, parts.0).expect(rt, "memory"),
        descriptor: Name::from_bytes(alloc, parts.1).expect(rt, "memory"),
    }
}

fn finding(rt: &impl Abort, alloc: Global, row: &FindingRow) -> Finding {
    let key = match row.2 {
        Some(parts) => Some(key(rt, alloc, parts)),
        None => None,
    };
    Finding {
        rule: row.0,
        class: Name::from_bytes(alloc, row.1).expect(rt, "memory"),
        key,
        target: name(rt, alloc, row.3),
        act: row.4,
        seat: name(rt, alloc, row.5),
        error: row.6,
    }
}

fn collision(rt: &impl Abort, alloc: Global, row: &CollisionRow) -> Collision {
    Collision {
        rule: row.0,
        class: Name::from_bytes(alloc, row.1).expect(rt, "memory"),
        key: key(rt, alloc, row.2),
        act: row.3,
        error: row.4,
    }
}

fn unloadable(rt: &impl Abort, alloc: Global, old: bool, class: &[u8], error: LinkError) -> Note {
    let class = Name::from_bytes(alloc, class).expect(rt, "memory");
    Note::Unloadable { old, class, error }
}

fn fixed(rt: &impl Abort, alloc: Global) -> Note {
    let class = Name::from_bytes(alloc, b"p/A").expect(rt, "memory");
    let key = key(rt, alloc, (b"f", b"I"));
    Note::Fixed { class, key }
}

fn notes(rt: &impl Abort, alloc: Global) -> Items<Note> {
    let mut notes = Vec::new(alloc);
    let old = unloadable(rt, alloc, true, b"p/X", LinkError::ClassCircularityError);
    notes.push(old).expect(rt, "memory");
    let new = unloadable(rt, alloc, false, b"p/Y", LinkError::NoClassDefFoundError);
    notes.push(new).expect(rt, "memory");
    notes.push(fixed(rt, alloc)).expect(rt, "memory");
    Items::from_vec(notes)
}

fn findings(rt: &impl Abort, alloc: Global, rows: &[FindingRow]) -> Items<Finding> {
    let mut findings = Vec::new(alloc);
    for row in rows {
        findings.push(finding(rt, alloc, row)).expect(rt, "memory");
    }
    Items::from_vec(findings)
}

fn collisions(rt: &impl Abort, alloc: Global, rows: &[CollisionRow]) -> Items<Collision> {
    let mut collisions = Vec::new(alloc);
    for row in rows {
        collisions
            .push(collision(rt, alloc, row))
            .expect(rt, "memory");
    }
    Items::from_vec(collisions)
}

// The verdict of all rows.
fn verdict(rt: &impl Abort, alloc: Global) -> Verdict {
    Verdict {
        findings: findings(rt, alloc, FINDINGS),
        collisions: collisions(rt, alloc, COLLISIONS),
        notes: notes(rt, alloc),
    }
}

// The text of a verdict is this.
fn has_text(rt: &impl Abort, alloc: Global, verdict: &Verdict, want: &str) -> bool {
    text(alloc, verdict).expect(rt, "memory").as_slice() == want.as_bytes()
}

fn has_json(rt: &impl Abort, alloc: Global, verdict: &Verdict, want: &str) -> bool {
    json(alloc, verdict).expect(rt, "memory").as_slice() == want.as_bytes()
}

#[test]
fn prints_each_rule_and_note(rt: HostRuntime) {
    let verdict = verdict(&rt, rt.alloc());
    assert!(rt; has_text(&rt, rt.alloc(), &verdict, TEXT));
    assert!(rt; has_json(&rt, rt.alloc(), &verdict, JSON));
}

#[test]
fn prints_the_last_line_alone(rt: HostRuntime) {
    let verdict = Verdict {
        findings: Items::from_vec(Vec::new(rt.alloc())),
        collisions: Items::from_vec(Vec::new(rt.alloc())),
        notes: Items::from_vec(Vec::new(rt.alloc())),
    };
    let line = "compatible: 0 findings, 0 collisions, 0 notes\n";
    assert!(rt; has_text(&rt, rt.alloc(), &verdict, line));
}

const NOTES_TEXT: &str = "note unloadable old p/X ClassCircularityError
note unloadable new p/Y NoClassDefFoundError
note constant p/A f:I
";

const NOTES_JSON: &str =
    r#"{"warnings":[{"class":"p/X","detail":"ClassCircularityError","kind":"unloadable","member":null,"side":"old"},{"class":"p/Y","detail":"NoClassDefFoundError","kind":"unloadable","member":null,"side":"new"},{"class":"p/A","detail":null,"kind":"constant","member":"f:I","side":null}]}
"#;

// The listing of all notes, below a key of its own.
fn listed(rt: &impl Abort, alloc: Global, as_json: bool, want: &str) -> bool {
    let notes = notes(rt, alloc);
    let mut sink = SureSink::new(alloc);
    put_listing(alloc, as_json, "warnings", notes.as_slice(), &mut sink).expect(rt, "put");
    sink.bytes() == want.as_bytes()
}

#[test]
fn lists_items_as_lines_or_below_one_key(rt: HostRuntime) {
    assert!(rt; listed(&rt, rt.alloc(), false, NOTES_TEXT));
    assert!(rt; listed(&rt, rt.alloc(), true, NOTES_JSON));
}

const WARNINGS: &[(Bytes, (Bytes, Bytes), WarnKind)] = &[
    (b"p/A", (b"k", b"()V"), WarnKind::Lost),
    (b"p/B", (b"k", b"()V"), WarnKind::Abstract),
    (b"p/I", (b"k", b"()V"), WarnKind::Defaults),
];

const WARNINGS_TEXT: &str = "warning p/A k()V lost
warning p/B k()V abstract
warning p/I k()V defaults
";

const WARNINGS_JSON: &str =
    r#"{"warnings":[{"class":"p/A","kind":"lost","member":"k()V"},{"class":"p/B","kind":"abstract","member":"k()V"},{"class":"p/I","kind":"defaults","member":"k()V"}]}
"#;

#[test]
fn prints_each_kind_of_warning(rt: HostRuntime) {
    let alloc = rt.alloc();
    let mut warnings = Vec::new(alloc);
    for (class, parts, kind) in WARNINGS {
        let warning = Warning {
            class: Name::from_bytes(alloc, class).expect(&rt, "memory"),
            key: key(&rt, alloc, *parts),
            kind: *kind,
        };
        warnings.push(warning).expect(&rt, "memory");
    }
    let text = warn_text(alloc, warnings.as_slice()).expect(&rt, "memory");
    assert!(rt; text.as_slice() == WARNINGS_TEXT.as_bytes());
    let json = warn_json(alloc, warnings.as_slice()).expect(&rt, "memory");
    assert!(rt; json.as_slice() == WARNINGS_JSON.as_bytes());
}
