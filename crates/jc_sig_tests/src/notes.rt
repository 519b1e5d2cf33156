//! Notes on the signatures of two releases of one class, and their printed forms.
ghost use Rattle.std.specs.Prelude.{◌≡◌};

use jc_base::items::Items;
use jc_base::name::Name;
use jc_facts::class_facts::{ClassFacts, Signed};
use jc_facts::key::Key;
use jc_facts::sig_note::SigNote;
use jc_index::plain::{are_valid, names_differ};
use jc_report::sig_notes::{sig_json, sig_text};
use jc_sig::notes::signature_notes;
use jc_table::table::Table;
use jc_table_tests::rows::{OBJECT, PLAIN, ROOT, Row, class, classes};
use std::alloc::Global;
use std::process::Abort;

const A: Row = Row {
    name: b"p/A",
    fields: &[(b"f", OBJECT_TYPE, 0x0002)],
    methods: &[(b"<init>", b"()V", 0x0001), (b"get", GETS_OBJECT, 0x0001)],
    ..PLAIN
};

const HIDDEN: Row = Row { flags: 0x0020, ..A };

const OBJECT_TYPE: &[u8] = b"Ljava/lang/Object;";

const GETS_OBJECT: &[u8] = b"()Ljava/lang/Object;";

fn name(rt: &impl Abort, alloc: Global, text: &[u8]) -> Name {
    Name::from_bytes(alloc, text).expect(rt, "memory")
}

// The key of the member of the class, and none of the class itself.
fn key(rt: &impl Abort, alloc: Global, member: &str) -> Option<Key> {
    match member {
        "f" => Some(Key {
            name: name(rt, alloc, b"f"),
            descriptor: name(rt, alloc, OBJECT_TYPE),
        }),
        "get" => Some(Key {
            name: name(rt, alloc, b"get"),
            descriptor: name(rt, alloc, GETS_OBJECT),
        }),
        _ => None,
    }
}

// The class of the row, of which the member, or the class itself, has this signature; an empty text is none.
fn record(rt: &impl Abort, alloc: Global, row: &Row, member: &str, text: &str) -> ClassFacts {
    let mut facts = class(alloc, row).expect(rt, "memory");
    let mut signatures = Vec::new(alloc);
    if !text.is_empty() {
        let signed = Signed {
            key: key(rt, alloc, member),
            text: name(rt, alloc, text.as_bytes()),
        };
        signatures.push(signed).expect(rt, "memory");
    }
    facts.signatures = Items::from_vec(signatures);
    facts
}

// The table of a release of this class alone.
fn table(rt: &impl Abort, alloc: Global, platform: &[ClassFacts], class: ClassFacts) -> Table
    ensures { result.platform ≡ platform.now }
{
    let mut release = Vec::new(alloc);
    release.push(class).expect(rt, "memory");
    assert!(rt; are_valid(alloc, platform).expect(rt, "memory"));
    assert!(rt; are_valid(alloc, release.as_slice()).expect(rt, "memory"));
    assert!(rt; names_differ(platform) && names_differ(release.as_slice()));
    assert!(rt; platform.len() <= 1000 && release.len() <= 1000);
    Table::build(alloc, platform, release).expect(rt, "a table")
}

// The notes where the member has one signature before and another one after.
fn notes(
    rt: &impl Abort,
    alloc: Global,
    rows: (&Row, &Row),
    member: &str,
    texts: (&str, &str),
) -> Vec<SigNote> {
    let platform = classes(alloc, &[ROOT]).expect(rt, "memory");
    let old = record(rt, alloc, rows.0, member, texts.0);
    let new = record(rt, alloc, rows.1, member, texts.1);
    let old = table(rt, alloc, platform.as_slice(), old);
    let new = table(rt, alloc, platform.as_slice(), new);
    signature_notes(alloc, &old, &new).expect(rt, "memory")
}

// The member, its signatures before and after, and what is printed of the change.
const CHANGES: &[(&str, &str, &str, &str)] = &[
    (
        "",
        "<T:Ljava/lang/Object;>Ljava/lang/Object;",
        "<T::Ljava/lang/Comparable;>Ljava/lang/Object;",
        "- parameters",
    ),
    (
        "",
        "<T:Ljava/lang/Object;>Ljava/lang/Object;",
        "<T",
        "- unread",
    ),
    ("", "<T", "<T", ""),
    ("", "", "Ljava/lang/Object;", "- new"),
    (
        "get",
        "()TT;",
        "()Ljava/lang/Object;",
        "get()Ljava/lang/Object; result",
    ),
    (
        "get",
        "()TT;",
        "()TT;^TX;",
        "get()Ljava/lang/Object; throws",
    ),
    ("get", "()TT;", "", "get()Ljava/lang/Object; gone"),
    ("f", "TT;", "TU;", "f:Ljava/lang/Object; whole"),
    ("f", "TT;", "TT;", ""),
];

#[test]
fn changes_of_signatures(rt: HostRuntime) {
    let alloc = rt.alloc();
    for (member, old, new, wanted) in CHANGES {
        let notes = notes(&rt, alloc, (&A, &A), member, (old, new));
        let text = sig_text(alloc, notes.as_slice()).expect(&rt, "memory");
        let wanted = match *wanted {
            "" => format!(in alloc; ""),
            change => format!(in alloc; "note signature p/A {change}\n"),
        };
        let wanted = wanted.expect(&rt, "memory");
        assert!(rt; text.as_slice() == wanted.as_bytes(), "at {old} and {new}");
    }
}

#[test]
fn a_class_that_is_hidden_on_one_side_has_no_note(rt: HostRuntime) {
    let alloc = rt.alloc();
    let before = notes(&rt, alloc, (&HIDDEN, &A), "f", ("TT;", "TU;"));
    assert!(rt; before.is_empty());
    let after = notes(&rt, alloc, (&A, &HIDDEN), "f", ("TT;", "TU;"));
    assert!(rt; after.is_empty());
}

#[test]
fn json_of_notes(rt: HostRuntime) {
    let alloc = rt.alloc();
    let notes = notes(&rt, alloc, (&A, &A), "", ("", "LA;"));
    let text = sig_json(alloc, notes.as_slice()).expect(&rt, "memory");
    let wanted = "{\"signatures\":[{\"change\":\"new\",\"class\":\"p/A\",\"member\":null}]}\n";
    assert!(rt; text.as_slice() == wanted.as_bytes());
}
