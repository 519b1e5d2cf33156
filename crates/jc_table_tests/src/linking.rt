//! What linking small clients gives, step by step and error by error.
use crate::rows::{INTERFACE, OBJECT, PLAIN, ROOT, Row, class};
use crate::sides::{key, name, names, valid};
use jc_base::items::Items;
use jc_base::name::Name;
use jc_facts::act::Act;
use jc_facts::client::{ClientClass, Item, Place};
use jc_facts::client_validity::is_valid_client;
use jc_facts::link_error::LinkError;
use jc_facts::outcome::Outcome;
use jc_link::link::link;
use jc_link::modular::link_modular;
use jc_link::plain;
use jc_link::refusal::{ClientPart, LinkRefusal};
use std::alloc::Global;
use std::process::Abort;

/// A text of the rows: a name, a descriptor, or the name of a type.
type Word = &'static [u8];

/// One item of a client.
#[derive(Clone, Copy)]
enum Use {
    Class(Word),
    New(Word, Word),
    Init(Word, Word),
    /// An act on a member, its name and descriptor, and the receiver, nothing where none is known; in a method that is no initializer.
    Access(Act, Word, Word, Word, Word),
    /// The same in an initializer.
    Put(Act, Word, Word, Word, Place),
    Assign(Word, Word),
}

/// An item of the client, and the error that the steps give it.
type Step = (Use, Option<LinkError>);

const NO_CLASS: Option<LinkError> = Some(LinkError::NoClassDefFoundError);

const CIRCLE: Option<LinkError> = Some(LinkError::ClassCircularityError);

const CHANGED: Option<LinkError> = Some(LinkError::IncompatibleClassChangeError);

const NO_ACCESS: Option<LinkError> = Some(LinkError::IllegalAccessError);

const NOT_MADE: Option<LinkError> = Some(LinkError::InstantiationError);

const NO_FIELD: Option<LinkError> = Some(LinkError::NoSuchFieldError);

const NO_METHOD: Option<LinkError> = Some(LinkError::NoSuchMethodError);

const UNVERIFIED: Option<LinkError> = Some(LinkError::VerifyError);

fn receiver(rt: &impl Abort, alloc: Global, word: &[u8]) -> Option<Name> {
    if word.is_empty() {
        None
    } else {
        Some(name(rt, alloc, word))
    }
}

fn item(rt: &impl Abort, alloc: Global, of: &Use) -> Item {
    match *of {
        Use::Class(class) => Item::Class {
            class: name(rt, alloc, class),
        },
        Use::New(class, descriptor) => Item::New {
            class: name(rt, alloc, class),
            descriptor: name(rt, alloc, descriptor),
        },
        Use::Init(class, descriptor) => Item::Init {
            class: name(rt, alloc, class),
            descriptor: name(rt, alloc, descriptor),
        },
        Use::Access(act, class, member, descriptor, from) => Item::Access {
            act,
            class: name(rt, alloc, class),
            key: key(rt, alloc, member, descriptor),
            receiver: receiver(rt, alloc, from),
            place: Place::Other,
        },
        Use::Put(act, class, member, descriptor, place) => Item::Access {
            act,
            class: name(rt, alloc, class),
            key: key(rt, alloc, member, descriptor),
            receiver: None,
            place,
        },
        Use::Assign(from, to) => Item::Assign {
            from: name(rt, alloc, from),
            to: name(rt, alloc, to),
        },
    }
}

fn items(rt: &impl Abort, alloc: Global, steps: &[Step]) -> Items<Item> {
    let mut items = Vec::new(alloc);
    for step in steps {
        items.push(item(rt, alloc, &step.0)).expect(rt, "memory");
    }
    Items::from_vec(items)
}

fn client(rt: &impl Abort, alloc: Global, row: &Row, steps: &[Step]) -> ClientClass {
    ClientClass {
        facts: class(alloc, row).expect(rt, "memory"),
        items: items(rt, alloc, steps),
    }
}

/// What `link` answers, whose conditions are seen to first.
fn linked(
    rt: &impl Abort,
    alloc: Global,
    platform: &[Row],
    release: &[Row],
    clients: Vec<ClientClass>,
) -> Result<Vec<Outcome>, LinkRefusal> {
    let platform = valid(rt, alloc, platform);
    let release = valid(rt, alloc, release);
    assert!(rt; plain::are_valid(alloc, clients.as_slice()).expect(rt, "memory"));
    assert!(rt; plain::names_differ(alloc, clients.as_slice()).expect(rt, "memory"));
    assert!(rt; clients.len() <= 40_000);
    link(alloc, platform.as_slice(), release, clients)
}

const INIT: (Word, Word, u16) = (b"<init>", b"()V", 0x0001);

/// A base class with members of each kind, classes that don't load or may not be named or made, and one that has nothing to do with
/// any other.
const RELEASE: &[Row] = &[
    Row {
        name: b"p/Base",
        fields: &[
            (b"open", b"I", 0x0001),
            (b"secret", b"I", 0x0002),
            (b"last", b"I", 0x0011),
        ],
        methods: &[
            INIT,
            (b"<init>", b"(I)V", 0x0004),
            (b"m", b"()V", 0x0001),
            (b"near", b"()V", 0x0000),
            (b"kept", b"()V", 0x0004),
            (b"s", b"()V", 0x0009),
        ],
        ..PLAIN
    },
    Row {
        name: b"p/Other",
        superclass: b"p/Base",
        ..PLAIN
    },
    Row {
        name: b"p/Alone",
        methods: &[(b"<init>", b"()V", 0x0002), (b"m", b"()V", 0x0001)],
        ..PLAIN
    },
    Row {
        name: b"p/Hidden",
        flags: 0x0020,
        ..PLAIN
    },
    Row {
        name: b"p/Abstract",
        flags: 0x0421,
        methods: &[INIT],
        ..PLAIN
    },
    Row {
        name: b"p/Face",
        flags: INTERFACE,
        methods: &[(b"k", b"()V", 0x0401)],
        ..PLAIN
    },
    Row {
        name: b"p/Final",
        flags: 0x0031,
        ..PLAIN
    },
    Row {
        name: b"p/BelowFinal",
        superclass: b"p/Final",
        ..PLAIN
    },
    Row {
        name: b"p/Orphan",
        superclass: b"p/Gone",
        ..PLAIN
    },
    Row {
        name: b"p/Cycle",
        superclass: b"p/CycleToo",
        ..PLAIN
    },
    Row {
        name: b"p/CycleToo",
        superclass: b"p/Cycle",
        ..PLAIN
    },
];

const MID: Row = Row {
    name: b"q/Mid",
    superclass: b"p/Base",
    methods: &[INIT, (b"<init>", b"(J)V", 0x0002)],
    ..PLAIN
};

const CLIENT: Row = Row {
    name: b"q/C",
    superclass: b"q/Mid",
    fields: &[(b"own", b"I", 0x0011), (b"shared", b"I", 0x0019)],
    methods: &[INIT],
    ..PLAIN
};

const CLASS_STEP: &[Step] = &[
    (Use::Class(b"p/Base"), None),
    (Use::Class(b"[I"), None),
    (Use::Class(b"p/Gone"), NO_CLASS),
    (Use::Class(b"p/Orphan"), NO_CLASS),
    (Use::Class(b"p/Cycle"), CIRCLE),
    (Use::Class(b"p/BelowFinal"), CHANGED),
    (Use::Class(b"p/Hidden"), NO_ACCESS),
    (Use::Class(b"[Lp/Hidden;"), NO_ACCESS),
    (Use::New(b"p/Gone", b"()V"), NO_CLASS),
    (Use::New(b"p/Abstract", b"()V"), NOT_MADE),
    (Use::New(b"p/Face", b"()V"), NOT_MADE),
];

const LOOKUP_STEP: &[Step] = &[
    (
        Use::Access(Act::GetField, b"p/Base", b"none", b"I", b""),
        NO_FIELD,
    ),
    (
        Use::Access(Act::InvokeVirtual, b"p/Base", b"none", b"()V", b""),
        NO_METHOD,
    ),
    (
        Use::Access(Act::InvokeVirtual, b"p/Face", b"k", b"()V", b""),
        CHANGED,
    ),
    (
        Use::Access(Act::InvokeInterface, b"p/Face", b"k", b"()V", b""),
        None,
    ),
    (
        Use::Access(Act::InvokeInterface, b"p/Face", b"none", b"()V", b""),
        NO_METHOD,
    ),
    (
        Use::Access(Act::InvokeInterface, b"p/Base", b"m", b"()V", b""),
        CHANGED,
    ),
    (
        Use::Access(Act::GetField, b"[I", b"length", b"I", b""),
        NO_FIELD,
    ),
    (
        Use::Access(Act::InvokeVirtual, b"[I", b"m", b"()V", b""),
        NO_METHOD,
    ),
    (
        Use::Access(Act::InvokeInterface, b"[I", b"m", b"()V", b""),
        CHANGED,
    ),
    (Use::New(b"p/Other", b"()V"), NO_METHOD),
    (Use::New(b"[I", b"()V"), NO_METHOD),
    (Use::Init(b"q/Mid", b"()V"), None),
    (Use::Init(b"q/Mid", b"(I)V"), NO_METHOD),
];

const ACCESS_AND_KIND: &[Step] = &[
    (
        Use::Access(Act::GetField, b"p/Base", b"open", b"I", b"q/C"),
        None,
    ),
    (
        Use::Access(Act::GetField, b"p/Base", b"secret", b"I", b""),
        NO_ACCESS,
    ),
    (
        Use::Access(Act::GetStatic, b"p/Base", b"secret", b"I", b""),
        NO_ACCESS,
    ),
    (
        Use::Access(Act::InvokeVirtual, b"p/Base", b"near", b"()V", b""),
        NO_ACCESS,
    ),
    (Use::New(b"p/Alone", b"()V"), NO_ACCESS),
    (Use::Init(b"q/Mid", b"(J)V"), NO_ACCESS),
    (
        Use::Access(Act::GetStatic, b"p/Base", b"open", b"I", b""),
        CHANGED,
    ),
    (
        Use::Access(Act::InvokeStatic, b"p/Base", b"m", b"()V", b""),
        CHANGED,
    ),
    (
        Use::Access(Act::InvokeVirtual, b"p/Base", b"s", b"()V", b""),
        CHANGED,
    ),
    (
        Use::Access(Act::InvokeStatic, b"p/Base", b"s", b"()V", b""),
        None,
    ),
];

const FINAL_STEP: &[Step] = &[
    (
        Use::Put(Act::PutField, b"q/C", b"own", b"I", Place::Init),
        None,
    ),
    (
        Use::Put(Act::PutField, b"q/C", b"own", b"I", Place::Other),
        NO_ACCESS,
    ),
    (
        Use::Put(Act::PutStatic, b"q/C", b"shared", b"I", Place::Clinit),
        None,
    ),
    (
        Use::Put(Act::PutStatic, b"q/C", b"shared", b"I", Place::Init),
        NO_ACCESS,
    ),
    (
        Use::Put(Act::PutField, b"p/Base", b"last", b"I", Place::Init),
        NO_ACCESS,
    ),
    (
        Use::Put(Act::PutStatic, b"p/Base", b"last", b"I", Place::Init),
        CHANGED,
    ),
];

const ASSIGNMENT_STEP: &[Step] = &[
    (
        Use::Access(Act::InvokeVirtual, b"p/Base", b"m", b"()V", b"p/Other"),
        None,
    ),
    (
        Use::Access(Act::InvokeVirtual, b"p/Base", b"m", b"()V", b"p/Alone"),
        UNVERIFIED,
    ),
    // Protected, of another package: the receiver has to be the client, whatever class is named.
    (
        Use::Access(Act::InvokeVirtual, b"p/Base", b"kept", b"()V", b"q/C"),
        None,
    ),
    (
        Use::Access(Act::InvokeVirtual, b"p/Base", b"kept", b"()V", b""),
        None,
    ),
    (
        Use::Access(Act::InvokeVirtual, b"p/Base", b"kept", b"()V", b"p/Base"),
        UNVERIFIED,
    ),
    (
        Use::Access(Act::InvokeVirtual, b"q/Mid", b"kept", b"()V", b"q/Mid"),
        UNVERIFIED,
    ),
    (Use::New(b"p/Base", b"(I)V"), UNVERIFIED),
    (
        Use::Access(Act::InvokeSpecial, b"p/Base", b"m", b"()V", b"q/C"),
        None,
    ),
    (
        Use::Access(Act::InvokeSpecial, b"p/Base", b"m", b"()V", b"p/Base"),
        UNVERIFIED,
    ),
    (
        Use::Access(Act::InvokeSpecial, b"p/Alone", b"m", b"()V", b""),
        UNVERIFIED,
    ),
    (Use::Assign(b"p/Other", b"p/Base"), None),
    (Use::Assign(b"p/Alone", b"p/Face"), None),
    (Use::Assign(b"[Lp/Other;", b"[Lp/Base;"), None),
    (Use::Assign(b"p/Alone", b"p/Base"), UNVERIFIED),
    (Use::Assign(b"[I", b"[J"), UNVERIFIED),
];

/// A client with some items, and its superclass with others.
fn clients(
    rt: &impl Abort,
    alloc: Global,
    row: &Row,
    steps: &[Step],
    above: &[Step],
) -> Vec<ClientClass> {
    let mut clients = Vec::new(alloc);
    clients
        .push(client(rt, alloc, &MID, above))
        .expect(rt, "memory");
    clients
        .push(client(rt, alloc, row, steps))
        .expect(rt, "memory");
    clients
}

/// The outcomes of the clients with the release.
fn outcomes(rt: &impl Abort, alloc: Global, clients: Vec<ClientClass>) -> Vec<Outcome> {
    linked(rt, alloc, &[ROOT], RELEASE, clients).expect(rt, "outcomes")
}

/// Whether the outcomes are those of the client's own loading, of the steps, and of the loading of its superclass, which stands after
/// it by name.
fn see_errors(rt: &impl Abort, outcomes: &[Outcome], steps: &[Step]) {
    assert_eq!(rt; outcomes.len(), steps.len() + 2);
    for (outcome, step) in outcomes[1..].iter().zip(steps) {
        assert_eq!(rt; outcome.error, step.1);
    }
}

fn check(rt: &impl Abort, alloc: Global, steps: &[Step]) {
    let clients = clients(rt, alloc, &CLIENT, steps, &[]);
    see_errors(rt, outcomes(rt, alloc, clients).as_slice(), steps);
}

#[test]
fn errors_of_the_class_step(rt: HostRuntime) {
    check(&rt, rt.alloc(), CLASS_STEP);
}

#[test]
fn errors_of_lookup(rt: HostRuntime) {
    check(&rt, rt.alloc(), LOOKUP_STEP);
}

#[test]
fn errors_of_access_and_kind(rt: HostRuntime) {
    check(&rt, rt.alloc(), ACCESS_AND_KIND);
}

#[test]
fn errors_of_final_fields(rt: HostRuntime) {
    check(&rt, rt.alloc(), FINAL_STEP);
}

#[test]
fn errors_of_assignment(rt: HostRuntime) {
    check(&rt, rt.alloc(), ASSIGNMENT_STEP);
}

const ORPHAN: Row = Row {
    superclass: b"p/Gone",
    ..CLIENT
};

const ARRAY: &[Step] = &[(Use::Class(b"[I"), None)];

/// A class and its error.
type Told = (Word, Option<LinkError>);

const BY_NAME: &[Told] = &[(b"q/C", NO_CLASS), (b"q/Mid", None), (b"q/Mid", None)];

fn see_told(rt: &impl Abort, outcomes: &[Outcome], wanted: &[Told]) {
    assert_eq!(rt; outcomes.len(), wanted.len());
    for (outcome, told) in outcomes.iter().zip(wanted) {
        assert!(rt; outcome.class.as_bytes() == told.0);
        assert_eq!(rt; outcome.error, told.1);
    }
}

#[test]
fn clients_by_name_and_items_where_they_load(rt: HostRuntime) {
    let clients = clients(&rt, rt.alloc(), &ORPHAN, ARRAY, ARRAY);
    see_told(&rt, outcomes(&rt, rt.alloc(), clients).as_slice(), BY_NAME);
}

// ---- refusals

/// A class below one that isn't there.
const BELOW: Row = Row {
    name: b"p/A",
    superclass: b"q/Above",
    ..PLAIN
};

/// The refusal of a plain client of this name over a release with the class `p/A` below `q/Above`.
fn refusal(rt: &impl Abort, alloc: Global, platform: &[Row], called: &[u8]) -> LinkRefusal {
    let mut client = client(rt, alloc, &PLAIN, &[]);
    client.facts.name = name(rt, alloc, called);
    let mut clients = Vec::new(alloc);
    clients.push(client).expect(rt, "memory");
    linked(rt, alloc, platform, &[BELOW], clients)
        .err()
        .expect(rt, "a refusal")
}

fn is_of_name(refusal: &LinkRefusal, called: &[u8], wanted: ClientPart) -> bool {
    match refusal {
        LinkRefusal::ClientName { name, part } => name.as_bytes() == called && *part == wanted,
        _ => false,
    }
}

fn see_refusal(rt: &impl Abort, alloc: Global, called: &[u8], wanted: ClientPart) {
    let refusal = refusal(rt, alloc, &[ROOT], called);
    assert!(rt; is_of_name(&refusal, called, wanted));
}

/// A name, and the part of it for which no client may have it.
const REFUSED: &[(Word, ClientPart)] = &[
    (b"p/A", ClientPart::Declared),
    (b"q/Above", ClientPart::Super),
    (b"p/X", ClientPart::Package),
    // A lone surrogate: a name in modified UTF-8, and no UTF-8.
    (b"r/\xed\xa0\x80", ClientPart::Encoding),
];

#[test]
fn names_that_no_client_may_have(rt: HostRuntime) {
    let alloc = rt.alloc();
    for (called, part) in REFUSED {
        see_refusal(&rt, alloc, called, *part);
    }
    let long = vec![in alloc; b'n'; 4091].expect(&rt, "memory");
    see_refusal(&rt, alloc, long.as_slice(), ClientPart::Length);
}

#[test]
fn the_root_comes_before_names(rt: HostRuntime) {
    let refusal = refusal(&rt, rt.alloc(), &[], b"p/X");
    assert!(rt; matches!(refusal, LinkRefusal::BadRoot(_)));
}

/// A platform that also has a class of the release.
const BOTH: &[Row] = &[ROOT, BELOW];

#[test]
fn overlap_comes_before_names(rt: HostRuntime) {
    let refusal = refusal(&rt, rt.alloc(), BOTH, b"p/X");
    assert!(rt; matches!(refusal, LinkRefusal::Overlap(_)));
}

// ---- modules

/// Names a class of a package that the release's module may export.
const NAMES_IT: &[Step] = &[
    (Use::Init(OBJECT, b"()V"), None),
    (Use::Class(b"p/A"), None),
];

const NAMED: &[Row] = &[Row {
    name: b"p/A",
    ..PLAIN
}];

const WITNESS: Row = Row {
    name: b"w0/Y",
    methods: &[INIT],
    ..PLAIN
};

/// What `link_modular` answers of the client that names `p/A`, over a release whose module exports these packages.
fn outcomes_of_naming(rt: &impl Abort, alloc: Global, exported: &[&[u8]]) -> Vec<Outcome> {
    let platform = valid(rt, alloc, &[ROOT]);
    let release = valid(rt, alloc, NAMED);
    let mut clients = Vec::new(alloc);
    clients
        .push(client(rt, alloc, &WITNESS, NAMES_IT))
        .expect(rt, "memory");
    assert!(rt; plain::are_valid(alloc, clients.as_slice()).expect(rt, "memory"));
    assert!(rt; plain::names_differ(alloc, clients.as_slice()).expect(rt, "memory"));
    assert!(rt; clients.len() <= 40_000);
    let exports = Some(names(rt, alloc, exported));
    link_modular(alloc, platform.as_slice(), release, exports, clients).expect(rt, "outcomes")
}

const STILL_EXPORTED: &[Told] = &[(b"w0/Y", None), (b"w0/Y", None), (b"w0/Y", None)];

const NO_LONGER: &[Told] = &[(b"w0/Y", None), (b"w0/Y", None), (b"w0/Y", NO_ACCESS)];

#[test]
fn a_class_of_a_package_that_is_no_longer_exported(rt: HostRuntime) {
    let exported = outcomes_of_naming(&rt, rt.alloc(), &[b"p"]);
    see_told(&rt, exported.as_slice(), STILL_EXPORTED);
    let hidden = outcomes_of_naming(&rt, rt.alloc(), &[]);
    see_told(&rt, hidden.as_slice(), NO_LONGER);
}
