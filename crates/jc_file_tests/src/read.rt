//! Class files byte by byte: what is read of them, or their first fault and its offset.
use jc_base::name::Name;
use jc_desc::fault::{Malformed, Reason};
use jc_facts::class_facts::Constant;
use jc_read::read::{ReadError, read_class};
use std::alloc::Global;
use std::process::Abort;

/// The class `p/A` without members.
pub(crate) const PLAIN: &[u8] =
    b"\xca\xfe\xba\xbe\0\0\0\x34\0\x05\x07\0\x02\x01\0\x03p/A\x07\0\x04\x01\0\x10java/lang/Object\0\x21\0\x01\0\x03\0\0\0\0\0\0\0\0";

/// The class `q/U` with the method `static public use()V`, which returns.
pub(crate) const USER: &[u8] =
    b"\xca\xfe\xba\xbe\0\0\0\x34\0\x08\x07\0\x02\x01\0\x03q/U\x07\0\x04\x01\0\x10java/lang/Object\x01\0\x03use\x01\0\x03()V\x01\0\x04Code\0\x21\0\x01\0\x03\0\0\0\0\0\x01\0\x09\0\x05\0\x06\0\x01\0\x07\0\0\0\x0d\0\0\0\0\0\0\0\x01\xb1\0\0\0\0\0\0";

/// The class `p/A` with the field `static final int f`, of the value 64 and the signature `I`.
const HOLDER: &[u8] =
    b"\xca\xfe\xba\xbe\0\0\0\x34\0\x0a\x07\0\x02\x01\0\x03p/A\x07\0\x04\x01\0\x10java/lang/Object\x01\0\x01f\x01\0\x01I\x01\0\x0dConstantValue\x03\0\0\0\x40\x01\0\x09Signature\0\x21\0\x01\0\x03\0\0\0\x01\0\x18\0\x05\0\x06\0\x02\0\x07\0\0\0\x02\0\x08\0\x09\0\0\0\x02\0\x06\0\0\0\0";

/// A place, how many bytes are cut there, and those that come in their place.
pub(crate) type Edit = (usize, usize, &'static [u8]);

/// What is changed in a file, how, and its first fault then, if any.
type Row = (&'static str, &'static [Edit], Option<(u32, Reason)>);

const PLAIN_ROWS: &[Row] = &[
    ("nothing", &[], None),
    (
        "a byte too many",
        &[(55, 0, b"\0")],
        Some((55, Reason::Trailing)),
    ),
    (
        "the last byte missing",
        &[(54, 1, b"")],
        Some((54, Reason::Short)),
    ),
    ("the magic", &[(0, 1, b"\0")], Some((0, Reason::BadMagic))),
    (
        "major 66",
        &[(7, 1, b"\x42")],
        Some((4, Reason::BadVersion)),
    ),
    ("major 62", &[(7, 1, b"\x3e")], None),
    (
        "the flags of a module",
        &[(41, 2, b"\x80\0")],
        Some((41, Reason::BadFlags)),
    ),
    (
        "an entry of tag 2",
        &[(19, 1, b"\x02")],
        Some((19, Reason::BadTag)),
    ),
    (
        "a byte that begins no character",
        &[(16, 1, b"\x80")],
        Some((13, Reason::BadUtf8)),
    ),
    (
        "a dot in the name",
        &[(18, 1, b".")],
        Some((10, Reason::BadName)),
    ),
    (
        "this_class is a Utf8",
        &[(44, 1, b"\x02")],
        Some((43, Reason::BadIndex)),
    ),
    (
        "final and abstract",
        &[(41, 2, b"\x04\x30")],
        Some((41, Reason::BadFlags)),
    ),
    (
        "half of the flags",
        &[(41, 14, b"\x04")],
        Some((42, Reason::Short)),
    ),
    (
        "a module",
        &[(41, 2, b"\x80\x00")],
        Some((41, Reason::BadFlags)),
    ),
    (
        "an interface that extends p/A",
        &[(41, 2, b"\x06\x01"), (46, 1, b"\x01")],
        Some((45, Reason::BadName)),
    ),
    (
        "no superclass",
        &[(46, 1, b"\0")],
        Some((45, Reason::BadIndex)),
    ),
    (
        "an interface of index 2",
        &[(48, 1, b"\x01\0\x02")],
        Some((49, Reason::BadIndex)),
    ),
    (
        "too few permitted names",
        &[
            (7, 1, b"\x3d"),
            (9, 1, b"\x06"),
            (41, 0, b"\x01\0\x13PermittedSubclasses"),
            (54, 1, b"\x01\0\x05\0\0\0\x03\0\x01\0"),
        ],
        Some((77, Reason::BadAttribute)),
    ),
    (
        "the same at major 65",
        &[
            (7, 1, b"\x41"),
            (9, 1, b"\x06"),
            (41, 0, b"\x01\0\x13PermittedSubclasses"),
            (54, 1, b"\x01\0\x05\0\0\0\x03\0\x01\0"),
        ],
        Some((77, Reason::BadAttribute)),
    ),
    (
        "the same below major 61",
        &[
            (7, 1, b"\x3c"),
            (9, 1, b"\x06"),
            (41, 0, b"\x01\0\x13PermittedSubclasses"),
            (54, 1, b"\x01\0\x05\0\0\0\x03\0\x01\0"),
        ],
        None,
    ),
    (
        "permitted names twice",
        &[
            (7, 1, b"\x3d"),
            (9, 1, b"\x06"),
            (41, 0, b"\x01\0\x13PermittedSubclasses"),
            (
                54,
                1,
                b"\x02\0\x05\0\0\0\x04\0\x01\0\x01\0\x05\0\0\0\x04\0\x01\0\x01",
            ),
        ],
        Some((87, Reason::BadAttribute)),
    ),
];

const USER_ROWS: &[Row] = &[
    ("nothing", &[], None),
    (
        "no descriptor",
        &[(52, 1, b"X")],
        Some((76, Reason::BadDescriptor)),
    ),
    (
        "the method twice",
        &[
            (71, 1, b"\x02"),
            (
                99,
                0,
                b"\0\x09\0\x05\0\x06\0\x01\0\x07\0\0\0\x0d\0\0\0\0\0\0\0\x01\xb1\0\0\0\0",
            ),
        ],
        Some((99, Reason::Duplicate)),
    ),
    (
        "public and private",
        &[(73, 1, b"\x03")],
        Some((72, Reason::BadFlags)),
    ),
    (
        "the name's index is a Class",
        &[(75, 1, b"\x01")],
        Some((74, Reason::BadIndex)),
    ),
];

const HOLDER_ROWS: &[Row] = &[
    ("nothing", &[], None),
    (
        "a field that isn't static in an interface",
        &[(82, 2, b"\x06\x01"), (92, 2, b"\0\x11")],
        Some((92, Reason::BadFlags)),
    ),
    (
        "a constant of a Class",
        &[(107, 1, b"\x01")],
        Some((100, Reason::BadAttribute)),
    ),
    (
        "a constant a byte too long",
        &[(105, 1, b"\x03"), (108, 0, b"\0")],
        Some((100, Reason::BadAttribute)),
    ),
    (
        "a signature of a Class",
        &[(115, 1, b"\x01")],
        Some((108, Reason::BadAttribute)),
    ),
];

// The bytes with these edits, which stand in the order of their places.
pub(crate) fn changed(rt: &impl Abort, alloc: Global, bytes: &[u8], edits: &[Edit]) -> Vec<u8> {
    let mut made = Vec::new(alloc);
    let mut rest = bytes;
    let mut place = 0;
    for (at, len, new) in edits {
        let (kept, cut) = rest.split_at(at.saturating_sub(place).min(rest.len()));
        let (_, behind) = cut.split_at((*len).min(cut.len()));
        made.extend_from_slice(kept).expect(rt, "memory");
        made.extend_from_slice(new).expect(rt, "memory");
        rest = behind;
        place = at.saturating_add(*len);
    }
    made.extend_from_slice(rest).expect(rt, "memory");
    made
}

// The first fault of the bytes.
pub(crate) fn fault_of(rt: &impl Abort, alloc: Global, bytes: &[u8]) -> Option<Malformed> {
    assert!(rt; bytes.len() <= 1000);
    match read_class(alloc, bytes) {
        Ok(_) => None,
        Err(ReadError::Malformed(malformed)) => Some(malformed),
        Err(ReadError::Memory) => panic!(rt; "memory"),
    }
}

// Whether the first fault is this one.
pub(crate) fn is_fault(fault: Option<Malformed>, want: Option<(u32, Reason)>) -> bool {
    match (fault, want) {
        (None, None) => true,
        (Some(fault), Some((offset, reason))) => fault.offset == offset && fault.reason == reason,
        _ => false,
    }
}

// Whether the bytes with the row's edits have its first fault.
fn has_fault(rt: &impl Abort, alloc: Global, bytes: &[u8], row: &Row) -> bool {
    let changed = changed(rt, alloc, bytes, row.1);
    is_fault(fault_of(rt, alloc, changed.as_slice()), row.2)
}

fn check(rt: &impl Abort, alloc: Global, bytes: &[u8], rows: &[Row]) {
    for row in rows {
        assert!(rt; has_fault(rt, alloc, bytes, row), "{}", row.0);
    }
}

#[test]
fn first_faults_of_a_plain_class(rt: HostRuntime) {
    check(&rt, rt.alloc(), PLAIN, PLAIN_ROWS);
}

#[test]
fn first_faults_of_a_class_with_a_method(rt: HostRuntime) {
    check(&rt, rt.alloc(), USER, USER_ROWS);
}

#[test]
fn first_faults_of_a_class_with_a_field(rt: HostRuntime) {
    check(&rt, rt.alloc(), HOLDER, HOLDER_ROWS);
}

fn is_named(name: &Option<Name>, wanted: &[u8]) -> bool {
    match name {
        Some(name) => name.as_bytes() == wanted,
        None => false,
    }
}

#[test]
fn the_record_of_a_plain_class(rt: HostRuntime) {
    let facts = read_class(rt.alloc(), PLAIN).expect(&rt, "memory");
    assert!(rt; facts.name.as_bytes() == b"p/A".as_slice());
    assert!(rt; facts.major == 52 && facts.flags == 33);
    assert!(rt; is_named(&facts.superclass, b"java/lang/Object"));
    assert!(rt; facts.interfaces.as_slice().is_empty());
    assert!(rt; facts.fields.as_slice().is_empty());
    assert!(rt; facts.methods.as_slice().is_empty());
    assert!(rt; facts.permits.is_none() && facts.nest_host.is_none());
}

// How many constants the holder has with these flags of its field, each of which is the number 64.
fn count_constants(rt: &impl Abort, alloc: Global, flags: &'static [u8]) -> usize {
    let bytes = changed(rt, alloc, HOLDER, &[(93, 1, flags)]);
    assert!(rt; bytes.len() <= 1000);
    let facts = read_class(alloc, bytes.as_slice()).expect(rt, "read");
    assert!(rt; facts.signatures.as_slice().len() == 1);
    for fixed in facts.constants.as_slice() {
        assert!(rt; fixed.value == Constant::Int(64));
    }
    facts.constants.as_slice().len()
}

#[test]
fn the_constant_of_a_static_field(rt: HostRuntime) {
    assert!(rt; count_constants(&rt, rt.alloc(), b"\x18") == 1);
    assert!(rt; count_constants(&rt, rt.alloc(), b"\x10") == 0);
}
