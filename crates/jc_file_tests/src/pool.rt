//! Pools byte by byte, by the steps of reading and JVMS 4.4.
use jc_desc::fault::Reason;
use jc_desc::tags;
use jc_pool::pool::{HandleRef, MemberRef, Pool, PoolConstant, PoolError};
use std::alloc::Global;
use std::process::Abort;

/// The class `p/A` without members: its pool ends at 41.
const PLAIN: [u8; 55] = [
    0xca, 0xfe, 0xba, 0xbe, 0, 0, 0, 0x34, 0, 5, 7, 0, 2, 1, 0, 3, 0x70, 0x2f, 0x41, 7, 0, 4, 1, 0,
    16, 0x6a, 0x61, 0x76, 0x61, 0x2f, 0x6c, 0x61, 0x6e, 0x67, 0x2f, 0x4f, 0x62, 0x6a, 0x65, 0x63,
    0x74, 0, 0x21, 0, 1, 0, 3, 0, 0, 0, 0, 0, 0, 0, 0,
];

/// Entries 1 to 17, behind a count that is still to be written.
const ENTRIES: &[u8] =
    b"\x01\x00\x01A\x07\x00\x01\x01\x00\x01m\x01\x00\x03()V\x0c\x00\x03\x00\x04\x01\x00\x01I\x0c\x00\x03\x00\x06\x01\x00\x06<init>\x0c\x00\x08\x00\x04\x01\x00\x08<clinit>\x0c\x00\x0a\x00\x04\x01\x00\x03()I\x0c\x00\x08\x00\x0c\x0a\x00\x02\x00\x05\x0a\x00\x02\x00\x09\x0b\x00\x02\x00\x05\x09\x00\x02\x00\x07";

/// Where the first fault is, and which.
type Fault = Option<(u32, Reason)>;

fn fault_of(rt: &impl Abort, alloc: Global, bytes: &[u8]) -> Fault {
    assert!(rt; bytes.len() <= 4_194_304);
    match Pool::read(alloc, bytes) {
        Ok(_) => None,
        Err(PoolError::Malformed(fault)) => Some((fault.offset, fault.reason)),
        Err(PoolError::Memory) => panic!(rt; "memory"),
    }
}

const CUTS: &[u32] = &[0, 3, 5, 7, 9, 10, 12, 15, 18, 24, 40];

// Whether the front of the plain class is too short, which is told at its end.
fn is_short(rt: &impl Abort, alloc: Global, len: u32) -> bool {
    let (front, _) = PLAIN.split_at((len as usize).min(PLAIN.len()));
    fault_of(rt, alloc, front) == Some((len, Reason::Short))
}

#[test]
fn plain_class_cut_short(rt: HostRuntime) {
    for len in CUTS {
        assert!(rt; is_short(&rt, rt.alloc(), *len), "the first {len}");
    }
    assert!(rt; fault_of(&rt, rt.alloc(), &PLAIN[..41]).is_none());
}

/// The plain class with other bytes from a place on.
fn changed(rt: &impl Abort, alloc: Global, place: usize, new: &[u8]) -> Vec<u8> {
    let mut bytes = Vec::new(alloc);
    let (front, rest) = PLAIN.split_at(place.min(PLAIN.len()));
    bytes.extend_from_slice(front).expect(rt, "memory");
    bytes.extend_from_slice(new).expect(rt, "memory");
    let (_, behind) = rest.split_at(new.len().min(rest.len()));
    bytes.extend_from_slice(behind).expect(rt, "memory");
    bytes
}

/// A place, what stands there, and the first fault.
type Change = (usize, &'static [u8], Fault);

fn has_fault(rt: &impl Abort, alloc: Global, change: &Change) -> bool {
    let bytes = changed(rt, alloc, change.0, change.1);
    fault_of(rt, alloc, &bytes) == change.2
}

fn check(rt: &impl Abort, alloc: Global, changes: &[Change]) {
    for change in changes {
        assert!(rt;
            has_fault(rt, alloc, change),
            "{:?} at {}",
            change.1,
            change.0
        );
    }
}

const CHANGES: &[Change] = &[
    (0, b"\0", Some((0, Reason::BadMagic))),
    (7, b"\x42", Some((4, Reason::BadVersion))),
    (7, b"\x41", None),
    (7, b"\x2c", Some((4, Reason::BadVersion))),
    (7, b"\x2d", None),
    (19, b"\x02", Some((19, Reason::BadTag))),
    (16, b"\x80", Some((13, Reason::BadUtf8))),
    (16, b"\0", Some((13, Reason::BadUtf8))),
    (12, b"\x01", Some((10, Reason::BadIndex))),
    (12, b"\0", Some((10, Reason::BadIndex))),
    (21, b"\x05", Some((19, Reason::BadIndex))),
    (18, b"\x2e", Some((10, Reason::BadName))),
    (16, b"\x5b", Some((10, Reason::BadName))),
    (10, b"\x08", None),
];

/// Versions: the minor and the major.
const VERSIONS: &[Change] = &[
    (4, b"\0\x01\0\x37", None),
    (4, b"\0\x01\0\x38", Some((4, Reason::BadVersion))),
    (4, b"\0\0\0\x3d", None),
    (4, b"\xff\xff\0\x3d", None),
    (4, b"\0\x01\0\x41", Some((4, Reason::BadVersion))),
    (4, b"\xff\xff\0\x41", None),
];

#[test]
fn plain_class_with_one_byte_changed(rt: HostRuntime) {
    check(&rt, rt.alloc(), CHANGES);
}

#[test]
fn minor_is_strict_from_major_56_on(rt: HostRuntime) {
    check(&rt, rt.alloc(), VERSIONS);
}

fn with_entries(rt: &impl Abort, alloc: Global, count: u8, entries: &[u8]) -> Vec<u8> {
    let mut bytes = Vec::new(alloc);
    bytes
        .extend_from_slice(b"\xca\xfe\xba\xbe\x00\x00\x00\x34\x00")
        .expect(rt, "memory");
    bytes.push(count).expect(rt, "memory");
    bytes.extend_from_slice(ENTRIES).expect(rt, "memory");
    bytes.extend_from_slice(entries).expect(rt, "memory");
    bytes
}

/// A count, entries from 18 on at offset 102, and the first fault.
type Entries = (u8, &'static [u8], Fault);

const ENTRY_ROWS: &[Entries] = &[
    (19, b"\x08\x00\x02", Some((102, Reason::BadIndex))),
    (19, b"\x08\x00\x12", Some((102, Reason::BadIndex))),
    (19, b"\x08\x00\x01", None),
    (19, b"\x09\x00\x01\x00\x07", Some((102, Reason::BadIndex))),
    (19, b"\x0a\x00\x02\x00\x02", Some((102, Reason::BadIndex))),
    (
        19,
        b"\x09\x00\x02\x00\x05",
        Some((102, Reason::BadDescriptor)),
    ),
    (
        19,
        b"\x0a\x00\x02\x00\x07",
        Some((102, Reason::BadDescriptor)),
    ),
    (19, b"\x0a\x00\x02\x00\x0b", Some((102, Reason::BadName))),
    (19, b"\x0b\x00\x02\x00\x0b", Some((102, Reason::BadName))),
    (19, b"\x0b\x00\x02\x00\x09", Some((102, Reason::BadName))),
    (
        19,
        b"\x0a\x00\x02\x00\x0d",
        Some((102, Reason::BadDescriptor)),
    ),
    (19, b"\x0c\x00\x03\x00\x02", Some((102, Reason::BadIndex))),
    (
        19,
        b"\x0c\x00\x03\x00\x01",
        Some((102, Reason::BadDescriptor)),
    ),
    (
        20,
        b"\x01\x00\x03a/b\x0c\x00\x12\x00\x06",
        Some((108, Reason::BadName)),
    ),
    (19, b"\x0f\x00\x00\x0e", Some((102, Reason::BadIndex))),
    (19, b"\x0f\x0a\x00\x0e", Some((102, Reason::BadIndex))),
    (19, b"\x0f\x01\x00\x0e", Some((102, Reason::BadIndex))),
    (19, b"\x0f\x05\x00\x10", Some((102, Reason::BadIndex))),
    (19, b"\x0f\x09\x00\x0e", Some((102, Reason::BadIndex))),
    (19, b"\x0f\x08\x00\x0e", Some((102, Reason::BadName))),
    (19, b"\x0f\x05\x00\x0f", Some((102, Reason::BadName))),
    (19, b"\x0f\x06\x00\x10", None),
    (19, b"\x0f\x08\x00\x0f", None),
    (19, b"\x0f\x04\x00\x11", None),
    (19, b"\x10\x00\x06", Some((102, Reason::BadDescriptor))),
    (19, b"\x10\x00\x02", Some((102, Reason::BadIndex))),
    (
        19,
        b"\x11\x00\x00\x00\x05",
        Some((102, Reason::BadDescriptor)),
    ),
    (
        19,
        b"\x12\x00\x00\x00\x07",
        Some((102, Reason::BadDescriptor)),
    ),
    (19, b"\x12\x00\x00\x00\x01", Some((102, Reason::BadIndex))),
    (19, b"\x13\x00\x02", Some((102, Reason::BadIndex))),
    (19, b"\x14\x00\x01", None),
    (
        19,
        b"\x05\x00\x00\x00\x00\x00\x00\x00\x01",
        Some((102, Reason::BadIndex)),
    ),
    (
        19,
        b"\x05\x00\x00\x00\x00\x00\x00\x00",
        Some((110, Reason::Short)),
    ),
    (20, b"\x06\x00\x00\x00\x00\x00\x00\x00\x01", None),
    (20, b"\x03\x00\x00\x00\x01", Some((107, Reason::Short))),
    (19, b"\x02\x00\x00\x00\x01", Some((102, Reason::BadTag))),
    (19, b"\x01\x00\x02\xc3\x28", Some((102, Reason::BadUtf8))),
    (
        20,
        b"\x0c\x00\x03\x00\x01\x08\x00\x02",
        Some((107, Reason::BadIndex)),
    ),
];

fn have_fault(rt: &impl Abort, alloc: Global, row: &Entries) -> bool {
    let bytes = with_entries(rt, alloc, row.0, row.1);
    fault_of(rt, alloc, &bytes) == row.2
}

fn check_entries(rt: &impl Abort, alloc: Global, rows: &[Entries]) {
    for row in rows {
        assert!(rt; have_fault(rt, alloc, row), "{} {:?}", row.0, row.1);
    }
}

#[test]
fn entry_18_and_what_it_names(rt: HostRuntime) {
    check_entries(&rt, rt.alloc(), ENTRY_ROWS);
}

#[test]
fn plain_class_answers(rt: HostRuntime) {
    let (pool, offset) = Pool::read(rt.alloc(), &PLAIN).expect(&rt, "memory");
    assert!(rt; offset == 41 && pool.major() == 52);
    assert!(rt; pool.class(1) == Some(b"p/A".as_slice()));
    assert!(rt; pool.utf8(1).is_none());
    assert!(rt; pool.utf8(2) == Some(b"p/A".as_slice()));
    assert!(rt; pool.class(2).is_none());
    assert!(rt; pool.tag(4) == Some(1));
    assert!(rt; pool.tag(0).is_none() && pool.tag(5).is_none());
}

/// The entries of `KIND_ENTRIES`: an index, its tag, its bootstrap method and its constant.
type Kind = (u16, Option<u8>, Option<u16>, Option<PoolConstant<'static>>);

const KINDS: &[Kind] = &[
    (1, Some(1), None, None),
    (18, Some(5), None, Some(PoolConstant::Long(0x1_0000_0002))),
    (19, None, None, None),
    (20, Some(15), None, None),
    (21, Some(18), Some(7), None),
    (22, Some(3), None, Some(PoolConstant::Int(64))),
    (23, Some(8), None, Some(PoolConstant::Text(b"m"))),
    (24, Some(4), None, Some(PoolConstant::Float(0x3f80_0000))),
    (25, None, None, None),
];

const KIND_ENTRIES: &[u8] =
    b"\x05\x00\x00\x00\x01\x00\x00\x00\x02\x0f\x08\x00\x0f\x12\x00\x07\x00\x05\x03\x00\x00\x00\x40\x08\x00\x03\x04\x3f\x80\x00\x00";

fn is_kind(pool: &Pool, kind: &Kind) -> bool {
    let (index, tag, dynamic, constant) = *kind;
    pool.tag(index) == tag && pool.dynamic(index) == dynamic && pool.constant(index) == constant
}

fn check_kinds(rt: &impl Abort, pool: &Pool, kinds: &[Kind]) {
    for kind in kinds {
        assert!(rt; is_kind(pool, kind), "entry {}", kind.0);
    }
}

#[test]
fn entries_answer_by_their_kind(rt: HostRuntime) {
    let bytes = with_entries(&rt, rt.alloc(), 25, KIND_ENTRIES);
    assert!(rt; bytes.len() < 200);
    let (pool, _) = Pool::read(rt.alloc(), &bytes).expect(&rt, "memory");
    check_kinds(&rt, &pool, KINDS);
}

const METHOD: MemberRef<'static> = MemberRef {
    tag: tags::INTERFACE_METHOD_REF,
    class: b"A",
    name: b"m",
    descriptor: b"()V",
};

const CONSTRUCTOR: HandleRef<'static> = HandleRef {
    kind: 8,
    member: MemberRef {
        tag: tags::METHOD_REF,
        class: b"A",
        name: b"<init>",
        descriptor: b"()V",
    },
};

#[test]
fn members_and_handles(rt: HostRuntime) {
    let bytes = with_entries(&rt, rt.alloc(), 19, b"\x0f\x08\x00\x0f");
    assert!(rt; bytes.len() < 200);
    let (pool, _) = Pool::read(rt.alloc(), &bytes).expect(&rt, "memory");
    assert!(rt; pool.member_ref(16) == Some(METHOD) && pool.member_ref(18).is_none());
    assert!(rt; pool.handle(18) == Some(CONSTRUCTOR) && pool.handle(16).is_none());
}
