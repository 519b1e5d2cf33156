//! Class files that are cut off, and class files with one byte changed.
use crate::classes::{Row, class, plain};
use crate::read::{PLAIN, USER, changed, fault_of};
use crate::write::{name, written};
use jc_base::items::Items;
use jc_desc::fault::Reason;
use jc_write::{Blueprint, Body, Slot, Step};
use std::alloc::Global;
use std::process::Abort;

// `public abstract class w0/Y extends p/A implements w0/J { public Y() { super(); } }`
fn heir(rt: &impl Abort, alloc: Global) -> Blueprint {
    let row = Row {
        name: b"w0/Y",
        superclass: b"p/A",
        interfaces: &[b"w0/J"],
        methods: &[(b"<init>", b"()V", 0x0001)],
        ..plain(52, 0x0421)
    };
    let mut steps = Vec::new(alloc);
    steps.push(Step::Load(Slot::Ref, 0)).expect(rt, "memory");
    steps
        .push(Step::Construct(name(rt, alloc, "p/A"), name(rt, alloc, "()V")))
        .expect(rt, "memory");
    steps.push(Step::Return(None)).expect(rt, "memory");
    let mut bodies = Vec::new(alloc);
    bodies
        .push(Some(Body {
            steps: Items::from_vec(steps),
        }))
        .expect(rt, "memory");
    Blueprint {
        facts: class(rt, alloc, &row),
        bodies: Items::from_vec(bodies),
    }
}

// A class with two fields, three methods and a nest member, without code.
fn canvas(rt: &impl Abort, alloc: Global) -> Blueprint {
    let row = Row {
        name: b"lib/Canvas",
        fields: &[
            (b"shapes", b"[Llib/Shape;", 0x0002),
            (b"count", b"I", 0x0002),
        ],
        methods: &[
            (b"<init>", b"()V", 0x0001),
            (b"add", b"(Llib/Shape;)V", 0x0001),
            (b"total", b"()I", 0x0001),
        ],
        nest_members: &[b"lib/Canvas$Cursor"],
        ..plain(61, 0x0021)
    };
    let mut bodies = Vec::new(alloc);
    for _ in row.methods {
        bodies.push(None).expect(rt, "memory");
    }
    Blueprint {
        facts: class(rt, alloc, &row),
        bodies: Items::from_vec(bodies),
    }
}

// Whether the bytes are too short, which is told at their end.
fn is_short(rt: &impl Abort, alloc: Global, bytes: &[u8]) -> bool {
    match fault_of(rt, alloc, bytes) {
        Some(fault) => fault.offset as usize == bytes.len() && fault.reason == Reason::Short,
        None => false,
    }
}

// Each proper prefix of a class file lacks bytes of a field, which is told at its end.
fn check_prefixes(rt: &impl Abort, alloc: Global, bytes: &[u8]) {
    assert!(rt; fault_of(rt, alloc, bytes).is_none());
    for len in 0..bytes.len() {
        assert!(rt; is_short(rt, alloc, &bytes[..len]), "{len} bytes");
    }
}

// The same of the class file of a blueprint.
fn check_written(rt: &impl Abort, alloc: Global, plan: &Blueprint) {
    let bytes = written(rt, alloc, plan).expect(rt, "written");
    check_prefixes(rt, alloc, bytes.as_slice());
}

#[test]
fn each_proper_prefix_is_too_short(rt: HostRuntime) {
    check_prefixes(&rt, rt.alloc(), PLAIN);
    check_prefixes(&rt, rt.alloc(), USER);
    check_written(&rt, rt.alloc(), &heir(&rt, rt.alloc()));
    check_written(&rt, rt.alloc(), &canvas(&rt, rt.alloc()));
}

// Whether the plain class with this byte at a place has no fault behind its end.
fn is_inside(rt: &impl Abort, alloc: Global, place: usize, byte: &'static [u8]) -> bool {
    let bytes = changed(rt, alloc, PLAIN, &[(place, 1, byte)]);
    match fault_of(rt, alloc, bytes.as_slice()) {
        Some(fault) => fault.offset as usize <= PLAIN.len(),
        None => true,
    }
}

#[test]
fn a_fault_of_a_changed_byte_is_in_the_file(rt: HostRuntime) {
    for place in 0..PLAIN.len() {
        assert!(rt;
            is_inside(&rt, rt.alloc(), place, b"\x00"),
            "0x00 at {place}"
        );
        assert!(rt;
            is_inside(&rt, rt.alloc(), place, b"\xff"),
            "0xff at {place}"
        );
    }
}
