//! Class files that are written, byte by byte as JVMS 4 has them.
use crate::classes::{Row, class, plain};
use jc_base::items::Items;
use jc_base::name::Name;
use jc_base::names::Names;
use jc_facts::act::Act;
use jc_facts::key::Key;
use jc_write::formed::is_formed;
use jc_write::write::{WriteError, write_class};
use jc_write::{Blueprint, Body, Slot, Step};
use std::alloc::Global;
use std::process::Abort;

pub(crate) fn name(rt: &impl Abort, alloc: Global, text: &str) -> Name {
    Name::from_bytes(alloc, text.as_bytes()).expect(rt, "memory")
}

// `public interface w0/J { void run(); }`
fn interface(rt: &impl Abort, alloc: Global) -> Blueprint {
    let row = Row {
        name: b"w0/J",
        methods: &[(b"run", b"()V", 0x0401)],
        ..plain(52, 0x0601)
    };
    let mut bodies = Vec::new(alloc);
    bodies.push(None).expect(rt, "memory");
    Blueprint {
        facts: class(rt, alloc, &row),
        bodies: Items::from_vec(bodies),
    }
}

// `public class w0/U { public static void use(w0/J object) { object.run(); } }`
fn user(rt: &impl Abort, alloc: Global) -> Blueprint {
    let row = Row {
        name: b"w0/U",
        methods: &[(b"use", b"(Lw0/J;)V", 0x0009)],
        ..plain(52, 0x0021)
    };
    let run = Key {
        name: name(rt, alloc, "run"),
        descriptor: name(rt, alloc, "()V"),
    };
    let mut steps = Vec::new(alloc);
    steps.push(Step::Load(Slot::Ref, 0)).expect(rt, "memory");
    steps
        .push(Step::Member(Act::InvokeInterface, name(rt, alloc, "w0/J"), run))
        .expect(rt, "memory");
    steps.push(Step::Return(None)).expect(rt, "memory");
    let mut bodies = Vec::new(alloc);
    bodies
        .push(Some(Body {
            steps: Items::from_vec(steps),
        }))
        .expect(rt, "memory");
    Blueprint {
        facts: class(rt, alloc, &row),
        bodies: Items::from_vec(bodies),
    }
}

// A class that implements so many interfaces.
fn implementor(rt: &impl Abort, alloc: Global, count: u32) -> Blueprint {
    let mut interfaces = Vec::new(alloc);
    for i in 0..count {
        let text = format!(in alloc; "p/I{i}").expect(rt, "memory");
        interfaces
            .push(name(rt, alloc, text.as_str()))
            .expect(rt, "memory");
    }
    let mut facts = class(rt, alloc, &plain(52, 0x0021));
    facts.interfaces = Names::from_vec(alloc, interfaces);
    Blueprint {
        facts,
        bodies: Items::from_vec(Vec::new(alloc)),
    }
}

// What comes of writing a blueprint that is formed.
pub(crate) fn written(
    rt: &impl Abort,
    alloc: Global,
    plan: &Blueprint,
) -> Result<Vec<u8>, WriteError> {
    assert!(rt; is_formed(alloc, plan).expect(rt, "memory"));
    write_class(alloc, plan)
}

const INTERFACE: &[u8] =
    b"\xca\xfe\xba\xbe\0\0\0\x34\0\x07\x01\0\x04w0/J\x07\0\x01\x01\0\x10java/lang/Object\x07\0\x03\x01\0\x03run\x01\0\x03()V\x06\x01\0\x02\0\x04\0\0\0\0\0\x01\x04\x01\0\x05\0\x06\0\0\0\0";

const USER: &[u8] =
    b"\xca\xfe\xba\xbe\0\0\0\x34\0\x0e\x01\0\x04w0/U\x07\0\x01\x01\0\x10java/lang/Object\x07\0\x03\x01\0\x03use\x01\0\x09(Lw0/J;)V\x01\0\x04Code\x01\0\x04w0/J\x07\0\x08\x01\0\x03run\x01\0\x03()V\x0c\0\x0a\0\x0b\x0b\0\x09\0\x0c\0\x21\0\x02\0\x04\0\0\0\0\0\x01\0\x09\0\x05\0\x06\0\x01\0\x07\0\0\0\x13\0\x01\0\x01\0\0\0\x07\x2a\xb9\0\x0d\x01\0\xb1\0\0\0\0\0\0";

#[test]
fn an_interface(rt: HostRuntime) {
    let plan = interface(&rt, rt.alloc());
    let bytes = written(&rt, rt.alloc(), &plan).expect(&rt, "written");
    assert!(rt; bytes.as_slice() == INTERFACE);
}

#[test]
fn a_body_that_calls_it(rt: HostRuntime) {
    let plan = user(&rt, rt.alloc());
    let bytes = written(&rt, rt.alloc(), &plan).expect(&rt, "written");
    assert!(rt; bytes.as_slice() == USER);
}

#[test]
fn too_many_interfaces(rt: HostRuntime) {
    let plan = implementor(&rt, rt.alloc(), 40_000);
    let error = written(&rt, rt.alloc(), &plan).err();
    assert!(rt; error == Some(WriteError::TooBig));
}
