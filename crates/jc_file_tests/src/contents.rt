//! Contents of attributes byte by byte.
use jc_attr::bootstrap::bootstrap;
use jc_attr::code::code;
use jc_attr::contents::{constant_value, nest_host, nest_members, permits, signature};
use jc_base::name::Name;
use jc_facts::class_facts::Constant;
use jc_pool::pool::Pool;
use std::alloc::Global;
use std::process::Abort;

/// The class `p/A` without members: entry 1 is its Class, entry 2 its name.
const PLAIN: &[u8] =
    b"\xca\xfe\xba\xbe\0\0\0\x34\0\x05\x07\0\x02\x01\0\x03p/A\x07\0\x04\x01\0\x10java/lang/Object\0\x21\0\x01\0\x03\0\0\0\0\0\0\0\0";

/// A pool whose entry 1 is the Integer 64.
const INTEGER: &[u8] = b"\xca\xfe\xba\xbe\0\0\0\x34\0\x02\x03\0\0\0\x40";

const ONE: &[u8] = b"\0\x01";

const TWO: &[u8] = b"\0\x02";

fn are(names: &Option<Vec<Name>>, wanted: &[u8]) -> bool {
    match names {
        None => false,
        Some(names) => match names.as_slice() {
            [name] => name.as_bytes() == wanted,
            _ => false,
        },
    }
}

fn is(name: &Option<Name>, wanted: &[u8]) -> bool {
    match name {
        None => false,
        Some(name) => name.as_bytes() == wanted,
    }
}

// Whether these contents name the plain class alone, in either list.
fn name_it(rt: &impl Abort, alloc: Global, pool: &Pool, contents: &[u8]) -> bool {
    let permitted = permits(alloc, pool, contents).expect(rt, "memory");
    let members = nest_members(alloc, pool, contents).expect(rt, "memory");
    are(&permitted, b"p/A") && are(&members, b"p/A")
}

// Whether these contents are of no list.
fn are_refused(rt: &impl Abort, alloc: Global, pool: &Pool, contents: &[u8]) -> bool {
    let permitted = permits(alloc, pool, contents).expect(rt, "memory");
    let members = nest_members(alloc, pool, contents).expect(rt, "memory");
    permitted.is_none() && members.is_none()
}

#[test]
fn lists_of_classes(rt: HostRuntime) {
    let (pool, _) = Pool::read(rt.alloc(), PLAIN).expect(&rt, "memory");
    assert!(rt; name_it(&rt, rt.alloc(), &pool, b"\0\x01\0\x01"));
    assert!(rt; are_refused(&rt, rt.alloc(), &pool, b"\0\x01\0\x02"));
    assert!(rt; are_refused(&rt, rt.alloc(), &pool, b"\0\x01\0\x01\0"));
    assert!(rt; are_refused(&rt, rt.alloc(), &pool, b"\0\x02\0\x01"));
}

// Whether the nest host is the plain class, of a Class, and not of its name.
fn is_host(rt: &impl Abort, alloc: Global, pool: &Pool) -> bool {
    let class = nest_host(alloc, pool, ONE).expect(rt, "memory");
    let name = nest_host(alloc, pool, TWO).expect(rt, "memory");
    is(&class, b"p/A") && name.is_none()
}

// Whether the signature is the text of a Utf8, and not of a Class.
fn is_signature(rt: &impl Abort, alloc: Global, pool: &Pool) -> bool {
    let class = signature(alloc, pool, ONE).expect(rt, "memory");
    let text = signature(alloc, pool, TWO).expect(rt, "memory");
    is(&text, b"p/A") && class.is_none()
}

#[test]
fn single_indices(rt: HostRuntime) {
    let (pool, _) = Pool::read(rt.alloc(), PLAIN).expect(&rt, "memory");
    assert!(rt; is_host(&rt, rt.alloc(), &pool));
    assert!(rt; is_signature(&rt, rt.alloc(), &pool));
    let value = constant_value(rt.alloc(), &pool, ONE).expect(&rt, "memory");
    assert!(rt; value.is_none());
}

#[test]
fn a_constant_is_a_number(rt: HostRuntime) {
    let (pool, _) = Pool::read(rt.alloc(), INTEGER).expect(&rt, "memory");
    match constant_value(rt.alloc(), &pool, ONE).expect(&rt, "memory") {
        Some(value) => assert!(rt; value == Constant::Int(64)),
        None => panic!(rt; "no value"),
    }
}

#[test]
fn parts_of_code(rt: HostRuntime) {
    match code(b"\0\0\0\0\0\0\0\x01\xb1\0\0\0\0") {
        Some(parts) => {
            assert!(rt; parts.start == 8);
            assert!(rt; parts.bytes == b"\xb1".as_slice());
            assert!(rt; parts.catches.is_empty());
        }
        None => panic!(rt; "no code"),
    }
    assert!(rt; code(b"\0\0\0\0\0\0\0\x01\xb1\0\0\0\0\0").is_none());
}

#[test]
fn parts_of_bootstrap_methods(rt: HostRuntime) {
    let table = b"\0\x01\0\x05\0\x01\0\x07".as_slice();
    match bootstrap(table, 0) {
        Some(parts) => {
            assert!(rt; parts.handle == 5);
            assert!(rt; parts.arguments == b"\0\x07".as_slice());
        }
        None => panic!(rt; "no entry"),
    }
    assert!(rt; bootstrap(table, 1).is_none());
}
