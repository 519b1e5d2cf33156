//! Lists of names of which one stands at several places.
use crate::classes::{class, plain};
use crate::write::{name, written};
use jc_base::items::Items;
use jc_base::names::Names;
use jc_read::read::read_class;
use jc_write::Blueprint;
use std::alloc::Global;
use std::process::Abort;

// The names `p/A`, `p/B`, and the first once more.
fn told(rt: &impl Abort, alloc: Global) -> Names {
    let mut names = Names::from_vec(alloc, Vec::new(alloc));
    names.push(name(rt, alloc, "p/A")).expect(rt, "memory");
    names.push(name(rt, alloc, "p/B")).expect(rt, "memory");
    assert!(rt; names.as_slice().len() == 2);
    names.push_again(alloc, 0).expect(rt, "memory");
    names
}

// These names, of which nothing is known.
fn untold(rt: &impl Abort, alloc: Global, texts: &[&str]) -> Names {
    let mut names = Vec::new(alloc);
    for text in texts {
        names.push(name(rt, alloc, text)).expect(rt, "memory");
    }
    Names::from_vec(alloc, names)
}

#[test]
fn a_list_is_its_names_whatever_it_knows_of_them(rt: HostRuntime) {
    let alloc = rt.alloc();
    let names = told(&rt, alloc);
    assert!(rt; names.earlier(1).is_none() && names.earlier(2) == Some(0));
    assert!(rt; names == untold(&rt, alloc, &["p/A", "p/B", "p/A"]));
    assert!(rt; names != untold(&rt, alloc, &["p/A", "p/B", "p/B"]));
    assert!(rt; names != untold(&rt, alloc, &["p/A", "p/B"]));
    let copy = names.copy(alloc).expect(&rt, "memory");
    assert!(rt; copy == names && copy.earlier(2) == Some(0));
    assert!(rt; copy.into_vec().len() == 3);
}

#[test]
fn a_long_interface_that_is_named_twice(rt: HostRuntime) {
    let alloc = rt.alloc();
    let mut long = String::new(alloc);
    for _ in 0..1_024 {
        long.push('a').expect(&rt, "memory");
    }
    let texts = [long.as_str(), "p/I", long.as_str()];
    let mut facts = class(&rt, alloc, &plain(52, 0x0021));
    facts.interfaces = untold(&rt, alloc, &texts);
    let plan = Blueprint {
        facts,
        bodies: Items::from_vec(Vec::new(alloc)),
    };
    let bytes = written(&rt, alloc, &plan).expect(&rt, "written");
    assert!(rt; bytes.len() <= 10_000);
    let read = read_class(alloc, bytes.as_slice()).expect(&rt, "read");
    assert!(rt; read.interfaces == plan.facts.interfaces);
    assert!(rt; read.interfaces.earlier(1).is_none() && read.interfaces.earlier(2) == Some(0));
}
