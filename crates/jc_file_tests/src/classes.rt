//! Records of classes made from rows.
use jc_base::items::Items;
use jc_base::name::Name;
use jc_base::names::Names;
use jc_facts::class_facts::{ClassFacts, Constant, Fixed, Member, Signed};
use jc_facts::key::Key;
use std::alloc::Global;
use std::process::Abort;

/// Name, descriptor and flags of a member.
pub type Declared<'a> = (&'a [u8], &'a [u8], u16);

/// A class of the package `p`. An empty superclass or nest host is none, and so are no permitted
/// subclasses. A constant is the name of a field of type `int` and a
/// text, in place of which an empty one stands for 64; a signature is the name of such a field, or an empty one for the class,
/// and its text.
#[derive(Clone, Copy)]
pub struct Row<'a> {
    pub major: u16,
    pub flags: u16,
    pub name: &'a [u8],
    pub superclass: &'a [u8],
    pub interfaces: &'a [&'a [u8]],
    pub fields: &'a [Declared<'a>],
    pub methods: &'a [Declared<'a>],
    pub permits: &'a [&'a [u8]],
    pub nest_host: &'a [u8],
    pub nest_members: &'a [&'a [u8]],
    pub constants: &'a [(&'a [u8], &'a [u8])],
    pub signatures: &'a [(&'a [u8], &'a [u8])],
}

/// The class `p/A` of these numbers, without members.
pub(crate) fn plain<'a>(major: u16, flags: u16) -> Row<'a> {
    Row {
        major,
        flags,
        name: b"p/A",
        superclass: b"java/lang/Object",
        interfaces: &[],
        fields: &[],
        methods: &[],
        permits: &[],
        nest_host: b"",
        nest_members: &[],
        constants: &[],
        signatures: &[],
    }
}

fn name_of(rt: &impl Abort, alloc: Global, name: &[u8]) -> Option<Name> {
    if name.is_empty() {
        return None;
    }
    Some(Name::from_bytes(alloc, name).expect(rt, "memory"))
}

fn names_of(rt: &impl Abort, alloc: Global, names: &[&[u8]]) -> Items<Name> {
    let mut copies = Vec::new(alloc);
    for name in names {
        copies
            .push(Name::from_bytes(alloc, name).expect(rt, "memory"))
            .expect(rt, "memory");
    }
    Items::from_vec(copies)
}

fn permitted(rt: &impl Abort, alloc: Global, names: &[&[u8]]) -> Option<Items<Name>> {
    if names.is_empty() {
        return None;
    }
    Some(names_of(rt, alloc, names))
}

fn member(rt: &impl Abort, alloc: Global, declared: &Declared) -> Member {
    Member {
        name: Name::from_bytes(alloc, declared.0).expect(rt, "memory"),
        descriptor: Name::from_bytes(alloc, declared.1).expect(rt, "memory"),
        flags: declared.2,
    }
}

fn members(rt: &impl Abort, alloc: Global, list: &[Declared]) -> Items<Member> {
    let mut members = Vec::new(alloc);
    for declared in list {
        members
            .push(member(rt, alloc, declared))
            .expect(rt, "memory");
    }
    Items::from_vec(members)
}

fn int_key(rt: &impl Abort, alloc: Global, name: &[u8]) -> Key {
    Key {
        name: Name::from_bytes(alloc, name).expect(rt, "memory"),
        descriptor: Name::from_bytes(alloc, b"I").expect(rt, "memory"),
    }
}

fn value(rt: &impl Abort, alloc: Global, text: &[u8]) -> Constant {
    if text.is_empty() {
        return Constant::Int(64);
    }
    Constant::Text(Name::from_bytes(alloc, text).expect(rt, "memory"))
}

fn constants(rt: &impl Abort, alloc: Global, list: &[(&[u8], &[u8])]) -> Items<Fixed> {
    let mut constants = Vec::new(alloc);
    for (name, text) in list {
        let key = int_key(rt, alloc, name);
        let value = value(rt, alloc, text);
        constants.push(Fixed { key, value }).expect(rt, "memory");
    }
    Items::from_vec(constants)
}

fn signed_key(rt: &impl Abort, alloc: Global, name: &[u8]) -> Option<Key> {
    if name.is_empty() {
        return None;
    }
    Some(int_key(rt, alloc, name))
}

fn signatures(rt: &impl Abort, alloc: Global, list: &[(&[u8], &[u8])]) -> Items<Signed> {
    let mut signatures = Vec::new(alloc);
    for (name, text) in list {
        let key = signed_key(rt, alloc, name);
        let text = Name::from_bytes(alloc, text).expect(rt, "memory");
        signatures.push(Signed { key, text }).expect(rt, "memory");
    }
    Items::from_vec(signatures)
}

/// The record of a row.
pub(crate) fn class(rt: &impl Abort, alloc: Global, row: &Row) -> ClassFacts {
    ClassFacts {
        name: Name::from_bytes(alloc, row.name).expect(rt, "memory"),
        major: row.major,
        flags: row.flags,
        superclass: name_of(rt, alloc, row.superclass),
        interfaces: Names::from_vec(alloc, names_of(rt, alloc, row.interfaces).into_vec()),
        fields: members(rt, alloc, row.fields),
        methods: members(rt, alloc, row.methods),
        permits: permitted(rt, alloc, row.permits),
        nest_host: name_of(rt, alloc, row.nest_host),
        nest_members: names_of(rt, alloc, row.nest_members),
        constants: constants(rt, alloc, row.constants),
        signatures: signatures(rt, alloc, row.signatures),
    }
}
