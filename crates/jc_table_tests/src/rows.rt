//! Records of classes made from rows.
ghost use Rattle.std.specs.Prelude.{◌≡◌, map, option_map, IfOk};
ghost use Rattle.jc_table_tests.specs.Rows.{class_of, member_of, named};

use jc_base::items::Items;
use jc_base::name::Name;
use jc_facts::class_facts::{ClassFacts, Member};
use std::alloc::{AllocError, Global};

pub const OBJECT: &[u8] = b"java/lang/Object";

pub const PUBLIC: u16 = 0x0021;

pub const INTERFACE: u16 = 0x0601;

pub type Names = &'static [&'static [u8]];

/// Name, descriptor and flags of a member.
pub type Declared = (&'static [u8], &'static [u8], u16);

/// A class: what it names above itself, its members, which subclasses it permits, and its nest. An empty superclass is none.
#[derive(Clone, Copy)]
pub struct Row {
    pub name: &'static [u8],
    pub flags: u16,
    pub superclass: &'static [u8],
    pub interfaces: Names,
    pub fields: &'static [Declared],
    pub methods: &'static [Declared],
    pub permits: Option<Names>,
    pub nest_host: &'static [u8],
    pub nest_members: Names,
}

pub const PLAIN: Row = Row {
    name: b"p/Plain",
    flags: PUBLIC,
    superclass: OBJECT,
    interfaces: &[],
    fields: &[],
    methods: &[],
    permits: None,
    nest_host: b"",
    nest_members: &[],
};

pub const ROOT: Row = Row {
    name: OBJECT,
    superclass: b"",
    methods: &[(b"<init>", b"()V", 0x0001)],
    ..PLAIN
};

fn name_of(alloc: Global, name: &[u8]) -> Result<Option<Name>, AllocError>
    ensures { IfOk result (λ found. found ≡ named name.now) }
{
    if name.is_empty() {
        return Ok(None);
    }
    Ok(Some(Name::from_bytes(alloc, name)?))
}

fn names_of(alloc: Global, names: &[&[u8]]) -> Result<Vec<Name>, AllocError>
    ensures { IfOk result (λ copies. copies.items ≡ map (λ n. n.now) names.now) }
{
    let mut copies = Vec::new(alloc);
    for name in names {
        copies.push(Name::from_bytes(alloc, name)?)?;
    }
    Ok(copies)
}

fn permitted(alloc: Global, names: Option<Names>) -> Result<Option<Items<Name>>, AllocError>
    ensures { IfOk result (λ copies. copies ≡ option_map (λ list. map (λ n. n.now) list.now) names.entry) }
{
    match names {
        None => Ok(None),
        Some(names) => Ok(Some(Items::from_vec(names_of(alloc, names)?))),
    }
}

fn member(alloc: Global, declared: &Declared) -> Result<Member, AllocError>
    ensures { IfOk result (λ made. made ≡ member_of declared.now) }
{
    Ok(Member {
        name: Name::from_bytes(alloc, declared.0)?,
        descriptor: Name::from_bytes(alloc, declared.1)?,
        flags: declared.2,
    })
}

fn members(alloc: Global, list: &[Declared]) -> Result<Items<Member>, AllocError>
    ensures { IfOk result (λ made. made ≡ map member_of list.now) }
{
    let mut members = Vec::new(alloc);
    for declared in list {
        members.push(member(alloc, declared)?)?;
    }
    Ok(Items::from_vec(members))
}

/// The record of a row, of major 61.
///
/// # Errors
///
/// `AllocError` where memory runs out.
pub fn class(alloc: Global, row: &Row) -> Result<ClassFacts, AllocError>
    ensures { IfOk result (λ made. made ≡ class_of row.now) }
{
    Ok(ClassFacts {
        name: Name::from_bytes(alloc, row.name)?,
        major: 61,
        flags: row.flags,
        superclass: name_of(alloc, row.superclass)?,
        interfaces: jc_base::names::Names::from_vec(alloc, names_of(alloc, row.interfaces)?),
        fields: members(alloc, row.fields)?,
        methods: members(alloc, row.methods)?,
        permits: permitted(alloc, row.permits)?,
        nest_host: name_of(alloc, row.nest_host)?,
        nest_members: Items::from_vec(names_of(alloc, row.nest_members)?),
        constants: Items::from_vec(Vec::new(alloc)),
        signatures: Items::from_vec(Vec::new(alloc)),
    })
}

/// The records of rows.
///
/// # Errors
///
/// `AllocError` where memory runs out.
pub fn classes(alloc: Global, rows: &[Row]) -> Result<Vec<ClassFacts>, AllocError>
    ensures { IfOk result (λ made. made.items ≡ map class_of rows.now) }
{
    let mut classes = Vec::new(alloc);
    for row in rows {
        classes.push(class(alloc, row)?)?;
    }
    Ok(classes)
}
