//! Attributes of classes that are written (JVMS 4.7.28, 4.7.29, 4.7.31).
ghost use Rattle.std.specs.Prelude.{◌≡◌, ◌++◌, List, length, OnOk};
ghost use Rattle.jc_facts.specs.written.PoolEntries.{PoolEntry, counted, joined};
ghost use Rattle.jc_facts.specs.written.Written.{attribute_bytes, permits_attribute, host_attribute, nest_attribute, class_attributes};

use crate::entry::Entry;
use crate::indices::{push_class, push_classes, push_text};
use crate::numbers::{push_four, push_two};
use indexmap::IndexSet;
use jc_base::items::Items;
use jc_base::name::Name;
use jc_facts::class_facts::ClassFacts;
use std::alloc::{AllocError, Global};

/// An attribute: the index of its name, the length of its contents, and the contents.
pub(crate) fn push_attribute<'a>(
    bytes: &mut Vec<u8>,
    pool: &IndexSet<Entry<'a>>,
    name: &'a [u8],
    body: &[u8],
) -> Result<(), AllocError>
    ensures { OnOk result (bytes.new.items ≡ bytes.old.items ++ attribute_bytes pool.now.keys (record { name = name.now; body = body.now })) }
{
    push_text(bytes, pool, name)?;
    push_four(bytes, body.len())?;
    bytes.extend_from_slice(body)
}

fn push_permits<'a>(
    alloc: Global,
    bytes: &mut Vec<u8>,
    pool: &IndexSet<Entry<'a>>,
    permits: &'a Option<Items<Name>>,
) -> Result<(), AllocError>
    ensures { OnOk result (bytes.new.items ≡ bytes.old.items ++ joined (attribute_bytes pool.now.keys) (permits_attribute pool.now.keys permits.now)) }
{
    match permits {
        None => Ok(()),
        Some(names) => {
            let mut contents = Vec::new(alloc);
            push_classes(&mut contents, pool, names.as_slice())?;
            push_attribute(bytes, pool, b"PermittedSubclasses", contents.as_slice())
        }
    }
}

fn push_host<'a>(
    alloc: Global,
    bytes: &mut Vec<u8>,
    pool: &IndexSet<Entry<'a>>,
    host: &'a Option<Name>,
) -> Result<(), AllocError>
    ensures { OnOk result (bytes.new.items ≡ bytes.old.items ++ joined (attribute_bytes pool.now.keys) (host_attribute pool.now.keys host.now)) }
{
    match host {
        None => Ok(()),
        Some(name) => {
            let mut contents = Vec::new(alloc);
            push_class(&mut contents, pool, name)?;
            push_attribute(bytes, pool, b"NestHost", contents.as_slice())
        }
    }
}

fn push_nest<'a>(
    alloc: Global,
    bytes: &mut Vec<u8>,
    pool: &IndexSet<Entry<'a>>,
    members: &'a [Name],
) -> Result<(), AllocError>
    ensures { OnOk result (bytes.new.items ≡ bytes.old.items ++ joined (attribute_bytes pool.now.keys) (nest_attribute pool.now.keys members.now)) }
{
    match members {
        [] => Ok(()),
        _ => {
            let mut contents = Vec::new(alloc);
            push_classes(&mut contents, pool, members)?;
            push_attribute(bytes, pool, b"NestMembers", contents.as_slice())
        }
    }
}

fn attribute_count(facts: &ClassFacts) -> usize
    ensures { (pool : List PoolEntry) → result ≡ length (class_attributes pool facts.now) }
{
    let permits = if facts.permits.is_some() { 1 } else { 0 };
    let host = if facts.nest_host.is_some() { 1 } else { 0 };
    let nest = if facts.nest_members.as_slice().is_empty() {
        0
    } else {
        1
    };
    permits + host + nest
}

/// The number of attributes of the class, and the attributes.
#[tactic(auto, using(crate::proofs::Joined::joined_three))]
pub(crate) fn push_attributes<'a>(
    alloc: Global,
    bytes: &mut Vec<u8>,
    pool: &IndexSet<Entry<'a>>,
    facts: &'a ClassFacts,
) -> Result<(), AllocError>
    ensures { OnOk result (bytes.new.items ≡ bytes.old.items ++ counted (attribute_bytes pool.now.keys) (class_attributes pool.now.keys facts.now)) }
{
    push_two(bytes, attribute_count(facts))?;
    push_permits(alloc, bytes, pool, &facts.permits)?;
    push_host(alloc, bytes, pool, &facts.nest_host)?;
    push_nest(alloc, bytes, pool, facts.nest_members.as_slice())
}
