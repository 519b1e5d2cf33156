//! Fields and methods that are written (JVMS 4.5, 4.6), and the code of methods (JVMS 4.7.3).
ghost use Rattle.std.specs.Prelude.{◌≡◌, ◌++◌, OnOk, IfOk, IsTrue, nat_lt};
ghost use Rattle.jc_facts.specs.written.PoolEntries.{counted};
ghost use Rattle.jc_facts.specs.written.Bodies.{places_at_most};
ghost use Rattle.jc_facts.specs.written.Written.{attribute_bytes, member_head, field_bytes, places_of_locals, body_of_code, method_attributes, method_bytes, methods_bytes, body_first, fits_body, fits_bodies, fits_count, are_short};

use crate::attributes::push_attribute;
use crate::entry::Entry;
use crate::indices::push_text;
use crate::needs::other_bodies;
use crate::numbers::{push_four, push_two};
use crate::stack::most_places;
use crate::steps::{code, param_slots};
use indexmap::IndexSet;
use jc_facts::blueprint::Body;
use jc_facts::class_facts::Member;
use jc_facts::flags::is_static;
use std::alloc::{AllocError, Global};

fn push_head<'a>(
    bytes: &mut Vec<u8>,
    pool: &IndexSet<Entry<'a>>,
    member: &'a Member,
) -> Result<(), AllocError>
    ensures short { OnOk result (IsTrue (nat_lt member.now.flags 65536)) }
    ensures bytes { OnOk result (bytes.new.items ≡ bytes.old.items ++ member_head pool.now.keys member.now) }
{
    push_two(bytes, member.flags as usize)?;
    push_text(bytes, pool, member.name.as_bytes())?;
    push_text(bytes, pool, member.descriptor.as_bytes())
}

fn push_field<'a>(
    bytes: &mut Vec<u8>,
    pool: &IndexSet<Entry<'a>>,
    field: &'a Member,
) -> Result<(), AllocError>
    ensures short { OnOk result (IsTrue (nat_lt field.now.flags 65536)) }
    ensures bytes { OnOk result (bytes.new.items ≡ bytes.old.items ++ field_bytes pool.now.keys field.now) }
{
    push_head(bytes, pool, field)?;
    push_two(bytes, 0)
}

/// The number of fields, and the fields.
#[tactic(auto, using(jc_facts::proofs::Lists::all_step))]
pub(crate) fn push_fields<'a>(
    bytes: &mut Vec<u8>,
    pool: &IndexSet<Entry<'a>>,
    fields: &'a [Member],
) -> Result<(), AllocError>
    ensures short { OnOk result (IsTrue (are_short fields.now)) }
    ensures bytes { OnOk result (bytes.new.items ≡ bytes.old.items ++ counted (field_bytes pool.now.keys) fields.now) }
{
    push_two(bytes, fields.len())?;
    for field in fields {
        push_field(bytes, pool, field)?;
    }
    Ok(())
}

fn local_places(member: &Member) -> usize
    ensures { result ≡ places_of_locals member.now }
{
    let params = param_slots(member.descriptor.as_bytes()) as usize;
    if is_static(member.flags) {
        params
    } else {
        params + 1
    }
}

#[tactic(auto, using(crate::proofs::MostFrom::uncapped))]
fn code_body<'a>(
    alloc: Global,
    pool: &IndexSet<Entry<'a>>,
    member: &Member,
    body: &'a Body,
) -> Result<Vec<u8>, AllocError>
    requires { IsTrue (fits_count (places_at_most body.now.steps)) }
    ensures { IfOk result (λ bytes. bytes.items ≡ body_of_code pool.now.keys member.now body.now) }
{
    let code = code(alloc, pool, body.steps.as_slice())?;
    let mut bytes = Vec::new(alloc);
    push_two(&mut bytes, most_places(body.steps.as_slice()))?;
    push_two(&mut bytes, local_places(member))?;
    push_four(&mut bytes, code.len())?;
    bytes.extend_from_slice(code.as_slice())?;
    push_two(&mut bytes, 0)?;
    push_two(&mut bytes, 0)?;
    Ok(bytes)
}

fn push_body<'a>(
    alloc: Global,
    bytes: &mut Vec<u8>,
    pool: &IndexSet<Entry<'a>>,
    member: &Member,
    body: &'a Option<Body>,
) -> Result<(), AllocError>
    requires { IsTrue (fits_body pool.now.keys body.now) }
    ensures { OnOk result (bytes.new.items ≡ bytes.old.items ++ counted (attribute_bytes pool.now.keys) (method_attributes pool.now.keys member.now body.now)) }
{
    match body {
        None => push_two(bytes, 0),
        Some(body) => {
            let contents = code_body(alloc, pool, member, body)?;
            push_two(bytes, 1)?;
            push_attribute(bytes, pool, b"Code", contents.as_slice())
        }
    }
}

fn push_first<'a>(
    alloc: Global,
    bytes: &mut Vec<u8>,
    pool: &IndexSet<Entry<'a>>,
    member: &Member,
    bodies: &'a [Option<Body>],
) -> Result<(), AllocError>
    requires { IsTrue (fits_body pool.now.keys (body_first bodies.now)) }
    ensures { OnOk result (bytes.new.items ≡ bytes.old.items ++ counted (attribute_bytes pool.now.keys) (method_attributes pool.now.keys member.now (body_first bodies.now))) }
{
    match bodies.first() {
        None => push_two(bytes, 0),
        Some(body) => push_body(alloc, bytes, pool, member, body),
    }
}

fn push_method<'a>(
    alloc: Global,
    bytes: &mut Vec<u8>,
    pool: &IndexSet<Entry<'a>>,
    method: &'a Member,
    bodies: &'a [Option<Body>],
) -> Result<(), AllocError>
    requires { IsTrue (fits_body pool.now.keys (body_first bodies.now)) }
    ensures short { OnOk result (IsTrue (nat_lt method.now.flags 65536)) }
    ensures bytes { OnOk result (bytes.new.items ≡ bytes.old.items ++ method_bytes pool.now.keys method.now (body_first bodies.now)) }
{
    push_head(bytes, pool, method)?;
    push_first(alloc, bytes, pool, method, bodies)
}

/// The methods, with their bodies in order.
#[tactic(auto, using(jc_facts::proofs::Lists::all_step))]
pub(crate) fn push_methods<'a>(
    alloc: Global,
    bytes: &mut Vec<u8>,
    pool: &IndexSet<Entry<'a>>,
    methods: &'a [Member],
    bodies: &'a [Option<Body>],
) -> Result<(), AllocError>
    requires { IsTrue (fits_bodies pool.now.keys bodies.now) }
    ensures short { OnOk result (IsTrue (are_short methods.now)) }
    ensures bytes { OnOk result (bytes.new.items ≡ bytes.old.items ++ methods_bytes pool.now.keys methods.now bodies.now) }
{
    let mut others = bodies;
    for method in methods {
        push_method(alloc, bytes, pool, method, others)?;
        others = other_bodies(others);
    }
    Ok(())
}
