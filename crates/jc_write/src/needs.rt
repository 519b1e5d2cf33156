//! The entries that a blueprint needs, in the order of need.
ghost use Rattle.std.specs.Prelude.{◌≡◌, ◌++◌, ◌∷◌, OnOk, IfOk, []};
ghost use Rattle.jc_facts.specs.written.PoolEntries.{text, class};
ghost use Rattle.jc_facts.specs.written.Bodies.{tag_of_act, step_needs, steps_needs};
ghost use Rattle.jc_facts.specs.written.Written.{classes_needs, fields_needs, body_needs, methods_needs, body_first, bodies_other, permits_needs, host_needs, nest_needs, superclass_needs, member_needs, pool_of_plan};
ghost use Rattle.jc_write.specs.steps.Needed.{with_needs};

use crate::entry::Entry;
use crate::pool::{need_class, need_member, need_text};
use indexmap::IndexSet;
use jc_base::items::Items;
use jc_base::name::Name;
use jc_desc::tags;
use jc_facts::act::Act;
use jc_facts::blueprint::{Blueprint, Body, Step};
use jc_facts::class_facts::{ClassFacts, Member};
use std::alloc::{AllocError, Global};

/// The tag of the reference that an instruction takes; 0 for an act that is none.
pub(crate) fn act_tag(act: Act) -> u8
    ensures { result ≡ tag_of_act act }
{
    match act {
        Act::GetStatic | Act::PutStatic | Act::GetField | Act::PutField => tags::FIELD_REF,
        Act::InvokeVirtual | Act::InvokeSpecial | Act::InvokeStatic => tags::METHOD_REF,
        Act::InvokeSpecialInterface | Act::InvokeStaticInterface | Act::InvokeInterface => {
            tags::INTERFACE_METHOD_REF
        }
        _ => 0,
    }
}

fn need_classes<'a>(pool: &mut IndexSet<Entry<'a>>, names: &'a [Name]) -> Result<(), AllocError>
    ensures { OnOk result (pool.new.keys ≡ with_needs pool.old.keys (classes_needs names.now)) }
{
    for name in names {
        need_class(pool, name.as_bytes())?;
    }
    Ok(())
}

fn need_fields<'a>(pool: &mut IndexSet<Entry<'a>>, fields: &'a [Member]) -> Result<(), AllocError>
    ensures { OnOk result (pool.new.keys ≡ with_needs pool.old.keys (fields_needs fields.now)) }
{
    for field in fields {
        need_text(pool, field.name.as_bytes())?;
        need_text(pool, field.descriptor.as_bytes())?;
    }
    Ok(())
}

fn need_step<'a>(pool: &mut IndexSet<Entry<'a>>, step: &'a Step) -> Result<(), AllocError>
    ensures { OnOk result (pool.new.keys ≡ with_needs pool.old.keys (step_needs step.now)) }
{
    match step {
        Step::New(class) => need_class(pool, class.as_bytes()),
        Step::Cast(class) => need_class(pool, class.as_bytes()),
        Step::Member(act, class, key) => need_member(
            pool,
            act_tag(*act),
            class.as_bytes(),
            key.name.as_bytes(),
            key.descriptor.as_bytes(),
        ),
        Step::Construct(class, descriptor) => need_member(
            pool,
            tags::METHOD_REF,
            class.as_bytes(),
            b"<init>",
            descriptor.as_bytes(),
        ),
        _ => Ok(()),
    }
}

#[tactic(auto, using(crate::proofs::Needed::needs_more))]
fn need_steps<'a>(pool: &mut IndexSet<Entry<'a>>, steps: &'a [Step]) -> Result<(), AllocError>
    ensures { OnOk result (pool.new.keys ≡ with_needs pool.old.keys (steps_needs steps.now)) }
{
    for step in steps {
        need_step(pool, step)?;
    }
    Ok(())
}

#[tactic(auto, using(crate::proofs::Needed::needs_more))]
fn need_body<'a>(pool: &mut IndexSet<Entry<'a>>, body: &'a Option<Body>) -> Result<(), AllocError>
    ensures { OnOk result (pool.new.keys ≡ with_needs pool.old.keys (body_needs body.now)) }
{
    match body {
        None => Ok(()),
        Some(body) => {
            need_text(pool, b"Code")?;
            need_steps(pool, body.steps.as_slice())
        }
    }
}

fn need_first<'a>(
    pool: &mut IndexSet<Entry<'a>>,
    bodies: &'a [Option<Body>],
) -> Result<(), AllocError>
    ensures { OnOk result (pool.new.keys ≡ with_needs pool.old.keys (body_needs (body_first bodies.now))) }
{
    match bodies.first() {
        None => Ok(()),
        Some(body) => need_body(pool, body),
    }
}

/// The bodies behind the first.
pub(crate) fn other_bodies(bodies: &[Option<Body>]) -> &[Option<Body>]
    ensures { result.now ≡ bodies_other bodies.now }
{
    match bodies {
        [] => bodies,
        [_, others @ ..] => others,
    }
}

#[tactic(auto, using(crate::proofs::Needed::needs_more))]
fn need_method<'a>(
    pool: &mut IndexSet<Entry<'a>>,
    method: &'a Member,
    bodies: &'a [Option<Body>],
) -> Result<(), AllocError>
    ensures { OnOk result (pool.new.keys ≡ with_needs pool.old.keys (member_needs method.now ++ body_needs (body_first bodies.now))) }
{
    need_text(pool, method.name.as_bytes())?;
    need_text(pool, method.descriptor.as_bytes())?;
    need_first(pool, bodies)
}

#[tactic(auto, using(crate::proofs::Needed::methods_step))]
fn need_methods<'a>(
    pool: &mut IndexSet<Entry<'a>>,
    methods: &'a [Member],
    bodies: &'a [Option<Body>],
) -> Result<(), AllocError>
    ensures { OnOk result (pool.new.keys ≡ with_needs pool.old.keys (methods_needs methods.now bodies.now)) }
{
    let mut others = bodies;
    for method in methods {
        need_method(pool, method, others)?;
        others = other_bodies(others);
    }
    Ok(())
}

fn need_superclass<'a>(
    pool: &mut IndexSet<Entry<'a>>,
    superclass: &'a Option<Name>,
) -> Result<(), AllocError>
    ensures { OnOk result (pool.new.keys ≡ with_needs pool.old.keys (superclass_needs superclass.now)) }
{
    match superclass {
        None => Ok(()),
        Some(name) => need_class(pool, name.as_bytes()),
    }
}

fn need_permits<'a>(
    pool: &mut IndexSet<Entry<'a>>,
    permits: &'a Option<Items<Name>>,
) -> Result<(), AllocError>
    ensures { OnOk result (pool.new.keys ≡ with_needs pool.old.keys (permits_needs permits.now)) }
{
    match permits {
        None => Ok(()),
        Some(names) => {
            need_text(pool, b"PermittedSubclasses")?;
            need_classes(pool, names.as_slice())
        }
    }
}

fn need_host<'a>(pool: &mut IndexSet<Entry<'a>>, host: &'a Option<Name>) -> Result<(), AllocError>
    ensures { OnOk result (pool.new.keys ≡ with_needs pool.old.keys (host_needs host.now)) }
{
    match host {
        None => Ok(()),
        Some(name) => {
            need_text(pool, b"NestHost")?;
            need_class(pool, name.as_bytes())
        }
    }
}

fn need_nest<'a>(pool: &mut IndexSet<Entry<'a>>, members: &'a [Name]) -> Result<(), AllocError>
    ensures { OnOk result (pool.new.keys ≡ with_needs pool.old.keys (nest_needs members.now)) }
{
    match members {
        [] => Ok(()),
        _ => {
            need_text(pool, b"NestMembers")?;
            need_classes(pool, members)
        }
    }
}

fn need_head<'a>(pool: &mut IndexSet<Entry<'a>>, facts: &'a ClassFacts) -> Result<(), AllocError>
    ensures { OnOk result (pool.new.keys ≡ with_needs (with_needs (with_needs pool.old.keys (class facts.now.name ∷ [])) (superclass_needs facts.now.superclass)) (classes_needs facts.now.interfaces)) }
{
    need_class(pool, facts.name.as_bytes())?;
    need_superclass(pool, &facts.superclass)?;
    need_classes(pool, facts.interfaces.as_slice())
}

fn need_attributes<'a>(
    pool: &mut IndexSet<Entry<'a>>,
    facts: &'a ClassFacts,
) -> Result<(), AllocError>
    ensures { OnOk result (pool.new.keys ≡ with_needs (with_needs (with_needs pool.old.keys (permits_needs facts.now.permits)) (host_needs facts.now.nest_host)) (nest_needs facts.now.nest_members)) }
{
    need_permits(pool, &facts.permits)?;
    need_host(pool, &facts.nest_host)?;
    need_nest(pool, facts.nest_members.as_slice())
}

/// The pool of a blueprint.
#[tactic(auto, using(crate::proofs::Needed::whole_pool), unfolding(jc_facts::specs::written::Written::pool_of_plan))]
pub(crate) fn pool_of<'a>(
    alloc: Global,
    plan: &'a Blueprint,
) -> Result<IndexSet<Entry<'a>>, AllocError>
    ensures { IfOk result (λ pool. pool.keys ≡ pool_of_plan plan.now) }
{
    let mut pool = IndexSet::new(alloc);
    need_head(&mut pool, &plan.facts)?;
    need_fields(&mut pool, plan.facts.fields.as_slice())?;
    need_methods(
        &mut pool,
        plan.facts.methods.as_slice(),
        plan.bodies.as_slice(),
    )?;
    need_attributes(&mut pool, &plan.facts)?;
    Ok(pool)
}
