//! Whether a blueprint can be written.
ghost use Rattle.std.specs.Prelude.{◌≡◌, ◌↔◌, IfOk, IsTrue, length, []};
ghost use Rattle.std.specs.List.{list_all};
ghost use Rattle.jc_facts.specs.written.PoolEntries.{member, is_good, use_is_good, class_is_good, pair_is_good};
ghost use Rattle.jc_facts.specs.written.Bodies.{step_needs, steps_needs};
ghost use Rattle.jc_facts.specs.written.Written.{body_is_good, IsFormed};
ghost use Rattle.jc_facts.specs.file.Valid.{IsValidClass};

use crate::needs::act_tag;
use crate::write::MINOR;
use jc_desc::pool_texts::{is_any_member, is_class_text, is_field, is_used_method, is_version};
use jc_desc::tags;
use jc_desc::utf8::is_text;
use jc_facts::blueprint::{Blueprint, Body, Step};
use jc_facts::validity::is_valid;
use std::alloc::{AllocError, Global};

fn is_good_class(name: &[u8]) -> bool
    ensures { result ≡ class_is_good name.now }
{
    is_text(name) && is_class_text(name)
}

fn is_good_pair(name: &[u8], descriptor: &[u8]) -> bool
    ensures { result ≡ pair_is_good name.now descriptor.now }
{
    is_text(name) && is_text(descriptor) && is_any_member(name, descriptor)
}

fn is_good_use(tag: u8, name: &[u8], descriptor: &[u8]) -> bool
    ensures { result ≡ use_is_good tag name.now descriptor.now }
{
    match tag {
        tags::FIELD_REF => is_field(descriptor),
        tags::METHOD_REF => is_used_method(false, name, descriptor),
        tags::INTERFACE_METHOD_REF => is_used_method(true, name, descriptor),
        _ => false,
    }
}

fn is_good_member(tag: u8, class: &[u8], name: &[u8], descriptor: &[u8]) -> bool
    ensures { result ≡ is_good (member tag class.now name.now descriptor.now) }
{
    is_good_class(class) && is_good_pair(name, descriptor) && is_good_use(tag, name, descriptor)
}

fn is_good_step(step: &Step) -> bool
    ensures { result ≡ list_all is_good (step_needs step.now) }
{
    match step {
        Step::New(name) => is_good_class(name.as_bytes()),
        Step::Cast(name) => is_good_class(name.as_bytes()),
        Step::Member(act, name, key) => is_good_member(
            act_tag(*act),
            name.as_bytes(),
            key.name.as_bytes(),
            key.descriptor.as_bytes(),
        ),
        Step::Construct(name, descriptor) => {
            is_good_member(
                tags::METHOD_REF,
                name.as_bytes(),
                b"<init>",
                descriptor.as_bytes(),
            )
        }
        _ => true,
    }
}

#[tactic(auto, using(crate::proofs::GoodNeeds::all_more))]
fn are_good_steps(steps: &[Step]) -> bool
    ensures { result ≡ list_all is_good (steps_needs steps.now) }
{
    for step in steps {
        if !is_good_step(step) {
            return false;
        }
    }
    true
}

fn is_good_body(body: &Option<Body>) -> bool
    ensures { result ≡ body_is_good body.now }
{
    match body {
        None => true,
        Some(body) => are_good_steps(body.steps.as_slice()),
    }
}

#[tactic(auto, using(jc_facts::proofs::Lists::all_step, jc_facts::proofs::Lists::all_stop))]
fn are_good_bodies(bodies: &[Option<Body>]) -> bool
    ensures { result ≡ list_all body_is_good bodies.now }
{
    for body in bodies {
        if !is_good_body(body) {
            return false;
        }
    }
    true
}

/// Whether a blueprint meets what `write_class` asks of it. Takes memory to look for keys that stand
/// twice.
///
/// # Errors
///
/// `AllocError` where memory runs out.
pub fn is_formed(alloc: Global, plan: &Blueprint) -> Result<bool, AllocError>
    ensures { IfOk result (λ r. IsTrue r ↔ IsFormed plan.now) }
{
    let facts = &plan.facts;
    let plain = plan.bodies.as_slice().len() == facts.methods.as_slice().len()
        && is_version(MINOR, facts.major)
        && facts.constants.as_slice().is_empty()
        && facts.signatures.as_slice().is_empty()
        && are_good_bodies(plan.bodies.as_slice());
    let valid = is_valid(alloc, facts)?;
    Ok(plain && valid)
}
