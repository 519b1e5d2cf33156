//! Further initializers of planned clients: each calls one of the superclass that exposes classes.
ghost use Rattle.std.specs.Prelude.{◌≡◌, ◌++◌, codes, IfOk, OnOk};
ghost use Rattle.jc_promises.specs.plan.Planned.{init_taking};
ghost use Rattle.jc_witness.specs.steps.MoreInits.{more_ints, with_init, with_inits};

use jc_base::name::Name;
use jc_drafts::bodies::initializer;
use jc_drafts::draft::{Draft, PUBLIC, body};
use jc_facts::act::Act;
use jc_facts::class_facts::Member;
use jc_facts::member_act::MemberAct;
use std::alloc::{AllocError, Global};

// The descriptor of an initializer that takes these ints (JVMS 4.3.3).
fn taking(alloc: Global, ints: &[u8]) -> Result<Name, AllocError>
    ensures { IfOk result (λ text. text ≡ codes "(" ++ (ints.now ++ codes ")V")) }
{
    let mut text = Vec::from_slice(alloc, b"(")?;
    text.extend_from_slice(ints)?;
    text.extend_from_slice(b")V")?;
    Name::from_bytes(alloc, text.as_slice())
}

// public <init>, which takes these ints.
fn init_of(alloc: Global, ints: &[u8]) -> Result<Member, AllocError>
    ensures { IfOk result (λ method. method ≡ init_taking ints.now) }
{
    Ok(Member {
        name: Name::from_bytes(alloc, b"<init>")?,
        descriptor: taking(alloc, ints)?,
        flags: PUBLIC,
    })
}

// The class with one more initializer, which takes these ints, where the act calls one of the
// superclass.
fn with_call(
    alloc: Global,
    draft: Draft,
    superclass: &Name,
    ints: &[u8],
    exposed: &MemberAct,
) -> Result<Draft, AllocError>
    ensures { IfOk result (λ made. made ≡ with_init draft superclass.now ints.now exposed.now) }
{
    match exposed.act {
        Act::InitSuper => {
            let steps = initializer(alloc, superclass, exposed.key.descriptor.as_bytes())?;
            draft.method(init_of(alloc, ints)?, body(steps))
        }
        _ => Ok(draft),
    }
}

// One int more, where the act has an initializer of its own.
fn push_int(ints: &mut Vec<u8>, act: Act) -> Result<(), AllocError>
    ensures { OnOk result (ints.new.items ≡ more_ints ints.old.items act) }
{
    match act {
        Act::InitSuper => Ok(ints.insert(0, b'I')?),
        _ => Ok(()),
    }
}

/// The class with one more initializer for each of the acts that call one of the superclass.
pub(crate) fn with_calls(
    alloc: Global,
    draft: Draft,
    superclass: &Name,
    acts: &[MemberAct],
) -> Result<Draft, AllocError>
    ensures { IfOk result (λ made. made ≡ with_inits draft superclass.now (codes "I") acts.now) }
{
    let mut draft = draft;
    let mut ints = Vec::from_slice(alloc, b"I")?;
    for exposed in acts {
        draft = with_call(alloc, draft, superclass, ints.as_slice(), exposed)?;
        push_int(&mut ints, exposed.act)?;
    }
    Ok(draft)
}
