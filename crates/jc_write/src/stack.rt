//! The places that a body takes on the stack.
ghost use Rattle.std.specs.Prelude.{◌≡◌, ◌≤◌, min};
ghost use Rattle.jc_desc.specs.Reading.{field_of};
ghost use Rattle.jc_desc.specs.Slots.{slots_of_field};
ghost use Rattle.jc_facts.specs.written.Bodies.{places_of_primitive, places_of_kind, places_after_static, places_after_call, places_after_act, places_after_step, places_at_most};

use crate::steps::param_slots;
use jc_desc::method::{field_slots, returned_slots};
use jc_facts::act::Act;
use jc_facts::blueprint::{Primitive, Slot, Step};

/// One more than the places that the format can say.
pub(crate) const TOO_MANY: usize = 65536;

fn prim_places(prim: Primitive) -> usize
    ensures places { result ≡ places_of_primitive prim }
    ensures small { result ≤ 2 }
{
    match prim {
        Primitive::Int | Primitive::Float => 1,
        Primitive::Long | Primitive::Double => 2,
    }
}

fn kind_places(slot: Slot) -> usize
    ensures places { result ≡ places_of_kind slot }
    ensures small { result ≤ 2 }
{
    match slot {
        Slot::Int | Slot::Float | Slot::Ref => 1,
        Slot::Long | Slot::Double => 2,
    }
}

fn after_static(descriptor: &[u8], places: usize) -> usize
    requires { places ≤ 65535 }
    ensures { result ≡ places_after_static descriptor.now places }
{
    places.saturating_sub(param_slots(descriptor) as usize) + returned_slots(descriptor) as usize
}

fn after_call(descriptor: &[u8], places: usize) -> usize
    requires { places ≤ 65535 }
    ensures { result ≡ places_after_call descriptor.now places }
{
    places.saturating_sub(param_slots(descriptor) as usize + 1)
        + returned_slots(descriptor) as usize
}

fn after_act(act: Act, descriptor: &[u8], places: usize) -> usize
    requires { places ≤ 65535 }
    ensures { result ≡ places_after_act act descriptor.now places }
{
    match act {
        Act::GetStatic => places + field_slots(descriptor) as usize,
        Act::PutStatic => places.saturating_sub(field_slots(descriptor) as usize),
        Act::GetField => places.saturating_sub(1) + field_slots(descriptor) as usize,
        Act::PutField => places.saturating_sub(field_slots(descriptor) as usize + 1),
        Act::InvokeStatic => after_static(descriptor, places),
        Act::InvokeStaticInterface => after_static(descriptor, places),
        _ => after_call(descriptor, places),
    }
}

fn after_step(step: &Step, places: usize) -> usize
    requires { places ≤ 65535 }
    ensures { result ≡ places_after_step step.now places }
{
    match step {
        Step::Null => places + 1,
        Step::Zero(prim) => places + prim_places(*prim),
        Step::Load(slot, _) => places + kind_places(*slot),
        Step::New(_) => places + 1,
        Step::Dup => places + 1,
        Step::Pop => places.saturating_sub(1),
        Step::Pop2 => places.saturating_sub(2),
        Step::Cast(_) => places,
        Step::Member(act, _, key) => after_act(*act, key.descriptor.as_bytes(), places),
        Step::Construct(_, descriptor) => {
            places.saturating_sub(param_slots(descriptor.as_bytes()) as usize + 1)
        }
        Step::Return(_) => 0,
    }
}

/// The largest number of places, or `TOO_MANY` where it is above 65,535.
#[tactic(auto, using(crate::proofs::MostFrom::go_on, crate::proofs::MostFrom::stop, crate::proofs::MostFrom::end))]
pub(crate) fn most_places(steps: &[Step]) -> usize
    ensures { result ≡ min (places_at_most steps.now) 65536 }
{
    let mut places = 0usize;
    let mut most = 0usize;
    for step in steps {
        if places > 65535 {
            return TOO_MANY;
        }
        most = most.max(places);
        places = after_step(step, places);
    }
    most.max(places).min(TOO_MANY)
}
