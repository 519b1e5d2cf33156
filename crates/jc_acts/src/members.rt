//! The first act on a member that is closed to a seat now.
ghost use Rattle.std.specs.Prelude.{IsTrue};
ghost use Rattle.jc_facts.specs.client.Forms.{form_view};
ghost use Rattle.jc_promises.specs.rule.OpenActs.{field_acts, method_acts};
ghost use Rattle.jc_promises.specs.rule.Bases.{is_key_of_method, is_steady};
ghost use Rattle.jc_sides.specs.Numbering.{AreNumbers};
ghost use Rattle.jc_sides.specs.SharedOf.{IsShared, name_of};
ghost use Rattle.jc_acts.specs.ClosedActs.{IsFirstClosed};
ghost use Rattle.jc_acts.specs.Seats.{AreSeats};
ghost use Rattle.jc_acts.specs.steps.References.{acts_of, MayName};

use crate::asked::asked;
use crate::closed_act::ClosedAct;
use crate::closing::first_closed;
use crate::lookup::{Looked, acts, look_up};
use crate::seats::Seats;
use jc_facts::act::Form;
use jc_facts::key::Key;
use jc_sides::key_numbers::KeyNumbers;
use jc_sides::shared::Shared;
use jc_sides::sides::Sides;

// The first act by references of the form that is closed to a seat now.
fn closed_by<'a>(
    sides: &Sides<'_>,
    seats: &Seats<'a>,
    class: &Shared<'_>,
    form: Form,
    key: &Key,
    numbers: &KeyNumbers,
) -> Option<ClosedAct<'a>>
    requires seats { AreSeats sides.now seats.now }
    requires class { IsShared sides.now «class».now }
    requires steady { IsTrue (is_steady sides.now.old sides.now.new (name_of «class».now)) }
    requires key { MayName (form_view form) key.now }
    requires numbers { AreNumbers sides.now key.now numbers.now }
    ensures { IsFirstClosed sides.now (name_of «class».now) key.now (acts_of form) result }
{
    let Ok(before) = look_up(sides.old, form, class.old, key, numbers.old) else {
        return None;
    };
    let after = look_up(sides.new, form, class.new, key, numbers.new);
    let looked = Looked { before, after };
    let asked = asked(sides, seats, class, &looked);
    first_closed(sides, class, &looked, acts(form), asked)
}

/// The first act on the field of the key, named through the steady class, that was open to a seat
/// and isn't any more: the first such seat is `java/lang/Object`, or else the first such base class
/// (JVMS 5.4.3.2, 5.4.4).
pub fn field_closed<'a>(
    sides: &Sides<'_>,
    seats: &Seats<'a>,
    class: &Shared<'_>,
    key: &Key,
    numbers: &KeyNumbers,
) -> Option<ClosedAct<'a>>
    requires seats { AreSeats sides.now seats.now }
    requires class { IsShared sides.now «class».now }
    requires steady { IsTrue (is_steady sides.now.old sides.now.new (name_of «class».now)) }
    requires numbers { AreNumbers sides.now key.now numbers.now }
    ensures { IsFirstClosed sides.now (name_of «class».now) key.now field_acts result }
{
    closed_by(sides, seats, class, Form::Field, key, numbers)
}

/// The same of acts on the method of the key, which is no initializer's (JVMS 5.4.3.3, 5.4.3.4,
/// 5.4.4).
pub fn method_closed<'a>(
    sides: &Sides<'_>,
    seats: &Seats<'a>,
    class: &Shared<'_>,
    key: &Key,
    numbers: &KeyNumbers,
) -> Option<ClosedAct<'a>>
    requires seats { AreSeats sides.now seats.now }
    requires class { IsShared sides.now «class».now }
    requires steady { IsTrue (is_steady sides.now.old sides.now.new (name_of «class».now)) }
    requires key { IsTrue (is_key_of_method key.now) }
    requires numbers { AreNumbers sides.now key.now numbers.now }
    ensures { IsFirstClosed sides.now (name_of «class».now) key.now method_acts result }
{
    match closed_by(sides, seats, class, Form::Method, key, numbers) {
        Some(closed) => Some(closed),
        None => closed_by(sides, seats, class, Form::Interface, key, numbers),
    }
}
