//! Which classes may have changed, found out once for all rules on members.
ghost use Rattle.std.specs.Prelude.{◌≡◌, IfOk};
ghost use Rattle.std.specs.List.{All, filter_map};
ghost use Rattle.jc_acts.specs.Seats.{AreSeats, may_be_closed};
ghost use Rattle.jc_facts.specs.Options.{some_where};
ghost use Rattle.jc_sides.specs.SharedOf.{IsShared, name_of};

use jc_acts::seats::Seats;
use jc_sides::classes::{base_interfaces, steady_classes};
use jc_sides::found::push_some;
use jc_sides::shared::Shared;
use jc_sides::sides::Sides;
use std::alloc::{AllocError, Global};

/// The kept classes of which an act on a member may be closed now, in byte order of their names. The
/// rules on members speak of these alone, and make nothing of others.
#[derive(Drop)]
pub struct Changed<'a> {
    /// Those that haven't stopped to be interfaces.
    pub steady: Vec<Shared<'a>>,
    /// The base classes.
    pub classes: Vec<Shared<'a>>,
    /// The base interfaces.
    pub interfaces: Vec<Shared<'a>>,
}

// The class once more, if it may have changed.
fn if_changed<'a>(sides: &Sides<'a>, seats: &Seats<'a>, class: &Shared<'a>) -> Option<Shared<'a>>
    requires seats { AreSeats sides.now seats.now }
    requires class { IsShared sides.now «class».now }
    ensures { result ≡ some_where (may_be_closed sides.now (name_of «class».now)) «class».now }
{
    if !seats.may_close(sides, class) {
        return None;
    }
    Some(Shared {
        name: class.name,
        old: class.old,
        new: class.new,
    })
}

// Those of the classes that may have changed.
fn changed_of<'a>(
    alloc: Global,
    sides: &Sides<'a>,
    seats: &Seats<'a>,
    classes: &[Shared<'a>],
) -> Result<Vec<Shared<'a>>, AllocError>
    requires seats { AreSeats sides.now seats.now }
    requires classes { All (IsShared sides.now) classes.now }
    ensures { IfOk result (λ changed. changed.items ≡ filter_map (λ b. some_where (may_be_closed sides.now (name_of b)) b) classes.now) }
{
    let mut changed = Vec::new(alloc);
    for class in classes {
        push_some(&mut changed, if_changed(sides, seats, class))?;
    }
    Ok(changed)
}

impl<'a> Changed<'a> {
    ghost use Rattle.std.specs.Prelude.{IfOk};
    ghost use Rattle.jc_acts.specs.Seats.{AreSeats};
    ghost use Rattle.jc_declared.specs.steps.Changed.{AreChanged};

    /// Those of the two sides.
    ///
    /// # Errors
    ///
    /// `AllocError` where memory runs out.
    pub fn new(
        alloc: Global,
        sides: &Sides<'a>,
        seats: &Seats<'a>,
    ) -> Result<Changed<'a>, AllocError>
        requires { AreSeats sides.now seats.now }
        ensures { IfOk result (λ changed. AreChanged sides.now changed) }
    {
        let all_steady = steady_classes(alloc, sides)?;
        let all_interfaces = base_interfaces(alloc, sides)?;
        let steady = changed_of(alloc, sides, seats, all_steady.as_slice())?;
        let classes = changed_of(alloc, sides, seats, seats.bases())?;
        let interfaces = changed_of(alloc, sides, seats, all_interfaces.as_slice())?;
        Ok(Changed {
            steady,
            classes,
            interfaces,
        })
    }
}
