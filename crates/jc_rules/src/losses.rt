//! Classes that lost some of their chain, and the members that expose those that are hidden.
ghost use Rattle.std.specs.Prelude.{◌≡◌, ◌<◌, ◌&&◌, ℕ, IfOk, length, true};
ghost use Rattle.jc_acts.specs.Seats.{AreSeats};
ghost use Rattle.jc_acts.specs.Touched.{AreFlags, AreSet, flag_at, left_chain_of};
ghost use Rattle.jc_facts.specs.world.World.{size};
ghost use Rattle.jc_rules.specs.steps.Losses.{AreJoined, may_take_part, loses, is_lost, was_interface, changed_place, matters};
ghost use Rattle.jc_index.specs.Ids.{name_at};

use crate::interface_became_class::is_no_interface_now;
use jc_acts::lost::{loses_any, set_lost};
use jc_acts::seats::Seats;
use jc_exposed::exposed::Exposed;
use jc_index::ids::ClassId;
use jc_sides::kept::{is_hidden_class, kept};
use jc_sides::sides::Sides;
use std::alloc::{AllocError, Global};

/// Which classes lost some of their chain, and which members expose hidden classes, where a rule or
/// another part of the report may ask for that.
#[derive(Drop)]
pub struct Losses {
    // For each class of the old side, whether it is kept or hidden and has lost a class of its chain.
    losing: Vec<bool>,
    pub(crate) exposed: Exposed,
}

impl Losses {
    ghost use Rattle.std.specs.Prelude.{◌≡◌, ◌<◌, IfOk};
    ghost use Rattle.jc_acts.specs.Seats.{AreSeats};
    ghost use Rattle.jc_acts.specs.Touched.{flag_at};
    ghost use Rattle.jc_exposed.specs.Exposed.{AreWanted};
    ghost use Rattle.jc_facts.specs.world.World.{size};
    ghost use Rattle.jc_rules.specs.steps.Losses.{AreLosses, exposed_of, loses};
    ghost use Rattle.jc_index.specs.Ids.{name_at};

    /// What was lost between the two sides. Members are looked at only where a hidden class was an
    /// interface and isn't one any more, or lost some of its chain, or was lost by a class that is kept
    /// or hidden, or where another part of the report asks for a class, whose flag is set then: one pass
    /// over the members is for all.
    ///
    /// # Errors
    ///
    /// `AllocError` where memory runs out.
    pub fn new(
        alloc: Global,
        sides: &Sides<'_>,
        seats: &Seats<'_>,
        others: &[bool],
    ) -> Result<Losses, AllocError>
        requires { AreSeats sides.now seats.now }
        ensures losses { IfOk result (λ losses. AreLosses sides.now losses) }
        ensures others { IfOk result (λ losses. AreWanted sides.now (flag_at others.now) (exposed_of losses)) }
    {
        let losing = losing(alloc, sides, seats)?;
        let mut wanted = wanted(alloc, sides, losing.as_slice())?;
        join(&mut wanted, others);
        let exposed = Exposed::new(alloc, sides, seats, wanted)?;
        Ok(Losses { losing, exposed })
    }

    /// The members that expose hidden classes.
    pub fn exposed(&self) -> &Exposed
        ensures { result.now ≡ exposed_of self.now }
    {
        &self.exposed
    }

    /// Whether the class is kept or hidden, and a class of its old chain isn't in its new one.
    pub fn has_lost(&self, _sides: &Sides<'_>, id: ClassId) -> bool
        requires losses { AreLosses _sides.now self.now }
        requires class { id < size _sides.now.old }
        ensures { result ≡ loses _sides.now (name_at _sides.now.old id) }
    {
        self.losing[id.number() as usize]
    }
}

// Whether the class is kept or hidden.
fn takes_part(sides: &Sides<'_>, id: ClassId) -> bool
    requires { id < size sides.now.old }
    ensures { result ≡ may_take_part sides.now (name_at sides.now.old id) }
{
    if kept(sides, id).is_some() {
        return true;
    }
    is_hidden_class(sides.old, id)
}

// Whether it is, and has lost a class of its chain.
fn is_losing(sides: &Sides<'_>, seats: &Seats<'_>, id: ClassId) -> bool
    requires seats { AreSeats sides.now seats.now }
    requires class { id < size sides.now.old }
    ensures { result ≡ loses sides.now (name_at sides.now.old id) }
{
    takes_part(sides, id) && loses_any(sides, seats, id)
}

// The same of each class.
fn losing(alloc: Global, sides: &Sides<'_>, seats: &Seats<'_>) -> Result<Vec<bool>, AllocError>
    requires { AreSeats sides.now seats.now }
    ensures { IfOk result (λ flags. AreFlags sides.now.old (loses sides.now) flags.items) }
{
    let mut flags = Vec::new(alloc);
    for n in 0..sides.old.count() {
        let id = sides.old.id(n).unwrap();
        flags.push(is_losing(sides, seats, id))?;
    }
    Ok(flags)
}

// ---- hidden classes that matter

// For each class, whether it was an interface and isn't one of the new side.
fn former_interfaces(alloc: Global, sides: &Sides<'_>) -> Result<Vec<bool>, AllocError>
    ensures { IfOk result (λ flags. AreFlags sides.now.old (was_interface sides.now) flags.items) }
{
    let mut flags = Vec::new(alloc);
    for n in 0..sides.old.count() {
        let id = sides.old.id(n).unwrap();
        flags.push(is_no_interface_now(sides, id))?;
    }
    Ok(flags)
}

// Sets the flags of those that the class has lost, if it loses.
fn set_lost_by(sides: &Sides<'_>, losing: &[bool], flags: &mut Vec<bool>, id: ClassId)
    requires losing { AreFlags sides.now.old (loses sides.now) losing.now }
    requires class { id < size sides.now.old }
    requires flags { length flags.old.items ≡ size sides.now.old }
    ensures { AreSet sides.now.old (λ y. loses sides.now (name_at sides.now.old id) && left_chain_of sides.now y (name_at sides.now.old id)) flags.old.items flags.new.items }
{
    if losing[id.number() as usize] {
        set_lost(sides, flags, id);
    }
}

// Sets the flags of those that some class has lost.
fn set_lost_by_any(sides: &Sides<'_>, losing: &[bool], flags: &mut Vec<bool>)
    requires losing { AreFlags sides.now.old (loses sides.now) losing.now }
    requires flags { length flags.old.items ≡ size sides.now.old }
    ensures { AreSet sides.now.old (is_lost sides.now) flags.old.items flags.new.items }
{
    for n in 0..sides.old.count() {
        let id = sides.old.id(n).unwrap();
        set_lost_by(sides, losing, flags, id);
    }
}

// For each class, whether it was an interface and isn't one, or a class that is kept or hidden has lost
// it.
fn moved(alloc: Global, sides: &Sides<'_>, losing: &[bool]) -> Result<Vec<bool>, AllocError>
    requires { AreFlags sides.now.old (loses sides.now) losing.now }
    ensures { IfOk result (λ flags. AreFlags sides.now.old (changed_place sides.now) flags.items) }
{
    let mut flags = former_interfaces(alloc, sides)?;
    set_lost_by_any(sides, losing, &mut flags);
    Ok(flags)
}

// Whether a rule may ask to whom members expose the class.
fn is_asked(sides: &Sides<'_>, losing: &[bool], moved: &[bool], id: ClassId) -> bool
    requires losing { AreFlags sides.now.old (loses sides.now) losing.now }
    requires moved { AreFlags sides.now.old (changed_place sides.now) moved.now }
    requires class { id < size sides.now.old }
    ensures { result ≡ matters sides.now (name_at sides.now.old id) }
{
    if !is_hidden_class(sides.old, id) {
        return false;
    }
    let n = id.number() as usize;
    moved[n] || losing[n]
}

// The same of each class.
fn wanted(alloc: Global, sides: &Sides<'_>, losing: &[bool]) -> Result<Vec<bool>, AllocError>
    requires { AreFlags sides.now.old (loses sides.now) losing.now }
    ensures { IfOk result (λ flags. AreFlags sides.now.old (matters sides.now) flags.items) }
{
    let moved = moved(alloc, sides, losing)?;
    let mut flags = Vec::new(alloc);
    for n in 0..sides.old.count() {
        let id = sides.old.id(n).unwrap();
        flags.push(is_asked(sides, losing, moved.as_slice(), id))?;
    }
    Ok(flags)
}

// ---- those that are asked for besides

// Sets the flag of the number, where there is one and the test passed.
fn set_if(flags: &mut Vec<bool>, n: usize, passes: bool)
    ensures count { length flags.new.items ≡ length flags.old.items }
    ensures kept { (k : ℕ) → flag_at flags.old.items k ≡ true → flag_at flags.new.items k ≡ true }
    ensures set { passes ≡ true → n < length flags.old.items → flag_at flags.new.items n ≡ true }
{
    if !passes {
        return;
    }
    if n < flags.len() {
        flags[n] = true;
    }
}

// Sets each flag that is set among the others.
fn join(flags: &mut Vec<bool>, others: &[bool])
    ensures { AreJoined flags.old.items others.now (length others.now) flags.new.items }
{
    for n in 0..others.len() {
        set_if(flags, n, others[n]);
    }
}
