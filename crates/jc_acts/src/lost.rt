//! What the chains of classes lost, of classes that the new side may not have: there their chain is
//! empty.
ghost use Rattle.std.specs.Prelude.{◌≡◌, ◌<◌, ◌&&◌, length, not};
ghost use Rattle.jc_facts.specs.world.Hierarchy.{in_chain};
ghost use Rattle.jc_facts.specs.world.Loading.{loads};
ghost use Rattle.jc_facts.specs.world.World.{size};
ghost use Rattle.jc_index.specs.Ids.{name_at};
ghost use Rattle.jc_acts.specs.Seats.{AreSeats, loses_class, may_be_closed};
ghost use Rattle.jc_acts.specs.Touched.{AreSet, left_chain_of};

use crate::chains::lacks_any;
use crate::seats::Seats;
use crate::touched::{set_left, set_where};
use jc_index::ids::ClassId;
use jc_sides::sides::Sides;
use jc_table::table::Table;

// Whether neither the class nor any above it changed or left the chain of a seat, and its namesake on
// the new side loads.
fn is_unchanged(sides: &Sides<'_>, seats: &Seats<'_>, id: ClassId, after: ClassId) -> bool
    requires seats { AreSeats sides.now seats.now }
    requires class { id < size sides.now.old }
    requires after { after < size sides.now.new }
    ensures { result ≡ (not (may_be_closed sides.now (name_at sides.now.old id)) && loads sides.now.new (name_at sides.now.new after)) }
{
    !seats.may_close_at(sides, id) && sides.new.fault_at(after).is_none()
}

/// Whether a class of the class's chain on the old side isn't in its chain on the new side, which is
/// empty where the class is absent (JVMS 4.1). Where both chains have the same names, it takes time in
/// proportion to their length, and hardly any where neither the class nor any above it changed.
pub fn loses_any(sides: &Sides<'_>, seats: &Seats<'_>, id: ClassId) -> bool
    requires seats { AreSeats sides.now seats.now }
    requires class { id < size sides.now.old }
    ensures { result ≡ loses_class sides.now (name_at sides.now.old id) }
{
    let _facts = sides.old.facts(id);
    let Some(after) = sides.new_id(id) else {
        return true;
    };
    if is_unchanged(sides, seats, id, after) {
        return false;
    }
    lacks_any(sides.old, sides.new, id, after)
}

// Sets the flags of all classes of the chain.
fn set_chain(table: &Table, flags: &mut Vec<bool>, class: ClassId)
    requires class { class < size table.now }
    requires flags { length flags.old.items ≡ size table.now }
    ensures { AreSet table.now (in_chain table.now (name_at table.now class)) flags.old.items flags.new.items }
{
    let mut next = Some(class);
    for _ in 0..table.count() {
        let Some(id) = next else {
            return;
        };
        let _facts = table.facts(id);
        set_where(flags, id.number() as usize, true);
        next = table.superclass(id);
    }
}

/// Sets the flags of the classes of the old chain of the class that aren't in its new one.
pub fn set_lost(sides: &Sides<'_>, flags: &mut Vec<bool>, id: ClassId)
    requires class { id < size sides.now.old }
    requires flags { length flags.old.items ≡ size sides.now.old }
    ensures { AreSet sides.now.old (λ y. left_chain_of sides.now y (name_at sides.now.old id)) flags.old.items flags.new.items }
{
    match sides.new_id(id) {
        Some(after) => set_left(sides.old, sides.new, flags, id, after),
        None => set_chain(sides.old, flags, id),
    }
}
