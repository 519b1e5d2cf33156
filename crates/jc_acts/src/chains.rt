//! What the chain of superclasses of a class lost.
ghost use Rattle.std.specs.Prelude.{◌≡◌, ◌<◌, true, not, is_some, IfSome};
ghost use Rattle.std.specs.List.{list_any};
ghost use Rattle.jc_facts.specs.world.World.{size};
ghost use Rattle.jc_facts.specs.world.Hierarchy.{chain, in_chain};
ghost use Rattle.jc_index.specs.Ids.{name_at};
ghost use Rattle.jc_sides.specs.SharedOf.{IsShared, name_of};
ghost use Rattle.jc_acts.specs.Seats.{loses_class};
ghost use Rattle.jc_acts.specs.steps.Chains.{met_beside, beside_after};

use jc_base::name::Name;
use jc_index::ids::ClassId;
use jc_sides::shared::Shared;
use jc_sides::sides::Sides;
use jc_table::table::Table;

/// Whether a class of this name is in the chain of the class.
pub(crate) fn has_above(table: &Table, class: ClassId, name: &Name) -> bool
    requires { class < size table.now }
    ensures { result ≡ in_chain table.now (name_at table.now class) name.now }
{
    match table.get(name.as_bytes()) {
        Some(above) => table.has_super(class, above),
        None => false,
    }
}

// ---- two chains, one beside the other

/// Whether the class beside has this name, if there is one, or else its superclass; and the class
/// beside the next one: the superclass of the one that has the name, or the same as before.
pub(crate) fn look_beside(
    table: &Table,
    beside: Option<ClassId>,
    name: &Name,
) -> (bool, Option<ClassId>)
    requires { IfSome beside (λ id. id < size table.now) }
    ensures met { result.0 ≡ is_some (met_beside table.now beside name.now) }
    ensures next { result.1 ≡ beside_after table.now beside (met_beside table.now beside name.now) }
    ensures of_table { IfSome result.1 (λ id. id < size table.now) }
{
    let Some(id) = beside else {
        return (false, None);
    };
    if table.facts(id).name == *name {
        return (true, table.superclass(id));
    }
    let Some(above) = table.superclass(id) else {
        return (false, Some(id));
    };
    if table.facts(above).name == *name {
        return (true, table.superclass(above));
    }
    (false, Some(id))
}

/// Whether a class of this name is in the chain of the class, as one is that was met there.
pub(crate) fn is_met_or_above(table: &Table, class: ClassId, met: bool, name: &Name) -> bool
    requires class { class < size table.now }
    requires met { met ≡ true → in_chain table.now (name_at table.now class) name.now ≡ true }
    ensures { result ≡ in_chain table.now (name_at table.now class) name.now }
{
    met || has_above(table, class, name)
}

/// Whether a class of the chain of the one class isn't in that of the other, by name. Mostly each
/// class stands as far up in the other chain, or one further, so that it is looked for there first.
pub(crate) fn lacks_any(old: &Table, new: &Table, class: ClassId, other: ClassId) -> bool
    requires class { class < size old.now }
    requires other { other < size new.now }
    ensures { result ≡ list_any (λ c. not (in_chain new.now (name_at new.now other) c.name)) (chain old.now (name_at old.now class)) }
{
    let mut next = Some(class);
    let mut beside = Some(other);
    for _ in 0..old.count() {
        let Some(above) = next else {
            return false;
        };
        let name = &old.facts(above).name;
        let (met, up) = look_beside(new, beside, name);
        if !is_met_or_above(new, other, met, name) {
            return true;
        }
        next = old.superclass(above);
        beside = up;
    }
    false
}

/// Whether a class of the class's chain on the old side isn't in its chain on the new side
/// (JVMS 4.1). Where both chains have the same names, it takes time in proportion to their length.
pub(crate) fn has_lost(sides: &Sides<'_>, class: &Shared<'_>) -> bool
    requires { IsShared sides.now «class».now }
    ensures { result ≡ loses_class sides.now (name_of «class».now) }
{
    lacks_any(sides.old, sides.new, class.old, class.new)
}
