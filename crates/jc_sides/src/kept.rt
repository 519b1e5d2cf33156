//! Classes that clients can use, could use and still can, or can only meet through members.
ghost use Rattle.std.specs.Prelude.{◌≡◌, ◌<◌};
ghost use Rattle.jc_facts.specs.world.World.{size};
ghost use Rattle.jc_promises.specs.rule.Bases.{is_class_usable, is_kept};
ghost use Rattle.jc_promises.specs.rule.Exposed.{is_hidden};
ghost use Rattle.jc_index.specs.Ids.{name_at};
ghost use Rattle.jc_sides.specs.SharedOf.{IsWhere};

use crate::shared::Shared;
use crate::sides::Sides;
use jc_index::ids::ClassId;
use jc_table::naming::is_nameable;
use jc_table::table::Table;

/// Whether clients can use the class: it is visible and public, and it loads (JVMS 5.3.5, 5.4.4).
#[tactic(auto, unfolding(jc_promises::specs::rule::Bases::is_class_usable))]
pub fn is_usable(table: &Table, id: ClassId) -> bool
    requires { id < size table.now }
    ensures { result ≡ is_class_usable table.now (name_at table.now id) }
{
    is_nameable(table, id) && table.fault_at(id).is_none()
}

/// Whether clients can't use the class, which loads: it isn't visible or isn't public (JVMS 5.4.4).
/// They can hold its objects all the same, where a member that they use gives or takes one.
#[tactic(auto, unfolding(jc_promises::specs::rule::Exposed::is_hidden))]
pub fn is_hidden_class(table: &Table, id: ClassId) -> bool
    requires { id < size table.now }
    ensures { result ≡ is_hidden table.now (name_at table.now id) }
{
    table.fault_at(id).is_none() && !is_usable(table, id)
}

/// The class of this number on the old side, if it is kept: clients could use it and still can.
pub fn kept<'a>(sides: &Sides<'a>, id: ClassId) -> Option<Shared<'a>>
    requires { id < size sides.now.old }
    ensures { IsWhere (is_kept sides.now.old sides.now.new (name_at sides.now.old id)) sides.now (name_at sides.now.old id) result }
{
    if !is_usable(sides.old, id) {
        return None;
    }
    let after = sides.new_id(id)?;
    if is_usable(sides.new, after) {
        Some(Shared {
            name: &sides.old.facts(id).name,
            old: id,
            new: after,
        })
    } else {
        None
    }
}
