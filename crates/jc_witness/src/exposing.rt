//! The acts by which members expose hidden classes to planned clients.
ghost use Rattle.std.specs.Prelude.{◌≡◌, [], None, IfOk, IsTrue};
ghost use Rattle.std.specs.List.{cons_option};
ghost use Rattle.std.specs.Option.{option_copied};
ghost use Rattle.jc_facts.specs.world.Loading.{load_fault};
ghost use Rattle.jc_promises.specs.rule.Apart.{other_seat};
ghost use Rattle.jc_promises.specs.rule.Exposed.{is_hidden};
ghost use Rattle.jc_promises.specs.plan.Planned.{acts_exposing, is_out_of};
ghost use Rattle.jc_index.specs.Sides.{IsSide};

use jc_base::name::Name;
use jc_exposed::apart::other_seat;
use jc_exposed::first_act::exposing_act;
use jc_facts::member_act::MemberAct;
use jc_sides::kept::is_hidden_class;
use jc_sides::sides::Sides;
use jc_table::table::Table;
use std::alloc::{AllocError, Global};

// The act that exposes the class to clients of the seat, where the class is hidden.
pub(crate) fn exposing(
    alloc: Global,
    table: &Table,
    seat: &Name,
    class: &Name,
) -> Result<Option<MemberAct>, AllocError>
    requires side { IsSide table.now }
    requires bare { table.now.clients ≡ [] }
    requires seat { load_fault table.now seat.now ≡ None }
    ensures { IfOk result (λ act. cons_option act [] ≡ acts_exposing table.now seat.now «class».now) }
{
    let seat = table.get(seat.as_bytes()).unwrap();
    let Some(class) = table.get(class.as_bytes()) else {
        return Ok(None);
    };
    if !is_hidden_class(table, class) {
        return Ok(None);
    }
    exposing_act(alloc, table, seat, class)
}

// Whether the class is hidden, and not exposed to clients of the seat.
pub(crate) fn is_out_of(
    alloc: Global,
    table: &Table,
    seat: &Name,
    class: &Name,
) -> Result<bool, AllocError>
    requires side { IsSide table.now }
    requires bare { table.now.clients ≡ [] }
    requires seat { load_fault table.now seat.now ≡ None }
    ensures { IfOk result (λ out. out ≡ is_out_of table.now seat.now «class».now) }
{
    let seat = table.get(seat.as_bytes()).unwrap();
    let Some(class) = table.get(class.as_bytes()) else {
        return Ok(false);
    };
    if !is_hidden_class(table, class) {
        return Ok(false);
    }
    let act = exposing_act(alloc, table, seat, class)?;
    Ok(act.is_none())
}

// The first other seat to which the hidden class is exposed and that is apart from this one.
pub(crate) fn seat_beside<'a>(
    alloc: Global,
    sides: &Sides<'a>,
    seat: &Name,
    class: &Name,
) -> Result<Option<&'a Name>, AllocError>
    requires seat { load_fault sides.now.old seat.now ≡ None }
    requires hidden { IsTrue (is_hidden sides.now.old «class».now) }
    ensures { IfOk result (λ other. option_copied other ≡ other_seat sides.now.old sides.now.new seat.now «class».now) }
{
    let seat = sides.old.get(seat.as_bytes()).unwrap();
    let class = sides.old.get(class.as_bytes()).unwrap();
    other_seat(alloc, sides, seat, class)
}
