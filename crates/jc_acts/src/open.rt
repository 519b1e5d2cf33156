//! What the use of a member gives clients with a seat (JVMS 5.4.4, 6.5).
ghost use Rattle.std.specs.Prelude.{◌≡◌, ◌<◌, ◌&&◌};
ghost use Rattle.jc_facts.specs.Flags.{final_flag};
ghost use Rattle.jc_facts.specs.world.World.{size};
ghost use Rattle.jc_facts.specs.client.Acts.{is_put_act};
ghost use Rattle.jc_index.specs.Ids.{name_at};
ghost use Rattle.jc_acts.specs.steps.LookedUp.{member_of, use_at};

use jc_access::access::{Seat, accessible};
use jc_facts::act::Act;
use jc_facts::flags::is_final;
use jc_facts::link_error::LinkError;
use jc_index::ids::{ClassId, Found};
use jc_table::table::Table;

// Whether the act writes a final field.
fn is_final_put(act: Act, flags: u16) -> bool
    ensures { result ≡ (is_put_act act && final_flag flags) }
{
    act.is_put() && is_final(flags)
}

/// The error that the use of the member, named through the class, gives clients with the seat: of
/// access, of the member's kind or of a write to a final field, in this order.
pub fn use_fault(
    table: &Table,
    seat: ClassId,
    class: ClassId,
    act: Act,
    found: Found,
) -> Option<LinkError>
    requires seat { seat < size table.now }
    requires class { class < size table.now }
    requires owner { found.owner < size table.now }
    ensures { result ≡ use_at table.now (name_at table.now seat) (name_at table.now class) act (member_of table.now found) }
{
    let flags = found.flags;
    if !accessible(table, Seat::Client(seat), found, class) {
        return Some(LinkError::IllegalAccessError);
    }
    if act.is_other_kind(flags) {
        return Some(LinkError::IncompatibleClassChangeError);
    }
    if is_final_put(act, flags) {
        return Some(LinkError::IllegalAccessError);
    }
    None
}
