//! Which seats have to be asked: most acts are open to all of them or to none.
ghost use Rattle.std.specs.Prelude.{◌≡◌, ◌<◌, ◌&&◌, ◌||◌, cond, not, map, IfSome};
ghost use Rattle.std.specs.List.{All};
ghost use Rattle.jc_facts.specs.declared.act.Act.{Act as ActOf};
ghost use Rattle.jc_facts.specs.Flags.{public_flag, protected_flag, static_flag};
ghost use Rattle.jc_facts.specs.world.World.{size};
ghost use Rattle.jc_index.specs.Ids.{name_at};
ghost use Rattle.jc_sides.specs.SharedOf.{IsShared, name_of};
ghost use Rattle.jc_acts.specs.Seats.{AreSeats, all_seats};
ghost use Rattle.jc_acts.specs.steps.Firsts.{first_at};
ghost use Rattle.jc_acts.specs.steps.LookedUp.{IsInside, IsLooked, as_usable, closed_use, open_below, open_to_all};

use crate::lookup::Looked;
use crate::seats::Seats;
use jc_access::access::{Seat, accessible};
use jc_facts::flags::{is_final, is_protected, is_public, is_static};
use jc_index::ids::ClassId;
use jc_sides::shared::Shared;
use jc_sides::sides::Sides;
use jc_table::table::Table;

// Whether access to a member of these flags depends on the seat.
fn is_by_seat(flags: u16) -> bool
    ensures { result ≡ (not (public_flag flags) && protected_flag flags) }
{
    !is_public(flags) && is_protected(flags)
}

// Whether a member of the later flags is static as one of the earlier was, and is final only where
// that was.
fn is_as_usable(before: u16, now: u16) -> bool
    ensures { result ≡ as_usable before now }
{
    is_static(now) == is_static(before) && (is_final(before) || !is_final(now))
}

// The class below which a seat stands that can use the protected member on the old side: the
// member's owner, or the class through which an instance member is named.
fn holder(class: &Shared<'_>, looked: &Looked) -> ClassId
    ensures { result ≡ cond (static_flag looked.now.before.flags) looked.now.before.owner «class».now.old }
{
    if is_static(looked.before.flags) {
        looked.before.owner
    } else {
        class.old
    }
}

// Whether what is found now is open to a seat and of use as before.
fn is_open_below(table: &Table, seat: ClassId, class: ClassId, looked: &Looked) -> bool
    requires seat { seat < size table.now }
    requires class { class < size table.now }
    requires after { IsInside table.now looked.now.after }
    ensures { result ≡ open_below table.now (name_at table.now seat) (name_at table.now class) looked.now.before.flags looked.now.after }
{
    match &looked.after {
        Ok(found) => {
            accessible(table, Seat::Client(seat), *found, class)
                && is_as_usable(looked.before.flags, found.flags)
        }
        Err(_) => false,
    }
}

// Whether it is so for all seats below this class, or there are none.
fn is_open_to_all(table: &Table, common: Option<ClassId>, class: ClassId, looked: &Looked) -> bool
    requires common { IfSome common (λ id. id < size table.now) }
    requires class { class < size table.now }
    requires after { IsInside table.now looked.now.after }
    ensures { result ≡ open_to_all table.now common (name_at table.now class) looked.now.before.flags looked.now.after }
{
    match common {
        Some(seat) => is_open_below(table, seat, class, looked),
        None => true,
    }
}

/// Seats among which the first is that to which an act is closed first. A public member that is
/// closed to some seat now is closed to `java/lang/Object`; a protected one to none where all that
/// could use it still stand below a class to which it is open.
pub fn asked<'a, 'b>(
    sides: &Sides<'_>,
    seats: &'b Seats<'a>,
    class: &Shared<'_>,
    looked: &Looked,
) -> &'b [Shared<'a>]
    requires seats { AreSeats sides.now seats.now }
    requires class { IsShared sides.now «class».now }
    requires looked { IsLooked sides.now looked.now }
    ensures shared { All (IsShared sides.now) result.now }
    ensures enough { (what : ActOf) → first_at (closed_use sides.now (name_of «class».now) looked.now what) (map name_of result.now) ≡ first_at (closed_use sides.now (name_of «class».now) looked.now what) (all_seats sides.now) }
{
    let all = seats.all.as_slice();
    if !is_by_seat(looked.before.flags) {
        return &all[..1];
    }
    let common = seats.commons[holder(class, looked).number() as usize];
    if is_open_to_all(sides.new, common, class.new, looked) {
        &[]
    } else {
        all
    }
}
