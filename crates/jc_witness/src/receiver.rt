//! The receivers of planned acts.
ghost use Rattle.std.specs.Prelude.{◌≡◌, ◌<◌};
ghost use Rattle.jc_facts.specs.Flags.{public_flag};
ghost use Rattle.jc_facts.specs.Options.{some_and};
ghost use Rattle.jc_facts.specs.client.Acts.{form_of};
ghost use Rattle.jc_facts.specs.world.World.{size};
ghost use Rattle.jc_promises.specs.plan.Planned.{found_by};
ghost use Rattle.jc_index.specs.Ids.{name_at};
ghost use Rattle.jc_index.specs.Sides.{IsSide};
ghost use Rattle.jc_witness.specs.Ground.{CanRefer};
ghost use Rattle.jc_witness.specs.steps.Found.{IsFoundBy};

use jc_base::name::Name;
use jc_facts::act::Act;
use jc_facts::flags::is_public;
use jc_facts::key::Key;
use jc_field::find::find_field;
use jc_index::ids::{ClassId, Found};
use jc_method::find::{find_interface_method, find_method};
use jc_table::table::Table;

// The member that the act finds by a reference to the class (JVMS 5.4.3.2 to 5.4.3.4).
fn find(table: &Table, act: Act, class: ClassId, key: &Key) -> Option<Found>
    requires class { class < size table.now }
    requires refers { CanRefer table.now act (name_at table.now class) key.now }
    ensures { IsFoundBy table.now (form_of act) (name_at table.now class) key.now result }
{
    match act {
        Act::GetStatic | Act::PutStatic | Act::GetField | Act::PutField => find_field(
            table, class, key,
        ),
        Act::InvokeInterface | Act::InvokeStaticInterface | Act::InvokeSpecialInterface => {
            find_interface_method(table, class, key)
        }
        _ => find_method(table, class, key),
    }
}

// Whether the member that the act finds by a reference to the class is public.
pub(crate) fn finds_public(table: &Table, act: Act, class: &Name, key: &Key) -> bool
    requires side { IsSide table.now }
    requires refers { CanRefer table.now act «class».now key.now }
    ensures { result ≡ some_and (λ m. public_flag m.member.flags) (found_by table.now (form_of act) «class».now key.now) }
{
    let class = table.get(class.as_bytes()).unwrap();
    match find(table, act, class, key) {
        Some(found) => is_public(found.flags),
        None => false,
    }
}
