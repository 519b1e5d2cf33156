//! Nests of classes (JVMS 5.4.4).
ghost use Rattle.std.specs.Prelude.{◌≡◌, ◌<◌};
ghost use Rattle.jc_facts.specs.world.Access.{host_of, are_nestmates};
ghost use Rattle.jc_facts.specs.world.World.{size};
ghost use Rattle.jc_index.specs.Ids.{name_at};
ghost use Rattle.jc_access.specs.steps.Nests.{takes_in};

use crate::names::name_of;
use jc_base::name::Name;
use jc_facts::packages::same_package;
use jc_index::among::is_among;
use jc_index::ids::ClassId;
use jc_table::table::Table;

// Whether the class named as the host is there, of the member's package, and names it back.
fn takes_member(table: &Table, host: &Name, member: &Name) -> bool
    ensures { result ≡ takes_in table.now host.now member.now }
{
    match table.get(host.as_bytes()) {
        Some(id) => {
            same_package(member.as_bytes(), host.as_bytes())
                && is_among(table.facts(id).nest_members.as_slice(), member)
        }
        None => false,
    }
}

// The nest host of the class: the class that its NestHost attribute names, where that one takes it
// in, else the class itself (JVMS 4.7.28, 5.4.4).
fn nest_host(table: &Table, class: ClassId) -> &Name
    requires { class < size table.now }
    ensures { result.now ≡ host_of table.now (name_at table.now class) }
{
    let name = name_of(table, class);
    match &table.facts(class).nest_host {
        Some(host) => {
            if takes_member(table, host, name) {
                host
            } else {
                name
            }
        }
        None => name,
    }
}

// Whether the two classes have one nest host.
pub(crate) fn same_nest(table: &Table, one: ClassId, other: ClassId) -> bool
    requires one { one < size table.now }
    requires other { other < size table.now }
    ensures { result ≡ are_nestmates table.now (name_at table.now one) (name_at table.now other) }
{
    nest_host(table, one) == nest_host(table, other)
}
