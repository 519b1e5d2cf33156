//! Who may name a class above itself (JVMS 4.7.31, 5.3.5).
ghost use Rattle.std.specs.Prelude.{◌≡◌, ◌<◌};
ghost use Rattle.jc_facts.specs.world.World.{size};
ghost use Rattle.jc_index.specs.Ids.{name_at};
ghost use Rattle.jc_load.specs.Extending.{permits_name, lets_name_extend, is_extendable};

use jc_base::name::Name;
use jc_facts::class_facts::ClassFacts;
use jc_facts::flags::{is_final, is_public};
use jc_index::among::is_among;
use jc_index::ids::ClassId;
use jc_table::table::Table;

// Whether the class has no permitted names, or is in the module of the clients and has this one among
// them.
fn permits(class: &ClassFacts, of_clients: bool, name: &Name) -> bool
    ensures { result ≡ permits_name of_clients name.now class.now.permits }
{
    match &class.permits {
        None => true,
        Some(names) => of_clients && is_among(names.as_slice(), name),
    }
}

fn lets_extend(class: &ClassFacts, visible: bool, of_clients: bool, name: &Name) -> bool
    ensures { result ≡ lets_name_extend visible of_clients name.now class.now }
{
    visible && is_public(class.flags) && !is_final(class.flags) && permits(class, of_clients, name)
}

/// Whether a public client of this name, in a package of its own, may name the class as its
/// superclass or interface: the class is visible and public, isn't final, and has no permitted names
/// or is in the module of the clients and has this one among them. It is asked of classes that load.
pub fn extendable(table: &Table, class: ClassId, name: &Name) -> bool
    requires { class < size table.now }
    ensures { result ≡ is_extendable table.now (name_at table.now class) name.now }
{
    lets_extend(
        table.facts(class),
        table.is_visible(class),
        table.is_of_clients(class),
        name,
    )
}
