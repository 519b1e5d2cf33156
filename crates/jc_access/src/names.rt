//! The names of a table's classes.
ghost use Rattle.std.specs.Prelude.{◌≡◌, ◌<◌};
ghost use Rattle.jc_facts.specs.Names.{in_same_package};
ghost use Rattle.jc_facts.specs.world.World.{size};
ghost use Rattle.jc_index.specs.Ids.{name_at};

use jc_base::name::Name;
use jc_facts::packages::same_package;
use jc_index::ids::ClassId;
use jc_table::table::Table;

/// The name of the class, by its number in the table.
#[tactic(auto, using(jc_facts::proofs::World::found_name))]
pub fn name_of(table: &Table, class: ClassId) -> &Name
    requires { class < size table.now }
    ensures { result.now ≡ name_at table.now class }
{
    &table.facts(class).name
}

// Whether the two classes are in one package (JVMS 5.3).
pub(crate) fn in_one_package(table: &Table, one: ClassId, other: ClassId) -> bool
    requires one { one < size table.now }
    requires other { other < size table.now }
    ensures { result ≡ in_same_package (name_at table.now one) (name_at table.now other) }
{
    same_package(
        name_of(table, one).as_bytes(),
        name_of(table, other).as_bytes(),
    )
}
