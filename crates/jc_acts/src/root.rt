//! The root of all classes of a side.
ghost use Rattle.std.specs.Prelude.{◌≡◌, ◌<◌};
ghost use Rattle.jc_facts.specs.Names.{object_name};
ghost use Rattle.jc_facts.specs.world.World.{size};
ghost use Rattle.jc_index.specs.Ids.{name_at};
ghost use Rattle.jc_index.specs.Sides.{IsSide};

use jc_index::ids::ClassId;
use jc_table::table::Table;

/// The number of `java/lang/Object`.
pub(crate) fn root_of(table: &Table) -> ClassId
    requires { IsSide table.now }
    ensures below { result < size table.now }
    ensures name { name_at table.now result ≡ object_name }
{
    table.get(b"java/lang/Object").unwrap()
}
