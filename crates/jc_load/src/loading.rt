//! The load fault of a class (JVMS 5.3.5).
ghost use Rattle.std.specs.Prelude.{◌≡◌, ◌<◌, IfOk};
ghost use Rattle.jc_facts.specs.world.World.{size};
ghost use Rattle.jc_facts.specs.world.Loading.{load_fault};
ghost use Rattle.jc_index.specs.Ids.{name_at};

use jc_facts::link_error::LinkError;
use jc_index::ids::ClassId;
use jc_loading::search;
use jc_table::table::Table;
use std::alloc::{AllocError, Global};

/// The load fault of the class; none where it loads. In this order: that of its superclass, then
/// those of its interfaces; its superclass isn't accessible, or is an interface, final or sealed to
/// it; the same of its interfaces, which have to be interfaces; a method of it overrides a final
/// one. `NoClassDefFoundError` is of a name that no class has, `ClassCircularityError` of a cycle.
pub fn load_error(table: &Table, class: ClassId) -> Option<LinkError>
    requires { class < size table.now }
    ensures { result ≡ load_fault table.now (name_at table.now class) }
{
    table.fault_at(class)
}

/// The same by the definition: a search to as many levels as there are classes. It looks at a class
/// again for each way that leads to it, so it is for small sides alone.
///
/// # Errors
///
/// `AllocError` where memory runs out.
#[tactic(auto, unfolding(jc_facts::specs::world::Loading::load_fault))]
pub fn search_fault(
    alloc: Global,
    table: &Table,
    class: ClassId,
) -> Result<Option<LinkError>, AllocError>
    requires { class < size table.now }
    ensures { IfOk result (λ fault. fault ≡ load_fault table.now (name_at table.now class)) }
{
    let name = &table.facts(class).name;
    let fault = search::search_fault(alloc, table.index(), name, table.count())?;
    Ok(fault)
}
