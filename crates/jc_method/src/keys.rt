//! The keys of methods that a class has or inherits.
ghost use Rattle.std.specs.Prelude.{◌≡◌, ◌<◌, None, IfOk, IsTrue};
ghost use Rattle.jc_facts.specs.world.World.{size};
ghost use Rattle.jc_facts.specs.KeyOrder.{key_cmp};
ghost use Rattle.jc_facts.specs.world.Loading.{load_fault};
ghost use Rattle.jc_facts.specs.Exactly.{HasExactly};
ghost use Rattle.jc_worlds.specs.Hierarchy.{above};
ghost use Rattle.jc_index.specs.Ids.{name_at};
ghost use Rattle.jc_index.specs.Lookups.{declare_method};
ghost use Rattle.jc_method.specs.FoundKeys.{HaveFound};

use jc_facts::key::Key;
use jc_index::ids::ClassId;
use jc_index::members::MemberKind;
use jc_table::keys::keys_of;
use jc_table::table::Table;
use std::alloc::{AllocError, Global};

/// The keys of the methods that the class, its superclasses and its superinterfaces declare, each
/// once, in their order. The class has to load.
///
/// # Errors
///
/// `AllocError` where memory runs out.
pub fn method_keys(alloc: Global, table: &Table, class: ClassId) -> Result<Vec<Key>, AllocError>
    requires class { class < size table.now }
    requires loads { load_fault table.now (name_at table.now class) ≡ None }
    ensures { IfOk result (λ keys. HasExactly key_cmp (λ k. IsTrue (declare_method (above table.now (name_at table.now class)) k)) keys.items) }
{
    keys_of(alloc, table, class, MemberKind::Method)
}

/// The keys of the methods that a reference to the class or the interface may find, and of all others
/// that are declared above it, each once, by a walk (JVMS 5.4.3.3, 5.4.3.4). The class has to load. It
/// is for a class of which no row is made: a row has the keys themselves.
///
/// # Errors
///
/// `AllocError` where memory runs out.
pub fn found_method_keys(
    alloc: Global,
    table: &Table,
    class: ClassId,
) -> Result<Vec<Key>, AllocError>
    requires class { class < size table.now }
    requires loads { load_fault table.now (name_at table.now class) ≡ None }
    ensures { IfOk result (λ keys. HaveFound table.now (name_at table.now class) keys.items) }
{
    let _classes = table.count();
    method_keys(alloc, table, class)
}
