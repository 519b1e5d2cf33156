//! Which classes others may name, wherever they are and from one that is there (JVMS 5.4.4).
ghost use Rattle.std.specs.Prelude.{◌≡◌, ◌<◌, ◌&&◌};
ghost use Rattle.jc_facts.specs.Flags.{public_flag};
ghost use Rattle.jc_facts.specs.world.World.{class_is, size};
ghost use Rattle.jc_facts.specs.world.Modules.{is_visible, is_visible_from};
ghost use Rattle.jc_index.specs.Ids.{name_at};

use crate::table::Table;
use jc_facts::flags::is_public;
use jc_index::ids::ClassId;

/// Whether classes of every module and every package may name the class: it is visible and public.
pub fn is_nameable(table: &Table, class: ClassId) -> bool
    requires { class < size table.now }
    ensures { result ≡ class_is table.now (λ c. is_visible table.now (name_at table.now class) && public_flag c.flags) (name_at table.now class) }
{
    table.is_visible(class) && is_public(table.facts(class).flags)
}

/// Whether the other class may name the class, be it of its package or not: it is visible from there
/// and public.
pub fn is_nameable_from(table: &Table, class: ClassId, from: ClassId) -> bool
    requires class { class < size table.now }
    requires from { from < size table.now }
    ensures { result ≡ class_is table.now (λ c. is_visible_from table.now (name_at table.now from) (name_at table.now class) && public_flag c.flags) (name_at table.now class) }
{
    table.is_visible_from(class, from) && is_public(table.facts(class).flags)
}
