//! Which methods of a chain may not be overridden, looked up in rows (JVMS 5.4.5).
ghost use Rattle.std.specs.Prelude.{◌≡◌, ◌<◌, ◌&&◌, ◌||◌, None};
ghost use Rattle.jc_facts.specs.Flags.{final_flag, no_static_flag, public_flag, protected_flag};
ghost use Rattle.jc_facts.specs.Options.{some_and};
ghost use Rattle.jc_facts.specs.world.Inheritance.{declares_as_final, is_final_in_chain};
ghost use Rattle.jc_facts.specs.world.Loading.{load_fault};
ghost use Rattle.jc_facts.specs.world.World.{find_class, size};
ghost use Rattle.jc_index.specs.Ids.{name_at};
ghost use Rattle.jc_rows.specs.Keys.{numbered_keys, IsNumber};

use crate::own::method_flags;
use jc_facts::flags::{is_final, is_protected, is_public, is_static};
use jc_facts::key::Key;
use jc_index::ids::ClassId;
use jc_table::table::Table;

// Whether these are the flags of a final instance method that is public or protected.
fn are_final(flags: u16) -> bool
    ensures { result ≡ (final_flag flags && no_static_flag flags && (public_flag flags || protected_flag flags)) }
{
    is_final(flags) && !is_static(flags) && (is_public(flags) || is_protected(flags))
}

// Whether the class itself declares the key as such a method.
fn declares_final(table: &Table, class: ClassId, key: &Key, number: Option<usize>) -> bool
    requires class { class < size table.now }
    requires loads { load_fault table.now (name_at table.now class) ≡ None }
    requires number { IsNumber (numbered_keys table.now) key.now number }
    ensures { result ≡ some_and (declares_as_final key.now) (find_class table.now (name_at table.now class)) }
{
    match method_flags(table, class, key, number) {
        None => false,
        Some(flags) => are_final(flags),
    }
}

/// Whether a class of the chain, the class itself or one further up its superclasses, declares the
/// key as a final instance method that is public or protected (JVMS 4.6), as `finals` of `jc_load`
/// says it. The class has to load. Each class of the chain is asked in its row, by
/// the number, which is the key's in the table.
pub fn is_final_above(table: &Table, class: ClassId, key: &Key, number: Option<usize>) -> bool
    requires class { class < size table.now }
    requires loads { load_fault table.now (name_at table.now class) ≡ None }
    requires number { IsNumber (numbered_keys table.now) key.now number }
    ensures { result ≡ is_final_in_chain table.now (name_at table.now class) key.now }
{
    let mut next = Some(class);
    for done in 0..table.count() {
        let Some(class) = next else {
            return false;
        };
        if declares_final(table, class, key, number) {
            return true;
        }
        next = table.superclass(class);
    }
    false
}
