//! Methods that may not be overridden (JVMS 5.4.5).
ghost use Rattle.std.specs.Prelude.{◌≡◌, ◌<◌};
ghost use Rattle.jc_facts.specs.world.World.{size};
ghost use Rattle.jc_facts.specs.world.Inheritance.{is_open_final, declares_as_final, is_final_in_chain};
ghost use Rattle.jc_index.specs.Ids.{name_at};

use jc_facts::class_facts::{ClassFacts, Member};
use jc_facts::flags::{is_final, is_protected, is_public, is_static};
use jc_facts::key::Key;
use jc_facts::key_set::KeyRef;
use jc_index::ids::ClassId;
use jc_index::members::own_method;
use jc_table::table::Table;

fn is_final_method(method: &Member) -> bool
    ensures { result ≡ is_open_final method.now }
{
    let flags = method.flags;
    is_final(flags) && !is_static(flags) && (is_public(flags) || is_protected(flags))
}

fn declares_final(class: &ClassFacts, key: &Key) -> bool
    ensures { result ≡ declares_as_final key.now class.now }
{
    match own_method(class, &KeyRef::of_key(key)) {
        None => false,
        Some(method) => is_final_method(method),
    }
}

/// Whether a class of the chain, the class itself or one further up its superclasses, declares the
/// key as a final instance method that is public or protected (JVMS 4.6). It is asked of classes
/// that load.
pub fn finals(table: &Table, class: ClassId, key: &Key) -> bool
    requires { class < size table.now }
    ensures { result ≡ is_final_in_chain table.now (name_at table.now class) key.now }
{
    let mut next = Some(class);
    for done in 0..table.count() {
        let Some(class) = next else {
            return false;
        };
        if declares_final(table.facts(class), key) {
            return true;
        }
        next = table.superclass(class);
    }
    false
}
