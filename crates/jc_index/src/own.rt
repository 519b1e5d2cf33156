//! Methods that a class itself declares (JVMS 4.6).
ghost use Rattle.std.specs.Prelude.{◌≡◌, ◌<◌};
ghost use Rattle.jc_facts.specs.world.World.{size};
ghost use Rattle.jc_index.specs.steps.Choosing.{own_at, candidate_at};

use crate::hierarchy::Hierarchy;
use crate::ids::{ClassId, Found};
use crate::members::own_method;
use jc_facts::flags::{is_private, is_static};
use jc_facts::key::Key;
use jc_facts::key_set::KeyRef;

/// The method of the key that the class itself declares; none where it declares none.
#[tactic(auto, unfolding(jc_facts::specs::Options::and_then))]
pub fn declared(hierarchy: &Hierarchy, class: ClassId, key: &Key) -> Option<Found>
    requires { class < size hierarchy.now }
    ensures { result ≡ own_at hierarchy.now key.now class }
{
    match own_method(hierarchy.facts(class), &KeyRef::of_key(key)) {
        None => None,
        Some(method) => Some(Found {
            owner: class,
            flags: method.flags,
        }),
    }
}

/// The same, where it is neither private nor static.
pub fn candidate(hierarchy: &Hierarchy, class: ClassId, key: &Key) -> Option<Found>
    requires { class < size hierarchy.now }
    ensures { result ≡ candidate_at hierarchy.now key.now class }
{
    let Some(found) = declared(hierarchy, class, key) else {
        return None;
    };
    if is_private(found.flags) || is_static(found.flags) {
        return None;
    }
    Some(found)
}
