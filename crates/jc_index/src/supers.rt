//! The names that a class has above itself (JVMS 4.1).
ghost use Rattle.std.specs.Prelude.{◌≡◌, ◌<◌, length, slice_get, Some};
ghost use Rattle.jc_facts.specs.world.Search.{supers};

use jc_base::name::Name;
use jc_facts::class_facts::ClassFacts;

/// How many names the class has above itself: its superclass and its interfaces.
pub fn super_count(class: &ClassFacts) -> usize
    ensures { result ≡ length (supers class.now) }
{
    let interfaces = class.interfaces.as_slice().len();
    match &class.superclass {
        Some(_) => 1 + interfaces,
        None => interfaces,
    }
}

/// One of these names, the superclass first.
pub fn super_at(class: &ClassFacts, at: usize) -> &Name
    requires { at < length (supers class.now) }
    ensures { slice_get (supers class.now) at ≡ Some result.now }
{
    let interfaces = class.interfaces.as_slice();
    match &class.superclass {
        Some(name) => { if at == 0 { name } else { &interfaces[at - 1] } }
        None => &interfaces[at],
    }
}
