//! Whether two records of a class are the same.
ghost use Rattle.std.specs.Prelude.{◌≡◌};
ghost use Rattle.jc_facts.specs.Records.{same_head, same_attributes, same_facts};

use crate::class_facts::ClassFacts;

// Whether the two have the same name, version, flags, classes above and members.
fn have_same_head(old: &ClassFacts, new: &ClassFacts) -> bool
    ensures { result ≡ same_head old.now new.now }
{
    old.name == new.name
        && old.major == new.major
        && old.flags == new.flags
        && old.superclass == new.superclass
        && old.interfaces == new.interfaces
        && old.fields == new.fields
        && old.methods == new.methods
}

// Whether they have the same in their attributes.
fn have_same_attributes(old: &ClassFacts, new: &ClassFacts) -> bool
    ensures { result ≡ same_attributes old.now new.now }
{
    old.permits == new.permits
        && old.nest_host == new.nest_host
        && old.nest_members == new.nest_members
        && old.constants == new.constants
        && old.signatures == new.signatures
}

/// Whether the two records are the same.
pub fn are_same(old: &ClassFacts, new: &ClassFacts) -> bool
    ensures { result ≡ same_facts old.now new.now }
{
    have_same_head(old, new) && have_same_attributes(old, new)
}
