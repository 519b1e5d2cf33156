//! The names that classes permit to extend them, in byte order where they are many.
ghost use Rattle.std.specs.Prelude.{◌≡◌, ◌<◌, Some, IfOk, IfSome, OnOk};
ghost use Rattle.std.specs.List.{Contains};
ghost use Rattle.jc_facts.specs.declared.class_facts.ClassFacts.{ClassFacts as FactsOf};
ghost use Rattle.jc_facts.specs.Names.{is_name_among};
ghost use Rattle.jc_facts.specs.world.Mentioned.{permitted};
ghost use Rattle.jc_facts.specs.world.World.{World, size, find_class};
ghost use Rattle.jc_index.specs.Ids.{name_at};
ghost use Rattle.jc_index.specs.steps.Seals.{AreSeals};

use crate::among::is_among;
use crate::ids::ClassId;
use crate::name_set::NameSet;
use crate::named_classes::NamedClasses;
use jc_base::name::Name;
use jc_facts::class_facts::ClassFacts;
use std::alloc::{AllocError, Global};

// As many names are gone through one by one.
const FEW: usize = 16;

/// A class, and the names that it permits to extend it.
#[derive(Drop)]
pub(crate) struct Seal {
    pub owner: ClassId,
    pub names: NameSet,
}

// The names that the class permits, where they are many and some class names this one above itself.
fn many_permitted<'a>(classes: &NamedClasses, class: &'a ClassFacts) -> Option<&'a [Name]>
    ensures { IfSome result (λ names. names.now ≡ permitted class.now.permits) }
{
    let Some(names) = &class.permits else {
        return None;
    };
    if names.as_slice().len() > FEW && classes.side().names_super(class.name.as_bytes()) {
        Some(names.as_slice())
    } else {
        None
    }
}

// Adds the seal of the class, where it is worth it.
fn push_seal(
    alloc: Global,
    seals: &mut Vec<Seal>,
    classes: &NamedClasses,
    id: ClassId,
) -> Result<(), AllocError>
    requires inside { id < size classes.now }
    requires seals { AreSeals classes.now seals.old.items }
    ensures { OnOk result (AreSeals classes.now seals.new.items) }
{
    let Some(names) = many_permitted(classes, classes.facts(id)) else {
        return Ok(());
    };
    let set = NameSet::copied(alloc, names)?;
    seals.push(Seal {
        owner: id,
        names: set,
    })?;
    Ok(())
}

/// Seals of classes, in the order of these: of those that permit many names to extend them, and that
/// some class names above itself.
pub(crate) fn seals(alloc: Global, classes: &NamedClasses) -> Result<Vec<Seal>, AllocError>
    ensures { IfOk result (λ seals. AreSeals classes.now seals.items) }
{
    let mut seals = Vec::new(alloc);
    for n in 0..classes.count() {
        push_seal(alloc, &mut seals, classes, ClassId::new(n))?;
    }
    Ok(seals)
}

// The class's seal, by halving what is in the order of classes; none where it isn't found so.
fn find(seals: &[Seal], id: ClassId) -> Option<&Seal>
    ensures among { IfSome result (λ seal. Contains seals.now seal.now) }
    ensures owner { IfSome result (λ seal. seal.now.owner ≡ id) }
{
    let mut low = 0;
    let mut high = seals.len();
    while low < high {
        let middle = low + (high - low) / 2;
        let seal = &seals[middle];
        if seal.owner.number() == id.number() {
            return Some(seal);
        }
        if seal.owner.number() < id.number() {
            low = middle + 1;
        } else {
            high = middle;
        }
    }
    None
}

/// Whether the name is one of those that the class permits, as its seal says; none where there is no
/// seal of the class.
pub(crate) fn has_name(seals: &[Seal], id: ClassId, name: &[u8]) -> Option<bool>
    ensures { (W : World) (c : FactsOf) → AreSeals W seals.now → Some c ≡ find_class W (name_at W id) → IfSome result (λ has. has ≡ is_name_among (permitted c.permits) name.now) }
{
    match find(seals, id) {
        Some(seal) => Some(seal.names.has(name)),
        None => None,
    }
}

/// Whether the name is one of those that the class permits.
pub(crate) fn is_permitted(class: &ClassFacts, name: &Name) -> bool
    ensures { result ≡ is_name_among (permitted class.now.permits) name.now }
{
    match &class.permits {
        Some(names) => is_among(names.as_slice(), name),
        None => false,
    }
}
