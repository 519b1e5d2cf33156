//! The classes that each class names above itself, each looked for by its name once.
ghost use Rattle.std.specs.Prelude.{◌≡◌, ◌<◌, cond, is_some, map, Some, IfOk};
ghost use Rattle.jc_facts.specs.world.World.{size, find_class};
ghost use Rattle.jc_index.specs.Ids.{name_at, names, id_of, superclass_of};
ghost use Rattle.jc_index.specs.Interfaces.{interfaces_of};

use crate::ids::ClassId;
use crate::named_classes::NamedClasses;
use jc_base::items::Items;
use jc_facts::class_facts::ClassFacts;
use std::alloc::{AllocError, Global};

/// For each class the one that it names as its superclass.
pub(crate) fn superclasses(
    alloc: Global,
    classes: &NamedClasses,
) -> Result<Vec<Option<ClassId>>, AllocError>
    ensures { IfOk result (λ supers. supers.items ≡ map (superclass_of classes.now) (names classes.now)) }
{
    let mut supers = Vec::with_capacity(alloc, classes.count() as usize)?;
    for n in 0..classes.count() {
        supers.push(classes.superclass(ClassId::new(n)))?;
    }
    Ok(supers)
}

// How many names the class has above itself before its interfaces.
fn before_interfaces(class: &ClassFacts) -> usize
    ensures { result ≡ cond (is_some class.now.superclass) 1 0 }
{
    if class.superclass.is_some() { 1 } else { 0 }
}

// The classes that the class names as its interfaces; none at a name that no class has.
fn interface_ids(
    alloc: Global,
    classes: &NamedClasses,
    id: ClassId,
    class: &ClassFacts,
) -> Result<Vec<Option<ClassId>>, AllocError>
    requires inside { id < size classes.now }
    requires found { Some class.now ≡ find_class classes.now (name_at classes.now id) }
    ensures { IfOk result (λ ids. ids.items ≡ map (id_of classes.now) class.now.interfaces) }
{
    let before = before_interfaces(class);
    let names = class.interfaces.as_slice();
    let mut ids = Vec::with_capacity(alloc, names.len())?;
    for at in 0..names.len() {
        if let Some(earlier) = class.interfaces.earlier(at) {
            let same = ids[earlier];
            ids.push(same)?;
            continue;
        }
        let name = &names[at];
        ids.push(classes.get_above(id, before + at, name.as_bytes()))?;
    }
    Ok(ids)
}

/// For each class those that it names as its interfaces, in the order of its file.
pub(crate) fn interfaces(
    alloc: Global,
    classes: &NamedClasses,
) -> Result<Vec<Items<Option<ClassId>>>, AllocError>
    ensures { IfOk result (λ rows. rows.items ≡ map (interfaces_of classes.now) (names classes.now)) }
{
    let mut rows = Vec::with_capacity(alloc, classes.count() as usize)?;
    for n in 0..classes.count() {
        let id = ClassId::new(n);
        let ids = interface_ids(alloc, classes, id, classes.facts(id))?;
        rows.push(Items::from_vec(ids))?;
    }
    Ok(rows)
}
