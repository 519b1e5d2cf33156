//! The keys of the members of the classes that have rows, numbered.
ghost use Rattle.std.specs.Prelude.{◌≡◌, cond, map, Some, None, IfOk, OnOk};
ghost use Rattle.jc_index.specs.Ids.{names};
ghost use Rattle.jc_rows.specs.Keys.{with_keys};
ghost use Rattle.jc_rows.specs.WithRows.{has_rows};
ghost use Rattle.jc_rows.specs.steps.Numbering.{AreNumbers, AddsClass, IsNumbering};

use crate::keys::Keys;
use jc_base::items::Items;
use jc_facts::class_facts::{ClassFacts, Member};
use jc_index::ids::ClassId;
use jc_index::index::Index;
use jc_index::members::key_of_member;
use std::alloc::{AllocError, Global};

/// The keys of all members of the classes that have rows, and for each of these the numbers of the
/// keys of its fields and of its methods, in their order; for any other class none.
#[derive(Drop)]
pub(crate) struct Numbering {
    pub keys: Keys,
    pub fields: Vec<Items<usize>>,
    pub methods: Vec<Items<usize>>,
}

// Adds the keys of these members, and gives their numbers.
fn add_members(alloc: Global, keys: &mut Keys, members: &[Member]) -> Result<Vec<usize>, AllocError>
    ensures added { OnOk result (keys.new ≡ with_keys keys.old members.now) }
    ensures numbers { IfOk result (λ numbers. AreNumbers keys.new members.now numbers.items) }
{
    let mut numbers = Vec::with_capacity(alloc, members.len())?;
    for member in members {
        let key = key_of_member(alloc, member)?;
        let number = keys.put(key)?;
        numbers.push(number)?;
    }
    Ok(numbers)
}

// Adds the keys of the class's fields and methods, and their numbers.
fn add_class(alloc: Global, numbering: &mut Numbering, class: &ClassFacts) -> Result<(), AllocError>
    ensures { OnOk result (AddsClass numbering.old (Some class.now) numbering.new) }
{
    let fields = add_members(alloc, &mut numbering.keys, class.fields.as_slice())?;
    let methods = add_members(alloc, &mut numbering.keys, class.methods.as_slice())?;
    numbering.fields.push(Items::from_vec(fields))?;
    numbering.methods.push(Items::from_vec(methods))?;
    Ok(())
}

// Adds a class without numbers.
fn add_nothing(alloc: Global, numbering: &mut Numbering) -> Result<(), AllocError>
    ensures { OnOk result (AddsClass numbering.old None numbering.new) }
{
    numbering.fields.push(Items::from_vec(Vec::new(alloc)))?;
    numbering.methods.push(Items::from_vec(Vec::new(alloc)))?;
    Ok(())
}

// Adds the class, with its keys and their numbers where it has rows.
fn add_where(
    alloc: Global,
    numbering: &mut Numbering,
    class: &ClassFacts,
    made: bool,
) -> Result<(), AllocError>
    ensures { OnOk result (AddsClass numbering.old (cond made (Some class.now) None) numbering.new) }
{
    if made {
        add_class(alloc, numbering, class)?;
        Ok(())
    } else {
        add_nothing(alloc, numbering)?;
        Ok(())
    }
}

/// The keys of all members of the classes that have rows, the classes in byte order of their names,
/// numbered.
pub(crate) fn number_members(
    alloc: Global,
    index: &Index,
    made: &[bool],
) -> Result<Numbering, AllocError>
    requires { made.now ≡ map (has_rows index.now) (names index.now) }
    ensures { IfOk result (λ numbering. IsNumbering index.now numbering) }
{
    let mut numbering = Numbering {
        keys: Keys::new(alloc),
        fields: Vec::new(alloc),
        methods: Vec::new(alloc),
    };
    for n in 0..index.count() {
        let class = index.facts(ClassId::new(n));
        add_where(alloc, &mut numbering, class, made[n as usize])?;
    }
    Ok(numbering)
}
