//! The interfaces above each class.
ghost use Rattle.std.specs.Prelude.{◌≡◌, ◌<◌, IfOk, IsTrue};
ghost use Rattle.std.specs.List.{filter_map};
ghost use Rattle.jc_facts.specs.world.World.{size, classes, differ_by_name};
ghost use Rattle.jc_index.specs.Above.{AreRows};
ghost use Rattle.jc_index.specs.steps.Named.{edges_of};

use crate::class_lists::ClassLists;
use crate::ids::ClassId;
use crate::index::Index;
use crate::parts::all_led_to;
use jc_base::items::Items;
use std::alloc::{AllocError, Global};

// The numbers of these classes, where there are such classes.
fn numbers_of(alloc: Global, classes: &[Option<ClassId>]) -> Result<Vec<u32>, AllocError>
    ensures { IfOk result (λ numbers. numbers.items ≡ filter_map (λ id. id) classes.now) }
{
    let mut numbers = Vec::with_capacity(alloc, classes.len())?;
    for class in classes {
        if let Some(id) = *class {
            numbers.push(id.number())?;
        }
    }
    Ok(numbers)
}

// For each class the numbers of the interfaces that it names.
fn edges(alloc: Global, index: &Index) -> Result<Vec<Items<u32>>, AllocError>
    ensures exact { IfOk result (λ edges. edges.items ≡ edges_of index.now) }
    ensures few { size index.now < 4294967296 }
    ensures differ { IsTrue (differ_by_name (classes index.now)) }
{
    let mut edges = Vec::with_capacity(alloc, index.count() as usize)?;
    for n in 0..index.count() {
        let numbers = numbers_of(alloc, index.interfaces(ClassId::new(n)))?;
        edges.push(Items::from_vec(numbers))?;
    }
    Ok(edges)
}

/// For each class of an index the interfaces that it names, and those that they lead to.
///
/// # Errors
///
/// `AllocError` where memory runs out.
pub fn interfaces_above(alloc: Global, index: &Index) -> Result<ClassLists, AllocError>
    ensures { IfOk result (λ rows. AreRows index.now rows) }
{
    let edges = edges(alloc, index)?;
    let rows = all_led_to(alloc, edges.as_slice())?;
    Ok(rows)
}
