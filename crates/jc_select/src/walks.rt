//! All keys of methods that classes declare, where hierarchies changed.
ghost use Rattle.std.specs.Prelude.{◌<◌, true, IfSome, OnOk};
ghost use Rattle.std.specs.List.{All};
ghost use Rattle.jc_facts.specs.world.World.{size};
ghost use Rattle.jc_select.specs.steps.Changes.{HasNone, HaveNone, HasNoMore};
ghost use Rattle.jc_sides.specs.steps.KeySets.{AddsKeys, has_member};

use jc_facts::class_facts::ClassFacts;
use jc_facts::key::Key;
use jc_index::ids::ClassId;
use jc_sides::members::push_if;
use jc_table::table::Table;
use std::alloc::{AllocError, Global};

// Adds the keys of the methods of the record.
fn add_methods(alloc: Global, keys: &mut Vec<Key>, class: &ClassFacts) -> Result<(), AllocError>
    ensures { OnOk result (AddsKeys (has_member (λ m. true) «class».now.methods) keys.old.items keys.new.items) }
{
    for method in class.methods.as_slice() {
        push_if(alloc, keys, method, true)?;
    }
    Ok(())
}

// Adds the keys of the methods of the class.
fn add_own(
    alloc: Global,
    keys: &mut Vec<Key>,
    table: &Table,
    class: ClassId,
) -> Result<(), AllocError>
    requires { «class» < size table.now }
    ensures { OnOk result (HasNone table.now «class» keys.old.items keys.new.items) }
{
    add_methods(alloc, keys, table.facts(class))?;
    Ok(())
}

/// Adds the keys of the methods of these classes.
///
/// # Errors
///
/// `AllocError` where memory runs out.
pub fn add_each(
    alloc: Global,
    keys: &mut Vec<Key>,
    table: &Table,
    classes: &[ClassId],
) -> Result<(), AllocError>
    requires { All (λ id. id < size table.now) classes.now }
    ensures { OnOk result (HaveNone table.now classes.now keys.old.items keys.new.items) }
{
    for id in classes {
        add_own(alloc, keys, table, *id)?;
    }
    Ok(())
}

/// Adds the keys of the methods of the class and of those above it in its chain, so many at most.
///
/// # Errors
///
/// `AllocError` where memory runs out.
pub fn add_chain(
    alloc: Global,
    keys: &mut Vec<Key>,
    table: &Table,
    first: Option<ClassId>,
    levels: u32,
) -> Result<(), AllocError>
    requires { IfSome first (λ id. id < size table.now) }
    ensures { OnOk result (HasNoMore table.now first levels keys.old.items keys.new.items) }
{
    // A count says that a table stands for a side.
    let _classes = table.count();
    let mut next = first;
    for done in 0..levels {
        let Some(class) = next else {
            return Ok(());
        };
        add_own(alloc, keys, table, class)?;
        next = table.superclass(class);
    }
    Ok(())
}
