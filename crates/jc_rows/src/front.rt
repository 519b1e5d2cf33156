//! What a lookup of methods finds before it looks at superinterfaces (JVMS 5.4.3.3, 5.4.3.4).
ghost use Rattle.std.specs.Prelude.{◌≡◌, ◌<◌, ◌++◌, None, true, IfOk, OnOk};
ghost use Rattle.jc_facts.specs.world.World.{size};
ghost use Rattle.jc_facts.specs.world.Loading.{load_fault};
ghost use Rattle.jc_facts.specs.world.Lookup.{public_method_of_object};
ghost use Rattle.jc_index.specs.Ids.{name_at};
ghost use Rattle.jc_rows.specs.Rows.{IsRow};
ghost use Rattle.jc_rows.specs.WithRows.{has_rows};
ghost use Rattle.jc_rows.specs.steps.Gathering.{AreRising, HasAbove};
ghost use Rattle.jc_rows.specs.steps.Numbering.{IsNumbering};
ghost use Rattle.jc_rows.specs.steps.Fronts.{chain_method, front_method, if_open, item_list, open_items};

use crate::gathering::row_of;
use crate::numbering::Numbering;
use crate::own::own_methods;
use crate::row::{RowItem, merge};
use jc_base::items::Items;
use jc_facts::flags::{is_interface, is_public, is_static};
use jc_index::ids::{ClassId, Found};
use jc_index::index::Index;
use std::alloc::{AllocError, Global};

// The root of the hierarchy (JVMS 4.1).
const OBJECT: &[u8] = b"java/lang/Object";

/// The row of the methods of the class's chain: for each key that of the first class of the chain
/// that declares it (JVMS 5.4.3.3). The class has to load and to be one that has rows, and the rows
/// of what it names above itself have to be there.
pub(crate) fn chain_row(
    alloc: Global,
    index: &Index,
    numbering: &Numbering,
    rows: &[Items<RowItem>],
    class: ClassId,
) -> Result<Vec<RowItem>, AllocError>
    requires class { class < size index.now }
    requires rows { has_rows index.now (name_at index.now class) ≡ true }
    requires loads { load_fault index.now (name_at index.now class) ≡ None }
    requires numbering { IsNumbering index.now numbering.now }
    requires rising { AreRising index.now rows.now }
    requires above { HasAbove (λ x. IsRow index.now (chain_method index.now x)) index.now rows.now (name_at index.now class) }
    ensures { IfOk result (λ row. IsRow index.now (chain_method index.now (name_at index.now class)) row.items) }
{
    let own = own_methods(alloc, index, numbering, class)?;
    match &index.facts(class).superclass {
        Some(name) => {
            let above = row_of(index, rows, name.as_bytes());
            let row = merge(alloc, own.as_slice(), above)?;
            Ok(row)
        }
        None => Ok(own),
    }
}

/// Adds what is found for the key of the number.
pub(crate) fn push_found(
    row: &mut Vec<RowItem>,
    number: usize,
    found: Option<Found>,
) -> Result<(), AllocError>
    ensures { OnOk result (row.new.items ≡ row.old.items ++ item_list number found) }
{
    match found {
        Some(found) => {
            row.push(RowItem { key: number, found })?;
            Ok(())
        }
        None => Ok(()),
    }
}

// The member, where it is a public instance method.
fn open(found: Found) -> Option<Found>
    ensures { result ≡ if_open found }
{
    if !is_public(found.flags) {
        return None;
    }
    if is_static(found.flags) {
        return None;
    }
    Some(found)
}

// The public instance methods of the row.
fn open_row(alloc: Global, row: &[RowItem]) -> Result<Vec<RowItem>, AllocError>
    ensures { IfOk result (λ opened. opened.items ≡ open_items row.now) }
{
    let mut opened = Vec::new(alloc);
    for item in row {
        push_found(&mut opened, item.key, open(item.found))?;
    }
    Ok(opened)
}

/// The row of the public instance methods that `java/lang/Object` declares (JVMS 5.4.3.4).
pub(crate) fn object_row(
    alloc: Global,
    index: &Index,
    numbering: &Numbering,
) -> Result<Vec<RowItem>, AllocError>
    requires { IsNumbering index.now numbering.now }
    ensures { IfOk result (λ row. IsRow index.now (public_method_of_object index.now) row.items) }
{
    let _classes = index.count();
    let Some(object) = index.get(OBJECT) else {
        return Ok(Vec::new(alloc));
    };
    let own = own_methods(alloc, index, numbering, object)?;
    let row = open_row(alloc, own.as_slice())?;
    Ok(row)
}

/// What a lookup finds before it looks at superinterfaces: of an interface its own, else those of
/// `java/lang/Object`; of another class what its chain has. The class has to be one that has rows.
pub(crate) fn front_row(
    alloc: Global,
    index: &Index,
    numbering: &Numbering,
    chain: &[RowItem],
    object: &[RowItem],
    class: ClassId,
) -> Result<Vec<RowItem>, AllocError>
    requires class { class < size index.now }
    requires rows { has_rows index.now (name_at index.now class) ≡ true }
    requires numbering { IsNumbering index.now numbering.now }
    requires chain { IsRow index.now (chain_method index.now (name_at index.now class)) chain.now }
    requires object { IsRow index.now (public_method_of_object index.now) object.now }
    ensures { IfOk result (λ row. IsRow index.now (front_method index.now (name_at index.now class)) row.items) }
{
    if is_interface(index.facts(class).flags) {
        let own = own_methods(alloc, index, numbering, class)?;
        let row = merge(alloc, own.as_slice(), object)?;
        return Ok(row);
    }
    let row = Vec::from_slice(alloc, chain)?;
    Ok(row)
}
