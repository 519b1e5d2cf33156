//! The rows of what a class itself declares (JVMS 4.5, 4.6).
ghost use Rattle.std.specs.Prelude.{◌≡◌, ◌<◌, length, true, IfOk};
ghost use Rattle.jc_facts.specs.world.World.{size};
ghost use Rattle.jc_index.specs.Ids.{name_at};
ghost use Rattle.jc_rows.specs.Rows.{IsRow};
ghost use Rattle.jc_rows.specs.WithRows.{has_rows};
ghost use Rattle.jc_rows.specs.steps.Merging.{IsRowOf};
ghost use Rattle.jc_rows.specs.steps.Numbering.{IsNumbering, items_of};
ghost use Rattle.jc_rows.specs.steps.Fronts.{own_field, own_method};

use crate::numbering::Numbering;
use crate::row::{RowItem, sorted};
use jc_facts::class_facts::Member;
use jc_index::ids::{ClassId, Found};
use jc_index::index::Index;
use std::alloc::{AllocError, Global};

// The members of the class as items, by the numbers of their keys.
fn items(
    alloc: Global,
    class: ClassId,
    numbers: &[usize],
    members: &[Member],
) -> Result<Vec<RowItem>, AllocError>
    requires { length numbers.now ≡ length members.now }
    ensures { IfOk result (λ items. items.items ≡ items_of class numbers.now members.now) }
{
    let mut items = Vec::with_capacity(alloc, members.len())?;
    for (at, member) in members.iter().enumerate() {
        items.push(RowItem {
            key: numbers[at],
            found: Found {
                owner: class,
                flags: member.flags,
            },
        })?;
    }
    Ok(items)
}

// The same as a row.
fn member_row(
    alloc: Global,
    class: ClassId,
    numbers: &[usize],
    members: &[Member],
) -> Result<Vec<RowItem>, AllocError>
    requires { length numbers.now ≡ length members.now }
    ensures { IfOk result (λ row. IsRowOf (items_of class numbers.now members.now) row.items) }
{
    let items = items(alloc, class, numbers, members)?;
    let row = sorted(alloc, items.as_slice())?;
    Ok(row)
}

/// The row of the fields that the class itself declares (JVMS 4.5). It has to be one that has rows.
pub(crate) fn own_fields(
    alloc: Global,
    index: &Index,
    numbering: &Numbering,
    class: ClassId,
) -> Result<Vec<RowItem>, AllocError>
    requires class { class < size index.now }
    requires rows { has_rows index.now (name_at index.now class) ≡ true }
    requires numbering { IsNumbering index.now numbering.now }
    ensures { IfOk result (λ row. IsRow index.now (own_field index.now (name_at index.now class)) row.items) }
{
    let numbers = numbering.fields[class.number() as usize].as_slice();
    let members = index.facts(class).fields.as_slice();
    let row = member_row(alloc, class, numbers, members)?;
    Ok(row)
}

/// The row of the methods that the class itself declares (JVMS 4.6). It has to be one that has rows.
pub(crate) fn own_methods(
    alloc: Global,
    index: &Index,
    numbering: &Numbering,
    class: ClassId,
) -> Result<Vec<RowItem>, AllocError>
    requires class { class < size index.now }
    requires rows { has_rows index.now (name_at index.now class) ≡ true }
    requires numbering { IsNumbering index.now numbering.now }
    ensures { IfOk result (λ row. IsRow index.now (own_method index.now (name_at index.now class)) row.items) }
{
    let numbers = numbering.methods[class.number() as usize].as_slice();
    let members = index.facts(class).methods.as_slice();
    let row = member_row(alloc, class, numbers, members)?;
    Ok(row)
}
