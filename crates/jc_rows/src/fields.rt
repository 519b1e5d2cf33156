//! The row of the fields that the lookup from a class finds (JVMS 5.4.3.2).
ghost use Rattle.std.specs.Prelude.{◌≡◌, ◌<◌, None, true, IfOk};
ghost use Rattle.jc_facts.specs.world.World.{size};
ghost use Rattle.jc_facts.specs.world.Loading.{load_fault};
ghost use Rattle.jc_index.specs.Ids.{name_at};
ghost use Rattle.jc_rows.specs.Rows.{IsFieldRow};
ghost use Rattle.jc_rows.specs.WithRows.{has_rows};
ghost use Rattle.jc_rows.specs.steps.Gathering.{AreRising, HasAbove};
ghost use Rattle.jc_rows.specs.steps.Numbering.{IsNumbering};

use crate::gathering::gathered;
use crate::numbering::Numbering;
use crate::own::own_fields;
use crate::row::RowItem;
use jc_base::items::Items;
use jc_index::ids::ClassId;
use jc_index::index::Index;
use std::alloc::{AllocError, Global};

/// The row of the fields that the lookup from the class finds: its own fields, those that the rows
/// of the interfaces have that it names, in order, and those of its superclass's row
/// (JVMS 5.4.3.2). The class has to load and to be one that has rows, and the rows of what it names
/// above itself have to be there.
pub(crate) fn field_row(
    alloc: Global,
    index: &Index,
    numbering: &Numbering,
    rows: &[Items<RowItem>],
    class: ClassId,
) -> Result<Vec<RowItem>, AllocError>
    requires class { class < size index.now }
    requires rows { has_rows index.now (name_at index.now class) ≡ true }
    requires loads { load_fault index.now (name_at index.now class) ≡ None }
    requires numbering { IsNumbering index.now numbering.now }
    requires rising { AreRising index.now rows.now }
    requires above { HasAbove (IsFieldRow index.now) index.now rows.now (name_at index.now class) }
    ensures { IfOk result (λ row. IsFieldRow index.now (name_at index.now class) row.items) }
{
    let own = own_fields(alloc, index, numbering, class)?;
    let row = gathered(alloc, index, rows, index.facts(class), own)?;
    Ok(row)
}
