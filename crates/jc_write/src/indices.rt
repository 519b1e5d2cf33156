//! Indices of the constant pool where classes and texts are named (JVMS 4.1).
ghost use Rattle.std.specs.Prelude.{◌≡◌, ◌++◌, OnOk};
ghost use Rattle.jc_facts.specs.written.PoolEntries.{counted};
ghost use Rattle.jc_facts.specs.written.Written.{class_index, text_index, superclass_index};

use crate::entry::Entry;
use crate::numbers::push_two;
use crate::pool::index;
use indexmap::IndexSet;
use jc_base::name::Name;
use std::alloc::AllocError;

/// The index of a class.
pub(crate) fn push_class<'a>(
    bytes: &mut Vec<u8>,
    pool: &IndexSet<Entry<'a>>,
    name: &'a Name,
) -> Result<(), AllocError>
    ensures { OnOk result (bytes.new.items ≡ bytes.old.items ++ class_index pool.now.keys name.now) }
{
    push_two(bytes, index(pool, Entry::class(name.as_bytes())))
}

/// The index of the superclass, 0 where there is none.
pub(crate) fn push_superclass<'a>(
    bytes: &mut Vec<u8>,
    pool: &IndexSet<Entry<'a>>,
    superclass: &'a Option<Name>,
) -> Result<(), AllocError>
    ensures { OnOk result (bytes.new.items ≡ bytes.old.items ++ superclass_index pool.now.keys superclass.now) }
{
    match superclass {
        None => push_two(bytes, 0),
        Some(name) => push_class(bytes, pool, name),
    }
}

/// The number of classes, and their indices.
pub(crate) fn push_classes<'a>(
    bytes: &mut Vec<u8>,
    pool: &IndexSet<Entry<'a>>,
    names: &'a [Name],
) -> Result<(), AllocError>
    ensures { OnOk result (bytes.new.items ≡ bytes.old.items ++ counted (class_index pool.now.keys) names.now) }
{
    push_two(bytes, names.len())?;
    for name in names {
        push_class(bytes, pool, name)?;
    }
    Ok(())
}

/// The index of a text.
pub(crate) fn push_text<'a>(
    bytes: &mut Vec<u8>,
    pool: &IndexSet<Entry<'a>>,
    text: &'a [u8],
) -> Result<(), AllocError>
    ensures { OnOk result (bytes.new.items ≡ bytes.old.items ++ text_index pool.now.keys text.now) }
{
    push_two(bytes, index(pool, Entry::text(text)))
}
