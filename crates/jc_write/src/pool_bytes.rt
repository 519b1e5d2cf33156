//! The bytes of the constant pool (JVMS 4.4).
ghost use Rattle.std.specs.Prelude.{◌≡◌, ◌++◌, OnOk};
ghost use Rattle.jc_facts.specs.written.PoolEntries.{entry_bytes, entries_bytes};

use crate::entry::Entry;
use crate::numbers::push_two;
use crate::pool::index;
use crate::says::Says;
use indexmap::IndexSet;
use jc_desc::tags;
use std::alloc::AllocError;

fn push_entry<'a>(
    bytes: &mut Vec<u8>,
    pool: &IndexSet<Entry<'a>>,
    entry: &Entry<'a>,
) -> Result<(), AllocError>
    ensures { OnOk result (bytes.new.items ≡ bytes.old.items ++ entry_bytes pool.now.keys entry.now) }
{
    match entry.says() {
        Says::Text(text) => {
            bytes.push(tags::UTF8)?;
            push_two(bytes, text.len())?;
            bytes.extend_from_slice(text)
        }
        Says::Class(name) => {
            bytes.push(tags::CLASS)?;
            push_two(bytes, index(pool, Entry::text(name)))
        }
        Says::Pair(name, descriptor) => {
            bytes.push(tags::NAME_AND_TYPE)?;
            push_two(bytes, index(pool, Entry::text(name)))?;
            push_two(bytes, index(pool, Entry::text(descriptor)))
        }
        Says::Member(tag, class, name, descriptor) => {
            bytes.push(tag)?;
            push_two(bytes, index(pool, Entry::class(class)))?;
            push_two(bytes, index(pool, Entry::pair(name, descriptor)))
        }
    }
}

/// All entries.
#[tactic(auto, unfolding(jc_facts::specs::written::PoolEntries::entries_bytes))]
pub(crate) fn push_entries<'a>(
    bytes: &mut Vec<u8>,
    pool: &IndexSet<Entry<'a>>,
) -> Result<(), AllocError>
    ensures { OnOk result (bytes.new.items ≡ bytes.old.items ++ entries_bytes pool.now.keys) }
{
    let entries = pool.as_slice();
    for entry in entries {
        push_entry(bytes, pool, entry)?;
    }
    Ok(())
}
