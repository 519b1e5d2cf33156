//! The items of bootstrap methods (JVMS 4.7.23, 5.4.3.6). Each call answers `false` where an index doesn't hold what is asked for.
ghost use Rattle.std.specs.Prelude.{◌≡◌, ◌/◌, IfOk, length, map, slice_get};
ghost use Rattle.std.specs.Option.{option_map};
ghost use Rattle.jc_facts.specs.code.Code as code;
ghost use Rattle.jc_code.specs.steps.Pushed.{Adds};
ghost use Rattle.jc_code.specs.steps.RowView.{row_view};
ghost use Rattle.jc_code.specs.steps.Views.{around_view};

use crate::around::Around;
use crate::entries::{handle_item, push_entry};
use crate::numbers::{after, short_in};
use crate::row::Row;
use jc_facts::client::Item;
use jc_pool::pool::Pool;
use std::alloc::{AllocError, Global};

fn argument(
    alloc: Global,
    pool: &Pool<'_>,
    i: u16,
    items: &mut Vec<Item>,
) -> Result<bool, AllocError>
    ensures { IfOk result (λ done. Adds items.old.items items.new.items (code.argument_items pool.now i) done) }
{
    if pool.tag(i).is_none() {
        return Ok(false);
    }
    push_entry(alloc, pool, i, items)?;
    Ok(true)
}

#[tactic(auto, using(crate::proofs::Arguments::arguments_done))]
fn arguments(
    alloc: Global,
    pool: &Pool<'_>,
    bytes: &[u8],
    items: &mut Vec<Item>,
) -> Result<bool, AllocError>
    ensures { IfOk result (λ done. Adds items.old.items items.new.items (code.arguments_items pool.now (length bytes.now / 2) bytes.now) done) }
{
    let mut rest = bytes;
    for _ in 0..bytes.len() / 2 {
        if !argument(alloc, pool, short_in(0, rest), items)? {
            return Ok(false);
        }
        rest = after(2, rest);
    }
    Ok(true)
}

#[tactic(auto, using(crate::proofs::Arguments::onto_push))]
fn row_items(
    alloc: Global,
    pool: &Pool<'_>,
    row: &Row,
    items: &mut Vec<Item>,
) -> Result<bool, AllocError>
    ensures { IfOk result (λ done. Adds items.old.items items.new.items (code.row_items pool.now (row_view row.now)) done) }
{
    let Some(handle) = pool.handle(row.handle) else {
        return Ok(false);
    };
    items.push(handle_item(alloc, pool, handle)?)?;
    arguments(alloc, pool, row.arguments.as_slice(), items)
}

fn row_at(rows: &[Row], n: u16) -> Option<&Row>
    ensures { option_map (λ r. row_view r.now) result ≡ slice_get (map (λ r. row_view r) rows.now) n }
{
    rows.get(n as usize)
}

#[tactic(auto, unfolding(jc_facts::specs::code::Code::boot_items))]
fn boot_items(
    alloc: Global,
    a: Around<'_, '_>,
    n: u16,
    items: &mut Vec<Item>,
) -> Result<bool, AllocError>
    ensures { IfOk result (λ done. Adds items.old.items items.new.items (code.boot_items a.entry.pool.now (around_view a.entry).boots n) done) }
{
    let Some(rows) = a.boots else {
        return Ok(false);
    };
    match row_at(rows, n) {
        None => Ok(false),
        Some(row) => row_items(alloc, a.pool, row, items),
    }
}

/// Adds the items of the bootstrap method of the Dynamic or InvokeDynamic at this index.
pub(crate) fn dynamic_items(
    alloc: Global,
    a: Around<'_, '_>,
    i: u16,
    items: &mut Vec<Item>,
) -> Result<bool, AllocError>
    ensures { IfOk result (λ done. Adds items.old.items items.new.items (code.dynamic_items (around_view a.entry) i) done) }
{
    match a.pool.dynamic(i) {
        None => Ok(false),
        Some(n) => boot_items(alloc, a, n, items),
    }
}
