//! The items of all methods of a class.
ghost use Rattle.std.specs.Prelude.{◌≡◌, IfOk, map};
ghost use Rattle.std.specs.Option.{option_map};
ghost use Rattle.std.specs.Result.{result_map_both};
ghost use Rattle.jc_facts.specs.code.ClientItems as client;
ghost use Rattle.jc_attr.specs.Views.{head_view, member_head_view};
ghost use Rattle.jc_code.specs.steps.RowView.{row_view};
ghost use Rattle.jc_code.specs.steps.Views.{around_view};
ghost use Rattle.jc_code.specs.steps.Pushed.{with_before};

use crate::around::Around;
use crate::method::{attributes_items, unread};
use crate::row::Row;
use jc_attr::class_head::ClassHead;
use jc_attr::judged::Judged;
use jc_attr::member_head::{MemberHead, member_head_at};
use jc_desc::bytes::u16_at;
use jc_facts::client::Item;
use jc_facts::code_fault::CodeFault;
use jc_pool::pool::Pool;
use std::alloc::{AllocError, Global};

fn around<'a, 'b>(
    pool: &'b Pool<'a>,
    head: ClassHead<'a>,
    boots: Option<&'b [Row]>,
    method: MemberHead<'a>,
) -> Around<'a, 'b>
    ensures { around_view result ≡ client.around pool.now (head_view head.entry) (option_map (λ x. map (λ r. row_view r) x.now) boots.entry) (member_head_view method.entry) }
{
    Around {
        pool,
        class: head.name,
        superclass: head.superclass,
        boots,
        name: method.name,
        descriptor: method.descriptor,
        flags: method.flags,
    }
}

/// Adds the items of the method in front of the bytes, and gives what comes behind it.
#[tactic(auto, unfolding(jc_facts::specs::code::ClientItems::method_items))]
fn method_items<'a, 'b>(
    alloc: Global,
    pool: &Pool<'a>,
    head: ClassHead<'a>,
    boots: Option<&[Row]>,
    judged: &mut Judged<'a>,
    bytes: &'b [u8],
    items: &mut Vec<Item>,
) -> Result<Result<&'b [u8], CodeFault>, AllocError>
    ensures { IfOk result (λ r. result_map_both (λ x. (items.new.items, x.now)) (λ e. e) r ≡ with_before items.old.items (client.method_items pool.now (head_view head.entry) (option_map (λ x. map (λ r. row_view r) x.now) boots.entry) bytes.now)) }
{
    let (method, rest) = match member_head_at(true, pool, head.flags, judged, bytes) {
        Ok(read) => read,
        Err(fault) => return Ok(Err(unread(fault))),
    };
    let (count, rest) = match u16_at(rest) {
        Ok(read) => read,
        Err(fault) => return Ok(Err(unread(fault))),
    };
    let read = attributes_items(alloc, around(pool, head, boots, method), count, rest, items)?;
    Ok(read)
}

/// Adds the items of n methods, and gives what comes behind them.
pub(crate) fn methods_items<'a, 'b>(
    alloc: Global,
    pool: &Pool<'a>,
    head: ClassHead<'a>,
    boots: Option<&[Row]>,
    count: u16,
    bytes: &'b [u8],
    items: &mut Vec<Item>,
) -> Result<Result<&'b [u8], CodeFault>, AllocError>
    ensures { IfOk result (λ r. result_map_both (λ x. (items.new.items, x.now)) (λ e. e) r ≡ with_before items.old.items (client.methods_items pool.now (head_view head.entry) (option_map (λ x. map (λ r. row_view r) x.now) boots.entry) count bytes.now)) }
{
    let mut judged = Judged::new(alloc);
    let mut rest = bytes;
    for _ in 0..count {
        let after = match method_items(alloc, pool, head, boots, &mut judged, rest, items)? {
            Ok(after) => after,
            Err(fault) => return Ok(Err(fault)),
        };
        rest = after;
    }
    Ok(Ok(rest))
}
