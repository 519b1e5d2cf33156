//! The bootstrap methods of a class (JVMS 4.7.23), each looked through once.
ghost use Rattle.std.specs.Prelude.{◌≡◌, ◌/◌, ◌++◌, [], Some, None, IfOk, OnOk, length, map, take, if◌then◌else◌};
ghost use Rattle.jc_desc.specs.Pool.{short_from};
ghost use Rattle.std.specs.Option.{option_map};
ghost use Rattle.std.specs.Result.{result_map_both};
ghost use Rattle.jc_facts.specs.file.ClassSteps.{attributes_at, counted_attributes_at};
ghost use Rattle.jc_facts.specs.code.ClientItems as client;
ghost use Rattle.jc_facts.specs.Options.{or_else};
ghost use Rattle.jc_attr.specs.Views.{attribute_view, bootstrap_view};
ghost use Rattle.jc_code.specs.steps.Kept.{argument_counts, kept_of, kept_row};
ghost use Rattle.jc_code.specs.steps.RowView.{row_view};

use crate::numbers::{after, front, short_in};
use crate::row::Row;
use jc_attr::attribute::{Attribute, attribute_at};
use jc_attr::bootstrap::{BootstrapParts, bootstraps};
use jc_desc::bytes::u16_at;
use jc_desc::fault::Fault;
use jc_desc::versions::BOOTSTRAP_MAJOR;
use jc_pool::pool::Pool;
use std::alloc::{AllocError, Global};

#[tactic(auto, unfolding(jc_facts::specs::Options::or_else))]
fn or_body<'b>(found: Option<&'b [u8]>, body: &'b [u8]) -> Option<&'b [u8]>
    ensures { option_map (λ x. x.now) result ≡ or_else (option_map (λ x. x.now) found.entry) (Some body.now) }
{
    match found {
        None => Some(body),
        Some(found) => Some(found),
    }
}

#[tactic(auto, unfolding(jc_facts::specs::code::ClientItems::take_boots))]
fn taken<'b>(
    pool: &Pool<'_>,
    found: Option<&'b [u8]>,
    attribute: Attribute<'_, 'b>,
) -> Option<&'b [u8]>
    ensures { Some (option_map (λ x. x.now) result) ≡ client.take_boots pool.now (option_map (λ x. x.now) found.entry) (attribute_view attribute.entry) }
{
    if pool.major() >= BOOTSTRAP_MAJOR && attribute.name == b"BootstrapMethods".as_slice() {
        or_body(found, attribute.body)
    } else {
        found
    }
}

#[tactic(auto, using(jc_attr::proofs::Taking::attributes_fault, jc_attr::proofs::Taking::attributes_done))]
fn some_body<'b>(
    pool: &Pool<'_>,
    count: u16,
    bytes: &'b [u8],
) -> Result<(Option<&'b [u8]>, &'b [u8]), Fault>
    ensures { result_map_both (λ x. (option_map (λ b. b.now) x.0, x.1.now)) (λ e. e) result ≡ attributes_at (client.take_boots pool.now) pool.now count None bytes.now }
{
    let mut found = None;
    let mut rest = bytes;
    for _ in 0..count {
        let (attribute, after) = match attribute_at(pool, rest) {
            Ok(read) => read,
            Err(fault) => return Err(fault),
        };
        found = taken(pool, found, attribute);
        rest = after;
    }
    Ok((found, rest))
}

/// The contents of the first BootstrapMethods among the attributes of a class.
#[tactic(auto, unfolding(jc_facts::specs::file::ClassSteps::counted_attributes_at))]
pub(crate) fn boots_body<'b>(
    pool: &Pool<'_>,
    bytes: &'b [u8],
) -> Result<(Option<&'b [u8]>, &'b [u8]), Fault>
    ensures { result_map_both (λ x. (option_map (λ b. b.now) x.0, x.1.now)) (λ e. e) result ≡ counted_attributes_at (client.take_boots pool.now) pool.now None bytes.now }
{
    match u16_at(bytes) {
        Err(fault) => Err(fault),
        Ok((count, rest)) => some_body(pool, count, rest),
    }
}

/// Whether an argument says something: it is a Class or a MethodHandle, or no entry at all.
fn counts(pool: &Pool<'_>, i: u16) -> bool
    ensures { result ≡ argument_counts pool.now i }
{
    pool.class(i).is_some() || pool.handle(i).is_some() || pool.tag(i).is_none()
}

fn keep(pool: &Pool<'_>, argument: &[u8], kept: &mut Vec<u8>) -> Result<(), AllocError>
    ensures { OnOk result (kept.new.items ≡ kept.old.items ++ (if argument_counts pool.now (short_from 0 argument.now) then take 2 argument.now else [])) }
{
    if counts(pool, short_in(0, argument)) {
        kept.extend_from_slice(front(2, argument))?;
    }
    Ok(())
}

/// Of the indices of arguments, two bytes each, those that say something.
fn kept(alloc: Global, pool: &Pool<'_>, arguments: &[u8]) -> Result<Vec<u8>, AllocError>
    ensures { IfOk result (λ r. r.items ≡ kept_of pool.now (length arguments.now / 2) arguments.now) }
{
    let mut all = Vec::new(alloc);
    let mut rest = arguments;
    for _ in 0..arguments.len() / 2 {
        keep(pool, rest, &mut all)?;
        rest = after(2, rest);
    }
    Ok(all)
}

fn read_row(alloc: Global, pool: &Pool<'_>, parts: BootstrapParts<'_>) -> Result<Row, AllocError>
    ensures { IfOk result (λ r. row_view r ≡ kept_row pool.now (bootstrap_view parts.entry)) }
{
    Ok(Row {
        handle: parts.handle,
        arguments: kept(alloc, pool, parts.arguments)?,
    })
}

fn all_rows(
    alloc: Global,
    pool: &Pool<'_>,
    entries: &[BootstrapParts<'_>],
) -> Result<Vec<Row>, AllocError>
    ensures { IfOk result (λ r. map (λ x. row_view x) r.items ≡ map (λ b. kept_row pool.now (bootstrap_view b)) entries.now) }
{
    let mut rows = Vec::new(alloc);
    for entry in entries {
        rows.push(read_row(alloc, pool, *entry)?)?;
    }
    Ok(rows)
}

/// The rows of these contents; None where there are none, or they aren't of their form.
#[tactic(auto, unfolding(jc_facts::specs::code::ClientItems::boots_of))]
pub(crate) fn rows(
    alloc: Global,
    pool: &Pool<'_>,
    body: Option<&[u8]>,
) -> Result<Option<Vec<Row>>, AllocError>
    ensures { IfOk result (λ r. option_map (λ rows. map (λ x. row_view x) rows.items) r ≡ option_map (map (kept_row pool.now)) (client.boots_of (option_map (λ x. x.now) body.entry))) }
{
    let Some(body) = body else {
        return Ok(None);
    };
    let Some(entries) = bootstraps(alloc, body)? else {
        return Ok(None);
    };
    Ok(Some(all_rows(alloc, pool, entries.as_slice())?))
}

/// The rows as a slice.
pub(crate) fn lent(rows: &Option<Vec<Row>>) -> Option<&[Row]>
    ensures { option_map (λ x. map (λ r. row_view r) x.now) result ≡ option_map (λ rs. map (λ r. row_view r) rs.items) rows.now }
{
    match rows {
        None => None,
        Some(rows) => Some(rows.as_slice()),
    }
}
