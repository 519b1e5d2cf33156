//! The limits of the format (JVMS 4.11).
ghost use Rattle.std.specs.Prelude.{◌≡◌, ◌&&◌, IfOk};
ghost use Rattle.std.specs.List.{list_all};
ghost use Rattle.jc_facts.specs.written.PoolEntries.{fits};
ghost use Rattle.jc_facts.specs.written.Written.{fits_count, fits_permits, fits_counts, fits_body, fits_bodies, fits_whole, pool_of_plan};

use crate::entry::Entry;
use crate::says::Says;
use crate::stack::{TOO_MANY, most_places};
use crate::steps::code;
use indexmap::IndexSet;
use jc_base::items::Items;
use jc_base::name::Name;
use jc_facts::blueprint::{Blueprint, Body};
use jc_facts::class_facts::ClassFacts;
use std::alloc::{AllocError, Global};

fn count_fits(count: usize) -> bool
    ensures { result ≡ fits_count count }
{
    count <= 65535
}

fn entry_fits(entry: &Entry<'_>) -> bool
    ensures { result ≡ fits entry.now }
{
    match entry.says() {
        Says::Text(text) => count_fits(text.len()),
        _ => true,
    }
}

#[tactic(auto, using(jc_facts::proofs::Lists::all_step, jc_facts::proofs::Lists::all_stop))]
fn texts_fit(entries: &[Entry<'_>]) -> bool
    ensures { result ≡ list_all fits entries.now }
{
    for entry in entries {
        if !entry_fits(entry) {
            return false;
        }
    }
    true
}

fn permits_fit(permits: &Option<Items<Name>>) -> bool
    ensures { result ≡ fits_permits permits.now }
{
    match permits {
        None => true,
        Some(names) => count_fits(names.as_slice().len()),
    }
}

fn counts_fit(facts: &ClassFacts) -> bool
    ensures { result ≡ fits_counts facts.now }
{
    count_fits(facts.interfaces.as_slice().len())
        && count_fits(facts.fields.as_slice().len())
        && count_fits(facts.methods.as_slice().len())
        && permits_fit(&facts.permits)
        && count_fits(facts.nest_members.as_slice().len())
}

#[tactic(auto, using(crate::proofs::MostFrom::capped))]
fn body_fits<'a>(
    alloc: Global,
    pool: &IndexSet<Entry<'a>>,
    body: &'a Option<Body>,
) -> Result<bool, AllocError>
    ensures { IfOk result (λ r. r ≡ fits_body pool.now.keys body.now) }
{
    match body {
        None => Ok(true),
        Some(body) => {
            let code = code(alloc, pool, body.steps.as_slice())?;
            let most = most_places(body.steps.as_slice());
            Ok(count_fits(code.len()) && most < TOO_MANY)
        }
    }
}

fn bodies_fit<'a>(
    alloc: Global,
    pool: &IndexSet<Entry<'a>>,
    bodies: &'a [Option<Body>],
) -> Result<bool, AllocError>
    ensures { IfOk result (λ r. r ≡ fits_bodies pool.now.keys bodies.now) }
{
    for body in bodies {
        if !body_fits(alloc, pool, body)? {
            return Ok(false);
        }
    }
    Ok(true)
}

/// Whether no limit is passed.
#[tactic(auto, unfolding(jc_facts::specs::written::Written::fits_whole))]
pub(crate) fn fits_format<'a>(
    alloc: Global,
    pool: &IndexSet<Entry<'a>>,
    plan: &'a Blueprint,
) -> Result<bool, AllocError>
    requires { pool.now.keys ≡ pool_of_plan plan.now }
    ensures { IfOk result (λ r. r ≡ fits_whole plan.now) }
{
    let few = pool.len() <= 65534 && texts_fit(pool.as_slice()) && counts_fit(&plan.facts);
    if !few {
        return Ok(false);
    }
    bodies_fit(alloc, pool, plan.bodies.as_slice())
}
