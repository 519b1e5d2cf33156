//! What is led to in a graph.
ghost use Rattle.std.specs.Prelude.{◌≡◌, ◌<◌, ◌∷◌, [], length, IfOk, OnOk};
ghost use Rattle.std.specs.List.{All};
ghost use Rattle.jc_index.specs.steps.Reach.{AreLedTo, IsLedTo};
ghost use Rattle.jc_index.specs.steps.Queue.{Enqueues, ArePlaces, is_in};

use crate::ids::ClassId;
use jc_base::items::Items;
use std::alloc::{AllocError, Global};

// Whether the id is in the queue. `places` says of each that is where it stands.
fn is_queued(places: &[usize], queue: &[u32], id: u32) -> bool
    requires id { id < length places.now }
    requires places { ArePlaces places.now queue.now }
    ensures { result ≡ is_in queue.now id }
{
    match queue.get(places[id as usize]) {
        Some(there) => *there == id,
        None => false,
    }
}

// Adds the id to the end of the queue where it is new.
fn add_one(places: &mut [usize], queue: &mut Vec<u32>, id: u32) -> Result<(), AllocError>
    requires id { id < length places.old }
    requires places { ArePlaces places.old queue.old.items }
    ensures adds { OnOk result (Enqueues queue.old.items queue.new.items (id ∷ [])) }
    ensures places { OnOk result (ArePlaces places.new queue.new.items) }
    ensures count { length places.new ≡ length places.old }
{
    if is_queued(places, queue.as_slice(), id) {
        return Ok(());
    }
    let place = queue.len();
    queue.push(id)?;
    places[id as usize] = place;
    Ok(())
}

// Adds the ids.
fn add(places: &mut [usize], queue: &mut Vec<u32>, ids: &[u32]) -> Result<(), AllocError>
    requires ids { All (λ id. id < length places.old) ids.now }
    requires places { ArePlaces places.old queue.old.items }
    ensures adds { OnOk result (Enqueues queue.old.items queue.new.items ids.now) }
    ensures places { OnOk result (ArePlaces places.new queue.new.items) }
    ensures count { length places.new ≡ length places.old }
{
    for id in ids {
        add_one(places, queue, *id)?;
    }
    Ok(())
}

// The same of ids that are known.
fn add_known(places: &mut [usize], queue: &mut Vec<u32>, ids: &[ClassId]) -> Result<(), AllocError>
    requires ids { All (λ id. id < length places.old) ids.now }
    requires places { ArePlaces places.old queue.old.items }
    ensures adds { OnOk result (Enqueues queue.old.items queue.new.items ids.now) }
    ensures places { OnOk result (ArePlaces places.new queue.new.items) }
    ensures count { length places.new ≡ length places.old }
{
    for id in ids {
        add_one(places, queue, id.number())?;
    }
    Ok(())
}

/// The numbers that a number leads to by one edge or more, each once, where `edges` are the numbers
/// that each one names. Some of them may be known, with what these lead to, and come first. `places`
/// has room for each number, whatever stands in it.
///
/// # Errors
///
/// `AllocError` where memory runs out.
pub fn led_to(
    alloc: Global,
    edges: &[Items<u32>],
    places: &mut [usize],
    known: &[ClassId],
    start: u32,
) -> Result<Vec<u32>, AllocError>
    requires within { All (λ ids. All (λ id. id < length edges.now) ids) edges.now }
    requires start { start < length edges.now }
    requires known { AreLedTo edges.now start known.now }
    requires room { length places.old ≡ length edges.now }
    ensures led { IfOk result (λ ids. IsLedTo edges.now start ids.items) }
    ensures room { length places.new ≡ length places.old }
{
    let mut queue = Vec::new(alloc);
    add_known(places, &mut queue, known)?;
    let mut next = queue.len();
    add(places, &mut queue, edges[start as usize].as_slice())?;
    while next < queue.len() {
        let id = queue[next];
        add(places, &mut queue, edges[id as usize].as_slice())?;
        next += 1;
    }
    Ok(queue)
}
