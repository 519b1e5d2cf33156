//! What each number of a graph leads to, as parts of one list. Where the first number that a number
//! names leads to most of that, as in a chain or a lattice, they share a part.
ghost use Rattle.std.specs.Prelude.{◌≡◌, ◌≤◌, ◌<◌, ◌++◌, ◌∷◌, [], ℕ, length, slice_get, slice_range, take, IfOk, IfSome, OnOk};
ghost use Rattle.std.specs.List.{All};
ghost use Rattle.jc_index.specs.steps.Reach.{next_of, AreLedTo, AllLedTo};
ghost use Rattle.jc_index.specs.steps.Parts.{LiesIn, Extends, IsLonger, IsPartOf, IsMade, StayMade, AreParts};

use crate::class_lists::ClassLists;
use crate::ids::ClassId;
use crate::part::Part;
use crate::reach::led_to;
use jc_base::items::Items;
use std::alloc::{AllocError, Global};
use std::collections::BTreeSet;

// The number that the number names alone; none where it names none or several.
fn only(edges: &[Items<u32>], n: u32) -> Option<u32>
    requires within { All (λ ids. All (λ id. id < length edges.now) ids) edges.now }
    requires number { n < length edges.now }
    ensures alone { IfSome result (λ id. next_of edges.now n ≡ id ∷ []) }
    ensures inside { IfSome result (λ id. id < length edges.now) }
{
    let ids = edges[n as usize].as_slice();
    if ids.len() == 1 { Some(ids[0]) } else { None }
}

// The first number that the number names; none where it names none.
fn first(edges: &[Items<u32>], n: u32) -> Option<u32>
    requires within { All (λ ids. All (λ id. id < length edges.now) ids) edges.now }
    requires number { n < length edges.now }
    ensures value { result ≡ slice_get (next_of edges.now n) 0 }
    ensures inside { IfSome result (λ id. id < length edges.now) }
{
    match edges[n as usize].as_slice().get(0) {
        Some(id) => Some(*id),
        None => None,
    }
}

// Puts the numbers at the end, as classes.
fn append(ids: &mut Vec<ClassId>, numbers: &[u32]) -> Result<(), AllocError>
    ensures { OnOk result (ids.new.items ≡ ids.old.items ++ numbers.now) }
{
    for number in numbers {
        ids.push(ClassId::new(*number))?;
    }
    Ok(())
}

// The part and the number after it, where that is this one.
fn with_next(ids: &[ClassId], part: Part, number: u32) -> Option<Part>
    requires { part.end < length ids.now }
    ensures { IfSome result (λ longer. IsLonger ids.now part number longer) }
{
    if ids[part.end].number() == number {
        Some(Part {
            start: part.start,
            end: part.end + 1,
        })
    } else {
        None
    }
}

// The part and the number after it, where that is this one or can be put there.
fn longer(ids: &mut Vec<ClassId>, part: Part, number: u32) -> Result<Option<Part>, AllocError>
    requires { LiesIn ids.old.items part }
    ensures longer { IfOk result (λ found. IfSome found (λ longer. IsLonger ids.new.items part number longer)) }
    ensures extends { OnOk result (Extends ids.old.items ids.new.items) }
{
    if part.end < ids.len() {
        return Ok(with_next(ids.as_slice(), part, number));
    }
    ids.push(ClassId::new(number))?;
    Ok(with_next(ids.as_slice(), part, number))
}

// What is led to from a number that names one other alone, where that one's part is made and can
// be shared.
fn shared(
    edges: &[Items<u32>],
    parts: &[Option<Part>],
    ids: &mut Vec<ClassId>,
    n: u32,
) -> Result<Option<Part>, AllocError>
    requires within { All (λ ids. All (λ id. id < length edges.now) ids) edges.now }
    requires number { n < length edges.now }
    requires parts { AreParts edges.now ids.old.items parts.now }
    ensures part { IfOk result (λ found. IfSome found (λ part. IsPartOf edges.now ids.new.items n part)) }
    ensures extends { OnOk result (Extends ids.old.items ids.new.items) }
{
    let Some(above) = only(edges, n) else {
        return Ok(None);
    };
    let Some(part) = parts[above as usize] else {
        return Ok(None);
    };
    let longer = longer(ids, part, above)?;
    Ok(longer)
}

// How many items both lists begin with.
fn common(ids: &[ClassId], numbers: &[u32]) -> usize
    ensures ids { result ≤ length ids.now }
    ensures numbers { result ≤ length numbers.now }
    ensures same { take result ids.now ≡ take result numbers.now }
{
    for at in 0..numbers.len() {
        if at == ids.len() {
            return at;
        }
        if ids[at].number() != numbers[at] {
            return at;
        }
    }
    numbers.len()
}

// Makes the numbers a part of the list: from this place on, where what stands there is the same as far
// as both go, and else at its end.
fn put(ids: &mut Vec<ClassId>, start: usize, numbers: &[u32]) -> Result<Part, AllocError>
    requires { start ≤ length ids.old.items }
    ensures lies { IfOk result (λ part. LiesIn ids.new.items part) }
    ensures items { IfOk result (λ part. slice_range ids.new.items part.start part.end ≡ numbers.now) }
    ensures extends { OnOk result (Extends ids.old.items ids.new.items) }
{
    let same = common(&ids.as_slice()[start..], numbers);
    if same == numbers.len() {
        return Ok(Part {
            start,
            end: start + same,
        });
    }
    if start + same == ids.len() {
        append(ids, &numbers[same..])?;
        return Ok(Part {
            start,
            end: ids.len(),
        });
    }
    let end = ids.len();
    append(ids, numbers)?;
    Ok(Part {
        start: end,
        end: ids.len(),
    })
}

// The part of the first number that the number names; nothing, at the end of the list, where that
// isn't made or there is none.
fn base_of(edges: &[Items<u32>], parts: &[Option<Part>], ids: &[ClassId], n: u32) -> Part
    requires within { All (λ ids. All (λ id. id < length edges.now) ids) edges.now }
    requires number { n < length edges.now }
    requires parts { AreParts edges.now ids.now parts.now }
    ensures lies { LiesIn ids.now result }
    ensures led { AreLedTo edges.now n (slice_range ids.now result.start result.end) }
{
    let nothing = Part {
        start: ids.len(),
        end: ids.len(),
    };
    let Some(above) = first(edges, n) else {
        return nothing;
    };
    match parts[above as usize] {
        Some(part) => part,
        None => nothing,
    }
}

// What is led to from the number. What its base has comes first, so that they can share a part.
fn grown(
    alloc: Global,
    edges: &[Items<u32>],
    places: &mut [usize],
    parts: &[Option<Part>],
    ids: &mut Vec<ClassId>,
    n: u32,
) -> Result<Part, AllocError>
    requires within { All (λ ids. All (λ id. id < length edges.now) ids) edges.now }
    requires number { n < length edges.now }
    requires parts { AreParts edges.now ids.old.items parts.now }
    requires room { length places.old ≡ length edges.now }
    ensures part { IfOk result (λ part. IsPartOf edges.now ids.new.items n part) }
    ensures extends { OnOk result (Extends ids.old.items ids.new.items) }
    ensures room { length places.new ≡ length places.old }
{
    let base = base_of(edges, parts, ids.as_slice(), n);
    let known = &ids.as_slice()[base.start..base.end];
    let numbers = led_to(alloc, edges, places, known, n)?;
    let part = put(ids, base.start, numbers.as_slice())?;
    Ok(part)
}

// What is led to from the number.
fn part_of(
    alloc: Global,
    edges: &[Items<u32>],
    places: &mut [usize],
    parts: &[Option<Part>],
    ids: &mut Vec<ClassId>,
    n: u32,
) -> Result<Part, AllocError>
    requires within { All (λ ids. All (λ id. id < length edges.now) ids) edges.now }
    requires number { n < length edges.now }
    requires parts { AreParts edges.now ids.old.items parts.now }
    requires room { length places.old ≡ length edges.now }
    ensures part { IfOk result (λ part. IsPartOf edges.now ids.new.items n part) }
    ensures extends { OnOk result (Extends ids.old.items ids.new.items) }
    ensures room { length places.new ≡ length places.old }
{
    let found = shared(edges, parts, ids, n)?;
    match found {
        Some(part) => Ok(part),
        None => {
            let part = grown(alloc, edges, places, parts, ids, n)?;
            Ok(part)
        }
    }
}

// Makes the part of the number, if it isn't made.
fn make(
    alloc: Global,
    edges: &[Items<u32>],
    places: &mut [usize],
    parts: &mut [Option<Part>],
    ids: &mut Vec<ClassId>,
    n: u32,
) -> Result<(), AllocError>
    requires within { All (λ ids. All (λ id. id < length edges.now) ids) edges.now }
    requires number { n < length edges.now }
    requires parts { AreParts edges.now ids.old.items parts.old }
    requires room { length places.old ≡ length edges.now }
    ensures parts { OnOk result (AreParts edges.now ids.new.items parts.new) }
    ensures room { length places.new ≡ length places.old }
    ensures made { OnOk result (IsMade parts.new n) }
    ensures stay { OnOk result (StayMade parts.old parts.new) }
{
    if parts[n as usize].is_some() {
        return Ok(());
    }
    let part = part_of(alloc, edges, places, parts, ids, n)?;
    parts[n as usize] = Some(part);
    Ok(())
}

// The first number that the number names, where the part of that one isn't made.
fn next_unmade(edges: &[Items<u32>], parts: &[Option<Part>], n: u32) -> Option<u32>
    requires within { All (λ ids. All (λ id. id < length edges.now) ids) edges.now }
    requires number { n < length edges.now }
    requires count { length parts.now ≡ length edges.now }
    ensures { IfSome result (λ id. id < length edges.now) }
{
    let above = first(edges, n)?;
    if parts[above as usize].is_none() {
        Some(above)
    } else {
        None
    }
}

// The numbers above this one whose parts aren't made, where each names the next first.
fn way_up(
    alloc: Global,
    edges: &[Items<u32>],
    parts: &[Option<Part>],
    n: u32,
) -> Result<Vec<u32>, AllocError>
    requires within { All (λ ids. All (λ id. id < length edges.now) ids) edges.now }
    requires number { n < length edges.now }
    requires count { length parts.now ≡ length edges.now }
    ensures { IfOk result (λ way. All (λ id. id < length edges.now) way.items) }
{
    let mut seen = BTreeSet::new(alloc);
    let mut way = Vec::new(alloc);
    let mut at = n;
    for _ in 0..edges.len() {
        let Some(above) = next_unmade(edges, parts, at) else {
            return Ok(way);
        };
        if !seen.insert(above)? {
            return Ok(way);
        }
        way.push(above)?;
        at = above;
    }
    Ok(way)
}

// Makes the parts of the numbers, the last one's first.
fn make_back(
    alloc: Global,
    edges: &[Items<u32>],
    places: &mut [usize],
    parts: &mut [Option<Part>],
    ids: &mut Vec<ClassId>,
    way: &[u32],
) -> Result<(), AllocError>
    requires within { All (λ ids. All (λ id. id < length edges.now) ids) edges.now }
    requires numbers { All (λ id. id < length edges.now) way.now }
    requires parts { AreParts edges.now ids.old.items parts.old }
    requires room { length places.old ≡ length edges.now }
    ensures parts { OnOk result (AreParts edges.now ids.new.items parts.new) }
    ensures room { length places.new ≡ length places.old }
    ensures stay { OnOk result (StayMade parts.old parts.new) }
{
    for i in 0..way.len() {
        make(alloc, edges, places, parts, ids, way[way.len() - 1 - i])?;
    }
    Ok(())
}

// Makes all parts.
fn make_all(
    alloc: Global,
    edges: &[Items<u32>],
    places: &mut [usize],
    parts: &mut [Option<Part>],
    ids: &mut Vec<ClassId>,
) -> Result<(), AllocError>
    requires within { All (λ ids. All (λ id. id < length edges.now) ids) edges.now }
    requires few { length edges.now < 4294967296 }
    requires parts { AreParts edges.now ids.old.items parts.old }
    requires room { length places.old ≡ length edges.now }
    ensures parts { OnOk result (AreParts edges.now ids.new.items parts.new) }
    ensures room { length places.new ≡ length places.old }
    ensures made { OnOk result ((n : ℕ) → n < length edges.now → IsMade parts.new n) }
{
    for n in 0..edges.len() as u32 {
        let way = way_up(alloc, edges, parts, n)?;
        make_back(alloc, edges, places, parts, ids, way.as_slice())?;
        make(alloc, edges, places, parts, ids, n)?;
    }
    Ok(())
}

// Room for the places of so many numbers.
fn no_places(alloc: Global, count: usize) -> Result<Vec<usize>, AllocError>
    ensures { IfOk result (λ places. length places.items ≡ count) }
{
    let places = vec![in alloc; 0; count]?;
    Ok(places)
}

/// For each number those that it leads to by one edge or more, where `edges` are the numbers that
/// each one names.
///
/// # Errors
///
/// `AllocError` where memory runs out.
pub fn all_led_to(alloc: Global, edges: &[Items<u32>]) -> Result<ClassLists, AllocError>
    requires within { All (λ ids. All (λ id. id < length edges.now) ids) edges.now }
    requires few { length edges.now < 4294967296 }
    ensures { IfOk result (λ rows. AllLedTo edges.now rows) }
{
    let mut parts = vec![in alloc; None; edges.len()]?;
    let mut places = no_places(alloc, edges.len())?;
    let mut ids = Vec::new(alloc);
    make_all(
        alloc,
        edges,
        places.as_mut_slice(),
        parts.as_mut_slice(),
        &mut ids,
    )?;
    Ok(ClassLists::new(ids, parts))
}
