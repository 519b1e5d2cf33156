//! Where classes stand in byte order of their names.
ghost use Rattle.std.specs.Prelude.{◌≡◌, ◌<◌, ◌≤◌, ◌+◌, ◌++◌, ℕ, List, IfOk, OnOk, IsTrue, length, map, slice_index_or};
ghost use Rattle.std.specs.List.{All};
ghost use Rattle.std.specs.List.Sorted.{IsPermutation, IsSortedBy};
ghost use Rattle.std.specs.Ordering.{is_lt};
ghost use Rattle.jc_facts.specs.declared.class_facts.ClassFacts.{ClassFacts as FactsOf};
ghost use Rattle.jc_facts.specs.world.World.{differ_by_name, classes};
ghost use Rattle.jc_facts.specs.Exactly.{name_order};
ghost use Rattle.jc_index.specs.Sides.{IsSide};
ghost use Rattle.jc_facts.specs.declared.limits.TheConstants.{MAX_SIDE_CLASSES};
ghost use Rattle.jc_index.specs.steps.Order.{IsOrder, IsPlace, AreNumbers, names_at, place_after};

use crate::side::Side;
use jc_facts::class_facts::ClassFacts;
use std::alloc::{AllocError, Global};
use std::marker::Model;

// A class's name, and its place among the classes.
#[derive(Drop)]
struct Place<'a> {
    name: &'a [u8],
    at: usize,
}

impl<'a> Model for Place<'a> {
    ghost use Rattle.std.specs.Prelude.{List, ℕ};

    ghost Value = { List ℕ × ℕ };

    ghost view = { λ p. (p.name.now, p.at) };
}

// The places of the classes, as they stand.
fn places(alloc: Global, classes: &[ClassFacts]) -> Result<Vec<Place<'_>>, AllocError>
    ensures names { IfOk result (λ places. map (λ p. p.0) places.items ≡ names_at classes.now) }
    ensures at { IfOk result (λ places. All (IsPlace classes.now) places.items) }
{
    let mut places = Vec::with_capacity(alloc, classes.len())?;
    for at in 0..classes.len() {
        let class = &classes[at];
        places.push(Place {
            name: class.name.as_bytes(),
            at,
        })?;
    }
    Ok(places)
}

// Sorts the places by the names.
fn sort_by_name(places: &mut Vec<Place<'_>>) -> Result<(), AllocError>
    ensures permutation { IsPermutation places.old.items places.new.items }
    ensures sorted { OnOk result (IsSortedBy (λ x y. is_lt (name_order x.0 y.0)) places.new.items) }
{
    places.sort_by(|a, b| a.name.cmp(b.name))?;
    Ok(())
}

// The places, sorted by the names.
fn sorted(alloc: Global, mut places: Vec<Place<'_>>) -> Result<Vec<usize>, AllocError>
    ensures { IfOk result (λ order. (cs : List FactsOf) → IsTrue (differ_by_name cs) → IsPermutation (names_at cs) (map (λ p. p.0) places.entry.items) → All (IsPlace cs) places.entry.items → IsOrder cs order.items) }
{
    sort_by_name(&mut places)?;
    let mut order = Vec::with_capacity(alloc, places.len())?;
    for place in places.as_slice() {
        order.push(place.at)?;
    }
    Ok(order)
}

/// The places of the classes, in byte order of their names.
pub(crate) fn ordered(alloc: Global, classes: &[ClassFacts]) -> Result<Vec<usize>, AllocError>
    requires { IsTrue (differ_by_name classes.now) }
    ensures { IfOk result (λ order. IsOrder classes.now order.items) }
{
    let places = places(alloc, classes)?;
    let order = sorted(alloc, places)?;
    Ok(order)
}

// Adds the places on a side of the classes of this order, before which so many stand.
fn add_ordered<'a>(
    places: &mut Vec<Place<'a>>,
    side: &'a Side,
    order: &[usize],
    before: usize,
) -> Result<(), AllocError>
    requires { All (λ at. before + at < length (classes side.now)) order.now }
    ensures { OnOk result (places.new.items ≡ places.old.items ++ map (place_after (classes side.now) before) order.now) }
{
    let _few = side.count();
    for n in 0..order.len() {
        let place = before + order[n];
        let class = side.at(place);
        places.push(Place {
            name: class.name.as_bytes(),
            at: place,
        })?;
    }
    Ok(())
}

/// The places of the classes of a side, in byte order of their names. Those of the platform and those
/// beside them stand in this order already, so that the sort merges the two.
pub(crate) fn merged<'a>(alloc: Global, side: &'a Side) -> Result<Vec<usize>, AllocError>
    requires { IsSide side.now }
    ensures { IfOk result (λ order. IsOrder (classes side.now) order.items) }
{
    let platform = side.platform();
    let beside = side.beside();
    let mut places: Vec<Place<'a>> = Vec::with_capacity(alloc, side.count())?;
    add_ordered(&mut places, side, platform.order(), 0)?;
    add_ordered(&mut places, side, beside.order(), platform.classes().len())?;
    let order = sorted(alloc, places)?;
    Ok(order)
}

// So many zeros.
fn zeros(alloc: Global, count: usize) -> Result<Vec<u32>, AllocError>
    ensures { IfOk result (λ zeros. length zeros.items ≡ count) }
{
    let zeros = vec![in alloc; 0u32; count]?;
    Ok(zeros)
}

// Notes at each place of the order its number.
fn note_numbers(numbers: &mut [u32], order: &[usize])
    requires within { All (λ at. at < length numbers.old) order.now }
    requires few { length order.now ≤ MAX_SIDE_CLASSES }
    requires apart { (i j : ℕ) → i < j → j < length order.now → slice_index_or order.now i 0 ≡ slice_index_or order.now j 0 → i ≡ j }
    ensures count { length numbers.new ≡ length numbers.old }
    ensures each { (n : ℕ) → n < length order.now → slice_index_or numbers.new (slice_index_or order.now n 0) 0 ≡ n }
{
    for n in 0..order.len() {
        let at = order[n];
        numbers[at] = n as u32;
    }
}

/// For each place the number of the class there: so many classes have names that are less.
pub(crate) fn numbers(alloc: Global, side: &Side, order: &[usize]) -> Result<Vec<u32>, AllocError>
    requires differ { IsTrue (differ_by_name (classes side.now)) }
    requires order { IsOrder (classes side.now) order.now }
    ensures { IfOk result (λ numbers. AreNumbers (classes side.now) numbers.items) }
{
    let _few = side.count();
    let mut numbers = zeros(alloc, order.len())?;
    note_numbers(&mut numbers, order);
    Ok(numbers)
}
