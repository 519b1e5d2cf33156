//! Keys of final instance methods of superclasses: a method whose key is none of them overrides no
//! final one (JVMS 5.4.5).
ghost use Rattle.std.specs.Prelude.{◌≡◌, ◌<◌, ◌++◌, ℕ, length, map, IfOk, IfSome, Some};
ghost use Rattle.std.specs.List.{filter};
ghost use Rattle.jc_facts.specs.Names.{key_of};
ghost use Rattle.jc_facts.specs.world.World.{size};
ghost use Rattle.jc_index.specs.Ids.{name_at};
ghost use Rattle.jc_index.specs.steps.PlacesAbove.{places_above, place_above, first_place};
ghost use Rattle.jc_index.specs.steps.Walking.{AreMarked, HaveAllFinal, HaveFinalsBeside, HavePlatformFinals, are_of_platform, final_keys_where, is_final_instance, marked_with, superclass_beside as beside_of};

use crate::final_keys::FinalKeys;
use crate::ids::ClassId;
use crate::index::Index;
use crate::members::key_of_member;
use crate::platform_list::one_of;
use crate::side_finals::SideFinals;
use jc_base::items::Items;
use jc_facts::class_facts::ClassFacts;
use jc_facts::flags::{is_final, is_static};
use jc_facts::key::Key;
use std::alloc::{AllocError, Global};

// Adds the keys of the class's final instance methods.
fn push_finals(alloc: Global, keys: &mut Vec<Key>, class: &ClassFacts) -> Result<(), AllocError>
    ensures { IfOk result (λ _. keys.new.items ≡ keys.old.items ++ map key_of (filter is_final_instance class.now.methods)) }
{
    for member in class.methods.as_slice() {
        if is_final(member.flags) && !is_static(member.flags) {
            keys.push(key_of_member(alloc, member)?)?;
        }
    }
    Ok(())
}

// The same, where the class is one that others name as their superclass.
fn push_finals_where(
    alloc: Global,
    keys: &mut Vec<Key>,
    is_superclass: bool,
    class: &ClassFacts,
) -> Result<(), AllocError>
    ensures { IfOk result (λ _. keys.new.items ≡ keys.old.items ++ final_keys_where is_superclass class.now) }
{
    if !is_superclass {
        return Ok(());
    }
    push_finals(alloc, keys, class)?;
    Ok(())
}

// No class is marked.
fn no_marks(alloc: Global, count: usize) -> Result<Vec<bool>, AllocError>
    ensures { IfOk result (λ marks. length marks.items ≡ count) }
{
    let marks = vec![in alloc; false; count]?;
    Ok(marks)
}

// Marks the class of this place or number, where there is one.
fn mark(marks: &mut [bool], class: Option<usize>)
    requires { IfSome class (λ n. n < length marks.old) }
    ensures { marks.new ≡ marked_with marks.old class }
{
    match class {
        Some(n) => marks[n] = true,
        None => {}
    }
}

// Marks the first of those that each class names above itself, which is its superclass where it has
// one.
fn mark_first(above: &[Items<Option<usize>>], marks: &mut [bool])
    requires count { length marks.old ≡ length above.now }
    requires within { (at n : ℕ) → first_place above.now at ≡ Some n → n < length above.now }
    ensures { AreMarked (first_place above.now) (length above.now) (length above.now) marks.new }
{
    for places in above {
        mark(marks, one_of(places.as_slice(), 0));
    }
}

// The keys of the classes of a list that are marked, which are the superclasses.
fn finals_in_list(
    alloc: Global,
    classes: &[ClassFacts],
    marks: &[bool],
) -> Result<Vec<Key>, AllocError>
    requires { AreMarked (λ at. place_above classes.now at 0) (length classes.now) (length classes.now) marks.now }
    ensures { IfOk result (λ keys. HavePlatformFinals classes.now keys.items) }
{
    let mut keys = Vec::new(alloc);
    for at in 0..classes.len() {
        push_finals_where(alloc, &mut keys, marks[at], &classes[at])?;
    }
    Ok(keys)
}

// The keys of all final instance methods of those classes of a platform that its classes have as
// their superclass. `above` are the places of those that each names above itself.
pub(crate) fn platform_finals(
    alloc: Global,
    classes: &[ClassFacts],
    above: &[Items<Option<usize>>],
) -> Result<FinalKeys, AllocError>
    requires { above.now ≡ map (places_above classes.now) classes.now }
    ensures { IfOk result (λ keys. HavePlatformFinals classes.now keys) }
{
    let mut marks = no_marks(alloc, above.len())?;
    mark_first(above, &mut marks);
    let keys = finals_in_list(alloc, classes, marks.as_slice())?;
    let finals = FinalKeys::new(alloc, keys)?;
    Ok(finals)
}

// Whether both classes are of the platform.
fn both_in_platform(index: &Index, class: ClassId, above: ClassId) -> bool
    requires class { «class» < size index.now }
    requires above { above < size index.now }
    ensures { result ≡ are_of_platform index.now (name_at index.now class) (name_at index.now above) }
{
    index.in_platform(class) && index.in_platform(above)
}

// The number of the class that the class has as its superclass; none where both are of the platform,
// whose keys are known.
#[tactic(auto, unfolding(jc_facts::specs::Options::and_then))]
fn superclass_beside(index: &Index, class: ClassId) -> Option<usize>
    requires { class < size index.now }
    ensures value { result ≡ beside_of index.now class }
    ensures of_table { IfSome result (λ n. n < size index.now) }
{
    match index.superclass(class) {
        None => None,
        Some(above) => {
            if both_in_platform(index, class, above) {
                None
            } else {
                Some(above.number() as usize)
            }
        }
    }
}

// Marks these.
fn mark_beside(index: &Index, marks: &mut [bool])
    requires { length marks.old ≡ size index.now }
    ensures { AreMarked (beside_of index.now) (size index.now) (size index.now) marks.new }
{
    for n in 0..index.count() {
        mark(marks, superclass_beside(index, ClassId::new(n)));
    }
}

// The keys of the classes of a side that are marked.
fn finals_beside(alloc: Global, index: &Index, marks: &[bool]) -> Result<Vec<Key>, AllocError>
    requires { AreMarked (beside_of index.now) (size index.now) (size index.now) marks.now }
    ensures { IfOk result (λ keys. HaveFinalsBeside index.now keys.items) }
{
    let mut keys = Vec::new(alloc);
    for n in 0..index.count() {
        push_finals_where(
            alloc,
            &mut keys,
            marks[n as usize],
            index.facts(ClassId::new(n)),
        )?;
    }
    Ok(keys)
}

/// The keys of all final instance methods of the superclasses of a side (JVMS 5.4.5). Those of the
/// platform alone were collected once for all its sides.
///
/// # Errors
///
/// `AllocError` where memory runs out.
pub fn final_keys(alloc: Global, index: &Index) -> Result<SideFinals<'_>, AllocError>
    ensures { IfOk result (λ keys. HaveAllFinal index.now keys) }
{
    let mut marks = no_marks(alloc, index.count() as usize)?;
    mark_beside(index, &mut marks);
    let keys = finals_beside(alloc, index, marks.as_slice())?;
    let beside = FinalKeys::new(alloc, keys)?;
    Ok(SideFinals::new(index.side().platform_finals(), beside))
}
