//! The names that classes mention.
ghost use Rattle.std.specs.Prelude.{◌≡◌, ◌+◌, ◌<◌, ◌^◌, nat_eq, length, IfOk, IfSome, OnOk};
ghost use Rattle.std.specs.List.{list_any, starts_with};
ghost use Rattle.jc_facts.specs.Names.{Bytes, same, is_name_among, package_name};
ghost use Rattle.jc_facts.specs.world.Search.{supers};
ghost use Rattle.jc_facts.specs.world.Mentioned.{permitted, mentions, all_mentions};
ghost use Rattle.jc_index.specs.Mentioned.{mentions_front};
ghost use Rattle.jc_index.specs.steps.Adding.{AddsNames};
ghost use Rattle.jc_index.specs.MentionedNames.{AreMentionedNames};

use crate::names::NumberedNames;
use crate::side::Side;
use crate::supers::super_count;
use jc_base::name::Name;
use jc_base::names::Names;
use jc_facts::class_facts::ClassFacts;
use jc_facts::packages::package_of;
use std::alloc::{AllocError, Global};

// ---- what is kept of them

/// The packages of classes, the names that they name above themselves, and how many names they
/// mention: their own, those, and those that they permit to extend them.
pub struct MentionedNames {
    pub packages: NumberedNames,
    pub supers: NumberedNames,
    pub count: usize,
}

// One call at each exit of a function that owns it, where a derived drop is written out.
impl Drop for MentionedNames {
    fn drop(self) {
        let MentionedNames {
            packages: _,
            supers: _,
            count: _,
        } = self;
    }
}

/// Adds the names. One that is known to stand at an earlier place too isn't looked for again.
pub(crate) fn put_names(
    alloc: Global,
    set: &mut NumberedNames,
    names: &Names,
) -> Result<(), AllocError>
    ensures { OnOk result (AddsNames set.old set.new names.now) }
{
    let list = names.as_slice();
    for at in 0..list.len() {
        if names.earlier(at).is_some() {
            continue;
        }
        let copy = list[at].copy(alloc)?;
        set.put(copy)?;
    }
    Ok(())
}

// Adds the names that the class names above itself.
fn put_supers(alloc: Global, set: &mut NumberedNames, class: &ClassFacts) -> Result<(), AllocError>
    ensures { OnOk result (AddsNames set.old set.new (supers class.now)) }
{
    let interfaces = &class.interfaces;
    match &class.superclass {
        Some(name) => {
            let copy = name.copy(alloc)?;
            set.put(copy)?;
            put_names(alloc, set, interfaces)?;
            Ok(())
        }
        None => {
            put_names(alloc, set, interfaces)?;
            Ok(())
        }
    }
}

// The packages of the classes.
fn packages(alloc: Global, classes: &[ClassFacts]) -> Result<NumberedNames, AllocError>
    ensures { IfOk result (λ set. (x : Bytes) → is_name_among set x ≡ list_any (λ c. same (package_name c.name) x) classes.now) }
{
    let mut set = NumberedNames::new(alloc);
    for class in classes {
        set.put_bytes(alloc, package_of(class.name.as_bytes()))?;
    }
    Ok(set)
}

// The names that the classes name above themselves.
fn all_supers(alloc: Global, classes: &[ClassFacts]) -> Result<NumberedNames, AllocError>
    ensures { IfOk result (λ set. (x : Bytes) → is_name_among set x ≡ list_any (λ c. is_name_among (supers c) x) classes.now) }
{
    let mut set = NumberedNames::new(alloc);
    for class in classes {
        put_supers(alloc, &mut set, class)?;
    }
    Ok(set)
}

// How many names the class permits to extend it.
fn permit_count(class: &ClassFacts) -> usize
    ensures { result ≡ length (permitted class.now.permits) }
{
    match &class.permits {
        Some(names) => names.as_slice().len(),
        None => 0,
    }
}

// So many names, and those that the class mentions; none where that are 2^62 or more.
fn counted(count: usize, class: &ClassFacts) -> Option<usize>
    ensures value { IfSome result (λ n. n ≡ count + length (mentions class.now)) }
    ensures small { IfSome result (λ n. n < 2 ^ 62) }
{
    let with_own = count.checked_add(1)?;
    let with_supers = with_own.checked_add(super_count(class))?;
    let with_all = with_supers.checked_add(permit_count(class))?;
    if with_all < 1 << 62 {
        Some(with_all)
    } else {
        None
    }
}

// How many names the classes mention.
fn mention_count(classes: &[ClassFacts]) -> Result<usize, AllocError>
    ensures value { IfOk result (λ n. n ≡ length (all_mentions classes.now)) }
    ensures small { IfOk result (λ n. n < 2 ^ 62) }
{
    let mut count = 0;
    for class in classes {
        count = match counted(count, class) {
            Some(more) => more,
            None => return Err(AllocError),
        };
    }
    Ok(count)
}

impl MentionedNames {
    /// Those of these classes.
    ///
    /// # Errors
    ///
    /// `AllocError` where memory runs out, also for 2^62 names or more, which no memory holds.
    pub fn new(alloc: Global, classes: &[ClassFacts]) -> Result<MentionedNames, AllocError>
        ensures { IfOk result (λ names. AreMentionedNames classes.now names) }
    {
        let packages = packages(alloc, classes)?;
        let supers = all_supers(alloc, classes)?;
        let count = mention_count(classes)?;
        Ok(MentionedNames {
            packages,
            supers,
            count,
        })
    }
}

// ---- how they begin

// Whether one of the names begins with these bytes.
fn one_begins(names: &[Name], front: &[u8]) -> bool
    ensures { result ≡ list_any (λ x. starts_with nat_eq x front.now) names.now }
{
    names.iter().any(|name| name.as_bytes().starts_with(front))
}

// Whether a name that the class names above itself does.
fn super_begins(class: &ClassFacts, front: &[u8]) -> bool
    ensures { result ≡ list_any (λ x. starts_with nat_eq x front.now) (supers class.now) }
{
    let interface = one_begins(class.interfaces.as_slice(), front);
    match &class.superclass {
        Some(name) => name.as_bytes().starts_with(front) || interface,
        None => interface,
    }
}

// Whether a name that the class permits to extend it does.
fn permitted_begins(class: &ClassFacts, front: &[u8]) -> bool
    ensures { result ≡ list_any (λ x. starts_with nat_eq x front.now) (permitted class.now.permits) }
{
    match &class.permits {
        Some(names) => one_begins(names.as_slice(), front),
        None => false,
    }
}

// Whether a name that the class mentions does.
fn mention_begins(class: &ClassFacts, front: &[u8]) -> bool
    ensures { result ≡ list_any (λ x. starts_with nat_eq x front.now) (mentions class.now) }
{
    class.name.as_bytes().starts_with(front)
        || super_begins(class, front)
        || permitted_begins(class, front)
}

/// Whether a name that one of the classes mentions begins with these bytes.
pub fn begins(side: &Side, front: &[u8]) -> bool
    ensures { result ≡ mentions_front side.now front.now }
{
    for place in 0..side.count() {
        if mention_begins(side.at(place), front) {
            return true;
        }
    }
    false
}
