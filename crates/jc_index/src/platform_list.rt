//! The classes of a platform, with what is found out of them once.
ghost use Rattle.std.specs.Prelude.{◌≡◌, map, slice_get, IfOk};
ghost use Rattle.jc_facts.specs.Options.{and_then};
ghost use Rattle.jc_index.specs.steps.PlacesAbove.{places_above as places_of_supers, place_above as place_of_super};
ghost use Rattle.jc_index.specs.steps.Walking.{HavePlatformFinals};

use crate::class_list::ClassList;
use crate::final_keys::FinalKeys;
use crate::finals::platform_finals;
use crate::supers::{super_at, super_count};
use jc_base::items::Items;
use jc_facts::class_facts::ClassFacts;
use std::alloc::{AllocError, Global};
use std::marker::Model;

/// Classes of a platform, with the places of those that each names above itself and the keys of the
/// final methods above: each name is looked for and each key collected once, whatever sides there
/// are. A contract sees it as their list.
pub(crate) struct PlatformList {
    list: ClassList,
    // For each class the places of those that it names above itself, its superclass first; none at a
    // name that no class of the list has.
    above: Vec<Items<Option<usize>>>,
    // The keys of final instance methods of those that one of the classes has as its superclass.
    finals: FinalKeys,
}

// One call at each exit of a function that owns it, where a derived drop is written out.
impl Drop for PlatformList {
    fn drop(self) {
        let PlatformList {
            list: _,
            above: _,
            finals: _,
        } = self;
    }
}

impl Model for PlatformList {
    ghost use Rattle.std.specs.Prelude.{List};
    ghost use Rattle.jc_facts.specs.declared.class_facts.ClassFacts.{ClassFacts};

    ghost Value = { List ClassFacts };

    ghost use Rattle.jc_index.specs.steps.PlatformLists.{IsPlatformList};

    ghost view = { λ l. l.list };

    ghost invariant = { IsPlatformList };
}

// The places of the classes that the class names above itself.
fn places_above(
    alloc: Global,
    list: &ClassList,
    class: &ClassFacts,
) -> Result<Items<Option<usize>>, AllocError>
    ensures { IfOk result (λ places. places ≡ places_of_supers list.now class.now) }
{
    let count = super_count(class);
    let mut places = Vec::with_capacity(alloc, count)?;
    for at in 0..count {
        places.push(list.place(super_at(class, at).as_bytes()))?;
    }
    Ok(Items::from_vec(places))
}

// The same for each class.
fn all_places_above(
    alloc: Global,
    list: &ClassList,
) -> Result<Vec<Items<Option<usize>>>, AllocError>
    ensures { IfOk result (λ rows. rows.items ≡ map (places_of_supers list.now) list.now) }
{
    let classes = list.classes();
    let mut rows = Vec::with_capacity(alloc, classes.len())?;
    for class in classes {
        rows.push(places_above(alloc, list, class)?)?;
    }
    Ok(rows)
}

// The place at `at`; none where none stands there.
#[tactic(auto, unfolding(jc_facts::specs::Options::and_then))]
pub(crate) fn one_of(places: &[Option<usize>], at: usize) -> Option<usize>
    ensures { result ≡ and_then (λ place. place) (slice_get places.now at) }
{
    match places.get(at) {
        Some(place) => *place,
        None => None,
    }
}

impl PlatformList {
    /// The list, with these places and keys.
    ///
    /// # Errors
    ///
    /// `AllocError` where memory runs out.
    pub fn new(alloc: Global, list: ClassList) -> Result<PlatformList, AllocError>
        ensures { IfOk result (λ platform. platform ≡ list) }
    {
        let above = all_places_above(alloc, &list)?;
        let finals = platform_finals(alloc, list.classes(), above.as_slice())?;
        Ok(PlatformList {
            list,
            above,
            finals,
        })
    }

    /// The list alone.
    pub fn list(&self) -> &ClassList
        ensures { result.now ≡ self.now }
    {
        &self.list
    }

    /// The place of one of the classes that the class at this place names above itself, of which the
    /// superclass is the first; none where no class of the list has the name.
    pub fn place_above(&self, place: usize, at: usize) -> Option<usize>
        ensures { result ≡ place_of_super self.now place at }
    {
        match self.above.get(place) {
            Some(places) => one_of(places.as_slice(), at),
            None => None,
        }
    }

    /// The keys of final instance methods of those of the classes that one of them has as its
    /// superclass.
    pub fn finals(&self) -> &FinalKeys
        ensures { HavePlatformFinals self.now result.now }
    {
        &self.finals
    }
}
