//! The steps of the lookup on superinterfaces (JVMS 5.4.3.3).
ghost use Rattle.std.specs.Prelude.{◌≡◌, ◌<◌, ℕ, Option, None, IsTrue, if◌then◌else◌};
ghost use Rattle.std.specs.List.{All};
ghost use Rattle.jc_facts.specs.world.World.{World, size, classes, differ_by_name};
ghost use Rattle.jc_facts.specs.world.Lookup.{superinterface_choices};
ghost use Rattle.jc_facts.specs.world.Loading.{load_fault};
ghost use Rattle.jc_index.specs.Ids.{name_at};
ghost use Rattle.jc_index.specs.Lookups.{IsChoice};
ghost use Rattle.jc_index.specs.Picks.{Picks};
ghost use Rattle.jc_index.specs.declared.ids.Found.{Found};
ghost use Rattle.jc_index.specs.steps.Choosing.{candidate_at, rival_at, best_at, maximal_at, has_rival_below, first_at, FindsAbove};

use crate::hierarchy::Hierarchy;
use crate::ids::{ClassId, Found};
use crate::own::candidate;
use jc_facts::flags::is_abstract;
use jc_facts::key::Key;

/// What the class of a number gives, where it is one of the superinterfaces of another.
trait Choice {
    ghost given: { Self → World → ℕ → Option Found };

    // What has to be true of the choice's own values.
    ghost ready: { Self → World → Type 0 } = { λ _ _. Unit {0} };

    fn of(&self, hierarchy: &Hierarchy, id: ClassId) -> Option<Found>
        requires ready { ready self.now hierarchy.now }
        requires differ { IsTrue (differ_by_name (classes hierarchy.now)) }
        requires within { id < size hierarchy.now }
        ensures { result ≡ given self.now hierarchy.now id };
}

// What the first of these classes gives that gives something.
fn first_of<C: Choice>(choice: &C, hierarchy: &Hierarchy, ids: &[ClassId]) -> Option<Found>
    requires ready { C.ready choice.now hierarchy.now }
    requires differ { IsTrue (differ_by_name (classes hierarchy.now)) }
    requires within { All (λ id. id < size hierarchy.now) ids.now }
    ensures { result ≡ first_at (C.given choice.now hierarchy.now) ids.now }
{
    for id in ids {
        match choice.of(hierarchy, *id) {
            Some(found) => return Some(found),
            None => {}
        }
    }
    None
}

// What one of the superinterfaces of the class gives.
fn choose<C: Choice>(choice: &C, hierarchy: &Hierarchy, class: ClassId) -> Option<Found>
    requires ready { C.ready choice.now hierarchy.now }
    requires class { class < size hierarchy.now }
    ensures { FindsAbove hierarchy.now (name_at hierarchy.now class) (C.given choice.now hierarchy.now) result }
{
    let mut at = class;
    for _ in 0..hierarchy.count() {
        match first_of(choice, hierarchy, hierarchy.interfaces(at)) {
            Some(found) => return Some(found),
            None => {}
        }
        at = match hierarchy.superclass(at) {
            Some(above) => above,
            None => return None,
        };
    }
    None
}

/// A candidate: a method of the key that the class declares neither private nor static.
#[derive(Drop)]
struct Candidate<'k> {
    key: &'k Key,
}

impl<'k> Choice for Candidate<'k> {
    ghost given = { λ choice W n. candidate_at W choice.key.now n };

    fn of(&self, hierarchy: &Hierarchy, id: ClassId) -> Option<Found> {
        candidate(hierarchy, id, self.key)
    }
}

/// A method of the key that a superinterface of the class declares neither private nor static; none
/// where none does (JVMS 5.4.3.3).
pub fn any_candidate(hierarchy: &Hierarchy, class: ClassId, key: &Key) -> Option<Found>
    requires { class < size hierarchy.now }
    ensures { FindsAbove hierarchy.now (name_at hierarchy.now class) (candidate_at hierarchy.now key.now) result }
{
    choose(&Candidate { key }, hierarchy, class)
}

/// A candidate of a class that stands below another.
#[derive(Drop)]
struct Rival<'k> {
    key: &'k Key,
    of: ClassId,
}

impl<'k> Choice for Rival<'k> {
    ghost given = { λ choice W n. rival_at W choice.key.now choice.of n };

    ghost ready = { λ choice W. choice.of < size W };

    fn of(&self, hierarchy: &Hierarchy, id: ClassId) -> Option<Found> {
        let Some(found) = candidate(hierarchy, id, self.key) else {
            return None;
        };
        if id == self.of {
            return None;
        }
        if !hierarchy.is_below(id, self.of) {
            return None;
        }
        Some(found)
    }
}

// Whether a candidate among the superinterfaces of the class stands below the other: that one isn't
// maximally specific then.
fn has_rival(hierarchy: &Hierarchy, class: ClassId, key: &Key, of: ClassId) -> bool
    requires class { class < size hierarchy.now }
    requires above { of < size hierarchy.now }
    requires loads { load_fault hierarchy.now (name_at hierarchy.now class) ≡ None }
    ensures { result ≡ has_rival_below hierarchy.now (name_at hierarchy.now class) key.now (name_at hierarchy.now of) }
{
    choose(&Rival { key, of }, hierarchy, class).is_some()
}

/// A candidate that is maximally specific among those of the superinterfaces of `class`, and where
/// `concrete` is set isn't abstract.
#[derive(Drop)]
struct Maximal<'k> {
    class: ClassId,
    key: &'k Key,
    concrete: bool,
}

impl<'k> Choice for Maximal<'k> {
    ghost given = { λ choice W n. if choice.concrete then best_at W (name_at W choice.«class») choice.key.now n else maximal_at W (name_at W choice.«class») choice.key.now n };

    ghost ready = { λ choice W. choice.«class» < size W × load_fault W (name_at W choice.«class») ≡ None };

    fn of(&self, hierarchy: &Hierarchy, id: ClassId) -> Option<Found> {
        let Some(found) = candidate(hierarchy, id, self.key) else {
            return None;
        };
        if self.concrete && is_abstract(found.flags) {
            return None;
        }
        if has_rival(hierarchy, self.class, self.key, id) {
            return None;
        }
        Some(found)
    }
}

/// What the superinterfaces give: a maximally specific method that isn't abstract, else one that is,
/// of those that are neither private nor static (JVMS 5.4.3.3). Where there are several of the first
/// kind, each is one of the second. The class has to load.
pub fn find_above(hierarchy: &Hierarchy, class: ClassId, key: &Key) -> Option<Found>
    requires class { class < size hierarchy.now }
    requires loads { load_fault hierarchy.now (name_at hierarchy.now class) ≡ None }
    ensures choice { IsChoice hierarchy.now result (superinterface_choices hierarchy.now (name_at hierarchy.now class) key.now) }
    ensures pick { Picks hierarchy.now (name_at hierarchy.now class) key.now result }
{
    let _classes = hierarchy.count();
    let concrete = Maximal {
        class,
        key,
        concrete: true,
    };
    let any = Maximal {
        class,
        key,
        concrete: false,
    };
    match choose(&concrete, hierarchy, class) {
        Some(found) => Some(found),
        None => choose(&any, hierarchy, class),
    }
}
