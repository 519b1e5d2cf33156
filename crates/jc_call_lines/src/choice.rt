//! What superinterfaces of a class declare, asked of a table.
ghost use Rattle.std.specs.Prelude.{◌≡◌, ◌<◌, ℕ, Option, None, IsTrue, is_some};
ghost use Rattle.std.specs.List.{All};
ghost use Rattle.jc_facts.specs.world.World.{World, size, classes, differ_by_name};
ghost use Rattle.jc_facts.specs.world.Loading.{load_fault};
ghost use Rattle.jc_index.specs.Ids.{name_at};
ghost use Rattle.jc_index.specs.declared.ids.Found.{Found};
ghost use Rattle.jc_index.specs.steps.Choosing.{candidate_at, rival_at, has_rival_below, first_at, FindsAbove};
ghost use Rattle.jc_call_lines.specs.steps.Openly.{are_flags_fit, hidden_at, hidden_offer, unfit_offer, other_best};

use jc_facts::flags::{is_abstract, is_public, is_synthetic};
use jc_facts::key::Key;
use jc_index::ids::{ClassId, Found};
use jc_index::own;
use jc_table::naming::is_nameable;
use jc_table::table::Table;

// The method of the key that the class itself declares, where it is neither private nor static.
fn candidate(table: &Table, class: ClassId, key: &Key) -> Option<Found>
    requires { class < size table.now }
    ensures { result ≡ candidate_at table.now key.now class }
{
    own::candidate(table.hierarchy(), class, key)
}

// ---- one of the superinterfaces

/// What the class of a number gives, where it is one of the superinterfaces of another.
trait Choice {
    ghost given: { Self → World → ℕ → Option Found };

    // What has to be true of the choice's own values.
    ghost ready: { Self → World → Type 0 } = { λ _ _. Unit {0} };

    fn of(&self, table: &Table, id: ClassId) -> Option<Found>
        requires ready { ready self.now table.now }
        requires differ { IsTrue (differ_by_name (classes table.now)) }
        requires within { id < size table.now }
        ensures { result ≡ given self.now table.now id };
}

// What the first of these classes gives that gives something.
fn first_of<C: Choice>(choice: &C, table: &Table, ids: &[ClassId]) -> Option<Found>
    requires ready { C.ready choice.now table.now }
    requires differ { IsTrue (differ_by_name (classes table.now)) }
    requires within { All (λ id. id < size table.now) ids.now }
    ensures { result ≡ first_at (C.given choice.now table.now) ids.now }
{
    for id in ids {
        match choice.of(table, *id) {
            Some(found) => return Some(found),
            None => {}
        }
    }
    None
}

// What one of the superinterfaces of the class gives.
fn choose<C: Choice>(choice: &C, table: &Table, class: ClassId) -> Option<Found>
    requires ready { C.ready choice.now table.now }
    requires class { class < size table.now }
    ensures { FindsAbove table.now (name_at table.now class) (C.given choice.now table.now) result }
{
    let mut at = class;
    for _ in 0..table.count() {
        match first_of(choice, table, table.interfaces(at)) {
            Some(found) => return Some(found),
            None => {}
        }
        at = match table.superclass(at) {
            Some(above) => above,
            None => return None,
        };
    }
    None
}

// ---- those that clients can't name

/// A class that clients can't name.
#[derive(Drop)]
struct Hidden;

impl Choice for Hidden {
    ghost given = { λ choice W n. hidden_at W n };

    fn of(&self, table: &Table, id: ClassId) -> Option<Found> {
        if is_nameable(table, id) {
            return None;
        }
        Some(Found {
            owner: id,
            flags: 0,
        })
    }
}

/// One of the superinterfaces of the class that clients can't name; none where they can name all.
pub(crate) fn hidden_above(table: &Table, class: ClassId) -> Option<Found>
    requires { class < size table.now }
    ensures { FindsAbove table.now (name_at table.now class) (hidden_at table.now) result }
{
    choose(&Hidden, table, class)
}

/// A method that such a class declares neither private nor static.
#[derive(Drop)]
struct HiddenOffer<'k> {
    key: &'k Key,
}

impl<'k> Choice for HiddenOffer<'k> {
    ghost given = { λ choice W n. hidden_offer W choice.key.now n };

    fn of(&self, table: &Table, id: ClassId) -> Option<Found> {
        if is_nameable(table, id) {
            return None;
        }
        candidate(table, id, self.key)
    }
}

/// A method of the key that a superinterface of the class, which clients can't name, declares neither
/// private nor static.
pub(crate) fn offered_hidden(table: &Table, class: ClassId, key: &Key) -> Option<Found>
    requires { class < size table.now }
    ensures { FindsAbove table.now (name_at table.now class) (hidden_offer table.now key.now) result }
{
    choose(&HiddenOffer { key }, table, class)
}

// ---- those of which javac makes no handle

/// Whether javac makes a handle of a reference to a method with these flags: it is public, and no bridge
/// or other that a compiler made (JVMS 4.6).
pub(crate) fn are_flags_fit(flags: u16) -> bool
    ensures { result ≡ are_flags_fit flags }
{
    is_public(flags) && !is_synthetic(flags)
}

/// A method that the class declares neither private nor static, of which javac makes no handle.
#[derive(Drop)]
struct UnfitOffer<'k> {
    key: &'k Key,
}

impl<'k> Choice for UnfitOffer<'k> {
    ghost given = { λ choice W n. unfit_offer W choice.key.now n };

    fn of(&self, table: &Table, id: ClassId) -> Option<Found> {
        let Some(found) = candidate(table, id, self.key) else {
            return None;
        };
        if are_flags_fit(found.flags) {
            return None;
        }
        Some(found)
    }
}

/// A method of the key that a superinterface of the class declares neither private nor static, of which
/// javac makes no handle.
pub(crate) fn offered_unfit(table: &Table, class: ClassId, key: &Key) -> Option<Found>
    requires { class < size table.now }
    ensures { FindsAbove table.now (name_at table.now class) (unfit_offer table.now key.now) result }
{
    choose(&UnfitOffer { key }, table, class)
}

// ---- those that are chosen before others

/// A candidate of a class that stands below another.
#[derive(Drop)]
struct Rival<'k> {
    key: &'k Key,
    of: ClassId,
}

impl<'k> Choice for Rival<'k> {
    ghost given = { λ choice W n. rival_at W choice.key.now choice.of n };

    ghost ready = { λ choice W. choice.of < size W };

    fn of(&self, table: &Table, id: ClassId) -> Option<Found> {
        let Some(found) = candidate(table, id, self.key) else {
            return None;
        };
        if id == self.of {
            return None;
        }
        if !table.is_below(id, self.of) {
            return None;
        }
        Some(found)
    }
}

// Whether a candidate among the superinterfaces of the class stands below the other: that one isn't
// maximally specific then (JVMS 5.4.3.3).
fn has_rival(table: &Table, class: ClassId, key: &Key, of: ClassId) -> bool
    requires class { class < size table.now }
    requires above { of < size table.now }
    requires loads { load_fault table.now (name_at table.now class) ≡ None }
    ensures { result ≡ has_rival_below table.now (name_at table.now class) key.now (name_at table.now of) }
{
    choose(&Rival { key, of }, table, class).is_some()
}

/// A candidate that is maximally specific among those of the superinterfaces of `class` and isn't
/// abstract, of another class than `than`.
#[derive(Drop)]
struct OtherBest<'k> {
    class: ClassId,
    key: &'k Key,
    than: ClassId,
}

impl<'k> Choice for OtherBest<'k> {
    ghost given = { λ choice W n. other_best W (name_at W choice.«class») choice.key.now choice.than n };

    ghost ready = { λ choice W. choice.«class» < size W × load_fault W (name_at W choice.«class») ≡ None };

    fn of(&self, table: &Table, id: ClassId) -> Option<Found> {
        if id == self.than {
            return None;
        }
        let Some(found) = candidate(table, id, self.key) else {
            return None;
        };
        if is_abstract(found.flags) {
            return None;
        }
        if has_rival(table, self.class, self.key, id) {
            return None;
        }
        Some(found)
    }
}

/// A method that the steps on superinterfaces of the class choose before others, of another class than
/// this one (JVMS 5.4.3.3). The class has to load.
pub(crate) fn chosen_beside(
    table: &Table,
    class: ClassId,
    key: &Key,
    than: ClassId,
) -> Option<Found>
    requires class { class < size table.now }
    requires loads { load_fault table.now (name_at table.now class) ≡ None }
    ensures { FindsAbove table.now (name_at table.now class) (other_best table.now (name_at table.now class) key.now than) result }
{
    choose(&OtherBest { class, key, than }, table, class)
}
