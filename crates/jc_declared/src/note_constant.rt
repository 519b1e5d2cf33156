//! Notes on constants.
ghost use Rattle.std.specs.Prelude.{◌≡◌, ◌<◌, ◌&&◌, is_some, option_map, IfOk, IsTrue};
ghost use Rattle.std.specs.BTreeMap.{keys};
ghost use Rattle.jc_facts.specs.Exactly.{HasExactly};
ghost use Rattle.jc_facts.specs.Options.{some_and};
ghost use Rattle.jc_promises.specs.rule.Bases.{is_kept};
ghost use Rattle.jc_facts.specs.Records.{same_constant};
ghost use Rattle.jc_facts.specs.Orders.{note_order};
ghost use Rattle.jc_facts.specs.world.World.{size};
ghost use Rattle.jc_declared.specs.steps.Notes.{HasConstants, AreConstants, value_in, changed_in, static_final_flags, is_in_both, constant_note, IsConstantNote, OnConstants};
ghost use Rattle.jc_declared.specs.steps.Own.{field_flags_of};
ghost use Rattle.jc_sides.specs.SharedOf.{IsShared, name_of};
ghost use Rattle.jc_sides.specs.SidesOf.{AreSides};
ghost use Rattle.jc_index.specs.Ids.{name_at};

use crate::own::field_flags;
use jc_facts::class_facts::{ClassFacts, Constant, Fixed};
use jc_facts::flags::{is_final, is_static};
use jc_facts::key::Key;
use jc_facts::key_set::KeyRef;
use jc_facts::verdict::Note;
use jc_index::ids::ClassId;
use jc_sides::found::push_some;
use jc_sides::kept::kept;
use jc_sides::shared::{Shared, after, before};
use jc_sides::sides::Sides;
use std::alloc::{AllocError, Global};
use std::collections::BTreeMap;

// ---- the constants of a class

// The constant fields of the class by their keys (JVMS 4.7.2).
fn constants_of<'a>(
    alloc: Global,
    class: &'a ClassFacts,
) -> Result<BTreeMap<KeyRef<'a>, &'a Fixed>, AllocError>
    ensures { IfOk result (HasConstants class.now) }
{
    let constants = class.constants.as_slice();
    let mut by_key = BTreeMap::new(alloc);
    // From the last on: of one key the first stays.
    for done in 0..constants.len() {
        let fixed = &constants[constants.len() - 1 - done];
        by_key.insert(KeyRef::of_key(&fixed.key), fixed)?;
    }
    Ok(by_key)
}

// The constant value of the field of the key.
fn value_at<'a>(
    constants: &BTreeMap<KeyRef<'a>, &'a Fixed>,
    key: &KeyRef<'a>,
) -> Option<&'a Constant>
    ensures { option_map (λ v. v.now) result ≡ value_in constants.now key.now }
{
    match constants.get(key) {
        None => None,
        Some(fixed) => Some(&fixed.value),
    }
}

// Whether the two constants are of one kind and equal.
fn same_constant(before: &Constant, after: &Constant) -> bool
    ensures { result ≡ same_constant before.now after.now }
{
    *before == *after
}

// Whether the old class's field of the key has a constant value, and the new one has none or
// another.
fn is_changed<'a>(
    was: &BTreeMap<KeyRef<'a>, &'a Fixed>,
    now: &BTreeMap<KeyRef<'a>, &'a Fixed>,
    key: &KeyRef<'a>,
) -> bool
    ensures { result ≡ changed_in was.now now.now key.now }
{
    let Some(value) = value_at(was, key) else {
        return false;
    };
    match value_at(now, key) {
        None => true,
        Some(now) => !same_constant(value, now),
    }
}

// ---- the fields

// Whether the flags are there, and are those of a static final field.
fn are_static_final(flags: Option<u16>) -> bool
    ensures { result ≡ some_and static_final_flags flags }
{
    match flags {
        None => false,
        Some(flags) => is_static(flags) && is_final(flags),
    }
}

// Whether the kept class itself declared a static final field of the key, and still declares a
// field of it.
fn declares_still(sides: &Sides<'_>, class: &Shared<'_>, key: &Key) -> bool
    requires shared { IsShared sides.now «class».now }
    requires kept { IsTrue (is_kept sides.now.old sides.now.new (name_of «class».now)) }
    ensures { result ≡ (some_and static_final_flags (field_flags_of sides.now.old (name_of «class».now) key.now) && is_some (field_flags_of sides.now.new (name_of «class».now) key.now)) }
{
    are_static_final(field_flags(sides.old, class.old, key))
        && field_flags(sides.new, class.new, key).is_some()
}

// ---- the notes on a class

// The note on the class's constant of the key, if there is one.
fn note_on<'a>(
    alloc: Global,
    sides: &Sides<'_>,
    class: &Shared<'_>,
    key: &KeyRef<'a>,
    was: &BTreeMap<KeyRef<'a>, &'a Fixed>,
    now: &BTreeMap<KeyRef<'a>, &'a Fixed>,
) -> Result<Option<Note>, AllocError>
    requires sides { AreSides sides.now }
    requires shared { IsShared sides.now «class».now }
    requires covered { IsTrue (is_in_both sides.now (name_of «class».now)) }
    requires was { AreConstants sides.now.old (name_of «class».now) was.now }
    requires now { AreConstants sides.now.new (name_of «class».now) now.now }
    ensures { IfOk result (λ note. note ≡ constant_note sides.now (name_of «class».now) key.now) }
{
    if !is_changed(was, now, key) {
        return Ok(None);
    }
    let key = key.to_key(alloc)?;
    if !declares_still(sides, class, &key) {
        return Ok(None);
    }
    Ok(Some(Note::Fixed {
        class: class.name.copy(alloc)?,
        key,
    }))
}

// The notes on the class's constants, in the order of their keys.
fn on_keys<'a>(
    alloc: Global,
    sides: &Sides<'_>,
    class: &Shared<'_>,
    was: &BTreeMap<KeyRef<'a>, &'a Fixed>,
    now: &BTreeMap<KeyRef<'a>, &'a Fixed>,
) -> Result<Vec<Note>, AllocError>
    requires sides { AreSides sides.now }
    requires shared { IsShared sides.now «class».now }
    requires covered { IsTrue (is_in_both sides.now (name_of «class».now)) }
    requires was { AreConstants sides.now.old (name_of «class».now) was.now }
    requires now { AreConstants sides.now.new (name_of «class».now) now.now }
    ensures { IfOk result (λ notes. HasExactly note_order (OnConstants sides.now (name_of «class».now)) notes.items) }
{
    let mut notes = Vec::new(alloc);
    for key in was.keys() {
        push_some(&mut notes, note_on(alloc, sides, class, key, was, now)?)?;
    }
    Ok(notes)
}

// The notes on the constants of the class of this number on the old side, in the order of their
// keys.
fn on_class(alloc: Global, sides: &Sides<'_>, id: ClassId) -> Result<Vec<Note>, AllocError>
    requires sides { AreSides sides.now }
    requires class { id < size sides.now.old }
    ensures { IfOk result (λ notes. HasExactly note_order (OnConstants sides.now (name_at sides.now.old id)) notes.items) }
{
    // What isn't the platform's and is kept is of both releases.
    if sides.old.in_platform(id) {
        return Ok(Vec::new(alloc));
    }
    let Some(class) = kept(sides, id) else {
        return Ok(Vec::new(alloc));
    };
    let was = constants_of(alloc, before(sides, &class))?;
    let now = constants_of(alloc, after(sides, &class))?;
    let notes = on_keys(alloc, sides, &class, &was, &now)?;
    Ok(notes)
}

// ---- all notes

/// The notes on constants whose value is another now, or that are none any more, of the kept
/// classes that both releases declare (JVMS 4.7.2): clients that were built with the old value keep
/// it. They are in byte order of the names of the classes, and in the order of the keys. A class
/// takes time in proportion to its constants, but for the logarithm of a look-up.
///
/// # Errors
///
/// `AllocError` where memory runs out.
pub fn note_constant(alloc: Global, sides: &Sides<'_>) -> Result<Vec<Note>, AllocError>
    ensures { IfOk result (λ notes. HasExactly note_order (IsConstantNote sides.now) notes.items) }
{
    let mut notes = Vec::new(alloc);
    for n in 0..sides.old.count() {
        let id = sides.old.id(n).unwrap();
        notes.append(&mut on_class(alloc, sides, id)?)?;
    }
    Ok(notes)
}
