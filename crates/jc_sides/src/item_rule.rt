//! Rules that speak of a class and a key.
ghost use Rattle.std.specs.BTreeSet.{IsOrdered};
ghost use Rattle.std.specs.Prelude.{◌≡◌, ◌++◌, ◌∷◌, [], ℕ, List, Bool, IfOk, IsTrue, option_map, is_some, slice_get};
ghost use Rattle.std.specs.List.{filter_map};
ghost use Rattle.jc_facts.specs.declared.key.Key.{Key as KeyOf};
ghost use Rattle.jc_facts.specs.Names.{Bytes};
ghost use Rattle.jc_facts.specs.Exactly.{HasExactly};
ghost use Rattle.jc_facts.specs.KeyOrder.{key_cmp};
ghost use Rattle.jc_facts.specs.Seen.{Holds};
ghost use Rattle.jc_facts.specs.Options.{and_then, some_where};
ghost use Rattle.jc_promises.specs.rule.Bases.{is_kept};
ghost use Rattle.jc_sides.specs.Limit.{IsWithin};
ghost use Rattle.jc_sides.specs.Members.{is_member, OfPassing};
ghost use Rattle.jc_sides.specs.Numbering.{AreNumbers, AreOfKeys, IsTranslation};
ghost use Rattle.jc_sides.specs.Rules.{HasEachKey, IsItemRule, IsOf};
ghost use Rattle.jc_sides.specs.SharedOf.{IsShared, AreThose, name_of};
ghost use Rattle.jc_sides.specs.steps.KeySets.{AreInOrder};
ghost use Rattle.jc_sides.specs.SidesOf.{SidesOf};
ghost use Rattle.jc_rows.specs.Keys.{numbered_keys};
ghost use Rattle.jc_table.specs.RowKeys.{keys_of_row};

use crate::broken::BrokenAct;
use crate::found::push_some;
use crate::from_broken::FromBroken;
use crate::key_numbers::KeyNumbers;
use crate::limit::is_over;
use crate::members::{Members, keys_of, new_row, old_row};
use crate::shared::Shared;
use crate::sides::Sides;
use crate::translation::{Translation, numbers_at};
use jc_facts::key::Key;
use jc_rows::row::RowItem;
use jc_table::table::Table;
use std::alloc::{AllocError, Global};
use std::collections::BTreeSet;

/// A rule that speaks of a class and a key, and says what is broken.
pub trait ItemRule {
    type Item: FromBroken;

    ghost rule: { ℕ };

    // The classes of which it speaks.
    ghost covers: { SidesOf → Bytes → Bool };

    // What has to be true of the rule's own values, as of lists that it keeps of the sides.
    ghost ready: { Self → SidesOf → Type 0 } = { λ _ _. Unit {0} };

    /// Of which members of these classes it may speak.
    fn members(&self) -> Members
        ensures { (s : SidesOf) (x : Bytes) → IsTrue (covers s x) → OfPassing (Self.Item.makes rule s x) (is_member result s x) };

    /// What is broken by the change of the member of the key of these numbers.
    fn on_key(
        &self,
        sides: &Sides<'_>,
        class: &Shared<'_>,
        key: &Key,
        numbers: &KeyNumbers,
    ) -> Option<BrokenAct<'_>>
        requires ready { ready self.now sides.now }
        requires shared { IsShared sides.now «class».now }
        requires covered { IsTrue (covers sides.now (name_of «class».now)) }
        requires numbers { AreNumbers sides.now key.now numbers.now }
        ensures { Self.Item.made_of rule (name_of «class».now) key.now result ≡ Self.Item.makes rule sides.now (name_of «class».now) key.now };
}

// What the rule of this number makes of the class and the key of these numbers.
fn made_on<R: ItemRule>(
    alloc: Global,
    number: u8,
    rule: &R,
    sides: &Sides<'_>,
    class: &Shared<'_>,
    key: &Key,
    numbers: &KeyNumbers,
) -> Result<Option<R::Item>, AllocError>
    requires number { number ≡ R.rule }
    requires ready { R.ready rule.now sides.now }
    requires shared { IsShared sides.now «class».now }
    requires covered { IsTrue (R.covers sides.now (name_of «class».now)) }
    requires numbers { AreNumbers sides.now key.now numbers.now }
    ensures { IfOk result (λ made. made ≡ R.Item.makes R.rule sides.now (name_of «class».now) key.now) }
{
    let broken = rule.on_key(sides, class, key, numbers);
    let made = R::Item::from_broken(alloc, number, class.name, key, broken)?;
    Ok(made)
}

// What the rule makes of the class and these keys, in their order. They are few, and looked up.
fn on_keys<R: ItemRule>(
    alloc: Global,
    number: u8,
    rule: &R,
    sides: &Sides<'_>,
    class: &Shared<'_>,
    keys: &[Key],
) -> Result<Vec<R::Item>, AllocError>
    requires number { number ≡ R.rule }
    requires ready { R.ready rule.now sides.now }
    requires shared { IsShared sides.now «class».now }
    requires covered { IsTrue (R.covers sides.now (name_of «class».now)) }
    ensures { IfOk result (λ made. made.items ≡ filter_map (R.Item.makes R.rule sides.now (name_of «class».now)) keys.now) }
{
    let mut items = Vec::new(alloc);
    for key in keys {
        let numbers = KeyNumbers::of(sides, key);
        push_some(
            &mut items,
            made_on(alloc, number, rule, sides, class, key, &numbers)?,
        )?;
    }
    Ok(items)
}

// ---- the keys of which something is made

// The key of these numbers, where the rule makes something of it.
fn if_made<R: ItemRule>(
    alloc: Global,
    rule: &R,
    sides: &Sides<'_>,
    class: &Shared<'_>,
    key: &Key,
    numbers: &KeyNumbers,
) -> Result<Option<Key>, AllocError>
    requires ready { R.ready rule.now sides.now }
    requires shared { IsShared sides.now «class».now }
    requires covered { IsTrue (R.covers sides.now (name_of «class».now)) }
    requires numbers { AreNumbers sides.now key.now numbers.now }
    ensures { IfOk result (λ made. made ≡ some_where (is_some (R.Item.makes R.rule sides.now (name_of «class».now) key.now)) key.now) }
{
    let broken = rule.on_key(sides, class, key, numbers);
    if broken.is_some() {
        Ok(Some(key.copy(alloc)?))
    } else {
        Ok(None)
    }
}

// Those of the keys of which the rule makes something. Each is looked up once on each side.
fn made_of_keys<R: ItemRule>(
    alloc: Global,
    rule: &R,
    sides: &Sides<'_>,
    class: &Shared<'_>,
    keys: &[Key],
) -> Result<Vec<Key>, AllocError>
    requires ready { R.ready rule.now sides.now }
    requires shared { IsShared sides.now «class».now }
    requires covered { IsTrue (R.covers sides.now (name_of «class».now)) }
    ensures { IfOk result (λ made. made.items ≡ filter_map (λ k. some_where (is_some (R.Item.makes R.rule sides.now (name_of «class».now) k)) k) keys.now) }
{
    let mut made = Vec::new(alloc);
    for key in keys {
        let numbers = KeyNumbers::of(sides, key);
        push_some(
            &mut made,
            if_made(alloc, rule, sides, class, key, &numbers)?,
        )?;
    }
    Ok(made)
}

// The key of the item of a row of the table, where the rule makes something of it. The numbers are
// those of the table's keys.
fn if_made_at<R: ItemRule>(
    alloc: Global,
    rule: &R,
    sides: &Sides<'_>,
    class: &Shared<'_>,
    table: &Table,
    numbers: &[KeyNumbers],
    item: &RowItem,
) -> Result<Option<Key>, AllocError>
    requires ready { R.ready rule.now sides.now }
    requires shared { IsShared sides.now «class».now }
    requires covered { IsTrue (R.covers sides.now (name_of «class».now)) }
    requires numbers { AreOfKeys sides.now table.now numbers.now }
    ensures { IfOk result (λ made. made ≡ and_then (λ k. some_where (is_some (R.Item.makes R.rule sides.now (name_of «class».now) k)) k) (slice_get (numbered_keys table.now) item.now.key)) }
{
    let Some(numbers) = numbers_at(numbers, item.key) else {
        return Ok(None);
    };
    let Some(key) = table.key_at(item.key) else {
        return Ok(None);
    };
    if_made(alloc, rule, sides, class, key, numbers)
}

// Those of the keys of a row of the table of which the rule makes something. No byte of a key is
// looked at on the way, and none is copied but those.
fn made_in_row<R: ItemRule>(
    alloc: Global,
    rule: &R,
    sides: &Sides<'_>,
    class: &Shared<'_>,
    table: &Table,
    numbers: &[KeyNumbers],
    row: &[RowItem],
) -> Result<Vec<Key>, AllocError>
    requires ready { R.ready rule.now sides.now }
    requires shared { IsShared sides.now «class».now }
    requires covered { IsTrue (R.covers sides.now (name_of «class».now)) }
    requires numbers { AreOfKeys sides.now table.now numbers.now }
    ensures { IfOk result (λ made. made.items ≡ filter_map (λ k. some_where (is_some (R.Item.makes R.rule sides.now (name_of «class».now) k)) k) (keys_of_row table.now row.now)) }
{
    let mut made = Vec::new(alloc);
    for item in row {
        push_some(
            &mut made,
            if_made_at(alloc, rule, sides, class, table, numbers, item)?,
        )?;
    }
    Ok(made)
}

// The keys of these members of the class of which the rule makes something, in any order, and maybe
// twice: those of the row, and where there is none those of a walk.
fn made_of<R: ItemRule>(
    alloc: Global,
    rule: &R,
    sides: &Sides<'_>,
    translation: &Translation,
    class: &Shared<'_>,
    members: Members,
) -> Result<Vec<Key>, AllocError>
    requires ready { R.ready rule.now sides.now }
    requires shared { IsShared sides.now «class».now }
    requires kept { IsTrue (is_kept sides.now.old sides.now.new (name_of «class».now)) }
    requires covered { IsTrue (R.covers sides.now (name_of «class».now)) }
    requires translation { IsTranslation sides.now translation.now }
    requires passing { OfPassing (R.Item.makes R.rule sides.now (name_of «class».now)) (is_member members sides.now (name_of «class».now)) }
    ensures { IfOk result (λ made. HasEachKey (R.Item.makes R.rule sides.now (name_of «class».now)) made.items) }
{
    if let Some(row) = old_row(sides, class, members) {
        let numbers = translation.old.as_slice();
        return made_in_row(alloc, rule, sides, class, sides.old, numbers, row);
    }
    if let Some(row) = new_row(sides, class, members) {
        let numbers = translation.new.as_slice();
        return made_in_row(alloc, rule, sides, class, sides.new, numbers, row);
    }
    let keys = keys_of(alloc, sides, class, members)?;
    made_of_keys(alloc, rule, sides, class, keys.as_slice())
}

// ---- in order

// Adds the key.
fn put(set: &mut BTreeSet<Key>, key: Key) -> Result<(), AllocError>
    ensures { IfOk result (λ _. (seen : List KeyOf) → Holds set.old seen → Holds set.new (seen ++ key ∷ [])) }
{
    set.insert(key)?;
    Ok(())
}

// The set of these keys.
fn set_of(alloc: Global, keys: Vec<Key>) -> Result<BTreeSet<Key>, AllocError>
    ensures { IfOk result (λ set. Holds set keys.items) }
{
    let mut set = BTreeSet::new(alloc);
    for key in keys {
        put(&mut set, key)?;
    }
    Ok(set)
}

// The keys of the set, in their order. They share their bytes.
fn listed(alloc: Global, set: &BTreeSet<Key>) -> Result<Vec<Key>, AllocError>
    ensures value { IfOk result (λ keys. keys.items ≡ set.now.keys) }
    ensures ordered { IfOk result (λ _. IsOrdered key_cmp set.now) }
{
    let mut keys = Vec::new(alloc);
    for key in set {
        keys.push(key.copy(alloc)?)?;
    }
    Ok(keys)
}

/// The keys, each once, in their order.
///
/// # Errors
///
/// `AllocError` where memory runs out.
pub fn in_order(alloc: Global, keys: Vec<Key>) -> Result<Vec<Key>, AllocError>
    ensures { IfOk result (λ sorted. AreInOrder keys.items sorted.items) }
{
    let set = set_of(alloc, keys)?;
    let keys = listed(alloc, &set)?;
    Ok(keys)
}

// ---- what the rule makes

// What the rule makes of the class, in the order of the keys. Of most keys it makes nothing, so those
// alone of which it makes something are sorted.
fn of_class<R: ItemRule>(
    alloc: Global,
    number: u8,
    rule: &R,
    sides: &Sides<'_>,
    translation: &Translation,
    class: &Shared<'_>,
) -> Result<Vec<R::Item>, AllocError>
    requires number { number ≡ R.rule }
    requires ready { R.ready rule.now sides.now }
    requires rule { IsItemRule R.Item.order R.Item.class_of (R.Item.makes R.rule) (R.Item.stands R.rule) R.covers }
    requires shared { IsShared sides.now «class».now }
    requires covered { IsTrue (R.covers sides.now (name_of «class».now)) }
    requires translation { IsTranslation sides.now translation.now }
    ensures { IfOk result (λ made. HasExactly R.Item.order (IsOf R.Item.class_of (R.Item.stands R.rule sides.now) (name_of «class».now)) made.items) }
{
    let made = made_of(alloc, rule, sides, translation, class, rule.members())?;
    let sorted = in_order(alloc, made)?;
    let items = on_keys(alloc, number, rule, sides, class, sorted.as_slice())?;
    Ok(items)
}

/// What the rule of this number makes of these classes, in byte order of their names and in the order
/// of the keys. They have to be all of which it speaks. None where that is more than the limit allows;
/// no more is made then than what one class adds past it.
///
/// A class is gone over along its row, by the numbers of keys and their translation; only members that
/// stand in no row are walked to and looked up.
///
/// # Errors
///
/// `AllocError` where memory runs out.
pub fn by_items<R: ItemRule>(
    alloc: Global,
    number: u8,
    rule: &R,
    sides: &Sides<'_>,
    translation: &Translation,
    classes: &[Shared<'_>],
    most: Option<usize>,
) -> Result<Option<Vec<R::Item>>, AllocError>
    requires number { number ≡ R.rule }
    requires ready { R.ready rule.now sides.now }
    requires rule { IsItemRule R.Item.order R.Item.class_of (R.Item.makes R.rule) (R.Item.stands R.rule) R.covers }
    requires translation { IsTranslation sides.now translation.now }
    requires classes { AreThose (R.covers sides.now) sides.now classes.now }
    ensures { IfOk result (λ made. IsWithin R.Item.order (R.Item.stands number sides.now) most (option_map (λ items. items.items) made)) }
{
    let mut items = Vec::new(alloc);
    for class in classes {
        items.append(&mut of_class(alloc, number, rule, sides, translation, class)?)?;
        if is_over(items.len(), most) {
            return Ok(None);
        }
    }
    Ok(Some(items))
}
