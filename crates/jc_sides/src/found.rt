//! Findings, of what rules say, and what they are collected by.
ghost use Rattle.std.specs.Prelude.{◌≡◌, ◌++◌, [], IfOk, OnOk, option_map};
ghost use Rattle.std.specs.List.{cons_option};
ghost use Rattle.jc_sides.specs.BrokenOf.{found};

use crate::broken::BrokenAct;
use jc_base::name::Name;
use jc_facts::finding::Finding;
use jc_facts::key::Key;
use std::alloc::{AllocError, Global};

// The name once more, if there is one.
fn copy_name(alloc: Global, name: Option<&Name>) -> Result<Option<Name>, AllocError>
    ensures { IfOk result (λ copy. copy ≡ option_map (λ n. n.now) name.entry) }
{
    match name {
        None => Ok(None),
        Some(name) => Ok(Some(name.copy(alloc)?)),
    }
}

// The key once more, if there is one.
fn copy_key(alloc: Global, key: Option<&Key>) -> Result<Option<Key>, AllocError>
    ensures { IfOk result (λ copy. copy ≡ option_map (λ k. k.now) key.entry) }
{
    match key {
        None => Ok(None),
        Some(key) => Ok(Some(key.copy(alloc)?)),
    }
}

/// The finding of the rule on the class, and on the key or the target where there is one, if an act
/// is broken.
///
/// # Errors
///
/// `AllocError` where memory runs out.
pub fn finding(
    alloc: Global,
    rule: u8,
    class: &Name,
    key: Option<&Key>,
    target: Option<&Name>,
    broken: Option<BrokenAct<'_>>,
) -> Result<Option<Finding>, AllocError>
    ensures { IfOk result (λ f. f ≡ found (record { rule = rule; «class» = «class».now; key = option_map (λ k. k.now) key.entry; target = option_map (λ t. t.now) target.entry }) broken.entry) }
{
    let Some(broken) = broken else {
        return Ok(None);
    };
    Ok(Some(Finding {
        rule,
        class: class.copy(alloc)?,
        key: copy_key(alloc, key)?,
        target: copy_name(alloc, target)?,
        act: broken.act,
        seat: copy_name(alloc, broken.seat)?,
        error: broken.error,
    }))
}

/// Adds the item, if there is one.
///
/// # Errors
///
/// `AllocError` where memory runs out.
pub fn push_some<T: Drop>(items: &mut Vec<T>, item: Option<T>) -> Result<(), AllocError>
    ensures { OnOk result (items.new.items ≡ items.old.items ++ cons_option item []) }
{
    match item {
        Some(item) => {
            items.push(item)?;
            Ok(())
        }
        None => Ok(()),
    }
}
