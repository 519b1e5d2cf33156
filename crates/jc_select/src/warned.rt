//! What is warned of on a base: what its chain and the interfaces above it give to be selected.
ghost use Rattle.std.specs.Prelude.{◌≡◌, Bool, IfOk, IsTrue, None};
ghost use Rattle.std.specs.List.{filter_map};
ghost use Rattle.jc_acts.specs.Seats.{AreSeats};
ghost use Rattle.jc_select.specs.steps.Warned.{parts_differ, warned, warning_of};
ghost use Rattle.jc_facts.specs.Exactly.{HasExactly};
ghost use Rattle.jc_select.specs.steps.Changes.{AreChanges};
ghost use Rattle.jc_sides.specs.Rules.{IsOf};
ghost use Rattle.jc_sides.specs.SharedOf.{IsShared, name_of};
ghost use Rattle.jc_sides.specs.SidesOf.{AreSides};
ghost use Rattle.jc_promises.specs.rule.Selection.{chain_kind};
ghost use Rattle.jc_facts.specs.declared.warning.ChainKind.TheVariants.{Nothing, Concrete};
ghost use Rattle.jc_promises.specs.rule.Warnings.{is_base, warn_kind, warning_at, warning_order, WarningStands};

use crate::asked::asked_keys;
use crate::chain::chain_kind;
use crate::parts::parts_differ;
use jc_acts::seats::Seats;
use jc_base::items::Items;
use jc_desc::names::is_initializer;
use jc_facts::key::Key;
use jc_facts::warning::{ChainKind, WarnKind, Warning};
use jc_sides::found::push_some;
use jc_sides::item_rule::in_order;
use jc_sides::shared::Shared;
use jc_sides::sides::Sides;
use std::alloc::{AllocError, Global};

// What is warned of where the chain had a method that could run.
fn where_concrete(now: ChainKind) -> Option<WarnKind>
    ensures { (differ : Bool) → result ≡ warn_kind Concrete now differ }
{
    match now {
        ChainKind::Concrete => None,
        ChainKind::Nothing => Some(WarnKind::Lost),
        ChainKind::Abstract => Some(WarnKind::Lost),
    }
}

// What is warned of where neither chain has anything.
fn where_differ(differ: bool) -> Option<WarnKind>
    ensures { result ≡ warn_kind Nothing Nothing differ }
{
    if differ {
        Some(WarnKind::Defaults)
    } else {
        None
    }
}

// What is warned of where the chain had nothing.
fn where_nothing(
    alloc: Global,
    sides: &Sides<'_>,
    class: &Shared<'_>,
    key: &Key,
    now: ChainKind,
) -> Result<Option<WarnKind>, AllocError>
    requires shared { IsShared sides.now «class».now }
    requires covered { IsTrue (is_base sides.now.old sides.now.new (name_of «class».now)) }
    ensures { IfOk result (λ kind. kind ≡ warn_kind Nothing now (parts_differ sides.now (name_of «class».now) key.now)) }
{
    match now {
        ChainKind::Concrete => Ok(None),
        ChainKind::Abstract => Ok(Some(WarnKind::Abstract)),
        ChainKind::Nothing => {
            let differ = parts_differ(alloc, sides, class, key)?;
            Ok(where_differ(differ))
        }
    }
}

// What is warned of on the base and the key, which isn't an initializer's.
fn changed(
    alloc: Global,
    sides: &Sides<'_>,
    class: &Shared<'_>,
    key: &Key,
) -> Result<Option<WarnKind>, AllocError>
    requires shared { IsShared sides.now «class».now }
    requires covered { IsTrue (is_base sides.now.old sides.now.new (name_of «class».now)) }
    ensures { IfOk result (λ kind. kind ≡ warn_kind (chain_kind sides.now.old (name_of «class».now) key.now) (chain_kind sides.now.new (name_of «class».now) key.now) (parts_differ sides.now (name_of «class».now) key.now)) }
{
    let before = chain_kind(sides.old, class.old, key);
    let now = chain_kind(sides.new, class.new, key);
    match before {
        ChainKind::Concrete => Ok(where_concrete(now)),
        ChainKind::Abstract => Ok(None),
        ChainKind::Nothing => where_nothing(alloc, sides, class, key, now),
    }
}

// The kind of the warning on the base and the key, if there is one.
fn warn_kind(
    alloc: Global,
    sides: &Sides<'_>,
    class: &Shared<'_>,
    key: &Key,
) -> Result<Option<WarnKind>, AllocError>
    requires shared { IsShared sides.now «class».now }
    requires covered { IsTrue (is_base sides.now.old sides.now.new (name_of «class».now)) }
    ensures { IfOk result (λ kind. kind ≡ warning_at sides.now.old sides.now.new (name_of «class».now) key.now) }
{
    if is_initializer(key.name.as_bytes()) {
        return Ok(None);
    }
    changed(alloc, sides, class, key)
}

// The warning of this kind, if there is one.
fn warning(
    alloc: Global,
    class: &Shared<'_>,
    key: &Key,
    kind: Option<WarnKind>,
) -> Result<Option<Warning>, AllocError>
    ensures { IfOk result (λ w. w ≡ warning_of (name_of «class».now) key.now kind) }
{
    match kind {
        None => Ok(None),
        Some(kind) => Ok(Some(Warning {
            class: class.name.copy(alloc)?,
            key: key.copy(alloc)?,
            kind,
        })),
    }
}

// The warning on the base and the key, if there is one.
fn on_key(
    alloc: Global,
    sides: &Sides<'_>,
    class: &Shared<'_>,
    key: &Key,
) -> Result<Option<Warning>, AllocError>
    requires shared { IsShared sides.now «class».now }
    requires covered { IsTrue (is_base sides.now.old sides.now.new (name_of «class».now)) }
    ensures { IfOk result (λ w. w ≡ warned sides.now (name_of «class».now) key.now) }
{
    let kind = warn_kind(alloc, sides, class, key)?;
    let made = warning(alloc, class, key, kind)?;
    Ok(made)
}

// The warnings on the base and these keys, in their order.
fn on_keys(
    alloc: Global,
    sides: &Sides<'_>,
    class: &Shared<'_>,
    keys: &[Key],
) -> Result<Vec<Warning>, AllocError>
    requires shared { IsShared sides.now «class».now }
    requires covered { IsTrue (is_base sides.now.old sides.now.new (name_of «class».now)) }
    ensures { IfOk result (λ made. made.items ≡ filter_map (warned sides.now (name_of «class».now)) keys.now) }
{
    let mut warnings = Vec::new(alloc);
    for key in keys {
        push_some(&mut warnings, on_key(alloc, sides, class, key)?)?;
    }
    Ok(warnings)
}

/// The warnings on the base, in the order of the keys.
///
/// # Errors
///
/// `AllocError` where memory runs out.
pub fn of_base(
    alloc: Global,
    sides: &Sides<'_>,
    seats: &Seats<'_>,
    changes: &[Items<Key>],
    class: &Shared<'_>,
) -> Result<Vec<Warning>, AllocError>
    requires sides { AreSides sides.now }
    requires seats { AreSeats sides.now seats.now }
    requires changes { AreChanges sides.now changes.now }
    requires shared { IsShared sides.now «class».now }
    requires covered { IsTrue (is_base sides.now.old sides.now.new (name_of «class».now)) }
    ensures { IfOk result (λ made. HasExactly warning_order (IsOf (λ w. w.«class») (WarningStands sides.now.old sides.now.new) (name_of «class».now)) made.items) }
{
    let asked = asked_keys(alloc, sides, seats, changes, class)?;
    let sorted = in_order(alloc, asked)?;
    let made = on_keys(alloc, sides, class, sorted.as_slice())?;
    Ok(made)
}
