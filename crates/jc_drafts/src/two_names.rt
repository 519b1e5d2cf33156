//! Names of two clients, one below each of two classes, that such classes permit (JVMS 4.7.31).
ghost use Rattle.std.specs.Prelude.{◌≡◌, ◌&&◌, IfOk};
ghost use Rattle.std.specs.Option.{option_copied};
ghost use Rattle.jc_promises.specs.rule.Apart.{has_other};
ghost use Rattle.jc_promises.specs.rule.Bases.{allowed};
ghost use Rattle.jc_promises.specs.plan.PlannedNames.{least_name, leaves_another, permitted_beside, permitted_other};

use crate::classes::record_of;
use crate::permitted::{first_allowed, names_of, permitted_of};
use jc_base::items::Items;
use jc_base::name::Name;
use jc_sides::clients::set_of;
use jc_sides::sides::Sides;
use std::alloc::{AllocError, Global};
use std::slice;

// The first in byte order of the names that clients of both sides may have and that leave another one
// of the others to a second client. Each list is gone over at most twice.
fn first_of_two<'a>(
    alloc: Global,
    sides: &Sides<'_>,
    names: &'a [Name],
    others: &[Name],
) -> Result<Option<&'a Name>, AllocError>
    ensures { IfOk result (λ name. option_copied name ≡ least_name (λ x. allowed sides.now.old sides.now.new x && has_other sides.now.old sides.now.new x others.now) names.now) }
{
    let none = set_of(alloc, &[])?;
    let Some(only) = first_allowed(sides, others, &none) else {
        return Ok(None);
    };
    let taken = set_of(alloc, slice::from_ref(only))?;
    if first_allowed(sides, others, &taken).is_some() {
        return Ok(first_allowed(sides, names, &none));
    }
    Ok(first_allowed(sides, names, &taken))
}

// The same, where a class without permitted names leaves any name.
fn first_beside_class<'a>(
    alloc: Global,
    sides: &Sides<'_>,
    names: &'a [Name],
    others: &Option<Items<Name>>,
) -> Result<Option<&'a Name>, AllocError>
    ensures { IfOk result (λ name. option_copied name ≡ least_name (λ x. allowed sides.now.old sides.now.new x && leaves_another sides.now.old sides.now.new x others.now) names.now) }
{
    match others {
        None => {
            let none = set_of(alloc, &[])?;
            Ok(first_allowed(sides, names, &none))
        }
        Some(others) => first_of_two(alloc, sides, names, others.as_slice()),
    }
}

/// The first in byte order of the names that the class permits on the old side, that clients of both
/// sides may have, and beside which the other class leaves a second client another name; none where
/// there is none.
///
/// # Errors
///
/// `AllocError` where memory runs out.
pub fn beside_of<'a>(
    alloc: Global,
    sides: &Sides<'a>,
    class: &Name,
    other: &Name,
) -> Result<Option<&'a Name>, AllocError>
    ensures { IfOk result (λ name. option_copied name ≡ permitted_beside sides.now.old sides.now.new «class».now other.now) }
{
    let Some(beside) = record_of(sides.old, other) else {
        return permitted_of(alloc, sides, class);
    };
    let Some(before) = record_of(sides.old, class) else {
        return Ok(None);
    };
    first_beside_class(alloc, sides, names_of(before), &beside.permits)
}

/// The first in byte order of the names that the class permits on the old side, that clients of both
/// sides may have, and that aren't this one; none where there is none.
///
/// # Errors
///
/// `AllocError` where memory runs out.
pub fn other_of<'a>(
    alloc: Global,
    sides: &Sides<'a>,
    class: &Name,
    taken: &Name,
) -> Result<Option<&'a Name>, AllocError>
    ensures { IfOk result (λ name. option_copied name ≡ permitted_other sides.now.old sides.now.new taken.now «class».now) }
{
    let Some(before) = record_of(sides.old, class) else {
        return Ok(None);
    };
    let taken = set_of(alloc, slice::from_ref(taken))?;
    Ok(first_allowed(sides, names_of(before), &taken))
}
