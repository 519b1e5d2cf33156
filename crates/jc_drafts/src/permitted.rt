//! Names of clients that a class permits to extend it (JVMS 4.7.31).
ghost use Rattle.std.specs.Prelude.{◌≡◌, ◌&&◌, not, IfOk};
ghost use Rattle.std.specs.Option.{option_copied};
ghost use Rattle.jc_facts.specs.Names.{is_name_among};
ghost use Rattle.jc_promises.specs.rule.Bases.{allowed};
ghost use Rattle.jc_facts.specs.world.Mentioned.{permitted};
ghost use Rattle.jc_promises.specs.plan.PlannedNames.{least_name, permitted_name, missing_name};

use crate::classes::record_of;
use crate::lowest::lowest_with;
use jc_base::name::Name;
use jc_facts::class_facts::ClassFacts;
use jc_index::name_set::NameSet;
use jc_sides::clients::{excludes_clients, is_left_out, set_of};
use jc_sides::sides::Sides;
use std::alloc::{AllocError, Global};

// The first in byte order of the names that clients of both sides may have and that are none of the
// others.
pub(crate) fn first_allowed<'a>(
    sides: &Sides<'_>,
    names: &'a [Name],
    others: &NameSet,
) -> Option<&'a Name>
    ensures { option_copied result ≡ least_name (λ x. allowed sides.now.old sides.now.new x && not (is_name_among others.now x)) names.now }
{
    let mut lowest = None;
    for name in names {
        lowest = lowest_with(lowest, name, is_left_out(sides, name, others));
    }
    lowest
}

// The names that the class permits, none where it has no such list.
pub(crate) fn names_of<'a>(class: &'a ClassFacts) -> &'a [Name]
    ensures { result.now ≡ permitted «class».now.permits }
{
    match &class.permits {
        Some(names) => names.as_slice(),
        None => &[],
    }
}

/// The first in byte order of the names that the class permits on the old side and that clients of
/// both sides may have; none where there is none.
///
/// # Errors
///
/// `AllocError` where memory runs out.
pub fn permitted_of<'a>(
    alloc: Global,
    sides: &Sides<'a>,
    class: &Name,
) -> Result<Option<&'a Name>, AllocError>
    ensures { IfOk result (λ name. option_copied name ≡ permitted_name sides.now.old sides.now.new «class».now) }
{
    let Some(before) = record_of(sides.old, class) else {
        return Ok(None);
    };
    let none = set_of(alloc, &[])?;
    Ok(first_allowed(sides, names_of(before), &none))
}

/// The same of the names that the class doesn't permit on the new side, where it has such a list
/// there and is in the module of the clients.
///
/// # Errors
///
/// `AllocError` where memory runs out.
pub fn missing_of<'a>(
    alloc: Global,
    sides: &Sides<'a>,
    class: &Name,
) -> Result<Option<&'a Name>, AllocError>
    ensures { IfOk result (λ name. option_copied name ≡ missing_name sides.now.old sides.now.new «class».now) }
{
    let Some(before) = record_of(sides.old, class) else {
        return Ok(None);
    };
    let Some(after) = record_of(sides.new, class) else {
        return Ok(None);
    };
    if excludes_clients(sides.new, after) {
        return Ok(None);
    }
    let Some(names) = &after.permits else {
        return Ok(None);
    };
    let others = set_of(alloc, names.as_slice())?;
    Ok(first_allowed(sides, names_of(before), &others))
}
