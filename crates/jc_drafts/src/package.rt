//! The package of planned clients.
ghost use Rattle.std.specs.Prelude.{◌≡◌, ◌||◌, IfOk};
ghost use Rattle.jc_facts.specs.world.Mentioned.{mentioned};
ghost use Rattle.jc_index.specs.Mentioned.{mentions_front};
ghost use Rattle.jc_promises.specs.plan.PlannedNames.{package_number, in_package, is_used, fresh_package};

use jc_base::name::Name;
use jc_sides::sides::Sides;
use std::alloc::{AllocError, Global};

// The package w0, w1, w2 and so on.
fn numbered(alloc: Global, number: usize) -> Result<Name, AllocError>
    ensures { IfOk result (λ name. name ≡ package_number number) }
{
    let name = format!(in alloc; "w{number}")?;
    let package = Name::from_bytes(alloc, name.as_str().as_bytes())?;
    Ok(package)
}

/// A name of the package.
///
/// # Errors
///
/// `AllocError` where memory runs out.
pub fn name_in(alloc: Global, package: &Name, simple: &[u8]) -> Result<Name, AllocError>
    ensures { IfOk result (λ name. name ≡ in_package «package».now simple.now) }
{
    let mut bytes = Vec::from_slice(alloc, package.as_bytes())?;
    bytes.push(b'/')?;
    bytes.extend_from_slice(simple)?;
    let name = Name::from_bytes(alloc, bytes.as_slice())?;
    Ok(name)
}

// Whether a name that one of the sides mentions begins with these bytes.
fn is_mentioned(sides: &Sides<'_>, front: &[u8]) -> bool
    ensures { result ≡ (mentions_front sides.now.old front.now || mentions_front sides.now.new front.now) }
{
    sides.old.begins(front) || sides.new.begins(front)
}

// Whether a name that one of the sides mentions is in the package.
fn is_in_use(alloc: Global, sides: &Sides<'_>, package: &Name) -> Result<bool, AllocError>
    ensures { IfOk result (λ used. used ≡ is_used (mentioned sides.now.old sides.now.new) «package».now) }
{
    let front = name_in(alloc, package, b"")?;
    Ok(is_mentioned(sides, front.as_bytes()))
}

/// The first of w0, w1, w2 and so on in which neither side mentions a name.
///
/// # Errors
///
/// `AllocError` where memory runs out.
pub fn fresh(alloc: Global, sides: &Sides<'_>) -> Result<Name, AllocError>
    ensures { IfOk result (λ name. name ≡ fresh_package sides.now.old sides.now.new) }
{
    // Each name is of one package at most, so that one of more packages than names is free.
    let names = sides.old.mention_count() + sides.new.mention_count();
    for number in 0..names {
        let package = numbered(alloc, number)?;
        if !is_in_use(alloc, sides, &package)? {
            return Ok(package);
        }
    }
    let package = numbered(alloc, names)?;
    Ok(package)
}
