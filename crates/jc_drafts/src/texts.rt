//! The names and descriptors of which planned clients are made (JVMS 4.2.1, 4.3.3).
ghost use Rattle.std.specs.Prelude.{◌≡◌, ◌++◌, map, IfOk, OnOk};
ghost use Rattle.jc_desc.specs.Types.{type_text, types_text};
ghost use Rattle.jc_facts.specs.Names.{object_name};
ghost use Rattle.jc_promises.specs.plan.Planned.{class_type, takes, takes_nothing, turns, turns_behind};

use jc_base::name::Name;
use std::alloc::{AllocError, Global};

/// `java/lang/Object`.
///
/// # Errors
///
/// `AllocError` where memory runs out.
pub fn root_name(alloc: Global) -> Result<Name, AllocError>
    ensures { IfOk result (λ name. name ≡ object_name) }
{
    Name::from_bytes(alloc, b"java/lang/Object")
}

fn push_class(bytes: &mut Vec<u8>, class: &Name) -> Result<(), AllocError>
    ensures { OnOk result (bytes.new.items ≡ bytes.old.items ++ type_text (class_type class.now)) }
{
    bytes.push(b'L')?;
    bytes.extend_from_slice(class.as_bytes())?;
    Ok(bytes.push(b';')?)
}

/// The descriptor of a field of the class.
///
/// # Errors
///
/// `AllocError` where memory runs out.
pub fn of_class(alloc: Global, class: &Name) -> Result<Name, AllocError>
    ensures { IfOk result (λ descriptor. descriptor ≡ type_text (class_type class.now)) }
{
    let mut bytes = Vec::new(alloc);
    push_class(&mut bytes, class)?;
    Name::from_bytes(alloc, bytes.as_slice())
}

/// The descriptor of a method that takes and returns nothing.
///
/// # Errors
///
/// `AllocError` where memory runs out.
pub fn without_parameters(alloc: Global) -> Result<Name, AllocError>
    ensures { IfOk result (λ descriptor. descriptor ≡ takes_nothing) }
{
    Name::from_bytes(alloc, b"()V")
}

/// The descriptor of a method that takes an object of the class and returns nothing.
///
/// # Errors
///
/// `AllocError` where memory runs out.
pub fn with_parameter(alloc: Global, class: &Name) -> Result<Name, AllocError>
    ensures { IfOk result (λ descriptor. descriptor ≡ takes class.now) }
{
    let mut bytes = Vec::from_slice(alloc, b"(")?;
    push_class(&mut bytes, class)?;
    bytes.extend_from_slice(b")V")?;
    Name::from_bytes(alloc, bytes.as_slice())
}

// The types of these classes.
fn push_classes(bytes: &mut Vec<u8>, classes: &[Name]) -> Result<(), AllocError>
    ensures { OnOk result (bytes.new.items ≡ bytes.old.items ++ types_text (map class_type classes.now)) }
{
    for class in classes {
        push_class(bytes, class)?;
    }
    Ok(())
}

/// The descriptor of a method that takes objects of these classes and then one of another class, and
/// returns one of a third.
///
/// # Errors
///
/// `AllocError` where memory runs out.
#[tactic(auto, using(crate::proofs::ExposedParts::turns_parts))]
pub fn from_behind(
    alloc: Global,
    before: &[Name],
    from: &Name,
    to: &Name,
) -> Result<Name, AllocError>
    ensures { IfOk result (λ descriptor. descriptor ≡ turns_behind before.now from.now to.now) }
{
    let mut bytes = Vec::from_slice(alloc, b"(")?;
    push_classes(&mut bytes, before)?;
    push_class(&mut bytes, from)?;
    bytes.push(b')')?;
    push_class(&mut bytes, to)?;
    Name::from_bytes(alloc, bytes.as_slice())
}

/// The descriptor of a method that takes an object of one class and returns one of another.
///
/// # Errors
///
/// `AllocError` where memory runs out.
pub fn from_to(alloc: Global, from: &Name, to: &Name) -> Result<Name, AllocError>
    ensures { IfOk result (λ descriptor. descriptor ≡ turns from.now to.now) }
{
    let mut bytes = Vec::from_slice(alloc, b"(")?;
    push_class(&mut bytes, from)?;
    bytes.push(b')')?;
    push_class(&mut bytes, to)?;
    Name::from_bytes(alloc, bytes.as_slice())
}
