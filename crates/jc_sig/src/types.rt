//! Types in front of bytes: what is read and what follows it, or None where no type of the grammar
//! is in front (JVMS 4.7.9.1). Each call goes on from where the one before ended, so a byte is gone over
//! as a part of an identifier three times at most: in a look ahead, as the name of a package, as a name.
ghost use Rattle.std.specs.Prelude.{◌≡◌, IfOk, length};
ghost use Rattle.std.specs.Option.{option_map};
ghost use Rattle.jc_sig.specs.Grammar.{is_reference};
ghost use Rattle.jc_sig.specs.Reading.{variable_from, type_from, top_from, top_class_from, reference_from, argument_from, list_from, arguments_from, part_from, parts_from, class_from};
ghost use Rattle.jc_sig.specs.Views.{type_view, class_view, part_view, argument_view, parts_view, arguments_view};

use crate::bytes::{after, identifier_at, identifier_before, is_base_letter, names_at};
use crate::tree::{Argument, ClassType, Part, TypeSig};
use jc_base::name::Name;
use std::alloc::{AllocError, Global};

/// How deep types are at most. A type that stands in a signature, a bound or a throws clause has
/// depth 1; what an array is of and what an argument is of are one deeper than the type in which they
/// stand. The virtual machine has no such limit.
const MOST_LEVELS: u8 = 200;

// Any type but a primitive one.
fn is_reference_type(tree: &TypeSig) -> bool
    ensures { result ≡ is_reference (type_view tree.now) }
{
    match tree {
        TypeSig::Base(_) => false,
        TypeSig::Variable(_) => true,
        TypeSig::Array(_) => true,
        TypeSig::Class(_) => true,
    }
}

// A type variable behind its `T`.
fn variable_at(alloc: Global, bytes: &[u8]) -> Result<Option<(TypeSig, &[u8])>, AllocError>
    ensures { IfOk result (λ r. option_map (λ x. (type_view x.0, x.1.now)) r ≡ variable_from bytes.now) }
{
    let Some((name, rest)) = identifier_before(b';', bytes) else {
        return Ok(None);
    };
    Ok(Some((TypeSig::Variable(Name::from_bytes(alloc, name)?), rest)))
}

// A type of at most so many levels.
#[cycle(read)]
#[tactic(auto, unfolding(crate::specs::Reading::type_from))]
fn type_at(alloc: Global, bytes: &[u8], levels: u8) -> Result<Option<(TypeSig, &[u8])>, AllocError>
    ensures { IfOk result (λ r. option_map (λ x. (type_view x.0, x.1.now)) r ≡ type_from levels bytes.now) }
{
    if levels == 0 {
        return Ok(None);
    }
    let Some((first, rest)) = bytes.split_first() else {
        return Ok(None);
    };
    let first = *first;
    if is_base_letter(first) {
        return Ok(Some((TypeSig::Base(first), rest)));
    }
    if first == b'T' {
        let variable = variable_at(alloc, rest)?;
        return Ok(variable);
    }
    if first == b'[' {
        let Some((component, rest)) = type_at(alloc, rest, levels - 1)? else {
            return Ok(None);
        };
        return Ok(Some((TypeSig::Array(Box::new(alloc, component)?), rest)));
    }
    if first == b'L' {
        let Some((class, rest)) = class_at(alloc, rest, levels - 1)? else {
            return Ok(None);
        };
        return Ok(Some((TypeSig::Class(class), rest)));
    }
    Ok(None)
}

// A class type behind its `L`, whose arguments have at most so many levels.
#[cycle(read)]
#[tactic(auto, unfolding(crate::specs::Reading::class_from))]
fn class_at(
    alloc: Global,
    bytes: &[u8],
    levels: u8,
) -> Result<Option<(ClassType, &[u8])>, AllocError>
    ensures { IfOk result (λ r. option_map (λ x. (class_view x.0, x.1.now)) r ≡ class_from (type_from levels) bytes.now) }
{
    let (package, rest) = names_at(alloc, bytes)?;
    let Some((parts, rest)) = parts_at(alloc, rest, levels)? else {
        return Ok(None);
    };
    let Some(rest) = after(b';', rest) else {
        return Ok(None);
    };
    Ok(Some((ClassType { package, parts }, rest)))
}

// A class and its members, with a `.` between each two.
#[cycle(read)]
fn parts_at(
    alloc: Global,
    bytes: &[u8],
    levels: u8,
) -> Result<Option<(Vec<Part>, &[u8])>, AllocError>
    ensures { IfOk result (λ r. option_map (λ x. (parts_view x.0.items, x.1.now)) r ≡ parts_from (type_from levels) (length bytes.now) bytes.now) }
{
    let mut parts = Vec::new(alloc);
    let mut rest = bytes;
    for _ in 0..bytes.len() {
        let Some((part, next)) = part_at(alloc, rest, levels)? else {
            return Ok(None);
        };
        parts.push(part)?;
        let Some(behind) = after(b'.', next) else {
            return Ok(Some((parts, next)));
        };
        rest = behind;
    }
    Ok(None)
}

// The simple name of a class and its arguments.
#[cycle(read)]
#[tactic(auto, unfolding(crate::specs::Reading::part_from))]
fn part_at(alloc: Global, bytes: &[u8], levels: u8) -> Result<Option<(Part, &[u8])>, AllocError>
    ensures { IfOk result (λ r. option_map (λ x. (part_view x.0, x.1.now)) r ≡ part_from (type_from levels) bytes.now) }
{
    let Some((name, rest)) = identifier_at(bytes) else {
        return Ok(None);
    };
    let Some((arguments, rest)) = arguments_at(alloc, rest, levels)? else {
        return Ok(None);
    };
    let name = Name::from_bytes(alloc, name)?;
    Ok(Some((Part { name, arguments }, rest)))
}

// One argument or more between `<` and `>`, or none where no `<` is in front.
#[cycle(read)]
#[tactic(auto, unfolding(crate::specs::Reading::arguments_from))]
fn arguments_at(
    alloc: Global,
    bytes: &[u8],
    levels: u8,
) -> Result<Option<(Vec<Argument>, &[u8])>, AllocError>
    ensures { IfOk result (λ r. option_map (λ x. (arguments_view x.0.items, x.1.now)) r ≡ arguments_from (type_from levels) bytes.now) }
{
    let Some(rest) = after(b'<', bytes) else {
        return Ok(Some((Vec::new(alloc), bytes)));
    };
    let Some((arguments, rest)) = list_at(alloc, rest, levels)? else {
        return Ok(None);
    };
    if arguments.is_empty() {
        return Ok(None);
    }
    Ok(Some((arguments, rest)))
}

// Arguments up to the `>`.
#[cycle(read)]
fn list_at(
    alloc: Global,
    bytes: &[u8],
    levels: u8,
) -> Result<Option<(Vec<Argument>, &[u8])>, AllocError>
    ensures { IfOk result (λ r. option_map (λ x. (arguments_view x.0.items, x.1.now)) r ≡ list_from (type_from levels) (length bytes.now) bytes.now) }
{
    let mut arguments = Vec::new(alloc);
    let mut rest = bytes;
    for _ in 0..bytes.len() {
        if let Some(behind) = after(b'>', rest) {
            return Ok(Some((arguments, behind)));
        }
        let Some((argument, next)) = argument_at(alloc, rest, levels)? else {
            return Ok(None);
        };
        arguments.push(argument)?;
        rest = next;
    }
    Ok(None)
}

// `*`, or a type with nothing, `+` or `-` before it.
#[cycle(read)]
#[tactic(auto, unfolding(crate::specs::Reading::argument_from))]
fn argument_at(
    alloc: Global,
    bytes: &[u8],
    levels: u8,
) -> Result<Option<(Argument, &[u8])>, AllocError>
    ensures { IfOk result (λ r. option_map (λ x. (argument_view x.0, x.1.now)) r ≡ argument_from (type_from levels) bytes.now) }
{
    let Some((first, rest)) = bytes.split_first() else {
        return Ok(None);
    };
    let first = *first;
    if first == b'*' {
        return Ok(Some((Argument::Any, rest)));
    }
    if first == b'+' {
        let Some((bound, rest)) = reference_at(alloc, rest, levels)? else {
            return Ok(None);
        };
        return Ok(Some((Argument::Upper(bound), rest)));
    }
    if first == b'-' {
        let Some((bound, rest)) = reference_at(alloc, rest, levels)? else {
            return Ok(None);
        };
        return Ok(Some((Argument::Lower(bound), rest)));
    }
    let Some((exact, rest)) = reference_at(alloc, bytes, levels)? else {
        return Ok(None);
    };
    Ok(Some((Argument::Exact(exact), rest)))
}

// A type that isn't primitive, of at most so many levels.
#[cycle(read)]
#[tactic(auto, unfolding(crate::specs::Reading::reference_from))]
fn reference_at(
    alloc: Global,
    bytes: &[u8],
    levels: u8,
) -> Result<Option<(TypeSig, &[u8])>, AllocError>
    ensures { IfOk result (λ r. option_map (λ x. (type_view x.0, x.1.now)) r ≡ reference_from (type_from levels) bytes.now) }
{
    let Some((tree, rest)) = type_at(alloc, bytes, levels)? else {
        return Ok(None);
    };
    if !is_reference_type(&tree) {
        return Ok(None);
    }
    Ok(Some((tree, rest)))
}

/// A type that stands in a signature (JavaTypeSignature).
///
/// # Errors
///
/// `AllocError` where memory runs out.
pub fn top_at(alloc: Global, bytes: &[u8]) -> Result<Option<(TypeSig, &[u8])>, AllocError>
    ensures { IfOk result (λ r. option_map (λ x. (type_view x.0, x.1.now)) r ≡ top_from bytes.now) }
{
    type_at(alloc, bytes, MOST_LEVELS)
}

/// The same, but no primitive type (ReferenceTypeSignature).
///
/// # Errors
///
/// `AllocError` where memory runs out.
pub fn bound_at(alloc: Global, bytes: &[u8]) -> Result<Option<(TypeSig, &[u8])>, AllocError>
    ensures { IfOk result (λ r. option_map (λ x. (type_view x.0, x.1.now)) r ≡ reference_from top_from bytes.now) }
{
    reference_at(alloc, bytes, MOST_LEVELS)
}

/// The same, but a class type alone (ClassTypeSignature).
///
/// # Errors
///
/// `AllocError` where memory runs out.
#[tactic(auto, unfolding(crate::specs::Reading::top_class_from))]
pub fn top_class_at(alloc: Global, bytes: &[u8]) -> Result<Option<(ClassType, &[u8])>, AllocError>
    ensures { IfOk result (λ r. option_map (λ x. (class_view x.0, x.1.now)) r ≡ top_class_from bytes.now) }
{
    let Some((tree, rest)) = top_at(alloc, bytes)? else {
        return Ok(None);
    };
    match tree {
        TypeSig::Base(_) => Ok(None),
        TypeSig::Variable(_) => Ok(None),
        TypeSig::Array(_) => Ok(None),
        TypeSig::Class(class) => Ok(Some((class, rest))),
    }
}
