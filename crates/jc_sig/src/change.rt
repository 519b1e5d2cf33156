//! What has changed between two signatures.
ghost use Rattle.std.specs.Prelude.{◌≡◌, IfOk, option_map};
ghost use Rattle.std.specs.Option.{option_eq};
ghost use Rattle.jc_facts.specs.Names.{same, is_descriptor_of_method};
ghost use Rattle.jc_sig.specs.Reading.{class_sig_of, method_sig_of, field_sig_of};
ghost use Rattle.jc_sig.specs.Views.{class_sig_view, method_sig_view, type_view, parameters_view, class_view, types_view};
ghost use Rattle.jc_sig.specs.Trees.{type_parameters_text, class_text, types_text, result_text};
ghost use Rattle.jc_sig.specs.Notes.{class_part, method_part, field_part, change_of};
ghost use Rattle.jc_sig.specs.steps.Changes.{class_change, member_change};

use crate::read::{read_class_sig, read_field_sig, read_method_sig};
use crate::tree::{ClassSig, ClassType, MethodSig, Parameter, TypeSig};
use crate::write::{put_class, put_result, put_type_parameters, put_types};
use jc_facts::key::Key;
use jc_facts::sig_note::SigChange;
use std::alloc::{AllocError, Global};

// ---- parts, as texts

fn type_parameters(alloc: Global, parameters: &[Parameter]) -> Result<Vec<u8>, AllocError>
    ensures { IfOk result (λ text. text.items ≡ type_parameters_text (parameters_view parameters.now)) }
{
    let mut text = Vec::new(alloc);
    put_type_parameters(&mut text, parameters)?;
    Ok(text)
}

fn class_type(alloc: Global, class: &ClassType) -> Result<Vec<u8>, AllocError>
    ensures { IfOk result (λ text. text.items ≡ class_text (class_view «class».now)) }
{
    let mut text = Vec::new(alloc);
    put_class(&mut text, class)?;
    Ok(text)
}

fn types(alloc: Global, types: &[TypeSig]) -> Result<Vec<u8>, AllocError>
    ensures { IfOk result (λ text. text.items ≡ types_text (types_view types.now)) }
{
    let mut text = Vec::new(alloc);
    put_types(&mut text, types)?;
    Ok(text)
}

fn outcome(alloc: Global, tree: &Option<TypeSig>) -> Result<Vec<u8>, AllocError>
    ensures { IfOk result (λ text. text.items ≡ result_text (option_map type_view tree.now)) }
{
    let mut text = Vec::new(alloc);
    put_result(&mut text, tree)?;
    Ok(text)
}

// The first part in which they differ, one after the other.
fn part_of_class(alloc: Global, old: &ClassSig, new: &ClassSig) -> Result<SigChange, AllocError>
    ensures { IfOk result (λ change. change ≡ class_part (class_sig_view old.now) (class_sig_view new.now)) }
{
    let was = type_parameters(alloc, old.parameters.as_slice())?;
    let now = type_parameters(alloc, new.parameters.as_slice())?;
    if was.as_slice() != now.as_slice() {
        return Ok(SigChange::Parameters);
    }
    let was = class_type(alloc, &old.superclass)?;
    let now = class_type(alloc, &new.superclass)?;
    if was.as_slice() != now.as_slice() {
        return Ok(SigChange::Superclass);
    }
    Ok(SigChange::Interfaces)
}

fn part_of_method(alloc: Global, old: &MethodSig, new: &MethodSig) -> Result<SigChange, AllocError>
    ensures { IfOk result (λ change. change ≡ method_part (method_sig_view old.now) (method_sig_view new.now)) }
{
    let was = type_parameters(alloc, old.parameters.as_slice())?;
    let now = type_parameters(alloc, new.parameters.as_slice())?;
    if was.as_slice() != now.as_slice() {
        return Ok(SigChange::Parameters);
    }
    let was = types(alloc, old.arguments.as_slice())?;
    let now = types(alloc, new.arguments.as_slice())?;
    if was.as_slice() != now.as_slice() {
        return Ok(SigChange::Arguments);
    }
    let was = outcome(alloc, &old.result)?;
    let now = outcome(alloc, &new.result)?;
    if was.as_slice() != now.as_slice() {
        return Ok(SigChange::Result);
    }
    Ok(SigChange::Throws)
}

// ---- texts that may not be there, as they are read

fn read_class(alloc: Global, text: Option<&[u8]>) -> Result<Option<Option<ClassSig>>, AllocError>
    ensures { IfOk result (λ r. option_map (λ o. option_map class_sig_view o) r ≡ option_map class_sig_of (option_map (λ t. t.now) text.entry)) }
{
    match text {
        None => Ok(None),
        Some(text) => {
            let read = read_class_sig(alloc, text)?;
            Ok(Some(read))
        }
    }
}

fn read_method(alloc: Global, text: Option<&[u8]>) -> Result<Option<Option<MethodSig>>, AllocError>
    ensures { IfOk result (λ r. option_map (λ o. option_map method_sig_view o) r ≡ option_map method_sig_of (option_map (λ t. t.now) text.entry)) }
{
    match text {
        None => Ok(None),
        Some(text) => {
            let read = read_method_sig(alloc, text)?;
            Ok(Some(read))
        }
    }
}

fn read_field(alloc: Global, text: Option<&[u8]>) -> Result<Option<Option<TypeSig>>, AllocError>
    ensures { IfOk result (λ r. option_map (λ o. option_map type_view o) r ≡ option_map field_sig_of (option_map (λ t. t.now) text.entry)) }
{
    match text {
        None => Ok(None),
        Some(text) => {
            let read = read_field_sig(alloc, text)?;
            Ok(Some(read))
        }
    }
}

// ---- the first change that holds

fn of_classes(
    alloc: Global,
    old: &Option<Option<ClassSig>>,
    new: &Option<Option<ClassSig>>,
) -> Result<SigChange, AllocError>
    ensures { IfOk result (λ change. change ≡ change_of class_part (option_map (λ o. option_map class_sig_view o) old.now) (option_map (λ o. option_map class_sig_view o) new.now)) }
{
    let Some(old) = old else {
        let Some(new) = new else {
            return Ok(SigChange::Whole);
        };
        return match new {
            None => Ok(SigChange::Unread),
            Some(_) => Ok(SigChange::New),
        };
    };
    let Some(old) = old else {
        return Ok(SigChange::Unread);
    };
    let Some(new) = new else {
        return Ok(SigChange::Gone);
    };
    let Some(new) = new else {
        return Ok(SigChange::Unread);
    };
    let change = part_of_class(alloc, old, new)?;
    Ok(change)
}

fn of_methods(
    alloc: Global,
    old: &Option<Option<MethodSig>>,
    new: &Option<Option<MethodSig>>,
) -> Result<SigChange, AllocError>
    ensures { IfOk result (λ change. change ≡ change_of method_part (option_map (λ o. option_map method_sig_view o) old.now) (option_map (λ o. option_map method_sig_view o) new.now)) }
{
    let Some(old) = old else {
        let Some(new) = new else {
            return Ok(SigChange::Whole);
        };
        return match new {
            None => Ok(SigChange::Unread),
            Some(_) => Ok(SigChange::New),
        };
    };
    let Some(old) = old else {
        return Ok(SigChange::Unread);
    };
    let Some(new) = new else {
        return Ok(SigChange::Gone);
    };
    let Some(new) = new else {
        return Ok(SigChange::Unread);
    };
    let change = part_of_method(alloc, old, new)?;
    Ok(change)
}

fn of_fields(old: &Option<Option<TypeSig>>, new: &Option<Option<TypeSig>>) -> SigChange
    ensures { result ≡ change_of field_part (option_map (λ o. option_map type_view o) old.now) (option_map (λ o. option_map type_view o) new.now) }
{
    let Some(old) = old else {
        let Some(new) = new else {
            return SigChange::Whole;
        };
        return match new {
            None => SigChange::Unread,
            Some(_) => SigChange::New,
        };
    };
    let Some(_) = old else {
        return SigChange::Unread;
    };
    let Some(new) = new else {
        return SigChange::Gone;
    };
    match new {
        None => SigChange::Unread,
        Some(_) => SigChange::Whole,
    }
}

// ---- of texts

/// Whether the two texts are equal, or both aren't there.
pub(crate) fn are_same(was: Option<&[u8]>, now: Option<&[u8]>) -> bool
    ensures { result ≡ option_eq same (option_map (λ t. t.now) was.entry) (option_map (λ t. t.now) now.entry) }
{
    match was {
        None => now.is_none(),
        Some(was) => match now {
            None => false,
            Some(now) => was == now,
        },
    }
}

/// What has changed between two signatures of a class that aren't the same.
///
/// # Errors
///
/// `AllocError` where memory runs out.
pub(crate) fn of_class(
    alloc: Global,
    was: Option<&[u8]>,
    now: Option<&[u8]>,
) -> Result<SigChange, AllocError>
    ensures { IfOk result (λ change. change ≡ class_change (option_map (λ t. t.now) was.entry) (option_map (λ t. t.now) now.entry)) }
{
    let old = read_class(alloc, was)?;
    let new = read_class(alloc, now)?;
    let change = of_classes(alloc, &old, &new)?;
    Ok(change)
}

fn is_method(key: &Key) -> bool
    ensures { result ≡ is_descriptor_of_method key.now.descriptor }
{
    match key.descriptor.as_bytes() {
        [first, ..] => *first == b'(',
        [] => false,
    }
}

/// What has changed between two signatures of a field or a method that aren't the same.
///
/// # Errors
///
/// `AllocError` where memory runs out.
pub(crate) fn of_member(
    alloc: Global,
    key: &Key,
    was: Option<&[u8]>,
    now: Option<&[u8]>,
) -> Result<SigChange, AllocError>
    ensures { IfOk result (λ change. change ≡ member_change (is_descriptor_of_method key.now.descriptor) (option_map (λ t. t.now) was.entry) (option_map (λ t. t.now) now.entry)) }
{
    if is_method(key) {
        let old = read_method(alloc, was)?;
        let new = read_method(alloc, now)?;
        let change = of_methods(alloc, &old, &new)?;
        return Ok(change);
    }
    let old = read_field(alloc, was)?;
    let new = read_field(alloc, now)?;
    Ok(of_fields(&old, &new))
}
