//! Writing signatures (JVMS 4.7.9.1). What puts a part of a signature adds its text to bytes, and parts
//! of valid signatures are the same exactly where these texts are.
ghost use Rattle.std.specs.Prelude.{◌≡◌, ◌++◌, [], IfOk, OnOk};
ghost use Rattle.std.specs.Option.{option_map};
ghost use Rattle.jc_sig.specs.Trees.{package_text, type_text, class_text, part_text, argument_text, types_text, classes_text, bound_text, bounds_text, parameter_text, parameters_text, type_parameters_text, result_text, throws_text, class_sig_text, method_sig_text};
ghost use Rattle.jc_sig.specs.steps.Dots.{dot};
ghost use Rattle.jc_sig.specs.Grammar.{IsClassSig, IsMethodSig, IsFieldSig};
ghost use Rattle.jc_sig.specs.Views.{type_view, class_view, part_view, argument_view, types_view, classes_view, parameter_view, parameters_view, class_sig_view, method_sig_view};

use crate::tree::{Argument, ClassSig, ClassType, MethodSig, Parameter, Part, TypeSig};
use jc_base::name::Name;
use std::alloc::{AllocError, Global};

// With a `/` behind each.
fn put_names(out: &mut Vec<u8>, names: &[Name]) -> Result<(), AllocError>
    ensures { OnOk result (out.new.items ≡ out.old.items ++ package_text names.now) }
{
    for name in names {
        out.extend_from_slice(name.as_bytes())?;
        out.push(b'/')?;
    }
    Ok(())
}

#[cycle(put)]
fn put_type(out: &mut Vec<u8>, tree: &TypeSig) -> Result<(), AllocError>
    ensures { OnOk result (out.new.items ≡ out.old.items ++ type_text (type_view tree.now)) }
{
    match tree {
        TypeSig::Base(letter) => {
            out.push(*letter)?;
            Ok(())
        }
        TypeSig::Variable(name) => {
            out.push(b'T')?;
            out.extend_from_slice(name.as_bytes())?;
            out.push(b';')?;
            Ok(())
        }
        TypeSig::Array(component) => {
            out.push(b'[')?;
            put_type(out, component)?;
            Ok(())
        }
        TypeSig::Class(class) => {
            put_class(out, class)?;
            Ok(())
        }
    }
}

// A `.` before every part but the first.
fn put_dot(out: &mut Vec<u8>, place: usize) -> Result<(), AllocError>
    ensures { OnOk result (out.new.items ≡ out.old.items ++ dot place) }
{
    if place == 0 {
        return Ok(());
    }
    out.push(b'.')?;
    Ok(())
}

/// Adds the text of a class type (ClassTypeSignature).
///
/// # Errors
///
/// `AllocError` where memory runs out; then a part of it may be there.
#[cycle(put)]
pub fn put_class(out: &mut Vec<u8>, class: &ClassType) -> Result<(), AllocError>
    ensures { OnOk result (out.new.items ≡ out.old.items ++ class_text (class_view «class».now)) }
{
    out.push(b'L')?;
    put_names(out, class.package.as_slice())?;
    for (i, part) in class.parts.iter().enumerate() {
        put_dot(out, i)?;
        put_part(out, part)?;
    }
    out.push(b';')?;
    Ok(())
}

#[cycle(put)]
fn put_part(out: &mut Vec<u8>, part: &Part) -> Result<(), AllocError>
    ensures { OnOk result (out.new.items ≡ out.old.items ++ part_text (part_view part.now)) }
{
    out.extend_from_slice(part.name.as_bytes())?;
    if part.arguments.is_empty() {
        return Ok(());
    }
    out.push(b'<')?;
    for argument in &part.arguments {
        put_argument(out, argument)?;
    }
    out.push(b'>')?;
    Ok(())
}

#[cycle(put)]
fn put_argument(out: &mut Vec<u8>, argument: &Argument) -> Result<(), AllocError>
    ensures { OnOk result (out.new.items ≡ out.old.items ++ argument_text (argument_view argument.now)) }
{
    match argument {
        Argument::Any => {
            out.push(b'*')?;
            Ok(())
        }
        Argument::Exact(tree) => {
            put_type(out, tree)?;
            Ok(())
        }
        Argument::Upper(tree) => {
            out.push(b'+')?;
            put_type(out, tree)?;
            Ok(())
        }
        Argument::Lower(tree) => {
            out.push(b'-')?;
            put_type(out, tree)?;
            Ok(())
        }
    }
}

fn put_bound(out: &mut Vec<u8>, bound: &Option<TypeSig>) -> Result<(), AllocError>
    ensures { OnOk result (out.new.items ≡ out.old.items ++ bound_text (option_map type_view bound.now)) }
{
    match bound {
        None => Ok(()),
        Some(tree) => {
            put_type(out, tree)?;
            Ok(())
        }
    }
}

// With a `:` before each.
fn put_bounds(out: &mut Vec<u8>, bounds: &[TypeSig]) -> Result<(), AllocError>
    ensures { OnOk result (out.new.items ≡ out.old.items ++ bounds_text (types_view bounds.now)) }
{
    for bound in bounds {
        out.push(b':')?;
        put_type(out, bound)?;
    }
    Ok(())
}

fn put_parameter(out: &mut Vec<u8>, parameter: &Parameter) -> Result<(), AllocError>
    ensures { OnOk result (out.new.items ≡ out.old.items ++ parameter_text (parameter_view parameter.now)) }
{
    out.extend_from_slice(parameter.name.as_bytes())?;
    out.push(b':')?;
    put_bound(out, &parameter.class_bound)?;
    put_bounds(out, parameter.bounds.as_slice())?;
    Ok(())
}

fn put_parameters(out: &mut Vec<u8>, parameters: &[Parameter]) -> Result<(), AllocError>
    ensures { OnOk result (out.new.items ≡ out.old.items ++ parameters_text (parameters_view parameters.now)) }
{
    for parameter in parameters {
        put_parameter(out, parameter)?;
    }
    Ok(())
}

/// Adds type parameters between `<` and `>`, or nothing where there are none (TypeParameters).
///
/// # Errors
///
/// `AllocError` where memory runs out; then a part of it may be there.
pub fn put_type_parameters(out: &mut Vec<u8>, parameters: &[Parameter]) -> Result<(), AllocError>
    ensures { OnOk result (out.new.items ≡ out.old.items ++ type_parameters_text (parameters_view parameters.now)) }
{
    if parameters.is_empty() {
        return Ok(());
    }
    out.push(b'<')?;
    put_parameters(out, parameters)?;
    out.push(b'>')?;
    Ok(())
}

fn put_classes(out: &mut Vec<u8>, classes: &[ClassType]) -> Result<(), AllocError>
    ensures { OnOk result (out.new.items ≡ out.old.items ++ classes_text (classes_view classes.now)) }
{
    for class in classes {
        put_class(out, class)?;
    }
    Ok(())
}

/// Adds types, one after the other (JavaTypeSignature).
///
/// # Errors
///
/// `AllocError` where memory runs out; then a part of it may be there.
pub fn put_types(out: &mut Vec<u8>, types: &[TypeSig]) -> Result<(), AllocError>
    ensures { OnOk result (out.new.items ≡ out.old.items ++ types_text (types_view types.now)) }
{
    for tree in types {
        put_type(out, tree)?;
    }
    Ok(())
}

/// Adds a type, or `V` where there is none (Result).
///
/// # Errors
///
/// `AllocError` where memory runs out; then a part of it may be there.
pub fn put_result(out: &mut Vec<u8>, outcome: &Option<TypeSig>) -> Result<(), AllocError>
    ensures { OnOk result (out.new.items ≡ out.old.items ++ result_text (option_map type_view outcome.now)) }
{
    match outcome {
        None => {
            out.push(b'V')?;
            Ok(())
        }
        Some(tree) => {
            put_type(out, tree)?;
            Ok(())
        }
    }
}

// With a `^` before each.
fn put_throws(out: &mut Vec<u8>, throws: &[TypeSig]) -> Result<(), AllocError>
    ensures { OnOk result (out.new.items ≡ out.old.items ++ throws_text (types_view throws.now)) }
{
    for thrown in throws {
        out.push(b'^')?;
        put_type(out, thrown)?;
    }
    Ok(())
}

/// The one text of a class signature (ClassSignature, JVMS 4.7.9.1). The tree has to be of the grammar, as each
/// that is read is: `read_class_sig` gives back this tree for this text.
///
/// # Errors
///
/// `AllocError` where memory runs out, and for no other reason.
pub fn write_class_sig(alloc: Global, tree: &ClassSig) -> Result<Vec<u8>, AllocError>
    requires { IsClassSig (class_sig_view tree.now) }
    ensures { IfOk result (λ text. text.items ≡ class_sig_text (class_sig_view tree.now)) }
{
    let mut text = Vec::new(alloc);
    put_type_parameters(&mut text, tree.parameters.as_slice())?;
    put_class(&mut text, &tree.superclass)?;
    put_classes(&mut text, tree.interfaces.as_slice())?;
    Ok(text)
}

/// The one text of a method signature (MethodSignature, JVMS 4.7.9.1). The tree has to be of the grammar, as
/// each that is read is: `read_method_sig` gives back this tree for this text.
///
/// # Errors
///
/// `AllocError` where memory runs out, and for no other reason.
pub fn write_method_sig(alloc: Global, tree: &MethodSig) -> Result<Vec<u8>, AllocError>
    requires { IsMethodSig (method_sig_view tree.now) }
    ensures { IfOk result (λ text. text.items ≡ method_sig_text (method_sig_view tree.now)) }
{
    let mut text = Vec::new(alloc);
    put_type_parameters(&mut text, tree.parameters.as_slice())?;
    text.push(b'(')?;
    put_types(&mut text, tree.arguments.as_slice())?;
    text.push(b')')?;
    put_result(&mut text, &tree.result)?;
    put_throws(&mut text, tree.throws.as_slice())?;
    Ok(text)
}

/// The one text of a field signature (FieldSignature, JVMS 4.7.9.1). The tree has to be of the grammar, as each
/// that is read is, and so no primitive type: `read_field_sig` gives back this tree for this text.
///
/// # Errors
///
/// `AllocError` where memory runs out, and for no other reason.
pub fn write_field_sig(alloc: Global, tree: &TypeSig) -> Result<Vec<u8>, AllocError>
    requires { IsFieldSig (type_view tree.now) }
    ensures { IfOk result (λ text. text.items ≡ type_text (type_view tree.now)) }
{
    let mut text = Vec::new(alloc);
    put_type(&mut text, tree)?;
    Ok(text)
}
