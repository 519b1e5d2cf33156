//! The wanted classes of a table that descriptors name (JVMS 4.3).
ghost use Rattle.std.specs.Prelude.{◌≡◌, [], IfOk, length, option_map};
ghost use Rattle.std.specs.List.{cons_option, list_any};
ghost use Rattle.std.specs.Str.{bytes_eq};
ghost use Rattle.jc_acts.specs.Touched.{flag_at};
ghost use Rattle.jc_desc.specs.Classes.{type_names, some_type_names, some_method_names, descriptor_names};
ghost use Rattle.jc_desc.specs.Reading.{method_of};
ghost use Rattle.jc_desc.specs.Views.{type_view, views};
ghost use Rattle.jc_exposed.specs.Lengths.{HaveLengths};
ghost use Rattle.jc_exposed.specs.Named.{Lists};
ghost use Rattle.jc_facts.specs.world.World.{size};
ghost use Rattle.jc_index.specs.Sides.{IsSide};

use crate::lengths::may_be;
use jc_desc::field::{Base, FieldType, field_type};
use jc_desc::method::method_type;
use jc_index::ids::ClassId;
use jc_sides::found::push_some;
use jc_table::table::Table;
use std::alloc::{AllocError, Global};

// The class of the name, where it is wanted.
fn wanted_class(table: &Table, wanted: &[bool], lengths: &[bool], name: &[u8]) -> Option<ClassId>
    requires side { IsSide table.now }
    requires wanted { length wanted.now ≡ size table.now }
    requires lengths { HaveLengths table.now wanted.now (size table.now) lengths.now }
    ensures { Lists table.now (flag_at wanted.now) (λ x. bytes_eq name.now x) (cons_option result []) }
{
    if !may_be(lengths, name.len()) {
        return None;
    }
    match table.get(name) {
        Some(id) => wanted[id.number() as usize].then_some(id),
        None => None,
    }
}

// The class of the type, or of the elements of the array, where it is wanted.
fn class_of(table: &Table, wanted: &[bool], lengths: &[bool], of: &FieldType<'_>) -> Option<ClassId>
    requires side { IsSide table.now }
    requires wanted { length wanted.now ≡ size table.now }
    requires lengths { HaveLengths table.now wanted.now (size table.now) lengths.now }
    ensures { Lists table.now (flag_at wanted.now) (λ x. type_names x (type_view of.now)) (cons_option result []) }
{
    match of.base {
        Base::Class(name) => wanted_class(table, wanted, lengths, name),
        _ => None,
    }
}

// The same, where there is a type.
fn class_of_some(
    table: &Table,
    wanted: &[bool],
    lengths: &[bool],
    of: Option<FieldType<'_>>,
) -> Option<ClassId>
    requires side { IsSide table.now }
    requires wanted { length wanted.now ≡ size table.now }
    requires lengths { HaveLengths table.now wanted.now (size table.now) lengths.now }
    ensures { Lists table.now (flag_at wanted.now) (λ x. some_type_names x (option_map type_view of.entry)) (cons_option result []) }
{
    match of {
        Some(of) => class_of(table, wanted, lengths, &of),
        None => None,
    }
}

// The wanted classes of the types.
fn classes_of(
    alloc: Global,
    table: &Table,
    wanted: &[bool],
    lengths: &[bool],
    types: &[FieldType<'_>],
) -> Result<Vec<ClassId>, AllocError>
    requires side { IsSide table.now }
    requires wanted { length wanted.now ≡ size table.now }
    requires lengths { HaveLengths table.now wanted.now (size table.now) lengths.now }
    ensures { IfOk result (λ ids. Lists table.now (flag_at wanted.now) (λ x. list_any (type_names x) (views types.now)) ids.items) }
{
    let mut ids = Vec::new(alloc);
    for part in types {
        push_some(&mut ids, class_of(table, wanted, lengths, part))?;
    }
    Ok(ids)
}

// The wanted classes that the descriptor of a method names.
fn classes_of_method(
    alloc: Global,
    table: &Table,
    wanted: &[bool],
    lengths: &[bool],
    descriptor: &[u8],
) -> Result<Vec<ClassId>, AllocError>
    requires side { IsSide table.now }
    requires wanted { length wanted.now ≡ size table.now }
    requires lengths { HaveLengths table.now wanted.now (size table.now) lengths.now }
    ensures { IfOk result (λ ids. Lists table.now (flag_at wanted.now) (λ x. some_method_names x (method_of descriptor.now)) ids.items) }
{
    match method_type(alloc, descriptor)? {
        None => Ok(Vec::new(alloc)),
        Some(method) => {
            let mut ids = classes_of(alloc, table, wanted, lengths, method.params.as_slice())?;
            push_some(
                &mut ids,
                class_of_some(table, wanted, lengths, method.result),
            )?;
            Ok(ids)
        }
    }
}

/// The wanted classes that the descriptor, of a field or of a method, names: as a type, or as the
/// element type of an array. There is a flag for each class of the table, and the lengths are those of
/// the names of the wanted ones.
///
/// # Errors
///
/// `AllocError` where memory runs out.
pub fn classes_named(
    alloc: Global,
    table: &Table,
    wanted: &[bool],
    lengths: &[bool],
    descriptor: &[u8],
) -> Result<Vec<ClassId>, AllocError>
    requires side { IsSide table.now }
    requires wanted { length wanted.now ≡ size table.now }
    requires lengths { HaveLengths table.now wanted.now (size table.now) lengths.now }
    ensures { IfOk result (λ ids. Lists table.now (flag_at wanted.now) (descriptor_names descriptor.now) ids.items) }
{
    let mut ids = Vec::new(alloc);
    push_some(
        &mut ids,
        class_of_some(table, wanted, lengths, field_type(descriptor)),
    )?;
    ids.append(&mut classes_of_method(alloc, table, wanted, lengths, descriptor)?)?;
    Ok(ids)
}
