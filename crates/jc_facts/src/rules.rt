//! The rules on flags and descriptors.
ghost use Rattle.std.specs.Prelude.{◌≡◌};
ghost use Rattle.jc_facts.specs.file.Rules.{is_object_name, one_access_at_most, class_flags_fit, field_flags_fit, plain_method_flags_fit, method_flags_fit, field_descriptor_fits, slots_fit_in, method_descriptor_fits};

use crate::flags::{
    is_abstract, is_final, is_interface, is_module, is_native, is_private, is_protected, is_public,
    is_static, is_volatile,
};
use jc_desc::field::field_type;
use jc_desc::method::{returns_void, slots};
use jc_desc::names::{is_clinit, is_init};
use jc_desc::versions::{ABSTRACT_INTERFACE_MAJOR, INTERFACE_CODE_MAJOR};

/// The name of the class that alone has no superclass.
pub fn is_object(name: &[u8]) -> bool
    ensures { result ≡ is_object_name name.now }
{
    name == b"java/lang/Object".as_slice()
}

fn at_most_one_access(flags: u16) -> bool
    ensures { result ≡ one_access_at_most flags }
{
    !(is_public(flags) && is_private(flags))
        && !(is_public(flags) && is_protected(flags))
        && !(is_private(flags) && is_protected(flags))
}

/// Whether a class of this major version may have these flags (JVMS 4.1).
pub fn are_class_flags(major: u16, flags: u16) -> bool
    ensures { result ≡ class_flags_fit major flags }
{
    !is_module(flags)
        && !(is_final(flags) && is_abstract(flags))
        && (!is_interface(flags)
            || (!is_final(flags) && (is_abstract(flags) || major < ABSTRACT_INTERFACE_MAJOR)))
}

/// Whether a field may have these flags in a class with the flags `class` (JVMS 4.5).
pub fn are_field_flags(class: u16, flags: u16) -> bool
    ensures { result ≡ field_flags_fit class flags }
{
    at_most_one_access(flags)
        && !(is_final(flags) && is_volatile(flags))
        && (!is_interface(class) || (is_public(flags) && is_static(flags) && is_final(flags)))
}

fn are_plain_method_flags(major: u16, class: u16, name: &[u8], flags: u16) -> bool
    ensures { result ≡ plain_method_flags_fit major class name.now flags }
{
    let hidden = is_private(flags) || is_static(flags) || is_final(flags) || is_native(flags);
    let special = is_static(flags) || is_final(flags) || is_native(flags) || is_abstract(flags);
    let of_interface = (is_public(flags) || is_private(flags))
        && (major >= INTERFACE_CODE_MAJOR || (is_public(flags) && is_abstract(flags)));
    at_most_one_access(flags)
        && (!is_abstract(flags) || !hidden)
        && (!is_init(name) || !special)
        && (!is_interface(class) || of_interface)
}

/// Whether a method of this name may have these flags in a class of this major version with the
/// flags `class` (JVMS 4.6).
pub fn are_method_flags(major: u16, class: u16, name: &[u8], flags: u16) -> bool
    ensures { result ≡ method_flags_fit major class name.now flags }
{
    is_clinit(name) || are_plain_method_flags(major, class, name, flags)
}

/// Whether the bytes are a field descriptor (JVMS 4.3.2).
pub fn is_field_descriptor(descriptor: &[u8]) -> bool
    ensures { result ≡ field_descriptor_fits descriptor.now }
{
    field_type(descriptor).is_some()
}

fn slots_fit(instance: bool, slots: Option<u32>) -> bool
    ensures { result ≡ slots_fit_in instance slots }
{
    match slots {
        None => false,
        Some(count) => count <= 254 || (count == 255 && !instance),
    }
}

/// Whether the bytes are a descriptor that a method of this name and these flags may have: its
/// parameters, with the instance, take at most 255 slots, and an instance initializer returns
/// nothing (JVMS 4.3.3, 4.6).
pub fn is_method_descriptor(name: &[u8], flags: u16, descriptor: &[u8]) -> bool
    ensures { result ≡ method_descriptor_fits name.now flags descriptor.now }
{
    slots_fit(!is_static(flags), slots(descriptor)) && (!is_init(name) || returns_void(descriptor))
}
