//! What the constant pool asks of names and descriptors, entry by entry (JVMS 4.4). Whoever reads a
//! pool and whoever writes one ask the same here.
//!
//! None of these calls takes memory.
ghost use Rattle.std.specs.Prelude.{◌≡◌, ◌||◌, false, true};
ghost use Rattle.jc_desc.specs.Names.{spells_member_name};
ghost use Rattle.jc_desc.specs.Pool.{is_known_version, names_array, describes_field, describes_method, names_class, names_any_member, names_used_method};

use crate::field::field_type;
use crate::method::{returns_void, slots};
use crate::names::{is_class_name, is_clinit, is_init, is_member_name};
use crate::versions::{NEWEST_MAJOR, OLDEST_MAJOR, STRICT_MINOR_MAJOR};

/// Whether class files of this version are read: a major from 45 to 65, and from 56 on the minor 0
/// or 65535 (JVMS 4.1, table 4.1-A).
pub fn is_version(minor: u16, major: u16) -> bool
    ensures { result ≡ is_known_version minor major }
{
    major >= OLDEST_MAJOR
        && major <= NEWEST_MAJOR
        && (major < STRICT_MINOR_MAJOR || minor == 0 || minor == 65535)
}

/// Whether the bytes are a field descriptor (JVMS 4.3.2).
pub fn is_field(bytes: &[u8]) -> bool
    ensures { result ≡ describes_field bytes.now }
{
    field_type(bytes).is_some()
}

/// Whether the bytes are a method descriptor (JVMS 4.3.3).
#[tactic(auto, unfolding(crate::specs::Reading::slots_of_method))]
pub fn is_method(bytes: &[u8]) -> bool
    ensures { result ≡ describes_method bytes.now }
{
    slots(bytes).is_some()
}

/// Whether the bytes are the descriptor of an array.
pub fn is_array(bytes: &[u8]) -> bool
    ensures { result ≡ names_array bytes.now }
{
    match bytes.split_first() {
        None => false,
        Some((first, _)) => *first == b'[' && is_field(bytes),
    }
}

/// Whether a Class may name this: a class name, or the descriptor of an array (JVMS 4.4.1).
pub fn is_class_text(bytes: &[u8]) -> bool
    ensures { result ≡ names_class bytes.now }
{
    is_class_name(bytes) || is_array(bytes)
}

/// Whether the bytes are the name of a field or of a method (JVMS 4.2.2).
pub fn is_any_name(bytes: &[u8]) -> bool
    ensures { result ≡ spells_member_name bytes.now false || spells_member_name bytes.now true }
{
    is_member_name(bytes, false) || is_member_name(bytes, true)
}

/// Whether a NameAndType may hold this name and this descriptor: a name of a field or of a method,
/// and a descriptor of a field or of a method (JVMS 4.4.6).
pub fn is_any_member(name: &[u8], descriptor: &[u8]) -> bool
    ensures { result ≡ names_any_member name.now descriptor.now }
{
    is_any_name(name) && (is_field(descriptor) || is_method(descriptor))
}

/// Whether a reference to a method, of an interface where `interface` is true, may have this name and
/// this descriptor: those of a method, no class initializer, and a constructor only of a class and
/// only without a result (JVMS 4.4.2).
pub fn is_used_method(interface: bool, name: &[u8], descriptor: &[u8]) -> bool
    ensures { result ≡ names_used_method interface name.now descriptor.now }
{
    is_method(descriptor)
        && is_member_name(name, true)
        && !is_clinit(name)
        && (!is_init(name) || (!interface && returns_void(descriptor)))
}
