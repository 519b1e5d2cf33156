//! The class that a type names.
ghost use Rattle.std.specs.Prelude.{◌≡◌, option_map};
ghost use Rattle.jc_desc.specs.Views.{basic};
ghost use Rattle.jc_facts.specs.world.Types.{element_of, is_array_text};
ghost use Rattle.jc_used.specs.Above.{class_of_element, class_in};

use jc_desc::field::{Base, field_type};

/// Whether the text is to be read as that of an array: it begins with `[` (JVMS 4.4.1).
pub(crate) fn is_array(text: &[u8]) -> bool
    ensures { result ≡ is_array_text text.now }
{
    match text.first() {
        Some(first) => *first == b'[',
        None => false,
    }
}

// The class of the elements, where they are of one.
fn class_of_base(base: Base<'_>) -> Option<&[u8]>
    ensures { option_map (λ n. n.now) result ≡ class_of_element (element_of (basic base.entry)) }
{
    match base {
        Base::Class(name) => Some(name),
        _ => None,
    }
}

/// The class that the type names, of an array that of its elements; none where the type is primitive, or
/// an ill-formed array (JVMS 4.3.2, 4.4.1).
#[tactic(auto, unfolding(crate::specs::Above::class_in, jc_facts::specs::world::Types::type_read))]
pub(crate) fn class_in(text: &[u8]) -> Option<&[u8]>
    ensures { option_map (λ n. n.now) result ≡ class_in text.now }
{
    if !is_array(text) {
        return Some(text);
    }
    match field_type(text) {
        None => None,
        Some(field) => class_of_base(field.base),
    }
}
