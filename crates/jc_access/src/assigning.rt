//! Assignment of types (JVMS 4.10.1.2).
ghost use Rattle.std.specs.Prelude.{◌≡◌};
ghost use Rattle.jc_desc.specs.Views.{basic};
ghost use Rattle.jc_facts.specs.world.Assignment.{is_class_assignable, is_element_assignable, assign_to, takes_any_array, is_assignable};
ghost use Rattle.jc_facts.specs.world.Types.{Class, element_of, type_read, is_array_text};
ghost use Rattle.jc_access.specs.TypeTexts.{element_view, text_view};

use jc_base::name::Name;
use jc_desc::field::{Base, field_type};
use jc_facts::flags::is_interface;
use jc_table::table::Table;

/// What an array's elements are (JVMS 4.3.2).
#[derive(Clone, Copy)]
pub enum Element<'a> {
    /// A primitive type, by its letter (JVMS table 4.3-A).
    Primitive(u8),
    /// A class, by its name.
    Class(&'a [u8]),
}

/// The type that a text describes.
#[derive(Clone, Copy)]
pub struct TypeText<'a> {
    /// How many dimensions it has: 0 for a class, at least 1 for an array.
    pub dims: u32,
    /// The class, or what the array's elements are.
    pub element: Element<'a>,
}

// The element of a descriptor (JVMS 4.3.2, table 4.3-A).
fn base_element(base: Base<'_>) -> Element<'_>
    ensures { element_view result ≡ element_of (basic base.entry) }
{
    match base {
        Base::Byte => Element::Primitive(b'B'),
        Base::Char => Element::Primitive(b'C'),
        Base::Double => Element::Primitive(b'D'),
        Base::Float => Element::Primitive(b'F'),
        Base::Int => Element::Primitive(b'I'),
        Base::Long => Element::Primitive(b'J'),
        Base::Short => Element::Primitive(b'S'),
        Base::Boolean => Element::Primitive(b'Z'),
        Base::Class(name) => Element::Class(name),
    }
}

/// Whether the text is to be read as that of an array: it begins with `[` (JVMS 4.4.1).
pub fn is_array(text: &[u8]) -> bool
    ensures { result ≡ is_array_text text.now }
{
    match text.first() {
        Some(first) => *first == b'[',
        None => false,
    }
}

/// The type that the text describes; none where it begins as an array and is no descriptor
/// (JVMS 4.4.1).
#[tactic(auto, unfolding(jc_facts::specs::world::Types::type_read))]
pub fn read_type(text: &[u8]) -> Option<TypeText<'_>>
    ensures { text_view result ≡ type_read text.now }
{
    if is_array(text) {
        let field = field_type(text)?;
        Some(TypeText {
            dims: field.dims,
            element: base_element(field.base),
        })
    } else {
        Some(TypeText {
            dims: 0,
            element: Element::Class(text),
        })
    }
}

// Whether it is one of the three classes that every array is assignable to.
fn takes_all(name: &[u8]) -> bool
    ensures { result ≡ takes_any_array (Class name.now) }
{
    if b"java/lang/Object".as_slice() == name {
        return true;
    }
    if b"java/lang/Cloneable".as_slice() == name {
        return true;
    }
    b"java/io/Serializable".as_slice() == name
}

// Whether every array is assignable to it.
fn takes_arrays(to: Element<'_>) -> bool
    ensures { result ≡ takes_any_array (element_view to.entry) }
{
    match to {
        Element::Primitive(_) => false,
        Element::Class(name) => takes_all(name),
    }
}

// Whether the class of the first name is assignable to that of the second: they are equal, or the
// second is an interface, or a superclass of the first.
fn assign_class(table: &Table, from: &[u8], to: &[u8]) -> bool
    ensures { result ≡ is_class_assignable table.now from.now to.now }
{
    if from == to {
        return true;
    }
    let Some(above) = table.get(to) else {
        return false;
    };
    if is_interface(table.facts(above).flags) {
        return true;
    }
    match table.get(from) {
        Some(class) => table.has_super(class, above),
        None => false,
    }
}

// Whether the first element is assignable to the second, where the dimensions are equal.
fn assign_element(table: &Table, from: Element<'_>, to: Element<'_>) -> bool
    ensures { result ≡ is_element_assignable table.now (element_view from.entry) (element_view to.entry) }
{
    match from {
        Element::Primitive(one) => match to {
            Element::Primitive(other) => one == other,
            Element::Class(_) => false,
        },
        Element::Class(one) => match to {
            Element::Primitive(_) => false,
            Element::Class(other) => assign_class(table, one, other),
        },
    }
}

// Whether the first type is assignable to the second: arrays go by their components.
fn assign(table: &Table, from: TypeText<'_>, to: TypeText<'_>) -> bool
    ensures { result ≡ assign_to table.now from.entry.dims (element_view from.entry.element) to.entry.dims (element_view to.entry.element) }
{
    if from.dims < to.dims {
        return false;
    }
    if to.dims < from.dims {
        return takes_arrays(to.element);
    }
    assign_element(table, from.element, to.element)
}

/// Whether the type of the one text is assignable to that of the other: a class by its name, an
/// array by its descriptor (JVMS 4.4.1, 4.10.1.2). An ill-formed array is assignable to nothing,
/// and nothing to it. The names may be any, and the answer is about the classes of the table: it
/// speaks for no client. Takes no memory.
#[tactic(auto, unfolding(jc_facts::specs::world::Assignment::is_assignable))]
pub fn assignable(table: &Table, from: &Name, to: &Name) -> bool
    ensures { result ≡ is_assignable table.now from.now to.now }
{
    let Some(one) = read_type(from.as_bytes()) else {
        return false;
    };
    let Some(other) = read_type(to.as_bytes()) else {
        return false;
    };
    assign(table, one, other)
}
