//! Client classes: a class record with what its code does.
use crate::act::Act;
use crate::class_facts::ClassFacts;
use crate::key::Key;
use jc_base::items::Items;
use jc_base::name::Name;

/// The kind of method in which an instruction stands (JVMS 2.9.1, 2.9.2).
#[derive(Clone, Copy, PartialEq, Eq, Debug)]
pub enum Place {
    /// An instance initializer, `<init>`.
    Init,
    /// A class initializer, `<clinit>`.
    Clinit,
    /// Any other method.
    Other,
}

/// One thing that the code of a class does with another class (JVMS 6.5).
///
/// A type is written as a class name or as an array descriptor such as `[Lp/A;`.
#[derive(PartialEq, Eq, Debug, Drop)]
pub enum Item {
    /// Names a class.
    Class {
        class: Name,
    },
    /// Makes an object by the instance initializer of this descriptor.
    New {
        class: Name,
        descriptor: Name,
    },
    /// Calls another instance initializer of its own class or its superclass, from an instance initializer.
    Init {
        class: Name,
        descriptor: Name,
    },
    /// Uses a field or a method: the act is one of the four on fields or the six on methods.
    /// A receiver None is one whose type isn't known.
    Access {
        act: Act,
        class: Name,
        key: Key,
        receiver: Option<Name>,
        place: Place,
    },
    /// Uses a value of one type as one of another (JVMS 4.10.1.2).
    Assign {
        from: Name,
        to: Name,
    },
}

/// A class of neither the platform nor the release, with what its code does, in order.
#[derive(PartialEq, Eq, Debug, Drop)]
pub struct ClientClass {
    pub facts: ClassFacts,
    pub items: Items<Item>,
}
