//! The numbers of the rules, in the order in which a verdict lists what they say.

/// A class that clients can't use any more.
pub const CLASS_GONE: u8 = 1;
/// A class that some clients can't extend or implement any more.
pub const CLASS_CLOSED: u8 = 2;
/// An interface that became a class.
pub const INTERFACE_BECAME_CLASS: u8 = 3;
/// A superclass that left the chain of a class.
pub const SUPERCLASS_LOST: u8 = 4;
/// A constructor that clients can't use any more.
pub const CONSTRUCTOR_CLOSED: u8 = 5;
/// A method that clients could override and that is final now.
pub const METHOD_MADE_FINAL: u8 = 6;
/// A field that is closed to an act of some clients.
pub const FIELD_CLOSED: u8 = 7;
/// A method that is closed to an act of some clients.
pub const METHOD_CLOSED: u8 = 8;
/// A method that an interface doesn't inherit any more.
pub const INTERFACE_METHOD_LOST: u8 = 9;
/// The collision of a field that an interface has now.
pub const CONSTANT_ADDED: u8 = 10;
/// The collision of a method that is found before those of a client's interfaces.
pub const CAPTURE_ADDED: u8 = 11;
/// The collision of a method that is final now, where clients may declare one of their own.
pub const FINAL_ADDED: u8 = 12;
