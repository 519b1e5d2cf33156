//! Numbers of classes.
use std::marker::Model;

/// A class of a table, by its number: so many of the table's classes have names that are less in
/// byte order. A number of one table says nothing of another.
#[derive(Clone, Copy, PartialEq, Eq, PartialOrd, Ord, Debug)]
pub struct ClassId {
    number: u32,
}

impl Model for ClassId {
    ghost use Rattle.std.specs.Prelude.{ℕ, ◌<◌, ◌^◌};

    ghost Value = { ℕ };

    ghost view = { λ i. i.number };

    ghost inverse = { λ n. record { number = n } };
}

impl ClassId {
    ghost use Rattle.std.specs.Prelude.{◌≡◌};

    /// The class of this number.
    pub fn new(number: u32) -> ClassId
        ensures { result ≡ number }
    {
        ClassId { number }
    }

    /// Its number.
    pub fn number(self) -> u32
        ensures { result ≡ self }
    {
        self.number
    }
}

/// A member that a lookup finds: the class that declares it, and its flags (JVMS 4.5, 4.6).
#[derive(Clone, Copy, PartialEq, Eq, Debug)]
pub struct Found {
    pub owner: ClassId,
    pub flags: u16,
}
