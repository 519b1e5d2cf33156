//! The numbers of a key on both sides.
ghost use Rattle.jc_sides.specs.Numbering.{AreNumbers};

use crate::sides::Sides;
use jc_facts::key::Key;

/// The numbers of a key in the tables of the old side and of the new one; none where no class of the
/// side that has rows declares a member of the key.
#[derive(Clone, Copy)]
pub struct KeyNumbers {
    pub old: Option<usize>,
    pub new: Option<usize>,
}

impl KeyNumbers {
    /// Those of the key, looked up on each side by its bytes. It takes no memory.
    pub fn of(sides: &Sides<'_>, key: &Key) -> KeyNumbers
        ensures { AreNumbers sides.now key.now result }
    {
        KeyNumbers {
            old: sides.old.key_number(key),
            new: sides.new.key_number(key),
        }
    }
}
