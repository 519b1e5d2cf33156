//! From the numbers of keys on one side to those on the other.
ghost use Rattle.std.specs.Prelude.{◌≡◌, IfOk, option_map, slice_get};
ghost use Rattle.jc_sides.specs.Numbering.{AreOfKeys, IsTranslation};

use crate::key_numbers::KeyNumbers;
use crate::sides::Sides;
use std::alloc::{AllocError, Global};

/// For each number that a key has on one side, the key's numbers on both. It is made once for a
/// comparison, with one look-up by bytes for each key of each side; what it tells then is at the place
/// of the number.
pub struct Translation {
    pub(crate) old: Vec<KeyNumbers>,
    pub(crate) new: Vec<KeyNumbers>,
}

// One call at each exit of a function that owns it, where a derived drop is written out.
impl Drop for Translation {
    fn drop(self) {
        let Translation { old: _, new: _ } = self;
    }
}

// The numbers at the place; none where there are no more than so many.
pub(crate) fn numbers_at(numbers: &[KeyNumbers], place: usize) -> Option<&KeyNumbers>
    ensures { option_map (λ p. p.now) result ≡ slice_get numbers.now place }
{
    numbers.get(place)
}

// Those of the old side's keys, in the order of their numbers there.
fn of_old(alloc: Global, sides: &Sides<'_>) -> Result<Vec<KeyNumbers>, AllocError>
    ensures { IfOk result (λ ps. AreOfKeys sides.now sides.now.old ps.items) }
{
    let mut numbers = Vec::with_capacity(alloc, sides.old.key_count())?;
    for number in 0..sides.old.key_count() {
        let key = sides.old.key_at(number).unwrap();
        let new = sides.new.key_number(key);
        numbers.push(KeyNumbers {
            old: Some(number),
            new,
        })?;
    }
    Ok(numbers)
}

// Those of the new side's keys, in the order of their numbers there.
fn of_new(alloc: Global, sides: &Sides<'_>) -> Result<Vec<KeyNumbers>, AllocError>
    ensures { IfOk result (λ ps. AreOfKeys sides.now sides.now.new ps.items) }
{
    let mut numbers = Vec::with_capacity(alloc, sides.new.key_count())?;
    for number in 0..sides.new.key_count() {
        let key = sides.new.key_at(number).unwrap();
        let old = sides.old.key_number(key);
        numbers.push(KeyNumbers {
            old,
            new: Some(number),
        })?;
    }
    Ok(numbers)
}

impl Translation {
    /// That of the two sides.
    ///
    /// # Errors
    ///
    /// `AllocError` where memory runs out.
    pub fn new(alloc: Global, sides: &Sides<'_>) -> Result<Translation, AllocError>
        ensures { IfOk result (IsTranslation sides.now) }
    {
        let old = of_old(alloc, sides)?;
        let new = of_new(alloc, sides)?;
        Ok(Translation { old, new })
    }
}
