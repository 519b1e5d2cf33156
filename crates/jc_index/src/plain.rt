//! Plain programs for what a table asks and answers: a walk along the lists.
ghost use Rattle.std.specs.Prelude.{◌≡◌, ◌↔◌, IfOk, IsTrue};
ghost use Rattle.std.specs.Option.{option_copied};
ghost use Rattle.std.specs.List.{All};
ghost use Rattle.jc_facts.specs.file.Valid.{IsValidClass};
ghost use Rattle.jc_facts.specs.world.World.{differ_by_name, class_named, find_class, side};

use jc_facts::class_facts::ClassFacts;
use jc_facts::validity::is_valid;
use std::alloc::{AllocError, Global};

/// The first of the classes with this name.
#[tactic(auto, unfolding(jc_facts::specs::world::World::class_named))]
pub fn named<'a>(classes: &'a [ClassFacts], name: &[u8]) -> Option<&'a ClassFacts>
    ensures { option_copied result ≡ class_named classes.now name.now }
{
    for class in classes {
        if class.name.as_bytes() == name {
            return Some(class);
        }
    }
    None
}

/// The class of this name, as `Table::get` and `Table::facts` find it.
pub fn find<'a>(
    platform: &'a [ClassFacts],
    release: &'a [ClassFacts],
    name: &[u8],
) -> Option<&'a ClassFacts>
    ensures { option_copied result ≡ find_class (side platform.now release.now) name.now }
{
    match named(platform, name) {
        Some(class) => Some(class),
        None => named(release, name),
    }
}

/// Whether no two of the classes have one name. The time grows with the square of their number.
pub fn names_differ(classes: &[ClassFacts]) -> bool
    ensures { result ≡ differ_by_name classes.now }
{
    for (at, class) in classes.iter().enumerate() {
        if named(&classes[at + 1..], class.name.as_bytes()).is_some() {
            return false;
        }
    }
    true
}

/// Whether all of the records are valid.
///
/// # Errors
///
/// `AllocError` where memory runs out.
pub fn are_valid(alloc: Global, classes: &[ClassFacts]) -> Result<bool, AllocError>
    ensures { IfOk result (λ valid. IsTrue valid ↔ All IsValidClass classes.now) }
{
    for class in classes {
        let valid = is_valid(alloc, class)?;
        if !valid {
            return Ok(false);
        }
    }
    Ok(true)
}
