//! Names that a platform and a release both declare.
ghost use Rattle.std.specs.Prelude.{◌≡◌, cond, Some, is_some, IfOk, IsTrue};
ghost use Rattle.std.specs.Option.{option_copied};
ghost use Rattle.jc_facts.specs.world.World.{differ_by_name, class_named};
ghost use Rattle.jc_facts.specs.ByName.{least, lower};
ghost use Rattle.jc_index.specs.Sides.{overlap_of};

use crate::class_list::ClassList;
use jc_base::name::Name;
use jc_facts::class_facts::ClassFacts;
use std::alloc::{AllocError, Global};

// The name, or the other one where it is there and less.
fn lower<'a>(name: &'a Name, other: Option<&'a Name>) -> &'a Name
    ensures { result.now ≡ lower name.now (option_copied other.entry) }
{
    match other {
        None => name,
        Some(other) => { if other < name { other } else { name } }
    }
}

// The lower one of the name and the other, where the platform has a class of the name, and else the
// other.
fn lower_known<'a>(
    platform: &ClassList,
    name: &'a Name,
    other: Option<&'a Name>,
) -> Option<&'a Name>
    ensures { option_copied result ≡ cond (is_some (class_named platform.now name.now)) (Some (lower name.now (option_copied other.entry))) (option_copied other.entry) }
{
    if platform.has(name.as_bytes()) {
        Some(lower(name, other))
    } else {
        other
    }
}

// The least name of the release that the platform has a class of.
fn least_known<'a>(platform: &ClassList, release: &'a [ClassFacts]) -> Option<&'a Name>
    ensures { option_copied result ≡ overlap_of platform.now release.now }
{
    let mut least = None;
    for done in 0..release.len() {
        let class = &release[release.len() - 1 - done];
        least = lower_known(platform, &class.name, least);
    }
    least
}

/// The first name in byte order that both the platform and the release declare; none where there
/// is none.
///
/// # Errors
///
/// `AllocError` where memory runs out.
pub fn first_overlap(
    alloc: Global,
    platform: &ClassList,
    release: &[ClassFacts],
) -> Result<Option<Name>, AllocError>
    requires platform_differs { IsTrue (differ_by_name platform.now) }
    requires release_differs { IsTrue (differ_by_name release.now) }
    ensures { IfOk result (λ overlap. overlap ≡ overlap_of platform.now release.now) }
{
    match least_known(platform, release) {
        Some(name) => Ok(Some(name.copy(alloc)?)),
        None => Ok(None),
    }
}
