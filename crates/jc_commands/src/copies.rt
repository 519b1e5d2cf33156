//! Copies of a release.
ghost use Rattle.std.specs.Prelude.{◌≡◌, IfOk};

use jc_base::items::Items;
use jc_base::name::Name;
use jc_link::link::copies_of;
use jc_releases::releases::{Release, ReleaseModules};
use jc_used::lines::copied;
use std::alloc::{AllocError, Global};

fn copy_packages(
    alloc: Global,
    packages: &Option<Items<Name>>,
) -> Result<Option<Items<Name>>, AllocError>
    ensures { IfOk result (λ copy. copy ≡ packages.now) }
{
    match packages {
        None => Ok(None),
        Some(packages) => {
            let copies = copied(alloc, packages.as_slice())?;
            Ok(Some(Items::from_vec(copies)))
        }
    }
}

fn copy_modules(alloc: Global, modules: &ReleaseModules) -> Result<ReleaseModules, AllocError>
    ensures { IfOk result (λ copy. copy ≡ modules.now) }
{
    match modules {
        ReleaseModules::One => Ok(ReleaseModules::One),
        ReleaseModules::Several(exports) => {
            let copies = copy_packages(alloc, exports)?;
            Ok(ReleaseModules::Several(copies))
        }
    }
}

/// A copy of the release.
///
/// # Errors
///
/// `AllocError` where memory runs out.
pub fn copy_of(alloc: Global, release: &Release) -> Result<Release, AllocError>
    ensures { IfOk result (λ copy. copy ≡ release.now) }
{
    let records = copies_of(alloc, release.records.as_slice())?;
    let modules = copy_modules(alloc, &release.modules)?;
    Ok(Release {
        name: release.name,
        records: Items::from_vec(records),
        modules,
    })
}
