//! What the sides of many clients are made of.
ghost use Rattle.std.specs.Prelude.{◌≡◌, ◌++◌, None, IfOk, IfErr, IsTrue};
ghost use Rattle.std.specs.List.{All};
ghost use Rattle.jc_facts.specs.world.World.{differ_by_name};
ghost use Rattle.jc_facts.specs.file.Valid.{IsValidClass};
ghost use Rattle.jc_index.specs.Root.{fault_of_root};
ghost use Rattle.jc_index.specs.Sides.{overlap_of};
ghost use Rattle.jc_losses.specs.Ground.{IsGround};
ghost use Rattle.jc_table.specs.Tables.{HasCause};

use crate::together::{mismatch, together};
use jc_base::items::Items;
use jc_base::name::Name;
use jc_facts::class_facts::ClassFacts;
use jc_link::link::copies_of;
use jc_loading::platform::Platform;
use jc_table::table::TableError;
use std::alloc::Global;

/// A platform and a release, which clients are linked with, one after the other.
#[derive(Drop)]
pub enum Ground {
    /// In one list, for a run without modules.
    Together(Platform),
    /// Each in a list of its own, for a run with modules: the release's module exports these packages, or
    /// the release is in the clients' module, where there is no such list (JVMS 4.7.25, 5.3.6).
    Apart {
        platform: Platform,
        release: Items<ClassFacts>,
        exports: Option<Items<Name>>,
    },
}

impl Ground {
    /// A platform and a release in a run without modules, of valid records whose names differ in each of
    /// the two.
    ///
    /// # Errors
    ///
    /// `BadRoot` where the platform's `java/lang/Object` isn't as `RootPart` says, else `Overlap` where a
    /// name is in both. `Memory` where memory runs out.
    pub fn together(
        alloc: Global,
        platform: &Platform,
        release: Vec<ClassFacts>,
    ) -> Result<Ground, TableError>
        requires valid_platform { All IsValidClass platform.now }
        requires valid_release { All IsValidClass release.items }
        requires platform_differs { IsTrue (differ_by_name platform.now) }
        requires release_differs { IsTrue (differ_by_name release.items) }
        ensures built { IfOk result (λ g. g ≡ Ground.Together (platform.now ++ release.items)) }
        ensures lists { IfOk result IsGround }
        ensures sound { IfOk result (λ _. (fault_of_root platform.now ≡ None) × (overlap_of platform.now release.items ≡ None)) }
        ensures refused { IfErr result (HasCause platform.now release.items) }
    {
        match together(alloc, platform, release) {
            Ok(both) => Ok(Ground::Together(both)),
            Err(error) => Err(error),
        }
    }

    /// The same in a run with modules, where the release's module exports these packages, or is that of
    /// the clients, where there is no such list.
    ///
    /// # Errors
    ///
    /// Those of `together`.
    pub fn apart(
        alloc: Global,
        platform: &Platform,
        release: Vec<ClassFacts>,
        exports: Option<Items<Name>>,
    ) -> Result<Ground, TableError>
        requires valid_platform { All IsValidClass platform.now }
        requires valid_release { All IsValidClass release.items }
        requires platform_differs { IsTrue (differ_by_name platform.now) }
        requires release_differs { IsTrue (differ_by_name release.items) }
        ensures built { IfOk result (λ g. g ≡ Ground.Apart platform.now release.items exports) }
        ensures lists { IfOk result IsGround }
        ensures sound { IfOk result (λ _. (fault_of_root platform.now ≡ None) × (overlap_of platform.now release.items ≡ None)) }
        ensures refused { IfErr result (HasCause platform.now release.items) }
    {
        match mismatch(alloc, platform, release.as_slice()) {
            Ok(()) => {}
            Err(error) => return Err(error),
        }
        let Ok(copies) = copies_of(alloc, platform.classes()) else {
            return Err(TableError::Memory);
        };
        let Ok(platform) = Platform::new(alloc, copies) else {
            return Err(TableError::Memory);
        };
        Ok(Ground::Apart {
            platform,
            release: Items::from_vec(release),
            exports,
        })
    }
}
