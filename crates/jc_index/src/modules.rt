//! The modules in which the classes of a side lie (JVMS 4.7.25, 5.3.6).
ghost use Rattle.std.specs.Prelude.{◌≡◌, ◌||◌, IfOk};
ghost use Rattle.jc_facts.specs.Names.{is_name_among, package_name};
ghost use Rattle.jc_facts.specs.world.Modules.{module_by, same_module, is_exported, visible_by};
ghost use Rattle.jc_facts.specs.world.World.{Several};
ghost use Rattle.jc_index.specs.SideModules.{modules_of, module_view};

use crate::mentioned::put_names;
use crate::names::NumberedNames;
use jc_base::name::Name;
use jc_base::names::Names;
use jc_facts::packages::package_of;
use std::alloc::{AllocError, Global};
use std::marker::Model;

/// The packages that a release's module exports. A contract sees them as the list that they were made
/// of.
#[derive(Drop)]
pub struct Exports {
    packages: Names,
    // The same, to be looked for.
    set: NumberedNames,
}

impl Model for Exports {
    ghost use Rattle.std.specs.Prelude.{List, ◌≡◌};
    ghost use Rattle.jc_facts.specs.Names.{Bytes, is_name_among};

    ghost Value = { List Bytes };

    ghost view = { λ e. e.packages };

    ghost invariant = { λ e. (x : Bytes) → is_name_among e.set x ≡ is_name_among e.packages x };
}

impl Exports {
    /// These packages.
    ///
    /// # Errors
    ///
    /// `AllocError` where memory runs out.
    pub fn new(alloc: Global, packages: Vec<Name>) -> Result<Exports, AllocError>
        ensures { IfOk result (λ exports. exports ≡ packages.items) }
    {
        let packages = Names::from_vec(alloc, packages);
        let mut set = NumberedNames::new(alloc);
        put_names(alloc, &mut set, &packages)?;
        Ok(Exports { packages, set })
    }

    /// Whether the package is one of them. It takes no memory.
    pub fn has(&self, package: &[u8]) -> bool
        ensures { result ≡ is_name_among self.now «package».now }
    {
        self.set.has(package)
    }
}

/// The module of a class.
#[derive(Clone, Copy)]
pub enum Module {
    /// That of the platform.
    OfPlatform,
    /// That of the release.
    OfRelease,
    /// That of the clients, which is the unnamed one.
    OfClients,
}

/// The modules of a side.
#[derive(Drop)]
pub enum SideModules {
    /// One, that of the clients, in which all classes are.
    One,
    /// That of the platform, and that of the clients, in which the release is too.
    Two,
    /// That of the platform, that of the clients, and that of the release, which exports these
    /// packages.
    Three(Exports),
}

/// Whether the two are one module.
pub(crate) fn is_same(one: Module, other: Module) -> bool
    ensures { result ≡ same_module (module_view one) (module_view other) }
{
    match one {
        Module::OfPlatform => matches!(other, Module::OfPlatform),
        Module::OfRelease => matches!(other, Module::OfRelease),
        Module::OfClients => matches!(other, Module::OfClients),
    }
}

impl SideModules {
    /// Those of a run with modules, in which the release's module exports these packages, or the
    /// release is in that of the clients.
    pub(crate) fn several(exports: Option<Exports>) -> SideModules
        ensures { modules_of result ≡ Several exports }
    {
        match exports {
            Some(exports) => SideModules::Three(exports),
            None => SideModules::Two,
        }
    }

    /// The module of a class, by whether the platform has it, and whether the release does.
    pub(crate) fn module_by(&self, in_platform: bool, in_release: bool) -> Module
        ensures { module_view result ≡ module_by (modules_of self.now) in_platform in_release }
    {
        match self {
            SideModules::One => Module::OfClients,
            SideModules::Two => {
                if in_platform {
                    Module::OfPlatform
                } else {
                    Module::OfClients
                }
            }
            SideModules::Three(_) => {
                if in_platform {
                    Module::OfPlatform
                } else if in_release {
                    Module::OfRelease
                } else {
                    Module::OfClients
                }
            }
        }
    }

    /// Whether the release's module exports the package (JVMS 4.7.25).
    fn export(&self, package: &[u8]) -> bool
        ensures { result ≡ is_exported (modules_of self.now) «package».now }
    {
        match self {
            SideModules::One => false,
            SideModules::Two => false,
            SideModules::Three(exports) => exports.has(package),
        }
    }

    /// Whether every module may name a class of this module and this name, where it is public.
    pub(crate) fn show(&self, of: Module, name: &[u8]) -> bool
        ensures { result ≡ visible_by (module_view of) (is_exported (modules_of self.now) (package_name name.now)) }
    {
        match of {
            Module::OfPlatform => true,
            Module::OfRelease => self.export(package_of(name)),
            Module::OfClients => true,
        }
    }

    /// Whether the module `from` may name a class of the other module and this name, where it is
    /// public (JVMS 5.4.4).
    pub(crate) fn show_to(&self, from: Module, of: Module, name: &[u8]) -> bool
        ensures { result ≡ (same_module (module_view from) (module_view of) || visible_by (module_view of) (is_exported (modules_of self.now) (package_name name.now))) }
    {
        is_same(from, of) || self.show(of, name)
    }
}
