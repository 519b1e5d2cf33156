//! The classes of a platform with those of one release of a library, and with those of clients.
ghost use Rattle.std.specs.Prelude.{◌≡◌, ◌≤◌, ◌<◌, ◌+◌, ◌++◌, ◌^◌, Some, is_some, length, nat_lt, option_map, slice_get, take, drop};
ghost use Rattle.jc_facts.specs.world.Mentioned.{is_named_above, all_mentions};
ghost use Rattle.jc_facts.specs.world.Modules.{module_by, module_of, in_same_module, is_visible_from};
ghost use Rattle.jc_facts.specs.world.World.{side, modular_side, with_clients, classes, class_named};
ghost use Rattle.jc_index.specs.Ids.{place_of};
ghost use Rattle.jc_index.specs.Mentioned.{is_package};
ghost use Rattle.jc_index.specs.SideModules.{modules_of, module_view};
ghost use Rattle.jc_facts.specs.declared.limits.TheConstants.{MAX_SIDE_CLASSES};
ghost use Rattle.jc_index.specs.steps.Order.{names_at};
ghost use Rattle.jc_index.specs.steps.PlacesAbove.{IsAbove};
ghost use Rattle.jc_index.specs.steps.Walking.{HavePlatformFinals};

use crate::class_list::ClassList;
use crate::final_keys::FinalKeys;
use crate::modules::{Exports, Module, SideModules, is_same};
use crate::shared_platform::SharedPlatform;
use jc_facts::class_facts::ClassFacts;
use std::marker::Model;

/// The classes of a side by their places, those of the platform and then those of the release and its
/// clients: at most `MAX_SIDE_CLASSES`. A contract sees it as the side.
pub struct Side {
    platform: SharedPlatform,
    // Those of the release, and behind them those of clients.
    beside: ClassList,
    // How many of these are the release's.
    of_release: usize,
    modules: SideModules,
}

// One call at each exit of a function that owns it, where a derived drop is written out.
impl Drop for Side {
    fn drop(self) {
        let Side {
            platform: _,
            beside: _,
            of_release: _,
            modules: _,
        } = self;
    }
}

impl Model for Side {
    ghost use Rattle.jc_facts.specs.world.World.{World};

    ghost Value = { World };

    ghost use Rattle.jc_index.specs.SideFields.{world_of, AreFew};

    ghost view = { world_of };

    ghost invariant = { AreFew };
}

impl Side {
    /// The side of this platform and this release, without clients, in one module.
    pub fn new(platform: SharedPlatform, release: ClassList) -> Side
        requires { length platform + length release ≤ MAX_SIDE_CLASSES }
        ensures { result ≡ side platform release }
    {
        let of_release = release.classes().len();
        Side {
            platform,
            beside: release,
            of_release,
            modules: SideModules::One,
        }
    }

    /// The side of this platform, with the first so many of these classes as its release and the others
    /// as clients, in the modules of a run with modules: the release's exports these packages, or the
    /// release is in that of the clients.
    pub fn modular(
        platform: SharedPlatform,
        beside: ClassList,
        of_release: usize,
        exports: Option<Exports>,
    ) -> Side
        requires few { length platform + length beside ≤ MAX_SIDE_CLASSES }
        requires own { of_release ≤ length beside }
        ensures { result ≡ with_clients (modular_side exports platform (take of_release beside)) (drop of_release beside) }
    {
        let modules = SideModules::several(exports);
        Side {
            platform,
            beside,
            of_release,
            modules,
        }
    }

    /// How many classes there are.
    pub fn count(&self) -> usize
        ensures count { result ≡ length (classes self.now) }
        ensures few { result ≤ MAX_SIDE_CLASSES }
    {
        self.platform().classes().len() + self.beside.classes().len()
    }

    /// The class at this place.
    pub fn at(&self, place: usize) -> &ClassFacts
        requires { place < length (classes self.now) }
        ensures { Some result.now ≡ slice_get (classes self.now) place }
    {
        let platform = self.platform().classes();
        if place < platform.len() {
            &platform[place]
        } else {
            &self.beside.classes()[place - platform.len()]
        }
    }

    // The classes of the platform.
    pub(crate) fn platform(&self) -> &ClassList
        ensures { result.now ≡ self.now.platform }
    {
        self.platform.list()
    }

    // The keys of final instance methods of those of the platform's classes that one of them has as
    // its superclass.
    pub(crate) fn platform_finals(&self) -> &FinalKeys
        ensures { HavePlatformFinals self.now.platform result.now }
    {
        self.platform.finals()
    }

    // The classes of the release, and behind them those of clients.
    pub(crate) fn beside(&self) -> &ClassList
        ensures { result.now ≡ self.now.release ++ self.now.clients }
    {
        &self.beside
    }

    // The place of the class beside the platform's of this name; none where there is none.
    fn place_beside(&self, name: &[u8]) -> Option<usize>
        ensures { result ≡ option_map (λ n. length self.now.platform + n) (place_of (names_at (self.now.release ++ self.now.clients)) name.now) }
    {
        match self.beside.place(name) {
            Some(place) => Some(self.platform().classes().len() + place),
            None => None,
        }
    }

    // The place of the class of this name; none where there is none.
    pub(crate) fn place(&self, name: &[u8]) -> Option<usize>
        ensures { result ≡ place_of (names_at (classes self.now)) name.now }
    {
        match self.platform.list().place(name) {
            Some(place) => Some(place),
            None => self.place_beside(name),
        }
    }

    // The same, where the name is one of those that the class at this place has above itself, of which
    // the superclass is the first. The platform's classes keep the places of what they name.
    pub(crate) fn place_above(&self, place: usize, at: usize, name: &[u8]) -> Option<usize>
        requires { IsAbove (classes self.now) place at name.now }
        ensures { result ≡ place_of (names_at (classes self.now)) name.now }
    {
        if !self.in_platform(place) {
            return self.place(name);
        }
        match self.platform.place_above(place, at) {
            Some(place) => Some(place),
            None => self.place_beside(name),
        }
    }

    /// Whether the class at this place is one of the platform's.
    pub fn in_platform(&self, place: usize) -> bool
        ensures { result ≡ nat_lt place (length self.now.platform) }
    {
        place < self.platform().classes().len()
    }

    /// The module of the class at this place, by whether the platform has so many classes, and whether
    /// the platform and the release do.
    pub(crate) fn module_at(&self, place: usize) -> Module
        ensures { module_view result ≡ module_by self.now.modules (nat_lt place (length self.now.platform)) (nat_lt place (length self.now.platform + length self.now.release)) }
    {
        let platform = self.platform().classes().len();
        self.modules
            .module_by(place < platform, place < platform + self.of_release)
    }

    // Whether the release has a class of this name.
    fn in_release(&self, name: &[u8]) -> bool
        ensures { result ≡ is_some (class_named self.now.release name.now) }
    {
        match self.beside.place(name) {
            Some(place) => place < self.of_release,
            None => false,
        }
    }

    /// The module of the class of this name. In one module nothing is looked for.
    fn module_named(&self, name: &[u8]) -> Module
        ensures { module_view result ≡ module_of self.now name.now }
    {
        match &self.modules {
            SideModules::One => Module::OfClients,
            _ => self
                .modules
                .module_by(self.platform().has(name), self.in_release(name)),
        }
    }

    /// Whether the classes of these names are in one module.
    pub fn in_one_module(&self, one: &[u8], other: &[u8]) -> bool
        ensures { result ≡ in_same_module self.now one.now other.now }
    {
        is_same(self.module_named(one), self.module_named(other))
    }

    /// Whether the module of the first may name the second, where that is public (JVMS 5.4.4).
    pub fn is_visible_from(&self, from: &[u8], name: &[u8]) -> bool
        ensures { result ≡ is_visible_from self.now from.now name.now }
    {
        self.modules
            .show_to(self.module_named(from), self.module_named(name), name)
    }

    /// Its modules.
    pub(crate) fn modules(&self) -> &SideModules
        ensures { modules_of result.now ≡ self.now.modules }
    {
        &self.modules
    }

    /// Whether a class is of this package: a name up to its last `/`, or nothing (JVMS 5.3).
    pub fn has_package(&self, package: &[u8]) -> bool
        ensures { result ≡ is_package self.now «package».now }
    {
        self.platform().has_package(package) || self.beside.has_package(package)
    }

    /// Whether a class names this one as its superclass or as an interface (JVMS 4.1).
    pub fn names_super(&self, name: &[u8]) -> bool
        ensures { result ≡ is_named_above self.now name.now }
    {
        self.platform().names_super(name) || self.beside.names_super(name)
    }

    /// How many names its classes have, name above themselves or permit to extend them, each counted
    /// as often as a class does so; fewer than 2^63.
    pub fn mention_count(&self) -> usize
        ensures count { result ≡ length (all_mentions (classes self.now)) }
        ensures small { result < 2 ^ 63 }
    {
        self.platform().mention_count() + self.beside.mention_count()
    }
}
