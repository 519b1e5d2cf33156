//! The classes of a side, found by their names.
ghost use Rattle.std.specs.Prelude.{◌≡◌, ◌≤◌, ◌<◌, ◌+◌, ◌++◌, ◌^◌, ◌||◌, false, length, map, option_map, slice_get, is_some, nat_lt, Some, None, IfOk, IfErr, IfSome, IsTrue};
ghost use Rattle.std.specs.List.{All, list_any};
ghost use Rattle.jc_facts.specs.declared.limits.TheConstants.{MAX_SIDE_CLASSES};
ghost use Rattle.jc_facts.specs.Options.{some_where};
ghost use Rattle.jc_facts.specs.file.Valid.{IsValidClass, has_key};
ghost use Rattle.jc_facts.specs.declared.key.Key.{Key};
ghost use Rattle.jc_facts.specs.Names.{same};
ghost use Rattle.jc_facts.specs.world.World.{differ_by_name, side, modular_side, with_clients, size, classes, find_class, class_named};
ghost use Rattle.jc_facts.specs.world.Mentioned.{is_named_above, all_mentions};
ghost use Rattle.jc_facts.specs.world.Modules.{OfClients, same_module, module_of, is_visible, is_visible_from};
ghost use Rattle.jc_facts.specs.world.Hierarchy.{in_chain, is_superinterface};
ghost use Rattle.jc_facts.specs.world.Loading.{load_fault};
ghost use Rattle.jc_index.specs.Above.{AreAbove};
ghost use Rattle.jc_index.specs.Ids.{name_at, names, id_of, superclass_of};
ghost use Rattle.jc_loading.specs.PlatformLoads.{AreLoads};
ghost use Rattle.jc_index.specs.Mentioned.{is_package, mentions_front};
ghost use Rattle.jc_index.specs.Root.{fault_of_root};
ghost use Rattle.jc_index.specs.Sides.{IsSide, overlap_of};
ghost use Rattle.jc_rows.specs.Keys.{numbered_keys, declares_with_rows, IsNumber, AreDistinct};
ghost use Rattle.jc_rows.specs.Rows.{IsFieldRow, IsMethodRow};
ghost use Rattle.jc_rows.specs.WithRows.{has_rows};
ghost use Rattle.jc_table.specs.Tables.{HasCause};

use jc_base::name::Name;
use jc_facts::class_facts::ClassFacts;
use jc_facts::key::Key;
use jc_facts::link_error::LinkError;
use jc_index::class_list::ClassList;
use jc_index::hierarchy::Hierarchy;
use jc_index::ids::ClassId;
use jc_index::index::Index;
use jc_index::mentioned::begins;
use jc_index::modules::Exports;
use jc_index::overlap::first_overlap;
use jc_index::root::{RootPart, root_fault};
use jc_index::shared_platform::SharedPlatform;
use jc_index::side::Side;
use jc_loading::faults::{Loading, load_all};
use jc_loading::platform::Platform;
use jc_rows::row::RowItem;
use jc_rows::rows::Rows;
use std::alloc::{AllocError, Global};
use std::marker::Model;
use thiserror::Error;

/// Why a table isn't built.
#[derive(Debug, Drop, Error)]
pub enum TableError {
    /// The first part of the platform's `java/lang/Object` that isn't as it has to be.
    #[error("java/lang/Object: {0:?}")]
    BadRoot(RootPart),
    /// The first name in byte order that both the platform and the release declare.
    #[error("{0:?} is declared twice")]
    Overlap(Name),
    /// Out of memory.
    #[error("out of memory")]
    Memory,
}

/// The classes of a platform with one release of a library, found by their names. A contract sees
/// it as the side.
pub struct Table {
    // The classes, and what stands above each.
    hierarchy: Hierarchy,
    // For each class its load fault.
    faults: Vec<Option<LinkError>>,
    // For each class that has rows what the lookups from it find.
    rows: Rows,
}

// One call at each exit of a function that owns it, where a derived drop is written out.
impl Drop for Table {
    fn drop(self) {
        let Table {
            hierarchy: _,
            faults: _,
            rows: _,
        } = self;
    }
}

impl Model for Table {
    ghost use Rattle.jc_facts.specs.world.World.{World};

    ghost Value = { World };

    ghost use Rattle.jc_table.specs.TableFields.{IsTable};

    ghost view = { λ t. t.hierarchy };

    ghost invariant = { IsTable };
}

// The table of a side. `loads` are places of classes that load in the platform alone.
fn of_side(alloc: Global, side: Side, loads: &[usize]) -> Result<Table, AllocError>
    requires side { IsSide side }
    requires loads { AreLoads side.platform loads.now }
    ensures { IfOk result (λ table. table ≡ side) }
{
    let index = Index::new(alloc, side)?;
    let Loading { faults, order } = load_all(alloc, &index, loads)?;
    let hierarchy = Hierarchy::new(alloc, index)?;
    let rows = Rows::new(alloc, &hierarchy, order.as_slice())?;
    Ok(Table {
        hierarchy,
        faults,
        rows,
    })
}

// The packages that a release's module exports, where it has a list of them.
fn exports_of(alloc: Global, packages: Option<Vec<Name>>) -> Result<Option<Exports>, AllocError>
    ensures { IfOk result (λ exports. exports ≡ option_map (λ ns. ns.items) packages) }
{
    match packages {
        Some(packages) => Ok(Some(Exports::new(alloc, packages)?)),
        None => Ok(None),
    }
}

// The side of a platform, a release and clients in a run with modules.
fn modular_side_of(
    alloc: Global,
    platform: SharedPlatform,
    release: Vec<ClassFacts>,
    clients: Vec<ClassFacts>,
    exports: Option<Vec<Name>>,
) -> Result<Side, AllocError>
    requires differ { IsTrue (differ_by_name (release.items ++ clients.items)) }
    requires few { length platform + (length release.items + length clients.items) ≤ MAX_SIDE_CLASSES }
    ensures { IfOk result (λ side. side ≡ with_clients (modular_side (option_map (λ ns. ns.items) exports) platform release.items) clients.items) }
{
    let of_release = release.len();
    let mut together = release;
    let mut clients = clients;
    together.append(&mut clients)?;
    let beside = ClassList::new(alloc, together)?;
    let exports = exports_of(alloc, exports)?;
    Ok(Side::modular(platform, beside, of_release, exports))
}

// Copies of these classes.
fn copies_of(alloc: Global, classes: &[ClassFacts]) -> Result<Vec<ClassFacts>, AllocError>
    ensures { IfOk result (λ copies. copies.items ≡ classes.now) }
{
    let mut copies = Vec::with_capacity(alloc, classes.len())?;
    for class in classes {
        copies.push(class.copy(alloc)?)?;
    }
    Ok(copies)
}

impl Table {
    /// The table of a platform and a release: valid records, with names that differ in each of the
    /// two, and no more than 120,000 together. The platform is copied; `over` takes it as it is.
    ///
    /// # Errors
    ///
    /// `BadRoot` where the platform's `java/lang/Object` isn't as `RootPart` says, else `Overlap` where a
    /// name is in both. `Memory` where memory runs out; it comes in place of any but a bad root.
    pub fn build(
        alloc: Global,
        platform: &[ClassFacts],
        release: Vec<ClassFacts>,
    ) -> Result<Table, TableError>
        requires valid_platform { All IsValidClass platform.now }
        requires valid_release { All IsValidClass release.items }
        requires platform_differs { IsTrue (differ_by_name platform.now) }
        requires release_differs { IsTrue (differ_by_name release.items) }
        requires few { length platform.now + length release.items ≤ MAX_SIDE_CLASSES }
        ensures built { IfOk result (λ table. table ≡ side platform.now release.items) }
        ensures sound { IfOk result (λ _. (fault_of_root platform.now ≡ None) × (overlap_of platform.now release.items ≡ None)) }
        ensures refused { IfErr result (HasCause platform.now release.items) }
    {
        if let Some(part) = root_fault(platform) {
            return Err(TableError::BadRoot(part));
        }
        let Ok(copies) = copies_of(alloc, platform) else {
            return Err(TableError::Memory);
        };
        let Ok(platform) = Platform::new(alloc, copies) else {
            return Err(TableError::Memory);
        };
        Table::over(alloc, &platform, release)
    }

    /// The same table, of a platform that it shares with others.
    ///
    /// # Errors
    ///
    /// Those of `build`.
    pub fn over(
        alloc: Global,
        platform: &Platform,
        release: Vec<ClassFacts>,
    ) -> Result<Table, TableError>
        requires valid_platform { All IsValidClass platform.now }
        requires valid_release { All IsValidClass release.items }
        requires platform_differs { IsTrue (differ_by_name platform.now) }
        requires release_differs { IsTrue (differ_by_name release.items) }
        requires few { length platform.now + length release.items ≤ MAX_SIDE_CLASSES }
        ensures built { IfOk result (λ table. table ≡ side platform.now release.items) }
        ensures sound { IfOk result (λ _. (fault_of_root platform.now ≡ None) × (overlap_of platform.now release.items ≡ None)) }
        ensures refused { IfErr result (HasCause platform.now release.items) }
    {
        if let Some(part) = root_fault(platform.classes()) {
            return Err(TableError::BadRoot(part));
        }
        match first_overlap(alloc, platform.list(), release.as_slice()) {
            Ok(None) => {}
            Ok(Some(name)) => return Err(TableError::Overlap(name)),
            Err(_) => return Err(TableError::Memory),
        }
        let Ok(classes) = platform.share() else {
            return Err(TableError::Memory);
        };
        let Ok(release) = ClassList::new(alloc, release) else {
            return Err(TableError::Memory);
        };
        match of_side(alloc, Side::new(classes, release), platform.loads()) {
            Ok(table) => Ok(table),
            Err(_) => Err(TableError::Memory),
        }
    }

    /// The table of a platform, a release and clients in a run with modules (JVMS 5.3.6): the
    /// release's module exports these packages, and clients are in another; without such a list the
    /// release is in theirs. A side of a comparison has no clients. No client has the name of another
    /// class.
    ///
    /// # Errors
    ///
    /// Those of `build`.
    pub fn build_modular(
        alloc: Global,
        platform: &[ClassFacts],
        release: Vec<ClassFacts>,
        clients: Vec<ClassFacts>,
        exports: Option<Vec<Name>>,
    ) -> Result<Table, TableError>
        requires valid_platform { All IsValidClass platform.now }
        requires valid_release { All IsValidClass release.items }
        requires valid_clients { All IsValidClass clients.items }
        requires platform_differs { IsTrue (differ_by_name platform.now) }
        requires beside_differ { IsTrue (differ_by_name (release.items ++ clients.items)) }
        requires clients_apart { All (λ c. is_some (class_named platform.now c.name) ≡ false) clients.items }
        requires few { length platform.now + (length release.items + length clients.items) ≤ MAX_SIDE_CLASSES }
        ensures built { IfOk result (λ table. table ≡ with_clients (modular_side (option_map (λ ns. ns.items) exports) platform.now release.items) clients.items) }
        ensures sound { IfOk result (λ _. (fault_of_root platform.now ≡ None) × (overlap_of platform.now release.items ≡ None)) }
        ensures refused { IfErr result (HasCause platform.now release.items) }
    {
        if let Some(part) = root_fault(platform) {
            return Err(TableError::BadRoot(part));
        }
        let Ok(copies) = copies_of(alloc, platform) else {
            return Err(TableError::Memory);
        };
        let Ok(platform) = Platform::new(alloc, copies) else {
            return Err(TableError::Memory);
        };
        Table::over_modular(alloc, &platform, release, clients, exports)
    }

    /// The same table, of a platform that it shares with others.
    ///
    /// # Errors
    ///
    /// Those of `build`.
    pub fn over_modular(
        alloc: Global,
        platform: &Platform,
        release: Vec<ClassFacts>,
        clients: Vec<ClassFacts>,
        exports: Option<Vec<Name>>,
    ) -> Result<Table, TableError>
        requires valid_platform { All IsValidClass platform.now }
        requires valid_release { All IsValidClass release.items }
        requires valid_clients { All IsValidClass clients.items }
        requires platform_differs { IsTrue (differ_by_name platform.now) }
        requires beside_differ { IsTrue (differ_by_name (release.items ++ clients.items)) }
        requires clients_apart { All (λ c. is_some (class_named platform.now c.name) ≡ false) clients.items }
        requires few { length platform.now + (length release.items + length clients.items) ≤ MAX_SIDE_CLASSES }
        ensures built { IfOk result (λ table. table ≡ with_clients (modular_side (option_map (λ ns. ns.items) exports) platform.now release.items) clients.items) }
        ensures sound { IfOk result (λ _. (fault_of_root platform.now ≡ None) × (overlap_of platform.now release.items ≡ None)) }
        ensures refused { IfErr result (HasCause platform.now release.items) }
    {
        if let Some(part) = root_fault(platform.classes()) {
            return Err(TableError::BadRoot(part));
        }
        match first_overlap(alloc, platform.list(), release.as_slice()) {
            Ok(None) => {}
            Ok(Some(name)) => return Err(TableError::Overlap(name)),
            Err(_) => return Err(TableError::Memory),
        }
        let Ok(classes) = platform.share() else {
            return Err(TableError::Memory);
        };
        let Ok(side) = modular_side_of(alloc, classes, release, clients, exports) else {
            return Err(TableError::Memory);
        };
        let Ok(table) = of_side(alloc, side, platform.loads()) else {
            return Err(TableError::Memory);
        };
        Ok(table)
    }

    /// Its classes and their order, as the plain programs take them.
    pub fn index(&self) -> &Index
        ensures { result.now ≡ self.now }
    {
        self.hierarchy.index()
    }

    /// Its classes and what stands above each of them, as the choice among superinterfaces takes them.
    pub fn hierarchy(&self) -> &Hierarchy
        ensures { result.now ≡ self.now }
    {
        &self.hierarchy
    }

    // Its classes by their places.
    fn side(&self) -> &Side
        ensures { result.now ≡ self.now }
    {
        self.hierarchy.index().side()
    }

    /// How many classes there are.
    pub fn count(&self) -> u32
        ensures count { result ≡ size self.now }
        ensures side { IsSide self.now }
    {
        self.hierarchy.count()
    }

    /// The class of this number; none exactly where there are no more than so many classes.
    pub fn id(&self, n: u32) -> Option<ClassId>
        ensures value { result ≡ some_where (nat_lt n (size self.now)) n }
        ensures of_table { IfSome result (λ id. id < size self.now) }
    {
        self.hierarchy.index().id(n)
    }

    /// The class of this name; none where there is none (JVMS 5.3).
    pub fn get(&self, name: &[u8]) -> Option<ClassId>
        ensures value { result ≡ id_of self.now name.now }
        ensures of_table { IfSome result (λ id. id < size self.now) }
    {
        self.hierarchy.get(name)
    }

    /// The record of the class.
    pub fn facts(&self, id: ClassId) -> &ClassFacts
        requires { id < size self.now }
        ensures { Some result.now ≡ find_class self.now (name_at self.now id) }
    {
        self.hierarchy.facts(id)
    }

    /// The class that the class names as its superclass (JVMS 4.1); none where it names none, or
    /// there is none of this name.
    pub fn superclass(&self, id: ClassId) -> Option<ClassId>
        requires { id < size self.now }
        ensures value { result ≡ superclass_of self.now (name_at self.now id) }
        ensures of_table { IfSome result (λ id. id < size self.now) }
    {
        self.hierarchy.superclass(id)
    }

    /// Whether the other class stands in the class's chain: it is the class, or one further up its
    /// superclasses. Classes on a cycle stand above each other.
    pub fn has_super(&self, id: ClassId, of: ClassId) -> bool
        requires class { id < size self.now }
        requires above { of < size self.now }
        ensures { result ≡ in_chain self.now (name_at self.now id) (name_at self.now of) }
    {
        self.hierarchy.has_super(id, of)
    }

    /// Whether the class is visible: classes of every module may name it, where it is public (JVMS
    /// 5.4.4). It takes no memory.
    pub fn is_visible(&self, id: ClassId) -> bool
        requires { id < size self.now }
        ensures { result ≡ is_visible self.now (name_at self.now id) }
    {
        self.index().is_visible(id)
    }

    /// Whether the class is visible from the other one: that one's module may name it, where it is
    /// public (JVMS 5.4.4). It takes no memory.
    pub fn is_visible_from(&self, id: ClassId, from: ClassId) -> bool
        requires class { id < size self.now }
        requires from { from < size self.now }
        ensures { result ≡ is_visible_from self.now (name_at self.now from) (name_at self.now id) }
    {
        self.index().is_visible_from(id, from)
    }

    /// Whether the class is in the module of the clients (JVMS 5.3.6). It takes no memory.
    pub fn is_of_clients(&self, id: ClassId) -> bool
        requires { id < size self.now }
        ensures { result ≡ same_module OfClients (module_of self.now (name_at self.now id)) }
    {
        self.index().is_of_clients(id)
    }

    /// Whether the class is one of the platform's.
    pub fn in_platform(&self, id: ClassId) -> bool
        requires { id < size self.now }
        ensures { result ≡ is_some (class_named self.now.platform (name_at self.now id)) }
    {
        self.hierarchy.index().in_platform(id)
    }

    /// The interfaces that the class names, and those that they lead to in turn (JVMS 4.1), in any
    /// order; not those of its superclasses.
    pub fn interfaces(&self, id: ClassId) -> &[ClassId]
        requires { id < size self.now }
        ensures { AreAbove self.now (name_at self.now id) result.now }
    {
        self.hierarchy.interfaces(id)
    }

    /// Whether the other class is the class itself or one of its superinterfaces: an interface that
    /// a class of its chain names, or one that such an interface names in turn (JVMS 4.1).
    pub fn is_below(&self, id: ClassId, of: ClassId) -> bool
        requires class { id < size self.now }
        requires above { of < size self.now }
        ensures { result ≡ (same (name_at self.now id) (name_at self.now of) || is_superinterface self.now (name_at self.now id) (name_at self.now of)) }
    {
        self.hierarchy.is_below(id, of)
    }

    /// Whether a class is of this package: a name up to its last `/`, or nothing (JVMS 5.3).
    pub fn has_package(&self, package: &[u8]) -> bool
        ensures { result ≡ is_package self.now «package».now }
    {
        self.side().has_package(package)
    }

    /// Whether a class names this one as its superclass or as an interface (JVMS 4.1).
    pub fn names_super(&self, name: &Name) -> bool
        ensures { result ≡ is_named_above self.now name.now }
    {
        self.side().names_super(name.as_bytes())
    }

    /// Whether a name that a class has, names above itself or permits to extend it begins with these
    /// bytes.
    pub fn begins(&self, front: &[u8]) -> bool
        ensures { result ≡ mentions_front self.now front.now }
    {
        begins(self.side(), front)
    }

    /// How many names its classes have, name above themselves or permit to extend them, each counted
    /// as often as a class does so; fewer than 2^63.
    pub fn mention_count(&self) -> usize
        ensures count { result ≡ length (all_mentions (classes self.now)) }
        ensures small { result < 2 ^ 63 }
    {
        self.side().mention_count()
    }

    /// The load faults of all classes, in byte order of their names; none where a class loads
    /// (JVMS 5.3.5).
    pub fn load_faults(&self) -> &[Option<LinkError>]
        ensures { result.now ≡ map (load_fault self.now) (names self.now) }
    {
        self.faults.as_slice()
    }

    /// The load fault of the class; none where it loads (JVMS 5.3.5).
    pub fn fault_at(&self, id: ClassId) -> Option<LinkError>
        requires { id < size self.now }
        ensures { result ≡ load_fault self.now (name_at self.now id) }
    {
        self.faults[id.number() as usize]
    }

    /// How many different keys the fields and methods of its classes that have rows have.
    pub fn key_count(&self) -> usize
        ensures count { result ≡ length (numbered_keys self.now) }
        ensures distinct { AreDistinct (numbered_keys self.now) }
        ensures known { (k : Key) → has_key k (numbered_keys self.now) ≡ list_any (declares_with_rows self.now k) (classes self.now) }
    {
        self.rows.keys.count()
    }

    /// The number of the key, which is less than their count; none exactly where no class that has
    /// rows declares a field or a method of the key. It takes no memory.
    pub fn key_number(&self, key: &Key) -> Option<usize>
        ensures value { IsNumber (numbered_keys self.now) key.now result }
        ensures below { IfSome result (λ n. n < length (numbered_keys self.now)) }
        ensures known { is_some result ≡ list_any (declares_with_rows self.now key.now) (classes self.now) }
    {
        self.rows.keys.number(key)
    }

    /// The key of this number; none exactly where the number isn't less than their count.
    pub fn key_at(&self, number: usize) -> Option<&Key>
        ensures { option_map (λ k. k.now) result ≡ slice_get (numbered_keys self.now) number }
    {
        self.rows.keys.at(number)
    }

    // Whether the class has rows.
    fn is_made(&self, id: ClassId) -> bool
        requires { id < size self.now }
        ensures { result ≡ has_rows self.now (name_at self.now id) }
    {
        self.rows.made[id.number() as usize]
    }

    /// The fields that a reference to the class finds (JVMS 5.4.3.2): one entry for each key of which
    /// it finds one, and no other, in rising order of the keys' numbers. The class has to load.
    ///
    /// Rows are made of `java/lang/Object`, of the classes of the release that load, of those of the
    /// platform that stand on these, and of what is above them. Of any other class there is none.
    pub fn field_row(&self, id: ClassId) -> Option<&[RowItem]>
        requires class { id < size self.now }
        requires loads { load_fault self.now (name_at self.now id) ≡ None }
        ensures row { IfSome result (λ row. IsFieldRow self.now (name_at self.now id) row.now) }
        ensures made { is_some result ≡ has_rows self.now (name_at self.now id) }
    {
        if self.is_made(id) {
            Some(self.rows.fields[id.number() as usize].as_slice())
        } else {
            None
        }
    }

    /// The methods that a reference to the class or the interface may find (JVMS 5.4.3.3, 5.4.3.4):
    /// one entry for each key of which it may find one, and no other, in rising order of the keys'
    /// numbers. The class has to load. There is one where there is one of fields.
    pub fn method_row(&self, id: ClassId) -> Option<&[RowItem]>
        requires class { id < size self.now }
        requires loads { load_fault self.now (name_at self.now id) ≡ None }
        ensures row { IfSome result (λ row. IsMethodRow self.now (name_at self.now id) row.now) }
        ensures made { is_some result ≡ has_rows self.now (name_at self.now id) }
    {
        if self.is_made(id) {
            Some(self.rows.methods[id.number() as usize].as_slice())
        } else {
            None
        }
    }
}
