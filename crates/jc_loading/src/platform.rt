//! The classes of a platform, which the sides of its releases share, with what is found out of them
//! once.
ghost use Rattle.std.specs.Prelude.{◌≡◌, ◌<◌, ◌≤◌, [], map, length, None, IfOk, IsTrue};
ghost use Rattle.std.specs.List.{All};
ghost use Rattle.jc_facts.specs.world.World.{differ_by_name, classes, side, size};
ghost use Rattle.jc_facts.specs.file.Valid.{IsValidClass};
ghost use Rattle.jc_index.specs.Ids.{name_at, name_in};
ghost use Rattle.jc_loading.specs.PlatformLoads.{AreLoads, AreAllLoads};
ghost use Rattle.jc_index.specs.Root.{fault_of_root};
ghost use Rattle.jc_facts.specs.declared.limits.TheConstants.{MAX_SIDE_CLASSES};

use crate::faults::{Loading, load_all};
use jc_facts::class_facts::ClassFacts;
use jc_facts::limits::MAX_SIDE_CLASSES;
use jc_index::class_list::ClassList;
use jc_index::ids::ClassId;
use jc_index::index::Index;
use jc_index::root::root_fault;
use jc_index::shared_platform::SharedPlatform;
use jc_index::side::Side;
use std::alloc::{AllocError, Global};
use std::marker::Model;

/// The classes of a platform. A contract sees it as their list.
pub struct Platform {
    list: SharedPlatform,
    // Places of classes that load without any release, each after those that it names above itself: of
    // all of them, where the platform may have a side.
    loads: Vec<usize>,
}

// One call at each exit of a function that owns it, where a derived drop is written out.
impl Drop for Platform {
    fn drop(self) {
        let Platform { list: _, loads: _ } = self;
    }
}

impl Model for Platform {
    ghost use Rattle.std.specs.Prelude.{List};
    ghost use Rattle.jc_facts.specs.declared.class_facts.ClassFacts.{ClassFacts};

    ghost Value = { List ClassFacts };

    ghost use Rattle.jc_loading.specs.PlatformFields.{IsPlatform};

    ghost view = { λ p. p.list };

    ghost invariant = { IsPlatform };
}

// The places of the classes of these numbers.
fn places_of(alloc: Global, index: &Index, ids: &[ClassId]) -> Result<Vec<usize>, AllocError>
    requires { All (λ n. n < size index.now) ids.now }
    ensures within { IfOk result (λ places. All (λ at. at < length (classes index.now)) places.items) }
    ensures named { IfOk result (λ places. map (name_in (classes index.now)) places.items ≡ map (name_at index.now) ids.now) }
{
    let mut places = Vec::with_capacity(alloc, ids.len())?;
    for id in ids {
        places.push(index.place(*id))?;
    }
    Ok(places)
}

// The index of the platform alone, as a side whose release has no class.
fn index_alone(alloc: Global, list: &SharedPlatform) -> Result<Index, AllocError>
    requires valid { All IsValidClass list.now }
    requires differ { IsTrue (differ_by_name list.now) }
    requires root { fault_of_root list.now ≡ None }
    requires few { length list.now ≤ MAX_SIDE_CLASSES }
    ensures { IfOk result (λ index. index ≡ side list.now []) }
{
    let none = ClassList::new(alloc, Vec::new(alloc))?;
    let index = Index::new(alloc, Side::new(list.share()?, none))?;
    Ok(index)
}

// The places of the classes that load without any release, each after those that it names above
// itself. They are found out of an index of the platform alone.
fn places_alone(alloc: Global, list: &SharedPlatform) -> Result<Vec<usize>, AllocError>
    requires valid { All IsValidClass list.now }
    requires differ { IsTrue (differ_by_name list.now) }
    requires root { fault_of_root list.now ≡ None }
    requires few { length list.now ≤ MAX_SIDE_CLASSES }
    ensures loads { IfOk result (λ places. AreLoads list.now places.items) }
    ensures all { IfOk result (λ places. AreAllLoads list.now places.items) }
{
    let index = index_alone(alloc, list)?;
    let nothing_known = Vec::new(alloc);
    let Loading { faults: _, order } = load_all(alloc, &index, nothing_known.as_slice())?;
    let places = places_of(alloc, &index, order.as_slice())?;
    Ok(places)
}

// The same; none where no side of the platform may be made.
fn loads_of(alloc: Global, list: &SharedPlatform) -> Result<Vec<usize>, AllocError>
    requires valid { All IsValidClass list.now }
    requires differ { IsTrue (differ_by_name list.now) }
    ensures loads { IfOk result (λ places. AreLoads list.now places.items) }
    ensures all { IfOk result (λ places. fault_of_root list.now ≡ None → length list.now ≤ MAX_SIDE_CLASSES → AreAllLoads list.now places.items) }
{
    let classes = list.list().classes();
    if classes.len() > MAX_SIDE_CLASSES {
        return Ok(Vec::new(alloc));
    }
    if root_fault(classes).is_some() {
        return Ok(Vec::new(alloc));
    }
    let places = places_alone(alloc, list)?;
    Ok(places)
}

impl Platform {
    /// The platform of these classes, valid records whose names differ, for the sides of one or several
    /// releases: what loads without any of them is found out here.
    ///
    /// # Errors
    ///
    /// `AllocError` where memory runs out.
    pub fn new(alloc: Global, classes: Vec<ClassFacts>) -> Result<Platform, AllocError>
        requires valid { All IsValidClass classes.items }
        requires differ { IsTrue (differ_by_name classes.items) }
        ensures { IfOk result (λ platform. platform ≡ classes.items) }
    {
        let list = ClassList::new(alloc, classes)?;
        let list = SharedPlatform::new(alloc, list)?;
        let loads = loads_of(alloc, &list)?;
        Ok(Platform { list, loads })
    }

    /// Its classes, as one more side keeps them. No class is copied.
    ///
    /// # Errors
    ///
    /// `AllocError` where they are shared as often as can be counted.
    pub fn share(&self) -> Result<SharedPlatform, AllocError>
        ensures { IfOk result (λ list. list ≡ self.now) }
    {
        self.list.share()
    }

    /// Its classes.
    pub fn classes(&self) -> &[ClassFacts]
        ensures { result.now ≡ self.now }
    {
        self.list().classes()
    }

    /// Its classes, with what is made of them once for all sides.
    pub fn list(&self) -> &ClassList
        ensures { result.now ≡ self.now }
    {
        self.list.list()
    }

    /// Places of classes that load without any release, each after those that it names above itself
    /// (JVMS 5.3.5). They load with each release; with one of them others may load too. Where the
    /// platform may have a side, as its `java/lang/Object` is as it has to be and it has at most
    /// [`MAX_SIDE_CLASSES`] classes, these are all that load without any; else there may be none.
    pub fn loads(&self) -> &[usize]
        ensures loads { AreLoads self.now result.now }
        ensures all { fault_of_root self.now ≡ None → length self.now ≤ MAX_SIDE_CLASSES → AreAllLoads self.now result.now }
    {
        self.loads.as_slice()
    }
}
