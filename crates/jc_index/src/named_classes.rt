//! Classes in byte order of their names.
ghost use Rattle.std.specs.Prelude.{◌≡◌, ◌<◌, Some, None, is_some, drop, length, slice_get, IfOk, IfSome};
ghost use Rattle.jc_facts.specs.declared.class_facts.ClassFacts.{ClassFacts as FactsOf};
ghost use Rattle.jc_facts.specs.world.World.{World, side, classes, size, find_class, class_named};
ghost use Rattle.jc_facts.specs.world.Modules.{module_of};
ghost use Rattle.jc_facts.specs.world.Search.{supers};
ghost use Rattle.jc_index.specs.Ids.{name_at, id_of, superclass_of, name_in};
ghost use Rattle.jc_index.specs.SideModules.{module_view};
ghost use Rattle.jc_index.specs.Sides.{IsSide};

use crate::ids::ClassId;
use crate::modules::Module;
use crate::order::{merged, numbers};
use crate::side::Side;
use jc_facts::class_facts::ClassFacts;
use std::alloc::{AllocError, Global};
use std::marker::Model;

/// The classes of a side, found by their names, and their order by name. A contract sees them as
/// the side.
pub(crate) struct NamedClasses {
    side: Side,
    // Places of its classes, in byte order of names.
    order: Vec<usize>,
    // For each place the number of the class there.
    numbers: Vec<u32>,
}

// One call at each exit of a function that owns it, where a derived drop is written out.
impl Drop for NamedClasses {
    fn drop(self) {
        let NamedClasses {
            side: _,
            order: _,
            numbers: _,
        } = self;
    }
}

impl Model for NamedClasses {
    ghost use Rattle.jc_facts.specs.world.World.{World};

    ghost Value = { World };

    ghost use Rattle.jc_index.specs.steps.NamedClasses.{AreNamedClasses};

    ghost view = { λ i. i.side };

    ghost invariant = { AreNamedClasses };
}

impl NamedClasses {
    /// The classes of a side.
    ///
    /// # Errors
    ///
    /// `AllocError` where memory runs out.
    pub fn new(alloc: Global, side: Side) -> Result<NamedClasses, AllocError>
        requires { IsSide side }
        ensures { IfOk result (λ classes. classes ≡ side) }
    {
        let _few = side.count();
        let order = merged(alloc, &side)?;
        let numbers = numbers(alloc, &side, order.as_slice())?;
        Ok(NamedClasses {
            side,
            order,
            numbers,
        })
    }

    /// The side.
    pub fn side(&self) -> &Side
        ensures { result.now ≡ self.now }
    {
        &self.side
    }

    /// How many classes there are.
    pub fn count(&self) -> u32
        ensures count { result ≡ size self.now }
        ensures side { IsSide self.now }
    {
        self.order.len() as u32
    }

    /// The class of this name; none where there is none.
    pub fn get(&self, name: &[u8]) -> Option<ClassId>
        ensures value { result ≡ id_of self.now name.now }
        ensures of_table { IfSome result (λ id. id < size self.now) }
    {
        match self.side.place(name) {
            Some(place) => Some(ClassId::new(self.numbers[place])),
            None => None,
        }
    }

    /// The class at this place.
    pub fn id_at(&self, place: usize) -> ClassId
        requires { place < length (classes self.now) }
        ensures of_table { result < size self.now }
        ensures named { name_at self.now result ≡ name_in (classes self.now) place }
    {
        ClassId::new(self.numbers[place])
    }

    /// The place of the class.
    pub fn place(&self, id: ClassId) -> usize
        requires { id < size self.now }
        ensures within { result < length (classes self.now) }
        ensures named { name_in (classes self.now) result ≡ name_at self.now id }
    {
        self.order[id.number() as usize]
    }

    /// The record of the class.
    pub fn facts(&self, id: ClassId) -> &ClassFacts
        requires { id < size self.now }
        ensures { Some result.now ≡ find_class self.now (name_at self.now id) }
    {
        self.side.at(self.order[id.number() as usize])
    }

    /// The same as `get`, where the name is one of those that the class has above itself, of which
    /// the superclass is the first.
    pub fn get_above(&self, id: ClassId, at: usize, name: &[u8]) -> Option<ClassId>
        requires inside { id < size self.now }
        requires named { (c : FactsOf) → find_class self.now (name_at self.now id) ≡ Some c → slice_get (supers c) at ≡ Some name.now }
        ensures { result ≡ id_of self.now name.now }
    {
        match self
            .side
            .place_above(self.order[id.number() as usize], at, name)
        {
            Some(place) => Some(ClassId::new(self.numbers[place])),
            None => None,
        }
    }

    /// The class that the class names as its superclass; none where there is none of this name.
    pub fn superclass(&self, id: ClassId) -> Option<ClassId>
        requires { id < size self.now }
        ensures { result ≡ superclass_of self.now (name_at self.now id) }
    {
        match &self.facts(id).superclass {
            Some(name) => self.get_above(id, 0, name.as_bytes()),
            None => None,
        }
    }

    /// Whether the class is one of the platform's.
    pub fn in_platform(&self, id: ClassId) -> bool
        requires { id < size self.now }
        ensures { result ≡ is_some (class_named self.now.platform (name_at self.now id)) }
    {
        self.side.in_platform(self.order[id.number() as usize])
    }

    /// The module of the class.
    pub fn module_of(&self, id: ClassId) -> Module
        requires { id < size self.now }
        ensures { module_view result ≡ module_of self.now (name_at self.now id) }
    {
        self.side.module_at(self.order[id.number() as usize])
    }
}
