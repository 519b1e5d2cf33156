//! What stands above each class of a side: its superclass, and the interfaces that it leads to.
ghost use Rattle.std.specs.Prelude.{◌≡◌, ◌<◌, ◌||◌, Some, IfOk, IfSome};
ghost use Rattle.jc_facts.specs.Names.{same};
ghost use Rattle.jc_facts.specs.world.World.{size, find_class};
ghost use Rattle.jc_facts.specs.world.Hierarchy.{in_chain, is_superinterface};
ghost use Rattle.jc_index.specs.Above.{leads_by, AreAbove};
ghost use Rattle.jc_index.specs.Ids.{name_at, id_of, superclass_of};
ghost use Rattle.jc_index.specs.Sides.{IsSide};

use crate::above::interfaces_above;
use crate::class_lists::ClassLists;
use crate::ids::ClassId;
use crate::index::Index;
use jc_facts::class_facts::ClassFacts;
use std::alloc::{AllocError, Global};
use std::marker::Model;

/// The classes of a side with what stands above each of them. A contract sees it as the side.
pub struct Hierarchy {
    index: Index,
    // For each class the interfaces that it names, and those that they lead to.
    interfaces: ClassLists,
}

// One call at each exit of a function that owns it, where a derived drop is written out.
impl Drop for Hierarchy {
    fn drop(self) {
        let Hierarchy {
            index: _,
            interfaces: _,
        } = self;
    }
}

impl Model for Hierarchy {
    ghost use Rattle.jc_facts.specs.world.World.{World};

    ghost Value = { World };

    ghost use Rattle.jc_index.specs.HierarchyFields.{IsHierarchy};

    ghost view = { λ h. h.index };

    ghost invariant = { IsHierarchy };
}

impl Hierarchy {
    /// The hierarchy of the classes of an index.
    ///
    /// # Errors
    ///
    /// `AllocError` where memory runs out.
    pub fn new(alloc: Global, index: Index) -> Result<Hierarchy, AllocError>
        ensures { IfOk result (λ hierarchy. hierarchy ≡ index) }
    {
        let interfaces = interfaces_above(alloc, &index)?;
        Ok(Hierarchy { index, interfaces })
    }

    /// Its classes and their order.
    pub fn index(&self) -> &Index
        ensures { result.now ≡ self.now }
    {
        &self.index
    }

    /// How many classes there are.
    pub fn count(&self) -> u32
        ensures count { result ≡ size self.now }
        ensures side { IsSide self.now }
    {
        self.index.count()
    }

    /// The class of this name; none where there is none (JVMS 5.3).
    pub fn get(&self, name: &[u8]) -> Option<ClassId>
        ensures value { result ≡ id_of self.now name.now }
        ensures of_table { IfSome result (λ id. id < size self.now) }
    {
        self.index.get(name)
    }

    /// The record of the class.
    pub fn facts(&self, id: ClassId) -> &ClassFacts
        requires { id < size self.now }
        ensures { Some result.now ≡ find_class self.now (name_at self.now id) }
    {
        self.index.facts(id)
    }

    /// The class that the class names as its superclass (JVMS 4.1); none where it names none, or
    /// there is none of this name.
    pub fn superclass(&self, id: ClassId) -> Option<ClassId>
        requires { id < size self.now }
        ensures value { result ≡ superclass_of self.now (name_at self.now id) }
        ensures of_table { IfSome result (λ id. id < size self.now) }
    {
        self.index.superclass(id)
    }

    /// Whether the other class stands in the class's chain: it is the class, or one further up its
    /// superclasses. Classes on a cycle stand above each other.
    pub fn has_super(&self, id: ClassId, of: ClassId) -> bool
        requires class { id < size self.now }
        requires above { of < size self.now }
        ensures { result ≡ in_chain self.now (name_at self.now id) (name_at self.now of) }
    {
        let mut class = id;
        for _ in 0..self.count() {
            if class == of {
                return true;
            }
            class = match self.superclass(class) {
                Some(above) => above,
                None => return false,
            };
        }
        false
    }

    /// The interfaces that the class names, and those that they lead to in turn (JVMS 4.1), in any
    /// order; not those of its superclasses.
    pub fn interfaces(&self, id: ClassId) -> &[ClassId]
        requires { id < size self.now }
        ensures { AreAbove self.now (name_at self.now id) result.now }
    {
        self.interfaces.row(id)
    }

    // Whether the other class is an interface that the class names, or one that such an interface
    // leads to.
    fn leads_to(&self, id: ClassId, of: ClassId) -> bool
        requires class { id < size self.now }
        requires above { of < size self.now }
        ensures { result ≡ leads_by self.now (name_at self.now id) (name_at self.now of) }
    {
        self.interfaces.row(id).contains(&of)
    }

    // Whether the other class is a superinterface of the class: one that a class of its chain leads
    // to.
    fn has_superinterface(&self, id: ClassId, of: ClassId) -> bool
        requires class { id < size self.now }
        requires above { of < size self.now }
        ensures value { result ≡ is_superinterface self.now (name_at self.now id) (name_at self.now of) }
        ensures side { IsSide self.now }
    {
        let mut class = id;
        for _ in 0..self.count() {
            if self.leads_to(class, of) {
                return true;
            }
            class = match self.superclass(class) {
                Some(above) => above,
                None => return false,
            };
        }
        false
    }

    /// Whether the other class is the class itself or one of its superinterfaces: an interface that
    /// a class of its chain names, or one that such an interface names in turn (JVMS 4.1).
    pub fn is_below(&self, id: ClassId, of: ClassId) -> bool
        requires class { id < size self.now }
        requires above { of < size self.now }
        ensures { result ≡ (same (name_at self.now id) (name_at self.now of) || is_superinterface self.now (name_at self.now id) (name_at self.now of)) }
    {
        id == of || self.has_superinterface(id, of)
    }
}
