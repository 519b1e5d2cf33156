//! Classes in byte order of their names, and what each names above itself.
ghost use Rattle.std.specs.Prelude.{◌≡◌, ◌<◌, Some, is_some, length, nat_lt, IfOk, IfSome};
ghost use Rattle.std.specs.List.{All};
ghost use Rattle.jc_facts.specs.Names.{is_name_among};
ghost use Rattle.jc_facts.specs.Options.{some_where};
ghost use Rattle.jc_facts.specs.world.Mentioned.{permitted};
ghost use Rattle.jc_facts.specs.world.Modules.{OfClients, same_module, module_of, is_visible, is_visible_from};
ghost use Rattle.jc_facts.specs.world.World.{classes, size, find_class, class_named};
ghost use Rattle.jc_index.specs.Ids.{name_at, id_of, superclass_of, name_in};
ghost use Rattle.jc_index.specs.Interfaces.{interfaces_of};
ghost use Rattle.jc_index.specs.Sides.{IsSide};

use crate::ids::ClassId;
use crate::modules::{Module, is_same};
use crate::named_above::{interfaces, superclasses};
use crate::named_classes::NamedClasses;
use crate::seals::{Seal, has_name, is_permitted, seals};
use crate::side::Side;
use jc_base::items::Items;
use jc_base::name::Name;
use jc_facts::class_facts::ClassFacts;
use std::alloc::{AllocError, Global};
use std::marker::Model;

/// The classes of a side, their order by name, and the classes that each names above itself. A
/// contract sees it as the side.
pub struct Index {
    classes: NamedClasses,
    // For each class the one that it names as its superclass.
    superclasses: Vec<Option<ClassId>>,
    // For each class those that it names as its interfaces.
    interfaces: Vec<Items<Option<ClassId>>>,
    // The names that classes permit to extend them, of those where it is worth it.
    seals: Vec<Seal>,
}

// One call at each exit of a function that owns it, where a derived drop is written out.
impl Drop for Index {
    fn drop(self) {
        let Index {
            classes: _,
            superclasses: _,
            interfaces: _,
            seals: _,
        } = self;
    }
}

impl Model for Index {
    ghost use Rattle.jc_facts.specs.world.World.{World};

    ghost Value = { World };

    ghost use Rattle.jc_index.specs.IndexFields.{IsIndex};

    ghost view = { λ i. i.classes };

    ghost invariant = { IsIndex };
}

impl Index {
    /// The index of a side.
    ///
    /// # Errors
    ///
    /// `AllocError` where memory runs out.
    pub fn new(alloc: Global, side: Side) -> Result<Index, AllocError>
        requires { IsSide side }
        ensures { IfOk result (λ index. index ≡ side) }
    {
        let classes = NamedClasses::new(alloc, side)?;
        let superclasses = superclasses(alloc, &classes)?;
        let interfaces = interfaces(alloc, &classes)?;
        let seals = seals(alloc, &classes)?;
        Ok(Index {
            classes,
            superclasses,
            interfaces,
            seals,
        })
    }

    /// The side.
    pub fn side(&self) -> &Side
        ensures { result.now ≡ self.now }
    {
        self.classes.side()
    }

    /// How many classes there are.
    pub fn count(&self) -> u32
        ensures count { result ≡ size self.now }
        ensures side { IsSide self.now }
    {
        self.classes.count()
    }

    /// The class of this number; none where there are no more than so many classes.
    pub fn id(&self, n: u32) -> Option<ClassId>
        ensures value { result ≡ some_where (nat_lt n (size self.now)) n }
        ensures of_table { IfSome result (λ id. id < size self.now) }
    {
        if n < self.count() {
            Some(ClassId::new(n))
        } else {
            None
        }
    }

    /// The class of this name; none where there is none.
    pub fn get(&self, name: &[u8]) -> Option<ClassId>
        ensures value { result ≡ id_of self.now name.now }
        ensures of_table { IfSome result (λ id. id < size self.now) }
    {
        self.classes.get(name)
    }

    /// The class at this place of the side: the platform's classes come first, then those of the
    /// release, then those of clients.
    pub fn id_at(&self, place: usize) -> ClassId
        requires { place < length (classes self.now) }
        ensures of_table { result < size self.now }
        ensures named { name_at self.now result ≡ name_in (classes self.now) place }
    {
        self.classes.id_at(place)
    }

    /// The place of the class on the side.
    pub fn place(&self, id: ClassId) -> usize
        requires { id < size self.now }
        ensures within { result < length (classes self.now) }
        ensures named { name_in (classes self.now) result ≡ name_at self.now id }
    {
        self.classes.place(id)
    }

    /// The record of the class.
    pub fn facts(&self, id: ClassId) -> &ClassFacts
        requires { id < size self.now }
        ensures { Some result.now ≡ find_class self.now (name_at self.now id) }
    {
        self.classes.facts(id)
    }

    /// The class that the class names as its superclass; none where there is none of this name.
    pub fn superclass(&self, id: ClassId) -> Option<ClassId>
        requires { id < size self.now }
        ensures value { result ≡ superclass_of self.now (name_at self.now id) }
        ensures of_table { IfSome result (λ id. id < size self.now) }
    {
        self.superclasses[id.number() as usize]
    }

    /// The classes that the class names as its interfaces, in the order of its file; none at a name
    /// that no class has.
    pub fn interfaces(&self, id: ClassId) -> &[Option<ClassId>]
        requires { id < size self.now }
        ensures value { result.now ≡ interfaces_of self.now (name_at self.now id) }
        ensures of_table { All (λ above. IfSome above (λ id. id < size self.now)) result.now }
    {
        self.interfaces[id.number() as usize].as_slice()
    }

    /// Whether the name is one of those that the class, whose record this is, permits to extend it
    /// (JVMS 4.7.31). It takes no memory.
    pub fn permits(&self, id: ClassId, facts: &ClassFacts, name: &Name) -> bool
        requires { Some facts.now ≡ find_class self.now (name_at self.now id) }
        ensures { result ≡ is_name_among (permitted facts.now.permits) name.now }
    {
        match has_name(self.seals.as_slice(), id, name.as_bytes()) {
            Some(has) => has,
            None => is_permitted(facts, name),
        }
    }

    /// Whether the class is one of the platform's.
    pub fn in_platform(&self, id: ClassId) -> bool
        requires { id < size self.now }
        ensures { result ≡ is_some (class_named self.now.platform (name_at self.now id)) }
    {
        self.classes.in_platform(id)
    }

    /// Whether the class is visible: classes of every module may name it, where it is public (JVMS
    /// 5.4.4). It takes no memory.
    pub fn is_visible(&self, id: ClassId) -> bool
        requires { id < size self.now }
        ensures { result ≡ is_visible self.now (name_at self.now id) }
    {
        let name = self.facts(id).name.as_bytes();
        self.side().modules().show(self.classes.module_of(id), name)
    }

    /// Whether the class is visible from the other one: that one's module may name it, where it is
    /// public (JVMS 5.4.4). It takes no memory.
    pub fn is_visible_from(&self, id: ClassId, from: ClassId) -> bool
        requires class { id < size self.now }
        requires from { from < size self.now }
        ensures { result ≡ is_visible_from self.now (name_at self.now from) (name_at self.now id) }
    {
        let name = self.facts(id).name.as_bytes();
        self.side().modules().show_to(
            self.classes.module_of(from),
            self.classes.module_of(id),
            name,
        )
    }

    /// Whether the class is in the module of the clients (JVMS 5.3.6). It takes no memory.
    pub fn is_of_clients(&self, id: ClassId) -> bool
        requires { id < size self.now }
        ensures { result ≡ same_module OfClients (module_of self.now (name_at self.now id)) }
    {
        is_same(Module::OfClients, self.classes.module_of(id))
    }
}
