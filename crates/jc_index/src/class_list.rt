//! Classes that stand together, with what is made of them alone.
ghost use Rattle.std.specs.Prelude.{◌≡◌, ◌<◌, ◌^◌, length, is_some, IfOk, IfSome, IsTrue};
ghost use Rattle.std.specs.List.{list_any};
ghost use Rattle.jc_facts.specs.Names.{same, is_name_among, package_name};
ghost use Rattle.jc_facts.specs.world.Mentioned.{all_mentions};
ghost use Rattle.jc_facts.specs.world.Search.{supers};
ghost use Rattle.jc_facts.specs.world.World.{class_named, differ_by_name};
ghost use Rattle.jc_index.specs.Ids.{place_of};
ghost use Rattle.jc_index.specs.steps.Order.{IsOrder, names_at};

use crate::mentioned::MentionedNames;
use crate::names::{NumberedNames, numbered};
use crate::order::ordered;
use jc_facts::class_facts::ClassFacts;
use std::alloc::{AllocError, Global};
use std::marker::Model;

/// Classes of a platform or of a release, with what doesn't depend on those that they meet. A
/// contract sees it as their list.
pub struct ClassList {
    classes: Vec<ClassFacts>,
    // Their names, numbered as they stand.
    names: NumberedNames,
    // Their places, in byte order of their names.
    order: Vec<usize>,
    mentioned: MentionedNames,
}

// One call at each exit of a function that owns it, where a derived drop is written out.
impl Drop for ClassList {
    fn drop(self) {
        let ClassList {
            classes: _,
            names: _,
            order: _,
            mentioned: _,
        } = self;
    }
}

impl Model for ClassList {
    ghost use Rattle.std.specs.Prelude.{List};
    ghost use Rattle.jc_facts.specs.declared.class_facts.ClassFacts.{ClassFacts};

    ghost Value = { List ClassFacts };

    ghost use Rattle.jc_index.specs.steps.ClassLists.{IsClassList};

    ghost view = { λ l. l.classes.items };

    ghost invariant = { IsClassList };
}

impl ClassList {
    /// The list of these classes, whose names differ.
    ///
    /// # Errors
    ///
    /// `AllocError` where memory runs out.
    pub fn new(alloc: Global, classes: Vec<ClassFacts>) -> Result<ClassList, AllocError>
        requires { IsTrue (differ_by_name classes.items) }
        ensures { IfOk result (λ list. list ≡ classes.items) }
    {
        let names = numbered(alloc, classes.as_slice())?;
        let order = ordered(alloc, classes.as_slice())?;
        let mentioned = MentionedNames::new(alloc, classes.as_slice())?;
        Ok(ClassList {
            classes,
            names,
            order,
            mentioned,
        })
    }

    /// Its classes.
    pub fn classes(&self) -> &[ClassFacts]
        ensures { result.now ≡ self.now }
    {
        self.classes.as_slice()
    }

    /// Whether one of the classes has this name.
    pub fn has(&self, name: &[u8]) -> bool
        ensures { result ≡ is_some (class_named self.now name.now) }
    {
        self.names.has(name)
    }

    // The place of the class of this name; none where there is none.
    pub(crate) fn place(&self, name: &[u8]) -> Option<usize>
        ensures value { result ≡ place_of (names_at self.now) name.now }
        ensures of_list { IfSome result (λ place. place < length self.now) }
    {
        self.names.number(name)
    }

    // The places of the classes, in byte order of their names.
    pub(crate) fn order(&self) -> &[usize]
        ensures { IsOrder self.now result.now }
    {
        self.order.as_slice()
    }

    /// Whether a class is of this package: a name up to its last `/`, or nothing (JVMS 5.3).
    pub fn has_package(&self, package: &[u8]) -> bool
        ensures { result ≡ list_any (λ c. same (package_name c.name) «package».now) self.now }
    {
        self.mentioned.packages.has(package)
    }

    /// Whether a class names this one as its superclass or as an interface (JVMS 4.1).
    pub fn names_super(&self, name: &[u8]) -> bool
        ensures { result ≡ list_any (λ c. is_name_among (supers c) name.now) self.now }
    {
        self.mentioned.supers.has(name)
    }

    /// How many names the classes have, name above themselves or permit to extend them, each counted
    /// as often as a class does so; fewer than 2^62.
    pub fn mention_count(&self) -> usize
        ensures count { result ≡ length (all_mentions self.now) }
        ensures small { result < 2 ^ 62 }
    {
        self.mentioned.count
    }
}
