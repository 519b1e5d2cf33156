//! The classes of a platform, as several values keep them.
ghost use Rattle.std.specs.Prelude.{◌≡◌, IfOk};
ghost use Rattle.jc_index.specs.steps.PlacesAbove.{place_above as place_of_super};
ghost use Rattle.jc_index.specs.steps.Walking.{HavePlatformFinals};

use crate::class_list::ClassList;
use crate::final_keys::FinalKeys;
use crate::platform_list::PlatformList;
use std::alloc::{AllocError, Global};
use std::marker::Model;
use std::rc::Rc;

/// The classes of a platform, as several values keep them. A contract sees them as their list.
#[derive(Drop)]
pub struct SharedPlatform {
    list: Rc<PlatformList>,
}

impl Model for SharedPlatform {
    ghost use Rattle.std.specs.Prelude.{List};
    ghost use Rattle.jc_facts.specs.declared.class_facts.ClassFacts.{ClassFacts};

    ghost Value = { List ClassFacts };

    ghost view = { λ s. s.list.value };
}

impl SharedPlatform {
    /// The list, which may be shared.
    ///
    /// # Errors
    ///
    /// `AllocError` where memory runs out.
    pub fn new(alloc: Global, list: ClassList) -> Result<SharedPlatform, AllocError>
        ensures { IfOk result (λ shared. shared ≡ list) }
    {
        let list = PlatformList::new(alloc, list)?;
        let list = Rc::new(alloc, list)?;
        Ok(SharedPlatform { list })
    }

    /// The same list. No class is copied.
    ///
    /// # Errors
    ///
    /// `AllocError` where it is shared as often as can be counted.
    pub fn share(&self) -> Result<SharedPlatform, AllocError>
        ensures { IfOk result (λ shared. shared ≡ self.now) }
    {
        let list = Rc::clone(&self.list)?;
        Ok(SharedPlatform { list })
    }

    /// The list.
    pub fn list(&self) -> &ClassList
        ensures { result.now ≡ self.now }
    {
        self.list.as_ref().list()
    }

    // The place of one of the classes that the class at this place names above itself, of which the
    // superclass is the first; none where no class of the list has the name.
    pub(crate) fn place_above(&self, place: usize, at: usize) -> Option<usize>
        ensures { result ≡ place_of_super self.now place at }
    {
        self.list.as_ref().place_above(place, at)
    }

    // The keys of final instance methods of those of the classes that one of them has as its
    // superclass.
    pub(crate) fn finals(&self) -> &FinalKeys
        ensures { HavePlatformFinals self.now result.now }
    {
        self.list.as_ref().finals()
    }
}
