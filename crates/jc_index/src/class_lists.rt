//! Lists of classes that lie in one list.
ghost use Rattle.std.specs.Prelude.{◌≡◌, ◌<◌, [], length, map, slice_index_or, slice_range};
ghost use Rattle.jc_index.specs.steps.Parts.{LiesIn, LieIn, items_of};

use crate::ids::ClassId;
use crate::part::Part;
use std::marker::Model;

/// A list of classes for each class of a table. They are parts of one list, and may share what
/// stands in it. A contract sees the lists.
pub struct ClassLists {
    ids: Vec<ClassId>,
    parts: Vec<Option<Part>>,
}

// One call at each exit of a function that owns it, where a derived drop is written out.
impl Drop for ClassLists {
    fn drop(self) {
        let ClassLists { ids: _, parts: _ } = self;
    }
}

impl Model for ClassLists {
    ghost use Rattle.std.specs.Prelude.{List, ℕ, map};

    ghost Value = { List (List ℕ) };

    ghost use Rattle.jc_index.specs.steps.Parts.{LieIn, items_of};

    ghost view = { λ r. map (items_of r.ids.items) r.parts.items };

    ghost invariant = { λ r. LieIn r.ids.items r.parts.items };
}

// What stands in the part of the list.
fn items_in(ids: &[ClassId], part: Part) -> &[ClassId]
    requires { LiesIn ids.now part }
    ensures { result.now ≡ slice_range ids.now part.start part.end }
{
    &ids[part.start..part.end]
}

impl ClassLists {
    /// The lists that these parts are; nothing stands in one that isn't made.
    pub fn new(ids: Vec<ClassId>, parts: Vec<Option<Part>>) -> ClassLists
        requires { LieIn ids.items parts.items }
        ensures { result ≡ map (items_of ids.items) parts.items }
    {
        ClassLists { ids, parts }
    }

    /// The list of the class.
    pub fn row(&self, id: ClassId) -> &[ClassId]
        requires { id < length self.now }
        ensures { result.now ≡ slice_index_or self.now id [] }
    {
        match self.parts[id.number() as usize] {
            Some(part) => items_in(self.ids.as_slice(), part),
            None => &[],
        }
    }
}
