//! A platform with an old and with a new release of a library.
ghost use Rattle.std.specs.Prelude.{◌≡◌, ◌<◌, map, IfOk, IfSome};
ghost use Rattle.jc_promises.specs.Pairs.{AreOfOneRun};
ghost use Rattle.jc_facts.specs.world.World.{size};
ghost use Rattle.jc_index.specs.Ids.{name_at, names, id_of};

use jc_index::ids::ClassId;
use jc_index::index::Index;
use jc_table::table::Table;
use std::alloc::{AllocError, Global};
use std::marker::Model;

/// A platform with an old and with a new release of a library. A contract sees it as the two
/// worlds, which are of one run.
pub struct Sides<'a> {
    pub old: &'a Table,
    pub new: &'a Table,
    // For each class of the old side the one of its name on the new side.
    new_ids: Vec<Option<ClassId>>,
}

// One call at each exit of a function that owns it, where a derived drop is written out.
impl<'a> Drop for Sides<'a> {
    fn drop(self) {
        let Sides {
            old: _,
            new: _,
            new_ids: _,
        } = self;
    }
}

impl<'a> Model for Sides<'a> {
    ghost use Rattle.jc_sides.specs.SidesOf.{SidesOf};

    ghost Value = { SidesOf };

    ghost use Rattle.jc_sides.specs.SidesFields.{worlds, AreFields};

    ghost view = { worlds };

    ghost invariant = { AreFields };
}

// The class of the new side that has the name of this one of the old side; none where there is none. A
// class of the platform has the same place on both, so its name isn't looked for.
fn id_in(old: &Index, id: ClassId, new: &Index) -> Option<ClassId>
    requires class { id < size old.now }
    requires platform { old.now.platform ≡ new.now.platform }
    ensures { result ≡ id_of new.now (name_at old.now id) }
{
    // A count says that the new index stands for a side.
    let _classes = new.count();
    let place = old.place(id);
    if old.side().in_platform(place) {
        Some(new.id_at(place))
    } else {
        new.get(old.facts(id).name.as_bytes())
    }
}

// For each class of the old side the one of its name on the new side; none where there is none.
fn new_ids(alloc: Global, old: &Index, new: &Index) -> Result<Vec<Option<ClassId>>, AllocError>
    requires { old.now.platform ≡ new.now.platform }
    ensures { IfOk result (λ ids. ids.items ≡ map (id_of new.now) (names old.now)) }
{
    let mut ids = Vec::with_capacity(alloc, old.count() as usize)?;
    for n in 0..old.count() {
        let id = old.id(n).unwrap();
        ids.push(id_in(old, id, new))?;
    }
    Ok(ids)
}

impl<'a> Sides<'a> {
    /// The two sides of one run: without clients, over one platform, and both with modules or both
    /// without. It is made once for a comparison, with one look-up by name for each class of the old
    /// release.
    ///
    /// # Errors
    ///
    /// `AllocError` where memory runs out.
    pub fn new(alloc: Global, old: &'a Table, new: &'a Table) -> Result<Sides<'a>, AllocError>
        requires { AreOfOneRun old.now new.now }
        ensures { IfOk result (λ sides. sides ≡ record { old = old.now; new = new.now }) }
    {
        // A count says that a table stands for a side.
        let _old = old.count();
        let _new = new.count();
        let new_ids = new_ids(alloc, old.index(), new.index())?;
        Ok(Sides { old, new, new_ids })
    }

    /// The class of the new side that has the name of this one of the old side; none where there is
    /// none. It isn't looked for.
    pub fn new_id(&self, id: ClassId) -> Option<ClassId>
        requires { id < size self.now.old }
        ensures value { result ≡ id_of self.now.new (name_at self.now.old id) }
        ensures of_table { IfSome result (λ id. id < size self.now.new) }
    {
        self.new_ids[id.number() as usize]
    }
}
