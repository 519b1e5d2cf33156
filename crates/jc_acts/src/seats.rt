//! The seats of clients: a client's seat is the first class of its chain that is no client.
ghost use Rattle.std.specs.Prelude.{◌≡◌};
ghost use Rattle.jc_facts.specs.Names.{object_name};
ghost use Rattle.jc_sides.specs.SharedOf.{IsShared, name_of};

use crate::commons::commons;
use crate::root::root_of;
use crate::touched::{touched, with_those_below};
use jc_index::ids::ClassId;
use jc_sides::shared::Shared;
use jc_sides::sides::Sides;
use std::alloc::{AllocError, Global};

/// The seats that clients may have.
pub struct Seats<'a> {
    // java/lang/Object, and then the base classes.
    pub(crate) all: Vec<Shared<'a>>,
    // For each class of the old side, whether it doesn't load, or it or one above it isn't the same on
    // the new side or left one of their chains.
    closing: Vec<bool>,
    // For each class of the old side one of the new side below which all seats stand that stood
    // below the first; none where no seat did.
    pub(crate) commons: Vec<Option<ClassId>>,
}

// One call at each exit of a function that owns it, where a derived drop is written out.
impl Drop for Seats<'_> {
    fn drop(self) {
        let Seats {
            all: _,
            closing: _,
            commons: _,
        } = self;
    }
}

// The root of all classes.
fn root<'a>(sides: &Sides<'a>) -> Shared<'a>
    ensures shared { IsShared sides.now result }
    ensures name { name_of result ≡ object_name }
{
    let old = root_of(sides.old);
    let new = root_of(sides.new);
    Shared {
        name: &sides.old.facts(old).name,
        old,
        new,
    }
}

impl<'a> Seats<'a> {
    ghost use Rattle.std.specs.List.{All};
    ghost use Rattle.std.specs.Prelude.{◌≡◌, ◌<◌, IfOk, map};
    ghost use Rattle.jc_promises.specs.rule.Bases.{is_base_class};
    ghost use Rattle.jc_facts.specs.world.World.{size};
    ghost use Rattle.jc_index.specs.Ids.{name_at};
    ghost use Rattle.jc_sides.specs.SharedOf.{AreThose, IsShared, name_of};
    ghost use Rattle.jc_sides.specs.SidesOf.{SidesOf};
    ghost use Rattle.jc_acts.specs.Seats.{AreSeats, all_seats, may_be_closed};

    /// The seats that these base classes make, with `java/lang/Object`.
    ///
    /// # Errors
    ///
    /// `AllocError` where memory runs out.
    pub fn new(
        alloc: Global,
        sides: &Sides<'a>,
        bases: Vec<Shared<'a>>,
    ) -> Result<Seats<'a>, AllocError>
        requires { AreThose (is_base_class sides.now.old sides.now.new) sides.now bases.items }
        ensures { IfOk result (λ seats. AreSeats sides.now seats) }
    {
        let mut bases = bases;
        let mut all = Vec::new(alloc);
        all.push(root(sides))?;
        all.append(&mut bases)?;
        let touched = touched(alloc, sides, all.as_slice())?;
        let closing = with_those_below(alloc, sides.old, touched.as_slice())?;
        let commons = commons(alloc, sides.old, sides.new, all.as_slice())?;
        Ok(Seats {
            all,
            closing,
            commons,
        })
    }

    /// All of them: `java/lang/Object`, and then the base classes in byte order.
    pub fn as_slice(&self) -> &[Shared<'a>]
        ensures { (s : SidesOf) → AreSeats s self.now → (map name_of result.now ≡ all_seats s) × All (IsShared s) result.now }
    {
        self.all.as_slice()
    }

    /// The base classes.
    pub fn bases(&self) -> &[Shared<'a>]
        ensures { (s : SidesOf) → AreSeats s self.now → AreThose (is_base_class s.old s.new) s result.now }
    {
        match self.all.as_slice() {
            [] => &[],
            [_, bases @ ..] => bases,
        }
    }

    /// Whether an act on a member of the class may be closed now to a seat that could do it. Where
    /// neither the class nor any above it changed or left the chain of a seat, the class is the same on
    /// both sides; and where it loads on the new side too, its chain is, and no act on its members is
    /// closed, whatever the key. That it loads doesn't follow where there are modules: what it names
    /// may no longer be visible.
    pub fn may_close(&self, _sides: &Sides<'_>, class: &Shared<'_>) -> bool
        requires seats { AreSeats _sides.now self.now }
        requires class { IsShared _sides.now «class».now }
        ensures { result ≡ may_be_closed _sides.now (name_of «class».now) }
    {
        self.closing[class.old.number() as usize]
    }

    /// The same of a class of the old side, which the new side may not have.
    pub fn may_close_at(&self, _sides: &Sides<'_>, id: ClassId) -> bool
        requires seats { AreSeats _sides.now self.now }
        requires class { id < size _sides.now.old }
        ensures { result ≡ may_be_closed _sides.now (name_at _sides.now.old id) }
    {
        self.closing[id.number() as usize]
    }
}
