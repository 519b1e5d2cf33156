//! Interfaces that classes of both sides have lost, where clients can hold values of these and ask them
//! for the interface.
ghost use Rattle.std.specs.Prelude.{◌≡◌, ◌==◌, ◌<◌, ◌||◌, IfOk, IsTrue, OnOk, Some, length};
ghost use Rattle.std.specs.List.{All, filter, list_any};
ghost use Rattle.jc_dropped.specs.Dropped.{asks_for};
ghost use Rattle.jc_acts.specs.Seats.{AreSeats};
ghost use Rattle.jc_acts.specs.Touched.{flag_at};
ghost use Rattle.jc_exposed.specs.Exposed.{AreExposed, AreWanted};
ghost use Rattle.jc_promises.specs.rule.Bases.{is_kept, is_steady};
ghost use Rattle.jc_facts.specs.world.Assignment.{is_interface_of};
ghost use Rattle.jc_facts.specs.world.Loading.{loads};
ghost use Rattle.jc_facts.specs.world.World.{size};
ghost use Rattle.jc_select.specs.steps.Losing.{AreClear, AreLost, AreMarks, AreNumbersOf, AreRowsOf, AreSets, IsPut, IsSetOf, has_left, hidden_of, is_asked, is_found, is_in_some, is_marked_now, lost_at, loses_at, may_ask, row_at};
ghost use Rattle.jc_index.specs.Ids.{name_at, id_of};

use crate::marks::set_marks;
use crate::parts::above;
use jc_acts::seats::Seats;
use jc_base::items::Items;
use jc_exposed::exposed::{Exposed, first_exposed};
use jc_facts::flags::is_interface;
use jc_index::ids::ClassId;
use jc_sides::clients::is_steady;
use jc_sides::kept::{is_hidden_class, kept};
use jc_sides::sides::Sides;
use std::alloc::{AllocError, Global};
use std::collections::BTreeSet;

/// What classes have lost, whether clients can hold values of them or not.
pub struct Lost {
    // For each class of the old side, what it has lost, if it loads on both.
    rows: Vec<Items<ClassId>>,
    // For each class, whether it is hidden, and has lost something or is lost.
    hidden: Vec<bool>,
}

// One call at each exit of a function that owns it, where a derived drop is written out.
impl Drop for Lost {
    fn drop(self) {
        let Lost { rows: _, hidden: _ } = self;
    }
}

impl Lost {
    ghost use Rattle.std.specs.Prelude.{◌≡◌, ◌<◌, IfOk, length};
    ghost use Rattle.jc_select.specs.steps.Losing.{AreLost, hidden_of, row_at};

    /// What classes have lost between the two sides. No member is looked at.
    ///
    /// # Errors
    ///
    /// `AllocError` where memory runs out.
    pub fn new(alloc: Global, sides: &Sides<'_>) -> Result<Lost, AllocError>
        ensures { IfOk result (λ lost. AreLost sides.now lost) }
    {
        let rows = lost_rows(alloc, sides)?;
        let hidden = asked(alloc, sides, rows.as_slice())?;
        Ok(Lost { rows, hidden })
    }

    /// For each class of the old side, whether it is hidden, and has lost an interface or is one that a
    /// class has lost. Of such classes alone it matters which members expose them.
    pub fn hidden(&self) -> &[bool]
        ensures { result.now ≡ hidden_of self.now }
    {
        self.hidden.as_slice()
    }

    // What the class has lost, if it loads on both sides.
    fn row(&self, id: ClassId) -> &[ClassId]
        requires { id < length self.now.rows.items }
        ensures { result.now ≡ row_at self.now.rows.items id }
    {
        self.rows[id.number() as usize].as_slice()
    }
}

// ---- of one class

// Whether the class is kept, and hasn't stopped to be an interface.
fn is_steady_class(sides: &Sides<'_>, id: ClassId) -> bool
    requires { id < size sides.now.old }
    ensures { result ≡ is_steady sides.now.old sides.now.new (name_at sides.now.old id) }
{
    match kept(sides, id) {
        None => false,
        Some(class) => is_steady(sides, &class),
    }
}

// Whether the class of the new side is marked that has the name of this one of the old side.
fn is_marked_now(sides: &Sides<'_>, marks: &[bool], of: ClassId) -> bool
    requires marks { length marks.now ≡ size sides.now.new }
    requires of { of < size sides.now.old }
    ensures { result ≡ is_marked_now sides.now marks.now of }
{
    match sides.new_id(of) {
        None => false,
        Some(now) => marks[now.number() as usize],
    }
}

// Whether the new side's class of the name of this one of the old side is an interface.
fn is_interface_now(sides: &Sides<'_>, of: ClassId) -> bool
    requires { of < size sides.now.old }
    ensures { result ≡ is_interface_of sides.now.new (name_at sides.now.old of) }
{
    match sides.new_id(of) {
        None => false,
        Some(now) => is_interface(sides.new.facts(now).flags),
    }
}

// Whether clients may ask for the interface: it is steady, or hidden, and still an interface.
fn may_ask(sides: &Sides<'_>, of: ClassId) -> bool
    requires { of < size sides.now.old }
    ensures { result ≡ may_ask sides.now (name_at sides.now.old of) }
{
    is_steady_class(sides, of) || (is_hidden_class(sides.old, of) && is_interface_now(sides, of))
}

// Whether clients may ask for the old side's interface, and it isn't marked on the new side.
fn has_left(sides: &Sides<'_>, above: &[bool], of: ClassId) -> bool
    requires above { length above.now ≡ size sides.now.new }
    requires of { of < size sides.now.old }
    ensures { result ≡ has_left sides.now above.now of }
{
    !is_marked_now(sides, above, of) && may_ask(sides, of)
}

// Those of these interfaces that have left.
fn those_left(
    alloc: Global,
    sides: &Sides<'_>,
    above: &[bool],
    ids: &[ClassId],
) -> Result<Vec<ClassId>, AllocError>
    requires above { length above.now ≡ size sides.now.new }
    requires ids { All (λ id. id < size sides.now.old) ids.now }
    ensures { IfOk result (λ left. left.items ≡ filter (has_left sides.now above.now) ids.now) }
{
    let mut left = Vec::new(alloc);
    for id in ids {
        if has_left(sides, above, *id) {
            left.push(*id)?;
        }
    }
    Ok(left)
}

// What the class, which loads on both sides, has lost. The marks serve for one class after the other,
// and are clear again behind each.
fn lost_between(
    alloc: Global,
    sides: &Sides<'_>,
    marks: &mut [bool],
    before: ClassId,
    now: ClassId,
) -> Result<Vec<ClassId>, AllocError>
    requires marks { length marks.old ≡ size sides.now.new }
    requires clear { AreClear marks.old }
    requires before { before < size sides.now.old }
    requires now { now < size sides.now.new }
    requires one { Some now ≡ id_of sides.now.new (name_at sides.now.old before) }
    requires loads { IsTrue (loads sides.now.old (name_at sides.now.old before)) }
    requires loads_now { IsTrue (loads sides.now.new (name_at sides.now.new now)) }
    ensures lost { IfOk result (λ lost. AreNumbersOf sides.now.old (lost_at sides.now (name_at sides.now.old before)) lost.items) }
    ensures count { length marks.new ≡ length marks.old }
    ensures clear { OnOk result (AreClear marks.new) }
{
    let all = above(alloc, sides.old, before)?;
    let after = above(alloc, sides.new, now)?;
    set_marks(marks, after.as_slice(), true);
    let lost = those_left(alloc, sides, marks, all.as_slice())?;
    set_marks(marks, after.as_slice(), false);
    Ok(lost)
}

// What the class has lost, if it loads on both sides.
fn lost_of(
    alloc: Global,
    sides: &Sides<'_>,
    marks: &mut [bool],
    id: ClassId,
) -> Result<Vec<ClassId>, AllocError>
    requires marks { length marks.old ≡ size sides.now.new }
    requires clear { AreClear marks.old }
    requires id { id < size sides.now.old }
    ensures lost { IfOk result (λ lost. AreNumbersOf sides.now.old (lost_at sides.now (name_at sides.now.old id)) lost.items) }
    ensures count { length marks.new ≡ length marks.old }
    ensures clear { OnOk result (AreClear marks.new) }
{
    if sides.old.fault_at(id).is_some() {
        return Ok(Vec::new(alloc));
    }
    let Some(now) = sides.new_id(id) else {
        return Ok(Vec::new(alloc));
    };
    if sides.new.fault_at(now).is_some() {
        return Ok(Vec::new(alloc));
    }
    let lost = lost_between(alloc, sides, marks, id, now)?;
    Ok(lost)
}

// For each class of the old side, what it has lost, if it loads on both. No mark is set before.
fn marked_rows(
    alloc: Global,
    sides: &Sides<'_>,
    marks: &mut [bool],
) -> Result<Vec<Items<ClassId>>, AllocError>
    requires marks { length marks.old ≡ size sides.now.new }
    requires clear { AreClear marks.old }
    ensures { IfOk result (λ rows. AreRowsOf sides.now.old (lost_at sides.now) rows.items) }
{
    let mut rows = Vec::with_capacity(alloc, sides.old.count() as usize)?;
    for n in 0..sides.old.count() {
        let id = sides.old.id(n).unwrap();
        let lost = lost_of(alloc, sides, marks, id)?;
        rows.push(Items::from_vec(lost))?;
    }
    Ok(rows)
}

// The same.
fn lost_rows(alloc: Global, sides: &Sides<'_>) -> Result<Vec<Items<ClassId>>, AllocError>
    ensures { IfOk result (λ rows. AreRowsOf sides.now.old (lost_at sides.now) rows.items) }
{
    let mut marks = vec![in alloc; false; sides.new.count() as usize]?;
    let rows = marked_rows(alloc, sides, &mut marks)?;
    Ok(rows)
}

// ---- hidden classes

// Marks those that are in one of the rows. No mark is set before.
fn set_lost(sides: &Sides<'_>, rows: &[Items<ClassId>], marks: &mut [bool])
    requires rows { AreRowsOf sides.now.old (lost_at sides.now) rows.now }
    requires marks { length marks.old ≡ size sides.now.old }
    requires clear { AreClear marks.old }
    ensures { AreMarks sides.now.old (is_in_some rows.now) marks.new }
{
    for row in rows {
        set_marks(marks, row.as_slice(), true);
    }
}

// Whether the class is hidden, and has lost something or is marked as lost.
fn is_asked(sides: &Sides<'_>, rows: &[Items<ClassId>], lost: &[bool], id: ClassId) -> bool
    requires rows { AreRowsOf sides.now.old (lost_at sides.now) rows.now }
    requires lost { AreMarks sides.now.old (is_in_some rows.now) lost.now }
    requires id { id < size sides.now.old }
    ensures { result ≡ is_asked sides.now rows.now id }
{
    let n = id.number() as usize;
    if rows[n].as_slice().is_empty() && !lost[n] {
        return false;
    }
    is_hidden_class(sides.old, id)
}

// The same of each class.
fn asked_among(
    alloc: Global,
    sides: &Sides<'_>,
    rows: &[Items<ClassId>],
    lost: &[bool],
) -> Result<Vec<bool>, AllocError>
    requires rows { AreRowsOf sides.now.old (lost_at sides.now) rows.now }
    requires lost { AreMarks sides.now.old (is_in_some rows.now) lost.now }
    ensures { IfOk result (λ marks. AreMarks sides.now.old (is_asked sides.now rows.now) marks.items) }
{
    let mut marks = Vec::with_capacity(alloc, sides.old.count() as usize)?;
    for n in 0..sides.old.count() {
        let id = sides.old.id(n).unwrap();
        marks.push(is_asked(sides, rows, lost, id))?;
    }
    Ok(marks)
}

// For each class, whether it is hidden, and has lost something or is lost.
fn asked(alloc: Global, sides: &Sides<'_>, rows: &[Items<ClassId>]) -> Result<Vec<bool>, AllocError>
    requires rows { AreRowsOf sides.now.old (lost_at sides.now) rows.now }
    ensures { IfOk result (λ marks. AreMarks sides.now.old (is_asked sides.now rows.now) marks.items) }
{
    let mut lost = vec![in alloc; false; sides.old.count() as usize]?;
    set_lost(sides, rows, &mut lost);
    let marks = asked_among(alloc, sides, rows, lost.as_slice())?;
    Ok(marks)
}

// Whether the class is asked about, and is exposed to the clients of some seat.
fn is_found(
    sides: &Sides<'_>,
    seats: &Seats<'_>,
    exposed: &Exposed,
    lost: &Lost,
    id: ClassId,
) -> bool
    requires seats { AreSeats sides.now seats.now }
    requires lost { AreLost sides.now lost.now }
    requires exposed { AreExposed sides.now exposed.now }
    requires wanted { AreWanted sides.now (flag_at (hidden_of lost.now)) exposed.now }
    requires id { id < size sides.now.old }
    ensures { result ≡ is_found sides.now lost.now.rows.items id }
{
    if !lost.hidden()[id.number() as usize] {
        return false;
    }
    first_exposed(sides, seats, exposed, &[id]).is_some()
}

// The same of each class.
fn found_among(
    alloc: Global,
    sides: &Sides<'_>,
    seats: &Seats<'_>,
    exposed: &Exposed,
    lost: &Lost,
) -> Result<Vec<bool>, AllocError>
    requires seats { AreSeats sides.now seats.now }
    requires lost { AreLost sides.now lost.now }
    requires exposed { AreExposed sides.now exposed.now }
    requires wanted { AreWanted sides.now (flag_at (hidden_of lost.now)) exposed.now }
    ensures { IfOk result (λ marks. AreMarks sides.now.old (is_found sides.now lost.now.rows.items) marks.items) }
{
    let mut marks = Vec::with_capacity(alloc, sides.old.count() as usize)?;
    for n in 0..sides.old.count() {
        let id = sides.old.id(n).unwrap();
        marks.push(is_found(sides, seats, exposed, lost, id))?;
    }
    Ok(marks)
}

// ---- where clients can hold values

// Whether the class is kept.
fn is_kept_class(sides: &Sides<'_>, id: ClassId) -> bool
    requires { id < size sides.now.old }
    ensures { result ≡ is_kept sides.now.old sides.now.new (name_at sides.now.old id) }
{
    match kept(sides, id) {
        Some(_) => true,
        None => false,
    }
}

// Whether clients can ask the class, which is kept or hidden and exposed, for the interface that it has
// lost. A kept class takes part with each seat to which a hidden interface is exposed.
fn can_ask(
    sides: &Sides<'_>,
    seats: &Seats<'_>,
    exposed: &Exposed,
    lost: &Lost,
    found: &[bool],
    kept: bool,
    id: ClassId,
    of: ClassId,
) -> bool
    requires seats { AreSeats sides.now seats.now }
    requires lost { AreLost sides.now lost.now }
    requires exposed { AreExposed sides.now exposed.now }
    requires wanted { AreWanted sides.now (flag_at (hidden_of lost.now)) exposed.now }
    requires found { AreMarks sides.now.old (is_found sides.now lost.now.rows.items) found.now }
    requires id { id < size sides.now.old }
    requires kept { kept ≡ is_kept sides.now.old sides.now.new (name_at sides.now.old id) }
    requires held { IsTrue (kept || is_found sides.now lost.now.rows.items id) }
    requires row { IsTrue (list_any (λ i. i == of) (row_at lost.now.rows.items id)) }
    requires of { of < size sides.now.old }
    ensures { result ≡ asks_for sides.now.old sides.now.new (name_at sides.now.old id) (name_at sides.now.old of) }
{
    let n = of.number() as usize;
    if !lost.hidden()[n] {
        return true;
    }
    if kept {
        return found[n];
    }
    first_exposed(sides, seats, exposed, &[id, of]).is_some()
}

// Puts the class into the set, where that is wanted.
fn put_if(set: &mut BTreeSet<ClassId>, id: ClassId, wanted: bool) -> Result<(), AllocError>
    ensures { OnOk result (IsPut id wanted set.old set.new) }
{
    if !wanted {
        return Ok(());
    }
    set.insert(id)?;
    Ok(())
}

// Those of its row for which clients can ask the class, which is kept or hidden and exposed.
fn asked_set(
    alloc: Global,
    sides: &Sides<'_>,
    seats: &Seats<'_>,
    exposed: &Exposed,
    lost: &Lost,
    found: &[bool],
    kept: bool,
    id: ClassId,
    row: &[ClassId],
) -> Result<BTreeSet<ClassId>, AllocError>
    requires seats { AreSeats sides.now seats.now }
    requires lost { AreLost sides.now lost.now }
    requires exposed { AreExposed sides.now exposed.now }
    requires wanted { AreWanted sides.now (flag_at (hidden_of lost.now)) exposed.now }
    requires found { AreMarks sides.now.old (is_found sides.now lost.now.rows.items) found.now }
    requires id { id < size sides.now.old }
    requires kept { kept ≡ is_kept sides.now.old sides.now.new (name_at sides.now.old id) }
    requires held { IsTrue (kept || is_found sides.now lost.now.rows.items id) }
    requires row { row.now ≡ row_at lost.now.rows.items id }
    ensures { IfOk result (λ set. IsSetOf (loses_at sides.now (name_at sides.now.old id)) set) }
{
    let mut set = BTreeSet::new(alloc);
    for of in row {
        let wanted = can_ask(sides, seats, exposed, lost, found, kept, id, *of);
        put_if(&mut set, *of, wanted)?;
    }
    Ok(set)
}

// What the class loses: nothing where clients can't hold values of it.
fn held_set(
    alloc: Global,
    sides: &Sides<'_>,
    seats: &Seats<'_>,
    exposed: &Exposed,
    lost: &Lost,
    found: &[bool],
    id: ClassId,
) -> Result<BTreeSet<ClassId>, AllocError>
    requires seats { AreSeats sides.now seats.now }
    requires lost { AreLost sides.now lost.now }
    requires exposed { AreExposed sides.now exposed.now }
    requires wanted { AreWanted sides.now (flag_at (hidden_of lost.now)) exposed.now }
    requires found { AreMarks sides.now.old (is_found sides.now lost.now.rows.items) found.now }
    requires id { id < size sides.now.old }
    ensures { IfOk result (λ set. IsSetOf (loses_at sides.now (name_at sides.now.old id)) set) }
{
    let row = lost.row(id);
    if row.is_empty() {
        return Ok(BTreeSet::new(alloc));
    }
    let kept = is_kept_class(sides, id);
    if !kept && !found[id.number() as usize] {
        return Ok(BTreeSet::new(alloc));
    }
    let set = asked_set(alloc, sides, seats, exposed, lost, found, kept, id, row)?;
    Ok(set)
}

// The same of each class.
fn held_sets(
    alloc: Global,
    sides: &Sides<'_>,
    seats: &Seats<'_>,
    exposed: &Exposed,
    lost: &Lost,
    found: &[bool],
) -> Result<Vec<BTreeSet<ClassId>>, AllocError>
    requires seats { AreSeats sides.now seats.now }
    requires lost { AreLost sides.now lost.now }
    requires exposed { AreExposed sides.now exposed.now }
    requires wanted { AreWanted sides.now (flag_at (hidden_of lost.now)) exposed.now }
    requires found { AreMarks sides.now.old (is_found sides.now lost.now.rows.items) found.now }
    ensures { IfOk result (λ sets. AreSets sides.now sets.items) }
{
    let mut held = Vec::with_capacity(alloc, sides.old.count() as usize)?;
    for n in 0..sides.old.count() {
        let id = sides.old.id(n).unwrap();
        let set = held_set(alloc, sides, seats, exposed, lost, found, id)?;
        held.push(set)?;
    }
    Ok(held)
}

/// For each class of the old side, the interfaces that it has lost and for which clients can ask it, if
/// they can hold values of it. The members are those that expose at least the hidden classes that have
/// lost an interface, and hidden interfaces that were lost.
///
/// # Errors
///
/// `AllocError` where memory runs out.
pub(crate) fn losing(
    alloc: Global,
    sides: &Sides<'_>,
    seats: &Seats<'_>,
    exposed: &Exposed,
    lost: &Lost,
) -> Result<Vec<BTreeSet<ClassId>>, AllocError>
    requires seats { AreSeats sides.now seats.now }
    requires exposed { AreExposed sides.now exposed.now }
    requires lost { AreLost sides.now lost.now }
    requires wanted { AreWanted sides.now (flag_at (hidden_of lost.now)) exposed.now }
    ensures { IfOk result (λ sets. AreSets sides.now sets.items) }
{
    let found = found_among(alloc, sides, seats, exposed, lost)?;
    let held = held_sets(alloc, sides, seats, exposed, lost, found.as_slice())?;
    Ok(held)
}
