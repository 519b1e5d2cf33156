//! The interfaces that classes no longer have above them, after an old release.
ghost use Rattle.std.specs.Prelude.{◌≡◌, ◌==◌, ◌<◌, ◌&&◌, ◌++◌, ℕ, Bool, List, IfOk, IfSome, IsTrue, OnOk, Some, [], not, option_map};
ghost use Rattle.std.specs.BTreeSet.{contains};
ghost use Rattle.std.specs.List.{All, cons_option, filter, list_any};
ghost use Rattle.std.specs.List.Sorted.{IsPermutation};
ghost use Rattle.std.specs.Ordering.{nat_cmp};
ghost use Rattle.jc_acts.specs.Seats.{AreSeats};
ghost use Rattle.jc_acts.specs.Touched.{flag_at};
ghost use Rattle.jc_dropped.specs.Dropped.{AreDropped, IsDropped, dropped_order, is_dropped};
ghost use Rattle.jc_exposed.specs.Exposed.{AreExposed, AreWanted};
ghost use Rattle.jc_facts.specs.Exactly.{HasExactly};
ghost use Rattle.jc_facts.specs.Names.{Bytes};
ghost use Rattle.jc_facts.specs.world.Search.{supers_of};
ghost use Rattle.jc_promises.specs.Pairs.{AreOfOneRun};
ghost use Rattle.jc_facts.specs.world.World.{size};
ghost use Rattle.jc_select.specs.DroppedWithin.{AreDroppedWithin, InterfacesStill};
ghost use Rattle.jc_select.specs.steps.Losing.{AreLosers, AreLosersAbove, AreLost, AreSets, IsLoser, IsSetOf, dropped_at, drops_at, hidden_of, some_loses};
ghost use Rattle.jc_sides.specs.Limit.{IsWithin};
ghost use Rattle.jc_sides.specs.Rules.{IsOf};
ghost use Rattle.jc_index.specs.Ids.{name_at};

use crate::losing::{Lost, losing};
use jc_acts::seats::Seats;
use jc_base::name::Name;
use jc_exposed::exposed::Exposed;
use jc_facts::dropped::Dropped;
use jc_index::ids::ClassId;
use jc_sides::classes::base_classes;
use jc_sides::found::push_some;
use jc_sides::limit::is_over;
use jc_sides::sides::Sides;
use jc_table::table::Table;
use std::alloc::{AllocError, Global};
use std::collections::BTreeSet;

// A class that loses something, and how much that is.
#[derive(Drop)]
struct Loser {
    id: ClassId,
    count: usize,
}

// ---- what the classes above lose

// The class of this name, where it loses something.
fn loser_named(sides: &Sides<'_>, sets: &[BTreeSet<ClassId>], name: &Name) -> Option<Loser>
    requires sets { AreSets sides.now sets.now }
    ensures { IsLoser sides.now name.now result }
{
    match sides.old.get(name.as_bytes()) {
        None => None,
        Some(id) => {
            let count = sets[id.number() as usize].len();
            if count == 0 {
                return None;
            }
            Some(Loser { id, count })
        }
    }
}

// The superclass, where it loses something.
fn superclass_of(
    sides: &Sides<'_>,
    sets: &[BTreeSet<ClassId>],
    superclass: &Option<Name>,
) -> Option<Loser>
    requires sets { AreSets sides.now sets.now }
    ensures { AreLosers sides.now (supers_of superclass.now []) (cons_option result []) }
{
    match superclass {
        None => None,
        Some(name) => loser_named(sides, sets, name),
    }
}

// Adds those of these classes that lose something.
fn add_losers(
    sides: &Sides<'_>,
    sets: &[BTreeSet<ClassId>],
    losers: &mut Vec<Loser>,
    names: &[Name],
) -> Result<(), AllocError>
    requires sets { AreSets sides.now sets.now }
    ensures { OnOk result ((xs : List Bytes) → AreLosers sides.now xs losers.old.items → AreLosers sides.now (xs ++ names.now) losers.new.items) }
{
    for name in names {
        push_some(losers, loser_named(sides, sets, name))?;
    }
    Ok(())
}

// Those of the classes that the class names above itself that lose something.
fn losers_above(
    alloc: Global,
    sides: &Sides<'_>,
    sets: &[BTreeSet<ClassId>],
    class: ClassId,
) -> Result<Vec<Loser>, AllocError>
    requires sets { AreSets sides.now sets.now }
    requires class { «class» < size sides.now.old }
    ensures { IfOk result (λ losers. AreLosersAbove sides.now (name_at sides.now.old «class») losers.items) }
{
    let facts = sides.old.facts(class);
    let mut losers = Vec::new(alloc);
    push_some(&mut losers, superclass_of(sides, sets, &facts.superclass))?;
    add_losers(sides, sets, &mut losers, facts.interfaces.as_slice())?;
    Ok(losers)
}

// Puts those first that lose most: what is left then is little, whatever the others lose.
fn sort_by_count(losers: &mut Vec<Loser>) -> Result<(), AllocError>
    ensures { IsPermutation losers.old.items losers.new.items }
{
    losers.sort_by(|a, b| b.count.cmp(&a.count))?;
    Ok(())
}

// ---- what is left

// The same set.
fn copy_of(alloc: Global, set: &BTreeSet<ClassId>) -> Result<BTreeSet<ClassId>, AllocError>
    ensures { IfOk result (λ copy. (test : ℕ → Bool) → IsSetOf test set.now → IsSetOf test copy) }
{
    let mut copy = BTreeSet::new(alloc);
    for id in set {
        copy.insert(*id)?;
    }
    Ok(copy)
}

// The numbers that both sets have. It takes as many steps as the smaller one has, about.
fn common(
    alloc: Global,
    left: &BTreeSet<ClassId>,
    set: &BTreeSet<ClassId>,
) -> Result<Vec<ClassId>, AllocError>
    ensures { IfOk result (λ ids. ids.items ≡ filter (contains nat_cmp set.now) left.now.keys) }
{
    let mut ids = Vec::new(alloc);
    for id in left.intersection(set) {
        ids.push(*id)?;
    }
    Ok(ids)
}

// Takes these out.
fn take_out(left: &mut BTreeSet<ClassId>, ids: &[ClassId])
    ensures { (test : ℕ → Bool) → IsSetOf test left.old → IsSetOf (λ k. test k && not (list_any (λ i. i == k) ids.now)) left.new }
{
    for id in ids {
        left.remove(id);
    }
}

// Takes out what the set has.
fn take_common(
    alloc: Global,
    left: &mut BTreeSet<ClassId>,
    set: &BTreeSet<ClassId>,
) -> Result<(), AllocError>
    ensures { OnOk result ((test of : ℕ → Bool) → IsSetOf of set.now → IsSetOf test left.old → IsSetOf (λ k. test k && not (of k)) left.new) }
{
    let ids = common(alloc, left, set)?;
    take_out(left, ids.as_slice());
    Ok(())
}

// Takes out what these classes lose.
fn take_lost(
    alloc: Global,
    sides: &Sides<'_>,
    sets: &[BTreeSet<ClassId>],
    left: &mut BTreeSet<ClassId>,
    losers: &[Loser],
) -> Result<(), AllocError>
    requires sets { AreSets sides.now sets.now }
    requires losers { All (λ l. l.id < size sides.now.old) losers.now }
    ensures { OnOk result ((test : ℕ → Bool) → IsSetOf test left.old → IsSetOf (λ k. test k && not (some_loses sides.now losers.now k)) left.new) }
{
    // A count says that the table stands for a side.
    let _classes = sides.old.count();
    for loser in losers {
        take_common(alloc, left, &sets[loser.id.number() as usize])?;
    }
    Ok(())
}

// ---- of one class

// The class, which drops it, and the interface.
fn of_interface(
    alloc: Global,
    sides: &Sides<'_>,
    class: ClassId,
    of: ClassId,
) -> Result<Dropped, AllocError>
    requires class { «class» < size sides.now.old }
    requires of { of < size sides.now.old }
    requires drops { IsTrue (is_dropped sides.now.old sides.now.new (name_at sides.now.old «class») (name_at sides.now.old of)) }
    ensures { IfOk result (λ dropped. Some dropped ≡ dropped_at sides.now (name_at sides.now.old «class») (name_at sides.now.old of)) }
{
    Ok(Dropped {
        class: sides.old.facts(class).name.copy(alloc)?,
        interface: sides.old.facts(of).name.copy(alloc)?,
    })
}

// What the class drops, in order, of these numbers.
fn of_set(
    alloc: Global,
    sides: &Sides<'_>,
    class: ClassId,
    set: &BTreeSet<ClassId>,
) -> Result<Vec<Dropped>, AllocError>
    requires class { «class» < size sides.now.old }
    requires set { IsSetOf (drops_at sides.now (name_at sides.now.old «class»)) set.now }
    ensures { IfOk result (λ made. HasExactly dropped_order (IsOf (λ d. d.«class») (IsDropped sides.now.old sides.now.new) (name_at sides.now.old «class»)) made.items) }
{
    // A count says that the table stands for a side.
    let _classes = sides.old.count();
    let mut dropped = Vec::new(alloc);
    for of in set {
        let one = of_interface(alloc, sides, class, *of)?;
        dropped.push(one)?;
    }
    Ok(dropped)
}

// What the class drops: what it loses, less what the classes lose that it names above itself.
fn left_of(
    alloc: Global,
    sides: &Sides<'_>,
    sets: &[BTreeSet<ClassId>],
    class: ClassId,
) -> Result<BTreeSet<ClassId>, AllocError>
    requires sets { AreSets sides.now sets.now }
    requires class { «class» < size sides.now.old }
    ensures { IfOk result (λ set. IsSetOf (drops_at sides.now (name_at sides.now.old «class»)) set) }
{
    let mut losers = losers_above(alloc, sides, sets, class)?;
    sort_by_count(&mut losers)?;
    let mut left = copy_of(alloc, &sets[class.number() as usize])?;
    take_lost(alloc, sides, sets, &mut left, losers.as_slice())?;
    Ok(left)
}

// What the class drops, in order. Nearly all lose nothing.
fn of_class(
    alloc: Global,
    sides: &Sides<'_>,
    sets: &[BTreeSet<ClassId>],
    class: ClassId,
) -> Result<Vec<Dropped>, AllocError>
    requires sets { AreSets sides.now sets.now }
    requires class { «class» < size sides.now.old }
    ensures { IfOk result (λ made. HasExactly dropped_order (IsOf (λ d. d.«class») (IsDropped sides.now.old sides.now.new) (name_at sides.now.old «class»)) made.items) }
{
    if sets[class.number() as usize].is_empty() {
        return Ok(Vec::new(alloc));
    }
    let left = left_of(alloc, sides, sets, class)?;
    let dropped = of_set(alloc, sides, class, &left)?;
    Ok(dropped)
}

// ---- of all

// What all classes drop; None where that is more than the limit allows.
fn of_classes(
    alloc: Global,
    sides: &Sides<'_>,
    sets: &[BTreeSet<ClassId>],
    most: Option<usize>,
) -> Result<Option<Vec<Dropped>>, AllocError>
    requires sets { AreSets sides.now sets.now }
    ensures { IfOk result (λ made. IsWithin dropped_order (IsDropped sides.now.old sides.now.new) most (option_map (λ ds. ds.items) made)) }
{
    let mut dropped = Vec::new(alloc);
    for n in 0..sides.old.count() {
        let id = sides.old.id(n).unwrap();
        dropped.append(&mut of_class(alloc, sides, sets, id)?)?;
        if is_over(dropped.len(), most) {
            return Ok(None);
        }
    }
    Ok(Some(dropped))
}

// The same, over the seats, what classes have lost, and the members that expose hidden ones.
fn limited_over(
    alloc: Global,
    sides: &Sides<'_>,
    seats: &Seats<'_>,
    exposed: &Exposed,
    lost: &Lost,
    most: Option<usize>,
) -> Result<Option<Vec<Dropped>>, AllocError>
    requires seats { AreSeats sides.now seats.now }
    requires exposed { AreExposed sides.now exposed.now }
    requires lost { AreLost sides.now lost.now }
    requires wanted { AreWanted sides.now (flag_at (hidden_of lost.now)) exposed.now }
    ensures { IfOk result (λ made. IsWithin dropped_order (IsDropped sides.now.old sides.now.new) most (option_map (λ ds. ds.items) made)) }
{
    let sets = losing(alloc, sides, seats, exposed, lost)?;
    let made = of_classes(alloc, sides, sets.as_slice(), most)?;
    Ok(made)
}

// The members that expose hidden classes that have lost something or were lost.
fn exposed_of(
    alloc: Global,
    sides: &Sides<'_>,
    seats: &Seats<'_>,
    lost: &Lost,
) -> Result<Exposed, AllocError>
    requires seats { AreSeats sides.now seats.now }
    requires lost { AreLost sides.now lost.now }
    ensures exposed { IfOk result (λ exposed. AreExposed sides.now exposed) }
    ensures wanted { IfOk result (λ exposed. AreWanted sides.now (flag_at (hidden_of lost.now)) exposed) }
{
    let wanted = Vec::from_slice(alloc, lost.hidden())?;
    let exposed = Exposed::new(alloc, sides, seats, wanted)?;
    Ok(exposed)
}

// What all classes drop, where nobody else asks for seats and for members.
fn over_sides(alloc: Global, sides: &Sides<'_>) -> Result<Option<Vec<Dropped>>, AllocError>
    ensures { IfOk result (λ made. IsWithin dropped_order (IsDropped sides.now.old sides.now.new) None (option_map (λ ds. ds.items) made)) }
{
    let lost = Lost::new(alloc, sides)?;
    let seats = Seats::new(alloc, sides, base_classes(alloc, sides)?)?;
    let exposed = exposed_of(alloc, sides, &seats, &lost)?;
    let made = limited_over(alloc, sides, &seats, &exposed, &lost, None)?;
    Ok(made)
}

/// The interfaces that classes drop between an old release and a new one, in byte order of the classes'
/// names and then of the interfaces': each that a class had above it and no longer has, where clients can
/// hold values of the class with both releases and name the interface, or hand them to members that take
/// it though it is hidden, and no class that it names above itself loses it too. All that clients do still
/// links, but `invokeinterface` on such a value, a cast or a store fails when it runs (JVMS 6.5). The two
/// sides are of one run.
///
/// # Errors
///
/// `AllocError` where memory runs out.
pub fn dropped(alloc: Global, old: &Table, new: &Table) -> Result<Vec<Dropped>, AllocError>
    requires { AreOfOneRun old.now new.now }
    ensures exact { IfOk result (λ ds. AreDropped old.now new.now ds.items) }

    // Where there is none, and the verdict has no finding, clients keep the interfaces above their values.
    ensures kept { IfOk result (λ ds. InterfacesStill old.now new.now ds.items) }
{
    // A count says that a table stands for a side.
    let _old = old.count();
    let _new = new.count();
    let sides = Sides::new(alloc, old, new)?;
    let made = over_sides(alloc, &sides)?;
    Ok(made.unwrap())
}

/// The same interfaces, where they are at most so many, and None where they are more, over sides, seats,
/// losses and members that the caller made, for other parts of a report too. The members are those that
/// expose at least the hidden classes that have lost an interface, and hidden interfaces that were lost.
/// Past the limit no more interfaces are made than what one class adds.
///
/// # Errors
///
/// `AllocError` where memory runs out.
pub fn dropped_over(
    alloc: Global,
    sides: &Sides<'_>,
    seats: &Seats<'_>,
    exposed: &Exposed,
    lost: &Lost,
    most: usize,
) -> Result<Option<Vec<Dropped>>, AllocError>
    requires seats { AreSeats sides.now seats.now }
    requires exposed { AreExposed sides.now exposed.now }
    requires lost { AreLost sides.now lost.now }
    requires wanted { AreWanted sides.now (flag_at (hidden_of lost.now)) exposed.now }
    ensures exact { IfOk result (λ made. AreDroppedWithin sides.now.old sides.now.new most (option_map (λ ds. ds.items) made)) }
    ensures kept { IfOk result (λ made. IfSome (option_map (λ ds. ds.items) made) (InterfacesStill sides.now.old sides.now.new)) }
{
    let made = limited_over(alloc, sides, seats, exposed, lost, Some(most))?;
    Ok(made)
}
