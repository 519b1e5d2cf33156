//! The load faults of all classes, and an order in which those that load can be loaded, in one pass
//! (JVMS 5.3.5).
ghost use Rattle.std.specs.Prelude.{◌≡◌, ℕ, ◌<◌, List, [], length, map, slice_get, false, IfOk, IfSome, Some, None};
ghost use Rattle.std.specs.List.{All, Contains};
ghost use Rattle.jc_facts.specs.Names.{Bytes};
ghost use Rattle.jc_facts.specs.Options.{and_then};
ghost use Rattle.jc_facts.specs.world.Loading.{load_fault, fault_of_itself};
ghost use Rattle.jc_facts.specs.world.Search.{supers};
ghost use Rattle.jc_facts.specs.world.World.{size, find_class};
ghost use Rattle.jc_index.specs.Ids.{name_at, names, id_of};
ghost use Rattle.jc_index.specs.steps.Walking.{HaveAllFinal};
ghost use Rattle.jc_loading.specs.steps.Entering.{state_of, is_known, work, bottom, Says, Goes, Leads, IsSettled, IsUnderWay, AreRight, AllHave, AllLoad, Turns, LoadsBefore};
ghost use Rattle.jc_index.specs.LoadOrder.{AreInLoadOrder, IsLoadOrder};
ghost use Rattle.jc_loading.specs.PlatformLoads.{AreLoads};
ghost use Rattle.jc_loading.specs.steps.Passing.{Passes, ArePassed, AllPassed, GoesPast, ArePassedOnWay, Orders, Grows, Orderly};

use crate::overriding::overrides_final;
use crate::supertypes::{own_interfaces_fault, own_superclass_fault};
use jc_facts::class_facts::ClassFacts;
use jc_facts::flags::is_interface;
use jc_facts::link_error::LinkError;
use jc_index::finals::final_keys;
use jc_index::ids::ClassId;
use jc_index::index::Index;
use jc_index::side_finals::SideFinals;
use jc_index::supers::super_count;
use std::alloc::{AllocError, Global};

// What is known of a class.
#[derive(Clone, Copy)]
enum State {
    // It wasn't entered yet.
    Fresh,
    // It is entered, and not all that it names above itself is known yet.
    Entered,
    // Its load fault.
    Known(Option<LinkError>),
}

// A class that is entered, and how many of those that it names above itself are known to load.
#[derive(Clone, Copy)]
struct Frame {
    class: ClassId,
    above: usize,
}

// What is known of a class that another one names.
#[derive(Clone, Copy)]
enum Named {
    Known(Option<LinkError>),
    Unknown(ClassId),
}

// Where the way leads from a class that is entered.
#[derive(Clone, Copy)]
enum Way {
    // All that it names above itself loads.
    Done,
    // The first of those that doesn't load has this fault.
    Fault(LinkError),
    // So many of those load, and the next one is this class, of which nothing is known yet.
    Up(usize, ClassId),
}

// What a turn leads to: the fault of the class at the bottom, or the class at the top.
#[derive(Clone, Copy)]
enum Turn {
    Over(Option<LinkError>),
    On(Frame),
}

// What is known of the class of a name, where there is one.
fn known_of(index: &Index, states: &[State], class: Option<ClassId>) -> Named
    requires right { AreRight index.now states.now }
    requires inside { IfSome class (λ id. id < size index.now) }
    ensures says { (x : Bytes) → class ≡ id_of index.now x → Says index.now states.now x result }
    ensures past { (x : Bytes) → class ≡ id_of index.now x → Passes index.now states.now x result }
{
    match class {
        None => Named::Known(Some(LinkError::NoClassDefFoundError)),
        Some(id) => match states[id.number() as usize] {
            State::Known(fault) => Named::Known(fault),
            State::Fresh | State::Entered => Named::Unknown(id),
        },
    }
}

// The class at this place; none where none stands there.
#[tactic(auto, unfolding(jc_facts::specs::Options::and_then))]
fn class_at(classes: &[Option<ClassId>], at: usize) -> Option<ClassId>
    ensures { result ≡ and_then (λ class. class) (slice_get classes.now at) }
{
    match classes.get(at) {
        Some(class) => *class,
        None => None,
    }
}

// The class of one of these names; none where there is none.
fn class_above(index: &Index, id: ClassId, class: &ClassFacts, at: usize) -> Option<ClassId>
    requires inside { id < size index.now }
    requires found { Some class.now ≡ find_class index.now (name_at index.now id) }
    ensures value { result ≡ and_then (id_of index.now) (slice_get (supers class.now) at) }
    ensures of_table { IfSome result (λ id. id < size index.now) }
{
    let interfaces = index.interfaces(id);
    match &class.superclass {
        Some(_) => {
            if at == 0 {
                index.superclass(id)
            } else {
                class_at(interfaces, at - 1)
            }
        }
        None => class_at(interfaces, at),
    }
}

// Where the way leads from the class, of those above which the first so many load.
fn way_from(index: &Index, states: &[State], class: ClassId, loaded: usize) -> Way
    requires inside { class < size index.now }
    requires right { AreRight index.now states.now }
    requires before { LoadsBefore index.now (name_at index.now class) loaded }
    requires past { ArePassed index.now states.now (name_at index.now class) loaded }
    ensures goes { Goes index.now states.now (name_at index.now class) result }
    ensures past { GoesPast index.now states.now (name_at index.now class) result }
{
    let facts = index.facts(class);
    for above in loaded..super_count(facts) {
        match known_of(index, states, class_above(index, class, facts, above)) {
            Named::Unknown(class) => return Way::Up(above, class),
            Named::Known(fault) => {
                if let Some(fault) = fault {
                    return Way::Fault(fault);
                }
            }
        }
    }
    Way::Done
}

// Notes the fault of all classes of the path and of the one at the top.
fn note(states: &mut [State], path: &[Frame], top: ClassId, fault: LinkError)
    requires path { All (λ f. f.class < length states.old) path.now }
    requires top { top < length states.old }
    ensures { AllHave fault states.old path.now top states.new }
{
    for frame in path {
        states[frame.class.number() as usize] = State::Known(Some(fault));
    }
    states[top.number() as usize] = State::Known(Some(fault));
}

// From the class at the top the way leads up to one of which nothing is known: it is entered, or
// the way leads round in a circle.
fn go_up(
    index: &Index,
    states: &mut [State],
    path: &mut Vec<Frame>,
    top: Frame,
    above: usize,
    class: ClassId,
) -> Result<Turn, AllocError>
    requires way { IsUnderWay index.now states.old path.old.items top }
    requires inside { class < size index.now }
    requires leads { Leads index.now (name_at index.now top.class) above (name_at index.now class) }
    requires unknown { is_known (state_of states.old class) ≡ false }
    requires passed { ArePassedOnWay index.now states.old path.old.items top }
    requires past { ArePassed index.now states.old (name_at index.now top.class) above }
    ensures turns { IfOk result (λ turn. Turns index.now (bottom path.old.items top.class) (work states.old path.old.items) states.new path.new.items turn) }
    ensures ordered { IfOk result (λ turn. (order : List ℕ) → Orders index.now states.old order → Orderly index.now (bottom path.old.items top.class) states.new path.new.items order turn) }
{
    match states[class.number() as usize] {
        State::Fresh => {
            states[class.number() as usize] = State::Entered;
            path.push(Frame {
                class: top.class,
                above,
            })?;
            Ok(Turn::On(Frame { class, above: 0 }))
        }
        State::Entered | State::Known(_) => {
            let fault = LinkError::ClassCircularityError;
            note(states, path.as_slice(), top.class, fault);
            Ok(Turn::Over(Some(fault)))
        }
    }
}

// Why the class doesn't load though all that it names above itself does: its superclass, then its
// interfaces, then a method that overrides a final one.
#[tactic(auto, unfolding(jc_facts::specs::world::Loading::fault_of_itself, jc_facts::specs::Options::or_else))]
fn own_fault<'a>(
    alloc: Global,
    index: &'a Index,
    finals: &SideFinals<'_>,
    id: ClassId,
    class: &'a ClassFacts,
) -> Result<Option<LinkError>, AllocError>
    requires finals { HaveAllFinal index.now finals.now }
    requires inside { id < size index.now }
    requires at { Some «class».now ≡ find_class index.now (name_at index.now id) }
    requires class { find_class index.now «class».now.name ≡ Some «class».now }
    ensures { IfOk result (λ fault. fault ≡ fault_of_itself index.now class.now) }
{
    let superclass = own_superclass_fault(index, id, class);
    if superclass.is_some() {
        return Ok(superclass);
    }
    let interface = own_interfaces_fault(index, id, class);
    if interface.is_some() {
        return Ok(interface);
    }
    if is_interface(class.flags) {
        return Ok(None);
    }
    if overrides_final(alloc, index, finals, class)? {
        Ok(Some(LinkError::IncompatibleClassChangeError))
    } else {
        Ok(None)
    }
}

// All that the class at the top names above itself loads: so it has a fault, or loads, stands next
// in the order, and is left.
fn leave<'a>(
    alloc: Global,
    index: &'a Index,
    finals: &SideFinals<'_>,
    states: &mut [State],
    path: &mut Vec<Frame>,
    order: &mut Vec<ClassId>,
    top: Frame,
) -> Result<Turn, AllocError>
    requires finals { HaveAllFinal index.now finals.now }
    requires way { IsUnderWay index.now states.old path.old.items top }
    requires above { Goes index.now states.old (name_at index.now top.class) Way.Done }
    requires orders { Orders index.now states.old order.old.items }
    requires passed { ArePassedOnWay index.now states.old path.old.items top }
    requires past { AllPassed index.now states.old (name_at index.now top.class) }
    ensures turns { IfOk result (λ turn. Turns index.now (bottom path.old.items top.class) (work states.old path.old.items) states.new path.new.items turn) }
    ensures ordered { IfOk result (λ turn. Orderly index.now (bottom path.old.items top.class) states.new path.new.items order.new.items turn) }
    ensures grows { IfOk result (λ _. Grows order.old.items order.new.items) }
{
    if let Some(fault) = own_fault(alloc, index, finals, top.class, index.facts(top.class))? {
        note(states, path.as_slice(), top.class, fault);
        return Ok(Turn::Over(Some(fault)));
    }
    states[top.class.number() as usize] = State::Known(None);
    order.push(top.class)?;
    match path.pop() {
        Some(frame) => Ok(Turn::On(frame)),
        None => Ok(Turn::Over(None)),
    }
}

// Goes on from the class at the top.
fn go_on<'a>(
    alloc: Global,
    index: &'a Index,
    finals: &SideFinals<'_>,
    states: &mut [State],
    path: &mut Vec<Frame>,
    order: &mut Vec<ClassId>,
    top: Frame,
) -> Result<Turn, AllocError>
    requires finals { HaveAllFinal index.now finals.now }
    requires way { IsUnderWay index.now states.old path.old.items top }
    requires orders { Orders index.now states.old order.old.items }
    requires passed { ArePassedOnWay index.now states.old path.old.items top }
    ensures turns { IfOk result (λ turn. Turns index.now (bottom path.old.items top.class) (work states.old path.old.items) states.new path.new.items turn) }
    ensures ordered { IfOk result (λ turn. Orderly index.now (bottom path.old.items top.class) states.new path.new.items order.new.items turn) }
    ensures grows { IfOk result (λ _. Grows order.old.items order.new.items) }
{
    match way_from(index, states, top.class, top.above) {
        Way::Fault(fault) => {
            note(states, path.as_slice(), top.class, fault);
            Ok(Turn::Over(Some(fault)))
        }
        Way::Up(above, class) => match go_up(index, states, path, top, above, class) {
            Ok(turn) => Ok(turn),
            Err(error) => Err(error),
        },
        Way::Done => match leave(alloc, index, finals, states, path, order, top) {
            Ok(turn) => Ok(turn),
            Err(error) => Err(error),
        },
    }
}

// The load fault of the class that wasn't entered yet.
fn enter<'a>(
    alloc: Global,
    index: &'a Index,
    finals: &SideFinals<'_>,
    states: &mut [State],
    order: &mut Vec<ClassId>,
    class: ClassId,
) -> Result<Option<LinkError>, AllocError>
    requires finals { HaveAllFinal index.now finals.now }
    requires inside { class < size index.now }
    requires settled { IsSettled index.now states.old }
    requires orders { Orders index.now states.old order.old.items }
    ensures settled { IfOk result (λ fault. IsSettled index.now states.new × (load_fault index.now (name_at index.now class) ≡ fault)) }
    ensures ordered { IfOk result (λ fault. Orders index.now states.new order.new.items × (fault ≡ None → Contains order.new.items class)) }
    ensures grows { IfOk result (λ _. Grows order.old.items order.new.items) }
{
    states[class.number() as usize] = State::Entered;
    let mut path = Vec::new(alloc);
    let mut top = Frame { class, above: 0 };
    'up: loop {
        match go_on(alloc, index, finals, states, &mut path, order, top)? {
            Turn::Over(fault) => return Ok(fault),
            Turn::On(next) => top = next,
        }
    }
}

// The load fault of the class.
fn fault_of<'a>(
    alloc: Global,
    index: &'a Index,
    finals: &SideFinals<'_>,
    states: &mut [State],
    order: &mut Vec<ClassId>,
    class: ClassId,
) -> Result<Option<LinkError>, AllocError>
    requires finals { HaveAllFinal index.now finals.now }
    requires inside { class < size index.now }
    requires settled { IsSettled index.now states.old }
    requires orders { Orders index.now states.old order.old.items }
    ensures settled { IfOk result (λ fault. IsSettled index.now states.new × (load_fault index.now (name_at index.now class) ≡ fault)) }
    ensures ordered { IfOk result (λ fault. Orders index.now states.new order.new.items × (fault ≡ None → Contains order.new.items class)) }
    ensures grows { IfOk result (λ _. Grows order.old.items order.new.items) }
{
    match states[class.number() as usize] {
        State::Known(fault) => Ok(fault),
        State::Fresh | State::Entered => match enter(alloc, index, finals, states, order, class) {
            Ok(fault) => Ok(fault),
            Err(error) => Err(error),
        },
    }
}

// The load faults of all classes, and the order.
fn all_faults<'a>(
    alloc: Global,
    index: &'a Index,
    finals: &SideFinals<'_>,
    states: &mut [State],
    order: &mut Vec<ClassId>,
) -> Result<Vec<Option<LinkError>>, AllocError>
    requires finals { HaveAllFinal index.now finals.now }
    requires settled { IsSettled index.now states.old }
    requires orders { Orders index.now states.old order.old.items }
    ensures faults { IfOk result (λ faults. faults.items ≡ map (load_fault index.now) (names index.now)) }
    ensures order { IfOk result (λ _. IsLoadOrder index.now order.new.items) }
{
    let mut faults = Vec::with_capacity(alloc, states.len())?;
    for n in 0..index.count() {
        let fault = fault_of(alloc, index, finals, states, order, ClassId::new(n))?;
        faults.push(fault)?;
    }
    Ok(faults)
}

// No class is entered.
fn no_states(alloc: Global, index: &Index) -> Result<Vec<State>, AllocError>
    ensures settled { IfOk result (λ states. IsSettled index.now states.items) }
    ensures orders { IfOk result (λ states. Orders index.now states.items []) }
{
    let states = vec![in alloc; State::Fresh; index.count() as usize]?;
    Ok(states)
}

// Notes that these classes load.
fn note_loads(states: &mut [State], ids: &[ClassId])
    requires { All (λ n. n < length states.old) ids.now }
    ensures { AllLoad states.old ids.now states.new }
{
    for id in ids {
        states[id.number() as usize] = State::Known(None);
    }
}

// What is known where these classes load, each after those that it names above itself.
fn states_with(alloc: Global, index: &Index, ids: &[ClassId]) -> Result<Vec<State>, AllocError>
    requires within { All (λ n. n < size index.now) ids.now }
    requires order { AreInLoadOrder index.now ids.now }
    ensures settled { IfOk result (λ states. IsSettled index.now states.items) }
    ensures orders { IfOk result (λ states. Orders index.now states.items ids.now) }
{
    let mut states = no_states(alloc, index)?;
    note_loads(&mut states, ids);
    Ok(states)
}

// The classes at these places of the platform.
fn ids_at(alloc: Global, index: &Index, places: &[usize]) -> Result<Vec<ClassId>, AllocError>
    requires { AreLoads index.now.platform places.now }
    ensures within { IfOk result (λ ids. All (λ n. n < size index.now) ids.items) }
    ensures order { IfOk result (λ ids. AreInLoadOrder index.now ids.items) }
{
    let mut ids = Vec::with_capacity(alloc, index.count() as usize)?;
    for place in places {
        ids.push(index.id_at(*place))?;
    }
    Ok(ids)
}

/// What is found out of the loading of all classes of a side.
#[derive(Drop)]
pub struct Loading {
    /// The load faults of the classes, in byte order of their names; none where a class loads.
    pub faults: Vec<Option<LinkError>>,
    /// The classes that load, each after those that it names above itself.
    pub order: Vec<ClassId>,
}

/// The load faults of all classes of the side, and an order in which those that load can be loaded
/// (JVMS 5.3.5). `loads` are places of classes that load in the platform alone, of which nothing is
/// asked again. Each other class is entered once, and each class above it is looked at twice at most.
///
/// # Errors
///
/// `AllocError` where memory runs out.
pub fn load_all(alloc: Global, index: &Index, loads: &[usize]) -> Result<Loading, AllocError>
    requires { AreLoads index.now.platform loads.now }
    ensures faults { IfOk result (λ loading. loading.faults.items ≡ map (load_fault index.now) (names index.now)) }
    ensures order { IfOk result (λ loading. IsLoadOrder index.now loading.order.items) }
{
    let finals = final_keys(alloc, index)?;
    let mut order = ids_at(alloc, index, loads)?;
    let mut states = states_with(alloc, index, order.as_slice())?;
    let faults = all_faults(alloc, index, &finals, &mut states, &mut order)?;
    Ok(Loading { faults, order })
}
