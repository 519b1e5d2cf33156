//! Which clients a side lets have their names (JVMS 5.3).
ghost use Rattle.std.specs.Prelude.{◌≡◌, ◌++◌, ◌∷◌, [], map, option_map, OnOk, IfOk, IsTrue};
ghost use Rattle.std.specs.List.{flat_map};
ghost use Rattle.std.specs.Str.{is_utf8};
ghost use Rattle.jc_facts.specs.Names.{package_name};
ghost use Rattle.jc_facts.specs.world.Search.{supers};
ghost use Rattle.jc_facts.specs.world.World.{side};
ghost use Rattle.jc_link.specs.Refusals.{first_refused};
ghost use Rattle.jc_link.specs.steps.TakenNames.{AreTaken, wanted, own_of, above_of, package_of_class, are_of, fault_by, first_by};

use crate::refusal::ClientPart;
use jc_base::name::Name;
use jc_facts::class_facts::ClassFacts;
use jc_facts::client::ClientClass;
use jc_facts::limits::MAX_CLASS_NAME;
use jc_facts::packages::package_of;
use jc_index::name_set::NameSet;
use std::alloc::{AllocError, Global};
use std::str;

// The names of clients, and the packages that they are of.
struct ClientNames {
    names: NameSet,
    packages: NameSet,
}

// One call at each exit of a function that owns it, where a derived drop is written out.
impl Drop for ClientNames {
    fn drop(self) {
        let ClientNames {
            names: _,
            packages: _,
        } = self;
    }
}

// Of the names of clients those that classes have and that they name above themselves, and of the
// packages of clients those that classes are of.
struct TakenNames {
    declared: NameSet,
    supers: NameSet,
    packages: NameSet,
}

// One call at each exit of a function that owns it, where a derived drop is written out.
impl Drop for TakenNames {
    fn drop(self) {
        let TakenNames {
            declared: _,
            supers: _,
            packages: _,
        } = self;
    }
}

// The same as lists that grow.
#[derive(Drop)]
struct Lists {
    declared: Vec<Name>,
    supers: Vec<Name>,
    packages: Vec<Name>,
}

// ---- of clients

// The names of the clients.
fn names_of(alloc: Global, clients: &[ClientClass]) -> Result<Vec<Name>, AllocError>
    ensures { IfOk result (λ list. list.items ≡ map (λ c. c.facts.name) clients.now) }
{
    let mut list = Vec::new(alloc);
    for client in clients {
        list.push(client.facts.name.copy(alloc)?)?;
    }
    Ok(list)
}

// Their packages.
fn packages_of(alloc: Global, clients: &[ClientClass]) -> Result<Vec<Name>, AllocError>
    ensures { IfOk result (λ list. list.items ≡ map (λ c. package_name c.facts.name) clients.now) }
{
    let mut list = Vec::new(alloc);
    for client in clients {
        let package = package_of(client.facts.name.as_bytes());
        list.push(Name::from_bytes(alloc, package)?)?;
    }
    Ok(list)
}

// The names and the packages of the clients.
fn client_names(alloc: Global, clients: &[ClientClass]) -> Result<ClientNames, AllocError>
    ensures { IfOk result (λ of. IsTrue (are_of of clients.now)) }
{
    let names = NameSet::new(names_of(alloc, clients)?)?;
    let packages = NameSet::new(packages_of(alloc, clients)?)?;
    Ok(ClientNames { names, packages })
}

// ---- of a side

// The name at the end of the list, where it is wanted.
fn push_wanted(
    alloc: Global,
    list: &mut Vec<Name>,
    names: &NameSet,
    name: &[u8],
) -> Result<(), AllocError>
    ensures { OnOk result (list.new.items ≡ list.old.items ++ wanted names.now (name.now ∷ [])) }
{
    if !names.has(name) {
        return Ok(());
    }
    list.push(Name::from_bytes(alloc, name)?)?;
    Ok(())
}

// Those of the names that are wanted, at the end of the list.
fn push_each(
    alloc: Global,
    list: &mut Vec<Name>,
    names: &NameSet,
    each: &[Name],
) -> Result<(), AllocError>
    ensures { OnOk result (list.new.items ≡ list.old.items ++ wanted names.now each.now) }
{
    for name in each {
        push_wanted(alloc, list, names, name.as_bytes())?;
    }
    Ok(())
}

// Those of the names above the class that are wanted, at the end of the list.
fn push_supers(
    alloc: Global,
    list: &mut Vec<Name>,
    names: &NameSet,
    class: &ClassFacts,
) -> Result<(), AllocError>
    ensures { OnOk result (list.new.items ≡ list.old.items ++ wanted names.now (supers class.now)) }
{
    match &class.superclass {
        None => push_each(alloc, list, names, class.interfaces.as_slice()),
        Some(name) => {
            push_wanted(alloc, list, names, name.as_bytes())?;
            push_each(alloc, list, names, class.interfaces.as_slice())
        }
    }
}

// What the class takes of the names of clients, at the end of the lists.
fn add_class(
    alloc: Global,
    lists: &mut Lists,
    of: &ClientNames,
    class: &ClassFacts,
) -> Result<(), AllocError>
    ensures declared { OnOk result (lists.new.declared.items ≡ lists.old.declared.items ++ own_of of.now class.now) }
    ensures supers { OnOk result (lists.new.supers.items ≡ lists.old.supers.items ++ above_of of.now class.now) }
    ensures packages { OnOk result (lists.new.packages.items ≡ lists.old.packages.items ++ package_of_class of.now class.now) }
{
    let name = class.name.as_bytes();
    push_wanted(alloc, &mut lists.declared, &of.names, name)?;
    push_supers(alloc, &mut lists.supers, &of.names, class)?;
    push_wanted(alloc, &mut lists.packages, &of.packages, package_of(name))?;
    Ok(())
}

// What the classes take of the names of clients, at the end of the lists.
fn add_classes(
    alloc: Global,
    lists: &mut Lists,
    of: &ClientNames,
    classes: &[ClassFacts],
) -> Result<(), AllocError>
    ensures declared { OnOk result (lists.new.declared.items ≡ lists.old.declared.items ++ flat_map (own_of of.now) classes.now) }
    ensures supers { OnOk result (lists.new.supers.items ≡ lists.old.supers.items ++ flat_map (above_of of.now) classes.now) }
    ensures packages { OnOk result (lists.new.packages.items ≡ lists.old.packages.items ++ flat_map (package_of_class of.now) classes.now) }
{
    for class in classes {
        add_class(alloc, lists, of, class)?;
    }
    Ok(())
}

// What the classes of a platform and a release take of the names of clients.
fn taken_names(
    alloc: Global,
    of: &ClientNames,
    platform: &[ClassFacts],
    release: &[ClassFacts],
) -> Result<TakenNames, AllocError>
    ensures { IfOk result (λ taken. AreTaken (side platform.now release.now) of.now taken) }
{
    let mut lists = Lists {
        declared: Vec::new(alloc),
        supers: Vec::new(alloc),
        packages: Vec::new(alloc),
    };
    add_classes(alloc, &mut lists, of, platform)?;
    add_classes(alloc, &mut lists, of, release)?;
    let Lists {
        declared: own,
        supers: above,
        packages: theirs,
    } = lists;
    let declared = NameSet::new(own)?;
    let supers = NameSet::new(above)?;
    let packages = NameSet::new(theirs)?;
    Ok(TakenNames {
        declared,
        supers,
        packages,
    })
}

// ---- of both

// Whether the bytes are a UTF-8 text.
fn is_text(bytes: &[u8]) -> bool
    ensures { result ≡ is_utf8 bytes.now }
{
    str::from_utf8(bytes).is_ok()
}

// Why a client may not have this name; none where it is allowed.
#[tactic(auto, unfolding(crate::specs::steps::TakenNames::fault_by, jc_facts::specs::Options::or_else))]
fn name_error(taken: &TakenNames, name: &Name) -> Option<ClientPart>
    ensures { result ≡ fault_by taken.now name.now }
{
    let bytes = name.as_bytes();
    if taken.declared.has(bytes) {
        return Some(ClientPart::Declared);
    }
    if taken.supers.has(bytes) {
        return Some(ClientPart::Super);
    }
    if taken.packages.has(package_of(bytes)) {
        return Some(ClientPart::Package);
    }
    if bytes.len() > MAX_CLASS_NAME {
        return Some(ClientPart::Length);
    }
    if !is_text(bytes) {
        return Some(ClientPart::Encoding);
    }
    None
}

// The first of the clients that may not have its name, and why.
#[tactic(auto, unfolding(jc_facts::specs::Options::or_else))]
fn refused_among<'a>(
    taken: &TakenNames,
    clients: &'a [ClientClass],
) -> Option<(&'a Name, ClientPart)>
    ensures { option_map (λ p. (p.0.now, p.1)) result ≡ first_by taken.now clients.now }
{
    for client in clients {
        if let Some(part) = name_error(taken, &client.facts.name) {
            return Some((&client.facts.name, part));
        }
    }
    None
}

/// The first of the clients whose name a platform and a release don't allow, and why; none where all
/// are allowed.
///
/// # Errors
///
/// `AllocError` where memory runs out.
pub fn refused_client<'a>(
    alloc: Global,
    platform: &[ClassFacts],
    release: &[ClassFacts],
    clients: &'a [ClientClass],
) -> Result<Option<(&'a Name, ClientPart)>, AllocError>
    ensures { IfOk result (λ refused. option_map (λ p. (p.0.now, p.1)) refused ≡ first_refused (side platform.now release.now) clients.now) }
{
    let of = client_names(alloc, clients)?;
    let taken = taken_names(alloc, &of, platform, release)?;
    Ok(refused_among(&taken, clients))
}
