//! The clients above a client.
ghost use Rattle.std.specs.Prelude.{◌≡◌, ◌++◌, [], option_map, map, IfOk, OnOk};
ghost use Rattle.jc_facts.specs.Names.{is_name_among, same};
ghost use Rattle.jc_facts.specs.Options.{and_then, some_and};
ghost use Rattle.jc_facts.specs.world.Search.{supers};
ghost use Rattle.jc_facts.specs.world.World.{class_named};
ghost use Rattle.jc_used.specs.Above.{chain_of, clients_among, with_own_interfaces};
ghost use Rattle.jc_used.specs.Explains.{names_any, extends_any, implements_any};

use jc_base::name::Name;
use jc_facts::class_facts::ClassFacts;
use std::alloc::{AllocError, Global};
use std::marker::Model;

/// Clients. A contract sees them as their records.
#[derive(Drop)]
pub struct Above<'a> {
    classes: Vec<&'a ClassFacts>,
}

impl<'a> Model for Above<'a> {
    ghost use Rattle.std.specs.Prelude.{List, map};
    ghost use Rattle.jc_facts.specs.declared.class_facts.ClassFacts.{ClassFacts};

    ghost Value = { List ClassFacts };

    ghost view = { λ a. map (λ c. c.now) a.classes.items };
}

// ---- finding them

// The client of this name.
#[tactic(auto, unfolding(jc_facts::specs::world::World::class_named))]
fn client_of<'a>(clients: &'a [ClassFacts], name: &[u8]) -> Option<&'a ClassFacts>
    ensures { option_map (λ c. c.now) result ≡ class_named clients.now name.now }
{
    for client in clients {
        if client.name.as_bytes() == name {
            return Some(client);
        }
    }
    None
}

// The client that is the superclass of this one.
#[tactic(auto, unfolding(jc_facts::specs::Options::and_then))]
fn client_above<'a>(clients: &'a [ClassFacts], class: &ClassFacts) -> Option<&'a ClassFacts>
    ensures { option_map (λ c. c.now) result ≡ and_then (class_named clients.now) class.now.superclass }
{
    match &class.superclass {
        None => None,
        Some(name) => client_of(clients, name.as_bytes()),
    }
}

// Adds the clients among the interfaces that the class names.
fn push_interfaces<'a>(
    out: &mut Vec<&'a ClassFacts>,
    clients: &'a [ClassFacts],
    class: &ClassFacts,
) -> Result<(), AllocError>
    ensures { OnOk result (map (λ c. c.now) out.new.items ≡ map (λ c. c.now) out.old.items ++ clients_among clients.now class.now.interfaces) }
{
    for name in class.interfaces.as_slice() {
        match client_of(clients, name.as_bytes()) {
            None => {}
            Some(client) => out.push(client)?,
        }
    }
    Ok(())
}

// Each of the classes, and then the clients among the interfaces that it names.
fn joined<'a>(
    alloc: Global,
    clients: &'a [ClassFacts],
    classes: &[&'a ClassFacts],
) -> Result<Vec<&'a ClassFacts>, AllocError>
    ensures { IfOk result (λ all. map (λ c. c.now) all.items ≡ with_own_interfaces clients.now (map (λ c. c.now) classes.now)) }
{
    let mut all = Vec::new(alloc);
    for class in classes {
        all.push(*class)?;
        push_interfaces(&mut all, clients, class)?;
    }
    Ok(all)
}

impl<'a> Above<'a> {
    /// The client of this name, its superclass where that is a client, and so on. Nothing where it is no
    /// client.
    ///
    /// # Errors
    ///
    /// `AllocError` where memory runs out.
    #[tactic(auto, unfolding(crate::specs::Above::chain_of))]
    pub fn chain(
        alloc: Global,
        clients: &'a [ClassFacts],
        name: &[u8],
    ) -> Result<Above<'a>, AllocError>
        ensures { IfOk result (λ chain. chain ≡ chain_of clients.now name.now) }
    {
        let mut classes = Vec::new(alloc);
        let mut next = client_of(clients, name);
        for _ in 0..clients.len() {
            match next {
                None => return Ok(Above { classes }),
                Some(client) => {
                    classes.push(client)?;
                    next = client_above(clients, client);
                }
            }
        }
        Ok(Above { classes })
    }

    /// These, each with the clients among the interfaces that it names itself.
    ///
    /// # Errors
    ///
    /// `AllocError` where memory runs out.
    pub fn with_interfaces(
        &self,
        alloc: Global,
        clients: &'a [ClassFacts],
    ) -> Result<Above<'a>, AllocError>
        ensures { IfOk result (λ above. above ≡ with_own_interfaces clients.now self.now) }
    {
        let classes = joined(alloc, clients, self.classes.as_slice())?;
        Ok(Above { classes })
    }

    /// None of them.
    pub fn none(alloc: Global) -> Above<'a>
        ensures { result ≡ [] }
    {
        Above {
            classes: Vec::new(alloc),
        }
    }

    // ---- what they name

    /// The clients.
    pub fn as_slice(&self) -> &[&'a ClassFacts]
        ensures { map (λ c. c.now) result.now ≡ self.now }
    {
        self.classes.as_slice()
    }

    /// Whether one of them names the class above itself.
    pub fn names(&self, name: &Name) -> bool
        ensures { result ≡ names_any self.now name.now }
    {
        any_is_below(self.classes.as_slice(), name)
    }

    /// Whether one of them has the class as its superclass.
    pub fn extends(&self, name: &Name) -> bool
        ensures { result ≡ extends_any self.now name.now }
    {
        any_has_superclass(self.classes.as_slice(), name)
    }

    /// Whether one of them names it as an interface.
    pub fn implements(&self, name: &Name) -> bool
        ensures { result ≡ implements_any self.now name.now }
    {
        any_has_interface(self.classes.as_slice(), name)
    }
}

/// Whether it names the class as its superclass.
fn has_superclass(class: &ClassFacts, name: &Name) -> bool
    ensures { result ≡ some_and (λ s. same s name.now) class.now.superclass }
{
    match &class.superclass {
        None => false,
        Some(superclass) => superclass == name,
    }
}

// Whether it names the class as an interface.
fn has_interface(class: &ClassFacts, name: &Name) -> bool
    ensures { result ≡ is_name_among class.now.interfaces name.now }
{
    class.interfaces.as_slice().contains(name)
}

/// Whether it names the class above itself.
pub(crate) fn is_below(class: &ClassFacts, name: &Name) -> bool
    ensures { result ≡ is_name_among (supers class.now) name.now }
{
    match &class.superclass {
        None => has_interface(class, name),
        Some(superclass) => superclass == name || has_interface(class, name),
    }
}

fn any_is_below(classes: &[&ClassFacts], name: &Name) -> bool
    ensures { result ≡ names_any (map (λ c. c.now) classes.now) name.now }
{
    for class in classes {
        if is_below(class, name) {
            return true;
        }
    }
    false
}

fn any_has_superclass(classes: &[&ClassFacts], name: &Name) -> bool
    ensures { result ≡ extends_any (map (λ c. c.now) classes.now) name.now }
{
    for class in classes {
        if has_superclass(class, name) {
            return true;
        }
    }
    false
}

fn any_has_interface(classes: &[&ClassFacts], name: &Name) -> bool
    ensures { result ≡ implements_any (map (λ c. c.now) classes.now) name.now }
{
    for class in classes {
        if has_interface(class, name) {
            return true;
        }
    }
    false
}
