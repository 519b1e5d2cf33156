//! What a loss hangs on.
ghost use Rattle.std.specs.Prelude.{◌≡◌, ◌&&◌, not, cond, [], None, Some, option_map, IfOk};
ghost use Rattle.jc_facts.specs.client.Acts.{is_special};
ghost use Rattle.jc_facts.specs.Names.{same};
ghost use Rattle.jc_facts.specs.world.Types.{is_array_text};
ghost use Rattle.jc_facts.specs.Options.{some_and};
ghost use Rattle.jc_used.specs.Above.{chain_of, chain_where, above_where};
ghost use Rattle.jc_used.specs.Explains.{is_load_lost, class_in_where, ties_to, ties_of_item, ties_of};

use crate::above::Above;
use crate::types::{class_in, is_array};
use jc_base::name::Name;
use jc_facts::act::Act;
use jc_facts::class_facts::ClassFacts;
use jc_facts::client::Item;
use jc_facts::outcome::Outcome;
use std::alloc::{AllocError, Global};
use std::marker::Model;

/// What a loss hangs on: the class whose loading it asks for, with the clients from there up, whether what
/// stands behind the loading is reached, the clients up from the client itself, and the two classes of an
/// assignment.
#[derive(Drop)]
pub struct Ties<'a> {
    pub class: Option<&'a [u8]>,
    pub chain: Above<'a>,
    pub above: Above<'a>,
    pub reached: bool,
    pub own: Above<'a>,
    pub from: Option<&'a [u8]>,
    pub from_chain: Above<'a>,
    pub to: Option<&'a [u8]>,
}

impl<'a> Model for Ties<'a> {
    ghost use Rattle.std.specs.Prelude.{option_map};
    ghost use Rattle.jc_used.specs.Explains.{TiesOf};

    ghost Value = { TiesOf };

    ghost view = { λ t. record {
      «class» = option_map (λ n. n.now) t.«class»;
      chain = t.chain;
      above = t.above;
      reached = t.reached;
      own = t.own;
      from = option_map (λ n. n.now) t.from;
      from_chain = t.from_chain;
      to = option_map (λ n. n.now) t.to;
    } };
}

/// Whether it is this class.
pub(crate) fn is_class(class: Option<&[u8]>, name: &Name) -> bool
    ensures { result ≡ some_and (λ x. same x name.now) (option_map (λ n. n.now) «class».entry) }
{
    match class {
        None => false,
        Some(class) => class == name.as_bytes(),
    }
}

// Whether the loading of this client is lost.
fn is_load_lost(lost: &[Outcome], name: &Name) -> bool
    ensures { result ≡ is_load_lost lost.now name.now }
{
    for outcome in lost {
        if outcome.item.is_none() && outcome.class == *name {
            return true;
        }
    }
    false
}

// The clients from a class up.
fn chain_from<'a>(
    alloc: Global,
    clients: &'a [ClassFacts],
    class: Option<&[u8]>,
) -> Result<Above<'a>, AllocError>
    ensures { IfOk result (λ chain. chain ≡ chain_where clients.now (option_map (λ n. n.now) «class».entry)) }
{
    match class {
        None => Ok(Above::none(alloc)),
        Some(name) => Above::chain(alloc, clients, name),
    }
}

// The class that a type names, where there is one.
fn class_of<'a>(text: Option<&'a Name>) -> Option<&'a [u8]>
    ensures { option_map (λ n. n.now) result ≡ class_in_where (option_map (λ n. n.now) text.entry) }
{
    match text {
        None => None,
        Some(text) => class_in(text.as_bytes()),
    }
}

// The same, each with the clients among the interfaces that it names itself.
#[tactic(auto, unfolding(crate::specs::Above::above_of))]
fn above_from<'a>(
    alloc: Global,
    clients: &'a [ClassFacts],
    class: Option<&[u8]>,
) -> Result<Above<'a>, AllocError>
    ensures { IfOk result (λ above. above ≡ above_where clients.now (option_map (λ n. n.now) «class».entry)) }
{
    match class {
        None => Ok(Above::none(alloc)),
        Some(name) => {
            let chain = Above::chain(alloc, clients, name)?;
            let above = chain.with_interfaces(alloc, clients)?;
            Ok(above)
        }
    }
}

// Whether what stands behind the loading of the type is reached.
fn is_reached(lost: &[Outcome], text: &Name) -> bool
    ensures { result ≡ (not (is_array_text text.now) && not (is_load_lost lost.now text.now)) }
{
    !is_array(text.as_bytes()) && !is_load_lost(lost, text)
}

// What a spot hangs on that names this type, and where a value of one type is used as another.
fn ties_to<'a>(
    alloc: Global,
    clients: &'a [ClassFacts],
    lost: &[Outcome],
    text: &'a Name,
    own: Above<'a>,
    from: Option<&'a Name>,
    to: Option<&'a Name>,
) -> Result<Ties<'a>, AllocError>
    ensures { IfOk result (λ ties. ties ≡ ties_to clients.now lost.now text.now own.entry (option_map (λ n. n.now) from.entry) (option_map (λ n. n.now) to.entry)) }
{
    let class = class_in(text.as_bytes());
    let from = class_of(from);
    let chain = chain_from(alloc, clients, class)?;
    let above = above_from(alloc, clients, class)?;
    let from_chain = chain_from(alloc, clients, from)?;
    Ok(Ties {
        class,
        chain,
        above,
        reached: is_reached(lost, text),
        own,
        from,
        from_chain,
        to: class_of(to),
    })
}

// The clients up from the client itself, for invokespecial.
fn own_chain<'a>(
    alloc: Global,
    clients: &'a [ClassFacts],
    client: &Name,
    act: Act,
) -> Result<Above<'a>, AllocError>
    ensures { IfOk result (λ own. own ≡ cond (is_special act) (chain_of clients.now client.now) []) }
{
    if act.is_invokespecial() {
        Above::chain(alloc, clients, client.as_bytes())
    } else {
        Ok(Above::none(alloc))
    }
}

// What an item of the client hangs on.
fn ties_of_item<'a>(
    alloc: Global,
    clients: &'a [ClassFacts],
    lost: &[Outcome],
    client: &Name,
    item: &'a Item,
) -> Result<Ties<'a>, AllocError>
    ensures { IfOk result (λ ties. ties ≡ ties_of_item clients.now lost.now client.now item.now) }
{
    let none = Above::none(alloc);
    match item {
        Item::Class { class } => ties_to(alloc, clients, lost, class, none, None, None),
        Item::New { class, .. } => ties_to(alloc, clients, lost, class, none, None, None),
        Item::Init { class, .. } => ties_to(alloc, clients, lost, class, none, None, None),
        Item::Access {
            act,
            class,
            receiver,
            ..
        } => {
            let own = own_chain(alloc, clients, client, *act)?;
            let from = receiver.as_ref();
            ties_to(alloc, clients, lost, class, own, from, Some(class))
        }
        Item::Assign { from, to } => {
            ties_to(alloc, clients, lost, to, none, Some(from), Some(to))
        }
    }
}

/// What a loss of the clients hangs on, of which all this is lost.
///
/// # Errors
///
/// `AllocError` where memory runs out.
pub(crate) fn ties_of<'a>(
    alloc: Global,
    clients: &'a [ClassFacts],
    lost: &[Outcome],
    loss: &'a Outcome,
) -> Result<Ties<'a>, AllocError>
    ensures { IfOk result (λ ties. ties ≡ ties_of clients.now lost.now loss.now.«class» loss.now.item) }
{
    let client = &loss.class;
    match &loss.item {
        None => ties_to(alloc, clients, lost, client, Above::none(alloc), None, None),
        Some(item) => ties_of_item(alloc, clients, lost, client, item),
    }
}
