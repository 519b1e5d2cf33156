//! The trees of commands, and their gates.
ghost use Rattle.std.specs.Prelude.{◌≡◌, ◌≤◌, ◌+◌, length, IfOk, OnOk, ◌++◌, map};
ghost use Rattle.jc_words.specs.CommandView.{check_of, link_of, history_of, clients_of, command_of};
ghost use Rattle.jc_releases.specs.Command.{trees_of, client_trees, release_kind as kind_by, release_trees, gates_named as named_by};
ghost use Rattle.jc_words.specs.Command.{CheckCommand, LinkCommand, HistoryCommand, ClientsCommand};
ghost use Rattle.jc_trees.specs.TreeView.{tree_of};

use jc_trees::tree::{Tree, TreeKind, TreeName};
use jc_words::check::Check;
use jc_words::clients::Clients;
use jc_words::command::Command;
use jc_words::history::History;
use jc_words::link::Link;
use std::alloc::{AllocError, Global};

// How the tree of a release is read: in a run with modules the class file of its module is read too.
fn release_kind(modular: bool) -> TreeKind
    ensures { result ≡ kind_by modular }
{
    if modular {
        TreeKind::Modular
    } else {
        TreeKind::Library
    }
}

/// The trees that a check reads, in this order.
pub fn trees_of_check<'a>(check: &Check<'a>) -> [Tree<'a>; 3]
    ensures { map tree_of result ≡ trees_of (CheckCommand (check_of check.now)) }
{
    [
        Tree {
            name: TreeName::Platform,
            root: check.platform,
            kind: TreeKind::Library,
        },
        Tree {
            name: TreeName::Old,
            root: check.old,
            kind: release_kind(check.modular),
        },
        Tree {
            name: TreeName::New,
            root: check.new,
            kind: release_kind(check.modular),
        },
    ]
}

/// The trees that the linking of clients reads, in this order.
pub fn trees_of_link<'a>(link: &Link<'a>) -> [Tree<'a>; 3]
    ensures { map tree_of result ≡ trees_of (LinkCommand (link_of link.now)) }
{
    [
        Tree {
            name: TreeName::Platform,
            root: link.platform,
            kind: TreeKind::Library,
        },
        Tree {
            name: TreeName::Release,
            root: link.release,
            kind: release_kind(link.modular),
        },
        Tree {
            name: TreeName::Client,
            root: link.client,
            kind: TreeKind::Clients,
        },
    ]
}

// Adds the trees of the releases, numbered from 1 on.
fn push_releases<'a>(wanted: &mut Vec<Tree<'a>>, roots: &[&'a str]) -> Result<(), AllocError>
    requires { length roots.now ≤ 20 }
    ensures { OnOk result (map tree_of wanted.new.items ≡ map tree_of wanted.old.items ++ release_trees 1 (map (λ root. root.now) roots.now)) }
{
    for (i, root) in roots.iter().enumerate() {
        wanted.push(Tree {
            name: TreeName::NthRelease(i as u32 + 1),
            root: *root,
            kind: TreeKind::Library,
        })?;
    }
    Ok(())
}

/// The trees that a row of releases reads, in this order.
///
/// # Errors
///
/// `AllocError` where memory runs out.
pub fn trees_of_history<'a>(alloc: Global, asked: &History<'a>) -> Result<Vec<Tree<'a>>, AllocError>
    requires { length asked.now.releases.items ≤ 20 }
    ensures { IfOk result (λ wanted. map tree_of wanted.items ≡ trees_of (HistoryCommand (history_of asked.now))) }
{
    let mut wanted = Vec::new(alloc);
    wanted.push(Tree {
        name: TreeName::Platform,
        root: asked.platform,
        kind: TreeKind::Library,
    })?;
    push_releases(&mut wanted, asked.releases.as_slice())?;
    Ok(wanted)
}

/// The trees that have to be read where clients of two releases are judged, in this order.
pub fn trees_of_clients<'a>(asked: &Clients<'a>) -> [Tree<'a>; 3]
    ensures { map tree_of result ≡ trees_of (ClientsCommand (clients_of asked.now)) }
{
    [
        Tree {
            name: TreeName::Platform,
            root: asked.platform,
            kind: TreeKind::Library,
        },
        Tree {
            name: TreeName::Old,
            root: asked.old,
            kind: release_kind(asked.modular),
        },
        Tree {
            name: TreeName::New,
            root: asked.new,
            kind: release_kind(asked.modular),
        },
    ]
}

/// The trees of the clients themselves, of which there are up to 1,000, numbered from 1 on.
///
/// # Errors
///
/// `AllocError` where memory runs out.
pub fn trees_of_each_client<'a>(
    alloc: Global,
    roots: &[&'a str],
) -> Result<Vec<Tree<'a>>, AllocError>
    requires { length roots.now ≤ 1000 }
    ensures { IfOk result (λ wanted. map tree_of wanted.items ≡ client_trees 1 (map (λ root. root.now) roots.now)) }
{
    let mut wanted = Vec::new(alloc);
    for (i, root) in roots.iter().enumerate() {
        wanted.push(Tree {
            name: TreeName::NthClient(i as u32 + 1),
            root: *root,
            kind: TreeKind::Clients,
        })?;
    }
    Ok(wanted)
}

/// The names of the gates that a command asks, from left to right.
///
/// # Errors
///
/// `AllocError` where memory runs out.
pub fn gates_named<'a>(alloc: Global, command: &Command<'a>) -> Result<Vec<&'a str>, AllocError>
    ensures { IfOk result (λ names. map (λ name. name.now) names.items ≡ named_by (command_of command.now)) }
{
    match command {
        Command::Check(check) => check.gate_names(alloc),
        Command::Link(_)
        | Command::Make(_)
        | Command::History(_)
        | Command::Clients(_)
        | Command::Help => Ok(Vec::new(alloc)),
    }
}
