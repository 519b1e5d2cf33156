//! Judging the clients of several trees, one tree after the other.
ghost use Rattle.std.specs.Prelude.{◌≡◌, ◌≤◌, ◌++◌, [], ◌∷◌, ℕ, List, map, option_map, IfOk, IfErr, OnOk};
ghost use Rattle.std.specs.List.{All};
ghost use Rattle.jc_base.specs.States.{change};
ghost use Rattle.jc_answers.specs.Numbered.{IsNumbered, AreNumbered};
ghost use Rattle.jc_answers.specs.Said.{IsSaid, AreSaid};
ghost use Rattle.jc_answers.specs.steps.Trees.{IsOfTwoTrees, FailsIn, FailsAmong, error_said};
ghost use Rattle.jc_losses.specs.Ground.{side_of_ground};
ghost use Rattle.jc_trees.specs.ClassFiles.{Told};
ghost use Rattle.jc_trees.specs.Tree.{TreeOf};
ghost use Rattle.jc_trees.specs.TreeView.{tree_of};

use crate::answer::Answer;
use crate::judged::{Said, said_of_clients};
use crate::used::Explained;
use jc_base::file_buf::FileBuf;
use jc_base::recent_names::RecentNames;
use jc_base::trees::Trees;
use jc_losses::grounds::Ground;
use jc_releases::stop::Stop;
use jc_trees::read_tree::read_tree;
use jc_trees::tree::{Tree, TreeKind, TreeName};
use jc_trees::trees_error::TreesError;
use jc_used::line::Line;
use std::alloc::{AllocError, Global};

/// What is said of the clients of several trees, in their order, and which lines explain what those of each
/// lose.
#[derive(Drop)]
pub struct AllSaid {
    pub answers: Vec<Answer>,
    pub explained: Vec<Explained>,
}

// What is said of a tree that isn't read, as `link` says it, or why nothing is.
fn said_of(alloc: Global, error: TreesError) -> Result<Said, TreesError>
    ensures { result ≡ error_said error }
{
    match error {
        TreesError::Unread(_, fault) => Ok(Said {
            answer: Answer::Refused(Stop::Unread(TreeName::Client, fault)),
            explained: Explained::none(alloc),
        }),
        TreesError::Fault(name) => Err(TreesError::Fault(name)),
        TreesError::Memory => Err(TreesError::Memory),
    }
}

// What is said of the clients of one tree, with these lines, where some are given. What was read of it is given back at the end.
fn judge_tree<T: Trees>(
    alloc: Global,
    tree: &Tree<'_>,
    old: &Ground,
    new: &Ground,
    lines: Option<&[Line]>,
    trees: &mut T,
    buffer: &mut FileBuf,
    recent: &RecentNames,
) -> Result<Said, TreesError>
    requires kind { tree.now.kind ≡ TreeKind.Clients }
    requires old { IsOfTwoTrees old.now }
    requires new { IsOfTwoTrees new.now }
    ensures said { IfOk result (λ said. Told (T.state trees.old).content (λ files. IsSaid files (side_of_ground old.now) (side_of_ground new.now) (tree_of tree.now) said.answer)) }
    ensures numbered { IfOk result (λ said. Told (T.state trees.old).content (λ files. IsNumbered files (side_of_ground old.now) (side_of_ground new.now) (option_map (λ ls. ls.now) lines.entry) (tree_of tree.now) said.explained)) }
    ensures stopped { IfErr result (FailsIn (change T.state trees.old trees.new) (tree_of tree.now)) }
    ensures content { (T.state trees.new).content ≡ (T.state trees.old).content }
    ensures never_falls { (r : List ℕ) → (T.state trees.old).faults r ≤ (T.state trees.new).faults r }
{
    let read = match read_tree(alloc, tree, trees, buffer, recent) {
        Ok(read) => read,
        Err(error) => return said_of(alloc, error),
    };
    let clients = read.into_clients();
    match said_of_clients(alloc, old, new, clients, lines) {
        Ok(said) => Ok(said),
        Err(_) => Err(TreesError::Memory),
    }
}

// Adds what is said of the clients of one more tree.
fn push_said(all: &mut AllSaid, said: Said) -> Result<(), AllocError>
    ensures answers { OnOk result (all.new.answers.items ≡ all.old.answers.items ++ said.answer ∷ []) }
    ensures explained { OnOk result (all.new.explained.items ≡ all.old.explained.items ++ said.explained ∷ []) }
{
    let Said { answer, explained } = said;
    all.answers.push(answer)?;
    all.explained.push(explained)?;
    Ok(())
}

/// What is said of the clients of each of the trees, over an old side and a new one, and, where lines are
/// given, which of them explain what they lose. A tree that isn't read stops no other: that is said of it.
/// What is read of a tree is given back before the next is read.
///
/// # Errors
///
/// `TreesError::Fault` where a call on a tree failed, and `Memory` where memory runs out.
pub fn judge_trees<T: Trees>(
    alloc: Global,
    wanted: &[Tree<'_>],
    old: &Ground,
    new: &Ground,
    lines: Option<&[Line]>,
    trees: &mut T,
) -> Result<AllSaid, TreesError>
    requires kinds { All (λ tree. tree.kind ≡ TreeKind.Clients) wanted.now }
    requires old { IsOfTwoTrees old.now }
    requires new { IsOfTwoTrees new.now }
    ensures said { IfOk result (λ all. Told (T.state trees.old).content (λ files. AreSaid files (side_of_ground old.now) (side_of_ground new.now) (map tree_of wanted.now) all.answers.items)) }
    ensures numbered { IfOk result (λ all. Told (T.state trees.old).content (λ files. AreNumbered files (side_of_ground old.now) (side_of_ground new.now) (option_map (λ ls. ls.now) lines.entry) (map tree_of wanted.now) all.explained.items)) }
    ensures stopped { IfErr result (FailsAmong (change T.state trees.old trees.new) (map tree_of wanted.now)) }
    ensures content { (T.state trees.new).content ≡ (T.state trees.old).content }
{
    let Ok(mut buffer) = FileBuf::new(alloc) else {
        return Err(TreesError::Memory);
    };
    let Ok(recent) = RecentNames::new(alloc) else {
        return Err(TreesError::Memory);
    };
    let mut all = AllSaid {
        answers: Vec::new(alloc),
        explained: Vec::new(alloc),
    };
    for tree in wanted {
        match judge_tree(alloc, tree, old, new, lines, trees, &mut buffer, &recent) {
            Ok(said) => match push_said(&mut all, said) {
                Ok(()) => {}
                Err(_) => return Err(TreesError::Memory),
            },
            Err(error) => return Err(error),
        }
    }
    Ok(all)
}
