//! A list of names, of which one may stand at several places.
ghost use Rattle.std.specs.Prelude.{◌≡◌, ◌<◌, ◌++◌, ◌∷◌, [], List, ℕ, length, nat_eq, slice_get, Some, IfOk, IfSome, OnOk};
ghost use Rattle.std.specs.Cmp.Lexicographic.{pointwise, lists_equiv, lists_per, nat_list_eq_equiv};
ghost use Rattle.std.specs.Cmp.{partial_equiv_from_equiv};
ghost use Rattle.jc_base.specs.Again.{IsAgain};
ghost use Rattle.jc_base.specs.KnownAgain.{AreAgain};

use crate::name::Name;
use std::alloc::{AllocError, Global};
use std::marker::Model;

/// A list of names, as a field of a public type. Of a name that stands at several places it may know that
/// it does, so that nobody need compare them. A contract sees it as the list of its names.
#[derive(Debug)]
pub struct Names {
    names: Vec<Name>,
    // For a name an earlier place at which it stands too, where one is known. As long as the list, or shorter.
    earlier: Vec<Option<usize>>,
}

// One call at each exit of a function that owns it, where a derived drop is written out.
impl Drop for Names {
    fn drop(self) {
        let Names {
            names: _,
            earlier: _,
        } = self;
    }
}

impl Model for Names {
    ghost use Rattle.std.specs.Prelude.{List, ℕ};
    ghost use Rattle.jc_base.specs.KnownAgain.{AreAgain};

    ghost Value = { List (List ℕ) };

    ghost view = { λ n. n.names.items };

    ghost invariant = { λ n. AreAgain n.names.items n.earlier.items };
}

impl Names {
    /// Makes a list of the names. It takes no memory.
    pub fn from_vec(alloc: Global, names: Vec<Name>) -> Names
        ensures { result ≡ names.items }
    {
        Names {
            names,
            earlier: Vec::new(alloc),
        }
    }

    /// Lends the names.
    pub fn as_slice(&self) -> &[Name]
        ensures { result.now ≡ self.now }
    {
        self.names.as_slice()
    }

    /// Gives the names back.
    pub fn into_vec(self) -> Vec<Name>
        ensures { result.items ≡ self }
    {
        let Names { names, earlier: _ } = self;
        names
    }

    /// An earlier place at which the name of this place stands too, where one is known.
    pub fn earlier(&self, at: usize) -> Option<usize>
        ensures { IfSome result (λ earlier. IsAgain self.now at earlier) }
    {
        match self.earlier.get(at) {
            Some(earlier) => *earlier,
            None => None,
        }
    }

    /// Adds the name.
    ///
    /// # Errors
    ///
    /// `AllocError` where memory runs out.
    pub fn push(&mut self, name: Name) -> Result<(), AllocError>
        ensures { OnOk result (self.new ≡ self.old ++ name ∷ []) }
    {
        self.names.push(name)?;
        Ok(())
    }

    // Keeps that the name at the first place stands at the other one too, unless more is known already.
    fn keep(&mut self, at: usize, earlier: usize) -> Result<(), AllocError>
        requires { IsAgain self.old at earlier }
        ensures { self.new ≡ self.old }
    {
        pad(&mut self.earlier, at)?;
        if self.earlier.len() == at {
            self.earlier.push(Some(earlier))?;
        }
        Ok(())
    }

    /// Adds the name at an earlier place once more.
    ///
    /// # Errors
    ///
    /// `AllocError` where memory runs out.
    pub fn push_again(&mut self, alloc: Global, earlier: usize) -> Result<(), AllocError>
        requires { earlier < length self.old }
        ensures { OnOk result ((x : List ℕ) → slice_get self.old earlier ≡ Some x → self.new ≡ self.old ++ x ∷ []) }
    {
        let names = self.as_slice();
        let at = names.len();
        let name = names[earlier].copy(alloc)?;
        self.push(name)?;
        self.keep(at, earlier)
    }

    /// A copy of the list, which knows the same. The names' bytes are shared.
    ///
    /// # Errors
    ///
    /// `AllocError` where memory runs out.
    pub fn copy(&self, alloc: Global) -> Result<Names, AllocError>
        ensures { IfOk result (λ copy. copy ≡ self.now) }
    {
        let names = self.as_slice();
        let mut copy = Names::from_vec(alloc, Vec::with_capacity(alloc, names.len())?);
        for at in 0..names.len() {
            if let Some(earlier) = self.earlier(at) {
                copy.push_again(alloc, earlier)?;
                continue;
            }
            copy.push(names[at].copy(alloc)?)?;
        }
        Ok(copy)
    }
}

// Adds places at which nothing is known, until there are so many.
fn pad(earlier: &mut Vec<Option<usize>>, to: usize) -> Result<(), AllocError>
    ensures { (names : List (List ℕ)) → AreAgain names earlier.old.items → AreAgain names earlier.new.items }
{
    for _ in earlier.len()..to {
        earlier.push(None)?;
    }
    Ok(())
}

// The one earlier place at which what both lists have at this place stands too, where both know it.
fn are_as_before(left: &Names, right: &Names, at: usize) -> Option<usize>
    ensures { IfSome result (λ earlier. IsAgain left.now at earlier × IsAgain right.now at earlier) }
{
    match (left.earlier(at), right.earlier(at)) {
        (Some(place), Some(other)) if place == other => Some(place),
        _ => None,
    }
}

impl PartialEq for Names {
    ghost eq = { pointwise (pointwise nat_eq) };

    ghost laws = { lists_per (partial_equiv_from_equiv nat_list_eq_equiv) };

    // What stood in both before isn't compared again.
    fn eq(&self, other: &Names) -> bool {
        let names = self.as_slice();
        let others = other.as_slice();
        if names.len() != others.len() {
            return false;
        }
        for at in 0..names.len() {
            if are_as_before(self, other, at).is_some() {
                continue;
            }
            if names[at] != others[at] {
                return false;
            }
        }
        true
    }
}

impl Eq for Names {
    ghost laws = { lists_equiv nat_list_eq_equiv };
}
