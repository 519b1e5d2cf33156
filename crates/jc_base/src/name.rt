//! Names of classes and members, and descriptors, as class files have them.
ghost use Rattle.std.specs.Prelude.{◌≡◌, ◌≤◌, ◌∷◌, [], length, IfOk, Some, nat_eq, refl};
ghost use Rattle.std.specs.Ordering.{nat_cmp};
ghost use Rattle.std.specs.Cmp.Lexicographic.{pointwise, slice_cmp, nat_list_eq_equiv, nat_list_cmp_total, texts_ties, texts_po};
ghost use Rattle.std.specs.Cmp.{partial_equiv_from_equiv};
ghost use Rattle.std.specs.Cmp.Rules.{hashing};
ghost use Rattle.std.proofs.Common.{rules};

use std::alloc::{AllocError, Global};
use std::cmp::Ordering;
use std::fmt;
use std::hash::{Hash, Hasher};
use std::marker::Model;
use std::rc::RcSlice;

/// As many bytes lie in a name itself: with their number and the tag they are as large as two words.
pub(crate) const MOST_INSIDE: usize = 14;

/// Where the bytes of a name are.
#[derive(Drop)]
enum Place {
    /// In the name itself: the first so many of these.
    Inside { len: u8, room: [u8; MOST_INSIDE] },
    /// In memory that the copies of the name share.
    Shared(RcSlice<u8>),
}

/// A name or a descriptor: a list of bytes, as a class file holds them (JVMS 4.2, 4.3, 4.4.7). A
/// contract sees it as these bytes, which it is compared and hashed by. A short one takes no memory
/// beside its own, and the copies of a long one share its bytes.
pub struct Name {
    place: Place,
}

// One call at each exit of a function that owns it, where a derived drop is written out.
impl Drop for Name {
    fn drop(self) {
        let Name { place: _ } = self;
    }
}

impl Model for Name {
    ghost use Rattle.std.specs.Prelude.{List, ℕ};

    ghost Value = { List ℕ };

    ghost use Rattle.jc_base.specs.Places.{bytes_at, Fits};

    ghost view = { λ n. bytes_at n.place };

    ghost invariant = { λ n. Fits n.place };
}

// A name that holds the bytes itself.
fn inside(bytes: &[u8]) -> Name
    requires { length bytes.now ≤ MOST_INSIDE }
    ensures { result ≡ bytes.now }
{
    let mut room = [0; MOST_INSIDE];
    room[..bytes.len()].copy_from_slice(bytes);
    Name {
        place: Place::Inside {
            len: bytes.len() as u8,
            room,
        },
    }
}

impl Name {
    /// A copy of the bytes.
    ///
    /// # Errors
    ///
    /// `AllocError` where memory runs out.
    pub fn from_bytes(alloc: Global, bytes: &[u8]) -> Result<Name, AllocError>
        ensures { IfOk result (λ name. name ≡ bytes.now) }
    {
        if bytes.len() <= MOST_INSIDE {
            return Ok(inside(bytes));
        }
        Ok(Name {
            place: Place::Shared(RcSlice::from_slice(alloc, bytes)?),
        })
    }

    /// Lends the bytes.
    pub fn as_bytes(&self) -> &[u8]
        ensures { result.now ≡ self.now }
    {
        match &self.place {
            Place::Inside { len, room } => &room[..*len as usize],
            Place::Shared(bytes) => bytes.as_slice(),
        }
    }

    /// A copy of the name, which takes no memory: of a long name it shares the bytes.
    ///
    /// # Errors
    ///
    /// `AllocError` where the bytes have as many copies as can be counted.
    pub fn copy(&self, _alloc: Global) -> Result<Name, AllocError>
        ensures { IfOk result (λ name. name ≡ self.now) }
    {
        match &self.place {
            Place::Inside { len, room } => Ok(Name {
                place: Place::Inside {
                    len: *len,
                    room: *room,
                },
            }),
            Place::Shared(bytes) => Ok(Name {
                place: Place::Shared(bytes.clone()?),
            }),
        }
    }
}

impl PartialEq for Name {
    ghost eq = { pointwise nat_eq };

    ghost laws = { partial_equiv_from_equiv nat_list_eq_equiv };

    fn eq(&self, other: &Name) -> bool {
        self.as_bytes() == other.as_bytes()
    }
}

impl Eq for Name {
    ghost laws = { nat_list_eq_equiv };
}

impl PartialOrd for Name {
    ghost partial_cmp = { λ x y. Some (slice_cmp nat_cmp x y) };

    ghost laws = { texts_po };

    fn partial_cmp(&self, other: &Name) -> Option<Ordering> {
        Some(self.cmp(other))
    }
}

impl Ord for Name {
    ghost cmp = { slice_cmp nat_cmp };

    ghost total = { nat_list_cmp_total };

    ghost matches_partial_cmp = { λ x y. refl };

    ghost matches_eq = { texts_ties };

    fn cmp(&self, other: &Name) -> Ordering {
        self.as_bytes().cmp(other.as_bytes())
    }
}

/// As many bytes of a name are hashed; of a longer one half of them from each end. To hash a long name whole
/// takes its length each time that it is looked for.
const HASHED: usize = 1_024;

impl Hash for Name {
    ghost use Rattle.jc_base.specs.HashedParts.{hashed_parts};

    ghost hash_input = { hashed_parts };

    ghost respects_eq = { Prim.search (hashing, rules) };

    // Many bytes at once, which is faster than one by one.
    fn hash<H: Hasher>(&self, state: &mut H) {
        let bytes = self.as_bytes();
        if bytes.len() <= HASHED {
            state.write(bytes);
        } else {
            state.write(&bytes[..HASHED / 2]);
            state.write(&bytes[bytes.len() - HASHED / 2..]);
        }
    }
}

impl fmt::Debug for Name {
    fn fmt<W: fmt::Write>(&self, f: &mut fmt::Formatter<W>) -> fmt::Result {
        fmt::Debug::fmt(self.as_bytes(), f)
    }
}
