//! Names that were made lately.
ghost use Rattle.std.specs.Prelude.{◌≡◌, ◌<◌, IfOk, IfSome};

use crate::name::{MOST_INSIDE, Name};
use std::alloc::{AllocError, Global};
use std::cell::RefCell;

/// How many names are kept.
const KEPT: usize = 8_192;

/// Names that were made lately, which further names of the same bytes share. Each has one place, which
/// its bytes tell, and is kept until another comes there. So the class files of a run, of which most
/// name what those before them name, have most of their long names in common, and what is kept here
/// takes the same memory in each run.
#[derive(Drop)]
pub struct RecentNames {
    // Behind a shared reference, as no answer depends on which names were made before. No clause can name
    // what a cell holds, so `new` has none.
    names: RefCell<Vec<Name>>,
}

// Mixes a word into a hash, as FxHash does.
fn mixed(hash: u64, word: [u8; 8]) -> u64 {
    (hash.rotate_left(5) ^ u64::from_le_bytes(word)).wrapping_mul(0x517c_c1b7_2722_0a95)
}

// The place of the name of these bytes, by a hash of their words, of which the last may overlap the
// one before. On it the speed alone hangs.
fn place_of(text: &[u8]) -> usize
    ensures { result < KEPT }
{
    let (words, _) = text.as_chunks::<8>();
    let mut hash = text.len() as u64;
    for word in words {
        hash = mixed(hash, *word);
    }
    if let Some(last) = text.last_chunk::<8>() {
        hash = mixed(hash, *last);
    }
    (hash >> 32) as usize % KEPT
}

// A copy of the name of these bytes, where it is at its place.
fn known(alloc: Global, names: &[Name], text: &[u8]) -> Result<Option<Name>, AllocError>
    ensures { IfOk result (λ known. IfSome known (λ name. name ≡ text.now)) }
{
    match names.get(place_of(text)) {
        Some(name) if name.as_bytes() == text => Ok(Some(name.copy(alloc)?)),
        _ => Ok(None),
    }
}

// The name of these bytes: a copy of the one at their place, or a new one, which comes there.
fn shared(alloc: Global, names: &mut [Name], text: &[u8]) -> Result<Name, AllocError>
    ensures { IfOk result (λ name. name ≡ text.now) }
{
    if let Some(name) = known(alloc, names, text)? {
        return Ok(name);
    }
    let name = Name::from_bytes(alloc, text)?;
    let place = place_of(text);
    if place < names.len() {
        names[place] = name.copy(alloc)?;
    }
    Ok(name)
}

impl RecentNames {
    /// No name was made yet. Takes all the memory for the list of them.
    ///
    /// # Errors
    ///
    /// `AllocError` where memory runs out.
    pub fn new(alloc: Global) -> Result<RecentNames, AllocError> {
        let mut names = Vec::with_capacity(alloc, KEPT)?;
        for _ in 0..KEPT {
            names.push(Name::from_bytes(alloc, &[])?)?;
        }
        Ok(RecentNames {
            names: RefCell::new(names),
        })
    }

    /// The name of these bytes. One that takes no memory of its own isn't looked for.
    ///
    /// # Errors
    ///
    /// `AllocError` where memory runs out.
    pub fn name(&self, alloc: Global, text: &[u8]) -> Result<Name, AllocError>
        ensures { IfOk result (λ name. name ≡ text.now) }
    {
        if text.len() <= MOST_INSIDE {
            return Name::from_bytes(alloc, text);
        }
        match self.names.try_borrow_mut() {
            Ok(mut names) => shared(alloc, names.as_mut_slice(), text),
            Err(_) => Name::from_bytes(alloc, text),
        }
    }

    /// The name of these bytes, where it was made lately and no other came to its place since. It
    /// shares the bytes.
    ///
    /// # Errors
    ///
    /// `AllocError` where memory runs out.
    pub fn known(&self, alloc: Global, text: &[u8]) -> Result<Option<Name>, AllocError>
        ensures { IfOk result (λ known. IfSome known (λ name. name ≡ text.now)) }
    {
        match self.names.try_borrow() {
            Ok(names) => known(alloc, names.as_slice(), text),
            Err(_) => Ok(None),
        }
    }
}
