//! The names that are made of a file's texts.
ghost use Rattle.std.specs.Prelude.{◌≡◌, IfOk, IfSome};

use jc_base::name::Name;
use jc_base::recent_names::RecentNames;
use std::alloc::{AllocError, Global};
use std::collections::BTreeMap;

/// How many bytes a text has at most of which each mention is a copy of its own: to copy so few costs
/// less than to look for the copy before.
const SHORT: usize = 32;

/// So many bytes a text has at least that is looked for in the file first, as the last one of its long
/// texts and then among all: the names of the files before are looked for by a hash of all the bytes.
const LONG: usize = 256;

/// Names of the texts of one file, of a long text one that all its mentions share. So the names of a
/// file take memory in proportion to its bytes, however often it mentions a text.
#[derive(Drop)]
pub(crate) struct Names<'a> {
    made: BTreeMap<&'a [u8], Name>,
    /// The name of the last long text.
    last: Option<Name>,
    /// The names of the files before, where there are any to share.
    recent: Option<&'a RecentNames>,
}

impl<'a> Names<'a> {
    pub(crate) fn new(alloc: Global, recent: Option<&'a RecentNames>) -> Names<'a> {
        Names {
            made: BTreeMap::new(alloc),
            last: None,
            recent,
        }
    }

    // A name of these bytes that this file doesn't have yet.
    fn first(&self, alloc: Global, text: &[u8]) -> Result<Name, AllocError>
        ensures { IfOk result (λ name. name ≡ text.now) }
    {
        match self.recent {
            Some(recent) => recent.name(alloc, text),
            None => Name::from_bytes(alloc, text),
        }
    }

    // The name of these bytes, where the files before have it.
    fn known(&self, alloc: Global, text: &[u8]) -> Result<Option<Name>, AllocError>
        ensures { IfOk result (λ known. IfSome known (λ name. name ≡ text.now)) }
    {
        match self.recent {
            Some(recent) => recent.known(alloc, text),
            None => Ok(None),
        }
    }

    // The name of these bytes, where the file has it.
    fn mentioned(&self, alloc: Global, text: &'a [u8]) -> Result<Option<Name>, AllocError>
        ensures { IfOk result (λ mentioned. IfSome mentioned (λ name. name ≡ text.now)) }
    {
        match self.made.get(text) {
            Some(name) if name.as_bytes() == text => Ok(Some(name.copy(alloc)?)),
            _ => Ok(None),
        }
    }

    // The same, where it is that of the last long text.
    fn again(&self, alloc: Global, text: &[u8]) -> Result<Option<Name>, AllocError>
        ensures { IfOk result (λ again. IfSome again (λ name. name ≡ text.now)) }
    {
        match &self.last {
            Some(last) if last.as_bytes() == text => Ok(Some(last.copy(alloc)?)),
            _ => Ok(None),
        }
    }

    // The name of these bytes, which all mentions in the file share.
    fn shared(&mut self, alloc: Global, text: &'a [u8]) -> Result<Name, AllocError>
        ensures { IfOk result (λ name. name ≡ text.now) }
    {
        if let Some(name) = self.mentioned(alloc, text)? {
            return Ok(name);
        }
        let name = self.first(alloc, text)?;
        self.made.insert(text, name.copy(alloc)?)?;
        Ok(name)
    }

    // The name of a long text.
    fn long(&mut self, alloc: Global, text: &'a [u8]) -> Result<Name, AllocError>
        ensures { IfOk result (λ name. name ≡ text.now) }
    {
        if let Some(name) = self.again(alloc, text)? {
            return Ok(name);
        }
        let name = self.shared(alloc, text)?;
        self.last = Some(name.copy(alloc)?);
        Ok(name)
    }

    /// The name of these bytes.
    pub(crate) fn name(&mut self, alloc: Global, text: &'a [u8]) -> Result<Name, AllocError>
        ensures { IfOk result (λ name. name ≡ text.now) }
    {
        if text.len() <= SHORT {
            return self.first(alloc, text);
        }
        if text.len() >= LONG {
            return self.long(alloc, text);
        }
        if let Some(name) = self.known(alloc, text)? {
            return Ok(name);
        }
        self.shared(alloc, text)
    }
}
