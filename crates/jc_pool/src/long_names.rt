//! Names of long texts, found again by where these stand in the pool.
ghost use Rattle.std.specs.Prelude.{◌≡◌, Some, IfOk, IfSome};
ghost use Rattle.jc_desc.specs.PoolAnswers.{utf8_in};
ghost use Rattle.jc_pool.specs.steps.Bodies.{body_at};

use crate::long_texts::{LONG, MOST_KEPT};
use crate::pool::Pool;
use jc_base::name::Name;
use std::alloc::{AllocError, Global};
use std::marker::Model;

/// A name, and the index of its text.
#[derive(Drop)]
struct LongName {
    index: u16,
    name: Name,
}

/// Names of the texts that one list of a class file mentions. That of a long text is found again by the
/// index of the text, and not by its bytes. A contract sees the pool.
#[derive(Drop)]
pub struct LongNames<'p, 'a> {
    pool: &'p Pool<'a>,
    made: Vec<LongName>,
}

impl<'p, 'a> Model for LongNames<'p, 'a> {
    ghost use Rattle.jc_desc.specs.Pool.{PoolOf};
    ghost use Rattle.jc_pool.specs.steps.LongNames.{AreLongNames};

    ghost Value = { PoolOf };

    ghost view = { λ n. n.pool.now };

    ghost invariant = { AreLongNames };
}

impl<'p, 'a> LongNames<'p, 'a> {
    /// No name was made yet.
    pub fn new(alloc: Global, pool: &'p Pool<'a>) -> LongNames<'p, 'a>
        ensures { result ≡ pool.now }
    {
        LongNames {
            pool,
            made: Vec::new(alloc),
        }
    }

    // The name of the text at the index, where it is kept.
    fn kept(&self, index: u16) -> Option<&Name>
        ensures { IfSome result (λ name. name.now ≡ body_at self.now index) }
    {
        for long in self.made.as_slice() {
            if long.index == index {
                return Some(&long.name);
            }
        }
        None
    }

    // Keeps the name of the text at the index, unless there are many. Where there is no memory for it, the
    // name is made again.
    fn keep(&mut self, index: u16, name: Name)
        requires { name ≡ body_at self.old index }
        ensures { self.new ≡ self.old }
    {
        if self.made.len() < MOST_KEPT {
            match self.made.push(LongName { index, name }) {
                Ok(()) => {}
                Err(_) => {}
            }
        }
    }

    // The name of the text at the index, however long it is.
    fn long(&mut self, alloc: Global, index: u16, text: &'a [u8]) -> Result<Name, AllocError>
        requires { text.now ≡ body_at self.old index }
        ensures value { IfOk result (λ name. name ≡ text.now) }
        ensures same { self.new ≡ self.old }
    {
        if let Some(name) = self.kept(index) {
            return name.copy(alloc);
        }
        let name = self.pool.name(alloc, text)?;
        self.keep(index, name.copy(alloc)?);
        Ok(name)
    }

    /// The name of the text of the Utf8 at the index.
    ///
    /// # Errors
    ///
    /// `AllocError` where memory runs out.
    pub fn name(&mut self, alloc: Global, index: u16, text: &'a [u8]) -> Result<Name, AllocError>
        requires { utf8_in self.old index ≡ Some text.now }
        ensures value { IfOk result (λ name. name ≡ text.now) }
        ensures same { self.new ≡ self.old }
    {
        if text.len() < LONG {
            self.pool.name(alloc, text)
        } else {
            self.long(alloc, index, text)
        }
    }
}
