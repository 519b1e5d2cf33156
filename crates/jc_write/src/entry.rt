//! Entries of a constant pool that is written.
ghost use Rattle.std.specs.Prelude.{◌≡◌};
ghost use Rattle.std.specs.Cmp.{partial_equiv_from_equiv};
ghost use Rattle.jc_facts.specs.written.PoolEntries.{text, class, pair, member, same_entry};
ghost use Rattle.jc_write.specs.steps.EntryOrder.{same_entry_equiv, entry_fed, entries_fed};
ghost use Rattle.jc_write.specs.steps.EntryView.{entry_view};

use crate::says::Says;
use std::hash::{Hash, Hasher};
use std::marker::Model;

/// An entry, by what it says. A contract sees it without where its texts lie.
#[derive(Drop)]
pub(crate) struct Entry<'a> {
    says: Says<'a>,
}

impl<'a> Model for Entry<'a> {
    ghost use Rattle.jc_facts.specs.written.PoolEntries.{PoolEntry};
    ghost use Rattle.jc_write.specs.steps.EntryView.{entry_view};

    ghost Value = { PoolEntry };

    ghost view = { λ e. entry_view e.says };
}

impl<'a> Entry<'a> {
    pub(crate) fn text(bytes: &'a [u8]) -> Entry<'a>
        ensures { result ≡ text bytes.now }
    {
        Entry {
            says: Says::Text(bytes),
        }
    }

    pub(crate) fn class(name: &'a [u8]) -> Entry<'a>
        ensures { result ≡ class name.now }
    {
        Entry {
            says: Says::Class(name),
        }
    }

    pub(crate) fn pair(name: &'a [u8], descriptor: &'a [u8]) -> Entry<'a>
        ensures { result ≡ pair name.now descriptor.now }
    {
        Entry {
            says: Says::Pair(name, descriptor),
        }
    }

    pub(crate) fn member(
        tag: u8,
        class: &'a [u8],
        name: &'a [u8],
        descriptor: &'a [u8],
    ) -> Entry<'a>
        ensures { result ≡ member tag class.now name.now descriptor.now }
    {
        Entry {
            says: Says::Member(tag, class, name, descriptor),
        }
    }

    /// What it says.
    pub(crate) fn says(&self) -> Says<'a>
        ensures { entry_view result ≡ self.now }
    {
        self.says
    }
}

impl<'a> PartialEq for Entry<'a> {
    ghost eq = { same_entry };

    ghost laws = { partial_equiv_from_equiv same_entry_equiv };

    fn eq(&self, other: &Entry<'a>) -> bool {
        match (self.says, other.says) {
            (Says::Text(a), Says::Text(b)) => a == b,
            (Says::Class(a), Says::Class(b)) => a == b,
            (Says::Pair(a, b), Says::Pair(c, d)) => a == c && b == d,
            (Says::Member(t, a, b, c), Says::Member(u, d, e, f)) => {
                t == u && a == d && b == e && c == f
            }
            _ => false,
        }
    }
}

impl<'a> Eq for Entry<'a> {
    ghost laws = { same_entry_equiv };
}

impl<'a> Hash for Entry<'a> {
    ghost hash_input = { entry_fed };

    ghost respects_eq = { entries_fed };

    fn hash<H: Hasher>(&self, state: &mut H) {
        match self.says {
            Says::Text(text) => text.hash(state),
            Says::Class(name) => name.hash(state),
            Says::Pair(name, descriptor) => {
                name.hash(state);
                descriptor.hash(state);
            }
            Says::Member(_, class, name, descriptor) => {
                class.hash(state);
                name.hash(state);
                descriptor.hash(state);
            }
        }
    }
}
