//! What the chain of a class has of a key (JVMS 5.4.6).
ghost use Rattle.std.specs.Prelude.{◌≡◌, ◌<◌};
ghost use Rattle.jc_facts.specs.world.Hierarchy.{chain};
ghost use Rattle.jc_facts.specs.world.World.{size};
ghost use Rattle.jc_index.specs.steps.Choosing.{candidate_at};
ghost use Rattle.jc_select.specs.steps.Kinds.{kind_by, kind_of, is_nothing};
ghost use Rattle.jc_index.specs.Ids.{name_at};
ghost use Rattle.jc_promises.specs.rule.Selection.{first_kind, chain_kind};

use jc_facts::flags::{is_abstract, is_interface};
use jc_facts::key::Key;
use jc_facts::warning::ChainKind;
use jc_index::ids::ClassId;
use jc_index::own::candidate;
use jc_table::table::Table;

// What an instance method of these flags is to a chain, which isn't private.
fn kind_by(flags: u16) -> ChainKind
    ensures { result ≡ kind_by flags }
{
    if is_abstract(flags) {
        ChainKind::Abstract
    } else {
        ChainKind::Concrete
    }
}

/// What the class itself has of the key.
pub(crate) fn own_kind(table: &Table, class: ClassId, key: &Key) -> ChainKind
    requires { class < size table.now }
    ensures { result ≡ kind_of (candidate_at table.now key.now class) }
{
    match candidate(table.hierarchy(), class, key) {
        None => ChainKind::Nothing,
        Some(found) => kind_by(found.flags),
    }
}

// Whether it has nothing.
fn is_nothing(kind: ChainKind) -> bool
    ensures { result ≡ is_nothing kind }
{
    match kind {
        ChainKind::Nothing => true,
        ChainKind::Abstract => false,
        ChainKind::Concrete => false,
    }
}

// What the class and its superclasses have.
fn walk_kind(table: &Table, class: ClassId, key: &Key) -> ChainKind
    requires { class < size table.now }
    ensures { result ≡ first_kind key.now (chain table.now (name_at table.now class)) }
{
    let mut next = Some(class);
    for done in 0..table.count() {
        let Some(class) = next else {
            return ChainKind::Nothing;
        };
        let kind = own_kind(table, class, key);
        if !is_nothing(kind) {
            return kind;
        }
        next = table.superclass(class);
    }
    ChainKind::Nothing
}

/// What the chain of the class has of the key: by the first class of it that declares the key as an
/// instance method that isn't private. An interface has nothing by its chain.
pub fn chain_kind(table: &Table, class: ClassId, key: &Key) -> ChainKind
    requires { class < size table.now }
    ensures { result ≡ chain_kind table.now (name_at table.now class) key.now }
{
    if is_interface(table.facts(class).flags) {
        return ChainKind::Nothing;
    }
    walk_kind(table, class, key)
}
