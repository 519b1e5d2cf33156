//! What a class itself declares, and what the superinterfaces give, asked of a table.
ghost use Rattle.std.specs.Prelude.{◌≡◌, ◌<◌, None};
ghost use Rattle.jc_facts.specs.world.World.{size};
ghost use Rattle.jc_facts.specs.world.Loading.{load_fault};
ghost use Rattle.jc_facts.specs.world.Lookup.{superinterface_choices};
ghost use Rattle.jc_index.specs.steps.Choosing.{own_at, candidate_at, FindsAbove};
ghost use Rattle.jc_index.specs.Ids.{name_at};
ghost use Rattle.jc_index.specs.Lookups.{IsChoice};

use jc_facts::key::Key;
use jc_index::ids::{ClassId, Found};
use jc_index::{choose, own};
use jc_table::table::Table;

// The method of the key that the class itself declares.
pub(crate) fn declared(table: &Table, class: ClassId, key: &Key) -> Option<Found>
    requires { class < size table.now }
    ensures { result ≡ own_at table.now key.now class }
{
    own::declared(table.hierarchy(), class, key)
}

// The same, where it is neither private nor static.
pub(crate) fn candidate(table: &Table, class: ClassId, key: &Key) -> Option<Found>
    requires { class < size table.now }
    ensures { result ≡ candidate_at table.now key.now class }
{
    own::candidate(table.hierarchy(), class, key)
}

// A method of the key that a superinterface of the class declares neither private nor static.
pub(crate) fn any_candidate(table: &Table, class: ClassId, key: &Key) -> Option<Found>
    requires { class < size table.now }
    ensures { FindsAbove table.now (name_at table.now class) (candidate_at table.now key.now) result }
{
    choose::any_candidate(table.hierarchy(), class, key)
}

// What the superinterfaces give: a maximally specific method that isn't abstract, else any that is
// neither private nor static.
pub(crate) fn find_above(table: &Table, class: ClassId, key: &Key) -> Option<Found>
    requires class { class < size table.now }
    requires loads { load_fault table.now (name_at table.now class) ≡ None }
    ensures { IsChoice table.now result (superinterface_choices table.now (name_at table.now class) key.now) }
{
    choose::find_above(table.hierarchy(), class, key)
}
