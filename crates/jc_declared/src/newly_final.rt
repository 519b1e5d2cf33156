//! Methods that may not be overridden any more.
ghost use Rattle.std.specs.Prelude.{◌≡◌, ◌<◌, ◌&&◌, ◌||◌, None, IsTrue, IsFalse};
ghost use Rattle.jc_facts.specs.world.Assignment.{is_interface_of};
ghost use Rattle.jc_promises.specs.rule.Findings.{finds_overridable};
ghost use Rattle.jc_facts.specs.Flags.{public_flag, protected_flag, no_static_flag};
ghost use Rattle.jc_facts.specs.world.Loading.{load_fault};
ghost use Rattle.jc_promises.specs.rule.Bases.{is_base_class, is_key_of_method};
ghost use Rattle.jc_facts.specs.world.World.{size};
ghost use Rattle.jc_declared.specs.steps.Methods.{becomes_final, final_now};
ghost use Rattle.jc_sides.specs.Numbering.{AreNumbers};
ghost use Rattle.jc_sides.specs.SharedOf.{IsShared, name_of};
ghost use Rattle.jc_index.specs.Ids.{name_at};
ghost use Rattle.jc_rows.specs.Keys.{numbered_keys, IsNumber};
ghost use Rattle.jc_index.specs.Sides.{IsSide};

use crate::final_methods::is_final_above;
use jc_desc::names::is_initializer;
use jc_facts::flags::{is_protected, is_public, is_static};
use jc_facts::key::Key;
use jc_index::ids::ClassId;
use jc_method::find::find_method_by_number;
use jc_sides::key_numbers::KeyNumbers;
use jc_sides::shared::Shared;
use jc_sides::sides::Sides;
use jc_table::table::Table;

// Whether these are the flags of an instance method that is public or protected.
fn is_open_instance(flags: u16) -> bool
    ensures { result ≡ (no_static_flag flags && (public_flag flags || protected_flag flags)) }
{
    !is_static(flags) && (is_public(flags) || is_protected(flags))
}

// Whether the key is no initializer's, and isn't final in the old chain of the class but is in the
// new one.
fn is_newly_final(sides: &Sides<'_>, class: &Shared<'_>, key: &Key, numbers: &KeyNumbers) -> bool
    requires shared { IsShared sides.now «class».now }
    requires covered { IsTrue (is_base_class sides.now.old sides.now.new (name_of «class».now)) }
    requires numbers { AreNumbers sides.now key.now numbers.now }
    ensures { result ≡ becomes_final sides.now (name_of «class».now) key.now }
{
    !is_initializer(key.name.as_bytes())
        && !is_final_above(sides.old, class.old, key, numbers.old)
        && is_final_above(sides.new, class.new, key, numbers.new)
}

// Whether the lookup from the class finds a public or protected instance method (JVMS 5.4.3.3).
fn was_overridable(table: &Table, class: ClassId, key: &Key, number: Option<usize>) -> bool
    requires side { IsSide table.now }
    requires class { class < size table.now }
    requires loads { load_fault table.now (name_at table.now class) ≡ None }
    requires kind { IsFalse (is_interface_of table.now (name_at table.now class)) }
    requires key { IsTrue (is_key_of_method key.now) }
    requires number { IsNumber (numbered_keys table.now) key.now number }
    ensures { result ≡ finds_overridable table.now (name_at table.now class) key.now }
{
    let Some(found) = find_method_by_number(table, class, key, number) else {
        return false;
    };
    is_open_instance(found.flags)
}

/// Of a key that is newly final in the chain of the base class, whether clients could override its
/// method below the class.
pub fn made_final(
    sides: &Sides<'_>,
    class: &Shared<'_>,
    key: &Key,
    numbers: &KeyNumbers,
) -> Option<bool>
    requires shared { IsShared sides.now «class».now }
    requires covered { IsTrue (is_base_class sides.now.old sides.now.new (name_of «class».now)) }
    requires numbers { AreNumbers sides.now key.now numbers.now }
    ensures { result ≡ final_now sides.now (name_of «class».now) key.now }
{
    if !is_newly_final(sides, class, key, numbers) {
        return None;
    }
    Some(was_overridable(sides.old, class.old, key, numbers.old))
}
