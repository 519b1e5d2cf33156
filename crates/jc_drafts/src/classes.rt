//! Classes of a side by their names.
ghost use Rattle.std.specs.Prelude.{◌≡◌};
ghost use Rattle.std.specs.Option.{option_copied};
ghost use Rattle.jc_facts.specs.world.World.{find_class};
ghost use Rattle.jc_facts.specs.world.Assignment.{is_interface_of};

use jc_base::name::Name;
use jc_facts::class_facts::ClassFacts;
use jc_facts::flags;
use jc_table::table::Table;

/// The record of the class of this name.
pub fn record_of<'a>(table: &'a Table, name: &Name) -> Option<&'a ClassFacts>
    ensures { option_copied result ≡ find_class table.now name.now }
{
    match table.get(name.as_bytes()) {
        Some(class) => Some(table.facts(class)),
        None => None,
    }
}

/// Whether the class of this name is an interface of the side.
pub fn is_interface(table: &Table, name: &Name) -> bool
    ensures { result ≡ is_interface_of table.now name.now }
{
    match record_of(table, name) {
        Some(class) => flags::is_interface(class.flags),
        None => false,
    }
}
