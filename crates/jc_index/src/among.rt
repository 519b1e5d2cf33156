//! Names among others.
ghost use Rattle.std.specs.Prelude.{◌≡◌};
ghost use Rattle.jc_facts.specs.Names.{is_name_among};

use jc_base::name::Name;

/// Whether the name is one of these.
pub fn is_among(names: &[Name], name: &Name) -> bool
    ensures { result ≡ is_name_among names.now name.now }
{
    names.contains(name)
}
