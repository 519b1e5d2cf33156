//! The first of names in byte order.
ghost use Rattle.std.specs.Prelude.{◌≡◌, Some, cond};
ghost use Rattle.std.specs.Option.{option_copied};
ghost use Rattle.jc_facts.specs.ByName.{lower};

use jc_base::name::Name;

// The name, or the other one where it is there and less in byte order.
fn lower_of<'a>(name: &'a Name, other: Option<&'a Name>) -> &'a Name
    ensures { result.now ≡ lower name.now (option_copied other.entry) }
{
    match other {
        Some(other) if *other < *name => other,
        _ => name,
    }
}

/// The lowest so far, with one more name where it counts.
pub fn lowest_with<'a>(lowest: Option<&'a Name>, name: &'a Name, counts: bool) -> Option<&'a Name>
    ensures { option_copied result ≡ cond counts (Some (lower name.now (option_copied lowest.entry))) (option_copied lowest.entry) }
{
    if counts {
        Some(lower_of(name, lowest))
    } else {
        lowest
    }
}
