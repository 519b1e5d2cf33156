//! What rows have, by the numbers of keys.
ghost use Rattle.std.specs.Prelude.{◌≡◌};
ghost use Rattle.jc_facts.specs.Options.{and_then};
ghost use Rattle.jc_rows.specs.Rows.{entry, Rises};

use jc_index::ids::Found;
use jc_rows::row::{RowItem, find};

/// What the row has for the key of this number; none where the key has no number, as none has of
/// which no class that has rows declares a member. No byte of the key is looked at.
pub fn find_at(row: &[RowItem], number: Option<usize>) -> Option<Found>
    requires { Rises row.now }
    ensures { result ≡ and_then (entry row.now) number }
{
    match number {
        Some(number) => find(row, number),
        None => None,
    }
}
