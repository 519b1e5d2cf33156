//! Which lines explain what is lost at a spot.
ghost use Rattle.std.specs.Prelude.{◌≡◌};
ghost use Rattle.jc_used.specs.Explains.{explains_item, explains_spot};

use crate::line::Line;
use crate::loading::explains_load;
use crate::members::{
    explains_assign, explains_init, explains_new, explains_special, explains_use,
};
use crate::ties::Ties;
use jc_facts::client::Item;
use jc_facts::link_error::LinkError;

fn explains_item(ties: &Ties<'_>, line: &Line, item: &Item, error: LinkError) -> bool
    ensures { result ≡ explains_item ties.now line.now item.now error }
{
    match item {
        Item::Class { .. } => explains_load(ties, line, error),
        Item::New { descriptor, .. } => {
            explains_load(ties, line, error) || explains_new(ties, line, descriptor, error)
        }
        Item::Init { descriptor, .. } => {
            explains_load(ties, line, error) || explains_init(ties, line, descriptor, error)
        }
        Item::Access { act, key, .. } => {
            explains_load(ties, line, error)
                || explains_use(ties, line, *act, key, error)
                || explains_assign(ties, line, error)
                || explains_special(ties, line, *act, error)
        }
        Item::Assign { .. } => explains_assign(ties, line, error),
    }
}

/// Whether the line explains that the loading, or the item where there is one, has this error.
pub(crate) fn explains_spot(
    ties: &Ties<'_>,
    line: &Line,
    item: &Option<Item>,
    error: LinkError,
) -> bool
    ensures { result ≡ explains_spot ties.now line.now item.now error }
{
    match item {
        None => explains_load(ties, line, error),
        Some(item) => explains_item(ties, line, item, error),
    }
}
