//! Trees that aren't read.
ghost use Rattle.std.specs.Prelude.{◌≡◌};
ghost use Rattle.jc_releases.specs.steps.Trees.{stop_by_trees};

use crate::stop::Stop;
use jc_trees::trees_error::TreesError;

/// Why there is no report where the trees aren't read.
pub fn stop_of(error: TreesError) -> Stop
    ensures { result ≡ stop_by_trees error }
{
    match error {
        TreesError::Unread(name, fault) => Stop::Unread(name, fault),
        TreesError::Fault(name) => Stop::ReadFault(name),
        TreesError::Memory => Stop::Memory,
    }
}
