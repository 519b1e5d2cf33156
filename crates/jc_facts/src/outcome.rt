//! What linking gives.
use crate::client::Item;
use crate::link_error::LinkError;
use jc_base::name::Name;

/// What one step of linking a client gives.
///
/// An item None is the loading of the class. An error None says that it succeeds.
#[derive(PartialEq, Eq, Debug, Drop)]
pub struct Outcome {
    pub class: Name,
    pub item: Option<Item>,
    pub error: Option<LinkError>,
}
