//! The rows of the classes of a release, and of those above them.
ghost use Rattle.std.specs.Prelude.{IfOk};
ghost use Rattle.jc_index.specs.LoadOrder.{IsLoadOrder};
ghost use Rattle.jc_rows.specs.AllRows.{AreRows};

use crate::columns::{field_rows, method_rows};
use crate::keys::Keys;
use crate::numbering::number_members;
use crate::row::RowItem;
use crate::with_rows::classes_with_rows;
use jc_base::items::Items;
use jc_index::hierarchy::Hierarchy;
use jc_index::ids::ClassId;
use std::alloc::{AllocError, Global};

/// The fields and the methods that the lookups from classes find, by the numbers of the classes, and
/// the keys by whose numbers they stand. Rows are made of `java/lang/Object`, of the classes that stand
/// on the release, and of those above them. A class that loads stands on the release where it is of it,
/// or is below a class of it.
pub struct Rows {
    /// The keys of all fields and methods that the classes with rows declare.
    pub keys: Keys,
    /// Whether the class has rows.
    pub made: Vec<bool>,
    /// The rows of fields (JVMS 5.4.3.2); that of a class that doesn't load or has no rows is empty.
    pub fields: Vec<Items<RowItem>>,
    /// The rows of methods (JVMS 5.4.3.3, 5.4.3.4); that of a class that doesn't load or has no rows
    /// is empty.
    pub methods: Vec<Items<RowItem>>,
}

// One call at each exit of a function that owns it, where a derived drop is written out.
impl Drop for Rows {
    fn drop(self) {
        let Rows {
            keys: _,
            made: _,
            fields: _,
            methods: _,
        } = self;
    }
}

impl Rows {
    /// The rows of the classes that load and have rows. `order` gives those that load, each after
    /// those that it names above itself.
    ///
    /// # Errors
    ///
    /// `AllocError` where memory runs out.
    pub fn new(alloc: Global, hierarchy: &Hierarchy, order: &[ClassId]) -> Result<Rows, AllocError>
        requires { IsLoadOrder hierarchy.now order.now }
        ensures { IfOk result (λ rows. AreRows hierarchy.now rows) }
    {
        let index = hierarchy.index();
        let made = classes_with_rows(alloc, index, order)?;
        let numbering = number_members(alloc, index, made.as_slice())?;
        let fields = field_rows(alloc, index, made.as_slice(), &numbering, order)?;
        let methods = method_rows(alloc, hierarchy, made.as_slice(), &numbering, order)?;
        Ok(Rows {
            keys: numbering.keys,
            made,
            fields,
            methods,
        })
    }
}
