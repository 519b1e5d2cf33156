//! What witnesses are to show.
use jc_table::table::Table;

/// What the witnesses of a verdict are made of, where they are asked for: the folder that they are put
/// into, and the platform with the old release and with the new one.
pub struct Shown<'a> {
    pub dir: &'a str,
    pub old: Table,
    pub new: Table,
}

// One call at each exit of a function that owns it, where a derived drop is written out.
impl Drop for Shown<'_> {
    fn drop(self) {
        let Shown {
            dir: _,
            old: _,
            new: _,
        } = self;
    }
}
