//! Marks of the classes of a side, which tell of many classes at once which are among some.
ghost use Rattle.std.specs.Prelude.{◌==◌, ◌<◌, length};
ghost use Rattle.std.specs.List.{All, list_any};
ghost use Rattle.jc_select.specs.steps.Losing.{AreSet};

use jc_index::ids::ClassId;

/// Sets the marks of these classes, and leaves the others.
pub(crate) fn set_marks(marks: &mut [bool], ids: &[ClassId], to: bool)
    requires { All (λ id. id < length marks.old) ids.now }
    ensures { AreSet (λ n. list_any (λ i. i == n) ids.now) to marks.old marks.new }
{
    for id in ids {
        marks[id.number() as usize] = to;
    }
}
