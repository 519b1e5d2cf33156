//! The rule on classes that are gone.
ghost use Rattle.std.specs.Prelude.{◌≡◌, ◌<◌, refl};
ghost use Rattle.jc_facts.specs.declared.rule_numbers.TheConstants.{CLASS_GONE};
ghost use Rattle.jc_facts.specs.world.World.{size};
ghost use Rattle.jc_index.specs.Ids.{name_at};
ghost use Rattle.jc_declared.specs.steps.Classes.{why_unusable};

use jc_facts::act::Act;
use jc_facts::link_error::LinkError;
use jc_index::ids::ClassId;
use jc_sides::broken::{BrokenAct, broken_where};
use jc_sides::class_rule::ClassRule;
use jc_sides::kept::is_usable;
use jc_sides::sides::Sides;
use jc_table::naming::is_nameable;
use std::alloc::{AllocError, Global};

// Why clients can't use the class of the old side on the new side; none where they can.
fn unusable(sides: &Sides<'_>, id: ClassId) -> Option<LinkError>
    requires { id < size sides.now.old }
    ensures { result ≡ why_unusable sides.now.new (name_at sides.now.old id) }
{
    let Some(after) = sides.new_id(id) else {
        return Some(LinkError::NoClassDefFoundError);
    };
    if let Some(error) = sides.new.fault_at(after) {
        return Some(error);
    }
    if is_nameable(sides.new, after) {
        None
    } else {
        Some(LinkError::IllegalAccessError)
    }
}

/// Classes that clients could use and can't use any more (JVMS 5.3.5, 5.4.4).
pub struct ClassGone;

impl ClassRule for ClassGone {
    ghost rule = { CLASS_GONE };

    ghost alone = { record { not_4 = refl; not_5 = refl; not_6 = refl; not_7 = refl; not_8 = refl; not_9 = refl } };

    fn on_class(
        &self,
        _alloc: Global,
        sides: &Sides<'_>,
        id: ClassId,
    ) -> Result<Option<BrokenAct<'_>>, AllocError> {
        let was_usable = is_usable(sides.old, id);
        let Some(error) = unusable(sides, id) else {
            return Ok(None);
        };
        Ok(broken_where(was_usable, Act::ClassRef, error))
    }
}
