//! The rule on classes that clients can't extend or implement any more.
ghost use Rattle.std.specs.Prelude.{◌≡◌, cond, refl};
ghost use Rattle.jc_facts.specs.declared.act.Act.TheVariants.{Extend, Implement};
ghost use Rattle.jc_facts.specs.declared.rule_numbers.TheConstants.{CLASS_CLOSED};
ghost use Rattle.jc_facts.specs.Flags.{interface_flag};

use jc_facts::act::Act;
use jc_facts::class_facts::ClassFacts;
use jc_facts::flags::is_interface;
use jc_facts::link_error::LinkError;
use jc_index::ids::ClassId;
use jc_sides::broken::{BrokenAct, broken_where};
use jc_sides::class_rule::ClassRule;
use jc_sides::clients::is_closed;
use jc_sides::kept::kept;
use jc_sides::shared::before;
use jc_sides::sides::Sides;
use std::alloc::{AllocError, Global};

// How clients name the class above themselves.
fn act_on(class: &ClassFacts) -> Act
    ensures { result ≡ cond (interface_flag «class».now.flags) Implement Extend }
{
    if is_interface(class.flags) {
        Act::Implement
    } else {
        Act::Extend
    }
}

/// Kept classes that clients could extend or implement and some can't any more, since they are
/// final, became interfaces or leave out names that they permitted (JVMS 4.7.31, 5.3.5).
pub struct ClassClosed;

impl ClassRule for ClassClosed {
    ghost rule = { CLASS_CLOSED };

    ghost alone = { record { not_4 = refl; not_5 = refl; not_6 = refl; not_7 = refl; not_8 = refl; not_9 = refl } };

    fn on_class(
        &self,
        alloc: Global,
        sides: &Sides<'_>,
        id: ClassId,
    ) -> Result<Option<BrokenAct<'_>>, AllocError> {
        // A class of the platform is the same on both sides, in one module.
        if sides.old.in_platform(id) {
            return Ok(None);
        }
        let Some(class) = kept(sides, id) else {
            return Ok(None);
        };
        let closed = is_closed(alloc, sides, &class)?;
        let act = act_on(before(sides, &class));
        let error = LinkError::IncompatibleClassChangeError;
        Ok(broken_where(closed, act, error))
    }
}
