//! Keys of members, each with a class that its descriptor names.
ghost use Rattle.std.specs.Prelude.{◌==◌, ◌&&◌, IfOk};
ghost use Rattle.std.specs.List.{list_any};
ghost use Rattle.jc_facts.specs.Names.{key_of};
ghost use Rattle.jc_exposed.specs.Exposing.{every};
ghost use Rattle.jc_exposed.specs.Namings.{Gives};

use jc_facts::class_facts::Member;
use jc_facts::key::Key;
use jc_index::ids::ClassId;
use jc_index::members::key_of_member;
use std::alloc::{AllocError, Global};

/// A key whose descriptor names a class.
#[derive(Drop)]
pub struct Naming {
    pub key: Key,
    pub exposed: ClassId,
}

/// The member's key with each of the classes.
///
/// # Errors
///
/// `AllocError` where memory runs out.
pub fn namings_of(
    alloc: Global,
    member: &Member,
    ids: &[ClassId],
) -> Result<Vec<Naming>, AllocError>
    ensures { IfOk result (λ ns. Gives every (λ g t. list_any (λ id. (id == t) && g (key_of member.now)) ids.now) ns.items) }
{
    let mut namings = Vec::new(alloc);
    for id in ids {
        namings.push(Naming {
            key: key_of_member(alloc, member)?,
            exposed: *id,
        })?;
    }
    Ok(namings)
}
