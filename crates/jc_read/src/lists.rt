//! The lists of a record.
ghost use Rattle.std.specs.Prelude.{◌≡◌, OnOk, IfOk, ◌++◌, Some};
ghost use Rattle.jc_facts.specs.Flags.{static_flag};
ghost use Rattle.jc_facts.specs.Names.{key_of};
ghost use Rattle.jc_facts.specs.file.ClassParts.{fixed_of, signed_of, members_of, constants_of, signatures_of};
ghost use Rattle.jc_read.specs.steps.MemberViews.{members_view};

use crate::member_list::ReadMember;
use crate::on_member::OnMember;
use jc_base::name::Name;
use jc_facts::class_facts::{Constant, Fixed, Member, Signed};
use jc_facts::flags::is_static;
use jc_facts::key::Key;
use std::alloc::{AllocError, Global};

fn key(alloc: Global, member: &Member) -> Result<Key, AllocError>
    ensures { IfOk result (λ k. k ≡ key_of member.now) }
{
    Ok(Key {
        name: member.name.copy(alloc)?,
        descriptor: member.descriptor.copy(alloc)?,
    })
}

fn add_constant(
    alloc: Global,
    constants: &mut Vec<Fixed>,
    member: &Member,
    constant: Option<Constant>,
) -> Result<(), AllocError>
    ensures { OnOk result (constants.new.items ≡ constants.old.items ++ fixed_of (key_of member.now) (static_flag member.now.flags) constant) }
{
    match constant {
        None => Ok(()),
        Some(value) => {
            if is_static(member.flags) {
                constants.push(Fixed {
                    key: key(alloc, member)?,
                    value,
                })?;
            }
            Ok(())
        }
    }
}

fn add_signature(
    alloc: Global,
    signatures: &mut Vec<Signed>,
    member: &Member,
    signature: Option<Name>,
) -> Result<(), AllocError>
    ensures { OnOk result (signatures.new.items ≡ signatures.old.items ++ signed_of (Some (key_of member.now)) signature) }
{
    match signature {
        None => Ok(()),
        Some(text) => {
            signatures.push(Signed {
                key: Some(key(alloc, member)?),
                text,
            })?;
            Ok(())
        }
    }
}

/// The members, whose constants and signatures are added to the lists.
pub(crate) fn split(
    alloc: Global,
    reads: Vec<ReadMember>,
    constants: &mut Vec<Fixed>,
    signatures: &mut Vec<Signed>,
) -> Result<Vec<Member>, AllocError>
    ensures members { IfOk result (λ ms. ms.items ≡ members_of (members_view reads.items)) }
    ensures constants { OnOk result (constants.new.items ≡ constants.old.items ++ constants_of (members_view reads.items)) }
    ensures signatures { OnOk result (signatures.new.items ≡ signatures.old.items ++ signatures_of (members_view reads.items)) }
{
    let mut members = Vec::with_capacity(alloc, reads.len())?;
    for read in reads {
        let ReadMember { member, found } = read;
        let OnMember {
            constant,
            signature,
        } = found;
        add_constant(alloc, constants, &member, constant)?;
        add_signature(alloc, signatures, &member, signature)?;
        members.push(member)?;
    }
    Ok(members)
}
