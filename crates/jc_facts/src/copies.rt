//! Copies of records.
ghost use Rattle.std.specs.Prelude.{◌≡◌, IfOk};

use crate::class_facts::{ClassFacts, Constant, Fixed, Member, Signed};
use crate::key::Key;
use jc_base::items::Items;
use jc_base::name::Name;
use std::alloc::{AllocError, Global};

fn copy_name(alloc: Global, name: &Option<Name>) -> Result<Option<Name>, AllocError>
    ensures { IfOk result (λ copy. copy ≡ name.now) }
{
    match name {
        None => Ok(None),
        Some(name) => Ok(Some(name.copy(alloc)?)),
    }
}

fn copy_names(alloc: Global, names: &Items<Name>) -> Result<Items<Name>, AllocError>
    ensures { IfOk result (λ copy. copy ≡ names.now) }
{
    let names = names.as_slice();
    let mut copies = Vec::with_capacity(alloc, names.len())?;
    for name in names {
        copies.push(name.copy(alloc)?)?;
    }
    Ok(Items::from_vec(copies))
}

fn copy_permits(
    alloc: Global,
    names: &Option<Items<Name>>,
) -> Result<Option<Items<Name>>, AllocError>
    ensures { IfOk result (λ copy. copy ≡ names.now) }
{
    match names {
        None => Ok(None),
        Some(names) => Ok(Some(copy_names(alloc, names)?)),
    }
}

fn copy_key(alloc: Global, key: &Option<Key>) -> Result<Option<Key>, AllocError>
    ensures { IfOk result (λ copy. copy ≡ key.now) }
{
    match key {
        None => Ok(None),
        Some(key) => Ok(Some(key.copy(alloc)?)),
    }
}

fn copy_members(alloc: Global, members: &Items<Member>) -> Result<Items<Member>, AllocError>
    ensures { IfOk result (λ copy. copy ≡ members.now) }
{
    let members = members.as_slice();
    let mut copies = Vec::with_capacity(alloc, members.len())?;
    for member in members {
        copies.push(member.copy(alloc)?)?;
    }
    Ok(Items::from_vec(copies))
}

fn copy_constants(alloc: Global, constants: &Items<Fixed>) -> Result<Items<Fixed>, AllocError>
    ensures { IfOk result (λ copy. copy ≡ constants.now) }
{
    let constants = constants.as_slice();
    let mut copies = Vec::with_capacity(alloc, constants.len())?;
    for constant in constants {
        copies.push(constant.copy(alloc)?)?;
    }
    Ok(Items::from_vec(copies))
}

fn copy_signatures(alloc: Global, signatures: &Items<Signed>) -> Result<Items<Signed>, AllocError>
    ensures { IfOk result (λ copy. copy ≡ signatures.now) }
{
    let signatures = signatures.as_slice();
    let mut copies = Vec::with_capacity(alloc, signatures.len())?;
    for signature in signatures {
        copies.push(signature.copy(alloc)?)?;
    }
    Ok(Items::from_vec(copies))
}

impl Key {
    /// A copy of the key.
    ///
    /// # Errors
    ///
    /// `AllocError` where memory runs out.
    pub fn copy(&self, alloc: Global) -> Result<Key, AllocError>
        ensures { IfOk result (λ copy. copy ≡ self.now) }
    {
        Ok(Key {
            name: self.name.copy(alloc)?,
            descriptor: self.descriptor.copy(alloc)?,
        })
    }
}

impl Member {
    /// A copy of the member.
    ///
    /// # Errors
    ///
    /// `AllocError` where memory runs out.
    pub fn copy(&self, alloc: Global) -> Result<Member, AllocError>
        ensures { IfOk result (λ copy. copy ≡ self.now) }
    {
        Ok(Member {
            name: self.name.copy(alloc)?,
            descriptor: self.descriptor.copy(alloc)?,
            flags: self.flags,
        })
    }
}

impl Constant {
    /// A copy of the value.
    ///
    /// # Errors
    ///
    /// `AllocError` where memory runs out.
    pub fn copy(&self, alloc: Global) -> Result<Constant, AllocError>
        ensures { IfOk result (λ copy. copy ≡ self.now) }
    {
        match self {
            Constant::Int(bits) => Ok(Constant::Int(*bits)),
            Constant::Float(bits) => Ok(Constant::Float(*bits)),
            Constant::Long(bits) => Ok(Constant::Long(*bits)),
            Constant::Double(bits) => Ok(Constant::Double(*bits)),
            Constant::Text(text) => Ok(Constant::Text(text.copy(alloc)?)),
        }
    }
}

impl Fixed {
    /// A copy of the field and its value.
    ///
    /// # Errors
    ///
    /// `AllocError` where memory runs out.
    pub fn copy(&self, alloc: Global) -> Result<Fixed, AllocError>
        ensures { IfOk result (λ copy. copy ≡ self.now) }
    {
        Ok(Fixed {
            key: self.key.copy(alloc)?,
            value: self.value.copy(alloc)?,
        })
    }
}

impl Signed {
    /// A copy of the signature.
    ///
    /// # Errors
    ///
    /// `AllocError` where memory runs out.
    pub fn copy(&self, alloc: Global) -> Result<Signed, AllocError>
        ensures { IfOk result (λ copy. copy ≡ self.now) }
    {
        Ok(Signed {
            key: copy_key(alloc, &self.key)?,
            text: self.text.copy(alloc)?,
        })
    }
}

impl ClassFacts {
    /// A copy of the record. It is no `Clone`, since copying may want memory.
    ///
    /// # Errors
    ///
    /// `AllocError` where memory runs out.
    pub fn copy(&self, alloc: Global) -> Result<ClassFacts, AllocError>
        ensures { IfOk result (λ copy. copy ≡ self.now) }
    {
        let name = self.name.copy(alloc)?;
        let superclass = copy_name(alloc, &self.superclass)?;
        let mut copy = ClassFacts::plain(alloc, name, superclass, Vec::new(alloc), Vec::new(alloc));
        copy.major = self.major;
        copy.flags = self.flags;
        copy.interfaces = self.interfaces.copy(alloc)?;
        copy.fields = copy_members(alloc, &self.fields)?;
        copy.methods = copy_members(alloc, &self.methods)?;
        copy.permits = copy_permits(alloc, &self.permits)?;
        copy.nest_host = copy_name(alloc, &self.nest_host)?;
        copy.nest_members = copy_names(alloc, &self.nest_members)?;
        copy.constants = copy_constants(alloc, &self.constants)?;
        copy.signatures = copy_signatures(alloc, &self.signatures)?;
        Ok(copy)
    }
}
