//! Records of classes.
ghost use Rattle.std.specs.Prelude.{◌≡◌};

use crate::key::Key;
use jc_base::items::Items;
use jc_base::name::Name;
use jc_base::names::Names;

/// A field or a method (JVMS 4.5, 4.6).
#[derive(PartialEq, Eq, Debug, Drop)]
pub struct Member {
    pub name: Name,
    pub descriptor: Name,
    pub flags: u16,
}

/// The value of a constant field (JVMS 4.7.2). Floating-point values are kept as their bits.
#[derive(PartialEq, Eq, Debug, Drop)]
pub enum Constant {
    Int(u32),
    Float(u32),
    Long(u64),
    Double(u64),
    Text(Name),
}

/// A static field of a constant value.
#[derive(PartialEq, Eq, Debug, Drop)]
pub struct Fixed {
    pub key: Key,
    pub value: Constant,
}

/// The generic signature of a field, a method or, where there is no key, of the class itself
/// (JVMS 4.7.9).
#[derive(PartialEq, Eq, Debug, Drop)]
pub struct Signed {
    pub key: Option<Key>,
    pub text: Name,
}

/// What the tool knows of a class or an interface (JVMS 4.1). Each list is in file order.
#[derive(PartialEq, Eq, Debug)]
pub struct ClassFacts {
    pub name: Name,
    pub major: u16,
    pub flags: u16,
    pub superclass: Option<Name>,
    pub interfaces: Names,
    pub fields: Items<Member>,
    pub methods: Items<Member>,
    /// The names that PermittedSubclasses gives, where the class has the attribute.
    pub permits: Option<Items<Name>>,
    pub nest_host: Option<Name>,
    pub nest_members: Items<Name>,
    pub constants: Items<Fixed>,
    pub signatures: Items<Signed>,
}

// One call at each exit of a function that owns it, where a derived drop is written out.
impl Drop for ClassFacts {
    fn drop(self) {
        let ClassFacts {
            name: _,
            major: _,
            flags: _,
            superclass: _,
            interfaces: _,
            fields: _,
            methods: _,
            permits: _,
            nest_host: _,
            nest_members: _,
            constants: _,
            signatures: _,
        } = self;
    }
}

impl ClassFacts {
    /// Its name. The rest of it is dropped.
    pub fn into_name(self) -> Name
        ensures { result ≡ self.name }
    {
        let ClassFacts {
            name,
            major: _,
            flags: _,
            superclass: _,
            interfaces: _,
            fields: _,
            methods: _,
            permits: _,
            nest_host: _,
            nest_members: _,
            constants: _,
            signatures: _,
        } = self;
        name
    }
}
