//! Records made from their parts.
ghost use Rattle.std.specs.Prelude.{◌≡◌, IfOk};
ghost use Rattle.jc_facts.specs.Generated.{member, plain_class};

use crate::class_facts::{ClassFacts, Member};
use jc_base::items::Items;
use jc_base::name::Name;
use jc_base::names::Names;
use std::alloc::{AllocError, Global};

/// The major version of plain classes.
const MAJOR: u16 = 52;

/// The flags `PUBLIC` and `SUPER` of a class.
const PUBLIC_CLASS: u16 = 0x0021;

impl Member {
    /// A member of this name, descriptor and flags.
    ///
    /// # Errors
    ///
    /// `AllocError` where memory runs out.
    pub fn new(
        alloc: Global,
        name: &[u8],
        descriptor: &[u8],
        flags: u16,
    ) -> Result<Member, AllocError>
        ensures { IfOk result (λ made. made ≡ member name.now descriptor.now flags) }
    {
        Ok(Member {
            name: Name::from_bytes(alloc, name)?,
            descriptor: Name::from_bytes(alloc, descriptor)?,
            flags,
        })
    }
}

impl ClassFacts {
    /// A public class of major 52 with these members, and nothing else. It takes no memory.
    pub fn plain(
        alloc: Global,
        name: Name,
        superclass: Option<Name>,
        fields: Vec<Member>,
        methods: Vec<Member>,
    ) -> ClassFacts
        ensures { result ≡ plain_class name superclass fields.items methods.items }
    {
        ClassFacts {
            name,
            major: MAJOR,
            flags: PUBLIC_CLASS,
            superclass,
            interfaces: Names::from_vec(alloc, Vec::new(alloc)),
            fields: Items::from_vec(fields),
            methods: Items::from_vec(methods),
            permits: None,
            nest_host: None,
            nest_members: Items::from_vec(Vec::new(alloc)),
            constants: Items::from_vec(Vec::new(alloc)),
            signatures: Items::from_vec(Vec::new(alloc)),
        }
    }
}
