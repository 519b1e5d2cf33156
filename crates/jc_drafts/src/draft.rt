//! Class files of planned clients, part by part.
ghost use Rattle.std.specs.Prelude.{◌≡◌, ◌∷◌, [], IfOk, None};
ghost use Rattle.jc_facts.specs.Names.{object_name};
ghost use Rattle.jc_promises.specs.plan.Planned.{a_class, a_client, an_interface, takes_nothing};
ghost use Rattle.jc_promises.specs.plan.PlannedBodies.{blueprint, body_of, init_body, object_init};
ghost use Rattle.jc_drafts.specs.steps.Drafted.{with_field, with_interface, with_method};

use crate::bodies::initializer;
use crate::texts::{root_name, without_parameters};
use jc_base::items::Items;
use jc_base::name::Name;
use jc_base::names::Names;
use jc_facts::blueprint::{Blueprint, Body, Step};
use jc_facts::class_facts::{ClassFacts, Member};
use std::alloc::{AllocError, Global};
use std::marker::Model;

/// The flags of a public class.
pub const PUBLIC_CLASS: u16 = 0x0021;
/// The flags of a public abstract class.
pub const ABSTRACT_CLASS: u16 = 0x0421;

const INTERFACE: u16 = 0x0601;
/// The flags of a public member.
pub const PUBLIC: u16 = 0x0001;
/// The flags of a public static member.
pub const PUBLIC_STATIC: u16 = 0x0009;
/// The flags of a public abstract method.
pub const PUBLIC_ABSTRACT: u16 = 0x0401;

const MAJOR: u16 = 52;

/// A class file of major 52 that is being made. A contract sees it as the class file with the parts
/// that it has so far.
pub struct Draft {
    name: Name,
    flags: u16,
    superclass: Name,
    interfaces: Vec<Name>,
    fields: Vec<Member>,
    methods: Vec<Member>,
    bodies: Vec<Option<Body>>,
}

// One call at each exit of a function that owns it, where a derived drop is written out.
impl Drop for Draft {
    fn drop(self) {
        let Draft {
            name: _,
            flags: _,
            superclass: _,
            interfaces: _,
            fields: _,
            methods: _,
            bodies: _,
        } = self;
    }
}

impl Model for Draft {
    ghost use Rattle.jc_facts.specs.declared.blueprint.Blueprint.{Blueprint};
    ghost use Rattle.jc_drafts.specs.steps.DraftView.{drafted};

    ghost Value = { Blueprint };

    ghost view = { drafted };
}

/// A body with these instructions.
pub fn body(steps: Vec<Step>) -> Option<Body>
    ensures { result ≡ body_of steps.items }
{
    Some(Body {
        steps: Items::from_vec(steps),
    })
}

impl Draft {
    fn empty(alloc: Global, name: Name, flags: u16, superclass: Name) -> Draft
        ensures { result ≡ blueprint (a_client name flags superclass [] [] [] []) [] }
    {
        Draft {
            name,
            flags,
            superclass,
            interfaces: Vec::new(alloc),
            fields: Vec::new(alloc),
            methods: Vec::new(alloc),
            bodies: Vec::new(alloc),
        }
    }

    /// A class with an initializer that calls this one of its superclass.
    ///
    /// # Errors
    ///
    /// `AllocError` where memory runs out.
    pub fn class(
        alloc: Global,
        name: Name,
        flags: u16,
        superclass: Name,
        constructor: &[u8],
    ) -> Result<Draft, AllocError>
        ensures { IfOk result (λ draft. draft ≡ blueprint (a_class name flags superclass constructor.now [] [] [] []) (init_body superclass constructor.now ∷ [])) }
    {
        let init = Member {
            name: Name::from_bytes(alloc, b"<init>")?,
            descriptor: without_parameters(alloc)?,
            flags: PUBLIC,
        };
        let steps = initializer(alloc, &superclass, constructor)?;
        Draft::empty(alloc, name, flags, superclass).method(init, body(steps))
    }

    /// A public class below java/lang/Object.
    ///
    /// # Errors
    ///
    /// `AllocError` where memory runs out.
    pub fn plain(alloc: Global, name: Name) -> Result<Draft, AllocError>
        ensures { IfOk result (λ draft. draft ≡ blueprint (a_class name 0x0021 object_name takes_nothing [] [] [] []) (object_init ∷ [])) }
    {
        Draft::class(alloc, name, PUBLIC_CLASS, root_name(alloc)?, b"()V")
    }

    /// A public interface.
    ///
    /// # Errors
    ///
    /// `AllocError` where memory runs out.
    pub fn interface(alloc: Global, name: Name) -> Result<Draft, AllocError>
        ensures { IfOk result (λ draft. draft ≡ blueprint (an_interface name [] []) []) }
    {
        Ok(Draft::empty(alloc, name, INTERFACE, root_name(alloc)?))
    }

    /// One more interface.
    ///
    /// # Errors
    ///
    /// `AllocError` where memory runs out.
    pub fn implements(mut self, interface: Name) -> Result<Draft, AllocError>
        ensures { IfOk result (λ draft. draft ≡ with_interface self interface) }
    {
        self.interfaces.push(interface)?;
        Ok(self)
    }

    /// One more field.
    ///
    /// # Errors
    ///
    /// `AllocError` where memory runs out.
    pub fn field(mut self, field: Member) -> Result<Draft, AllocError>
        ensures { IfOk result (λ draft. draft ≡ with_field self field) }
    {
        self.fields.push(field)?;
        Ok(self)
    }

    /// One more method, with a body or none.
    ///
    /// # Errors
    ///
    /// `AllocError` where memory runs out.
    pub fn method(mut self, method: Member, body: Option<Body>) -> Result<Draft, AllocError>
        ensures { IfOk result (λ draft. draft ≡ with_method self method body) }
    {
        self.methods.push(method)?;
        self.bodies.push(body)?;
        Ok(self)
    }

    /// The class file.
    pub fn finish(self, alloc: Global) -> Blueprint
        ensures { result ≡ self }
    {
        let Draft {
            name,
            flags,
            superclass,
            interfaces,
            fields,
            methods,
            bodies,
        } = self;
        Blueprint {
            facts: ClassFacts {
                name,
                major: MAJOR,
                flags,
                superclass: Some(superclass),
                interfaces: Names::from_vec(alloc, interfaces),
                fields: Items::from_vec(fields),
                methods: Items::from_vec(methods),
                permits: None,
                nest_host: None,
                nest_members: Items::from_vec(Vec::new(alloc)),
                constants: Items::from_vec(Vec::new(alloc)),
                signatures: Items::from_vec(Vec::new(alloc)),
            },
            bodies: Items::from_vec(bodies),
        }
    }
}
