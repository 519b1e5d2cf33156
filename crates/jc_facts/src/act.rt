//! What a client does with a class or a member.
ghost use Rattle.std.specs.Prelude.{◌≡◌, cond};
ghost use Rattle.jc_facts.specs.Flags.{static_flag, no_static_flag};
ghost use Rattle.jc_facts.specs.client.Acts.{form_of, is_act_on_static, is_put_act, is_special};
ghost use Rattle.jc_facts.specs.client.Forms.{form_view};

use crate::flags::is_static;

/// The form of a reference to a member (JVMS 4.4.2).
#[derive(Clone, Copy, PartialEq, Eq, Debug)]
pub enum Form {
    /// To a field.
    Field,
    /// To a method of a class.
    Method,
    /// To a method of an interface.
    Interface,
}

/// What a client does with a class or a member of a library.
#[derive(Clone, Copy, PartialEq, Eq, PartialOrd, Ord, Hash, Debug)]
pub enum Act {
    /// Names a class (JVMS 5.4.3.1).
    ClassRef,
    /// Names a class as its superclass.
    Extend,
    /// Names an interface as one of its interfaces.
    Implement,
    /// Uses a value of one type as one of another (JVMS 4.10.1.2).
    Assignment,
    /// Makes an object by `new` and a call of `<init>`.
    NewObject,
    /// Calls `<init>` of its superclass or its own from its own `<init>`.
    InitSuper,
    /// Declares a method that overrides one (JVMS 5.4.5).
    Override,
    GetStatic,
    PutStatic,
    GetField,
    PutField,
    InvokeVirtual,
    /// `invokestatic` on a Methodref.
    InvokeStatic,
    InvokeInterface,
    /// `invokestatic` on an InterfaceMethodref.
    InvokeStaticInterface,
    /// `invokespecial` on a Methodref.
    InvokeSpecial,
    /// `invokespecial` on an InterfaceMethodref.
    InvokeSpecialInterface,
    /// Inherits a method from an interface.
    Inherit,
}

impl Act {
    /// The form of the reference that the act names (JVMS 6.5). An act that names no member is said
    /// to name a method of a class.
    pub fn form(self) -> Form
        ensures { form_view result ≡ form_of self }
    {
        match self {
            Act::GetStatic | Act::PutStatic | Act::GetField | Act::PutField => Form::Field,
            Act::InvokeInterface | Act::InvokeStaticInterface | Act::InvokeSpecialInterface => {
                Form::Interface
            }
            _ => Form::Method,
        }
    }

    /// Whether the act asks for a static member: `getstatic`, `putstatic`, `invokestatic`.
    pub fn is_on_static(self) -> bool
        ensures { result ≡ is_act_on_static self }
    {
        match self {
            Act::GetStatic | Act::PutStatic | Act::InvokeStatic | Act::InvokeStaticInterface => {
                true
            }
            _ => false,
        }
    }

    /// Whether the act writes a field: `putstatic`, `putfield`.
    pub fn is_put(self) -> bool
        ensures { result ≡ is_put_act self }
    {
        match self {
            Act::PutStatic | Act::PutField => true,
            _ => false,
        }
    }

    /// Whether the act is `invokespecial`.
    pub fn is_invokespecial(self) -> bool
        ensures { result ≡ is_special self }
    {
        match self {
            Act::InvokeSpecial | Act::InvokeSpecialInterface => true,
            _ => false,
        }
    }

    /// Whether a member of these flags is of the other kind than the act asks for: of instances for a
    /// static act, static for any other (JVMS 6.5).
    pub fn is_other_kind(self, flags: u16) -> bool
        ensures { result ≡ cond (is_act_on_static self) (no_static_flag flags) (static_flag flags) }
    {
        if self.is_on_static() {
            !is_static(flags)
        } else {
            is_static(flags)
        }
    }
}
