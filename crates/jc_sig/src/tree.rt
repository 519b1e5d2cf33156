//! Generic signatures as trees (JVMS 4.7.9.1).
//!
//! A value of these types needn't be of the grammar: its names may be no identifiers, a list that has to
//! hold something may be empty, and a type may be deeper than 200. `specs/Grammar` says which are; each
//! that is read is. Dropping one takes a call for each level.
use jc_base::name::Name;

/// A type (JavaTypeSignature).
#[cycle(tree)]
#[derive(Drop)]
pub enum TypeSig {
    /// A primitive type by its letter, one of `B C D F I J S Z`.
    Base(u8),
    /// A type variable by its name.
    Variable(Name),
    /// An array of this type.
    Array(Box<TypeSig>),
    /// A class or an interface.
    Class(ClassType),
}

/// A class or an interface with its arguments (ClassTypeSignature).
#[cycle(tree)]
#[derive(Drop)]
pub struct ClassType {
    /// The names that make up its package: `java`, `util`. None for the unnamed package.
    pub package: Vec<Name>,
    /// The class, and then classes each of which is a member of the one before. At least one.
    pub parts: Vec<Part>,
}

/// One class of a class type (SimpleClassTypeSignature).
#[cycle(tree)]
#[derive(Drop)]
pub struct Part {
    /// Its simple name.
    pub name: Name,
    /// What stands between `<` and `>`; empty where there are none.
    pub arguments: Vec<Argument>,
}

/// An argument of a class (TypeArgument). Its type isn't primitive.
#[cycle(tree)]
#[derive(Drop)]
pub enum Argument {
    /// `?`, written `*`.
    Any,
    /// A type.
    Exact(TypeSig),
    /// `? extends` a type, written `+`.
    Upper(TypeSig),
    /// `? super` a type, written `-`.
    Lower(TypeSig),
}

/// A type parameter of a class or a method (TypeParameter). No bound is primitive.
#[derive(Drop)]
pub struct Parameter {
    pub name: Name,
    /// The bound that may be a class, a variable or an array, where there is one.
    pub class_bound: Option<TypeSig>,
    /// The bounds that are interfaces, in the order of the text.
    pub bounds: Vec<TypeSig>,
}

/// The signature of a class or an interface (ClassSignature).
#[derive(Drop)]
pub struct ClassSig {
    /// Empty where the class has none.
    pub parameters: Vec<Parameter>,
    pub superclass: ClassType,
    /// The interfaces that the class names, in the order of the text.
    pub interfaces: Vec<ClassType>,
}

/// The signature of a method (MethodSignature).
#[derive(Drop)]
pub struct MethodSig {
    /// Empty where the method has none.
    pub parameters: Vec<Parameter>,
    /// The types of what it takes.
    pub arguments: Vec<TypeSig>,
    /// The type of what it gives; None is `void`.
    pub result: Option<TypeSig>,
    /// What it throws: class types and type variables.
    pub throws: Vec<TypeSig>,
}
