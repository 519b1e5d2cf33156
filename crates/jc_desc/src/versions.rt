//! The major versions of class files that rules name (JVMS 4.1, table 4.1-A).

/// The first that is read, that of Java 1.0.2 and 1.1.
pub const OLDEST_MAJOR: u16 = 45;

/// The first with the attribute Signature, that of Java 5 (JVMS 4.7.9).
pub const SIGNATURE_MAJOR: u16 = 49;

/// The first in which an interface has to be abstract, that of Java 6 (JVMS 4.1).
pub const ABSTRACT_INTERFACE_MAJOR: u16 = 50;

/// The first with the attribute BootstrapMethods, that of Java 7 (JVMS 4.7.23).
pub const BOOTSTRAP_MAJOR: u16 = 51;

/// The first in which methods of an interface may be private or have code, that of Java 8 (JVMS 4.6).
pub const INTERFACE_CODE_MAJOR: u16 = 52;

/// The first with the attributes NestHost and NestMembers, that of Java 11 (JVMS 4.7.28, 4.7.29).
pub const NEST_MAJOR: u16 = 55;

/// The first in which the minor is 0, or 65535 for a class that depends on preview features, that of
/// Java 12 (JVMS 4.1).
pub const STRICT_MINOR_MAJOR: u16 = 56;

/// The first with the attribute PermittedSubclasses, that of Java 17 (JVMS 4.7.31).
pub const SEAL_MAJOR: u16 = 61;

/// The last that is read, that of Java 21.
pub const NEWEST_MAJOR: u16 = 65;
