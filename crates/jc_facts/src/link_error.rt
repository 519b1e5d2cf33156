//! The errors of linking.

/// The error that loading, resolution or verification throws (JVMS 5.3 to 5.4).
#[derive(Clone, Copy, PartialEq, Eq, PartialOrd, Ord, Hash, Debug)]
pub enum LinkError {
    NoClassDefFoundError,
    ClassCircularityError,
    IllegalAccessError,
    IncompatibleClassChangeError,
    NoSuchFieldError,
    NoSuchMethodError,
    InstantiationError,
    VerifyError,
}
