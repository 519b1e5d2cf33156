//! Keys of fields and methods.
use jc_base::name::Name;

/// The name and the descriptor of a field or a method, which are unique in its class (JVMS 4.5,
/// 4.6). Keys are ordered by name, then by descriptor, each by its bytes.
#[derive(PartialEq, Eq, PartialOrd, Ord, Hash, Debug, Drop)]
pub struct Key {
    pub name: Name,
    pub descriptor: Name,
}
