//! A method of a class, with what its items depend on.
use crate::row::Row;
use jc_pool::pool::Pool;

/// A method, its class, and the constant pool and the bootstrap methods of the class (None where it has none
/// to be used).
#[derive(Clone, Copy)]
pub(crate) struct Around<'a, 'b> {
    pub pool: &'b Pool<'a>,
    pub class: &'a [u8],
    pub superclass: Option<&'a [u8]>,
    pub boots: Option<&'b [Row]>,
    pub name: &'a [u8],
    pub descriptor: &'a [u8],
    pub flags: u16,
}
