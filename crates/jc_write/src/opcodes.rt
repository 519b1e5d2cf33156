//! Opcodes of the instructions that are written (JVMS 6.5).

pub(crate) const ACONST_NULL: u8 = 1;

pub(crate) const ICONST_0: u8 = 3;

pub(crate) const LCONST_0: u8 = 9;

pub(crate) const FCONST_0: u8 = 11;

pub(crate) const DCONST_0: u8 = 14;

/// Behind it stand `lload`, `fload`, `dload` and `aload`.
pub(crate) const ILOAD: u8 = 21;

/// Behind it stand `iload_1` to `iload_3`, and the same four of `lload`, `fload`, `dload` and `aload`.
pub(crate) const ILOAD_0: u8 = 26;

pub(crate) const POP: u8 = 87;

pub(crate) const POP2: u8 = 88;

pub(crate) const DUP: u8 = 89;

/// Behind it stand `lreturn`, `freturn`, `dreturn` and `areturn`.
pub(crate) const IRETURN: u8 = 172;

pub(crate) const RETURN: u8 = 177;

pub(crate) const GETSTATIC: u8 = 178;

pub(crate) const PUTSTATIC: u8 = 179;

pub(crate) const GETFIELD: u8 = 180;

pub(crate) const PUTFIELD: u8 = 181;

pub(crate) const INVOKEVIRTUAL: u8 = 182;

pub(crate) const INVOKESPECIAL: u8 = 183;

pub(crate) const INVOKESTATIC: u8 = 184;

pub(crate) const INVOKEINTERFACE: u8 = 185;

pub(crate) const NEW: u8 = 187;

pub(crate) const CHECKCAST: u8 = 192;
