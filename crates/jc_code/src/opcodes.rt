//! The opcodes of instructions that are told apart by name (JVMS 6.5).

pub(crate) const LDC: u8 = 18;

pub(crate) const LDC_W: u8 = 19;

pub(crate) const LDC2_W: u8 = 20;

pub(crate) const POP: u8 = 87;

pub(crate) const POP2: u8 = 88;

pub(crate) const DUP: u8 = 89;

pub(crate) const TABLESWITCH: u8 = 170;

pub(crate) const LOOKUPSWITCH: u8 = 171;

pub(crate) const IRETURN: u8 = 172;

pub(crate) const RETURN: u8 = 177;

pub(crate) const GETSTATIC: u8 = 178;

pub(crate) const PUTSTATIC: u8 = 179;

pub(crate) const GETFIELD: u8 = 180;

pub(crate) const PUTFIELD: u8 = 181;

pub(crate) const INVOKEVIRTUAL: u8 = 182;

pub(crate) const INVOKESPECIAL: u8 = 183;

pub(crate) const INVOKESTATIC: u8 = 184;

pub(crate) const INVOKEINTERFACE: u8 = 185;

pub(crate) const INVOKEDYNAMIC: u8 = 186;

pub(crate) const NEW: u8 = 187;

pub(crate) const ANEWARRAY: u8 = 189;

pub(crate) const CHECKCAST: u8 = 192;

pub(crate) const INSTANCEOF: u8 = 193;

pub(crate) const WIDE: u8 = 196;

pub(crate) const MULTIANEWARRAY: u8 = 197;
