//! What stands below a sink.
ghost use Rattle.std.specs.Prelude.{◌≡◌, ◌||◌, Bool, true, false, not, is_some, refl};

use std::alloc::Allocator;
use std::io::{Stderr, Stdout, Write};

/// A writer that says whether it always tells what it holds, as a list in memory does. The standard
/// streams and files don't: their contracts know nothing of what stands outside.
pub trait Writer: Write {
    ghost tells: { Bool };

    ghost known: { (w : Self) → (not tells || is_some (Self.Write.contents w)) ≡ true };
}

impl Writer for Stdout {
    ghost tells = { false };

    ghost known = { λ w. refl };
}

impl Writer for Stderr {
    ghost tells = { false };

    ghost known = { λ w. refl };
}

impl<A: Allocator> Writer for Vec<u8, A> {
    ghost tells = { true };

    ghost known = { λ w. refl };
}
