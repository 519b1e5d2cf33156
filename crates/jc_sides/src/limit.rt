//! How many findings and collisions there may be.
ghost use Rattle.std.specs.Prelude.{◌≡◌, false};
ghost use Rattle.jc_sides.specs.Limit.{over, beside};

/// Whether so many are more than the limit allows. None is no limit.
pub fn is_over(count: usize, most: Option<usize>) -> bool
    ensures { result ≡ over count most }
{
    match most {
        None => false,
        Some(most) => count > most,
    }
}

/// What the limit leaves beside so many.
pub fn left(most: Option<usize>, count: usize) -> Option<usize>
    requires { over count most ≡ false }
    ensures { result ≡ beside most count }
{
    match most {
        None => None,
        Some(most) => Some(most - count),
    }
}
