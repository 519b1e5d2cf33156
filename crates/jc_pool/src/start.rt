//! The magic and the version of a class file (JVMS 4.1).
ghost use Rattle.std.specs.Prelude.{◌≡◌};
ghost use Rattle.std.specs.Result.{result_map_both};
ghost use Rattle.jc_desc.specs.PoolSteps.{start_at};

use jc_desc::bytes::{u16_at, u32_at};
use jc_desc::fault::{Fault, Reason};
use jc_desc::pool_texts::is_version;

const MAGIC: u32 = 0xcafe_babe;

/// The major and the bytes behind it, or the first fault.
#[tactic(auto, unfolding(jc_desc::specs::PoolSteps::start_at))]
pub(crate) fn start(bytes: &[u8]) -> Result<(u16, &[u8]), Fault>
    ensures { result_map_both (λ x. (x.0, x.1.now)) (λ e. e) result ≡ start_at bytes.now }
{
    let (magic, after_magic) = u32_at(bytes)?;
    if magic != MAGIC {
        return Err(Fault {
            left: bytes.len(),
            reason: Reason::BadMagic,
        });
    }
    let (minor, rest) = u16_at(after_magic)?;
    let (major, rest) = u16_at(rest)?;
    if !is_version(minor, major) {
        return Err(Fault {
            left: after_magic.len(),
            reason: Reason::BadVersion,
        });
    }
    Ok((major, rest))
}
