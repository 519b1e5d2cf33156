//! Lists of a class file that are passed over (JVMS 4.1, 4.7).
ghost use Rattle.std.specs.Prelude.{◌≡◌, Result};
ghost use Rattle.std.specs.Result.{result_map_both};
ghost use Rattle.jc_desc.specs.declared.fault.Fault.{Fault};
ghost use Rattle.jc_facts.specs.Names.{Bytes};
ghost use Rattle.jc_facts.specs.file.Attributes.{list_at, counted_at, behind};

use jc_desc::bytes::u16_at;
use jc_desc::fault::Fault;

/// An entry of such a list.
pub(crate) trait Passed {
    ghost Read: { Type 0 };

    // How it is read where it isn't passed over.
    ghost read: { Self → Bytes → Result (Read × Bytes) Fault };

    /// What comes behind it.
    fn behind<'b>(&self, bytes: &'b [u8]) -> Result<&'b [u8], Fault>
        ensures { result_map_both (λ x. x.now) (λ e. e) result ≡ behind (read self.now bytes.now) };
}

/// What comes behind that many entries.
#[tactic(auto, using(crate::proofs::Lists::behind_fault, crate::proofs::Lists::behind_done))]
pub(crate) fn behind_some<'b, P: Passed>(
    entry: &P,
    count: u16,
    bytes: &'b [u8],
) -> Result<&'b [u8], Fault>
    ensures { result_map_both (λ x. x.now) (λ e. e) result ≡ behind (list_at (P.read entry.now) count bytes.now) }
{
    let mut rest = bytes;
    for _ in 0..count {
        rest = match entry.behind(rest) {
            Ok(after) => after,
            Err(fault) => return Err(fault),
        };
    }
    Ok(rest)
}

/// What comes behind a count and that many entries.
#[tactic(auto, unfolding(jc_facts::specs::file::Attributes::counted_at))]
pub(crate) fn behind_counted<'b, P: Passed>(entry: &P, bytes: &'b [u8]) -> Result<&'b [u8], Fault>
    ensures { result_map_both (λ x. x.now) (λ e. e) result ≡ behind (counted_at (P.read entry.now) bytes.now) }
{
    match u16_at(bytes) {
        Err(fault) => Err(fault),
        Ok((count, rest)) => behind_some(entry, count, rest),
    }
}
