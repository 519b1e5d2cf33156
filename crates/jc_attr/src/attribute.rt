//! One attribute of a list of them.
ghost use Rattle.std.specs.Prelude.{◌≡◌};
ghost use Rattle.std.specs.Result.{result_map_both};
ghost use Rattle.jc_facts.specs.file.ClassSteps.{attribute_from};
ghost use Rattle.jc_attr.specs.Views.{attribute_view};

use jc_desc::bytes::{bytes_at, u16_at, u32_at};
use jc_desc::fault::{Fault, Reason};
use jc_pool::pool::Pool;

/// An attribute: its name, and its contents, both parts of the file (JVMS 4.7).
#[derive(Clone, Copy, Debug)]
pub struct Attribute<'a, 'b> {
    pub name: &'a [u8],
    pub body: &'b [u8],
}

/// The attribute in front of the bytes, and what comes behind it.
///
/// # Errors
///
/// `Short` where bytes are missing, and before that `BadIndex` at the first byte where the first six
/// are there and the name's index holds no Utf8.
#[tactic(auto, unfolding(jc_facts::specs::file::ClassSteps::attribute_from))]
pub fn attribute_at<'a, 'b>(
    pool: &Pool<'a>,
    bytes: &'b [u8],
) -> Result<(Attribute<'a, 'b>, &'b [u8]), Fault>
    ensures { result_map_both (λ x. (attribute_view x.0, x.1.now)) (λ e. e) result ≡ attribute_from pool.now bytes.now }
{
    let (index, rest) = u16_at(bytes)?;
    let (len, rest) = u32_at(rest)?;
    let Some(name) = pool.utf8(index) else {
        return Err(Fault {
            left: bytes.len(),
            reason: Reason::BadIndex,
        });
    };
    let (body, rest) = bytes_at(len as usize, rest)?;
    Ok((Attribute { name, body }, rest))
}
