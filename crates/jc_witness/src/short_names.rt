//! Whether names are short enough for class files and paths.
ghost use Rattle.std.specs.Prelude.{◌↔◌, IsTrue};
ghost use Rattle.std.specs.List.{All};
ghost use Rattle.jc_facts.specs.file.ShortNames.{HasShortNames, IsShortMember};

use jc_desc::limits::MAX_TEXT;
use jc_facts::class_facts::{ClassFacts, Member};
use jc_facts::limits::MAX_CLASS_NAME;

fn is_short_member(member: &Member) -> bool
    ensures { IsTrue result ↔ IsShortMember member.now }
{
    member.name.as_bytes().len() <= MAX_TEXT && member.descriptor.as_bytes().len() <= MAX_TEXT
}

fn are_short_members(members: &[Member]) -> bool
    ensures { IsTrue result ↔ All IsShortMember members.now }
{
    members.iter().all(|member| is_short_member(member))
}

fn has_short_names(class: &ClassFacts) -> bool
    ensures { IsTrue result ↔ HasShortNames class.now }
{
    class.name.as_bytes().len() <= MAX_CLASS_NAME
        && are_short_members(class.fields.as_slice())
        && are_short_members(class.methods.as_slice())
}

/// Whether each class's name has at most 4,090 bytes, and each name and descriptor of its members at
/// most 65,535, as a witness over these classes asks. Takes no memory.
pub fn have_short_names(classes: &[ClassFacts]) -> bool
    ensures { IsTrue result ↔ All HasShortNames classes.now }
{
    classes.iter().all(|class| has_short_names(class))
}
