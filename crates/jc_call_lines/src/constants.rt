//! Lines on classes of which a `switch` may list all values.
ghost use Rattle.std.specs.Prelude.{◌≡◌, ◌<◌, ◌&&◌, ◌||◌, not, IfOk, option_map};
ghost use Rattle.std.specs.List.{list_any};
ghost use Rattle.jc_call_lines.specs.steps.ConstantLines.{constant_names, constants_line};
ghost use Rattle.jc_call_lines.specs.steps.Kinds.{AreOfKind};
ghost use Rattle.jc_calls.specs.Constants.{constants_added, gets_constant, gets_objects, permits_more};
ghost use Rattle.jc_call_kinds.specs.declared.call_line.CallKind.TheVariants.{Constants};
ghost use Rattle.jc_facts.specs.Flags.{enum_flag};
ghost use Rattle.jc_facts.specs.Names.{is_name_among};
ghost use Rattle.jc_facts.specs.world.World.{size};
ghost use Rattle.jc_index.specs.Ids.{name_at};

use jc_base::items::Items;
use jc_base::name::Name;
use jc_call_kinds::call_line::{CallKind, CallLine};
use jc_facts::class_facts::{ClassFacts, Member};
use jc_facts::flags::{is_abstract, is_enum};
use jc_index::ids::ClassId;
use jc_index::name_set::NameSet;
use jc_sides::clients::is_steady;
use jc_sides::found::push_some;
use jc_sides::kept::kept;
use jc_sides::limit::is_over;
use jc_sides::shared::{after, before};
use jc_sides::sides::Sides;
use std::alloc::{AllocError, Global};

// ---- constants of enums

// The names of the constants that the class declares.
fn constant_names(alloc: Global, class: &ClassFacts) -> Result<Vec<Name>, AllocError>
    ensures { IfOk result (λ names. names.items ≡ constant_names class.now) }
{
    let mut names = Vec::new(alloc);
    for field in class.fields.as_slice() {
        if is_enum(field.flags) {
            names.push(field.name.copy(alloc)?)?;
        }
    }
    Ok(names)
}

// Whether the field is a constant whose name isn't in the set.
fn is_other_constant(field: &Member, constants: &NameSet) -> bool
    ensures { result ≡ (enum_flag field.now.flags && not (is_name_among constants.now field.now.name)) }
{
    is_enum(field.flags) && !constants.has(field.name.as_bytes())
}

// Whether one of the class's constants isn't in the set.
fn has_other_constant(class: &ClassFacts, constants: &NameSet) -> bool
    ensures { result ≡ list_any (λ m. enum_flag m.flags && not (is_name_among constants.now m.name)) class.now.fields }
{
    class
        .fields
        .as_slice()
        .iter()
        .any(|field| is_other_constant(field, constants))
}

// Whether the old class is an enum, and the new one has a constant beside its own.
fn gets_constant(alloc: Global, before: &ClassFacts, after: &ClassFacts) -> Result<bool, AllocError>
    ensures { IfOk result (λ gets. gets ≡ gets_constant before.now after.now) }
{
    if !is_enum(before.flags) {
        return Ok(false);
    }
    let names = constant_names(alloc, before)?;
    let constants = NameSet::new(names)?;
    Ok(has_other_constant(after, &constants))
}

// ---- permitted subclasses

// Whether the name isn't in the set.
fn is_unlisted(name: &Name, listed: &NameSet) -> bool
    ensures { result ≡ not (is_name_among listed.now name.now) }
{
    !listed.has(name.as_bytes())
}

// Whether one of the names isn't in the set.
fn has_unlisted(names: &[Name], listed: &NameSet) -> bool
    ensures { result ≡ list_any (λ x. not (is_name_among listed.now x)) names.now }
{
    names.iter().any(|name| is_unlisted(name, listed))
}

// Whether one of the new names isn't among the old ones.
fn has_more(alloc: Global, before: &[Name], after: &[Name]) -> Result<bool, AllocError>
    ensures { IfOk result (λ more. more ≡ list_any (λ x. not (is_name_among before.now x)) after.now) }
{
    let listed = NameSet::copied(alloc, before)?;
    Ok(has_unlisted(after, &listed))
}

// Whether the old permitted names were all, and aren't any more.
fn permits_more(
    alloc: Global,
    before: &Option<Items<Name>>,
    after: &Option<Items<Name>>,
) -> Result<bool, AllocError>
    ensures { IfOk result (λ more. more ≡ permits_more before.now after.now) }
{
    match (before, after) {
        (None, _) => Ok(false),
        (Some(_), None) => Ok(true),
        (Some(before), Some(after)) => has_more(alloc, before.as_slice(), after.as_slice()),
    }
}

// Whether the old class was sealed and abstract, and the new one isn't abstract.
fn gets_objects(before: &ClassFacts, after: &ClassFacts) -> bool
    ensures { result ≡ gets_objects before.now after.now }
{
    before.permits.is_some() && is_abstract(before.flags) && !is_abstract(after.flags)
}

// ---- a class

// Whether the new class has a value that no list of the old one's has.
fn gets_value(alloc: Global, before: &ClassFacts, after: &ClassFacts) -> Result<bool, AllocError>
    ensures { IfOk result (λ gets. gets ≡ (gets_constant before.now after.now || permits_more before.now.permits after.now.permits || gets_objects before.now after.now)) }
{
    let gets = gets_constant(alloc, before, after)?;
    if gets {
        return Ok(true);
    }
    let permits = permits_more(alloc, &before.permits, &after.permits)?;
    Ok(permits || gets_objects(before, after))
}

// Whether a line is due of the class of this number on the old side.
fn is_due(alloc: Global, sides: &Sides<'_>, id: ClassId) -> Result<bool, AllocError>
    requires { id < size sides.now.old }
    ensures { IfOk result (λ due. due ≡ constants_added sides.now.old sides.now.new (name_at sides.now.old id)) }
{
    let Some(class) = kept(sides, id) else {
        return Ok(false);
    };
    if !is_steady(sides, &class) {
        return Ok(false);
    }
    let due = gets_value(alloc, before(sides, &class), after(sides, &class))?;
    Ok(due)
}

// The line on the class of this number on the old side, if one is due.
fn line_on(alloc: Global, sides: &Sides<'_>, id: ClassId) -> Result<Option<CallLine>, AllocError>
    requires { id < size sides.now.old }
    ensures { IfOk result (λ line. line ≡ constants_line sides.now (name_at sides.now.old id)) }
{
    let due = is_due(alloc, sides, id)?;
    if !due {
        return Ok(None);
    }
    let name = &sides.old.facts(id).name;
    Ok(Some(CallLine {
        kind: CallKind::Constants,
        class: name.copy(alloc)?,
        key: None,
        target: None,
    }))
}

/// The lines on steady classes that have a value more, of which a `switch` of a client may list all: a
/// constant of an enum (JVMS 4.5), or a permitted subclass (JVMS 4.7.31). They are in byte order of the
/// classes' names; None where they are more than the limit allows. No more are made than one past it.
///
/// # Errors
///
/// `AllocError` where memory runs out.
pub(crate) fn constants(
    alloc: Global,
    sides: &Sides<'_>,
    most: Option<usize>,
) -> Result<Option<Vec<CallLine>>, AllocError>
    ensures { IfOk result (λ made. AreOfKind Constants sides.now.old sides.now.new most (option_map (λ ls. ls.items) made)) }
{
    let mut lines = Vec::new(alloc);
    for n in 0..sides.old.count() {
        let id = sides.old.id(n).unwrap();
        push_some(&mut lines, line_on(alloc, sides, id)?)?;
        if is_over(lines.len(), most) {
            return Ok(None);
        }
    }
    Ok(Some(lines))
}
