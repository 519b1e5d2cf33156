//! Generated releases: a library of any size whose new release breaks clients in known places.
ghost use Rattle.std.specs.Prelude.{◌≡◌, ◌≤◌, ◌<◌, ◌++◌, ◌∷◌, [], IfOk, OnOk, map};
ghost use Rattle.std.specs.List.{range_with_len};
ghost use Rattle.jc_facts.specs.Names.{object_name};
ghost use Rattle.jc_facts.specs.Generated.{digit, four_digits, superclass_number, member, numbered_class, public_init, field_f, old_class, new_flags, new_methods, new_class, object_class, made, AreReleases};

use crate::class_facts::{ClassFacts, Member};
use jc_base::items::Items;
use jc_base::name::Name;
use std::alloc::{AllocError, Global};

const OBJECT: &[u8] = b"java/lang/Object";

const NO_PARAMETERS: &[u8] = b"()V";

const PUBLIC: u16 = 0x0001;

const PRIVATE: u16 = 0x0002;

const PUBLIC_STATIC: u16 = 0x0009;

const PUBLIC_FINAL: u16 = 0x0011;

const PUBLIC_STATIC_FINAL: u16 = 0x0019;

/// A platform, and an old and a new release over it, each a list of class records.
#[derive(PartialEq, Eq, Debug, Drop)]
pub struct Made {
    pub platform: Items<ClassFacts>,
    pub old: Items<ClassFacts>,
    pub new: Items<ClassFacts>,
}

fn last_digit(number: u32) -> u8
    ensures { result ≡ digit number }
{
    b'0' + (number % 10) as u8
}

// Some bytes, and the last four decimal digits of a number.
#[tactic(auto, unfolding(crate::specs::Generated::four_digits))]
fn numbered(alloc: Global, front: &[u8], number: u32) -> Result<Name, AllocError>
    ensures { IfOk result (λ name. name ≡ front.now ++ four_digits number) }
{
    let mut name = Vec::from_slice(alloc, front)?;
    name.push(last_digit(number / 1000))?;
    name.push(last_digit(number / 100))?;
    name.push(last_digit(number / 10))?;
    name.push(last_digit(number))?;
    Name::from_bytes(alloc, name.as_slice())
}

// A member of a numbered name.
fn numbered_member(
    alloc: Global,
    front: &[u8],
    number: u32,
    descriptor: &[u8],
    flags: u16,
) -> Result<Member, AllocError>
    ensures { IfOk result (λ made. made ≡ member (front.now ++ four_digits number) descriptor.now flags) }
{
    let name = numbered(alloc, front, number)?;
    Member::new(alloc, name.as_bytes(), descriptor, flags)
}

fn initializer(alloc: Global) -> Result<Member, AllocError>
    ensures { IfOk result (λ made. made ≡ public_init) }
{
    Member::new(alloc, b"<init>", NO_PARAMETERS, PUBLIC)
}

// The classes are a binary tree.
fn superclass(alloc: Global, number: u32) -> Result<Name, AllocError>
    ensures { IfOk result (λ name. name ≡ superclass_number number) }
{
    if number == 0 {
        Name::from_bytes(alloc, OBJECT)
    } else {
        numbered(alloc, b"g/C", (number - 1) / 2)
    }
}

#[tactic(auto, unfolding(crate::specs::Generated::numbered_class))]
fn class_of(
    alloc: Global,
    number: u32,
    fields: Vec<Member>,
    methods: Vec<Member>,
) -> Result<ClassFacts, AllocError>
    ensures { IfOk result (λ made. made ≡ numbered_class number fields.items methods.items) }
{
    let name = numbered(alloc, b"g/C", number)?;
    let superclass = superclass(alloc, number)?;
    Ok(ClassFacts::plain(alloc, name, Some(superclass), fields, methods))
}

fn static_field(alloc: Global, number: u32, flags: u16) -> Result<Vec<Member>, AllocError>
    ensures { IfOk result (λ fields. fields.items ≡ field_f number flags ∷ []) }
{
    let mut fields = Vec::new(alloc);
    fields.push(numbered_member(alloc, b"f", number, b"I", flags)?)?;
    Ok(fields)
}

#[tactic(auto, unfolding(crate::specs::Generated::old_class))]
fn old_class(alloc: Global, number: u32) -> Result<ClassFacts, AllocError>
    ensures { IfOk result (λ class. class ≡ old_class number) }
{
    let fields = static_field(alloc, number, PUBLIC_STATIC)?;
    let mut methods = Vec::new(alloc);
    methods.push(initializer(alloc)?)?;
    methods.push(numbered_member(alloc, b"m", number, NO_PARAMETERS, PUBLIC)?)?;
    class_of(alloc, number, fields, methods)
}

// The methods that a class of the new release declares after its initializer.
fn push_new_methods(alloc: Global, methods: &mut Vec<Member>, number: u32) -> Result<(), AllocError>
    ensures { OnOk result (methods.new.items ≡ methods.old.items ++ new_methods number) }
{
    let method = |flags| numbered_member(alloc, b"m", number, NO_PARAMETERS, flags);
    match number % 8 {
        3 => {}
        5 => {
            methods.push(method(PUBLIC)?)?;
            methods.push(numbered_member(alloc, b"p", number, NO_PARAMETERS, PRIVATE)?)?;
        }
        7 => methods.push(method(PUBLIC_FINAL)?)?,
        _ => methods.push(method(PUBLIC)?)?,
    }
    Ok(())
}

fn new_field_flags(number: u32) -> u16
    ensures { result ≡ new_flags number }
{
    if number % 8 == 6 {
        PUBLIC_STATIC_FINAL
    } else {
        PUBLIC_STATIC
    }
}

#[tactic(auto, unfolding(crate::specs::Generated::new_class))]
fn new_class(alloc: Global, number: u32) -> Result<ClassFacts, AllocError>
    ensures { IfOk result (λ class. class ≡ new_class number) }
{
    let fields = static_field(alloc, number, new_field_flags(number))?;
    let mut methods = Vec::new(alloc);
    methods.push(initializer(alloc)?)?;
    push_new_methods(alloc, &mut methods, number)?;
    class_of(alloc, number, fields, methods)
}

fn platform(alloc: Global) -> Result<Vec<ClassFacts>, AllocError>
    ensures { IfOk result (λ classes. classes.items ≡ object_class ∷ []) }
{
    let name = Name::from_bytes(alloc, OBJECT)?;
    let mut methods = Vec::new(alloc);
    methods.push(initializer(alloc)?)?;
    let mut classes = Vec::new(alloc);
    classes.push(ClassFacts::plain(alloc, name, None, Vec::new(alloc), methods))?;
    Ok(classes)
}

fn old_release(alloc: Global, classes: u32) -> Result<Vec<ClassFacts>, AllocError>
    ensures { IfOk result (λ release. release.items ≡ map old_class (range_with_len 0 classes)) }
{
    let mut release = Vec::new(alloc);
    for number in 0..classes {
        release.push(old_class(alloc, number)?)?;
    }
    Ok(release)
}

fn new_release(alloc: Global, classes: u32) -> Result<Vec<ClassFacts>, AllocError>
    ensures { IfOk result (λ release. release.items ≡ map new_class (range_with_len 0 classes)) }
{
    let mut release = Vec::new(alloc);
    for number in 0..classes {
        release.push(new_class(alloc, number)?)?;
    }
    Ok(release)
}

/// A platform of `java/lang/Object` alone, and two releases of so many classes over it, from 1 to
/// 4,096.
///
/// The classes are a binary tree of public classes of major 52. In the old release the class
/// `g/C0027`, for one, extends `g/C0013` and declares `public static int f0027`, a public initializer
/// and `public void m0027()`. In the new release, of the classes whose number leaves this remainder by 8:
///
/// - 3: the method is gone.
/// - 5: there is a method more, `private void p0027()`.
/// - 6: the field is final.
/// - 7: the method is final.
///
/// Both releases are valid class records of names that differ, which the platform doesn't declare.
///
/// # Errors
///
/// `AllocError` where memory runs out.
#[tactic(auto, unfolding(crate::specs::Generated::made))]
pub fn generate(alloc: Global, classes: u32) -> Result<Made, AllocError>
    requires some { 1 ≤ classes }
    requires few { classes ≤ 4096 }
    ensures exact { IfOk result (λ releases. releases ≡ made classes) }
    ensures fit { IfOk result (AreReleases classes) }
{
    Ok(Made {
        platform: Items::from_vec(platform(alloc)?),
        old: Items::from_vec(old_release(alloc, classes)?),
        new: Items::from_vec(new_release(alloc, classes)?),
    })
}
