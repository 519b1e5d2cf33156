//! The classes of which rows are made.
ghost use Rattle.std.specs.Prelude.{◌≡◌, ◌<◌, ◌||◌, length, map, IfOk, IfSome};
ghost use Rattle.std.specs.List.{All, list_any};
ghost use Rattle.jc_facts.specs.world.World.{size};
ghost use Rattle.jc_index.specs.Ids.{names};
ghost use Rattle.jc_index.specs.LoadOrder.{IsLoadOrder};
ghost use Rattle.jc_rows.specs.WithRows.{stands_on_release, has_rows};
ghost use Rattle.jc_rows.specs.steps.Marking.{AreUnmarked, numbers_above, marked_at, stands_by, with_mark, with_marks, marks_from};

use jc_index::ids::ClassId;
use jc_index::index::Index;
use std::alloc::{AllocError, Global};

// The root of the hierarchy (JVMS 4.1).
const OBJECT: &[u8] = b"java/lang/Object";

// ---- classes that stand on the release

// Whether there is a class, and it is marked.
fn is_marked(made: &[bool], class: Option<ClassId>) -> bool
    requires { IfSome class (λ id. id < length made.now) }
    ensures { result ≡ marked_at made.now class }
{
    match class {
        Some(id) => made[id.number() as usize],
        None => false,
    }
}

// Whether one of these is.
fn is_one_marked(made: &[bool], classes: &[Option<ClassId>]) -> bool
    requires { All (λ class. IfSome class (λ id. id < length made.now)) classes.now }
    ensures { result ≡ list_any (marked_at made.now) classes.now }
{
    for class in classes {
        if is_marked(made, *class) {
            return true;
        }
    }
    false
}

// Whether a class that the class names above itself is marked.
fn is_marked_above(index: &Index, made: &[bool], class: ClassId) -> bool
    requires class { class < size index.now }
    requires count { length made.now ≡ size index.now }
    ensures { result ≡ list_any (marked_at made.now) (numbers_above index.now class) }
{
    is_marked(made, index.superclass(class)) || is_one_marked(made, index.interfaces(class))
}

// Whether the class is of the release, or names a marked class above itself.
fn stands(index: &Index, made: &[bool], class: ClassId) -> bool
    requires class { class < size index.now }
    requires count { length made.now ≡ size index.now }
    ensures { result ≡ stands_by index.now made.now class }
{
    !index.in_platform(class) || is_marked_above(index, made, class)
}

// Marks the classes that stand on the release. What a class names above itself comes before it, so
// its mark is right by then.
fn mark_standing(index: &Index, made: &mut [bool], order: &[ClassId])
    requires order { IsLoadOrder index.now order.now }
    requires made { AreUnmarked index.now made.old }
    ensures { made.new ≡ map (stands_on_release index.now) (names index.now) }
{
    let _classes = index.count();
    for class in order {
        made[class.number() as usize] = stands(index, made, *class);
    }
}

// ---- what is above them

// Marks the class, where there is one.
fn mark(made: &mut [bool], class: Option<ClassId>)
    requires { IfSome class (λ id. id < length made.old) }
    ensures { made.new ≡ with_mark made.old class }
{
    match class {
        Some(id) => made[id.number() as usize] = true,
        None => {}
    }
}

// Marks these classes.
fn mark_all(made: &mut [bool], classes: &[Option<ClassId>])
    requires { All (λ class. IfSome class (λ id. id < length made.old)) classes.now }
    ensures { made.new ≡ with_marks made.old classes.now }
{
    for class in classes {
        mark(made, *class);
    }
}

// Marks what the class names above itself, where it is marked.
fn mark_from(index: &Index, made: &mut [bool], class: ClassId)
    requires class { class < size index.now }
    requires count { length made.old ≡ size index.now }
    ensures { made.new ≡ marks_from index.now made.old class }
{
    if made[class.number() as usize] {
        mark(made, index.superclass(class));
        mark_all(made, index.interfaces(class));
    }
}

// Marks java/lang/Object and all that is above the marked classes, which are those that stand on the
// release. Each class comes after all that name it, so its mark is set by then.
fn mark_upward(index: &Index, made: &mut [bool], order: &[ClassId])
    requires order { IsLoadOrder index.now order.now }
    requires made { made.old ≡ map (stands_on_release index.now) (names index.now) }
    ensures { made.new ≡ map (has_rows index.now) (names index.now) }
{
    let _classes = index.count();
    mark(made, index.get(OBJECT));
    for i in 0..order.len() {
        mark_from(index, made, order[order.len() - 1 - i]);
    }
}

// As many marks as there are classes, none of them set.
fn no_marks(alloc: Global, index: &Index) -> Result<Vec<bool>, AllocError>
    ensures { IfOk result (λ made. AreUnmarked index.now made.items) }
{
    let made = vec![in alloc; false; index.count() as usize]?;
    Ok(made)
}

/// For each class whether it has rows: `java/lang/Object`, the classes of the release that load, those
/// of the platform that stand on these, and all above them do. `order` gives the classes that load,
/// each after those that it names above itself.
pub(crate) fn classes_with_rows(
    alloc: Global,
    index: &Index,
    order: &[ClassId],
) -> Result<Vec<bool>, AllocError>
    requires { IsLoadOrder index.now order.now }
    ensures { IfOk result (λ made. made.items ≡ map (has_rows index.now) (names index.now)) }
{
    let mut made = no_marks(alloc, index)?;
    mark_standing(index, &mut made, order);
    mark_upward(index, &mut made, order);
    Ok(made)
}
