//! Classes that both sides have.
ghost use Rattle.std.specs.Prelude.{◌≡◌, Some};
ghost use Rattle.jc_facts.specs.world.World.{find_class};
ghost use Rattle.jc_sides.specs.SharedOf.{IsShared, name_of};

use crate::sides::Sides;
use jc_base::name::Name;
use jc_facts::class_facts::ClassFacts;
use jc_index::ids::ClassId;
use std::marker::Model;

/// A class that both sides have: its name, and its number on the old side and on the new.
#[derive(Drop)]
pub struct Shared<'a> {
    pub name: &'a Name,
    pub old: ClassId,
    pub new: ClassId,
}

impl<'a> Model for Shared<'a> {
    ghost use Rattle.jc_sides.specs.SharedOf.{SharedOf};

    ghost Value = { SharedOf };

    ghost use Rattle.jc_sides.specs.SharedFields.{shared_of};

    ghost view = { shared_of };
}

/// The record of the class on the old side.
pub fn before<'a>(sides: &Sides<'a>, class: &Shared<'_>) -> &'a ClassFacts
    requires { IsShared sides.now «class».now }
    ensures { Some result.now ≡ find_class sides.now.old (name_of «class».now) }
{
    sides.old.facts(class.old)
}

/// The record of the class on the new side.
pub fn after<'a>(sides: &Sides<'a>, class: &Shared<'_>) -> &'a ClassFacts
    requires { IsShared sides.now «class».now }
    ensures { Some result.now ≡ find_class sides.now.new (name_of «class».now) }
{
    sides.new.facts(class.new)
}
