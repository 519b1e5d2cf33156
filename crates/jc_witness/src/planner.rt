//! The names and constructors of planned clients.
ghost use Rattle.std.specs.Prelude.{◌≡◌, [], None, IfOk, IsTrue};
ghost use Rattle.std.specs.List.{cons_option};
ghost use Rattle.std.specs.Option.{option_copied};
ghost use Rattle.jc_facts.specs.world.Assignment.{is_interface_of};
ghost use Rattle.jc_facts.specs.world.Loading.{load_fault};
ghost use Rattle.jc_promises.specs.Pairs.{AreOfOneRun};
ghost use Rattle.jc_promises.specs.rule.Apart.{other_seat};
ghost use Rattle.jc_promises.specs.rule.Exposed.{is_hidden};
ghost use Rattle.jc_promises.specs.plan.Planned.{acts_exposing, is_out_of, receiver_for};
ghost use Rattle.jc_promises.specs.plan.PlannedNames.{in_package, fresh_package, own_name, closed_name, first_name, second_name, constructor};
ghost use Rattle.jc_witness.specs.Ground.{IsGround, CanRefer};

use crate::exposing::{exposing, is_out_of, seat_beside};
use crate::receiver::finds_public;
use jc_base::name::Name;
use jc_drafts::classes::is_interface;
use jc_drafts::constructor::constructor_of;
use jc_drafts::package::{fresh, name_in};
use jc_drafts::permitted::{missing_of, permitted_of};
use jc_drafts::two_names::{beside_of, other_of};
use jc_facts::act::Act;
use jc_facts::key::Key;
use jc_facts::member_act::MemberAct;
use jc_sides::sides::Sides;
use jc_table::table::Table;
use std::alloc::{AllocError, Global};
use std::marker::Model;

/// Plans the clients that show what a comparison of two releases found. It is made once for a
/// comparison. A contract sees it as the two worlds.
#[derive(Drop)]
pub struct Planner<'a> {
    sides: Sides<'a>,
    // The package of the clients.
    package: Name,
}

impl<'a> Model for Planner<'a> {
    ghost use Rattle.jc_sides.specs.SidesOf.{SidesOf};

    ghost Value = { SidesOf };

    ghost use Rattle.jc_witness.specs.PlannerFields.{sides_of, AreFields};

    ghost view = { sides_of };

    ghost invariant = { AreFields };
}

impl<'a> Planner<'a> {
    /// For the old and the new release of a library, of one run.
    ///
    /// # Errors
    ///
    /// `AllocError` where memory runs out.
    pub fn new(alloc: Global, old: &'a Table, new: &'a Table) -> Result<Planner<'a>, AllocError>
        requires { AreOfOneRun old.now new.now }
        ensures { IfOk result (λ planner. planner ≡ record { old = old.now; new = new.now }) }
    {
        // Counts say that few names are mentioned.
        let _old = old.mention_count();
        let _new = new.mention_count();
        let sides = Sides::new(alloc, old, new)?;
        let package = fresh(alloc, &sides)?;
        Ok(Planner { sides, package })
    }

    // The package of the clients: no name that one of the sides mentions is in it.
    pub(crate) fn package(&self) -> &Name
        ensures value { result.now ≡ fresh_package self.now.old self.now.new }
        ensures ground { IsGround self.now }
    {
        &self.package
    }

    // The class of this name in the package of the clients.
    pub(crate) fn in_package(&self, alloc: Global, simple: &[u8]) -> Result<Name, AllocError>
        ensures { IfOk result (λ name. name ≡ in_package (fresh_package self.now.old self.now.new) simple.now) }
    {
        name_in(alloc, &self.package, simple)
    }

    // The name of a client that names the class above itself: where the class has permitted names on
    // the old side, the first allowed one of these, and else this one of the package.
    pub(crate) fn own_name(
        &self,
        alloc: Global,
        simple: &[u8],
        above: &Name,
    ) -> Result<Name, AllocError>
        ensures { IfOk result (λ name. name ≡ own_name self.now.old self.now.new (in_package (fresh_package self.now.old self.now.new) simple.now) above.now) }
    {
        match permitted_of(alloc, &self.sides, above)? {
            Some(name) => name.copy(alloc),
            None => name_in(alloc, &self.package, simple),
        }
    }

    // The same where the class is closed to some clients on the new side: the first allowed name that
    // it permits no more, where there is one.
    pub(crate) fn closed_name(
        &self,
        alloc: Global,
        simple: &[u8],
        above: &Name,
    ) -> Result<Name, AllocError>
        ensures { IfOk result (λ name. name ≡ closed_name self.now.old self.now.new (in_package (fresh_package self.now.old self.now.new) simple.now) above.now) }
    {
        match missing_of(alloc, &self.sides, above)? {
            Some(name) => name.copy(alloc),
            None => self.own_name(alloc, simple, above),
        }
    }

    // The name of a client that extends the class, where a second one extends the other class: the first
    // allowed name that the class permits and beside which the other leaves a name, and else this one of
    // the package.
    pub(crate) fn first_name(
        &self,
        alloc: Global,
        simple: &[u8],
        above: &Name,
        other: &Name,
    ) -> Result<Name, AllocError>
        ensures { IfOk result (λ name. name ≡ first_name self.now.old self.now.new (in_package (fresh_package self.now.old self.now.new) simple.now) above.now other.now) }
    {
        match beside_of(alloc, &self.sides, above, other)? {
            Some(name) => name.copy(alloc),
            None => name_in(alloc, &self.package, simple),
        }
    }

    // The name of the second client, which extends the class: the first allowed name that the class
    // permits and the first client doesn't have, and else this one of the package.
    pub(crate) fn second_name(
        &self,
        alloc: Global,
        simple: &[u8],
        first: &Name,
        above: &Name,
    ) -> Result<Name, AllocError>
        ensures { IfOk result (λ name. name ≡ second_name self.now.old self.now.new (in_package (fresh_package self.now.old self.now.new) simple.now) first.now above.now) }
    {
        match other_of(alloc, &self.sides, above, first)? {
            Some(name) => name.copy(alloc),
            None => name_in(alloc, &self.package, simple),
        }
    }

    // The descriptor of the constructor of the class that a client below it calls.
    pub(crate) fn constructor(&self, above: &Name) -> &[u8]
        ensures { result.now ≡ constructor self.now.old above.now }
    {
        constructor_of(self.sides.old, above)
    }

    // Whether the class is an interface on the old side.
    pub(crate) fn is_interface(&self, class: &Name) -> bool
        ensures { result ≡ is_interface_of self.now.old «class».now }
    {
        is_interface(self.sides.old, class)
    }

    // The act that exposes the class to clients of the seat, where it is hidden on the old side.
    pub(crate) fn exposing(
        &self,
        alloc: Global,
        seat: &Name,
        class: &Name,
    ) -> Result<Option<MemberAct>, AllocError>
        requires { load_fault self.now.old seat.now ≡ None }
        ensures { IfOk result (λ act. cons_option act [] ≡ acts_exposing self.now.old seat.now «class».now) }
    {
        exposing(alloc, self.sides.old, seat, class)
    }

    // Whether the class is hidden on the old side, and not exposed to clients of the seat.
    pub(crate) fn is_out_of(
        &self,
        alloc: Global,
        seat: &Name,
        class: &Name,
    ) -> Result<bool, AllocError>
        requires { load_fault self.now.old seat.now ≡ None }
        ensures { IfOk result (λ out. out ≡ is_out_of self.now.old seat.now «class».now) }
    {
        is_out_of(alloc, self.sides.old, seat, class)
    }

    // The first other seat to which the class, which is hidden on the old side, is exposed, and that is
    // apart from this one.
    pub(crate) fn other_seat(
        &self,
        alloc: Global,
        seat: &Name,
        class: &Name,
    ) -> Result<Option<&'a Name>, AllocError>
        requires seat { load_fault self.now.old seat.now ≡ None }
        requires hidden { IsTrue (is_hidden self.now.old «class».now) }
        ensures { IfOk result (λ other. option_copied other ≡ other_seat self.now.old self.now.new seat.now «class».now) }
    {
        seat_beside(alloc, &self.sides, seat, class)
    }

    // The class of the receiver of an act on a member of the class, for a client of this name: the
    // class where the member is public, and else the client's own.
    pub(crate) fn receiver<'b>(
        &self,
        act: Act,
        class: &'b Name,
        key: &Key,
        own: &'b Name,
    ) -> &'b Name
        requires { CanRefer self.now.old act «class».now key.now }
        ensures { result.now ≡ receiver_for self.now.old act «class».now key.now own.now }
    {
        if finds_public(self.sides.old, act, class, key) {
            class
        } else {
            own
        }
    }
}
