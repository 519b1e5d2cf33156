//! Linking clients with a release.
ghost use Rattle.std.specs.Prelude.{◌≡◌, IfOk, IfErr};
ghost use Rattle.jc_base.specs.States.{change};
ghost use Rattle.jc_commands.specs.Causes.{StopsCommand};
ghost use Rattle.jc_words.specs.Command.{LinkCommand};
ghost use Rattle.jc_commands.specs.Link.{AreOutcomesOf};
ghost use Rattle.jc_releases.specs.Releases.{modules_in, side_of};
ghost use Rattle.jc_facts.specs.client.Linked.{outcomes};
ghost use Rattle.jc_facts.specs.world.World.{side_in};
ghost use Rattle.jc_link.specs.Refusals.{RefusesLink, MayLink};
ghost use Rattle.jc_words.specs.CommandView.{link_of};
ghost use Rattle.jc_commands.specs.steps.Link.{StopsLinking, stop_by_refusal};
ghost use Rattle.jc_releases.specs.steps.Releases.{IsReleaseList};
ghost use Rattle.jc_trees.specs.ClassLists.{IsClassList, IsRecordList};
ghost use Rattle.jc_commands.specs.ReportValue.{IsReportOf};

use crate::report::Report;
use jc_base::trees::Trees;
use jc_facts::class_facts::ClassFacts;
use jc_facts::client::ClientClass;
use jc_facts::outcome::Outcome;
use jc_link::link::link_over;
use jc_link::modular::link_modular_over;
use jc_link::refusal::LinkRefusal;
use jc_loading::platform::Platform;
use jc_releases::command::trees_of_link;
use jc_releases::releases::{Release, ReleaseModules, packages_of, take_release};
use jc_releases::stop::Stop;
use jc_releases::unread::stop_of;
use jc_trees::read_trees::read_trees;
use jc_trees::tree::TreeName;
use jc_trees::tree_read::{take_clients, take_records};
use jc_words::link::Link;
use std::alloc::Global;

// Why the clients aren't linked.
fn unlinked(refusal: LinkRefusal) -> Stop
    ensures { result ≡ stop_by_refusal refusal }
{
    match refusal {
        LinkRefusal::BadRoot(part) => Stop::BadRoot(part),
        LinkRefusal::Overlap(class) => Stop::Overlap(TreeName::Release, class),
        LinkRefusal::ClientName { name, part } => Stop::ClientName(name, part),
        LinkRefusal::Memory => Stop::Memory,
    }
}

// The outcomes of the clients over the records of a release in these modules, or why they aren't linked.
fn linked_in(
    alloc: Global,
    platform: &Platform,
    records: Vec<ClassFacts>,
    modules: ReleaseModules,
    clients: Vec<ClientClass>,
) -> Result<Vec<Outcome>, LinkRefusal>
    requires platform { IsRecordList platform.now }
    requires records { IsRecordList records.items }
    requires clients { IsClassList clients.items }
    ensures value { IfOk result (λ list. list.items ≡ outcomes (side_in (modules_in modules) platform.now records.items) clients.items) }
    ensures linked { IfOk result (λ _. MayLink platform.now records.items clients.items) }
    ensures refused { IfErr result (RefusesLink platform.now records.items clients.items) }
{
    match modules {
        ReleaseModules::One => match link_over(alloc, platform, records, clients) {
            Ok(outcomes) => Ok(outcomes),
            Err(refusal) => Err(refusal),
        },
        ReleaseModules::Several(exports) => {
            let packages = packages_of(exports);
            match link_modular_over(alloc, platform, records, packages, clients) {
                Ok(outcomes) => Ok(outcomes),
                Err(refusal) => Err(refusal),
            }
        }
    }
}

// The outcomes of the clients, or why they aren't linked.
fn linked(
    alloc: Global,
    platform: Vec<ClassFacts>,
    release: Release,
    clients: Vec<ClientClass>,
) -> Result<Vec<Outcome>, Stop>
    requires platform { IsRecordList platform.items }
    requires release { IsReleaseList release }
    requires clients { IsClassList clients.items }
    ensures outcomes { IfOk result (λ list. AreOutcomesOf (side_of platform.items release) clients.items list.items) }
    ensures stopped { IfErr result (StopsLinking (side_of platform.items release) clients.items) }
{
    let Ok(shared) = Platform::new(alloc, platform) else {
        return Err(Stop::Memory);
    };
    let Release {
        name: _,
        records,
        modules,
    } = release;
    match linked_in(alloc, &shared, records.into_vec(), modules, clients) {
        Ok(outcomes) => Ok(outcomes),
        Err(refusal) => Err(unlinked(refusal)),
    }
}

/// What the linking of clients comes to, or why it has no report.
///
/// # Errors
///
/// `Stop::Unread` or `ReadFault` where a tree isn't read, `BadRoot` or `Overlap` where platform and release
/// don't make a side, `ClientName` where they don't allow a client of its name, and `Memory` where memory
/// runs out.
pub fn link_clients<'a, T: Trees>(
    alloc: Global,
    asked: &Link<'a>,
    trees: &mut T,
) -> Result<Report<'a>, Stop>
    ensures report { IfOk result (IsReportOf (LinkCommand (link_of asked.now)) (T.state trees.old)) }
    ensures stopped { IfErr result (StopsCommand (LinkCommand (link_of asked.now)) (change T.state trees.old trees.new)) }
    ensures content { (T.state trees.new).content ≡ (T.state trees.old).content }
{
    let wanted = trees_of_link(asked);
    let mut all = match read_trees(alloc, &wanted, trees) {
        Ok(all) => all,
        Err(error) => return Err(stop_of(error)),
    };
    let platform = take_records(&mut all);
    let release = take_release(&mut all, TreeName::Release, asked.modular);
    let clients = take_clients(&mut all);
    let outcomes = match linked(alloc, platform, release, clients) {
        Ok(outcomes) => outcomes,
        Err(stop) => return Err(stop),
    };
    match Report::of_outcomes(alloc, outcomes.as_slice()) {
        Ok(report) => Ok(report),
        Err(_) => Err(Stop::Memory),
    }
}
