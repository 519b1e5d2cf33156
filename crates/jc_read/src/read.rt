//! A whole class file (JVMS 4.1).
ghost use Rattle.std.specs.Prelude.{◌≡◌, ◌≤◌, length, IfOk, MatchResult, OnOk, ◌++◌, None};
ghost use Rattle.std.specs.Option.{option_map};
ghost use Rattle.std.specs.Result.{result_map_both};
ghost use Rattle.jc_desc.specs.declared.limits.TheConstants.{MAX_CLASS_BYTES};
ghost use Rattle.jc_desc.specs.PoolSteps.{pool_at as pool_from};
ghost use Rattle.jc_facts.specs.file.Valid.{IsValidClass};
ghost use Rattle.jc_facts.specs.file.ClassParts.{record_from, or_empty, signed_of};
ghost use Rattle.jc_facts.specs.file.ClassGrammar.{Reads};
ghost use Rattle.jc_facts.specs.file.ClassSteps.{class_of, ended};
ghost use Rattle.jc_read.specs.Fails.{ReadFails};
ghost use Rattle.jc_attr.specs.Views.{head_view};
ghost use Rattle.jc_read.specs.steps.MemberViews.{members_view};
ghost use Rattle.jc_read.specs.steps.OnClassView.{on_class_view};

use crate::lists::split;
use crate::member_list::{ReadMember, members};
use crate::on_class::{OnClass, on_class};
use jc_attr::class_head::{ClassHead, head_at};
use jc_attr::classes::classes_at;
use jc_base::items::Items;
use jc_base::name::Name;
use jc_base::names::Names;
use jc_base::recent_names::RecentNames;
use jc_desc::bytes::malformed;
use jc_desc::fault::{Fault, Malformed, Reason};
use jc_facts::class_facts::{ClassFacts, Signed};
use jc_pool::pool::Pool;
use std::alloc::{AllocError, Global};
use thiserror::Error;

fn names(found: Option<Items<Name>>, alloc: Global) -> Items<Name>
    ensures { result ≡ or_empty found }
{
    match found {
        None => Items::from_vec(Vec::new(alloc)),
        Some(names) => names,
    }
}

fn superclass<'a>(
    alloc: Global,
    pool: &Pool<'a>,
    name: Option<&'a [u8]>,
) -> Result<Option<Name>, AllocError>
    ensures { IfOk result (λ r. r ≡ option_map (λ x. x.now) name.entry) }
{
    match name {
        None => Ok(None),
        Some(name) => Ok(Some(pool.name(alloc, name)?)),
    }
}

fn add_class(signatures: &mut Vec<Signed>, signature: Option<Name>) -> Result<(), AllocError>
    ensures { OnOk result (signatures.new.items ≡ signatures.old.items ++ signed_of None signature) }
{
    match signature {
        None => Ok(()),
        Some(text) => {
            signatures.push(Signed { key: None, text })?;
            Ok(())
        }
    }
}

fn record<'a>(
    alloc: Global,
    pool: &Pool<'a>,
    head: ClassHead<'a>,
    interfaces: Names,
    fields: Vec<ReadMember>,
    methods: Vec<ReadMember>,
    found: OnClass,
) -> Result<ClassFacts, AllocError>
    ensures { IfOk result (λ r. r ≡ record_from pool.now.major (head_view head.entry) interfaces (members_view fields.items) (members_view methods.items) (on_class_view found)) }
{
    let mut constants = Vec::new(alloc);
    let mut none = Vec::new(alloc);
    let mut signatures = Vec::new(alloc);
    let fields = split(alloc, fields, &mut constants, &mut signatures)?;
    let methods = split(alloc, methods, &mut none, &mut signatures)?;
    let OnClass {
        permits,
        nest_host,
        nest_members,
        signature,
    } = found;
    add_class(&mut signatures, signature)?;
    Ok(ClassFacts {
        name: pool.name(alloc, head.name)?,
        major: pool.major(),
        flags: head.flags,
        superclass: superclass(alloc, pool, head.superclass)?,
        interfaces,
        fields: Items::from_vec(fields),
        methods: Items::from_vec(methods),
        permits,
        nest_host,
        nest_members: names(nest_members, alloc),
        constants: Items::from_vec(constants),
        signatures: Items::from_vec(signatures),
    })
}

// The record, unless bytes come behind it.
fn whole(rest: &[u8], facts: ClassFacts) -> Result<ClassFacts, Fault>
    ensures { result ≡ ended rest.now facts }
{
    if rest.is_empty() {
        Ok(facts)
    } else {
        Err(Fault {
            left: rest.len(),
            reason: Reason::Trailing,
        })
    }
}

// The pool in front of the file. Its names share the bytes of those of the files before, where there
// are any.
fn pool_at<'a>(
    alloc: Global,
    recent: Option<&'a RecentNames>,
    bytes: &'a [u8],
) -> Result<Result<(Pool<'a>, &'a [u8]), Fault>, AllocError>
    ensures { IfOk result (λ r. result_map_both (λ x. (x.0, x.1.now)) (λ e. e) r ≡ pool_from bytes.now) }
{
    match recent {
        Some(names) => Pool::read_front_after(alloc, names, bytes),
        None => Pool::read_front(alloc, bytes),
    }
}

#[tactic(auto, unfolding(jc_facts::specs::file::ClassSteps::class_of))]
fn read<'a>(
    alloc: Global,
    recent: Option<&'a RecentNames>,
    bytes: &'a [u8],
) -> Result<Result<ClassFacts, Fault>, AllocError>
    ensures { IfOk result (λ r. r ≡ class_of bytes.now) }
{
    let (pool, rest) = match pool_at(alloc, recent, bytes)? {
        Ok(read) => read,
        Err(fault) => return Ok(Err(fault)),
    };
    let (head, rest) = match head_at(&pool, rest) {
        Ok(read) => read,
        Err(fault) => return Ok(Err(fault)),
    };
    let (interfaces, rest) = match classes_at(alloc, &pool, rest)? {
        Ok(read) => read,
        Err(fault) => return Ok(Err(fault)),
    };
    let (fields, rest) = match members(alloc, false, &pool, head.flags, rest)? {
        Ok(read) => read,
        Err(fault) => return Ok(Err(fault)),
    };
    let (methods, rest) = match members(alloc, true, &pool, head.flags, rest)? {
        Ok(read) => read,
        Err(fault) => return Ok(Err(fault)),
    };
    let (found, rest) = match on_class(alloc, &pool, rest)? {
        Ok(read) => read,
        Err(fault) => return Ok(Err(fault)),
    };
    let facts = record(alloc, &pool, head, interfaces, fields, methods, found)?;
    Ok(whole(rest, facts))
}

/// Why a class file isn't read.
#[derive(Clone, Copy, Debug, PartialEq, Eq, Error)]
pub enum ReadError {
    /// The first fault of the file.
    #[error("{:?} at {}", .0.reason, .0.offset)]
    Malformed(Malformed),
    /// Memory ran out.
    #[error("out of memory")]
    Memory,
}

// What `read_class` and `read_class_after` answer.
fn class_after<'a>(
    alloc: Global,
    recent: Option<&'a RecentNames>,
    bytes: &'a [u8],
) -> Result<ClassFacts, ReadError>
    requires { length bytes.now ≤ MAX_CLASS_BYTES }
    ensures exact { MatchResult result (λ facts. Reads bytes.now facts) (ReadFails bytes.now) }
    ensures valid { IfOk result (λ facts. IsValidClass facts) }
{
    match read(alloc, recent, bytes) {
        Ok(Ok(facts)) => Ok(facts),
        Ok(Err(fault)) => Err(ReadError::Malformed(malformed(bytes, fault))),
        Err(_) => Err(ReadError::Memory),
    }
}

/// The record of a class file, or its first fault. The bytes are at most 4,194,304.
///
/// # Errors
///
/// `Malformed` exactly where the bytes are no class file, with the first fault of the steps; where
/// memory runs out, `Memory`, about which nothing is said.
pub fn read_class(alloc: Global, bytes: &[u8]) -> Result<ClassFacts, ReadError>
    requires { length bytes.now ≤ MAX_CLASS_BYTES }
    ensures exact { MatchResult result (λ facts. Reads bytes.now facts) (ReadFails bytes.now) }
    ensures valid { IfOk result (λ facts. IsValidClass facts) }
{
    class_after(alloc, None, bytes)
}

/// The same, of one of the class files of a run: its long names share the bytes of those that were
/// made of the files before, where these are the same.
///
/// # Errors
///
/// As `read_class`.
pub fn read_class_after<'a>(
    alloc: Global,
    recent: &'a RecentNames,
    bytes: &'a [u8],
) -> Result<ClassFacts, ReadError>
    requires { length bytes.now ≤ MAX_CLASS_BYTES }
    ensures exact { MatchResult result (λ facts. Reads bytes.now facts) (ReadFails bytes.now) }
    ensures valid { IfOk result (λ facts. IsValidClass facts) }
{
    class_after(alloc, Some(recent), bytes)
}
