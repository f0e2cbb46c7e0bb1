//! The subobjects of a class that have a name (10.2). Each class has its first way, its second and its first one to
//! another class than that; all its ways are never listed.

ghost use Rattle.std.specs.Prelude.{◌≡◌, ◌<◌, ◌≤◌, ◌++◌, ◌∷◌, [], List, ℕ, length, option_map, if◌then◌else◌, IfOk, OnOk, IfSome, Option, None};
ghost use Rattle.cxx_meaning.specs.Lookups.Member.{same_class as is_same_class, through as through_base};
ghost use Rattle.cxx_members.specs.Ways.{Grows, IsWayKnown, AreKnown, latest, three_at, way_at, joined, through_all, or_else as first_of_two, other_after as first_other};

use cxx_model::{ClassId, NumberList};
use std::alloc::{AllocError, Global};

/// A subobject: the number of its path among some paths, and its class.
#[derive(Clone, Copy)]
pub(crate) struct Way {
    pub path: usize,
    pub holder: ClassId,
}

/// Of the ways of a class the first, the second, and the first to another class than the first.
#[derive(Clone, Copy)]
pub(crate) struct Three {
    pub first: Option<Way>,
    pub second: Option<Way>,
    pub other: Option<Way>,
}

/// The ways of a class so far; a later record of the class stands for an earlier one.
#[derive(Clone, Copy)]
pub(crate) struct Record {
    pub class: ClassId,
    pub ways: Three,
}

fn or_else(one: Option<Way>, two: Option<Way>) -> Option<Way>
    ensures { result ≡ first_of_two one two }
{
    match one {
        Some(way) => Some(way),
        None => two,
    }
}

/// The latest record of a class.
pub(crate) fn latest_of(records: &[Record], class: ClassId) -> Option<Three>
    ensures { result ≡ latest class None records.now }
{
    let mut found = None;
    for one in records {
        found = later(found, *one, class);
    }
    found
}

fn later(found: Option<Three>, one: Record, class: ClassId) -> Option<Three>
    ensures { result ≡ (if is_same_class one.class class then Some one.ways else found) }
{
    if one.class.0 == class.0 {
        Some(one.ways)
    } else {
        found
    }
}

// A path with the position of a base in front.
fn lengthened(alloc: Global, index: u32, path: &[u32]) -> Result<NumberList, AllocError>
    ensures { IfOk result (λ longer. longer ≡ index ∷ path.now) }
{
    let mut longer = Vec::new(alloc);
    longer.push(index)?;
    longer.extend_from_slice(path)?;
    Ok(NumberList::from_vec(longer))
}

// Adds a path, and answers its number.
fn add_path(paths: &mut Vec<NumberList>, path: NumberList) -> Result<usize, AllocError>
    ensures number { IfOk result (λ number. number ≡ length paths.old.items) }
    ensures added { OnOk result (paths.new.items ≡ paths.old.items ++ path ∷ []) }
{
    let number = paths.len();
    paths.push(path)?;
    Ok(number)
}

// A way through a base.
#[tactic(auto, using(crate::proofs::Joining::through_is, crate::proofs::Joining::grows_one, crate::proofs::Joining::grows_none))]
fn way_through(
    alloc: Global,
    paths: &mut Vec<NumberList>,
    index: u32,
    way: Way,
) -> Result<Way, AllocError>
    requires { IsWayKnown (length paths.old.items) way }
    ensures is { IfOk result (λ longer. way_at paths.new.items longer ≡ through_base index (way_at paths.old.items way)) }
    ensures known { IfOk result (λ longer. IsWayKnown (length paths.new.items) longer) }
    ensures grows { OnOk result (Grows paths.old.items paths.new.items) }
{
    let path = lengthened(alloc, index, paths[way.path].as_slice())?;
    let number = add_path(paths, path)?;
    Ok(Way {
        path: number,
        holder: way.holder,
    })
}

// A way through a base, where there is one.
#[tactic(auto, using(crate::proofs::Joining::grows_none))]
fn through(
    alloc: Global,
    paths: &mut Vec<NumberList>,
    index: u32,
    way: Option<Way>,
) -> Result<Option<Way>, AllocError>
    requires { IfSome way (IsWayKnown (length paths.old.items)) }
    ensures is { IfOk result (λ longer. option_map (way_at paths.new.items) longer ≡ option_map (through_base index) (option_map (way_at paths.old.items) way)) }
    ensures known { IfOk result (λ longer. IfSome longer (IsWayKnown (length paths.new.items))) }
    ensures grows { OnOk result (Grows paths.old.items paths.new.items) }
{
    match way {
        None => Ok(None),
        Some(way) => Ok(Some(way_through(alloc, paths, index, way)?)),
    }
}

fn known_or(one: Option<Way>, two: Option<Way>) -> Option<Way>
    ensures is { (paths : List (List ℕ)) → option_map (way_at paths) result ≡ first_of_two (option_map (way_at paths) one) (option_map (way_at paths) two) }
    ensures known { (count : ℕ) → IfSome one (IsWayKnown count) → IfSome two (IsWayKnown count) → IfSome result (IsWayKnown count) }
{
    match one {
        Some(way) => Some(way),
        None => two,
    }
}

// The first way to another class than that of one, among ways of which three are known.
fn other_after(one: Way, three: Three) -> Option<Way>
    ensures is { (paths : List (List ℕ)) → option_map (way_at paths) result ≡ first_other (way_at paths one) (three_at paths three) }
    ensures known { (count : ℕ) → AreKnown count three → IfSome result (IsWayKnown count) }
{
    match three.first {
        None => None,
        Some(two) => {
            if one.holder.0 == two.holder.0 {
                three.other
            } else {
                Some(two)
            }
        }
    }
}

fn second_of(one: Three, two: Three) -> Option<Way>
    ensures is { (paths : List (List ℕ)) → option_map (way_at paths) result ≡ (joined (three_at paths one) (three_at paths two)).second }
    ensures known { (count : ℕ) → AreKnown count one → AreKnown count two → IfSome result (IsWayKnown count) }
{
    match one.first {
        None => two.second,
        Some(_way) => known_or(one.second, two.first),
    }
}

fn other_of(one: Three, two: Three) -> Option<Way>
    ensures is { (paths : List (List ℕ)) → option_map (way_at paths) result ≡ (joined (three_at paths one) (three_at paths two)).other }
    ensures known { (count : ℕ) → AreKnown count one → AreKnown count two → IfSome result (IsWayKnown count) }
{
    match one.first {
        None => two.other,
        Some(way) => known_or(one.other, other_after(way, two)),
    }
}

// Of some ways and more behind them.
pub(crate) fn join(one: Three, two: Three) -> Three
    ensures is { (paths : List (List ℕ)) → three_at paths result ≡ joined (three_at paths one) (three_at paths two) }
    ensures known { (count : ℕ) → AreKnown count one → AreKnown count two → AreKnown count result }
{
    Three {
        first: known_or(one.first, two.first),
        second: second_of(one, two),
        other: other_of(one, two),
    }
}

// The ways through a base.
#[tactic(auto, using(crate::proofs::Joining::grows_both, crate::proofs::Joining::option_known, crate::proofs::Joining::through_made))]
pub(crate) fn through_three(
    alloc: Global,
    paths: &mut Vec<NumberList>,
    index: u32,
    three: Three,
) -> Result<Three, AllocError>
    requires { AreKnown (length paths.old.items) three }
    ensures is { IfOk result (λ longer. three_at paths.new.items longer ≡ through_all index (three_at paths.old.items three)) }
    ensures known { IfOk result (λ longer. AreKnown (length paths.new.items) longer) }
    ensures grows { OnOk result (Grows paths.old.items paths.new.items) }
{
    let first = through(alloc, paths, index, three.first)?;
    let second = through(alloc, paths, index, three.second)?;
    let other = through(alloc, paths, index, three.other)?;
    Ok(Three {
        first,
        second,
        other,
    })
}
