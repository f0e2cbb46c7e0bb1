//! The subobjects of a class that have a name (10.2). Each class has its first way, its second and its first one to
//! another class than that; all its ways are never listed.

ghost use Rattle.std.specs.Prelude.{◌≡◌, ◌<◌, List, ℕ, length, option_map, IfOk, OnOk, IfSome};
ghost use Rattle.cxx_meaning.specs.Lookups.Member.{through as through_base};
ghost use Rattle.cxx_members.specs.Ways.{Grows, joined, through_all, or_else as first_of_two, other_after as first_other};
ghost use Rattle.cxx_inherited.specs.Ways.{AreKnown, IsWayKnown, three_at, way_at};

use crate::paths::Paths;
use cxx_model::ClassId;
use std::alloc::AllocError;

/// A subobject: the number of its path among some paths, and its class.
#[derive(Clone, Copy)]
pub(crate) struct Way {
    pub path: usize,
    pub holder: ClassId,
}

/// Of the ways of a class the first, the second, and the first to another class than the first.
#[derive(Clone, Copy)]
pub(crate) struct Three {
    pub first: Option<Way>,
    pub second: Option<Way>,
    pub other: Option<Way>,
}

// A way through a base.
#[tactic(auto, using(crate::proofs::Joining::through_is, cxx_members::proofs::Joining::grows_one, cxx_members::proofs::Joining::grows_none))]
fn way_through(paths: &mut Paths, index: u32, way: Way) -> Result<Way, AllocError>
    requires { IsWayKnown (length paths.old) way }
    ensures is { IfOk result (λ longer. way_at paths.new longer ≡ through_base index (way_at paths.old way)) }
    ensures known { IfOk result (λ longer. IsWayKnown (length paths.new) longer) }
    ensures grows { OnOk result (Grows paths.old paths.new) }
{
    let number = paths.add(index, way.path)?;
    Ok(Way {
        path: number,
        holder: way.holder,
    })
}

// A way through a base, where there is one.
#[tactic(auto, using(cxx_members::proofs::Joining::grows_none))]
fn through(paths: &mut Paths, index: u32, way: Option<Way>) -> Result<Option<Way>, AllocError>
    requires { IfSome way (IsWayKnown (length paths.old)) }
    ensures is { IfOk result (λ longer. option_map (way_at paths.new) longer ≡ option_map (through_base index) (option_map (way_at paths.old) way)) }
    ensures known { IfOk result (λ longer. IfSome longer (IsWayKnown (length paths.new))) }
    ensures grows { OnOk result (Grows paths.old paths.new) }
{
    match way {
        None => Ok(None),
        Some(way) => Ok(Some(way_through(paths, index, way)?)),
    }
}

fn known_or(one: Option<Way>, two: Option<Way>) -> Option<Way>
    ensures is { (paths : List (List ℕ)) → option_map (way_at paths) result ≡ first_of_two (option_map (way_at paths) one) (option_map (way_at paths) two) }
    ensures known { (count : ℕ) → IfSome one (IsWayKnown count) → IfSome two (IsWayKnown count) → IfSome result (IsWayKnown count) }
{
    match one {
        Some(way) => Some(way),
        None => two,
    }
}

// The first way to another class than that of one, among ways of which three are known.
fn other_after(one: Way, three: Three) -> Option<Way>
    ensures is { (paths : List (List ℕ)) → option_map (way_at paths) result ≡ first_other (way_at paths one) (three_at paths three) }
    ensures known { (count : ℕ) → AreKnown count three → IfSome result (IsWayKnown count) }
{
    match three.first {
        None => None,
        Some(two) => {
            if one.holder.0 == two.holder.0 {
                three.other
            } else {
                Some(two)
            }
        }
    }
}

fn second_of(one: Three, two: Three) -> Option<Way>
    ensures is { (paths : List (List ℕ)) → option_map (way_at paths) result ≡ (joined (three_at paths one) (three_at paths two)).second }
    ensures known { (count : ℕ) → AreKnown count one → AreKnown count two → IfSome result (IsWayKnown count) }
{
    match one.first {
        None => two.second,
        Some(_way) => known_or(one.second, two.first),
    }
}

fn other_of(one: Three, two: Three) -> Option<Way>
    ensures is { (paths : List (List ℕ)) → option_map (way_at paths) result ≡ (joined (three_at paths one) (three_at paths two)).other }
    ensures known { (count : ℕ) → AreKnown count one → AreKnown count two → IfSome result (IsWayKnown count) }
{
    match one.first {
        None => two.other,
        Some(way) => known_or(one.other, other_after(way, two)),
    }
}

// Of some ways and more behind them.
pub(crate) fn join(one: Three, two: Three) -> Three
    ensures is { (paths : List (List ℕ)) → three_at paths result ≡ joined (three_at paths one) (three_at paths two) }
    ensures known { (count : ℕ) → AreKnown count one → AreKnown count two → AreKnown count result }
{
    Three {
        first: known_or(one.first, two.first),
        second: second_of(one, two),
        other: other_of(one, two),
    }
}

// The ways through a base.
#[tactic(auto, using(cxx_members::proofs::Joining::grows_both, crate::proofs::Joining::option_known, crate::proofs::Joining::through_made))]
pub(crate) fn through_three(
    paths: &mut Paths,
    index: u32,
    three: Three,
) -> Result<Three, AllocError>
    requires { AreKnown (length paths.old) three }
    ensures is { IfOk result (λ longer. three_at paths.new longer ≡ through_all index (three_at paths.old three)) }
    ensures known { IfOk result (λ longer. AreKnown (length paths.new) longer) }
    ensures grows { OnOk result (Grows paths.old paths.new) }
{
    let first = through(paths, index, three.first)?;
    let second = through(paths, index, three.second)?;
    let other = through(paths, index, three.other)?;
    Ok(Three {
        first,
        second,
        other,
    })
}
