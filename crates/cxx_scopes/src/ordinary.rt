//! Unqualified lookup (3.4.1).

ghost use Rattle.std.specs.Prelude.{◌≡◌, ◌<◌, ◌++◌, [], length, map, IfOk, OnOk};
ghost use Rattle.cxx_model.specs.Facts.Declarations.{name_at};
ghost use Rattle.cxx_model.specs.Facts.Fitted.{IsNameBelow};
ghost use Rattle.cxx_meaning.specs.Lookups.Directives.{shows};
ghost use Rattle.cxx_meaning.specs.Lookups.Ordinary.{found_in_member, found_in_sightings, found_in_scope as found_at_scope, member_found as member_found_in, ordinary as ordinary_of, ordinary_in, sightings_at as sightings_in, standing_if, standing_shown};
ghost use Rattle.cxx_meaning.specs.Lookups.Member.{member as member_named};
ghost use Rattle.cxx_members.specs.Answers.{Answers};
ghost use Rattle.cxx_members.specs.Views.{IsLooking, facts_of, graph_of, wanted_at};
ghost use Rattle.cxx_scopes.specs.Views.{shown_of};
ghost use Rattle.cxx_members.specs.Sighted.{Adds, AreBelow, sighting_at};

use crate::directives::{Shown, add_shown};
use cxx_members::{Looking, Sighting, Sought};
use cxx_model::{ClassId, Found, MemberFound, ScopeId, Steps, Wait};
use std::alloc::AllocError;
use std::sync::ledger::Ledger;

// Adds the declarations in a namespace, where it shows in a scope.
#[tactic(auto, using(cxx_members::proofs::Adding::adds_none))]
fn add_if_shown<L: Ledger>(
    looking: &Looking<'_>,
    cut: u32,
    sought: &Sought,
    one: Shown,
    scope: ScopeId,
    found: &mut Vec<Sighting>,
    steps: &mut Steps<L>,
) -> Result<(), AllocError>
    requires looking { IsLooking looking.now }
    requires name { IsNameBelow (length looking.now.types.now) sought.now.name.now }
    ensures { OnOk result (Adds looking.now.types.now found.old.items found.new.items (standing_if (graph_of looking.now) cut (wanted_at sought.now.wanted) (name_at looking.now.types.now sought.now.name.now) scope (shown_of one))) }
{
    if one.there.0 == scope.0 {
        looking.add_standing(cut, sought, one.space, found, steps)
    } else {
        Ok(())
    }
}

// Adds the declarations in the namespaces that show in a scope.
#[tactic(auto, using(cxx_members::proofs::Adding::adds_none, crate::proofs::Shows::shown_more), unfolding(cxx_meaning::specs::Lookups::Ordinary::standing_shown))]
fn add_shown_standing<L: Ledger>(
    looking: &Looking<'_>,
    cut: u32,
    sought: &Sought,
    shown: &[Shown],
    scope: ScopeId,
    found: &mut Vec<Sighting>,
    steps: &mut Steps<L>,
) -> Result<(), AllocError>
    requires looking { IsLooking looking.now }
    requires name { IsNameBelow (length looking.now.types.now) sought.now.name.now }
    ensures { OnOk result (Adds looking.now.types.now found.old.items found.new.items (standing_shown (graph_of looking.now) cut (wanted_at sought.now.wanted) (name_at looking.now.types.now sought.now.name.now) scope (map shown_of shown.now))) }
{
    for one in shown {
        add_if_shown(looking, cut, sought, *one, scope, found, steps)?;
    }
    Ok(())
}

// Adds the declarations of a scope: those in it, and those that show there.
#[tactic(auto, using(cxx_members::proofs::Adding::adds_both), unfolding(cxx_meaning::specs::Lookups::Ordinary::sightings_at))]
fn add_sightings_at<L: Ledger>(
    looking: &Looking<'_>,
    cut: u32,
    sought: &Sought,
    shown: &[Shown],
    scope: ScopeId,
    found: &mut Vec<Sighting>,
    steps: &mut Steps<L>,
) -> Result<(), AllocError>
    requires looking { IsLooking looking.now }
    requires name { IsNameBelow (length looking.now.types.now) sought.now.name.now }
    ensures { OnOk result (Adds looking.now.types.now found.old.items found.new.items (sightings_in (graph_of looking.now) cut (wanted_at sought.now.wanted) (name_at looking.now.types.now sought.now.name.now) (map shown_of shown.now) scope)) }
{
    looking.add_standing(cut, sought, scope, found, steps)?;
    add_shown_standing(looking, cut, sought, shown, scope, found, steps)
}

// What is found in a scope that is that of no class, where something is.
#[tactic(auto, using(cxx_members::proofs::Adding::adds_to_none))]
fn found_in<L: Ledger>(
    looking: &Looking<'_>,
    cut: u32,
    sought: &Sought,
    shown: &[Shown],
    scope: ScopeId,
    steps: &mut Steps<L>,
) -> Result<Option<Found>, AllocError>
    requires looking { IsLooking looking.now }
    requires name { IsNameBelow (length looking.now.types.now) sought.now.name.now }
    ensures { IfOk result (λ found. found ≡ found_in_sightings (graph_of looking.now) (sightings_in (graph_of looking.now) cut (wanted_at sought.now.wanted) (name_at looking.now.types.now sought.now.name.now) (map shown_of shown.now) scope)) }
{
    let mut sightings = Vec::new(looking.alloc);
    add_sightings_at(looking, cut, sought, shown, scope, &mut sightings, steps)?;
    found_among(looking, &sightings, steps)
}

fn found_among<L: Ledger>(
    looking: &Looking<'_>,
    sightings: &[Sighting],
    steps: &mut Steps<L>,
) -> Result<Option<Found>, AllocError>
    requires looking { IsLooking looking.now }
    requires below { AreBelow (length looking.now.types.now) sightings.now }
    ensures { IfOk result (λ found. found ≡ found_in_sightings (graph_of looking.now) (map (sighting_at looking.now.types.now) sightings.now)) }
{
    match sightings {
        [] => Ok(None),
        [_one, _others @ ..] => Ok(Some(looking.looked_up(sightings, steps)?)),
    }
}

// What is found in a class, where something is.
fn found_in_class<L: Ledger>(
    looking: &Looking<'_>,
    sought: &Sought,
    class: ClassId,
    steps: &mut Steps<L>,
) -> Result<Option<Found>, Wait>
    requires looking { IsLooking looking.now }
    requires name { IsNameBelow (length looking.now.types.now) sought.now.name.now }
    ensures { Answers result (found_in_member class (member_named (graph_of looking.now) (wanted_at sought.now.wanted) class (name_at looking.now.types.now sought.now.name.now))) }
{
    let found = looking.member(sought, class, steps)?;
    Ok(member_found(class, found))
}

// What is found in a scope, where something is.
#[tactic(auto, unfolding(cxx_meaning::specs::Lookups::Ordinary::found_in_scope))]
fn found_at<L: Ledger>(
    looking: &Looking<'_>,
    cut: u32,
    sought: &Sought,
    shown: &[Shown],
    scope: ScopeId,
    steps: &mut Steps<L>,
) -> Result<Option<Found>, Wait>
    requires looking { IsLooking looking.now }
    requires name { IsNameBelow (length looking.now.types.now) sought.now.name.now }
    ensures { Answers result (found_at_scope (graph_of looking.now) (wanted_at sought.now.wanted) (name_at looking.now.types.now sought.now.name.now) cut (map shown_of shown.now) scope) }
{
    match looking.class_of(scope) {
        Some(class) => found_in_class(looking, sought, class, steps),
        None => Ok(found_in(looking, cut, sought, shown, scope, steps)?),
    }
}

// What is found in the next scope of a chain, where something is.
fn found_next<L: Ledger>(
    looking: &Looking<'_>,
    cut: u32,
    sought: &Sought,
    scope: ScopeId,
    shown: &mut Vec<Shown>,
    steps: &mut Steps<L>,
) -> Result<Option<Found>, Wait>
    requires looking { IsLooking looking.now }
    requires name { IsNameBelow (length looking.now.types.now) sought.now.name.now }
    ensures shown { OnOk result (map shown_of shown.new.items ≡ map shown_of shown.old.items ++ shows (facts_of looking.now) cut scope) }
    ensures found { Answers result (found_at_scope (graph_of looking.now) (wanted_at sought.now.wanted) (name_at looking.now.types.now sought.now.name.now) cut (map shown_of shown.old.items ++ shows (facts_of looking.now) cut scope) scope) }
{
    add_shown(looking, cut, scope, shown, steps)?;
    found_at(looking, cut, sought, shown, scope, steps)
}

/// What an unqualified lookup finds.
pub(crate) fn ordinary_at<L: Ledger>(
    looking: &Looking<'_>,
    cut: u32,
    sought: &Sought,
    scope: ScopeId,
    steps: &mut Steps<L>,
) -> Result<Found, Wait>
    requires looking { IsLooking looking.now }
    requires name { IsNameBelow (length looking.now.types.now) sought.now.name.now }
    ensures { Answers result (ordinary_of (graph_of looking.now) (wanted_at sought.now.wanted) scope (name_at looking.now.types.now sought.now.name.now) cut) }
{
    let chain = looking.chain(scope)?;
    outward(looking, cut, sought, &chain, steps)
}

// What is found in the first of some scopes that has something.
fn outward<L: Ledger>(
    looking: &Looking<'_>,
    cut: u32,
    sought: &Sought,
    scopes: &[ScopeId],
    steps: &mut Steps<L>,
) -> Result<Found, Wait>
    requires looking { IsLooking looking.now }
    requires name { IsNameBelow (length looking.now.types.now) sought.now.name.now }
    ensures { Answers result (ordinary_in (graph_of looking.now) (wanted_at sought.now.wanted) (name_at looking.now.types.now sought.now.name.now) cut [] scopes.now) }
{
    let mut shown = Vec::new(looking.alloc);
    for scope in scopes {
        match found_next(looking, cut, sought, *scope, &mut shown, steps) {
            Err(wait) => return Err(wait),
            Ok(Some(found)) => return Ok(found),
            Ok(None) => {}
        }
    }
    Ok(Found::Empty)
}

fn member_found(class: ClassId, found: MemberFound) -> Option<Found>
    ensures { result ≡ member_found_in class found }
{
    match found {
        MemberFound::Empty => None,
        MemberFound::Set(facts, path) => Some(Found::Member(class, MemberFound::Set(facts, path))),
        MemberFound::Ambiguous(one, two) => Some(Found::Member(
            class,
            MemberFound::Ambiguous(one, two),
        )),
    }
}
