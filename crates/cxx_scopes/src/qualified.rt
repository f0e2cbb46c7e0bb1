//! Qualified lookup in a namespace (3.4.3.2), and what a using-declaration brings (7.3.3).

ghost use Rattle.std.specs.Prelude.{◌≡◌, ◌==◌, ◌<◌, length, map, IfOk, OnOk};
ghost use Rattle.cxx_model.specs.Facts.Declarations.{name_at};
ghost use Rattle.cxx_model.specs.Facts.Fitted.{IsNameBelow};
ghost use Rattle.cxx_meaning.specs.Lookups.Gathered.{with_scopes};
ghost use Rattle.cxx_meaning.specs.Lookups.Qualified.{leads_to, searched as searched_from, standing_in, sightings_of, brought_by, brought_in};
ghost use Rattle.cxx_meaning.specs.Lookups.Sightings.{looked_up as looked_up_in};
ghost use Rattle.cxx_members.specs.Views.{IsLooking, graph_of, wanted_at};
ghost use Rattle.cxx_members.specs.Sighted.{Adds, AreBelow, sighting_at};

use crate::directives::add_nominated;
use crate::lists::scope_at;
use cxx_members::{Looking, Sighting, Sought};
use cxx_model::{FactList, Found, ScopeId, Steps};
use std::alloc::AllocError;
use std::sync::ledger::Ledger;

fn is_none(sightings: &[Sighting]) -> bool
    ensures { result ≡ (length sightings.now == 0) }
{
    sightings.len() == 0
}

// Adds the namespaces to which a namespace leads, where they are not there yet.
#[tactic(auto, using(crate::proofs::Searching::leads_nowhere, crate::proofs::Searching::leads_on))]
fn add_leads<L: Ledger>(
    looking: &Looking<'_>,
    cut: u32,
    sought: &Sought,
    space: ScopeId,
    spaces: &mut Vec<ScopeId>,
    steps: &mut Steps<L>,
) -> Result<(), AllocError>
    requires looking { IsLooking looking.now }
    requires name { IsNameBelow (length looking.now.types.now) sought.now.name.now }
    ensures { OnOk result (spaces.new.items ≡ with_scopes spaces.old.items (leads_to (graph_of looking.now) cut (wanted_at sought.now.wanted) (name_at looking.now.types.now sought.now.name.now) space)) }
{
    let mut own = Vec::new(looking.alloc);
    looking.add_standing(cut, sought, space, &mut own, steps)?;
    if !is_none(&own) {
        return Ok(());
    }
    add_nominated(looking, cut, space, spaces, steps)?;
    Ok(())
}

/// The namespaces in which a name is searched, each once.
#[tactic(auto, using(crate::proofs::Spreading::turn_first, crate::proofs::Spreading::turn_done, crate::proofs::Spreading::turn_over), unfolding(cxx_meaning::specs::Lookups::Qualified::searched))]
fn searched<L: Ledger>(
    looking: &Looking<'_>,
    cut: u32,
    sought: &Sought,
    space: ScopeId,
    steps: &mut Steps<L>,
) -> Result<Vec<ScopeId>, AllocError>
    requires looking { IsLooking looking.now }
    requires name { IsNameBelow (length looking.now.types.now) sought.now.name.now }
    ensures { IfOk result (λ spaces. spaces.items ≡ searched_from (graph_of looking.now) cut (wanted_at sought.now.wanted) (name_at looking.now.types.now sought.now.name.now) space) }
{
    let mut found = Vec::new(looking.alloc);
    found.push(space)?;
    for place in 0..looking.graph.length() {
        match scope_at(&found, place as usize) {
            None => return Ok(found),
            Some(one) => add_leads(looking, cut, sought, one, &mut found, steps)?,
        }
    }
    Ok(found)
}

// Adds the declarations in some namespaces.
#[tactic(auto, using(cxx_members::proofs::Adding::adds_none, crate::proofs::Searching::standing_more), unfolding(cxx_meaning::specs::Lookups::Qualified::standing_in))]
fn add_standing_in<L: Ledger>(
    looking: &Looking<'_>,
    cut: u32,
    sought: &Sought,
    spaces: &[ScopeId],
    found: &mut Vec<Sighting>,
    steps: &mut Steps<L>,
) -> Result<(), AllocError>
    requires looking { IsLooking looking.now }
    requires name { IsNameBelow (length looking.now.types.now) sought.now.name.now }
    ensures { OnOk result (Adds looking.now.types.now found.old.items found.new.items (standing_in (graph_of looking.now) cut (wanted_at sought.now.wanted) (name_at looking.now.types.now sought.now.name.now) spaces.now)) }
{
    for space in spaces {
        looking.add_standing(cut, sought, *space, found, steps)?;
    }
    Ok(())
}

// The declarations that a qualified lookup sees.
#[tactic(auto, using(cxx_members::proofs::Adding::adds_to_none))]
fn sightings_of<L: Ledger>(
    looking: &Looking<'_>,
    cut: u32,
    sought: &Sought,
    space: ScopeId,
    steps: &mut Steps<L>,
) -> Result<Vec<Sighting>, AllocError>
    requires looking { IsLooking looking.now }
    requires name { IsNameBelow (length looking.now.types.now) sought.now.name.now }
    ensures is { IfOk result (λ found. map (sighting_at looking.now.types.now) found.items ≡ sightings_of (graph_of looking.now) cut (wanted_at sought.now.wanted) (name_at looking.now.types.now sought.now.name.now) space) }
    ensures below { IfOk result (λ found. AreBelow (length looking.now.types.now) found.items) }
{
    let spaces = searched(looking, cut, sought, space, steps)?;
    let mut found = Vec::new(looking.alloc);
    add_standing_in(looking, cut, sought, &spaces, &mut found, steps)?;
    Ok(found)
}

/// What a qualified lookup finds in a namespace.
pub(crate) fn qualified_in<L: Ledger>(
    looking: &Looking<'_>,
    cut: u32,
    sought: &Sought,
    space: ScopeId,
    steps: &mut Steps<L>,
) -> Result<Found, AllocError>
    requires looking { IsLooking looking.now }
    requires name { IsNameBelow (length looking.now.types.now) sought.now.name.now }
    ensures { IfOk result (λ found. found ≡ looked_up_in (graph_of looking.now) (sightings_of (graph_of looking.now) cut (wanted_at sought.now.wanted) (name_at looking.now.types.now sought.now.name.now) space)) }
{
    let sightings = sightings_of(looking, cut, sought, space, steps)?;
    looking.looked_up(&sightings, steps)
}

// All entities, where a lookup finds something.
fn brought_by(
    looking: &Looking<'_>,
    found: Found,
    sightings: &[Sighting],
) -> Result<Found, AllocError>
    requires { AreBelow (length looking.now.types.now) sightings.now }
    ensures { IfOk result (λ brought. brought ≡ brought_by found (map (sighting_at looking.now.types.now) sightings.now)) }
{
    match found {
        Found::Set(_facts) => Ok(Found::Set(FactList::from_vec(looking.entities(sightings)?))),
        Found::Member(class, of) => Ok(Found::Member(class, of)),
        Found::Ambiguous(one, two) => Ok(Found::Ambiguous(one, two)),
        Found::Empty => Ok(Found::Empty),
    }
}

/// What a using-declaration brings from a namespace.
pub(crate) fn brought_from<L: Ledger>(
    looking: &Looking<'_>,
    cut: u32,
    sought: &Sought,
    space: ScopeId,
    steps: &mut Steps<L>,
) -> Result<Found, AllocError>
    requires looking { IsLooking looking.now }
    requires name { IsNameBelow (length looking.now.types.now) sought.now.name.now }
    ensures { IfOk result (λ found. found ≡ brought_in (graph_of looking.now) (sightings_of (graph_of looking.now) cut (wanted_at sought.now.wanted) (name_at looking.now.types.now sought.now.name.now) space)) }
{
    let sightings = sightings_of(looking, cut, sought, space, steps)?;
    let found = looking.looked_up(&sightings, steps)?;
    brought_by(looking, found, &sightings)
}
