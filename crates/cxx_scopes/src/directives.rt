//! Using-directives (7.3.4).

ghost use Rattle.std.specs.Prelude.{◌≡◌, ◌++◌, ◌∷◌, [], length, map, IfOk, OnOk};
ghost use Rattle.cxx_model.specs.Facts.Declarations.{fact_at};
ghost use Rattle.cxx_meaning.specs.Lookups.Directives.{nominates as nominates_at, nominated as nominated_by, reached as reached_from, shown_from, shows as shows_from};
ghost use Rattle.cxx_meaning.specs.Lookups.Gathered.{with_scopes};
ghost use Rattle.cxx_members.specs.Views.{IsLooking, facts_of};
ghost use Rattle.cxx_scopes.specs.Views.{shown_of};

use crate::lists::{add_scopes, scope_at};
use cxx_members::Looking;
use cxx_model::{Entity, Fact, FactId, ScopeId, Steps};
use std::alloc::AllocError;
use std::sync::ledger::Ledger;

/// A namespace, and the one in which its names show.
#[derive(Clone, Copy)]
pub(crate) struct Shown {
    pub there: ScopeId,
    pub space: ScopeId,
}

// The namespace that a fact nominates, where it is a directive of a scope that is seen at a cut.
#[tactic(auto, unfolding(cxx_meaning::specs::Lookups::Directives::nominates))]
fn nominates(
    looking: &Looking<'_>,
    cut: u32,
    scope: ScopeId,
    number: u32,
    fact: &Fact,
) -> Option<ScopeId>
    requires { IsLooking looking.now }
    ensures { result ≡ nominates_at (facts_of looking.now) cut scope number (fact_at looking.now.types.now fact.now) }
{
    match fact.what {
        Entity::Directive { nominated } => {
            if fact.scope.0 == scope.0 && looking.is_seen(cut, number, fact) {
                Some(nominated)
            } else {
                None
            }
        }
        _ => None,
    }
}

/// The namespaces that the directives of a scope nominate.
#[tactic(auto, using(cxx_members::proofs::Gathering::gathered_none, cxx_members::proofs::Gathering::gathered_some, cxx_members::proofs::Gathering::gathered_all))]
pub(crate) fn nominated<L: Ledger>(
    looking: &Looking<'_>,
    cut: u32,
    scope: ScopeId,
    steps: &mut Steps<L>,
) -> Result<Vec<ScopeId>, AllocError>
    requires { IsLooking looking.now }
    ensures { IfOk result (λ spaces. spaces.items ≡ nominated_by (facts_of looking.now) cut scope) }
{
    let mut spaces = Vec::new(looking.alloc);
    for number in 0..looking.graph.length() {
        let fact = looking.graph.fact(FactId(number), steps);
        if let Some(space) = nominates(looking, cut, scope, number, fact) {
            spaces.push(space)?;
        }
    }
    Ok(spaces)
}

/// Adds what a namespace nominates, where it is not there yet.
pub(crate) fn add_nominated<L: Ledger>(
    looking: &Looking<'_>,
    cut: u32,
    space: ScopeId,
    found: &mut Vec<ScopeId>,
    steps: &mut Steps<L>,
) -> Result<(), AllocError>
    requires { IsLooking looking.now }
    ensures { OnOk result (found.new.items ≡ with_scopes found.old.items (nominated_by (facts_of looking.now) cut space)) }
{
    let next = nominated(looking, cut, space, steps)?;
    add_scopes(found, &next)
}

// A namespace, with the one in which it shows from a scope that has a chain.
fn shown_at(looking: &Looking<'_>, chain: &[ScopeId], space: ScopeId) -> Result<Shown, AllocError>
    requires { IsLooking looking.now }
    ensures { IfOk result (λ shown. shown_of shown ≡ shown_from (facts_of looking.now) chain.now space) }
{
    let other = looking.chain(space)?;
    Ok(Shown {
        there: looking.first_common(chain, &other),
        space,
    })
}

/// The namespaces that are reached from a scope, each once.
#[tactic(auto, using(crate::proofs::Spreading::turn_first, crate::proofs::Spreading::turn_more, crate::proofs::Spreading::turn_done, crate::proofs::Spreading::turn_over), unfolding(cxx_meaning::specs::Lookups::Directives::reached))]
pub(crate) fn reached<L: Ledger>(
    looking: &Looking<'_>,
    cut: u32,
    scope: ScopeId,
    steps: &mut Steps<L>,
) -> Result<Vec<ScopeId>, AllocError>
    requires { IsLooking looking.now }
    ensures { IfOk result (λ spaces. spaces.items ≡ reached_from (facts_of looking.now) cut scope) }
{
    let nominated = nominated(looking, cut, scope, steps)?;
    let mut found = Vec::new(looking.alloc);
    add_scopes(&mut found, &nominated)?;
    for place in 0..looking.graph.length() {
        match scope_at(&found, place as usize) {
            None => return Ok(found),
            Some(space) => add_nominated(looking, cut, space, &mut found, steps)?,
        }
    }
    Ok(found)
}

/// Adds what is reached from a scope, each with the namespace in which it shows.
#[tactic(auto, unfolding(cxx_meaning::specs::Lookups::Directives::shows))]
pub(crate) fn add_shown<L: Ledger>(
    looking: &Looking<'_>,
    cut: u32,
    scope: ScopeId,
    shown: &mut Vec<Shown>,
    steps: &mut Steps<L>,
) -> Result<(), AllocError>
    requires { IsLooking looking.now }
    ensures { OnOk result (map shown_of shown.new.items ≡ map shown_of shown.old.items ++ shows_from (facts_of looking.now) cut scope) }
{
    let chain = looking.chain(scope)?;
    let reached = reached(looking, cut, scope, steps)?;
    for space in &reached {
        let one = shown_at(looking, &chain, *space)?;
        push_shown(shown, one)?;
    }
    Ok(())
}

fn push_shown(shown: &mut Vec<Shown>, one: Shown) -> Result<(), AllocError>
    ensures { OnOk result (map shown_of shown.new.items ≡ map shown_of shown.old.items ++ shown_of one ∷ []) }
{
    shown.push(one)?;
    Ok(())
}
