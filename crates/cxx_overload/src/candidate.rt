//! The functions that a call may mean (13.3.1).

ghost use Rattle.std.specs.Prelude.{◌≡◌, ◌≤◌, ◌<◌, ◌+◌, length, map, option_map, IfOk, IfSome, OnOk};
ghost use Rattle.std.specs.List.{All};
ghost use Rattle.cxx_model.specs.Facts.Declarations.{fact_at, graph_at};
ghost use Rattle.cxx_model.specs.Facts.Fitted.{Fitted, IsFactBelow};
ghost use Rattle.cxx_model.specs.Stops.{Gives};
ghost use Rattle.cxx_model.specs.Types.Numbers.{type_at};
ghost use Rattle.cxx_overload.specs.Candidates.{candidate_by as candidate_by_type, candidates_within};
ghost use Rattle.cxx_overload.specs.Gathering.{AreNumbered, place_among, seen, seen_number, with_candidate, with_defaults, Sees};
ghost use Rattle.cxx_overload.specs.Views.{candidate_at, numbered_in, IsCandidateBelow};

use cxx_graph::Graph;
use cxx_model::limits::MOST_CANDIDATES;
use cxx_model::{Cv, Entity, Fact, FactId, LimitKind, MemberKind, Place, Stop, TypeId, TypeNode};
use cxx_types::TypeTable;
use std::alloc::Global;

/// A function that a call may mean: the number of its first declaration, and what its declarations say.
#[derive(Clone, Copy)]
pub struct Candidate<'t> {
    /// Its number among the candidates, from 1.
    pub position: u32,
    pub number: FactId,
    pub place: Place,
    /// How it stands to a class.
    pub member: MemberKind,
    /// The words behind its parameter list (9.3).
    pub cv: Cv,
    pub result: TypeId,
    pub parameters: &'t [TypeId],
    /// Whether further arguments may follow (8.3.5).
    pub ellipsis: bool,
    /// How many parameters at the end have default arguments (8.3.6).
    pub defaults: u32,
}

#[tactic(auto, using(crate::proofs::Gathering::function_below))]
fn candidate_by<'t>(
    types: &'t TypeTable,
    position: u32,
    number: FactId,
    place: Place,
    member: MemberKind,
    defaults: u32,
    of: TypeId,
) -> Option<Candidate<'t>>
    requires { of.0 < length types.now }
    ensures is { option_map (candidate_at types.now) result ≡ candidate_by_type position number.0 place member defaults (type_at types.now of.0) }
    ensures below { IfSome result (IsCandidateBelow (length types.now)) }
{
    match types.node(of) {
        TypeNode::Function {
            result,
            parameters,
            ellipsis,
            cv,
        } => Some(Candidate {
            position,
            number,
            place,
            member,
            cv: *cv,
            result: *result,
            parameters: parameters.as_slice(),
            ellipsis: *ellipsis,
            defaults,
        }),
        _ => None,
    }
}

/// Adds a candidate, where there is one. A call may have so many.
fn add<'t>(
    all: &mut Vec<Candidate<'t>>,
    types: &'t TypeTable,
    candidate: Option<Candidate<'t>>,
) -> Result<(), Stop>
    requires few { length all.old.items ≤ MOST_CANDIDATES }
    requires below { IfSome candidate (IsCandidateBelow (length types.now)) }
    ensures sees { Sees (with_candidate (map (candidate_at types.now) all.old.items) (option_map (candidate_at types.now) candidate.entry)) (map (candidate_at types.now) all.new.items) result }
    ensures few { OnOk result (length all.new.items ≤ MOST_CANDIDATES) }
    ensures below { All (IsCandidateBelow (length types.now)) all.old.items → OnOk result (All (IsCandidateBelow (length types.now)) all.new.items) }
{
    let _ = types;
    match candidate {
        None => Ok(()),
        Some(candidate) => {
            if all.len() == MOST_CANDIDATES as usize {
                return Err(Stop::Limit(LimitKind::Candidates));
            }
            Ok(all.push(candidate)?)
        }
    }
}

/// The same candidate, where a function is declared again with so many default arguments.
fn redeclared<'t>(
    one: &Candidate<'t>,
    types: &TypeTable,
    first: FactId,
    defaults: u32,
) -> Candidate<'t>
    ensures is { candidate_at types.now result ≡ with_defaults first.0 defaults (candidate_at types.now one.now) }
    ensures below { IsCandidateBelow (length types.now) one.now → IsCandidateBelow (length types.now) result }
{
    let _ = types;
    if first.0 == one.number.0 {
        return Candidate { defaults, ..*one };
    }
    *one
}

/// A function is declared again, with so many default arguments.
fn declare_again(all: &mut Vec<Candidate>, types: &TypeTable, first: FactId, defaults: u32)
    ensures is { map (candidate_at types.now) all.new.items ≡ map (with_defaults first.0 defaults) (map (candidate_at types.now) all.old.items) }
    ensures count { length all.new.items ≡ length all.old.items }
    ensures below { All (IsCandidateBelow (length types.now)) all.old.items → All (IsCandidateBelow (length types.now)) all.new.items }
{
    for one in all.iter_mut() {
        *one = redeclared(one, types, first, defaults);
    }
}

/// Sees one more declaration.
fn see_fact<'t>(
    all: &mut Vec<Candidate<'t>>,
    types: &'t TypeTable,
    number: FactId,
    fact: &Fact,
) -> Result<(), Stop>
    requires few { length all.old.items ≤ MOST_CANDIDATES }
    requires known { IsFactBelow (length types.now) fact.now }
    ensures sees { Sees (seen (map (candidate_at types.now) all.old.items) (record { number = number.0; fact = fact_at types.now fact.now })) (map (candidate_at types.now) all.new.items) result }
    ensures few { OnOk result (length all.new.items ≤ MOST_CANDIDATES) }
    ensures below { All (IsCandidateBelow (length types.now)) all.old.items → OnOk result (All (IsCandidateBelow (length types.now)) all.new.items) }
{
    match fact.what {
        Entity::Function {
            of,
            member,
            defaults,
            first: None,
            ..
        } => {
            let position = all.len() as u32 + 1;
            let candidate = candidate_by(types, position, number, fact.place, member, defaults, of);
            add(all, types, candidate)
        }
        Entity::Function {
            defaults,
            first: Some(first),
            ..
        } => {
            declare_again(all, types, first, defaults);
            Ok(())
        }
        _ => Ok(()),
    }
}

#[tactic(auto, using(crate::proofs::Gathering::known_fact, crate::proofs::Gathering::seen_here, crate::proofs::Gathering::seen_nowhere))]
fn see<'t>(
    all: &mut Vec<Candidate<'t>>,
    graph: &Graph,
    types: &'t TypeTable,
    number: FactId,
) -> Result<(), Stop>
    requires few { length all.old.items ≤ MOST_CANDIDATES }
    requires fitted { Fitted graph.now types.now }
    ensures sees { Sees (seen_number (graph_at types.now graph.now) (map (candidate_at types.now) all.old.items) number.0) (map (candidate_at types.now) all.new.items) result }
    ensures few { OnOk result (length all.new.items ≤ MOST_CANDIDATES) }
    ensures below { All (IsCandidateBelow (length types.now)) all.old.items → OnOk result (All (IsCandidateBelow (length types.now)) all.new.items) }
{
    match graph.facts().get(number.0 as usize) {
        None => Ok(()),
        Some(fact) => see_fact(all, types, number, fact),
    }
}

/// Every function among the declarations with some numbers, once, in the order of their first declarations. A call may
/// have so many.
pub fn candidates<'t>(
    alloc: Global,
    graph: &Graph,
    types: &'t TypeTable,
    found: &[FactId],
) -> Result<Vec<Candidate<'t>>, Stop>
    requires { Fitted graph.now types.now }
    ensures is { Gives (λ all. map (candidate_at types.now) all.items) result (candidates_within (numbered_in (graph_at types.now graph.now) found.now)) }
    ensures few { IfOk result (λ all. length all.items ≤ MOST_CANDIDATES) }
    ensures below { IfOk result (λ all. All (IsCandidateBelow (length types.now)) all.items) }
    ensures numbered { IfOk result (λ all. AreNumbered place_among 1 (map (candidate_at types.now) all.items)) }
{
    let mut all = Vec::new(alloc);
    for number in found {
        see(&mut all, graph, types, *number)?;
    }
    Ok(all)
}
