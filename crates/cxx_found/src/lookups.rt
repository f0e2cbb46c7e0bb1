//! The public lookups.

ghost use Rattle.std.specs.Prelude.{◌≡◌, Ok, length, IfOk};
ghost use Rattle.cxx_model.specs.Facts.Declarations.{facts_at, graph_at, spelled};
ghost use Rattle.cxx_model.specs.Facts.Fitted.{Fitted};
ghost use Rattle.cxx_meaning.specs.Lookups.Qualified.{brought as brought_from, qualified as qualified_from};
ghost use Rattle.cxx_members.specs.Views.{wanted_at};
ghost use Rattle.cxx_reading.specs.Seen.{fact_numbers, found as found_from, found_types as found_types_from, kind_of_found, numbered_at, sought_from};
ghost use Rattle.cxx_names.specs.Index.{Notes, numbers_in};
ghost use Rattle.cxx_names.specs.Plain.{ArePlain};
ghost use Rattle.cxx_model.specs.Types.Numbers.{AreTypesBelow};
ghost use Rattle.cxx_found.specs.Associated.{AreFoundBy, given};
ghost use Rattle.cxx_found.specs.Views.{IsSeeking, graph_of, name_of, types_of, wanted_of};

use crate::seeking::Seeking;
use cxx_graph::Graph;
use cxx_members::{Looking, Wanted};
use cxx_model::{FactList, Found, Kind, OutOfMemory, ScopeId, TypeId};
use cxx_names::Names;
use cxx_types::TypeTable;
use std::alloc::Global;

fn seeking<'a>(
    alloc: Global,
    names: &'a Names,
    graph: &'a Graph,
    types: &'a TypeTable,
    wanted: Wanted,
    word: &'a [u8],
) -> Seeking<'a>
    requires noted { Notes names.now graph.now.facts }
    requires fitted { Fitted graph.now types.now }
    requires plain { ArePlain graph.now.facts }
    ensures graph { graph_of result ≡ graph_at types.now graph.now }
    ensures types { types_of result ≡ types.now }
    ensures wanted { wanted_of result ≡ wanted_at wanted }
    ensures name { name_of result ≡ spelled word.now }
    ensures seeking { IsSeeking result }
{
    Seeking {
        looking: Looking {
            alloc,
            graph,
            types,
            scopes: &[],
        },
        names,
        wanted,
        word,
        met: names.met_as(word),
    }
}

/// What a name means from a scope, of what is wanted, among all that is declared so far (3.4.1, 7.3.4).
pub fn sought(
    alloc: Global,
    names: &Names,
    graph: &Graph,
    types: &TypeTable,
    wanted: Wanted,
    scope: ScopeId,
    word: &[u8],
) -> Result<Found, OutOfMemory>
    requires noted { Notes names.now graph.now.facts }
    requires fitted { Fitted graph.now types.now }
    requires plain { ArePlain graph.now.facts }
    ensures { IfOk result (λ found. found ≡ sought_from (graph_at types.now graph.now) (wanted_at wanted) scope.0 (spelled word.now)) }
{
    let seeking = seeking(alloc, names, graph, types, wanted, word);
    Ok(seeking.sought(scope)?)
}

/// The first declarations of the entities that a name means from a scope; none where it is not declared or ambiguous.
#[tactic(auto, unfolding(cxx_reading::specs::Seen::found))]
pub fn found(
    alloc: Global,
    names: &Names,
    graph: &Graph,
    types: &TypeTable,
    scope: ScopeId,
    word: &[u8],
) -> Result<FactList, OutOfMemory>
    requires noted { Notes names.now graph.now.facts }
    requires fitted { Fitted graph.now types.now }
    requires plain { ArePlain graph.now.facts }
    ensures numbered { IfOk result (λ all. numbered_at (graph_at types.now graph.now) (fact_numbers all) ≡ found_from (graph_at types.now graph.now) scope.0 (spelled word.now)) }
    ensures numbers { IfOk result (λ all. all ≡ numbers_in (found_from (graph_at types.now graph.now) scope.0 (spelled word.now))) }
{
    let seeking = seeking(alloc, names, graph, types, Wanted::Any, word);
    Ok(seeking.set(scope)?)
}

/// The same for names of types alone (3.4.4).
#[tactic(auto, unfolding(cxx_reading::specs::Seen::found_types))]
pub fn found_types(
    alloc: Global,
    names: &Names,
    graph: &Graph,
    types: &TypeTable,
    scope: ScopeId,
    word: &[u8],
) -> Result<FactList, OutOfMemory>
    requires noted { Notes names.now graph.now.facts }
    requires fitted { Fitted graph.now types.now }
    requires plain { ArePlain graph.now.facts }
    ensures numbered { IfOk result (λ all. numbered_at (graph_at types.now graph.now) (fact_numbers all) ≡ found_types_from (graph_at types.now graph.now) scope.0 (spelled word.now)) }
    ensures numbers { IfOk result (λ all. all ≡ numbers_in (found_types_from (graph_at types.now graph.now) scope.0 (spelled word.now))) }
{
    let seeking = seeking(alloc, names, graph, types, Wanted::Types, word);
    Ok(seeking.set(scope)?)
}

/// What a name is to a reader, from a scope (3.3.7).
#[tactic(auto, unfolding(cxx_reading::specs::Seen::found))]
pub fn kind(
    alloc: Global,
    names: &Names,
    graph: &Graph,
    types: &TypeTable,
    scope: ScopeId,
    word: &[u8],
) -> Result<Kind, OutOfMemory>
    requires noted { Notes names.now graph.now.facts }
    requires fitted { Fitted graph.now types.now }
    requires plain { ArePlain graph.now.facts }
    ensures { IfOk result (λ kind. kind ≡ kind_of_found (graph_at types.now graph.now) (found_from (graph_at types.now graph.now) scope.0 (spelled word.now))) }
{
    let seeking = seeking(alloc, names, graph, types, Wanted::Any, word);
    Ok(seeking.kind(scope)?)
}

/// What a name means behind `::` in a namespace, of what is wanted, among all that is declared so far (3.4.3.2).
pub fn qualified_in(
    alloc: Global,
    names: &Names,
    graph: &Graph,
    types: &TypeTable,
    wanted: Wanted,
    space: ScopeId,
    word: &[u8],
) -> Result<Found, OutOfMemory>
    requires noted { Notes names.now graph.now.facts }
    requires fitted { Fitted graph.now types.now }
    requires plain { ArePlain graph.now.facts }
    ensures { IfOk result (λ found. qualified_from (graph_at types.now graph.now) (wanted_at wanted) space (spelled word.now) (length (facts_at types.now graph.now.facts)) ≡ Ok found) }
{
    let seeking = seeking(alloc, names, graph, types, wanted, word);
    Ok(seeking.qualified(space)?)
}

/// What a using-declaration of a namespace or a block brings from a namespace: all entities of the name, also those that
/// others hide (7.3.3).
pub fn brought(
    alloc: Global,
    names: &Names,
    graph: &Graph,
    types: &TypeTable,
    space: ScopeId,
    word: &[u8],
) -> Result<Found, OutOfMemory>
    requires noted { Notes names.now graph.now.facts }
    requires fitted { Fitted graph.now types.now }
    requires plain { ArePlain graph.now.facts }
    ensures { IfOk result (λ found. brought_from (graph_at types.now graph.now) space (spelled word.now) (length (facts_at types.now graph.now.facts)) ≡ Ok found) }
{
    let seeking = seeking(alloc, names, graph, types, Wanted::Any, word);
    Ok(seeking.brought(space)?)
}

/// The functions of a name that the types of arguments find, by their first declarations, ascending (3.4.2).
pub fn found_by_types(
    alloc: Global,
    names: &Names,
    graph: &Graph,
    types: &TypeTable,
    of: &[TypeId],
    word: &[u8],
) -> Result<FactList, OutOfMemory>
    requires noted { Notes names.now graph.now.facts }
    requires fitted { Fitted graph.now types.now }
    requires plain { ArePlain graph.now.facts }
    requires of { AreTypesBelow (length types.now) of.now }
    ensures { IfOk result (AreFoundBy (graph_at types.now graph.now) (given types.now of.now) (spelled word.now)) }
{
    let seeking = seeking(alloc, names, graph, types, Wanted::Any, word);
    Ok(seeking.found_by_types(of)?)
}
