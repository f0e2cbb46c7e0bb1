//! How the reading stops at a name.

ghost use Rattle.std.specs.Prelude.{◌≡◌, ◌∷◌, [], List, IfOk};
ghost use Rattle.std.specs.List.{slice_get};
ghost use Rattle.std.specs.Option.{option_copied};
ghost use Rattle.cxx_model.specs.declared.evidence.Evidence.TheVariants as evidence_of;
ghost use Rattle.cxx_model.specs.declared.fault.FaultText.TheVariants as says;
ghost use Rattle.cxx_model.specs.Facts.Declarations.{graph_at};
ghost use Rattle.cxx_model.specs.Stops.{Faulty, Gives, undeclared_at};
ghost use Rattle.cxx_model.specs.Types.Trees.{CxxType};
ghost use Rattle.cxx_paths.specs.Asked.{IsStop, not_wanted_at, part_of, same};
ghost use Rattle.cxx_reading.specs.Paths as definition;
ghost use Rattle.cxx_reading.specs.Paths.{ambiguous_at, place_of_fact, wrong_kind_at};
ghost use Rattle.cxx_reading.specs.Seen.{fact_numbers, numbered_at, place_of_first};
ghost use Rattle.cxx_reading.specs.Trees.{last_part};
ghost use Rattle.cxx_tree.specs.Arena.{path_at, path_part_at, path_parts_at};
ghost use Rattle.cxx_tree.specs.Held.{meaning};

use crate::last::{last_place, last_word};
use cxx_found::Found;
use cxx_graph::Graph;
use cxx_model::{
    Evidence, EvidenceList, Fact, FactId, Fault, FaultText, Hit, Listed, MemberFound, Path,
    PathPart, Place, Stop, Word,
};
use cxx_tree::State;
use std::alloc::{AllocError, Global};

// A declaration by its number.
pub(crate) fn fact_of(graph: &Graph, number: FactId) -> Option<&Fact>
    ensures { option_copied result ≡ slice_get graph.now.facts number.0 }
{
    graph.facts().get(number.0 as usize)
}

/// Where a declaration stands.
#[tactic(auto, using(crate::proofs::Places::place_there, crate::proofs::Places::place_none))]
pub fn place_of(graph: &Graph, number: FactId) -> Place
    ensures { (types : List CxxType) → result ≡ place_of_fact (graph_at types graph.now) number.0 }
{
    match fact_of(graph, number) {
        Some(fact) => fact.place,
        None => Place { line: 0, column: 0 },
    }
}

// Where the first of some declarations stands.
fn first_place(graph: &Graph, numbers: &[FactId]) -> Option<Place>
    ensures { (types : List CxxType) → result ≡ place_of_first (numbered_at (graph_at types graph.now) (fact_numbers numbers.now)) }
{
    for number in numbers {
        if let Some(fact) = fact_of(graph, *number) {
            return Some(fact.place);
        }
    }
    None
}

/// Where the first of some declarations stands.
#[tactic(auto, unfolding(cxx_tree::specs::Held::meaning))]
pub fn place_among(state: &State, numbers: &[FactId]) -> Option<Place>
    ensures { result ≡ place_of_first (numbered_at (meaning state.now).graph (fact_numbers numbers.now)) }
{
    first_place(state.graph(), numbers)
}

// ---- evidence

fn found(alloc: Global, other: Place) -> Result<EvidenceList, AllocError>
    ensures { IfOk result (λ evidence. evidence ≡ evidence_of.Found other ∷ []) }
{
    let mut evidence = EvidenceList::new(alloc);
    evidence.push(Evidence::Found(other))?;
    Ok(evidence)
}

fn found_both(alloc: Global, one: Place, two: Place) -> Result<EvidenceList, AllocError>
    ensures { IfOk result (λ evidence. evidence ≡ evidence_of.Found one ∷ evidence_of.Found two ∷ []) }
{
    let mut evidence = found(alloc, one)?;
    evidence.push(Evidence::Found(two))?;
    Ok(evidence)
}

// A member with the positions of the bases that lead to it (10.2).
fn by_bases(alloc: Global, graph: &Graph, one: &Hit) -> Result<Evidence, AllocError>
    ensures { IfOk result (λ evidence. (types : List CxxType) → evidence ≡ definition.by_bases (graph_at types graph.now) one.now) }
{
    let path = Listed::from_slice(alloc, one.path.as_slice())?;
    Ok(Evidence::ByBases(Some(place_of(graph, one.fact)), path))
}

fn both_by_bases(
    alloc: Global,
    graph: &Graph,
    one: &Hit,
    two: &Hit,
) -> Result<EvidenceList, AllocError>
    ensures { IfOk result (λ all. (types : List CxxType) → all ≡ definition.by_bases (graph_at types graph.now) one.now ∷ definition.by_bases (graph_at types graph.now) two.now ∷ []) }
{
    let first = by_bases(alloc, graph, one)?;
    let second = by_bases(alloc, graph, two)?;
    let mut all = EvidenceList::new(alloc);
    all.push(first)?;
    all.push(second)?;
    Ok(all)
}

// ---- faults

fn fault_with(
    alloc: Global,
    place: Place,
    text: FaultText,
    evidence: EvidenceList,
) -> Result<Box<Fault>, AllocError>
    ensures { IfOk result (λ fault. fault.value ≡ record { place = place; text = text; evidence = evidence }) }
{
    let fault = Fault {
        place,
        text,
        evidence,
    };
    Ok(Box::new(alloc, fault)?)
}

fn undeclared_fault(alloc: Global, place: Place, word: &[u8]) -> Result<Box<Fault>, AllocError>
    ensures { IfOk result (λ fault. Faulty fault.value ≡ undeclared_at place word.now) }
{
    let word = Word::from_slice(alloc, word)?;
    fault_with(
        alloc,
        place,
        FaultText::UndeclaredName(word),
        EvidenceList::new(alloc),
    )
}

fn wrong_fault(
    alloc: Global,
    place: Place,
    word: &[u8],
    other: Place,
) -> Result<Box<Fault>, AllocError>
    ensures { IfOk result (λ fault. fault.value ≡ record { place = place; text = says.WrongKindOfName word.now; evidence = evidence_of.Found other ∷ [] }) }
{
    let word = Word::from_slice(alloc, word)?;
    let evidence = found(alloc, other)?;
    fault_with(alloc, place, FaultText::WrongKindOfName(word), evidence)
}

fn ambiguous_fault(
    alloc: Global,
    place: Place,
    word: &[u8],
    one: Place,
    two: Place,
) -> Result<Box<Fault>, AllocError>
    ensures { IfOk result (λ fault. fault.value ≡ record { place = place; text = says.AmbiguousName word.now; evidence = evidence_of.Found one ∷ evidence_of.Found two ∷ [] }) }
{
    let word = Word::from_slice(alloc, word)?;
    let evidence = found_both(alloc, one, two)?;
    fault_with(alloc, place, FaultText::AmbiguousName(word), evidence)
}

fn ambiguous_member_fault(
    graph: &Graph,
    alloc: Global,
    place: Place,
    word: &[u8],
    one: &Hit,
    two: &Hit,
) -> Result<Box<Fault>, AllocError>
    ensures { IfOk result (λ fault. (types : List CxxType) → Faulty fault.value ≡ definition.ambiguous_member_at (graph_at types graph.now) (part_of place word.now) one.now two.now) }
{
    let word = Word::from_slice(alloc, word)?;
    let evidence = both_by_bases(alloc, graph, one, two)?;
    fault_with(alloc, place, FaultText::AmbiguousName(word), evidence)
}

// ---- at a word

/// At a word that is not declared (3.4).
pub fn undeclared(state: &State, place: Place, word: &[u8]) -> Stop
    ensures { IsStop (undeclared_at place word.now) result }
{
    match undeclared_fault(state.alloc(), place, word) {
        Ok(fault) => Stop::Fault(fault),
        Err(_) => Stop::OutOfMemory,
    }
}

/// At a word that means another thing than what may stand there, given where that is declared.
pub fn wrong_kind(state: &State, place: Place, word: &[u8], other: Place) -> Stop
    ensures { IsStop (wrong_kind_at (part_of place word.now) other) result }
{
    match wrong_fault(state.alloc(), place, word, other) {
        Ok(fault) => Stop::Fault(fault),
        Err(_) => Stop::OutOfMemory,
    }
}

/// At a word that means nothing of what is wanted, given where the first of its declarations stands.
pub fn not_wanted(state: &State, place: Place, word: &[u8], first: Option<Place>) -> Stop
    ensures { IsStop (not_wanted_at (part_of place word.now) first) result }
{
    match first {
        None => undeclared(state, place, word),
        Some(other) => wrong_kind(state, place, word, other),
    }
}

/// At a part before `::` that means nothing which may stand there (3.4.3).
#[tactic(auto, using(crate::proofs::Places::not_held))]
pub(crate) fn not_held(state: &State, part: &PathPart, numbers: &[FactId]) -> Stop
    ensures { IsStop (definition.not_held (path_part_at part.now) (numbered_at (meaning state.now).graph (fact_numbers numbers.now))) result }
{
    not_wanted(
        state,
        part.place,
        part.word.as_slice(),
        place_among(state, numbers),
    )
}

/// The same of the last of some parts.
#[tactic(auto, using(crate::proofs::Places::not_held))]
pub(crate) fn last_not_held(state: &State, parts: &[PathPart], numbers: &[FactId]) -> Stop
    ensures { IsStop (definition.not_held (last_part (path_parts_at parts.now)) (numbered_at (meaning state.now).graph (fact_numbers numbers.now))) result }
{
    not_wanted(
        state,
        last_place(parts),
        last_word(parts),
        place_among(state, numbers),
    )
}

/// At a word that means two declarations of which none hides the other (3.4).
#[tactic(auto, unfolding(cxx_tree::specs::Held::meaning))]
pub fn ambiguous(state: &State, place: Place, word: &[u8], one: FactId, two: FactId) -> Stop
    ensures { IsStop (ambiguous_at (meaning state.now).graph (part_of place word.now) one two) result }
{
    let first = place_of(state.graph(), one);
    let second = place_of(state.graph(), two);
    match ambiguous_fault(state.alloc(), place, word, first, second) {
        Ok(fault) => Stop::Fault(fault),
        Err(_) => Stop::OutOfMemory,
    }
}

/// At a word that means two members of a class that do not go together (10.2).
#[tactic(auto, unfolding(cxx_tree::specs::Held::meaning))]
pub fn ambiguous_member(state: &State, place: Place, word: &[u8], one: &Hit, two: &Hit) -> Stop
    ensures { IsStop (definition.ambiguous_member_at (meaning state.now).graph (part_of place word.now) one.now two.now) result }
{
    match ambiguous_member_fault(state.graph(), state.alloc(), place, word, one, two) {
        Ok(fault) => Stop::Fault(fault),
        Err(_) => Stop::OutOfMemory,
    }
}

/// What is found of a word is not ambiguous (3.4, 10.2).
#[tactic(auto, using(crate::proofs::Stopping::stops_at))]
pub fn unambiguous(state: &State, place: Place, word: &[u8], found: &Found) -> Result<(), Stop>
    ensures { Gives same result (definition.unambiguous (meaning state.now).graph (part_of place word.now) found.now) }
{
    match found {
        Found::Set(_) => Ok(()),
        Found::Empty => Ok(()),
        Found::Ambiguous(one, two) => Err(ambiguous(state, place, word, *one, *two)),
        Found::Member(_, of) => match of {
            MemberFound::Empty => Ok(()),
            MemberFound::Set(_, _) => Ok(()),
            MemberFound::Ambiguous(one, two) => {
                Err(ambiguous_member(state, place, word, one, two))
            }
        },
    }
}

// ---- at a name, whose last part is told

/// What is found of a name is not ambiguous (3.4, 10.2).
pub fn unambiguous_name(state: &State, path: &Path, found: &Found) -> Result<(), Stop>
    ensures { Gives same result (definition.unambiguous (meaning state.now).graph (last_part (path_at path.now).parts) found.now) }
{
    let parts = path.parts.as_slice();
    unambiguous(state, last_place(parts), last_word(parts), found)
}

/// At a name that is not declared (3.4).
pub fn undeclared_name(state: &State, path: &Path) -> Stop
    ensures { IsStop (undeclared_at (last_part (path_at path.now).parts).place (last_part (path_at path.now).parts).word) result }
{
    let parts = path.parts.as_slice();
    undeclared(state, last_place(parts), last_word(parts))
}

/// At a name that means another thing than what may stand there, given where that is declared.
pub fn wrong_name(state: &State, path: &Path, other: Place) -> Stop
    ensures { IsStop (wrong_kind_at (last_part (path_at path.now).parts) other) result }
{
    let parts = path.parts.as_slice();
    wrong_kind(state, last_place(parts), last_word(parts), other)
}

/// At a name that means nothing of what is wanted, given where the first of its declarations stands.
pub fn not_wanted_name(state: &State, path: &Path, first: Option<Place>) -> Stop
    ensures { IsStop (not_wanted_at (last_part (path_at path.now).parts) first) result }
{
    match first {
        None => undeclared_name(state, path),
        Some(other) => wrong_name(state, path, other),
    }
}

/// At a name that means two declarations of which none hides the other (3.4).
pub fn ambiguous_name(state: &State, path: &Path, one: FactId, two: FactId) -> Stop
    ensures { IsStop (ambiguous_at (meaning state.now).graph (last_part (path_at path.now).parts) one two) result }
{
    let parts = path.parts.as_slice();
    ambiguous(state, last_place(parts), last_word(parts), one, two)
}
