//! Parts of declarations and of faults.

ghost use Rattle.std.specs.Prelude.{◌≡◌, ◌∷◌, [], List, IfOk};
ghost use Rattle.std.specs.List.{slice_get};
ghost use Rattle.std.specs.Option.{option_copied};
ghost use Rattle.cxx_model.specs.declared.evidence.Evidence.TheVariants.{Found};
ghost use Rattle.cxx_model.specs.declared.facts.Name.TheVariants.{Spelled};
ghost use Rattle.cxx_model.specs.declared.fault.FaultText.TheVariants as says;
ghost use Rattle.cxx_model.specs.Facts.Declarations.{facts_at};
ghost use Rattle.cxx_model.specs.Facts.Entities.{entity_by, of_fact};
ghost use Rattle.cxx_model.specs.Facts.Declarations.{declares_at};
ghost use Rattle.cxx_model.specs.Stops.{Faulty, fault as fault_of};
ghost use Rattle.cxx_model.specs.Types.Trees.{CxxType};
ghost use Rattle.cxx_defined.specs.Defined.{IsOwn, IsOwnEntity};
ghost use Rattle.cxx_paths.specs.Asked.{IsStop};
ghost use Rattle.cxx_reading.specs.Declaring.{conflicting_at, declares_by};
ghost use Rattle.cxx_declare.specs.Made.{IsNoClass, word_in};

use cxx_graph::Graph;
use cxx_model::{
    Entity, Evidence, EvidenceList, Fact, FactId, Fault, FaultText, Name, Place, Stop, TypeId, Word,
};
use std::alloc::{AllocError, Global};

/// The bytes of a name.
pub(crate) fn word_of(name: &Name) -> &[u8]
    ensures { result.now ≡ word_in name.now }
{
    match name {
        Name::Spelled(word) => word.as_slice(),
        _ => &[],
    }
}

/// The name that is spelled by a word.
pub(crate) fn spelled(alloc: Global, word: &[u8]) -> Result<Name, AllocError>
    ensures { IfOk result (λ name. name ≡ Spelled word.now) }
{
    Ok(Name::Spelled(Word::from_slice(alloc, word)?))
}

pub(crate) fn fact_of(graph: &Graph, number: FactId) -> Option<&Fact>
    ensures { option_copied result ≡ slice_get graph.now.facts number.0 }
{
    graph.facts().get(number.0 as usize)
}

/// The first declaration of what a fact with a number declares, where that is no class.
pub(crate) fn first_of(number: FactId, what: Entity) -> FactId
    requires { IsNoClass what }
    ensures { (types : List CxxType) → entity_by number.0 (declares_at types what) ≡ of_fact result.0 }
{
    match what {
        Entity::Object {
            first: Some(first),
            ..
        } => first,
        Entity::Function {
            first: Some(first),
            ..
        } => first,
        Entity::Template {
            first: Some(first),
            ..
        } => first,
        _ => number,
    }
}

/// What a fact declares that is there.
pub(crate) fn what_of(graph: &Graph, number: FactId) -> Entity
    requires { IsOwn (slice_get graph.now.facts number.0) }
    ensures is { IsOwnEntity result }
    ensures at { (types : List CxxType) → declares_by (slice_get (facts_at types graph.now.facts) number.0) ≡ declares_at types result }
{
    match fact_of(graph, number) {
        Some(fact) => fact.what,
        None => Entity::Synonym { of: TypeId(0) },
    }
}

// ---- faults

fn fault_with(
    alloc: Global,
    place: Place,
    text: FaultText,
    evidence: EvidenceList,
) -> Result<Box<Fault>, AllocError>
    ensures { IfOk result (λ fault. fault.value ≡ record { place = place; text = text; evidence = evidence }) }
{
    let fault = Fault {
        place,
        text,
        evidence,
    };
    Ok(Box::new(alloc, fault)?)
}

fn found(alloc: Global, other: Place) -> Result<EvidenceList, AllocError>
    ensures { IfOk result (λ evidence. evidence ≡ Found other ∷ []) }
{
    let mut evidence = EvidenceList::new(alloc);
    evidence.push(Evidence::Found(other))?;
    Ok(evidence)
}

/// A declaration conflicts with another (3.3).
pub(crate) fn conflicting(
    alloc: Global,
    place: Place,
    word: &[u8],
    other: Place,
) -> Result<Box<Fault>, AllocError>
    ensures { IfOk result (λ fault. Faulty fault.value ≡ conflicting_at place word.now other) }
{
    let word = Word::from_slice(alloc, word)?;
    let evidence = found(alloc, other)?;
    fault_with(
        alloc,
        place,
        FaultText::ConflictingDeclaration(word),
        evidence,
    )
}

/// No type holds a value (7.2).
pub(crate) fn overflow(alloc: Global, place: Place) -> Result<Box<Fault>, AllocError>
    ensures { IfOk result (λ fault. Faulty fault.value ≡ fault_of place says.ConstantOverflow) }
{
    fault_with(
        alloc,
        place,
        FaultText::ConstantOverflow,
        EvidenceList::new(alloc),
    )
}

fn incomplete_fault(alloc: Global, place: Place) -> Result<Box<Fault>, AllocError>
    ensures { IfOk result (λ fault. Faulty fault.value ≡ fault_of place says.IncompleteClass) }
{
    fault_with(
        alloc,
        place,
        FaultText::IncompleteClass,
        EvidenceList::new(alloc),
    )
}

/// A class has to be complete (9.2).
pub(crate) fn incomplete(alloc: Global, place: Place) -> Stop
    ensures { IsStop (fault_of place says.IncompleteClass) result }
{
    match incomplete_fault(alloc, place) {
        Ok(fault) => Stop::Fault(fault),
        Err(_) => Stop::OutOfMemory,
    }
}
