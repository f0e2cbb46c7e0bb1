//! What names mean to a reader (3.4.1, 3.4.3, 3.4.4, 7.1.3).

ghost use Rattle.std.specs.Prelude.{◌≡◌, ◌<◌, Ok, IfOk, IfSome, option_map};
ghost use Rattle.cxx_meaning.specs.Lookups.Wanted.{types_only};
ghost use Rattle.cxx_model.specs.Facts.Declarations.{spelled};
ghost use Rattle.cxx_model.specs.Facts.Graph.{enumerations};
ghost use Rattle.cxx_model.specs.Types.Trees.{enumeration};
ghost use Rattle.cxx_names.specs.Looked.{enumeration_number};
ghost use Rattle.cxx_reading.specs.Declaring.{elaborated_by, enumeration_in};
ghost use Rattle.cxx_reading.specs.Paths.{found_of as found_of_name, name_in, sought_in};
ghost use Rattle.cxx_reading.specs.Seen.{fact_numbers, found as found_from, kind_of_found, numbered_at, type_in};
ghost use Rattle.cxx_model.specs.declared.token.TokenKind.{TokenKind};
ghost use Rattle.cxx_reading.specs.Declaring as declaring;
ghost use Rattle.cxx_reading.specs.Specifiers.{path_of};
ghost use Rattle.cxx_reading.specs.Trees.{last_part};
ghost use Rattle.cxx_declare.specs.Made.{IsTypeThere, token};
ghost use Rattle.cxx_tree.specs.Answered.{AnyKnown, IsAnswered, itself};
ghost use Rattle.cxx_tree.specs.Arena.{path_at};
ghost use Rattle.cxx_tree.specs.Held.{meaning, type_of};
ghost use Rattle.cxx_model.specs.declared.place.Place.{Place as OnePlace};

use cxx_found::{Found, Wanted, found};
use cxx_model::{EnumId, FactId, FactList, Kind, OutOfMemory, Path, Stop, TypeId};
use cxx_names::{first_enumeration, kind_of_found as kind_of};
use cxx_paths::{
    found_of, name_sought, not_wanted_name, place_among, region_here, set_in, unambiguous_name,
};
use cxx_reading::Region;
use cxx_tree::State;

// The entities that a word means where the reader stands (3.4.1).
#[tactic(auto, unfolding(cxx_tree::specs::Held::meaning))]
fn found_here(state: &State, word: &[u8]) -> Result<FactList, OutOfMemory>
    ensures { IfOk result (λ numbers. numbered_at (meaning state.now).graph (fact_numbers numbers) ≡ found_from (meaning state.now).graph (meaning state.now).here.scope (spelled word.now)) }
{
    found(
        state.alloc(),
        state.names(),
        state.graph(),
        state.types(),
        state.scope(),
        word,
    )
}

// ---- kinds

#[tactic(auto, unfolding(cxx_tree::specs::Held::meaning))]
fn kind_among(state: &State, numbers: &[FactId]) -> Kind
    ensures { result ≡ kind_of_found (meaning state.now).graph (numbered_at (meaning state.now).graph (fact_numbers numbers.now)) }
{
    kind_of(state.graph(), numbers)
}

fn kind_here(state: &State, word: &[u8]) -> Result<Kind, OutOfMemory>
    ensures { IfOk result (λ kind. kind ≡ kind_of_found (meaning state.now).graph (found_from (meaning state.now).graph (meaning state.now).here.scope (spelled word.now))) }
{
    let numbers = found_here(state, word)?;
    Ok(kind_among(state, numbers.as_slice()))
}

/// What a name without qualifiers is where the reader stands (3.3.7, 3.4.1).
pub fn kind(state: &State, word: &[u8]) -> Result<Kind, Stop>
    ensures { (one : TokenKind) (place : OnePlace) → IsAnswered itself AnyKnown state.now state.now result (declaring.kind_here (path_of (token one place word.now)) (meaning state.now)) }
{
    match kind_here(state, word) {
        Ok(kind) => Ok(kind),
        Err(_) => Err(Stop::OutOfMemory),
    }
}

fn kind_there(state: &State, path: &Path) -> Result<Kind, OutOfMemory>
    ensures { IfOk result (λ kind. kind ≡ kind_of_found (meaning state.now).graph (found_of_name (meaning state.now).graph (meaning state.now).here.scope (path_at path.now))) }
{
    let numbers = found_of(state, path)?;
    Ok(kind_among(state, numbers.as_slice()))
}

/// What a name with its qualifiers is where the reader stands (3.3.7, 3.4.3).
#[tactic(auto, using(cxx_tree::proofs::Steps::Later_refl), unfolding(cxx_reading::specs::Declaring::kind_here))]
pub fn kind_of_name(state: &State, path: &Path) -> Result<Kind, Stop>
    ensures { IsAnswered itself AnyKnown state.now state.now result (declaring.kind_here (path_at path.now) (meaning state.now)) }
{
    match kind_there(state, path) {
        Ok(kind) => Ok(kind),
        Err(_) => Err(Stop::OutOfMemory),
    }
}

// ---- types

// The type that declarations that were found name.
fn type_among(state: &mut State, numbers: &[FactId]) -> Result<TypeId, Stop>
    ensures { IsAnswered type_of IsTypeThere state.old state.new result (Ok (type_in (numbered_at (meaning state.old).graph (fact_numbers numbers.now)), meaning state.old)) }
{
    match state.type_named(numbers) {
        Ok(number) => Ok(number),
        Err(_) => Err(Stop::OutOfMemory),
    }
}

/// The type that a name without qualifiers means where the reader stands (7.1.3).
pub fn type_named(state: &mut State, word: &[u8]) -> Result<TypeId, Stop>
    ensures { (one : TokenKind) (place : OnePlace) → IsAnswered type_of IsTypeThere state.old state.new result (declaring.type_here (path_of (token one place word.now)) (meaning state.old)) }
{
    match found_here(state, word) {
        Ok(numbers) => type_among(state, numbers.as_slice()),
        Err(_) => Err(Stop::OutOfMemory),
    }
}

/// The type that a name with its qualifiers means where the reader stands (7.1.3).
pub fn type_of_name(state: &mut State, path: &Path) -> Result<TypeId, Stop>
    ensures { IsAnswered type_of IsTypeThere state.old state.new result (declaring.type_here (path_at path.now) (meaning state.old)) }
{
    match found_of(state, path) {
        Ok(numbers) => type_among(state, numbers.as_slice()),
        Err(_) => Err(Stop::OutOfMemory),
    }
}

// ---- behind `enum`

fn enumeration_type(state: &mut State, number: EnumId) -> Result<TypeId, Stop>
    requires { number.0 < enumerations (state.old).graph.facts }
    ensures { IsAnswered type_of IsTypeThere state.old state.new result (Ok (enumeration number.0, meaning state.old)) }
{
    match state.enumeration_type(number) {
        Ok(of) => Ok(of),
        Err(_) => Err(Stop::OutOfMemory),
    }
}

// The first enumeration among declarations that were found.
fn enumeration_among(state: &State, numbers: &[FactId]) -> Option<EnumId>
    ensures is { option_map enumeration_number result ≡ enumeration_in (numbered_at (meaning state.now).graph (fact_numbers numbers.now)) }
    ensures there { IfSome result (λ number. number.0 < enumerations (state.now).graph.facts) }
{
    let graph = state.graph();
    graph.in_range();
    first_enumeration(graph, numbers)
}

// Those of types, where a name behind `enum` means no two.
fn elaborated_among(state: &mut State, path: &Path, numbers: &[FactId]) -> Result<TypeId, Stop>
    ensures { IsAnswered type_of IsTypeThere state.old state.new result (elaborated_by (last_part (path_at path.now).parts) (numbered_at (meaning state.old).graph (fact_numbers numbers.now)) (enumeration_in (numbered_at (meaning state.old).graph (fact_numbers numbers.now))) (meaning state.old)) }
{
    match enumeration_among(state, numbers) {
        Some(number) => enumeration_type(state, number),
        None => Err(not_wanted_name(state, path, place_among(state, numbers))),
    }
}

#[tactic(auto, using(cxx_paths::proofs::Stopping::clear_then, cxx_paths::proofs::Stopping::clear_stopped))]
fn elaborated_found(state: &mut State, path: &Path, found: &Found) -> Result<TypeId, Stop>
    ensures { IsAnswered type_of IsTypeThere state.old state.new result (declaring.elaborated_found (last_part (path_at path.now).parts) found.now (meaning state.old)) }
{
    match unambiguous_name(state, path, found) {
        Ok(()) => elaborated_among(state, path, set_in(found)),
        Err(stop) => Err(stop),
    }
}

fn elaborated_in(state: &mut State, path: &Path, region: Region) -> Result<TypeId, Stop>
    ensures { IsAnswered type_of IsTypeThere state.old state.new result (declaring.elaborated_found (last_part (path_at path.now).parts) (sought_in (meaning state.old).graph types_only region (name_in (path_at path.now))) (meaning state.old)) }
{
    match name_sought(state, Wanted::Types, region, path) {
        Ok(found) => elaborated_found(state, path, &found),
        Err(_) => Err(Stop::OutOfMemory),
    }
}

/// The enumeration that a name behind `enum` means (3.4.4, 7.1.5.3).
#[tactic(auto, using(cxx_paths::proofs::Stopping::region_then, cxx_paths::proofs::Stopping::region_stopped), unfolding(cxx_reading::specs::Declaring::elaborated_here))]
pub fn elaborated(state: &mut State, path: &Path) -> Result<TypeId, Stop>
    ensures { IsAnswered type_of IsTypeThere state.old state.new result (declaring.elaborated_here (path_at path.now) (meaning state.old)) }
{
    match region_here(state, path) {
        Ok(region) => elaborated_in(state, path, region),
        Err(stop) => Err(stop),
    }
}
