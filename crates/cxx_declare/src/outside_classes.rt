//! Classes that are defined outside of the class or the namespace that declares them, by names with qualifiers (9, 3.4.3).

ghost use Rattle.std.specs.Prelude.{◌≡◌, ◌<◌};
ghost use Rattle.cxx_declare.specs.OutsideClasses as definition;
ghost use Rattle.cxx_meaning.specs.Lookups.Wanted.{types_only};
ghost use Rattle.cxx_model.specs.Facts.Graph.{scopes};
ghost use Rattle.cxx_paths.specs.Asked.{IsRegionThere};
ghost use Rattle.cxx_model.specs.Facts.Declarations.{spelled};
ghost use Rattle.cxx_reading.specs.Classes.{first_class};
ghost use Rattle.cxx_reading.specs.Paths.{name_in, sought_in};
ghost use Rattle.cxx_reading.specs.Seen.{declared_in, fact_numbers, numbered_at};
ghost use Rattle.cxx_reading.specs.Trees.{last_part};
ghost use Rattle.cxx_tree.specs.Answered.{AnyKnown, IsAnswered, itself};
ghost use Rattle.cxx_tree.specs.Arena.{path_at};
ghost use Rattle.cxx_tree.specs.Held.{meaning};

use crate::classes::class_in;
use crate::outside::{scope_of_class, stand_in};
use cxx_found::{Found, Wanted};
use cxx_model::{FactId, Path, Place, ScopeId, Stop};
use cxx_paths::{
    last_word, name_sought, not_wanted_name, place_among, region_here, scope_of, set_in,
    unambiguous_name,
};
use cxx_reading::Region;
use cxx_tree::State;

// The scope of what declares the class.
fn scope_in(state: &State, region: Region) -> ScopeId
    requires { IsRegionThere state.now region }
    ensures is { result.0 ≡ definition.scope_in (meaning state.now).graph region }
    ensures there { result.0 < scopes (state.now).graph.facts }
{
    match region {
        Region::Class(class) => scope_of_class(state, class),
        Region::Outward(_) => scope_of(region),
        Region::Inside(_) => scope_of(region),
    }
}

// A class is declared in that scope itself, given where the first declaration of what the name means stands.
#[tactic(auto, using(cxx_paths::proofs::Stopping::stopped_at))]
fn entered_by(
    state: &mut State,
    path: &Path,
    scope: ScopeId,
    other: Option<Place>,
) -> Result<(), Stop>
    requires { scope.0 < scopes (state.old).graph.facts }
    ensures { IsAnswered itself AnyKnown state.old state.new result (definition.entered_by (last_part (path_at path.now).parts) scope.0 other (first_class (declared_in (meaning state.old).graph scope.0 (spelled (last_part (path_at path.now).parts).word))) (meaning state.old)) }
{
    match other {
        None => Err(not_wanted_name(state, path, None)),
        Some(other) => match class_in(state, scope, last_word(path.parts.as_slice())) {
            Some(_) => stand_in(state, scope),
            None => Err(not_wanted_name(state, path, Some(other))),
        },
    }
}

fn entered_in(
    state: &mut State,
    path: &Path,
    scope: ScopeId,
    targets: &[FactId],
) -> Result<(), Stop>
    requires { scope.0 < scopes (state.old).graph.facts }
    ensures { IsAnswered itself AnyKnown state.old state.new result (definition.entered_in (last_part (path_at path.now).parts) scope.0 (numbered_at (meaning state.old).graph (fact_numbers targets.now)) (meaning state.old)) }
{
    let other = place_among(state, targets);
    entered_by(state, path, scope, other)
}

#[tactic(auto, using(cxx_paths::proofs::Stopping::clear_then, cxx_paths::proofs::Stopping::clear_stopped))]
fn entered_found(state: &mut State, path: &Path, region: Region, found: &Found) -> Result<(), Stop>
    requires { IsRegionThere state.old region }
    ensures { IsAnswered itself AnyKnown state.old state.new result (definition.entered_found (last_part (path_at path.now).parts) region found.now (meaning state.old)) }
{
    match unambiguous_name(state, path, found) {
        Ok(()) => {
            let scope = scope_in(state, region);
            entered_in(state, path, scope, set_in(found))
        }
        Err(stop) => Err(stop),
    }
}

fn enter_in(state: &mut State, path: &Path, region: Region) -> Result<(), Stop>
    requires { IsRegionThere state.old region }
    ensures { IsAnswered itself AnyKnown state.old state.new result (definition.entered_found (last_part (path_at path.now).parts) region (sought_in (meaning state.old).graph types_only region (name_in (path_at path.now))) (meaning state.old)) }
{
    match name_sought(state, Wanted::Types, region, path) {
        Ok(found) => entered_found(state, path, region, &found),
        Err(_) => Err(Stop::OutOfMemory),
    }
}

/// The name of a class that is defined means one that its namespace or its class declares, where the reader stands then (9,
/// 3.4.3). It stops where a part of the name means nothing that may stand there, and where the last part means no class that
/// is declared there itself.
#[tactic(auto, using(cxx_paths::proofs::Stopping::region_then, cxx_paths::proofs::Stopping::region_stopped), unfolding(crate::specs::OutsideClasses::enter_class))]
pub fn enter_class(state: &mut State, path: &Path) -> Result<(), Stop>
    ensures { IsAnswered itself AnyKnown state.old state.new result (definition.enter_class (path_at path.now) (meaning state.old)) }
{
    match region_here(state, path) {
        Ok(region) => enter_in(state, path, region),
        Err(stop) => Err(stop),
    }
}
