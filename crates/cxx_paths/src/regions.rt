//! Where the last part of a name is looked up (3.4.1, 3.4.3).

ghost use Rattle.std.specs.Prelude.{◌≡◌, ◌<◌, [], length, true, IfOk};
ghost use Rattle.cxx_meaning.specs.Lookups.Wanted.{before_colons};
ghost use Rattle.cxx_members.specs.Views.{wanted_at};
ghost use Rattle.cxx_model.specs.Facts.Declarations.{spelled};
ghost use Rattle.cxx_model.specs.Stops.{Gives};
ghost use Rattle.cxx_paths.specs.Asked.{IsRegionThere, same};
ghost use Rattle.cxx_paths.specs.Behind as behind;
ghost use Rattle.cxx_paths.specs.Behind.{IsClassThere};
ghost use Rattle.cxx_paths.specs.Using as using;
ghost use Rattle.cxx_paths.specs.Using.{qualifiers as qualifiers_of};
ghost use Rattle.cxx_reading.specs.Paths as definition;
ghost use Rattle.cxx_reading.specs.Paths.{class_if as class_if_of, first_meant, first_region as first_region_of, holder_by as holder_of, scope_of_region};
ghost use Rattle.cxx_reading.specs.declared.region.Region.TheVariants.{Class as ClassRegion};
ghost use Rattle.cxx_reading.specs.Seen.{fact_numbers, numbered_at};
ghost use Rattle.cxx_reading.specs.Trees.{last_part};
ghost use Rattle.cxx_tree.specs.Arena.{path_at, path_part_at, path_parts_at};
ghost use Rattle.cxx_tree.specs.Held.{meaning};

use crate::classes::class_if;
use crate::faults::{last_not_held, not_held, unambiguous};
use crate::last::{last_place, last_word};
use crate::seeking::{set_in, sought_in};
use crate::spaces::space_among;
use cxx_found::{Found, Wanted};
use cxx_model::{ClassId, FactId, MemberFound, OutOfMemory, Path, PathPart, ScopeId, Stop};
use cxx_reading::Region;
use cxx_tree::State;

/// The scope of a region; that of the unit for the members of a class.
pub fn scope_of(region: Region) -> ScopeId
    ensures { result.0 ≡ scope_of_region region }
{
    match region {
        Region::Outward(scope) => scope,
        Region::Inside(space) => space,
        Region::Class(_) => ScopeId(0),
    }
}

// Where the members of a class are looked up.
fn in_class(state: &State, class: ClassId) -> Region
    requires { class.0 < length (state.now).graph.classes }
    ensures is { result ≡ ClassRegion class }
    ensures there { IsRegionThere state.now result }
    ensures class { IsClassThere (state.now).graph result }
{
    let _scope = state.scope();
    Region::Class(class)
}

// The class among what a part before `::` means, where one may stand there.
fn held_in_class(
    state: &State,
    part: &PathPart,
    classes: bool,
    numbers: &[FactId],
) -> Result<Region, Stop>
    ensures is { Gives same result (definition.held_in_class (path_part_at part.now) (numbered_at (meaning state.now).graph (fact_numbers numbers.now)) (class_if_of classes (first_meant (numbered_at (meaning state.now).graph (fact_numbers numbers.now))))) }
    ensures there { IfOk result (IsRegionThere state.now) }
    ensures class { IfOk result (IsClassThere (state.now).graph) }
{
    match class_if(state, classes, numbers) {
        Some(class) => Ok(in_class(state, class)),
        None => Err(not_held(state, part, numbers)),
    }
}

// The namespace or the class among what a part before `::` means.
fn held_among(
    state: &State,
    part: &PathPart,
    classes: bool,
    numbers: &[FactId],
) -> Result<Region, Stop>
    ensures is { Gives same result (definition.held_among (path_part_at part.now) classes (numbered_at (meaning state.now).graph (fact_numbers numbers.now))) }
    ensures there { IfOk result (IsRegionThere state.now) }
    ensures class { IfOk result (IsClassThere (state.now).graph) }
{
    match space_among(state, numbers) {
        Some(inner) => Ok(Region::Inside(inner)),
        None => held_in_class(state, part, classes, numbers),
    }
}

// The same of what was found.
#[tactic(auto, using(crate::proofs::Stopping::clear_gives, crate::proofs::Stopping::stopped_on))]
fn holder_by(state: &State, part: &PathPart, classes: bool, found: &Found) -> Result<Region, Stop>
    ensures is { Gives same result (holder_of (meaning state.now).graph classes (path_part_at part.now) found.now) }
    ensures there { IfOk result (IsRegionThere state.now) }
    ensures class { IfOk result (IsClassThere (state.now).graph) }
{
    match unambiguous(state, part.place, part.word.as_slice(), found) {
        Ok(()) => held_among(state, part, classes, set_in(found)),
        Err(stop) => Err(stop),
    }
}

// The namespace or the class that a part before `::` means in a region, of what may stand there.
#[tactic(auto, unfolding(cxx_reading::specs::Paths::holder))]
fn holder(
    state: &State,
    wanted: Wanted,
    classes: bool,
    region: Region,
    part: &PathPart,
) -> Result<Region, Stop>
    ensures is { Gives same result (definition.holder (meaning state.now).graph (wanted_at wanted) classes region (path_part_at part.now)) }
    ensures there { IfOk result (IsRegionThere state.now) }
    ensures class { IfOk result (IsClassThere (state.now).graph) }
{
    match sought_in(state, wanted, region, part.word.as_slice()) {
        Ok(found) => holder_by(state, part, classes, &found),
        Err(_) => Err(Stop::OutOfMemory),
    }
}

// Where the last of some parts is looked up, by the region of the first, by what may stand before `::`, and by whether a class
// may.
#[tactic(auto, using(crate::proofs::Behind::region_whole, crate::proofs::Behind::region_none, crate::proofs::Behind::region_goes, crate::proofs::Behind::region_ends))]
fn region_by(
    state: &State,
    wanted: Wanted,
    classes: bool,
    first: Region,
    parts: &[PathPart],
) -> Result<Region, Stop>
    requires there { IsRegionThere state.now first }
    requires class { IsClassThere (state.now).graph first }
    ensures is { Gives same result (definition.region_by (meaning state.now).graph (wanted_at wanted) classes first (path_parts_at parts.now)) }
    ensures there { IfOk result (IsRegionThere state.now) }
    ensures class { IfOk result (IsClassThere (state.now).graph) }
{
    let mut region = first;
    let mut rest = parts;
    while let [part, others @ ..] = rest {
        if others.is_empty() {
            return Ok(region);
        }
        match holder(state, wanted, classes, region, part) {
            Ok(inner) => region = inner,
            Err(stop) => return Err(stop),
        }
        rest = others;
    }
    Ok(region)
}

// Behind `::` alone a name is one of the scope of the unit (3.4.3).
#[tactic(auto, unfolding(cxx_tree::specs::Held::meaning))]
fn first_region(state: &State, global: bool) -> Region
    ensures is { result ≡ first_region_of (meaning state.now).here.scope global }
    ensures there { IsRegionThere state.now result }
    ensures class { IsClassThere (state.now).graph result }
{
    let scope = state.scope();
    if global {
        Region::Inside(ScopeId(0))
    } else {
        Region::Outward(scope)
    }
}

/// Where the last part of a name is looked up that stands where the reader stands. It stops at the first part before `::` that
/// means neither a namespace nor a class.
#[tactic(auto, unfolding(cxx_reading::specs::Paths::region_of))]
pub fn region_here(state: &State, path: &Path) -> Result<Region, Stop>
    ensures is { Gives same result (definition.region_of (meaning state.now).graph (meaning state.now).here.scope (path_at path.now)) }
    ensures there { IfOk result (IsRegionThere state.now) }
    ensures class { IfOk result (IsClassThere (state.now).graph) }
{
    region_by(
        state,
        Wanted::Holders,
        true,
        first_region(state, path.global),
        path.parts.as_slice(),
    )
}

/// The same of the name of a namespace in a using-directive or an alias, of which each part is one of a namespace (3.4.6).
#[tactic(auto, unfolding(cxx_reading::specs::Paths::space_region_of))]
pub fn space_region_here(state: &State, path: &Path) -> Result<Region, Stop>
    ensures is { Gives same result (definition.space_region_of (meaning state.now).graph (meaning state.now).here.scope (path_at path.now)) }
    ensures there { IfOk result (IsRegionThere state.now) }
    ensures class { IfOk result (IsClassThere (state.now).graph) }
{
    region_by(
        state,
        Wanted::Spaces,
        false,
        first_region(state, path.global),
        path.parts.as_slice(),
    )
}

/// The same of a name that a using-declaration outside of classes brings, of which no part is one of a class (7.3.3).
#[tactic(auto, unfolding(cxx_reading::specs::Paths::using_region_of))]
pub fn using_region_here(state: &State, path: &Path) -> Result<Region, Stop>
    ensures is { Gives same result (definition.using_region_of (meaning state.now).graph (meaning state.now).here.scope (path_at path.now)) }
    ensures there { IfOk result (IsRegionThere state.now) }
    ensures class { IfOk result (IsClassThere (state.now).graph) }
{
    region_by(
        state,
        Wanted::Holders,
        false,
        first_region(state, path.global),
        path.parts.as_slice(),
    )
}

// ---- behind an object

// Where the first of several parts is looked up, given what the class of the object has of it.
#[tactic(auto, unfolding(cxx_tree::specs::Held::meaning))]
fn first_found(state: &State, class: ClassId, found: &Found) -> Region
    requires { class.0 < length (state.now).graph.classes }
    ensures is { result ≡ behind.first_found (meaning state.now).here.scope class found.now }
    ensures there { IsRegionThere state.now result }
    ensures class { IsClassThere (state.now).graph result }
{
    let outward = Region::Outward(state.scope());
    match found {
        Found::Empty => outward,
        Found::Set(_) => in_class(state, class),
        Found::Ambiguous(_, _) => in_class(state, class),
        Found::Member(_, of) => match of {
            MemberFound::Empty => outward,
            MemberFound::Set(_, _) => in_class(state, class),
            MemberFound::Ambiguous(_, _) => in_class(state, class),
        },
    }
}

fn first_of_several(state: &State, class: ClassId, part: &PathPart) -> Result<Region, OutOfMemory>
    requires { class.0 < length (state.now).graph.classes }
    ensures is { IfOk result (λ first. first ≡ behind.first_found (meaning state.now).here.scope class (definition.sought_in (meaning state.now).graph before_colons (ClassRegion class) (spelled (path_part_at part.now).word))) }
    ensures there { IfOk result (IsRegionThere state.now) }
    ensures class { IfOk result (IsClassThere (state.now).graph) }
{
    let word = part.word.as_slice();
    let found = sought_in(state, Wanted::Holders, Region::Class(class), word)?;
    Ok(first_found(state, class, &found))
}

fn first_of(state: &State, class: ClassId, parts: &[PathPart]) -> Result<Region, OutOfMemory>
    requires { class.0 < length (state.now).graph.classes }
    ensures is { IfOk result (λ first. first ≡ behind.first_of (meaning state.now).graph (meaning state.now).here.scope class (path_parts_at parts.now)) }
    ensures there { IfOk result (IsRegionThere state.now) }
    ensures class { IfOk result (IsClassThere (state.now).graph) }
{
    match parts {
        [part, _, ..] => first_of_several(state, class, part),
        _ => Ok(in_class(state, class)),
    }
}

fn first_behind(state: &State, class: ClassId, path: &Path) -> Result<Region, OutOfMemory>
    requires { class.0 < length (state.now).graph.classes }
    ensures is { IfOk result (λ first. first ≡ behind.first_behind (meaning state.now).graph (meaning state.now).here.scope class (path_at path.now).global (path_at path.now).parts) }
    ensures there { IfOk result (IsRegionThere state.now) }
    ensures class { IfOk result (IsClassThere (state.now).graph) }
{
    if path.global {
        return Ok(first_region(state, true));
    }
    first_of(state, class, path.parts.as_slice())
}

/// Where the last part of a name is looked up that stands behind an object of a class (3.4.5). It stops at the first part
/// before `::` that means neither a namespace nor a class.
#[tactic(auto, unfolding(crate::specs::Behind::region_behind))]
pub fn region_behind(state: &State, class: ClassId, path: &Path) -> Result<Region, Stop>
    requires { class.0 < length (state.now).graph.classes }
    ensures is { Gives same result (behind.region_behind (meaning state.now).graph (meaning state.now).here.scope class (path_at path.now)) }
    ensures there { IfOk result (IsRegionThere state.now) }
    ensures class { IfOk result (IsClassThere (state.now).graph) }
{
    match first_behind(state, class, path) {
        Ok(first) => region_by(state, Wanted::Holders, true, first, path.parts.as_slice()),
        Err(_) => Err(Stop::OutOfMemory),
    }
}

// ---- in a using-declaration of a class

// The class among what the last of some parts means.
fn class_held(state: &State, parts: &[PathPart], numbers: &[FactId]) -> Result<Region, Stop>
    ensures is { Gives same result (definition.held_in_class (last_part (path_parts_at parts.now)) (numbered_at (meaning state.now).graph (fact_numbers numbers.now)) (class_if_of true (first_meant (numbered_at (meaning state.now).graph (fact_numbers numbers.now))))) }
    ensures there { IfOk result (IsRegionThere state.now) }
    ensures class { IfOk result (IsClassThere (state.now).graph) }
{
    match class_if(state, true, numbers) {
        Some(class) => Ok(in_class(state, class)),
        None => Err(last_not_held(state, parts, numbers)),
    }
}

#[tactic(auto, using(crate::proofs::Stopping::clear_gives, crate::proofs::Stopping::stopped_on))]
fn class_found(state: &State, parts: &[PathPart], found: &Found) -> Result<Region, Stop>
    ensures is { Gives same result (using.class_found (meaning state.now).graph (last_part (path_parts_at parts.now)) found.now) }
    ensures there { IfOk result (IsRegionThere state.now) }
    ensures class { IfOk result (IsClassThere (state.now).graph) }
{
    match unambiguous(state, last_place(parts), last_word(parts), found) {
        Ok(()) => class_held(state, parts, set_in(found)),
        Err(stop) => Err(stop),
    }
}

// The class that the last of some parts means in a region.
#[tactic(auto, unfolding(crate::specs::Using::class_of_part))]
fn class_of_last(state: &State, region: Region, parts: &[PathPart]) -> Result<Region, Stop>
    ensures is { Gives same result (using.class_of_part (meaning state.now).graph region (last_part (path_parts_at parts.now))) }
    ensures there { IfOk result (IsRegionThere state.now) }
    ensures class { IfOk result (IsClassThere (state.now).graph) }
{
    match sought_in(state, Wanted::Holders, region, last_word(parts)) {
        Ok(found) => class_found(state, parts, &found),
        Err(_) => Err(Stop::OutOfMemory),
    }
}

// Behind `::` alone a name is none of a class.
#[tactic(auto, using(crate::proofs::Stopping::clear_gives, crate::proofs::Stopping::stopped_on))]
fn none_found(state: &State, parts: &[PathPart], found: &Found) -> Result<Region, Stop>
    ensures is { Gives same result (using.none_behind (meaning state.now).graph (last_part (path_parts_at parts.now)) found.now) }
    ensures there { IfOk result (IsRegionThere state.now) }
    ensures class { IfOk result (IsClassThere (state.now).graph) }
{
    match unambiguous(state, last_place(parts), last_word(parts), found) {
        Ok(()) => Err(last_not_held(state, parts, set_in(found))),
        Err(stop) => Err(stop),
    }
}

fn no_member(state: &State, first: Region, parts: &[PathPart]) -> Result<Region, Stop>
    ensures is { Gives same result (using.members_behind (meaning state.now).graph first (last_part (path_parts_at parts.now)) []) }
    ensures there { IfOk result (IsRegionThere state.now) }
    ensures class { IfOk result (IsClassThere (state.now).graph) }
{
    match sought_in(state, Wanted::Any, first, last_word(parts)) {
        Ok(found) => none_found(state, parts, &found),
        Err(_) => Err(Stop::OutOfMemory),
    }
}

fn class_behind(state: &State, first: Region, parts: &[PathPart]) -> Result<Region, Stop>
    requires there { IsRegionThere state.now first }
    requires class { IsClassThere (state.now).graph first }
    ensures is { Gives same result (using.class_behind (meaning state.now).graph first (path_parts_at parts.now)) }
    ensures there { IfOk result (IsRegionThere state.now) }
    ensures class { IfOk result (IsClassThere (state.now).graph) }
{
    match region_by(state, Wanted::Holders, true, first, parts) {
        Ok(region) => class_of_last(state, region, parts),
        Err(stop) => Err(stop),
    }
}

// The parts before the last.
#[tactic(auto, using(crate::proofs::Using::qualifiers_are, crate::proofs::Using::qualifiers_none))]
fn qualifiers(parts: &[PathPart]) -> &[PathPart]
    ensures { path_parts_at result.now ≡ qualifiers_of (path_parts_at parts.now) }
{
    match parts {
        [before @ .., _] => before,
        [] => &[],
    }
}

#[tactic(auto, using(crate::proofs::Using::none_behind, crate::proofs::Using::some_behind))]
fn members_behind(state: &State, first: Region, parts: &[PathPart]) -> Result<Region, Stop>
    requires there { IsRegionThere state.now first }
    requires class { IsClassThere (state.now).graph first }
    ensures is { Gives same result (using.members_behind (meaning state.now).graph first (last_part (path_parts_at parts.now)) (qualifiers_of (path_parts_at parts.now))) }
    ensures there { IfOk result (IsRegionThere state.now) }
    ensures class { IfOk result (IsClassThere (state.now).graph) }
{
    let before = qualifiers(parts);
    if before.is_empty() {
        return no_member(state, first, parts);
    }
    class_behind(state, first, before)
}

/// Where the last part of a name is looked up that a using-declaration in a class brings, whose qualifiers mean a class (7.3.3).
/// It stops at the first part before `::` that means neither a namespace nor a class, at the last one where that means no
/// class, and at a name that stands behind `::` alone.
#[tactic(auto, unfolding(crate::specs::Using::member_region_of))]
pub fn member_region_here(state: &State, path: &Path) -> Result<Region, Stop>
    ensures is { Gives same result (using.member_region_of (meaning state.now).graph (meaning state.now).here.scope (path_at path.now)) }
    ensures there { IfOk result (IsRegionThere state.now) }
    ensures class { IfOk result (IsClassThere (state.now).graph) }
{
    members_behind(
        state,
        first_region(state, path.global),
        path.parts.as_slice(),
    )
}
