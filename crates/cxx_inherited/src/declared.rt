//! What a name means among the declarations of one class (3.3.7, 7.3.3).

ghost use Rattle.std.specs.Prelude.{◌≡◌, ◌<◌, ◌&&◌, true, [], ◌∷◌, length, map, filter, not, OnOk, IfOk};
ghost use Rattle.std.specs.List.{list_any};
ghost use Rattle.cxx_model.specs.Types.Numbers.{type_at, types_at, AreTypesBelow};
ghost use Rattle.cxx_model.specs.Types.Same.{same_bool as same_bool_of, same_types as same_types_of};
ghost use Rattle.cxx_model.specs.Facts.Conflicts.{same_parameters as same_parameter_lists};
ghost use Rattle.cxx_model.specs.Facts.Declarations.{declares_at};
ghost use Rattle.cxx_model.specs.Facts.Fitted.{IsEntityBelow};
ghost use Rattle.cxx_meaning.specs.Lookups.Member.{declared_in as declared_in_class, is_redeclared as is_one_redeclared, is_redeclared_by as is_one_redeclared_by, not_redeclared as not_redeclared_of, same_lists as have_same_lists};
ghost use Rattle.cxx_members.specs.Sighted.{Adds, AreBelow, sighting_at};
ghost use Rattle.cxx_inherited.specs.Views.{IsSeeking, graph_of, name_of, types_of, wanted_of};

use crate::seeking::Seeking;
use cxx_members::Sighting;
use cxx_model::{ClassId, Entity, TypeId, TypeNode};
use cxx_types::TypeTable;
use std::alloc::AllocError;

// Whether two words stand in both lists or in neither.
fn same_bool(one: bool, two: bool) -> bool
    ensures { result ≡ same_bool_of one two && true }
{
    if one { two } else { !two }
}

#[tactic(auto, using(cxx_members::proofs::Functions::below_first))]
fn same_types(types: &TypeTable, ones: &[TypeId], twos: &[TypeId]) -> bool
    requires ones { AreTypesBelow (length types.now) ones.now }
    requires twos { AreTypesBelow (length types.now) twos.now }
    ensures { result ≡ same_types_of (types_at types.now ones.now) (types_at types.now twos.now) }
{
    let (mut ones, mut twos) = (ones, twos);
    while let [one, other_ones @ ..] = ones {
        let [two, other_twos @ ..] = twos else {
            return false;
        };
        if !types.same(*one, *two) {
            return false;
        }
        ones = other_ones;
        twos = other_twos;
    }
    twos.is_empty()
}

// Whether two functions have the same parameters; the words behind the lists are not compared.
#[tactic(auto, using(cxx_members::proofs::Functions::are_functions, cxx_members::proofs::Functions::one_is_none, cxx_members::proofs::Functions::two_is_none, cxx_members::proofs::Functions::parameters_below))]
fn same_parameters(types: &TypeTable, one: TypeId, two: TypeId) -> bool
    requires one { one.0 < length types.now }
    requires two { two.0 < length types.now }
    ensures { result ≡ same_parameter_lists true (type_at types.now one.0) (type_at types.now two.0) }
{
    match types.node(one) {
        TypeNode::Function {
            parameters: ones,
            ellipsis: first,
            ..
        } => match types.node(two) {
            TypeNode::Function {
                parameters: twos,
                ellipsis: second,
                ..
            } => {
                same_types(types, ones.as_slice(), twos.as_slice()) && same_bool(*first, *second)
            }
            _ => false,
        },
        _ => false,
    }
}

fn same_lists(types: &TypeTable, one: Entity, two: Entity) -> bool
    requires one { IsEntityBelow (length types.now) one }
    requires two { IsEntityBelow (length types.now) two }
    ensures { result ≡ have_same_lists (declares_at types.now one) (declares_at types.now two) }
{
    match one {
        Entity::Function { of: one, .. } => match two {
            Entity::Function { of: two, .. } => same_parameters(types, one, two),
            _ => false,
        },
        _ => false,
    }
}

fn is_redeclared_by(types: &TypeTable, one: Sighting, two: Sighting) -> bool
    requires one { IsEntityBelow (length types.now) one.what }
    requires two { IsEntityBelow (length types.now) two.what }
    ensures { result ≡ is_one_redeclared_by (sighting_at types.now one) (sighting_at types.now two) }
{
    two.itself.0 == two.meant.0 && same_lists(types, one.what, two.what)
}

fn any_redeclares(types: &TypeTable, sightings: &[Sighting], one: Sighting) -> bool
    requires sightings { AreBelow (length types.now) sightings.now }
    requires one { IsEntityBelow (length types.now) one.what }
    ensures { result ≡ list_any (is_one_redeclared_by (sighting_at types.now one)) (map (sighting_at types.now) sightings.now) }
{
    for two in sightings {
        if is_redeclared_by(types, one, *two) {
            return true;
        }
    }
    false
}

fn is_redeclared(types: &TypeTable, sightings: &[Sighting], one: Sighting) -> bool
    requires sightings { AreBelow (length types.now) sightings.now }
    requires one { IsEntityBelow (length types.now) one.what }
    ensures { result ≡ is_one_redeclared (map (sighting_at types.now) sightings.now) (sighting_at types.now one) }
{
    one.itself.0 != one.meant.0 && any_redeclares(types, sightings, one)
}

// Adds a declaration, where no other redeclares it.
fn keep_not_redeclared(
    types: &TypeTable,
    sightings: &[Sighting],
    one: Sighting,
    kept: &mut Vec<Sighting>,
) -> Result<(), AllocError>
    requires sightings { AreBelow (length types.now) sightings.now }
    requires one { IsEntityBelow (length types.now) one.what }
    ensures { OnOk result (Adds types.now kept.old.items kept.new.items (filter (λ other. not (is_one_redeclared (map (sighting_at types.now) sightings.now) other)) (sighting_at types.now one ∷ []))) }
{
    if is_redeclared(types, sightings, one) {
        return Ok(());
    }
    kept.push(one)?;
    Ok(())
}

impl Seeking<'_> {
    #[tactic(auto, using(cxx_members::proofs::Adding::adds_filtered), unfolding(cxx_meaning::specs::Lookups::Member::not_redeclared))]
    fn not_redeclared(&self, sightings: &[Sighting]) -> Result<Vec<Sighting>, AllocError>
        requires { AreBelow (length (types_of self.now)) sightings.now }
        ensures is { IfOk result (λ kept. map (sighting_at (types_of self.now)) kept.items ≡ not_redeclared_of (map (sighting_at (types_of self.now)) sightings.now)) }
        ensures below { IfOk result (λ kept. AreBelow (length (types_of self.now)) kept.items) }
    {
        let mut kept = Vec::new(self.looking.alloc);
        for one in sightings {
            keep_not_redeclared(self.looking.types, sightings, *one, &mut kept)?;
        }
        Ok(kept)
    }

    /// What the name means among the declarations of one class.
    #[tactic(auto, using(cxx_members::proofs::Adding::adds_to_none), unfolding(cxx_meaning::specs::Lookups::Member::declared_in))]
    pub fn declared_in(&self, class: ClassId) -> Result<Vec<Sighting>, AllocError>
        requires { IsSeeking self.now }
        ensures is { IfOk result (λ kept. map (sighting_at (types_of self.now)) kept.items ≡ declared_in_class (graph_of self.now) (wanted_of self.now) (name_of self.now) class) }
        ensures below { IfOk result (λ kept. AreBelow (length (types_of self.now)) kept.items) }
    {
        let mut found = Vec::new(self.looking.alloc);
        self.add_members(class, &mut found)?;
        let kept = self.not_redeclared(&found)?;
        self.looking.unhidden(&kept)
    }
}
