//! Members of a class and of its bases (10.2).

ghost use Rattle.std.specs.Prelude.{◌≡◌, ◌<◌, ◌&&◌, true, [], ◌∷◌, length, map, filter, not, option_map, IfSome, OnOk, IfOk};
ghost use Rattle.cxx_model.specs.Types.Numbers.{type_at, types_at, AreTypesBelow};
ghost use Rattle.cxx_model.specs.Types.Same.{same_bool as same_bool_of, same_types as same_types_of};
ghost use Rattle.cxx_model.specs.Facts.Conflicts.{same_parameters as same_parameter_lists};
ghost use Rattle.std.specs.List.{list_any, slice_get};
ghost use Rattle.cxx_model.specs.Facts.Declarations.{declares_at, fact_at, name_at};
ghost use Rattle.cxx_model.specs.Facts.Fitted.{IsEntityBelow, IsFactBelow, IsNameBelow};
ghost use Rattle.cxx_meaning.specs.Lookups.Member.{declared_in as declared_in_class, is_of_class as is_the_class_of, is_redeclared as is_one_redeclared, is_redeclared_by as is_one_redeclared_by, member_in as member_sighted, members_in, not_redeclared as not_redeclared_of, same_lists as have_same_lists};
ghost use Rattle.cxx_members.specs.Views.{IsLooking, graph_of, facts_of, wanted_at};
ghost use Rattle.cxx_members.specs.Sighted.{Adds, AreBelow, given_at, sighting_at};

use crate::looking::Looking;
use crate::sightings::{Sighting, Sought};
use cxx_model::{ClassId, Entity, Fact, Steps, TypeId, TypeNode};
use std::alloc::AllocError;
use std::sync::ledger::Ledger;

fn is_of_class(class: ClassId, of: Option<ClassId>) -> bool
    ensures { result ≡ is_the_class_of class of }
{
    match of {
        None => false,
        Some(other) => other.0 == class.0,
    }
}

impl Looking<'_> {
    // A declaration of a name in a class.
    #[tactic(auto, unfolding(cxx_meaning::specs::Lookups::Member::member_in))]
    fn member_in<L: Ledger>(
        &self,
        sought: &Sought,
        class: ClassId,
        number: u32,
        fact: &Fact,
        steps: &mut Steps<L>,
    ) -> Option<Sighting>
        requires looking { IsLooking self.now }
        requires name { IsNameBelow (length self.now.types.now) sought.now.name.now }
        requires fact { IsFactBelow (length self.now.types.now) fact.now }
        ensures is { option_map (sighting_at self.now.types.now) result ≡ member_sighted (graph_of self.now) (wanted_at sought.now.wanted) (name_at self.now.types.now sought.now.name.now) class number (fact_at self.now.types.now fact.now) }
        ensures below { IfSome result (λ one. IsEntityBelow (length self.now.types.now) one.what) }
    {
        if self.is_named(sought.name, fact) && is_of_class(class, self.class_of(fact.scope)) {
            let sighting = self.sighting(number, fact, steps);
            self.wanted_one(sought.wanted, sighting)
        } else {
            None
        }
    }

    // Adds a fact, where it is a declaration of the name in the class.
    #[tactic(auto, using(crate::proofs::Kept::fact_is))]
    fn add_if_member<L: Ledger>(
        &self,
        sought: &Sought,
        class: ClassId,
        number: u32,
        found: &mut Vec<Sighting>,
        steps: &mut Steps<L>,
    ) -> Result<(), AllocError>
        requires looking { IsLooking self.now }
        requires name { IsNameBelow (length self.now.types.now) sought.now.name.now }
        ensures { OnOk result (Adds self.now.types.now found.old.items found.new.items (given_at (member_sighted (graph_of self.now) (wanted_at sought.now.wanted) (name_at self.now.types.now sought.now.name.now) class) number (slice_get (facts_of self.now) number))) }
    {
        let one = match self.fact(u64::from(number), steps) {
            None => None,
            Some(fact) => self.member_in(sought, class, number, fact, steps),
        };
        self.add_sighting(found, one)
    }

    // Adds the declarations of a name in a class.
    #[tactic(auto, using(crate::proofs::Adding::adds_more, crate::proofs::Adding::adds_all), unfolding(cxx_meaning::specs::Lookups::Member::members_in))]
    fn add_members<L: Ledger>(
        &self,
        sought: &Sought,
        class: ClassId,
        found: &mut Vec<Sighting>,
        steps: &mut Steps<L>,
    ) -> Result<(), AllocError>
        requires looking { IsLooking self.now }
        requires name { IsNameBelow (length self.now.types.now) sought.now.name.now }
        ensures { OnOk result (Adds self.now.types.now found.old.items found.new.items (members_in (graph_of self.now) (wanted_at sought.now.wanted) (name_at self.now.types.now sought.now.name.now) class)) }
    {
        for number in 0..self.graph.length() {
            self.add_if_member(sought, class, number, found, steps)?;
        }
        Ok(())
    }

    // ---- 7.3.3

    #[tactic(auto, using(crate::proofs::Functions::below_first))]
    fn same_types(&self, ones: &[TypeId], twos: &[TypeId]) -> bool
        requires ones { AreTypesBelow (length self.now.types.now) ones.now }
        requires twos { AreTypesBelow (length self.now.types.now) twos.now }
        ensures { result ≡ same_types_of (types_at self.now.types.now ones.now) (types_at self.now.types.now twos.now) }
    {
        let (mut ones, mut twos) = (ones, twos);
        while let [one, other_ones @ ..] = ones {
            let [two, other_twos @ ..] = twos else {
                return false;
            };
            if !self.types.same(*one, *two) {
                return false;
            }
            ones = other_ones;
            twos = other_twos;
        }
        twos.is_empty()
    }

    // Whether two functions have the same parameters; the words behind the lists are not compared.
    #[tactic(auto, using(crate::proofs::Functions::are_functions, crate::proofs::Functions::one_is_none, crate::proofs::Functions::two_is_none, crate::proofs::Functions::parameters_below))]
    fn same_parameters(&self, one: TypeId, two: TypeId) -> bool
        requires one { one.0 < length self.now.types.now }
        requires two { two.0 < length self.now.types.now }
        ensures { result ≡ same_parameter_lists true (type_at self.now.types.now one.0) (type_at self.now.types.now two.0) }
    {
        match self.types.node(one) {
            TypeNode::Function {
                parameters: ones,
                ellipsis: first,
                ..
            } => match self.types.node(two) {
                TypeNode::Function {
                    parameters: twos,
                    ellipsis: second,
                    ..
                } => {
                    self.same_types(ones.as_slice(), twos.as_slice()) && same_bool(*first, *second)
                }
                _ => false,
            },
            _ => false,
        }
    }

    fn same_lists(&self, one: Entity, two: Entity) -> bool
        requires one { IsEntityBelow (length self.now.types.now) one }
        requires two { IsEntityBelow (length self.now.types.now) two }
        ensures { result ≡ have_same_lists (declares_at self.now.types.now one) (declares_at self.now.types.now two) }
    {
        match one {
            Entity::Function { of: one, .. } => match two {
                Entity::Function { of: two, .. } => self.same_parameters(one, two),
                _ => false,
            },
            _ => false,
        }
    }

    fn is_redeclared_by(&self, one: Sighting, two: Sighting) -> bool
        requires one { IsEntityBelow (length self.now.types.now) one.what }
        requires two { IsEntityBelow (length self.now.types.now) two.what }
        ensures { result ≡ is_one_redeclared_by (sighting_at self.now.types.now one) (sighting_at self.now.types.now two) }
    {
        two.itself.0 == two.meant.0 && self.same_lists(one.what, two.what)
    }

    fn any_redeclares(&self, sightings: &[Sighting], one: Sighting) -> bool
        requires sightings { AreBelow (length self.now.types.now) sightings.now }
        requires one { IsEntityBelow (length self.now.types.now) one.what }
        ensures { result ≡ list_any (is_one_redeclared_by (sighting_at self.now.types.now one)) (map (sighting_at self.now.types.now) sightings.now) }
    {
        for two in sightings {
            if self.is_redeclared_by(one, *two) {
                return true;
            }
        }
        false
    }

    fn is_redeclared(&self, sightings: &[Sighting], one: Sighting) -> bool
        requires sightings { AreBelow (length self.now.types.now) sightings.now }
        requires one { IsEntityBelow (length self.now.types.now) one.what }
        ensures { result ≡ is_one_redeclared (map (sighting_at self.now.types.now) sightings.now) (sighting_at self.now.types.now one) }
    {
        one.itself.0 != one.meant.0 && self.any_redeclares(sightings, one)
    }

    // Adds a declaration, where no other redeclares it.
    fn keep_not_redeclared(
        &self,
        sightings: &[Sighting],
        one: Sighting,
        kept: &mut Vec<Sighting>,
    ) -> Result<(), AllocError>
        requires sightings { AreBelow (length self.now.types.now) sightings.now }
        requires one { IsEntityBelow (length self.now.types.now) one.what }
        ensures { OnOk result (Adds self.now.types.now kept.old.items kept.new.items (filter (λ other. not (is_one_redeclared (map (sighting_at self.now.types.now) sightings.now) other)) (sighting_at self.now.types.now one ∷ []))) }
    {
        if self.is_redeclared(sightings, one) {
            return Ok(());
        }
        kept.push(one)?;
        Ok(())
    }

    #[tactic(auto, using(crate::proofs::Adding::adds_filtered), unfolding(cxx_meaning::specs::Lookups::Member::not_redeclared))]
    fn not_redeclared(&self, sightings: &[Sighting]) -> Result<Vec<Sighting>, AllocError>
        requires { AreBelow (length self.now.types.now) sightings.now }
        ensures is { IfOk result (λ kept. map (sighting_at self.now.types.now) kept.items ≡ not_redeclared_of (map (sighting_at self.now.types.now) sightings.now)) }
        ensures below { IfOk result (λ kept. AreBelow (length self.now.types.now) kept.items) }
    {
        let mut kept = Vec::new(self.alloc);
        for one in sightings {
            self.keep_not_redeclared(sightings, *one, &mut kept)?;
        }
        Ok(kept)
    }

    /// What a name means among the declarations of one class.
    #[tactic(auto, using(crate::proofs::Adding::adds_to_none), unfolding(cxx_meaning::specs::Lookups::Member::declared_in))]
    pub fn declared_in<L: Ledger>(
        &self,
        sought: &Sought,
        class: ClassId,
        steps: &mut Steps<L>,
    ) -> Result<Vec<Sighting>, AllocError>
        requires looking { IsLooking self.now }
        requires name { IsNameBelow (length self.now.types.now) sought.now.name.now }
        ensures is { IfOk result (λ kept. map (sighting_at self.now.types.now) kept.items ≡ declared_in_class (graph_of self.now) (wanted_at sought.now.wanted) (name_at self.now.types.now sought.now.name.now) class) }
        ensures below { IfOk result (λ kept. AreBelow (length self.now.types.now) kept.items) }
    {
        let mut found = Vec::new(self.alloc);
        self.add_members(sought, class, &mut found, steps)?;
        let kept = self.not_redeclared(&found)?;
        self.unhidden(&kept)
    }
}

// Whether two words stand in both lists or in neither.
fn same_bool(one: bool, two: bool) -> bool
    ensures { result ≡ same_bool_of one two && true }
{
    if one { two } else { !two }
}
