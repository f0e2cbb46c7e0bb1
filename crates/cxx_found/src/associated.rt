//! The functions that the types of arguments find (3.4.2).

ghost use Rattle.std.specs.Prelude.{◌≡◌, ◌<◌, [], ◌∷◌, ◌++◌, length, map, option_map, IfOk, IfSome, OnOk};
ghost use Rattle.cxx_adl.specs.Views.{ArePartsBelow, IsPartBelow, part_at};
ghost use Rattle.cxx_found.specs.Associated.{AreFoundBy, any_pending as any_pending_of, befriended_in, enumeration_scope_of, friends_in, friends_of_class, given, is_pending_by, with_enumeration_classes};
ghost use Rattle.cxx_found.specs.Views.{IsSeeking, cut_of, graph_of, name_of, types_of, wanted_of};
ghost use Rattle.cxx_meaning.specs.Lookups.Associated.{class_at_scope, class_of as class_of_part, collected, functions_among, of_type, own_classes, scope_of as scope_of_part, space_at_scope, spaces_of, standing_in_each, with_spaces};
ghost use Rattle.cxx_meaning.specs.Lookups.Gathered.{before};
ghost use Rattle.cxx_meaning.specs.Lookups.Sightings.{entities};
ghost use Rattle.cxx_meaning.specs.Lookups.Wanted.{any_name};
ghost use Rattle.cxx_members.specs.Sighted.{Adds, AreBelow, sighting_at};
ghost use Rattle.cxx_model.specs.Facts.Fitted.{IsEntityBelow};
ghost use Rattle.cxx_model.specs.Types.Numbers.{AreTypesBelow, type_over};

use crate::nowhere::lead_nowhere;
use crate::seeking::Seeking;
use cxx_adl::{Part, add_option, reached};
use cxx_members::Sighting;
use cxx_model::{ClassId, FactId, FactList, ScopeId, TypeId, TypeNode};
use std::alloc::AllocError;

impl Seeking<'_> {
    // ---- namespaces

    // The scope in which a type is declared, where it is a class or an enumeration.
    fn scope_of_node(&self, node: &TypeNode) -> Option<ScopeId>
        requires { IsSeeking self.now }
        ensures { result ≡ scope_of_part (graph_of self.now) (of_type (type_over (types_of self.now) node.now)) }
    {
        match node {
            TypeNode::Enum(number) => self.names.scope_of_enumeration(self.looking.graph, *number),
            TypeNode::Class(class) => self.names.scope_of_class(self.looking.graph, *class),
            _ => None,
        }
    }

    // The scope in which what a part names is declared.
    fn scope_of(&self, part: Part) -> Option<ScopeId>
        requires seeking { IsSeeking self.now }
        requires below { IsPartBelow (length (types_of self.now)) part }
        ensures { result ≡ scope_of_part (graph_of self.now) (part_at (types_of self.now) part) }
    {
        match part {
            Part::Type(of) => self.scope_of_node(self.looking.types.node(of)),
            Part::Base(class) => self.names.scope_of_class(self.looking.graph, class),
        }
    }

    // The innermost namespace of a scope.
    #[tactic(auto, using(crate::proofs::Parts::space_is))]
    fn space_at(&self, scope: Option<ScopeId>) -> Option<u32>
        requires { IsSeeking self.now }
        ensures { result ≡ space_at_scope (graph_of self.now) scope }
    {
        match scope {
            Some(scope) => Some(self.names.home(self.looking.graph, scope).0),
            None => None,
        }
    }

    // Adds the namespaces of what parts name.
    #[tactic(auto, unfolding(cxx_meaning::specs::Lookups::Associated::collected))]
    fn add_spaces(&self, parts: &[Part], spaces: &mut Vec<u32>) -> Result<(), AllocError>
        requires seeking { IsSeeking self.now }
        requires below { ArePartsBelow (length (types_of self.now)) parts.now }
        ensures { OnOk result (spaces.new.items ≡ with_spaces (graph_of self.now) (map (part_at (types_of self.now)) parts.now) spaces.old.items) }
    {
        for part in parts {
            let space = self.space_at(self.scope_of(*part));
            add_option(spaces, space)?;
        }
        Ok(())
    }

    // The namespaces of what parts name, ascending.
    #[tactic(auto, using(crate::proofs::Parts::spaces_are))]
    fn spaces(&self, parts: &[Part]) -> Result<Vec<u32>, AllocError>
        requires seeking { IsSeeking self.now }
        requires below { ArePartsBelow (length (types_of self.now)) parts.now }
        ensures { IfOk result (λ spaces. spaces.items ≡ spaces_of (graph_of self.now) (map (part_at (types_of self.now)) parts.now)) }
    {
        let mut spaces = Vec::new(self.looking.alloc);
        self.add_spaces(parts, &mut spaces)?;
        Ok(spaces)
    }

    // ---- classes

    fn class_of_node(&self, node: &TypeNode) -> Option<u32>
        ensures { result ≡ class_of_part (of_type (type_over (types_of self.now) node.now)) }
    {
        match node {
            TypeNode::Class(class) => Some(class.0),
            _ => None,
        }
    }

    // A class, or a base of one.
    fn class_in(&self, part: Part) -> Option<u32>
        requires { IsPartBelow (length (types_of self.now)) part }
        ensures { result ≡ class_of_part (part_at (types_of self.now) part) }
    {
        match part {
            Part::Type(of) => self.class_of_node(self.looking.types.node(of)),
            Part::Base(class) => Some(class.0),
        }
    }

    // Adds the classes among some parts.
    #[tactic(auto, unfolding(cxx_meaning::specs::Lookups::Associated::collected))]
    fn add_classes(&self, parts: &[Part], classes: &mut Vec<u32>) -> Result<(), AllocError>
        requires { ArePartsBelow (length (types_of self.now)) parts.now }
        ensures { OnOk result (classes.new.items ≡ collected class_of_part classes.old.items (map (part_at (types_of self.now)) parts.now)) }
    {
        for part in parts {
            add_option(classes, self.class_in(*part))?;
        }
        Ok(())
    }

    fn enumeration_scope_of_node(&self, node: &TypeNode) -> Option<ScopeId>
        requires { IsSeeking self.now }
        ensures { result ≡ enumeration_scope_of (graph_of self.now) (of_type (type_over (types_of self.now) node.now)) }
    {
        match node {
            TypeNode::Enum(number) => self.names.scope_of_enumeration(self.looking.graph, *number),
            _ => None,
        }
    }

    // The scope in which an enumeration is declared.
    fn enumeration_scope(&self, part: Part) -> Option<ScopeId>
        requires seeking { IsSeeking self.now }
        requires below { IsPartBelow (length (types_of self.now)) part }
        ensures { result ≡ enumeration_scope_of (graph_of self.now) (part_at (types_of self.now) part) }
    {
        match part {
            Part::Type(of) => self.enumeration_scope_of_node(self.looking.types.node(of)),
            Part::Base(_class) => None,
        }
    }

    // The class of which a scope is.
    fn class_at(&self, scope: Option<ScopeId>) -> Option<u32>
        requires { IsSeeking self.now }
        ensures { result ≡ class_at_scope (graph_of self.now) scope }
    {
        match scope {
            Some(scope) => match self.names.class_of_scope(self.looking.graph, scope) {
                Some(class) => Some(class.0),
                None => None,
            },
            None => None,
        }
    }

    // Adds the classes of which enumerations among some parts are members.
    #[tactic(auto, unfolding(cxx_meaning::specs::Lookups::Associated::collected))]
    fn add_member_classes(&self, parts: &[Part], classes: &mut Vec<u32>) -> Result<(), AllocError>
        requires seeking { IsSeeking self.now }
        requires below { ArePartsBelow (length (types_of self.now)) parts.now }
        ensures { OnOk result (classes.new.items ≡ with_enumeration_classes (graph_of self.now) (map (part_at (types_of self.now)) parts.now) classes.old.items) }
    {
        for part in parts {
            let class = self.class_at(self.enumeration_scope(*part));
            add_option(classes, class)?;
        }
        Ok(())
    }

    // The classes among some parts, and those of which enumerations are members, ascending.
    fn classes(&self, parts: &[Part]) -> Result<Vec<u32>, AllocError>
        requires seeking { IsSeeking self.now }
        requires below { ArePartsBelow (length (types_of self.now)) parts.now }
        ensures { IfOk result (λ classes. classes.items ≡ with_enumeration_classes (graph_of self.now) (map (part_at (types_of self.now)) parts.now) (own_classes (map (part_at (types_of self.now)) parts.now))) }
    {
        let mut classes = Vec::new(self.looking.alloc);
        self.add_classes(parts, &mut classes)?;
        self.add_member_classes(parts, &mut classes)?;
        Ok(classes)
    }

    // Whether a class has to be complete first (14.7.1).
    fn is_pending(&self, class: Option<u32>) -> bool
        ensures { result ≡ is_pending_by (graph_of self.now) class }
    {
        match class {
            Some(class) => self.looking.graph.pending(ClassId(class)),
            None => false,
        }
    }

    // Whether one among some parts has to be complete first.
    fn any_pending(&self, parts: &[Part]) -> bool
        requires { ArePartsBelow (length (types_of self.now)) parts.now }
        ensures { result ≡ any_pending_of (graph_of self.now) (map (part_at (types_of self.now)) parts.now) }
    {
        for part in parts {
            if self.is_pending(self.class_in(*part)) {
                return true;
            }
        }
        false
    }

    // ---- functions

    // Adds the declarations of the name in some namespaces.
    #[tactic(auto, using(cxx_members::proofs::Adding::adds_none, crate::proofs::Parts::each_more), unfolding(cxx_meaning::specs::Lookups::Associated::standing_in_each))]
    fn add_in_each(&self, spaces: &[u32], found: &mut Vec<Sighting>) -> Result<(), AllocError>
        requires seeking { IsSeeking self.now }
        requires wanted { wanted_of self.now ≡ any_name }
        ensures { OnOk result (Adds (types_of self.now) found.old.items found.new.items (standing_in_each (graph_of self.now) (cut_of self.now) (name_of self.now) spaces.now)) }
    {
        for space in spaces {
            self.add_standing(ScopeId(*space), found)?;
        }
        Ok(())
    }

    // Adds what a friend declaration declares, where that has the name.
    fn add_friend(&self, target: FactId, found: &mut Vec<Sighting>) -> Result<(), AllocError>
        requires { IsSeeking self.now }
        ensures { OnOk result (Adds (types_of self.now) found.old.items found.new.items (befriended_in (graph_of self.now) (name_of self.now) (target ∷ []))) }
    {
        let one = self.befriended(target);
        self.looking.add_sighting(found, one)
    }

    // Adds what some friend declarations declare, where that has the name.
    #[tactic(auto, using(cxx_members::proofs::Adding::adds_none, crate::proofs::Friends::friend_more))]
    fn add_befriended(
        &self,
        targets: &[FactId],
        found: &mut Vec<Sighting>,
    ) -> Result<(), AllocError>
        requires { IsSeeking self.now }
        ensures { OnOk result (Adds (types_of self.now) found.old.items found.new.items (befriended_in (graph_of self.now) (name_of self.now) targets.now)) }
    {
        for target in targets {
            self.add_friend(*target, found)?;
        }
        Ok(())
    }

    // Adds what a class befriends, where that has the name (11.4).
    fn add_friends_of(&self, class: u32, found: &mut Vec<Sighting>) -> Result<(), AllocError>
        requires { IsSeeking self.now }
        ensures { OnOk result (Adds (types_of self.now) found.old.items found.new.items (friends_of_class (graph_of self.now) (name_of self.now) (self.now).looking.graph.now.facts class)) }
    {
        let targets = self
            .names
            .friends_of_class(self.looking.graph, ClassId(class));
        self.add_befriended(targets, found)
    }

    // Adds what some classes befriend, where that has the name.
    #[tactic(auto, using(cxx_members::proofs::Adding::adds_none, crate::proofs::Friends::class_more))]
    fn add_friends(&self, classes: &[u32], found: &mut Vec<Sighting>) -> Result<(), AllocError>
        requires { IsSeeking self.now }
        ensures { OnOk result (Adds (types_of self.now) found.old.items found.new.items (friends_in (graph_of self.now) (name_of self.now) (self.now).looking.graph.now.facts classes.now)) }
    {
        for class in classes {
            self.add_friends_of(*class, found)?;
        }
        Ok(())
    }

    // Adds the declarations of the name in some namespaces, and those that some classes befriend.
    #[tactic(auto, using(cxx_members::proofs::Adding::adds_both))]
    fn add_both(
        &self,
        spaces: &[u32],
        classes: &[u32],
        found: &mut Vec<Sighting>,
    ) -> Result<(), AllocError>
        requires seeking { IsSeeking self.now }
        requires wanted { wanted_of self.now ≡ any_name }
        ensures { OnOk result (Adds (types_of self.now) found.old.items found.new.items (standing_in_each (graph_of self.now) (cut_of self.now) (name_of self.now) spaces.now ++ friends_in (graph_of self.now) (name_of self.now) (self.now).looking.graph.now.facts classes.now)) }
    {
        self.add_in_each(spaces, found)?;
        self.add_friends(classes, found)
    }

    // A declaration, where it is one of a function.
    fn function_of(&self, one: Sighting) -> Option<Sighting>
        requires { IsEntityBelow (length (types_of self.now)) one.what }
        ensures is { before (option_map (sighting_at (types_of self.now)) result) [] ≡ functions_among (graph_of self.now) (sighting_at (types_of self.now) one ∷ []) }
        ensures below { IfSome result (λ one. IsEntityBelow (length (types_of self.now)) one.what) }
    {
        if self.looking.is_function(one.what) {
            Some(one)
        } else {
            None
        }
    }

    // Adds a declaration, where it is one of a function.
    fn add_function(&self, one: Sighting, found: &mut Vec<Sighting>) -> Result<(), AllocError>
        requires { IsEntityBelow (length (types_of self.now)) one.what }
        ensures { OnOk result (Adds (types_of self.now) found.old.items found.new.items (functions_among (graph_of self.now) (sighting_at (types_of self.now) one ∷ []))) }
    {
        let function = self.function_of(one);
        self.looking.add_sighting(found, function)
    }

    // Those of some declarations that are of functions.
    #[tactic(auto, using(cxx_members::proofs::Adding::adds_filtered))]
    fn functions(&self, sightings: &[Sighting]) -> Result<Vec<Sighting>, AllocError>
        requires { AreBelow (length (types_of self.now)) sightings.now }
        ensures is { IfOk result (λ found. map (sighting_at (types_of self.now)) found.items ≡ functions_among (graph_of self.now) (map (sighting_at (types_of self.now)) sightings.now)) }
        ensures below { IfOk result (λ found. AreBelow (length (types_of self.now)) found.items) }
    {
        let mut found = Vec::new(self.looking.alloc);
        for one in sightings {
            self.add_function(*one, &mut found)?;
        }
        Ok(found)
    }

    // The functions of the name in some namespaces, and those that some classes befriend, by their first declarations.
    fn found_in(&self, spaces: &[u32], classes: &[u32]) -> Result<FactList, AllocError>
        requires seeking { IsSeeking self.now }
        requires wanted { wanted_of self.now ≡ any_name }
        ensures { IfOk result (λ found. found ≡ entities (functions_among (graph_of self.now) (standing_in_each (graph_of self.now) (cut_of self.now) (name_of self.now) spaces.now ++ friends_in (graph_of self.now) (name_of self.now) (self.now).looking.graph.now.facts classes.now))) }
    {
        let mut all = Vec::new(self.looking.alloc);
        self.add_both(spaces, classes, &mut all)?;
        let functions = self.functions(&all)?;
        Ok(FactList::from_vec(self.looking.entities(&functions)?))
    }

    /// The functions of the name that some types find, by their first declarations.
    #[tactic(auto, using(crate::proofs::Parts::found_are, crate::proofs::Parts::found_pending, crate::proofs::Leading::found_nothing))]
    pub fn found_by_types(&self, of: &[TypeId]) -> Result<FactList, AllocError>
        requires seeking { IsSeeking self.now }
        requires wanted { wanted_of self.now ≡ any_name }
        requires of { AreTypesBelow (length (types_of self.now)) of.now }
        ensures { IfOk result (AreFoundBy (graph_of self.now) (given (types_of self.now) of.now) (name_of self.now)) }
    {
        if lead_nowhere(self.looking.types, of) {
            return Ok(FactList::new(self.looking.alloc));
        }
        let parts = reached(
            self.looking.alloc,
            self.looking.graph,
            self.looking.types,
            of,
        )?;
        if self.any_pending(&parts) {
            return Ok(FactList::new(self.looking.alloc));
        }
        let spaces = self.spaces(&parts)?;
        let classes = self.classes(&parts)?;
        self.found_in(&spaces, &classes)
    }
}
