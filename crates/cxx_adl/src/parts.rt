//! What the types of some arguments lead to.

ghost use Rattle.std.specs.Prelude.{◌≡◌, ◌<◌, List, ◌∷◌, [], length, map, OnOk, IfOk};
ghost use Rattle.std.specs.List.{slice_get};
ghost use Rattle.cxx_model.specs.Types.Trees.{CxxType, class_type};
ghost use Rattle.cxx_model.specs.Types.Numbers.{type_at, type_over, IsNodeBelow, AreArgumentsBelow, AreTypesBelow, IsArgumentBelow, arguments_at, types_at};
ghost use Rattle.cxx_model.specs.Facts.Declarations.{declares_at, graph_at};
ghost use Rattle.cxx_model.specs.Facts.Fitted.{IsGraphBelow};
ghost use Rattle.cxx_meaning.specs.Lookups.Associated.{arguments_for, base_before, bases_of, of_type, each_of, holds_part, leads_to, parts as parts_of, same_part as same_parts, types_among, with_part, with_parts};
ghost use Rattle.cxx_adl.specs.Views.{base_by, base_list, given, ArePartsBelow, Becomes, IsPartBelow, facts_of, graph_of, part_at};

use crate::asking::Asking;
use cxx_graph::Graph;
use cxx_model::{Argument, ClassId, Entity, FactId, TypeId, TypeNode};
use cxx_types::TypeTable;
use std::alloc::{AllocError, Global};

/// A type that stands in those of some arguments, or a base of a class that does.
#[derive(Clone, Copy)]
pub enum Part {
    Type(TypeId),
    Base(ClassId),
}

impl Asking<'_> {
    fn same_part(&self, one: Part, two: Part) -> bool
        requires one { IsPartBelow (length self.now.types.now) one }
        requires two { IsPartBelow (length self.now.types.now) two }
        ensures { result ≡ same_parts (part_at self.now.types.now one) (part_at self.now.types.now two) }
    {
        match one {
            Part::Type(one) => match two {
                Part::Type(two) => self.types.same(one, two),
                Part::Base(_) => false,
            },
            Part::Base(one) => match two {
                Part::Type(_) => false,
                Part::Base(two) => one.0 == two.0,
            },
        }
    }

    fn holds(&self, parts: &[Part], part: Part) -> bool
        requires parts { ArePartsBelow (length self.now.types.now) parts.now }
        requires part { IsPartBelow (length self.now.types.now) part }
        ensures { result ≡ holds_part (map (part_at self.now.types.now) parts.now) (part_at self.now.types.now part) }
    {
        for other in parts {
            if self.same_part(part, *other) {
                return true;
            }
        }
        false
    }

    // Adds a part at the end, where it is not there yet.
    #[tactic(auto, using(crate::proofs::Growing::becomes_same, crate::proofs::Growing::becomes_more))]
    fn add(&self, parts: &mut Vec<Part>, part: Part) -> Result<(), AllocError>
        requires parts { ArePartsBelow (length self.now.types.now) parts.old.items }
        requires part { IsPartBelow (length self.now.types.now) part }
        ensures { OnOk result (Becomes self.now.types.now parts.old.items parts.new.items (with_part (map (part_at self.now.types.now) parts.old.items) (part_at self.now.types.now part))) }
    {
        if self.holds(parts, part) {
            return Ok(());
        }
        parts.push(part)?;
        Ok(())
    }

    // Adds each of some types.
    #[tactic(auto, unfolding(cxx_meaning::specs::Lookups::Associated::with_parts))]
    fn add_types(&self, parts: &mut Vec<Part>, types: &[TypeId]) -> Result<(), AllocError>
        requires parts { ArePartsBelow (length self.now.types.now) parts.old.items }
        requires types { AreTypesBelow (length self.now.types.now) types.now }
        ensures { OnOk result (Becomes self.now.types.now parts.old.items parts.new.items (with_parts (map (part_at self.now.types.now) parts.old.items) (each_of (types_at self.now.types.now types.now)))) }
    {
        for one in types {
            self.add(parts, Part::Type(*one))?;
        }
        Ok(())
    }

    // Adds the type of an argument of a template, where it is one.
    #[tactic(auto, using(crate::proofs::Growing::becomes_none), unfolding(cxx_meaning::specs::Lookups::Associated::with_parts))]
    fn add_argument(&self, parts: &mut Vec<Part>, argument: &Argument) -> Result<(), AllocError>
        requires parts { ArePartsBelow (length self.now.types.now) parts.old.items }
        requires argument { IsArgumentBelow (length self.now.types.now) argument.now }
        ensures { OnOk result (Becomes self.now.types.now parts.old.items parts.new.items (with_parts (map (part_at self.now.types.now) parts.old.items) (types_among (arguments_at self.now.types.now (argument.now ∷ []))))) }
    {
        match argument {
            Argument::OfType(of) => self.add(parts, Part::Type(*of)),
            _ => Ok(()),
        }
    }

    // Adds the types among the arguments of a template.
    #[tactic(auto, using(crate::proofs::Growing::argument_more), unfolding(cxx_meaning::specs::Lookups::Associated::with_parts))]
    fn add_arguments(&self, parts: &mut Vec<Part>, arguments: &[Argument]) -> Result<(), AllocError>
        requires parts { ArePartsBelow (length self.now.types.now) parts.old.items }
        requires arguments { AreArgumentsBelow (length self.now.types.now) arguments.now }
        ensures { OnOk result (Becomes self.now.types.now parts.old.items parts.new.items (with_parts (map (part_at self.now.types.now) parts.old.items) (types_among (arguments_at self.now.types.now arguments.now)))) }
    {
        for one in arguments {
            self.add_argument(parts, one)?;
        }
        Ok(())
    }

    // The base that a fact names, where it is there and of a direct base of a class.
    #[tactic(auto, using(crate::proofs::Bases::fact_is))]
    fn base_at(&self, class: ClassId, number: FactId) -> Option<ClassId>
        ensures { base_list result ≡ base_by class.0 (slice_get (facts_of self.now) number.0) }
    {
        match self.fact(number) {
            Some(fact) => base_in(class, fact.what),
            None => None,
        }
    }

    // Adds the base that a fact names.
    #[tactic(auto, using(crate::proofs::Growing::becomes_none), unfolding(cxx_meaning::specs::Lookups::Associated::with_parts))]
    fn add_base(
        &self,
        parts: &mut Vec<Part>,
        class: ClassId,
        number: FactId,
    ) -> Result<(), AllocError>
        requires parts { ArePartsBelow (length self.now.types.now) parts.old.items }
        ensures { OnOk result (Becomes self.now.types.now parts.old.items parts.new.items (with_parts (map (part_at self.now.types.now) parts.old.items) (base_by class.0 (slice_get (facts_of self.now) number.0)))) }
    {
        match self.base_at(class, number) {
            Some(parent) => self.add(parts, Part::Base(parent)),
            None => Ok(()),
        }
    }

    // Adds the direct bases of a class.
    #[tactic(auto, using(crate::proofs::Bases::base_more, crate::proofs::Bases::bases_are), unfolding(cxx_meaning::specs::Lookups::Associated::with_parts))]
    fn add_bases(&self, parts: &mut Vec<Part>, class: ClassId) -> Result<(), AllocError>
        requires parts { ArePartsBelow (length self.now.types.now) parts.old.items }
        ensures { OnOk result (Becomes self.now.types.now parts.old.items parts.new.items (with_parts (map (part_at self.now.types.now) parts.old.items) (bases_of (facts_of self.now) class.0))) }
    {
        for number in self.graph.ancestors(class) {
            self.add_base(parts, class, *number)?;
        }
        Ok(())
    }

    // Adds the types among the arguments of a specialisation, where a class is one.
    #[tactic(auto, using(crate::proofs::Growing::becomes_none, crate::proofs::Classes::no_arguments_for, crate::proofs::Classes::arguments_for_are, crate::proofs::Classes::class_below))]
    fn add_class_arguments(&self, parts: &mut Vec<Part>, class: ClassId) -> Result<(), AllocError>
        requires graph { IsGraphBelow (length self.now.types.now) self.now.graph.now }
        requires parts { ArePartsBelow (length self.now.types.now) parts.old.items }
        ensures { OnOk result (Becomes self.now.types.now parts.old.items parts.new.items (with_parts (map (part_at self.now.types.now) parts.old.items) (arguments_for (slice_get (graph_of self.now).classes class.0)))) }
    {
        match self.specialisation(class) {
            None => Ok(()),
            Some(of) => self.add_arguments(parts, of.arguments.as_slice()),
        }
    }

    // Adds the bases of a class, and the types among its arguments.
    #[tactic(auto, using(crate::proofs::Growing::becomes_both))]
    fn add_class(&self, parts: &mut Vec<Part>, class: ClassId) -> Result<(), AllocError>
        requires graph { IsGraphBelow (length self.now.types.now) self.now.graph.now }
        requires parts { ArePartsBelow (length self.now.types.now) parts.old.items }
        ensures { OnOk result (Becomes self.now.types.now parts.old.items parts.new.items (with_parts (map (part_at self.now.types.now) parts.old.items) (leads_to (graph_of self.now) (of_type (class_type class.0))))) }
    {
        self.add_bases(parts, class)?;
        self.add_class_arguments(parts, class)
    }

    // Adds the result and the parameters of a function.
    #[tactic(auto, unfolding(cxx_meaning::specs::Lookups::Associated::with_parts))]
    fn add_signature(
        &self,
        parts: &mut Vec<Part>,
        returned: TypeId,
        parameters: &[TypeId],
    ) -> Result<(), AllocError>
        requires parts { ArePartsBelow (length self.now.types.now) parts.old.items }
        requires returned { returned.0 < length self.now.types.now }
        requires parameters { AreTypesBelow (length self.now.types.now) parameters.now }
        ensures { OnOk result (Becomes self.now.types.now parts.old.items parts.new.items (with_parts (map (part_at self.now.types.now) parts.old.items) (of_type (type_at self.now.types.now returned.0) ∷ each_of (types_at self.now.types.now parameters.now)))) }
    {
        self.add(parts, Part::Type(returned))?;
        self.add_types(parts, parameters)
    }

    // Adds what a type leads to, by its outermost part.
    #[tactic(auto, using(crate::proofs::Growing::becomes_none), unfolding(cxx_meaning::specs::Lookups::Associated::with_parts))]
    fn add_below(&self, parts: &mut Vec<Part>, node: &TypeNode) -> Result<(), AllocError>
        requires graph { IsGraphBelow (length self.now.types.now) self.now.graph.now }
        requires parts { ArePartsBelow (length self.now.types.now) parts.old.items }
        requires node { IsNodeBelow (length self.now.types.now) node.now }
        ensures { OnOk result (Becomes self.now.types.now parts.old.items parts.new.items (with_parts (map (part_at self.now.types.now) parts.old.items) (leads_to (graph_of self.now) (of_type (type_over self.now.types.now node.now))))) }
    {
        match node {
            TypeNode::Class(class) => self.add_class(parts, *class),
            TypeNode::Pointer(of) => self.add(parts, Part::Type(*of)),
            TypeNode::Reference(of) => self.add(parts, Part::Type(*of)),
            TypeNode::Array(of, _) => self.add(parts, Part::Type(*of)),
            TypeNode::Qualified(_, of) => self.add(parts, Part::Type(*of)),
            TypeNode::Function {
                result,
                parameters,
                ..
            } => self.add_signature(parts, *result, parameters.as_slice()),
            TypeNode::Special(_, arguments) => self.add_arguments(parts, arguments.as_slice()),
            _ => Ok(()),
        }
    }

    // Adds what a part leads to.
    #[tactic(auto, using(cxx_model::proofs::TypeTrees::node_later))]
    fn add_next(&self, parts: &mut Vec<Part>, part: Part) -> Result<(), AllocError>
        requires graph { IsGraphBelow (length self.now.types.now) self.now.graph.now }
        requires parts { ArePartsBelow (length self.now.types.now) parts.old.items }
        requires part { IsPartBelow (length self.now.types.now) part }
        ensures { OnOk result (Becomes self.now.types.now parts.old.items parts.new.items (with_parts (map (part_at self.now.types.now) parts.old.items) (leads_to (graph_of self.now) (part_at self.now.types.now part)))) }
    {
        match part {
            Part::Type(of) => self.add_below(parts, self.types.node(of)),
            Part::Base(class) => self.add_bases(parts, class),
        }
    }

    /// What some types lead to, each once.
    #[tactic(auto, using(crate::proofs::Turns::way_begins, crate::proofs::Turns::way_shortens, crate::proofs::Turns::way_goes_on, crate::proofs::Turns::way_ends, crate::proofs::Turns::below_at))]
    pub fn parts(&self, of: &[TypeId]) -> Result<Vec<Part>, AllocError>
        requires graph { IsGraphBelow (length self.now.types.now) self.now.graph.now }
        requires of { AreTypesBelow (length self.now.types.now) of.now }
        ensures is { IfOk result (λ parts. map (part_at self.now.types.now) parts.items ≡ parts_of (graph_of self.now) (given self.now.types.now of.now)) }
        ensures below { IfOk result (λ parts. ArePartsBelow (length self.now.types.now) parts.items) }
    {
        let mut found = Vec::new(self.alloc);
        self.add_types(&mut found, of)?;
        let mut place = 0;
        while place < found.len() {
            let part = found[place];
            self.add_next(&mut found, part)?;
            place += 1;
        }
        Ok(found)
    }
}

/// What the types of some arguments lead to (3.4.2), each once. No fact is looked at but those of classes.
pub fn reached(
    alloc: Global,
    graph: &Graph,
    types: &TypeTable,
    of: &[TypeId],
) -> Result<Vec<Part>, AllocError>
    requires graph_below { IsGraphBelow (length types.now) graph.now }
    requires of_below { AreTypesBelow (length types.now) of.now }
    ensures is { IfOk result (λ parts. map (part_at types.now) parts.items ≡ parts_of (graph_at types.now graph.now) (given types.now of.now)) }
    ensures below { IfOk result (λ parts. ArePartsBelow (length types.now) parts.items) }
{
    let asking = Asking {
        alloc,
        graph,
        types,
    };
    asking.parts(of)
}

// The base that a fact names, where it is of a direct base of a class.
fn base_in(class: ClassId, what: Entity) -> Option<ClassId>
    ensures { (types : List CxxType) → base_list result ≡ base_before class.0 (declares_at types what) [] }
{
    match what {
        Entity::Ancestor {
            class: derived,
            parent,
            ..
        } => {
            if derived.0 == class.0 {
                Some(parent)
            } else {
                None
            }
        }
        _ => None,
    }
}
